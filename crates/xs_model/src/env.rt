//! What an expression reads, and why one gives no value.

ghost use Rattle.std.specs.Prelude.{◌≡◌};

use crate::value::Value;
use std::alloc::{AllocError, AllocFailed};

/// What an expression reads.
#[derive(Clone, Copy, Debug)]
pub struct Env<'a> {
    pub context: &'a Value,
    pub event: &'a Value,
    pub params: &'a Value,
    pub input: &'a Value,
}

/// Why an expression gives no value.
#[derive(Clone, Copy, Debug, PartialEq, Eq, thiserror::Error)]
pub enum EvalFault {
    /// A step of a path finds nothing.
    #[error("a path leads to nothing")]
    Missing,
    /// An operand is of another kind than its operator takes.
    #[error("an operand is of a wrong kind")]
    Kind,
    /// A number is past 64 bits, or a divisor is zero.
    #[error("a number is out of range")]
    Range,
    /// A value has more than 65,536 bytes of compact text or nests deeper than 32.
    #[error("a value is too large")]
    TooLarge,
    /// There was no memory.
    #[error("no memory")]
    Memory,
}

impl From<AllocError> for EvalFault {
    ghost use Rattle.xs_model.specs.declared.env.EvalFault.TheVariants.{Memory};

    ghost from_gives = { λ _ fault. fault ≡ Memory };

    fn from(_: AllocError) -> EvalFault {
        EvalFault::Memory
    }
}

impl<T: Drop> From<AllocFailed<T>> for EvalFault {
    ghost use Rattle.xs_model.specs.declared.env.EvalFault.TheVariants.{Memory};

    ghost from_gives = { λ _ fault. fault ≡ Memory };

    fn from(_: AllocFailed<T>) -> EvalFault {
        EvalFault::Memory
    }
}
