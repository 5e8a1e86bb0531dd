//! Why a text is refused.
ghost use Rattle.std.specs.Prelude.{◌≡◌};
ghost use Rattle.ordered_json.specs.declared.fault.JsonFault.TheVariants.{Memory};
ghost use Rattle.ordered_json.specs.Words.{fault_place};

use crate::{MAX_LEVELS, MAX_TEXT};
use std::alloc::AllocError;
use thiserror::Error;

/// Why a text is no JSON text that is taken here. Each fault but `TooLong` and `Memory` carries its
/// place, an offset in bytes from 0.
#[derive(Clone, Copy, Debug, PartialEq, Eq, Error)]
pub enum JsonFault {
    /// The first byte after which nothing can make the text a JSON text; for a text that ends too
    /// early, its length.
    #[error("no JSON text goes on so at byte {0}")]
    Syntax(usize),
    /// A key that its object has already, at its opening quote.
    #[error("the key at byte {0} comes twice in its object")]
    DoubleKey(usize),
    /// A number with a fraction or an exponent, at its first byte.
    #[error("the number at byte {0} has a fraction or an exponent")]
    Fraction(usize),
    /// A whole number outside 64 bits with a sign, at its first byte.
    #[error("the number at byte {0} does not fit 64 bits")]
    Range(usize),
    /// The bracket that opens a level more than `MAX_LEVELS`.
    #[error("the bracket at byte {0} opens more than {max} levels", max = MAX_LEVELS)]
    TooDeep(usize),
    /// A text of more than `MAX_TEXT` bytes.
    #[error("the text is longer than {max} bytes", max = MAX_TEXT)]
    TooLong,
    /// Memory ran out.
    #[error("out of memory")]
    Memory,
}

impl JsonFault {
    /// Where the fault stands: `TooLong` at `MAX_TEXT`, `Memory` at 0.
    pub fn place(self) -> usize
        ensures { result ≡ fault_place self }
    {
        match self {
            JsonFault::Syntax(place)
            | JsonFault::DoubleKey(place)
            | JsonFault::Fraction(place)
            | JsonFault::Range(place)
            | JsonFault::TooDeep(place) => place,
            JsonFault::TooLong => MAX_TEXT,
            JsonFault::Memory => 0,
        }
    }
}

impl From<AllocError> for JsonFault {
    ghost from_gives = { λ _ e. e ≡ Memory };

    fn from(_error: AllocError) -> JsonFault {
        JsonFault::Memory
    }
}
