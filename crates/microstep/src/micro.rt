//! What is picked, and what a microstep gives.

use office_types::{Effects, FaultName, Own};
use std::alloc::AllocError;
use xs_data::Items;
use xs_model::{EvalFault, Value};

/// Values, in order.
pub type Values = Items<Value>;

/// Transitions, in document order of their nodes: for each its node, and its place there.
pub type Places = Items<(u32, usize)>;

/// What is selected.
#[derive(Debug, Drop)]
pub struct Picked {
    /// Whether the places are those of `always`, for a step without an event, or of `transitions`.
    pub eventless: bool,
    pub taken: Places,
}

/// What a microstep gives.
#[derive(Debug, Drop)]
pub struct Micro {
    pub own: Own,
    /// The events that were raised and not taken yet, the oldest first.
    pub raised: Values,
    pub effects: Effects,
    /// How many actions ran, or the greatest number of its type where they are more.
    pub actions: u32,
    /// Whether the machine is done: this microstep was the last.
    pub finished: bool,
}

/// Why a step gives nothing.
#[derive(Clone, Copy, Debug, PartialEq, Eq)]
pub enum StepFault {
    /// The fault that ends the actor in error.
    Fault(FaultName),
    /// Memory ran out, and nothing has changed.
    Memory,
}

impl From<AllocError> for StepFault {
    ghost use Rattle.std.specs.Prelude.{◌≡◌};
    ghost use Rattle.microstep.specs.declared.micro.StepFault.TheVariants.{Memory};

    ghost from_gives = { λ _ fault. fault ≡ Memory };

    fn from(_error: AllocError) -> StepFault {
        StepFault::Memory
    }
}

impl From<EvalFault> for StepFault {
    ghost use Rattle.std.specs.Prelude.{◌≡◌};
    ghost use Rattle.microstep.specs.Faults.{step_fault};

    ghost from_gives = { λ given fault. fault ≡ step_fault given };

    fn from(fault: EvalFault) -> StepFault {
        match fault {
            EvalFault::Missing => StepFault::Fault(FaultName::Missing),
            EvalFault::Kind => StepFault::Fault(FaultName::Kind),
            EvalFault::Range => StepFault::Fault(FaultName::Range),
            EvalFault::TooLarge => StepFault::Fault(FaultName::TooLarge),
            EvalFault::Memory => StepFault::Memory,
        }
    }
}
