//! Why a part of a step can't be prepared.

use office_types::FaultName;
use std::alloc::AllocError;

/// Why a part of a step can't be prepared.
#[derive(Debug, Drop)]
pub(crate) enum Unfit {
    /// It doesn't fit, which ends the actor in error.
    Fault(FaultName),
    /// Memory ran out.
    Memory,
}

impl From<AllocError> for Unfit {
    ghost use Rattle.std.specs.Prelude.{◌≡◌};
    ghost use Rattle.actor_tree.specs.declared.unfit.Unfit.TheVariants.{Memory};

    ghost from_gives = { λ _ unfit. unfit ≡ Memory };

    fn from(_error: AllocError) -> Unfit {
        Unfit::Memory
    }
}
