//! Why a text is no machine.

ghost use Rattle.std.specs.Prelude.{◌≡◌};
ghost use Rattle.machine_json.specs.MachineFaults.{machine_fault_place};

use std::alloc::AllocError;
use thiserror::Error;

/// Why a text is no machine. Each fault but `Memory` carries its place, an offset in bytes from 0.
#[derive(Clone, Copy, Debug, PartialEq, Eq, Error)]
pub enum MachineFault {
    /// A key that a node of this kind, or the object of a transition, an action, a guard or an
    /// invocation, doesn't have, at the key.
    #[error("the key at byte {0} is not one that its object has")]
    UnknownField(usize),
    /// A value of another JSON kind or spelling than its place takes, at the value; a key that may
    /// not be spelled so, at the key.
    #[error("the value at byte {0} is not of the kind that its place takes")]
    BadKind(usize),
    /// A compound node without `initial`, at the node; an `initial` that names no child or a history
    /// node, or that stands on an atomic node, at its value.
    #[error("the node at byte {0} has no initial child, or one that it may not have")]
    NoInitial(usize),
    /// A compound or parallel node without a child that is no history node, at the node.
    #[error("the node at byte {0} has no child that can be active")]
    EmptyStates(usize),
    /// A node more than a machine may have, at that node.
    #[error("the node at byte {0} is one more than a machine may have")]
    TooMany(usize),
    /// An id that an earlier node has, at the id's value, or at the node for a default id.
    #[error("the id at byte {0} is that of an earlier node")]
    DoubleId(usize),
    /// A text that resolves to no node, or to none that may stand there, at the text.
    #[error("the text at byte {0} names no node that may stand there")]
    NoTarget(usize),
    /// A target that can't be active together with an earlier one of its transition, at its text.
    #[error("the target at byte {0} cannot be active together with an earlier one")]
    Clash(usize),
    /// Memory ran out.
    #[error("out of memory")]
    Memory,
}

impl MachineFault {
    /// Where the fault stands: `Memory` at 0.
    pub fn place(self) -> usize
        ensures { result ≡ machine_fault_place self }
    {
        match self {
            MachineFault::UnknownField(place)
            | MachineFault::BadKind(place)
            | MachineFault::NoInitial(place)
            | MachineFault::EmptyStates(place)
            | MachineFault::TooMany(place)
            | MachineFault::DoubleId(place)
            | MachineFault::NoTarget(place)
            | MachineFault::Clash(place) => place,
            MachineFault::Memory => 0,
        }
    }
}

impl From<AllocError> for MachineFault {
    ghost use Rattle.machine_json.specs.declared.fault.MachineFault.TheVariants.{Memory};

    ghost from_gives = { λ _ fault. fault ≡ Memory };

    fn from(_error: AllocError) -> MachineFault {
        MachineFault::Memory
    }
}
