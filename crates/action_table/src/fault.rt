//! Why a table is refused, or does not fit its machines.

ghost use Rattle.std.specs.Prelude.{◌≡◌};
ghost use Rattle.action_table.specs.TableFaults.{table_fault_place};

use std::alloc::AllocError;
use thiserror::Error;

/// Why a table is refused, or does not fit its machines. Each fault but `Memory` carries its place,
/// an offset in bytes from 0.
#[derive(Clone, Copy, Debug, PartialEq, Eq, Error)]
pub enum TableFault {
    /// A form that isn't there, or a key that its object doesn't have, at the key; a value that may
    /// not stand in its place, an object that lacks a part or has no key, at the value.
    #[error("what stands at byte {0} is in no form of the implementations")]
    UnknownForm(usize),
    /// A name that the table doesn't have, where it is used.
    #[error("the name at byte {0} is not in the table")]
    Unnamed(usize),
    /// A machine whose id an earlier machine has, at its object.
    #[error("the machine at byte {0} has the id of an earlier machine")]
    Twice(usize),
    /// Memory ran out.
    #[error("out of memory")]
    Memory,
}

impl TableFault {
    /// Where the fault stands: `Memory` at 0.
    pub fn place(self) -> usize
        ensures { result ≡ table_fault_place self }
    {
        match self {
            TableFault::UnknownForm(place)
            | TableFault::Unnamed(place)
            | TableFault::Twice(place) => place,
            TableFault::Memory => 0,
        }
    }
}

impl From<AllocError> for TableFault {
    ghost use Rattle.action_table.specs.declared.fault.TableFault.TheVariants.{Memory};

    ghost from_gives = { λ _ fault. fault ≡ Memory };

    fn from(_error: AllocError) -> TableFault {
        TableFault::Memory
    }
}
