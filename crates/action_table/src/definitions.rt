//! The definitions of an office: its machines and the table of its actors, in which every name is
//! linked.

ghost use Rattle.std.specs.Prelude.{◌≡◌, ℕ, Some, slice_get};
ghost use Rattle.office_types.specs.Definitions.{MachineOutline, machine_named};
ghost use Rattle.action_table.specs.Definitions.{office_definitions};

use crate::def_list::DefList;
use xs_model::Names;

/// What starts where an actor of the table is named.
#[derive(Clone, Copy, Debug, PartialEq, Eq)]
pub enum Actor {
    /// The machine with this number.
    Machine(u32),
    /// A work item.
    Promise,
}

/// Actors by their names and numbers, which are their places in the table.
pub type ActorList = Names<Actor>;

/// What an office is made of.
#[derive(Drop)]
pub struct Defs {
    pub defs: DefList,
    pub actors: ActorList,
}

impl Defs {
    /// The number of the machine with this id, found by a hash of the id. No other machine has the id.
    /// It takes no memory.
    pub fn machine_named(&self, id: &[u8]) -> Option<u32>
        ensures number { result ≡ machine_named (office_definitions self.now) id.now }
        ensures own { (n : ℕ) (machine : MachineOutline) →
            slice_get (office_definitions self.now).machines n ≡ Some machine →
            machine.id ≡ id.now → result ≡ Some n }
    {
        self.defs.number_of(id)
    }
}
