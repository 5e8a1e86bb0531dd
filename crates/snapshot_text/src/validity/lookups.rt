//! What is looked up of actors by their numbers.

ghost use Rattle.std.specs.Prelude.{◌≡◌, ◌↔◌, IsTrue};
ghost use Rattle.office_types.specs.Effects.{is_within_levels};
ghost use Rattle.office_types.specs.Records.{is_active_machine, parent_actor};
ghost use Rattle.snapshot_text.specs.Validity.{RecordsRise};

use crate::records::find_record;
use crate::validity::limits::is_active;
use office_types::{ActorRecord, MAX_TREE_LEVELS, OfficeState};

/// Whether the records stand by rising numbers.
pub(crate) fn do_records_rise(actors: &[ActorRecord]) -> bool
    ensures { IsTrue result ↔ RecordsRise actors.now }
{
    for place in 1..actors.len() {
        if actors[place - 1].number >= actors[place].number {
            return false;
        }
    }
    true
}

/// Whether the number is that of a machine actor that is active.
pub(crate) fn is_active_machine(state: &OfficeState, number: u64) -> bool
    requires { RecordsRise state.now.actors }
    ensures { result ≡ is_active_machine state.now number }
{
    match find_record(state, number) {
        Some(actor) => is_active(actor) && actor.own.is_some(),
        None => false,
    }
}

/// The parent of an actor.
pub(crate) fn parent_of(state: &OfficeState, number: u64) -> Option<u64>
    requires { RecordsRise state.now.actors }
    ensures { result ≡ parent_actor state.now number }
{
    match find_record(state, number) {
        Some(actor) => actor.parent,
        None => None,
    }
}

/// Whether an actor stands on one of the levels of a tree. It climbs, with a look-up a level.
pub(crate) fn is_within_levels(state: &OfficeState, actor: u64) -> bool
    requires { RecordsRise state.now.actors }
    ensures { result ≡ is_within_levels state.now MAX_TREE_LEVELS actor }
{
    let mut number = actor;
    let mut left = MAX_TREE_LEVELS;
    while left > 0 {
        let Some(parent) = parent_of(state, number) else {
            return true;
        };
        number = parent;
        left -= 1;
    }
    false
}
