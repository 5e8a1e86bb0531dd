//! How actors end.

ghost use Rattle.std.specs.Prelude.{◌≡◌, ◌+◌, ◌≤◌, ℕ, length, if◌then◌else◌};
ghost use Rattle.office_types.specs.Ends.{ended_record};
ghost use Rattle.office_types.specs.Records.{is_active_status};
ghost use Rattle.actor_tree.specs.Actors.{record_of};
ghost use Rattle.actor_tree.specs.HeldOffice.{kid_room, letter_room};
ghost use Rattle.actor_tree.specs.Removal.{ended_by};

use crate::actor::Actor;
use office_types::Status;
use xs_model::Value;

/// How an actor ends: done with its output, in error, or stopped as one above it ended, unless it has ended before.
#[derive(Debug, Drop)]
pub(crate) enum Ending {
    Done(Value),
    Error(Value),
    Stopped,
}

/// What an office counts, and has no more.
#[derive(Clone, Copy, Debug)]
pub(crate) struct Uncounted {
    /// One actor or none.
    pub active: u64,
    pub letters: u64,
}

/// Ends an actor: it keeps its record, and no letters and no name. The memory of its mailbox stays with it.
pub(crate) fn end(actor: &mut Actor, ending: Ending) -> Uncounted
    ensures record_is { (number : ℕ)
        → record_of number actor.new ≡ ended_by ending (record_of number actor.old) }
    ensures active { result.active ≡ (if is_active_status actor.old.status then 1 else 0) }
    ensures letters { length actor.new.mailbox.items + result.letters
        ≡ length actor.old.mailbox.items }
    ensures keeps_room { letter_room actor.old ≤ letter_room actor.new }
    ensures keeps_kid_room { kid_room actor.new ≡ kid_room actor.old }
{
    match ending {
        Ending::Done(output) => {
            actor.output = output;
            clear(actor, Status::Done)
        }
        Ending::Error(error) => {
            actor.error = error;
            clear(actor, Status::Error)
        }
        Ending::Stopped if actor.is_active() => clear(actor, Status::Stopped),
        Ending::Stopped => Uncounted {
            active: 0,
            letters: 0,
        },
    }
}

/// Takes an actor's letters and its name, and sets its status.
fn clear(actor: &mut Actor, status: Status) -> Uncounted
    ensures record_is { (number : ℕ)
        → record_of number actor.new ≡ ended_record status (record_of number actor.old) }
    ensures active { result.active ≡ (if is_active_status actor.old.status then 1 else 0) }
    ensures letters { length actor.new.mailbox.items + result.letters
        ≡ length actor.old.mailbox.items }
    ensures keeps_room { letter_room actor.old ≤ letter_room actor.new }
    ensures keeps_kid_room { kid_room actor.new ≡ kid_room actor.old }
{
    let gone = counted(actor);
    actor.status = status;
    actor.system = None;
    actor.mailbox.clear();
    gone
}

/// What is counted of an actor.
pub(crate) fn counted(actor: &Actor) -> Uncounted
    ensures active { result.active ≡ (if is_active_status actor.now.status then 1 else 0) }
    ensures letters { result.letters ≡ length actor.now.mailbox.items }
{
    Uncounted {
        active: u64::from(actor.is_active()),
        letters: actor.mailbox.len() as u64,
    }
}
