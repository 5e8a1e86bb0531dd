//! The parts of a change: what happens to an office, one thing after the other.

use crate::actor::Actor;
use office_types::{Item, Origin, Own, Timer};
use xs_data::{Items, Text};
use xs_model::Value;

/// The numbers of an actor and of all below it, in their order.
pub(crate) type Numbers = Items<u64>;

/// An actor that is made, with all the memory that it needs: its record, with the first letter in the
/// mailbox of a machine actor, its name once more for the registry, and its item once more for the list
/// of open ones.
#[derive(Debug, Drop)]
pub(crate) struct Newcomer {
    pub actor: Actor,
    pub name: Option<Text>,
    pub item: Option<Item>,
}

/// One thing that happens to an office.
#[derive(Debug, Drop)]
pub(crate) enum Part {
    /// The head letter of an actor is taken out.
    TakeHead {
        actor: u64,
    },
    /// An actor gets another own part.
    Own {
        actor: u64,
        own: Own,
    },
    /// A letter enters the mailbox of an actor.
    Mail {
        origin: Origin,
        receiver: u64,
        event: Value,
    },
    /// A timer is scheduled, and replaces its owner's one of the same id.
    Schedule(Timer),
    /// An owner's timer of an id is dropped.
    Cancel {
        owner: u64,
        id: Text,
    },
    /// An actor is made, and gets the next number.
    Make(Newcomer),
    /// A child stands last among its parent's.
    Join {
        parent: u64,
        id: Text,
        child: u64,
    },
    /// The child of this id is removed with all below it; their numbers, which nobody looks for again.
    Stop {
        parent: u64,
        id: Text,
        subtree: Numbers,
    },
    /// An actor is done, with its output, and all below it stop; the numbers of all of them.
    Done {
        actor: u64,
        output: Value,
        subtree: Numbers,
    },
    /// An actor ends in error, and all below it stop; the numbers of all of them.
    Fail {
        actor: u64,
        error: Value,
        subtree: Numbers,
    },
    /// The moment is set, and the timers that are due by then are taken out.
    Advance {
        moment: u64,
    },
}

/// The parts of a change, in the order in which they happen.
pub(crate) type Parts = Items<Part>;
