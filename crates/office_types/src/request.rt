//! What callers ask of an office, and what they are answered.
use xs_data::{Items, Text};
use xs_model::Value;

/// What a caller asks for.
#[derive(Debug, Drop)]
pub enum Ask {
    /// An actor of the machine with this id, under a system name if one is given.
    Start {
        machine: Text,
        system: Option<Text>,
        input: Value,
    },
    /// A letter with this event to an actor.
    Send {
        actor: u64,
        event: Value,
    },
    /// The end of a work item, with what came of it.
    Resolve {
        item: u64,
        output: Value,
    },
    /// The end of a work item, with what went wrong.
    Reject {
        item: u64,
        error: Value,
    },
    /// The office's moment, in milliseconds.
    At {
        moment: u64,
    },
}

/// A request of a caller, who numbers its own from 1.
#[derive(Debug, Drop)]
pub struct Request {
    pub caller: Text,
    pub number: u64,
    pub ask: Ask,
}

/// What a reply's value is, or what stands against a request. Where that is a limit the value is the
/// limit, at `Gap` the number that the caller's next request has to have, and at `Moment` the office's
/// moment.
#[derive(Clone, Copy, Debug, PartialEq, Eq)]
pub enum Word {
    Actor,
    Letter,
    Item,
    Due,
    Machine,
    Stopped,
    Reserved,
    Closed,
    Moment,
    Name,
    Actors,
    Letters,
    Gap,
    Callers,
    Replies,
    Entries,
    Disk,
    Journal,
    Memory,
}

/// The reply to a request: an HTTP status, and a value with the word that says what it is.
#[derive(Clone, Copy, Debug, PartialEq, Eq)]
pub struct Reply {
    pub status: u16,
    pub word: Word,
    pub value: u64,
}

/// The replies to one caller, in the order of its requests' numbers, from 1 on.
pub type Replies = Items<Reply>;
