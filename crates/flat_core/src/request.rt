//! What a caller asks for, and the reply that it gets.

use xs_data::Text;

/// The status of a reply: what was asked for is done.
pub const STATUS_OK: u16 = 200;

/// The status of a reply: an actor was made.
pub const STATUS_CREATED: u16 = 201;

/// The status of a reply: a letter waits in a mailbox.
pub const STATUS_ACCEPTED: u16 = 202;

/// The status of a reply: what the request names isn't there.
pub const STATUS_NOT_FOUND: u16 = 404;

/// What a caller asks for.
#[derive(Debug, Drop)]
pub enum Ask {
    /// An actor of the machine with this id.
    Start { machine: Text },
    /// A letter with an event of this type to an actor.
    Send { actor: u64, event: Text },
}

/// A numbered request of a caller.
#[derive(Debug, Drop)]
pub struct Request {
    pub caller: Text,
    pub number: u64,
    pub ask: Ask,
}

/// What a reply's value is.
#[derive(Clone, Copy, Debug, PartialEq, Eq)]
pub enum Word {
    Actor,
    Letter,
    Machine,
}

/// The reply to a request: a status, which is one of HTTP's, and a value with the word that says what it is.
#[derive(Clone, Copy, Debug, PartialEq, Eq)]
pub struct Reply {
    pub status: u16,
    pub word: Word,
    pub value: u64,
}
