//! An office as plain records.
use crate::outcome::Own;
use crate::request::Replies;
use xs_data::{Items, Text};
use xs_model::Value;

/// Who sent a letter.
#[derive(Debug, Drop)]
pub enum Origin {
    Caller(Text),
    Actor(u64),
}

/// An event that waits in a mailbox. Letters are numbered from 1, in the order in which they enter
/// mailboxes.
#[derive(Debug, Drop)]
pub struct Letter {
    pub number: u64,
    pub origin: Origin,
    pub event: Value,
}

/// A mailbox: the letters that wait, oldest first.
pub type Letters = Items<Letter>;

/// A letter that is written when the office's moment reaches `due`. Timers are numbered from 1, in the
/// order in which they were scheduled; `order` is that number.
#[derive(Debug, Drop)]
pub struct Timer {
    pub order: u64,
    /// The actor that scheduled it, from which the letter comes.
    pub owner: u64,
    /// The actor to which the letter goes.
    pub target: u64,
    /// In milliseconds.
    pub due: u64,
    /// What it is cancelled and replaced by.
    pub id: Option<Text>,
    pub event: Value,
}

/// Timers by their numbers.
pub type TimerList = Items<Timer>;

/// A work item: a piece of work that somebody outside does.
#[derive(Debug, Drop)]
pub struct Item {
    /// The number of the actor that it is.
    pub actor: u64,
    /// The name of what is to be done.
    pub src: Text,
    pub input: Value,
}

/// What became of an actor.
#[derive(Clone, Copy, Debug, PartialEq, Eq)]
pub enum Status {
    Active,
    Done,
    Error,
    Stopped,
}

/// An actor's children: ids and numbers, in the order of its own part's children.
pub type Kids = Items<(Text, u64)>;

/// All that an office has of one actor. A machine actor has an own part, a work item its item.
#[derive(Debug, Drop)]
pub struct ActorRecord {
    pub number: u64,
    pub parent: Option<u64>,
    pub own: Option<Own>,
    pub item: Option<Item>,
    /// The system name that it holds; none after its end.
    pub system: Option<Text>,
    pub status: Status,
    /// Null unless it is done.
    pub output: Value,
    /// Null unless it ended in error.
    pub error: Value,
    pub kids: Kids,
    pub mailbox: Letters,
}

/// Records of actors by their numbers.
pub type ActorRecords = Items<ActorRecord>;

/// A caller, with the replies that are kept for it.
#[derive(Debug, Drop)]
pub struct Caller {
    pub name: Text,
    pub replies: Replies,
}

/// System names with the actors that hold them, by the actors' numbers.
pub type NameList = Items<(Text, u64)>;

/// Callers in the order of their first decisions.
pub type Callers = Items<Caller>;

/// An office: its actors, timers, system names and callers, its moment, how many entries it has had, and
/// the numbers that the next actor, letter and timer get.
#[derive(Debug, Drop)]
pub struct OfficeState {
    pub actors: ActorRecords,
    pub timers: TimerList,
    pub names: NameList,
    pub callers: Callers,
    /// In milliseconds; no clock is read.
    pub moment: u64,
    pub entries: u64,
    pub next_actor: u64,
    pub next_letter: u64,
    pub next_timer: u64,
}
