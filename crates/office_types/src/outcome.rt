//! What a step of a machine reads, and what it gives.
use node_tree::{Recorded, Targets};
use xs_data::{Items, Text};
use xs_model::Value;

/// Texts, in order.
pub type Texts = Items<Text>;

/// An actor's own part: all that its next step reads but for the event.
#[derive(Debug, Drop)]
pub struct Own {
    /// The number of its machine.
    pub def: u32,
    /// Whether it took its first step.
    pub begun: bool,
    /// The active nodes in document order.
    pub nodes: Targets,
    pub history: Recorded,
    pub context: Value,
    /// The ids of its children, in the order in which they were made.
    pub children: Texts,
    /// How many children it made that were given no id.
    pub unnamed: u64,
}

/// To whom an event is sent.
#[derive(Debug, Drop)]
pub enum To {
    /// The actor itself.
    Own,
    Parent,
    /// The child with this id.
    Child(Text),
    /// Who holds this system name.
    System(Text),
}

/// What a step asks of the office.
#[derive(Debug, Drop)]
pub enum Effect {
    /// A letter now.
    Send {
        to: To,
        event: Value,
    },
    /// A letter after a delay in milliseconds. A timer of the same id is replaced.
    Schedule {
        id: Option<Text>,
        delay: u64,
        to: To,
        event: Value,
    },
    /// No letter any more of the timer with this id.
    Cancel {
        id: Text,
    },
    /// A child: `src` is its number in the table of actors.
    Spawn {
        id: Text,
        src: u32,
        input: Value,
        system: Option<Text>,
    },
    /// The child with this id is removed, with all below it.
    Stop {
        id: Text,
    },
}

/// Effects, in the order in which they are applied.
pub type Effects = Items<Effect>;

/// How a step left its actor.
#[derive(Debug, Drop)]
pub enum End {
    Active,
    /// Done, with its output.
    Done(Value),
    /// Ended in error, with the error.
    Error(Value),
}

/// What a step gives: the actor's next own part, its end, the effects, and the types of the events
/// that its microsteps read.
#[derive(Debug, Drop)]
pub struct Outcome {
    pub own: Own,
    pub end: End,
    pub effects: Effects,
    pub micros: Texts,
}

/// What ends an actor in error: a fault of an evaluation, a bound of a step, or an effect that does
/// not fit.
#[derive(Clone, Copy, Debug, PartialEq, Eq)]
pub enum FaultName {
    Missing,
    Kind,
    Range,
    TooLarge,
    Steps,
    Actions,
    Reserved,
    NoChild,
    NameHeld,
    ActorsFull,
    LettersFull,
    TimersFull,
    TooDeep,
}
