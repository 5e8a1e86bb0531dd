//! Actions: what transitions and states do.

use crate::expr::{Expr, Parts};
use xs_data::Items;

/// What a transition or a state does, one variant for each form. An action has no meaning here: a
/// step of the machine gives it.
#[derive(Debug, Drop)]
#[cycle(action)]
pub enum Action {
    /// `assign`: new values for these keys of the context, in the order of the text.
    Assign {
        values: Parts,
    },
    /// `raise`: an event to the actor itself.
    Raise {
        event: Expr,
        delay: Option<Expr>,
        id: Option<Expr>,
    },
    /// `sendTo`: an event to an actor.
    SendTo {
        target: Target,
        event: Expr,
        delay: Option<Expr>,
        id: Option<Expr>,
    },
    /// `cancel`: the id of a timer.
    Cancel {
        id: Expr,
    },
    /// `spawnChild`: `src` is the number in the table of the actor that is named.
    SpawnChild {
        src: u32,
        id: Option<Expr>,
        input: Option<Expr>,
        system: Option<Expr>,
    },
    /// `stopChild`: the id of a child.
    StopChild {
        id: Expr,
    },
    /// `enqueueActions`: the items that are walked.
    EnqueueActions {
        items: ActionItems,
    },
}

/// An item of `enqueueActions`.
#[derive(Debug, Drop)]
#[cycle(action)]
pub enum ActionItem {
    /// An action of another form than `enqueueActions`.
    Do(Action),
    /// `if` with its two branches. A missing `else` is empty.
    If {
        test: Expr,
        then: ActionItems,
        otherwise: ActionItems,
    },
}

/// Items of `enqueueActions`, in order.
pub type ActionItems = Items<ActionItem>;

/// To whom `sendTo` sends: to the actor itself, to its parent, or to what an expression names.
#[derive(Debug, Drop)]
pub enum Target {
    Own,
    Parent,
    Child(Expr),
    System(Expr),
}
