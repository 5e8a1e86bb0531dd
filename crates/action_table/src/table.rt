//! The table of implementations, in which actors go by their names.

use machine_json::Named;
use xs_data::Items;
use xs_model::{Expr, Names, Parts, Target};

/// What names stand for, each kind in the order of the text.
#[derive(Drop)]
pub struct Table {
    pub guards: Names<Expr>,
    pub actions: Names<UnlinkedForms>,
    pub delays: Names<Expr>,
    pub actors: Names<TableActor>,
}

/// What starts where an actor is named.
#[derive(Debug, Drop)]
pub enum TableActor {
    /// A machine, by the id of its root.
    Machine(Named),
    /// A work item.
    Promise,
}

/// The forms that a named action runs, in order.
pub type UnlinkedForms = Items<UnlinkedForm>;

/// An action of `xs_model` in which a spawned actor goes by its name.
#[derive(Debug, Drop)]
#[cycle(unlinked_form)]
pub enum UnlinkedForm {
    /// `assign`.
    Assign {
        values: Parts,
    },
    /// `raise`.
    Raise {
        event: Expr,
        delay: Option<Expr>,
        id: Option<Expr>,
    },
    /// `sendTo`.
    SendTo {
        target: Target,
        event: Expr,
        delay: Option<Expr>,
        id: Option<Expr>,
    },
    /// `cancel`.
    Cancel {
        id: Expr,
    },
    /// `spawnChild`.
    SpawnChild {
        src: Named,
        id: Option<Expr>,
        input: Option<Expr>,
        system: Option<Expr>,
    },
    /// `stopChild`.
    StopChild {
        id: Expr,
    },
    /// `enqueueActions`.
    EnqueueActions {
        items: UnlinkedItems,
    },
}

/// An item of `enqueueActions`.
#[derive(Debug, Drop)]
#[cycle(unlinked_form)]
pub enum UnlinkedItem {
    /// A form other than `enqueueActions`.
    Do(UnlinkedForm),
    /// `if` with its two branches. A missing `else` is empty.
    If {
        test: Expr,
        then: UnlinkedItems,
        otherwise: UnlinkedItems,
    },
}

/// Items of `enqueueActions`, in order.
pub type UnlinkedItems = Items<UnlinkedItem>;
