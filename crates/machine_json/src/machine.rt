//! The definition of a machine in which the names of the table are not linked yet.

use node_tree::{Targets, Tree};
use sqlite_items::Boxed;
use xs_data::{Items, Text};
use xs_model::{Expr, Value};

/// A name of the table, with the place in the text at which it is used.
#[derive(Debug, Drop)]
pub struct Named {
    pub name: Text,
    pub place: usize,
}

/// An action by its name, with the params that it is used with.
#[derive(Debug, Drop)]
pub struct UnlinkedAction {
    pub action: Named,
    pub params: Value,
}

/// Actions in the order in which they run.
pub type UnlinkedActions = Items<UnlinkedAction>;

/// A guard in which each test goes by its name.
#[derive(Debug, Drop)]
pub enum UnlinkedGuard {
    /// A guard of the table, with the params that it is used with.
    Test { guard: Named, params: Value },
    /// `and`: true if each part is.
    And(UnlinkedGuards),
    /// `or`: true if some part is.
    Or(UnlinkedGuards),
    /// `not`: true if its part is not.
    Not(Boxed<UnlinkedGuard>),
    /// `stateIn`: true if the node is active.
    In(u32),
}

/// The parts of a guard, in the order of the text.
pub type UnlinkedGuards = Items<UnlinkedGuard>;

/// A transition of a node.
#[derive(Debug, Drop)]
pub struct UnlinkedTransition {
    /// The node that it leads from.
    pub source: u32,
    /// For which types of events it is: a type, or a pattern that ends in `*`. Empty for one of
    /// `always`.
    pub descriptor: Text,
    /// Where it leads, in the order of the text.
    pub targets: Targets,
    /// Whether it leaves its source even where each target is the source or below it.
    pub reenter: bool,
    pub guard: Option<UnlinkedGuard>,
    pub actions: UnlinkedActions,
}

/// Transitions, of which the first that is enabled is taken.
pub type UnlinkedTransitions = Items<UnlinkedTransition>;

/// An actor that lives as long as a node is active.
#[derive(Debug, Drop)]
pub struct UnlinkedInvocation {
    /// The child's id: the one that the text gives, or else `<index>.<id of the node>`.
    pub id: Text,
    /// The actor of the table that is started.
    pub src: Named,
    pub input: Expr,
    /// The system name that the child gets.
    pub system: Option<Text>,
    /// Whether the parent gets a letter after each of the child's steps.
    pub observed: bool,
}

/// The invocations of a node, in the order of the text.
pub type UnlinkedInvocations = Items<UnlinkedInvocation>;

/// How long a delay is.
#[derive(Debug, Drop)]
pub enum UnlinkedDelay {
    /// A key of digits.
    Milliseconds(i64),
    /// A delay of the table, used at its key.
    Named(Named),
}

/// The delays after which a node gets events: for each the event's type, and how long it is.
pub type UnlinkedDelays = Items<(Text, UnlinkedDelay)>;

/// A list of texts.
pub type Texts = Items<Text>;

/// What a machine text says of one node.
#[derive(Debug, Drop)]
pub struct UnlinkedNode {
    pub entry: UnlinkedActions,
    pub exit: UnlinkedActions,
    /// The candidates for an event, in the order in which they are looked at under one descriptor.
    pub transitions: UnlinkedTransitions,
    /// The candidates for the step without an event.
    pub always: UnlinkedTransitions,
    pub after: UnlinkedDelays,
    pub invoke: UnlinkedInvocations,
    /// What a final node gives.
    pub output: Expr,
    pub tags: Texts,
}

/// What a machine text says of each node, in document order.
pub type UnlinkedNodes = Items<UnlinkedNode>;

/// What a machine text means.
#[derive(Debug, Drop)]
pub struct Machine {
    /// The id of the root.
    pub name: Text,
    /// Where the machine's object stands in the text.
    pub place: usize,
    pub tree: Tree,
    /// What an actor's context is at first.
    pub context: Expr,
    /// What an actor gives at its end.
    pub output: Expr,
    pub nodes: UnlinkedNodes,
}
