//! The definition of a machine in which every name is linked.

use crate::transition::{ActionUses, Transitions};
use node_tree::Tree;
use xs_data::{Items, Text};
use xs_model::Expr;

/// An actor that lives as long as a node is active.
#[derive(Debug, Drop)]
pub struct Invocation {
    /// The child's id. Where the text gives none, it is made from the place and the node's id.
    pub id: Text,
    /// The number in the table of the actor that is started.
    pub src: u32,
    pub input: Expr,
    /// The system name that the child gets.
    pub system: Option<Text>,
    /// Whether the parent gets a letter after each of the child's steps.
    pub observed: bool,
}

/// The invocations of a node, in the order of the text.
pub type Invocations = Items<Invocation>;

/// The delays after which a node gets events: for each the event's type, and the expression of how
/// long it is.
pub type Delays = Items<(Text, Expr)>;

/// A list of texts.
pub type Texts = Items<Text>;

/// What the definition says of one node.
#[derive(Debug, Drop)]
pub struct NodeDef {
    pub entry: ActionUses,
    pub exit: ActionUses,
    /// The candidates for an event, in the order in which they are looked at under one descriptor.
    pub transitions: Transitions,
    /// The candidates for the step without an event.
    pub always: Transitions,
    pub after: Delays,
    pub invoke: Invocations,
    /// What a final node gives.
    pub output: Expr,
    pub tags: Texts,
}

/// What the definition says of each node, in document order.
pub type NodeDefs = Items<NodeDef>;

/// The definition of a machine.
#[derive(Debug, Drop)]
pub struct Def {
    /// The id of the root.
    pub name: Text,
    pub tree: Tree,
    /// What an actor's context is at first.
    pub context: Expr,
    /// What an actor gives at its end.
    pub output: Expr,
    pub nodes: NodeDefs,
}
