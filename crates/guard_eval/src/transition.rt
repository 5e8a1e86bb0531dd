//! Transitions, and the actions that they and the nodes do.

use crate::guard::GuardUse;
use node_tree::Targets;
use xs_data::{Items, Text};
use xs_model::{Action, Value};

/// An action of the table, with the params that it is used with.
#[derive(Debug, Drop)]
pub struct ActionUse {
    pub action: Action,
    pub params: Value,
}

/// Actions in the order in which they run.
pub type ActionUses = Items<ActionUse>;

/// A transition of a node.
#[derive(Debug, Drop)]
pub struct Transition {
    /// The node that it leads from.
    pub source: u32,
    /// For which types of events it is: a type, or a pattern that ends in `*`. One of `always` is for
    /// no event, whatever stands here.
    pub descriptor: Text,
    /// Where it leads, in the order of the text. Without one it leaves and enters nothing.
    pub targets: Targets,
    /// Whether it leaves its source even where each target is the source or below it.
    pub reenter: bool,
    /// Without one it is enabled whenever its event comes.
    pub guard: Option<GuardUse>,
    pub actions: ActionUses,
}

/// Transitions, of which the first that is enabled is taken.
pub type Transitions = Items<Transition>;
