//! The tree of a machine's nodes: a parent before its children, in document order, with look-ups by
//! id, by key and by target text. Contracts see a tree as the list of its nodes. An outline is a tree
//! in the making: an id may stand twice in it, and the defaults of its history nodes may still be open.
#![tactic(auto)]

mod ends;
mod fault;
pub mod laws;
mod names;
mod node;
mod node_set;
mod order;
mod outline;
mod resolve;
mod tree;

pub use fault::{OutlineFault, TreeFault};
pub use node::{DOT, HASH, Kind, Name, Node, NodeRows, Recorded, Targets};
pub use node_set::NodeSet;
pub use outline::Outline;
pub use tree::Tree;
