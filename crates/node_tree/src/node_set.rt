//! A set of nodes.

ghost use Rattle.std.specs.Prelude.{◌≡◌, ◌↔◌, IfOk, IsTrue};
ghost use Rattle.std.specs.List.{Contains};
ghost use Rattle.std.specs.List.Sorted.{IsStrictlyIncreasing};
ghost use Rattle.node_tree.specs.Nodes.{AreNodes};

use crate::node::Targets;
use crate::tree::Tree;
use std::alloc::{AllocError, Global};
use std::marker::Model;
use xs_data::Items;

/// A set of nodes of a tree. Contracts see the list of its nodes in document order.
#[derive(Debug, Drop)]
pub struct NodeSet {
    nodes: Vec<u32>,
}

impl Model for NodeSet {
    ghost use Rattle.std.specs.Prelude.{List, ℕ};
    ghost use Rattle.std.specs.List.Sorted.{IsStrictlyIncreasing};

    ghost Value = { List ℕ };

    ghost view = { λ set. set.nodes.items };

    ghost invariant = { λ set. IsStrictlyIncreasing set.nodes.items };
}

impl NodeSet {
    /// The set of these nodes. It costs a copy of the list, and needs the tree only to say which numbers
    /// are nodes.
    pub fn of(alloc: Global, tree: &Tree, nodes: &[u32]) -> Result<NodeSet, AllocError>
        requires rising { IsStrictlyIncreasing nodes.now }
        requires of_tree { AreNodes tree.now nodes.now }
        ensures { IfOk result (λ set. set ≡ nodes.now) }
    {
        let _ = tree;
        Ok(NodeSet {
            nodes: Vec::from_slice(alloc, nodes)?,
        })
    }

    /// The set of the nodes of a rising list, which it takes over as it lies.
    pub fn from_rising(nodes: Targets) -> NodeSet
        requires { IsStrictlyIncreasing nodes }
        ensures { result ≡ nodes }
    {
        NodeSet {
            nodes: nodes.into_vec(),
        }
    }

    /// Whether a node is in the set. It costs a binary search.
    pub fn has(&self, n: u32) -> bool
        ensures { IsTrue result ↔ Contains self.now n }
    {
        self.nodes.binary_search(&n).is_ok()
    }

    /// The nodes in document order.
    pub fn list(&self, alloc: Global) -> Result<Targets, AllocError>
        ensures { IfOk result (λ nodes. nodes ≡ self.now) }
    {
        Ok(Items::from_vec(Vec::from_slice(alloc, &self.nodes)?))
    }

    /// Lends the nodes in document order.
    pub fn as_slice(&self) -> &[u32]
        ensures nodes { result.now ≡ self.now }
        ensures rising { IsStrictlyIncreasing result.now }
    {
        &self.nodes
    }
}
