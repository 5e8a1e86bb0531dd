//! The tree of a machine's nodes.

ghost use Rattle.std.specs.Prelude.{◌≡◌, ◌↔◌, ◌<◌, ◌^◌, ℕ, IfOk, IfSome, OnOk, IsTrue, slice_get, length};
ghost use Rattle.node_tree.specs.Nodes.{AreRows, HaveNewIds, IsBelow, IsFirstMisplaced, IsFirstRepeated, IsTree, child_of, id_at, parent_of};
ghost use Rattle.node_tree.specs.Targets.{target_of};

use crate::fault::TreeFault;
use crate::node::{Node, NodeRows};
use crate::outline::Outline;
use std::alloc::Global;
use std::marker::Model;

/// The nodes of a machine: an outline in which each id stands once. Contracts see the list of the nodes
/// in document order, in which a node's number is its place, counted from 0.
#[derive(Debug, Drop)]
pub struct Tree {
    outline: Outline,
}

impl Model for Tree {
    ghost use Rattle.std.specs.Prelude.{List};
    ghost use Rattle.node_tree.specs.declared.node.Node.{Node};

    ghost Value = { List Node };

    ghost use Rattle.node_tree.specs.Nodes.{IsTree};

    ghost view = { λ tree. tree.outline };

    ghost invariant = { λ tree. IsTree tree.outline };
}

impl Outline {
    /// The tree of these rows. It takes no memory.
    pub fn into_tree(self) -> Tree
        requires { HaveNewIds self }
        ensures { result ≡ self }
    {
        let _nodes = self.len();
        Tree { outline: self }
    }
}

impl Tree {
    /// The tree of these rows. It costs O(n log n) comparisons of names, and copies each key and id.
    pub fn build(alloc: Global, rows: NodeRows) -> Result<Tree, TreeFault>
        requires some { 0 < length rows }
        requires few { length rows < 2 ^ 32 }

        // The rows as they are, where they are a tree.
        ensures rows { IfOk result (λ tree. tree ≡ rows) }
        ensures ok { OnOk result (IsTree rows) }

        // Otherwise the first misplaced row, and only where there is none the first repeated id.
        ensures no_node { (n : ℕ) →
            (result ≡ Err (TreeFault.NoNode n)) ↔ IsFirstMisplaced rows n }
        ensures rows_first { (n : ℕ) → result ≡ Err (TreeFault.DoubleId n) → AreRows rows }
        ensures double_id { (n : ℕ) → result ≡ Err (TreeFault.DoubleId n) → IsFirstRepeated rows n }
    {
        let outline = Outline::build(alloc, rows)?;
        match outline.first_repeated() {
            Some(n) => Err(TreeFault::DoubleId(n)),
            None => Ok(outline.into_tree()),
        }
    }

    /// How many nodes there are. The clause `tree` says what is known of the nodes of every tree.
    pub fn len(&self) -> u32
        ensures count { result ≡ length self.now }
        ensures tree { IsTree self.now }
    {
        self.outline.len()
    }

    /// The node of a number.
    pub fn node(&self, n: u32) -> &Node
        requires { n < length self.now }
        ensures { slice_get self.now n ≡ Some result.now }
    {
        self.outline.node(n)
    }

    /// The parent of a node, where it has one.
    pub fn parent(&self, n: u32) -> Option<u32>
        requires { n < length self.now }
        ensures parent { result ≡ parent_of self.now n }
        ensures first { IfSome result (λ parent. parent < n) }
    {
        self.outline.parent(n)
    }

    /// Whether `low` is a proper descendant of `high`. It costs two comparisons.
    pub fn below(&self, low: u32, high: u32) -> bool
        requires low { low < length self.now }
        requires high { high < length self.now }
        ensures { IsTrue result ↔ IsBelow self.now low high }
    {
        self.outline.below(low, high)
    }

    /// The first child of a node with this key. It costs a look-up in an ordered map.
    pub fn child(&self, n: u32, key: &[u8]) -> Option<u32>
        requires { n < length self.now }
        ensures child { result ≡ child_of self.now n key.now }
        ensures inside { IfSome result (λ child. child < length self.now) }
    {
        self.outline.child(n, key)
    }

    /// The node with this id. It costs a look-up in an ordered map.
    pub fn by_id(&self, id: &[u8]) -> Option<u32>
        ensures node { result ≡ id_at self.now id.now }
        ensures inside { IfSome result (λ node. node < length self.now) }
    {
        self.outline.by_id(id)
    }

    /// The node that a target text leads to from a source, as [`Outline::resolve`] finds it.
    pub fn resolve(&self, source: u32, target: &[u8]) -> Option<u32>
        requires { source < length self.now }
        ensures target { result ≡ target_of self.now source target.now }
        ensures inside { IfSome result (λ target. target < length self.now) }
    {
        self.outline.resolve(source, target)
    }
}
