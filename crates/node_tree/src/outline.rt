//! A tree in the making.

ghost use Rattle.std.specs.Prelude.{◌≡◌, ◌↔◌, ◌<◌, ◌^◌, ℕ, IfOk, IfSome, OnOk, IsTrue, slice_get, length};
ghost use Rattle.node_tree.specs.Kinds.{IsHistory, with_default_at};
ghost use Rattle.node_tree.specs.Nodes.{IsBelow, IsFirstMisplaced, IsOutline, TellsRepeated, child_of, id_at, parent_of};

use crate::ends::subtree_ends;
use crate::fault::OutlineFault;
use crate::names::{NodesByName, index_children, index_ids};
use crate::node::{Node, NodeRows};
use crate::order::first_misplaced;
use std::alloc::Global;
use std::marker::Model;

/// Rows in document order with the look-ups of a tree, in which an id may stand twice and the defaults
/// of history nodes may still be open. Contracts see the list of the rows, in which a node's number is
/// its place, counted from 0. It is for whoever reads a machine: resolve targets, set the defaults that
/// they lead to, name the row with a repeated id, and only then make it a [`Tree`](crate::Tree).
#[derive(Debug, Drop)]
pub struct Outline {
    nodes: Vec<Node>,
    /// For each node the number after the last node below it.
    ends: Vec<u32>,
    /// The nodes by their ids, the first of those with one id.
    ids: NodesByName,
    /// The first row whose id an earlier one has.
    repeated: Option<u32>,
    /// For each node its children by their keys, the first of those with one key.
    children: Vec<NodesByName>,
}

impl Model for Outline {
    ghost use Rattle.std.specs.Prelude.{List};
    ghost use Rattle.node_tree.specs.declared.node.Node.{Node};

    ghost Value = { List Node };

    ghost use Rattle.node_tree.specs.Tables.{HasTables};

    ghost view = { λ outline. outline.nodes.items };

    ghost invariant = { HasTables };
}

impl Outline {
    /// The outline of these rows. It costs O(n log n) comparisons of names, and copies each key and id.
    pub fn build(alloc: Global, rows: NodeRows) -> Result<Outline, OutlineFault>
        requires some { 0 < length rows }
        requires few { length rows < 2 ^ 32 }

        // The rows as they are, where they are an outline; otherwise the first misplaced one.
        ensures rows { IfOk result (λ outline. outline ≡ rows) }
        ensures ok { OnOk result (IsOutline rows) }
        ensures no_node { (n : ℕ) →
            (result ≡ Err (OutlineFault.NoNode n)) ↔ IsFirstMisplaced rows n }
    {
        let nodes = rows.into_vec();
        if let Some(n) = first_misplaced(&nodes) {
            return Err(OutlineFault::NoNode(n));
        }
        let (ids, repeated) = index_ids(alloc, &nodes)?;
        let ends = subtree_ends(alloc, &nodes)?;
        let children = index_children(alloc, &nodes)?;
        Ok(Outline {
            nodes,
            ends,
            ids,
            repeated,
            children,
        })
    }

    /// How many nodes there are. The clause `outline` says what is known of the rows of every outline.
    pub fn len(&self) -> u32
        ensures count { result ≡ length self.now }
        ensures outline { IsOutline self.now }
    {
        self.nodes.len() as u32
    }

    /// The node of a number.
    pub fn node(&self, n: u32) -> &Node
        requires { n < length self.now }
        ensures { slice_get self.now n ≡ Some result.now }
    {
        &self.nodes[n as usize]
    }

    /// The parent of a node, where it has one.
    pub fn parent(&self, n: u32) -> Option<u32>
        requires { n < length self.now }
        ensures parent { result ≡ parent_of self.now n }
        ensures first { IfSome result (λ parent. parent < n) }
    {
        self.nodes[n as usize].parent
    }

    /// Whether `low` is a proper descendant of `high`. It costs two comparisons.
    pub fn below(&self, low: u32, high: u32) -> bool
        requires low { low < length self.now }
        requires high { high < length self.now }
        ensures { IsTrue result ↔ IsBelow self.now low high }
    {
        high < low && low < self.ends[high as usize]
    }

    /// The first child of a node with this key. It costs a look-up in an ordered map.
    pub fn child(&self, n: u32, key: &[u8]) -> Option<u32>
        requires { n < length self.now }
        ensures child { result ≡ child_of self.now n key.now }
        ensures inside { IfSome result (λ child. child < length self.now) }
    {
        self.children[n as usize].get(key).copied()
    }

    /// The first node with this id. It costs a look-up in an ordered map.
    pub fn by_id(&self, id: &[u8]) -> Option<u32>
        ensures node { result ≡ id_at self.now id.now }
        ensures inside { IfSome result (λ node. node < length self.now) }
    {
        self.ids.get(id).copied()
    }

    /// The first row whose id an earlier one has. It costs nothing: `build` has found it. That a given
    /// row repeats an id shows in `by_id`, which then answers an earlier one.
    pub fn first_repeated(&self) -> Option<u32>
        ensures { TellsRepeated self.now result }
    {
        self.repeated
    }

    /// Makes a node the default of a history node, whatever default that had.
    pub fn set_default(&mut self, history: u32, node: u32)
        requires history { IsHistory self.old history }
        requires node { node < length self.old }
        ensures { self.new ≡ with_default_at self.old history node }
    {
        let row = &mut self.nodes[history as usize];
        row.kind = row.kind.with_default(node);
    }
}
