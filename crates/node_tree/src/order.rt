//! Whether rows stand in document order and name nodes that are there.

ghost use Rattle.std.specs.Prelude.{◌↔◌, ◌+◌, ◌<◌, ◌^◌, IfNone, IfSome, IsTrue, length};
ghost use Rattle.node_tree.specs.Nodes.{ArePlaced, AreRows, HasNames, IsChild, IsFirstMisplaced, IsPlaced, IsWithin};

use crate::node::{Kind, Node};

/// The first row that isn't in its place, or that names a node that isn't there. It costs O(n): what is
/// climbed over at one row is never climbed again.
pub(crate) fn first_misplaced(nodes: &[Node]) -> Option<u32>
    requires few { length nodes.now < 2 ^ 32 }
    ensures none { IfNone result (AreRows nodes.now) }
    ensures some { IfSome result (IsFirstMisplaced nodes.now) }
{
    for n in 0..nodes.len() as u32 {
        if !is_placed(nodes, n) || !has_names(nodes, n) {
            return Some(n);
        }
    }
    None
}

/// Whether a row is a root at the front, or its parent is the row before it or an ancestor of that row.
fn is_placed(nodes: &[Node], n: u32) -> bool
    requires inside { n < length nodes.now }
    requires earlier { ArePlaced nodes.now n }
    ensures { IsTrue result ↔ IsPlaced nodes.now n }
{
    match nodes[n as usize].parent {
        None => n == 0,
        Some(parent) => n > 0 && is_within(nodes, n - 1, parent),
    }
}

/// Whether a row is another one or below it. It costs a step for each row between them.
fn is_within(nodes: &[Node], low: u32, high: u32) -> bool
    requires inside { low < length nodes.now }
    requires earlier { ArePlaced nodes.now (low + 1) }
    ensures { IsTrue result ↔ IsWithin nodes.now low high }
{
    let mut at = low;
    while at != high {
        let Some(parent) = nodes[at as usize].parent else {
            return false;
        };
        at = parent;
    }
    true
}

/// Whether the nodes that a row's kind names are there.
fn has_names(nodes: &[Node], n: u32) -> bool
    requires inside { n < length nodes.now }
    ensures { IsTrue result ↔ HasNames nodes.now n }
{
    let kind = nodes[n as usize].kind;
    match kind {
        Kind::Compound { initial } => is_child(nodes, initial, n),
        Kind::Shallow { default } | Kind::Deep { default } => is_inside(nodes, default),
        Kind::Atomic | Kind::Parallel | Kind::Final => true,
    }
}

/// Whether a number is that of a child of a node.
fn is_child(nodes: &[Node], low: u32, high: u32) -> bool
    ensures { IsTrue result ↔ IsChild nodes.now low high }
{
    match nodes.get(low as usize) {
        Some(node) => node.parent == Some(high),
        None => false,
    }
}

/// Whether a number, where there is one, is that of a row.
fn is_inside(nodes: &[Node], number: Option<u32>) -> bool
    ensures { IsTrue result ↔ IfSome number (λ n. n < length nodes.now) }
{
    match number {
        Some(n) => (n as usize) < nodes.len(),
        None => true,
    }
}
