//! Where the subtrees of a tree end.

ghost use Rattle.std.specs.Prelude.{◌≡◌, ◌↔◌, ◌<◌, ◌≤◌, ◌^◌, ℕ, IfOk, IsSomeAnd, IsTrue, length, slice_index};
ghost use Rattle.node_tree.specs.Nodes.{ArePlaced};
ghost use Rattle.node_tree.specs.Tables.{AreEnds, IsEnd};

use crate::node::Node;
use std::alloc::{AllocError, Global};

/// For each node the number after the last node below it. It costs O(n): each subtree is passed over once,
/// on the way through its parent's.
pub(crate) fn subtree_ends(alloc: Global, nodes: &[Node]) -> Result<Vec<u32>, AllocError>
    requires few { length nodes.now < 2 ^ 32 }
    requires placed { ArePlaced nodes.now (length nodes.now) }
    ensures len { IfOk result (λ ends. length ends.items ≡ length nodes.now) }
    ensures below { IfOk result (λ ends. AreEnds nodes.now ends.items) }
{
    let mut ends = vec![in alloc; 0; nodes.len()]?;
    for n in (0..nodes.len() as u32).rev() {
        let end = subtree_end(nodes, &ends, n);
        ends[n as usize] = end;
    }
    Ok(ends)
}

/// Where the subtree of a node ends, from where those of the later nodes do.
fn subtree_end(nodes: &[Node], ends: &[u32], n: u32) -> u32
    requires inside { n < length nodes.now }
    requires few { length nodes.now < 2 ^ 32 }
    requires placed { ArePlaced nodes.now (length nodes.now) }
    requires len { length ends.now ≡ length nodes.now }
    requires later { (k : ℕ) → n < k → k < length nodes.now →
        IsEnd nodes.now k (slice_index ends.now k) }
    ensures { IsEnd nodes.now n result }
{
    let mut at = n + 1;
    while (at as usize) < nodes.len() && has_parent_from(&nodes[at as usize], n) {
        at = ends[at as usize];
    }
    at
}

/// Whether a node's parent has this number or a later one.
fn has_parent_from(node: &Node, first: u32) -> bool
    ensures { IsTrue result ↔ IsSomeAnd node.now.parent (λ parent. first ≤ parent) }
{
    match node.parent {
        Some(parent) => first <= parent,
        None => false,
    }
}
