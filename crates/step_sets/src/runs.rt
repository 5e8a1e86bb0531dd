//! The nodes of a set that are below one node.

ghost use Rattle.std.specs.Prelude.{◌≤◌, ◌<◌, ℕ, length, slice_index};
ghost use Rattle.std.specs.List.{Contains};
ghost use Rattle.std.specs.List.Sorted.{IsStrictlyIncreasing};
ghost use Rattle.node_tree.specs.Nodes.{AreNodes, IsBelow};
ghost use Rattle.step_sets.specs.Sets.{IsSetOf};

use node_tree::Tree;

/// Lends those of the nodes of a set that are below a node: in document order they stand side by side.
/// It costs a binary search and a look at each node that it lends.
pub(crate) fn run_below<'a>(tree: &Tree, nodes: &'a [u32], high: u32) -> &'a [u32]
    requires rising { IsStrictlyIncreasing nodes.now }
    requires of_tree { AreNodes tree.now nodes.now }
    requires high { high < length tree.now }
    ensures { IsSetOf (λ n. Contains nodes.now n × IsBelow tree.now n high) result.now }
{
    let _nodes = tree.len();
    let start = first_after(nodes, high);
    let mut end = start;
    while end < nodes.len() && tree.below(nodes[end], high) {
        end += 1;
    }
    &nodes[start..end]
}

/// The place of the first node of a set that stands after a node.
fn first_after(nodes: &[u32], node: u32) -> usize
    requires { IsStrictlyIncreasing nodes.now }
    ensures inside { result ≤ length nodes.now }
    ensures before { (k : ℕ) → k < result → slice_index nodes.now k ≤ node }
    ensures after { (k : ℕ) → result ≤ k → k < length nodes.now → node < slice_index nodes.now k }
{
    match nodes.binary_search(&node) {
        Ok(place) => place + 1,
        Err(place) => place,
    }
}
