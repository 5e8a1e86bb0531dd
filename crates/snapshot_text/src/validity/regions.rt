//! The children of a node, found without a look at what is below them.

ghost use Rattle.std.specs.Prelude.{◌↔◌, ◌<◌, ◌≤◌, IfOk, IsTrue, length};
ghost use Rattle.node_tree.specs.Kinds.{IsHistory};
ghost use Rattle.node_tree.specs.Nodes.{IsChild};
ghost use Rattle.node_tree.specs.Tables.{IsEnd};
ghost use Rattle.step_sets.specs.Sets.{IsSetOf};

use node_tree::Tree;
use std::alloc::{AllocError, Global};

/// The children of a node but for history nodes, in document order. It costs a search for each child,
/// which takes as many looks as its subtree has binary digits in its size.
pub(crate) fn regions(alloc: Global, tree: &Tree, parent: u32) -> Result<Vec<u32>, AllocError>
    requires { parent < length tree.now }
    ensures { IfOk result (λ nodes.
        IsSetOf (λ n. IsChild tree.now n parent × ¬ IsHistory tree.now n) nodes.items) }
{
    let count = tree.len();
    let mut nodes = Vec::new(alloc);
    let mut at = parent + 1;
    while at < count && tree.below(at, parent) {
        let node = at;
        at = subtree_end(tree, node);
        if is_history(tree, node) {
            continue;
        }
        nodes.push(node)?;
    }
    Ok(nodes)
}

/// Whether a node of the tree is a history node.
pub(crate) fn is_history(tree: &Tree, node: u32) -> bool
    requires { node < length tree.now }
    ensures { IsTrue result ↔ IsHistory tree.now node }
{
    tree.node(node).kind.is_history()
}

/// The number after the last node below a node.
fn subtree_end(tree: &Tree, node: u32) -> u32
    requires { node < length tree.now }
    ensures { IsEnd tree.now node result }
{
    let count = tree.len();
    let mut last = node;
    let mut end = node + 1;
    while end < count && tree.below(end, node) {
        last = end;
        end = doubled(node, end, count);
    }
    while end - last > 1 {
        let middle = last + (end - last) / 2;
        if tree.below(middle, node) {
            last = middle;
        } else {
            end = middle;
        }
    }
    end
}

/// Twice as far from a node, but no further than the end of the tree.
fn doubled(node: u32, at: u32, count: u32) -> u32
    requires after { node < at }
    requires inside { at < count }
    ensures further { at < result }
    ensures inside { result ≤ count }
{
    let step = at - node;
    if step < count - at { at + step } else { count }
}
