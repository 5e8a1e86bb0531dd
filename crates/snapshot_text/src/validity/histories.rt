//! What history nodes recorded.

ghost use Rattle.std.specs.Prelude.{◌≡◌, ◌⊎◌, ◌↔◌, ◌<◌, ℕ, Contains, IfOk, IsTrue, OnOk, length};
ghost use Rattle.std.specs.List.Sorted.{IsStrictlyIncreasing};
ghost use Rattle.node_tree.specs.Kinds.{IsLeaf};
ghost use Rattle.node_tree.specs.Nodes.{IsBelow, IsWithin};
ghost use Rattle.office_types.specs.OwnParts.{IsRecordedHistory};
ghost use Rattle.step_sets.specs.History.{history_nodes};
ghost use Rattle.step_sets.specs.Statechart.{IsFitRecord, IsStatechart};
ghost use Rattle.snapshot_text.specs.Histories.{AreLeavesBelow, IsFitDeep, IsFitShallow, IsOneChild, IsRegion, LeadsToSome};

use crate::validity::configurations::{is_child, is_legal_from};
use crate::validity::distinct::do_rise;
use crate::validity::regions::{is_history, regions};
use node_tree::{Kind, Targets, Tree};
use std::alloc::{AllocError, Global};

/// Whether each record of a history is what a history node remembers of some legal configuration, and they
/// stand in document order.
pub(crate) fn is_recorded_history(
    alloc: Global,
    tree: &Tree,
    history: &[(u32, Targets)],
) -> Result<bool, AllocError>
    requires { IsStatechart tree.now }
    ensures { IfOk result (λ valid. IsTrue valid ↔ IsRecordedHistory tree.now history.now) }
{
    if !do_history_nodes_rise(history) {
        return Ok(false);
    }
    for (node, list) in history {
        if !is_fit_record(alloc, tree, *node, list.as_slice())? {
            return Ok(false);
        }
    }
    Ok(true)
}

fn do_history_nodes_rise(history: &[(u32, Targets)]) -> bool
    ensures { IsTrue result ↔ IsStrictlyIncreasing (history_nodes history.now) }
{
    for place in 1..history.len() {
        if history[place - 1].0 >= history[place].0 {
            return false;
        }
    }
    true
}

/// Whether a list is what a history node remembers of some legal configuration.
fn is_fit_record(alloc: Global, tree: &Tree, history: u32, list: &[u32]) -> Result<bool, AllocError>
    requires { IsStatechart tree.now }
    ensures { IfOk result (λ fits. IsTrue fits ↔ IsFitRecord tree.now history list.now) }
{
    if tree.len() <= history {
        return Ok(false);
    }
    let Some(parent) = tree.parent(history) else {
        return Ok(false);
    };
    match tree.node(history).kind {
        Kind::Shallow { .. } => is_fit_shallow(alloc, tree, parent, list),
        Kind::Deep { .. } => is_fit_deep(alloc, tree, parent, list),
        _ => Ok(false),
    }
}

/// Whether the nodes are children of a node that may be active together.
fn is_fit_shallow(alloc: Global, tree: &Tree, parent: u32, list: &[u32]) -> Result<bool, AllocError>
    requires { parent < length tree.now }
    ensures { IfOk result (λ fits. IsTrue fits ↔ IsFitShallow tree.now parent list.now) }
{
    match tree.node(parent).kind {
        Kind::Compound { .. } => Ok(is_one_child(tree, parent, list)),
        Kind::Parallel => {
            let regions = regions(alloc, tree, parent)?;
            Ok(are_same(regions.as_slice(), list))
        }
        _ => Ok(false),
    }
}

fn are_same(nodes: &[u32], others: &[u32]) -> bool
    ensures { IsTrue result ↔ (nodes.now ≡ others.now) }
{
    nodes == others
}

/// Whether the list is one child of a node, and no history node.
fn is_one_child(tree: &Tree, parent: u32, list: &[u32]) -> bool
    ensures { IsTrue result ↔ IsOneChild tree.now parent list.now }
{
    let [child] = list else {
        return false;
    };
    is_region(tree, parent, *child)
}

fn is_region(tree: &Tree, parent: u32, node: u32) -> bool
    ensures { IsTrue result ↔ IsRegion tree.now parent node }
{
    is_child(tree, node, parent) && !is_history(tree, node)
}

/// Whether the nodes are all leaves below a node that may be active together.
fn is_fit_deep(alloc: Global, tree: &Tree, parent: u32, list: &[u32]) -> Result<bool, AllocError>
    requires { parent < length tree.now }
    ensures { IfOk result (λ fits. IsTrue fits ↔ IsFitDeep tree.now parent list.now) }
{
    if !do_rise(list) {
        return Ok(false);
    }
    if !are_leaves_below(tree, parent, list) {
        return Ok(false);
    }
    let above = leading_to(alloc, tree, parent, list)?;
    is_legal_from(alloc, tree, above.as_slice(), parent)
}

fn are_leaves_below(tree: &Tree, top: u32, list: &[u32]) -> bool
    requires { top < length tree.now }
    ensures { IsTrue result ↔ AreLeavesBelow tree.now top list.now }
{
    list.iter().all(|node| is_leaf_below(tree, top, *node))
}

fn is_leaf_below(tree: &Tree, top: u32, node: u32) -> bool
    requires { top < length tree.now }
    ensures { IsTrue result ↔ (IsBelow tree.now node top × IsLeaf tree.now node) }
{
    node < tree.len() && tree.below(node, top) && is_leaf(tree, node)
}

fn is_leaf(tree: &Tree, node: u32) -> bool
    requires { node < length tree.now }
    ensures { IsTrue result ↔ IsLeaf tree.now node }
{
    tree.node(node).kind.is_leaf()
}

/// The leaves and what is above them, up to the top, in document order. It climbs from each leaf, and
/// sorts what it met.
fn leading_to(alloc: Global, tree: &Tree, top: u32, leaves: &[u32]) -> Result<Vec<u32>, AllocError>
    requires { AreLeavesBelow tree.now top leaves.now }
    ensures rise { IfOk result (λ nodes. IsStrictlyIncreasing nodes.items) }
    ensures exact { IfOk result (λ nodes. (n : ℕ) →
        Contains nodes.items n ↔ LeadsToSome tree.now leaves.now top n) }
{
    let mut nodes = Vec::new(alloc);
    for leaf in leaves {
        push_path(&mut nodes, tree, *leaf, top)?;
    }
    nodes.sort_unstable();
    nodes.dedup();
    Ok(nodes)
}

/// Adds a node and all above it, up to the top.
fn push_path(nodes: &mut Vec<u32>, tree: &Tree, low: u32, top: u32) -> Result<(), AllocError>
    requires { IsBelow tree.now low top }
    ensures { OnOk result ((n : ℕ) → Contains nodes.new.items n
        ↔ (Contains nodes.old.items n ⊎ (IsWithin tree.now low n × IsWithin tree.now n top))) }
{
    let _count = tree.len();
    let mut node = low;
    nodes.push(node)?;
    while node != top {
        let Some(parent) = tree.parent(node) else {
            return Ok(());
        };
        nodes.push(parent)?;
        node = parent;
    }
    Ok(())
}
