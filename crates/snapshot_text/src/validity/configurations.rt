//! Legal configurations.

ghost use Rattle.std.specs.Prelude.{◌≡◌, ◌↔◌, ◌<◌, ℕ, Some, All, Contains, IfOk, IsTrue, length, slice_index};
ghost use Rattle.std.specs.List.Sorted.{IsStrictlyIncreasing};
ghost use Rattle.node_tree.specs.Nodes.{IsChild};
ghost use Rattle.office_types.specs.OwnParts.{IsConfiguration};
ghost use Rattle.snapshot_text.specs.Configurations.{FitsAt, HasItsChildren, HasItsParent, HasNextChild, IsLegalFrom, IsNextIn};

use crate::validity::distinct::do_rise;
use crate::validity::regions::regions;
use node_tree::{Kind, Tree};
use std::alloc::{AllocError, Global};

/// Whether the nodes are a legal configuration, in document order. It costs a search by halves for each
/// of them, and for each region one and a search for where its subtree ends.
pub(crate) fn is_configuration(
    alloc: Global,
    tree: &Tree,
    nodes: &[u32],
) -> Result<bool, AllocError>
    ensures { IfOk result (λ valid. IsTrue valid ↔ IsConfiguration tree.now nodes.now) }
{
    let _count = tree.len();
    if !do_rise(nodes) {
        return Ok(false);
    }
    is_legal_from(alloc, tree, nodes, 0)
}

/// Whether the nodes are what a legal configuration may have from one node on down.
pub(crate) fn is_legal_from(
    alloc: Global,
    tree: &Tree,
    nodes: &[u32],
    top: u32,
) -> Result<bool, AllocError>
    requires rise { IsStrictlyIncreasing nodes.now }
    requires top { top < length tree.now }
    ensures { IfOk result (λ legal. IsTrue legal
        ↔ IsLegalFrom tree.now top (Contains nodes.now)) }
{
    let _count = tree.len();
    let Some(first) = nodes.first() else {
        return Ok(false);
    };
    if *first != top {
        return Ok(false);
    }
    for place in 0..nodes.len() {
        if !fits_at(alloc, tree, nodes, place, top)? {
            return Ok(false);
        }
    }
    Ok(true)
}

/// Whether the node at a place has its parent and its children among the nodes.
fn fits_at(
    alloc: Global,
    tree: &Tree,
    nodes: &[u32],
    place: usize,
    top: u32,
) -> Result<bool, AllocError>
    requires rise { IsStrictlyIncreasing nodes.now }
    requires inside { place < length nodes.now }
    ensures { IfOk result (λ fits. IsTrue fits
        ↔ FitsAt tree.now nodes.now top (slice_index nodes.now place)) }
{
    let node = nodes[place];
    Ok(
        node < tree.len()
            && has_its_parent(tree, nodes, node, top)
            && has_its_children(alloc, tree, nodes, node)?,
    )
}

/// Whether a node is the top, or its parent is among the nodes, right before it if only one child may be.
fn has_its_parent(tree: &Tree, nodes: &[u32], node: u32, top: u32) -> bool
    requires rise { IsStrictlyIncreasing nodes.now }
    requires inside { node < length tree.now }
    ensures { IsTrue result ↔ HasItsParent tree.now nodes.now top node }
{
    if node == top {
        return true;
    }
    let Some(parent) = tree.parent(node) else {
        return false;
    };
    match tree.node(parent).kind {
        Kind::Compound { .. } => is_next(nodes, parent, node),
        _ => has(nodes, parent),
    }
}

/// Whether the one number stands right before the other.
fn is_next(nodes: &[u32], node: u32, next: u32) -> bool
    requires { IsStrictlyIncreasing nodes.now }
    ensures { IsTrue result ↔ IsNextIn nodes.now node next }
{
    match next_after(nodes, node) {
        Some(after) => after == next,
        None => false,
    }
}

/// The number right after another one.
fn next_after(nodes: &[u32], node: u32) -> Option<u32>
    requires { IsStrictlyIncreasing nodes.now }
    ensures { (next : ℕ) → (result ≡ Some next) ↔ IsNextIn nodes.now node next }
{
    let Ok(place) = nodes.binary_search(&node) else {
        return None;
    };
    let after = place + 1;
    if after < nodes.len() {
        Some(nodes[after])
    } else {
        None
    }
}

/// Whether a compound node has a child right after it, a parallel one all its regions, and the node is no
/// history node.
fn has_its_children(
    alloc: Global,
    tree: &Tree,
    nodes: &[u32],
    node: u32,
) -> Result<bool, AllocError>
    requires rise { IsStrictlyIncreasing nodes.now }
    requires inside { node < length tree.now }
    ensures { IfOk result (λ has. IsTrue has ↔ HasItsChildren tree.now nodes.now node) }
{
    match tree.node(node).kind {
        Kind::Atomic | Kind::Final => Ok(true),
        Kind::Compound { .. } => Ok(has_next_child(tree, nodes, node)),
        Kind::Parallel => Ok(are_among(nodes, &regions(alloc, tree, node)?)),
        Kind::Shallow { .. } | Kind::Deep { .. } => Ok(false),
    }
}

fn has_next_child(tree: &Tree, nodes: &[u32], node: u32) -> bool
    requires { IsStrictlyIncreasing nodes.now }
    ensures { IsTrue result ↔ HasNextChild tree.now nodes.now node }
{
    match next_after(nodes, node) {
        Some(next) => is_child(tree, next, node),
        None => false,
    }
}

/// Whether a number is that of a child of a node.
pub(crate) fn is_child(tree: &Tree, node: u32, parent: u32) -> bool
    ensures { IsTrue result ↔ IsChild tree.now node parent }
{
    if tree.len() <= node {
        return false;
    }
    tree.parent(node) == Some(parent)
}

fn are_among(nodes: &[u32], others: &[u32]) -> bool
    requires { IsStrictlyIncreasing nodes.now }
    ensures { IsTrue result ↔ All (Contains nodes.now) others.now }
{
    for other in others {
        if !has(nodes, *other) {
            return false;
        }
    }
    true
}

fn has(nodes: &[u32], node: u32) -> bool
    requires { IsStrictlyIncreasing nodes.now }
    ensures { IsTrue result ↔ Contains nodes.now node }
{
    nodes.binary_search(&node).is_ok()
}
