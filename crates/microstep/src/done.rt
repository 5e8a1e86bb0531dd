//! Which nodes are done.

ghost use Rattle.std.specs.Prelude.{◌≡◌, ◌<◌, ◌↔◌, ℕ, Contains, IfOk, IfSome, IsTrue, MatchBool, MatchOption, Some, length};
ghost use Rattle.std.specs.List.Sorted.{IsStrictlyIncreasing};
ghost use Rattle.node_tree.specs.Kinds.{kind_of};
ghost use Rattle.node_tree.specs.Nodes.{AreNodes, IsBelow};
ghost use Rattle.step_sets.specs.Statechart.{IsStatechart};
ghost use Rattle.office_types.specs.OwnParts.{IsConfiguration};
ghost use Rattle.microstep.specs.Climbing.{CanClimbTo, IsActiveYet, IsAtEnd, lets_end, parallel_done};
ghost use Rattle.microstep.specs.DoneEvents.{Climbs, IsClimb, IsDone};

use guard_eval::Def;
use node_tree::{Kind, Tree};
use std::alloc::{AllocError, Global};

/// Whether a node of a legal configuration is done, where these of its nodes are entered later. It
/// looks at the active nodes from the last to the first, up to one below the node that isn't at its
/// end.
pub(crate) fn is_done(tree: &Tree, configuration: &[u32], later: &[u32], node: u32) -> bool
    requires statechart { IsStatechart tree.now }
    requires configuration { IsConfiguration tree.now configuration.now }
    requires later { IsStrictlyIncreasing later.now }
    requires active { Contains configuration.now node }
    ensures { IsTrue result
        ↔ IsDone tree.now (IsActiveYet configuration.now later.now) node }
{
    let _nodes = tree.len();
    if is_atomic(tree, node) {
        return false;
    }
    for i in (0..configuration.len()).rev() {
        if holds_back(tree, later, configuration[i], node) {
            return false;
        }
    }
    true
}

/// Whether a node is atomic.
fn is_atomic(tree: &Tree, node: u32) -> bool
    requires { node < length tree.now }
    ensures { IsTrue result ↔ (kind_of tree.now node ≡ Some Kind.Atomic) }
{
    matches!(tree.node(node).kind, Kind::Atomic)
}

/// Whether a node is below another one, and keeps it from being done.
fn holds_back(tree: &Tree, later: &[u32], node: u32, high: u32) -> bool
    requires node { node < length tree.now }
    requires high { high < length tree.now }
    requires later { IsStrictlyIncreasing later.now }
    ensures { MatchBool result
        (IsBelow tree.now node high × ¬ IsAtEnd tree.now later.now node)
        (IsBelow tree.now node high → IsAtEnd tree.now later.now node) }
{
    tree.below(node, high) && !is_at_end(tree, later, node)
}

/// Whether a node lets those above it be done.
fn is_at_end(tree: &Tree, later: &[u32], node: u32) -> bool
    requires node { node < length tree.now }
    requires later { IsStrictlyIncreasing later.now }
    ensures { IsTrue result ↔ IsAtEnd tree.now later.now node }
{
    let Some(parent) = tree.parent(node) else {
        return false;
    };
    let active = !is_among(later, node);
    lets_end(tree.node(parent).kind, tree.node(node).kind, active)
}

/// Whether a node of this kind below one of that kind lets those above it be done.
fn lets_end(parent: Kind, kind: Kind, active: bool) -> bool
    ensures { result ≡ lets_end parent kind active }
{
    match parent {
        Kind::Parallel => !matches!(kind, Kind::Atomic),
        Kind::Compound { .. } => matches!(kind, Kind::Final) && active,
        Kind::Atomic | Kind::Final | Kind::Shallow { .. } | Kind::Deep { .. } => false,
    }
}

/// Whether a node is among these.
fn is_among(nodes: &[u32], node: u32) -> bool
    requires { IsStrictlyIncreasing nodes.now }
    ensures { IsTrue result ↔ Contains nodes.now node }
{
    nodes.binary_search(&node).is_ok()
}

/// The parallel nodes above a node that are done with it, the innermost first, up to the first
/// ancestor that isn't one.
pub(crate) fn climb(
    alloc: Global,
    def: &Def,
    configuration: &[u32],
    later: &[u32],
    node: u32,
) -> Result<Vec<u32>, AllocError>
    requires statechart { IsStatechart def.now.tree }
    requires configuration { IsConfiguration def.now.tree configuration.now }
    requires later { IsStrictlyIncreasing later.now }
    requires active { Contains configuration.now node }
    ensures climb { IfOk result (λ nodes. IsClimb def.now (IsActiveYet configuration.now later.now)
        node (parallel_done def.now nodes.items)) }
    ensures of_tree { IfOk result (λ nodes. AreNodes def.now.tree nodes.items) }
{
    let mut nodes = Vec::new(alloc);
    let mut low = node;
    while let Some(high) = climbs(def, configuration, later, low) {
        nodes.push(high)?;
        low = high;
    }
    Ok(nodes)
}

/// The parent of a node, where it is a parallel one that is done with the node, and not the root.
fn climbs(def: &Def, configuration: &[u32], later: &[u32], low: u32) -> Option<u32>
    requires statechart { IsStatechart def.now.tree }
    requires configuration { IsConfiguration def.now.tree configuration.now }
    requires later { IsStrictlyIncreasing later.now }
    requires active { Contains configuration.now low }
    ensures high { MatchOption result
        ((high : ℕ) → ¬ Climbs def.now (IsActiveYet configuration.now later.now) low high)
        (Climbs def.now (IsActiveYet configuration.now later.now) low) }
    ensures inside { IfSome result (λ high. (high < low) × Contains configuration.now high) }
{
    let _nodes = def.tree.len();
    let high = def.tree.parent(low)?;
    if climbs_to(def, configuration, later, high) {
        Some(high)
    } else {
        None
    }
}

/// Whether a node is a parallel one that is done, and not the root.
fn climbs_to(def: &Def, configuration: &[u32], later: &[u32], high: u32) -> bool
    requires statechart { IsStatechart def.now.tree }
    requires configuration { IsConfiguration def.now.tree configuration.now }
    requires later { IsStrictlyIncreasing later.now }
    requires active { Contains configuration.now high }
    ensures { IsTrue result ↔ CanClimbTo def.now.tree configuration.now later.now high }
{
    let _nodes = def.tree.len();
    high != 0 && is_parallel(&def.tree, high) && is_done(&def.tree, configuration, later, high)
}

/// Whether a node is parallel.
fn is_parallel(tree: &Tree, node: u32) -> bool
    requires { node < length tree.now }
    ensures { IsTrue result ↔ (kind_of tree.now node ≡ Some Kind.Parallel) }
{
    matches!(tree.node(node).kind, Kind::Parallel)
}
