//! The entry set of a transition.

ghost use Rattle.std.specs.Prelude.{◌≡◌, ◌↔◌, ◌<◌, ◌⊎◌, ℕ, IfOk, OnOk, IsTrue, length};
ghost use Rattle.std.specs.BTreeSet.{contains};
ghost use Rattle.std.specs.Ordering.{nat_cmp};
ghost use Rattle.node_tree.specs.Nodes.{AreNodes, IsWithin};
ghost use Rattle.step_sets.specs.Domains.{IsDomainOf, IsUnder};
ghost use Rattle.step_sets.specs.Entries.{CanBeEntered, IsEntered, LeadsToGoal};
ghost use Rattle.step_sets.specs.Prospects.{CanBeEnteredOrWhole, EntersFrom, HasBelow, HasParents, top_of};
ghost use Rattle.step_sets.specs.Sets.{IsSetOf};

use crate::Domain;
use crate::children::children;
use crate::nodes::is_history;
use crate::preemption::take_all;
use node_tree::{Kind, NodeSet, Tree};
use std::alloc::{AllocError, Global};
use std::collections::BTreeSet;
use xs_data::Items;

/// The entry set of a transition with this domain and these goals, after SCXML's `computeEntrySet`:
/// the nodes below the domain that lead to a goal, and what those of them and the domain enter by
/// default. It costs a few look-ups in an ordered set for each goal, each node above one, each node
/// that is entered and each child of a parallel one, however many nodes the tree has.
pub fn entry_set(
    alloc: Global,
    tree: &Tree,
    goals: &[u32],
    domain: Domain,
) -> Result<NodeSet, AllocError>
    requires goals { AreNodes tree.now goals.now }
    requires domain { IsDomainOf tree.now domain }
    ensures entries { IfOk result
        (λ entries. IsSetOf (IsEntered tree.now goals.now domain) entries) }
    ensures of_tree { IfOk result (λ entries. AreNodes tree.now entries) }
{
    let _nodes = tree.len();
    let mut pending = first_prospects(alloc, tree, goals, domain)?;
    let mut entries = Vec::new(alloc);
    while let Some(node) = pending.pop_first() {
        if is_entered(tree, domain, node) {
            entries.push(node)?;
            open(alloc, &mut pending, tree, node)?;
        } else if is_node(domain, node) {
            open(alloc, &mut pending, tree, node)?;
        }
    }
    Ok(NodeSet::from_rising(Items::from_vec(entries)))
}

/// The prospects to begin with, which may be entered: the nodes that lead to a goal, and the domain,
/// or the root for the whole tree.
fn first_prospects(
    alloc: Global,
    tree: &Tree,
    goals: &[u32],
    domain: Domain,
) -> Result<BTreeSet<u32>, AllocError>
    requires { AreNodes tree.now goals.now }
    ensures { IfOk result (λ nodes. (n : ℕ) → IsTrue (contains nat_cmp nodes n)
        ↔ (LeadsToGoal tree.now goals.now n ⊎ (n ≡ top_of domain))) }
{
    let _nodes = tree.len();
    let mut nodes = BTreeSet::new(alloc);
    for goal in goals {
        add_path(&mut nodes, tree, *goal)?;
    }
    nodes.insert(top_of(domain))?;
    Ok(nodes)
}

/// Adds a node and those above it, up to the first that is there already.
fn add_path(nodes: &mut BTreeSet<u32>, tree: &Tree, low: u32) -> Result<(), AllocError>
    requires low { low < length tree.now }
    requires parents { HasParents tree.now (contains nat_cmp nodes.old) }
    ensures { OnOk result ((n : ℕ) → IsTrue (contains nat_cmp nodes.new n)
        ↔ (IsTrue (contains nat_cmp nodes.old n) ⊎ IsWithin tree.now low n)) }
{
    let _nodes = tree.len();
    let mut at = Some(low);
    while let Some(node) = at {
        if !nodes.insert(node)? {
            return Ok(());
        }
        at = tree.parent(node);
    }
    Ok(())
}

/// Where the walk down begins.
fn top_of(domain: Domain) -> u32
    ensures { result ≡ top_of domain }
{
    match domain {
        Domain::Node(node) => node,
        Domain::Whole => 0,
    }
}

/// Adds the children that an open node enters by default, where the pending nodes below it are those
/// that lead to a goal.
fn open(
    alloc: Global,
    pending: &mut BTreeSet<u32>,
    tree: &Tree,
    node: u32,
) -> Result<(), AllocError>
    requires node { node < length tree.now }
    requires after { (n : ℕ) → IsTrue (contains nat_cmp pending.old n) → node < n }
    requires inside { (n : ℕ) → IsTrue (contains nat_cmp pending.old n) → n < length tree.now }
    ensures { OnOk result ((n : ℕ) → IsTrue (contains nat_cmp pending.new n)
        ↔ (IsTrue (contains nat_cmp pending.old n)
        ⊎ EntersFrom tree.now (contains nat_cmp pending.old) node n)) }
{
    let _nodes = tree.len();
    match &tree.node(node).kind {
        Kind::Parallel => take_all(pending, &children(alloc, tree, node)?),
        Kind::Compound { initial } => open_compound(pending, tree, node, *initial),
        Kind::Atomic | Kind::Final | Kind::Shallow { .. } | Kind::Deep { .. } => Ok(()),
    }
}

/// Adds the initial child of a compound node, unless a pending node is below the node.
fn open_compound(
    pending: &mut BTreeSet<u32>,
    tree: &Tree,
    node: u32,
    initial: u32,
) -> Result<(), AllocError>
    requires node { node < length tree.now }
    requires after { (n : ℕ) → IsTrue (contains nat_cmp pending.old n) → node < n }
    requires inside { (n : ℕ) → IsTrue (contains nat_cmp pending.old n) → n < length tree.now }
    ensures { OnOk result ((n : ℕ) → IsTrue (contains nat_cmp pending.new n)
        ↔ (IsTrue (contains nat_cmp pending.old n)
        ⊎ ((n ≡ initial) × ¬ HasBelow tree.now (contains nat_cmp pending.old) node))) }
{
    if !has_below(tree, pending, node) {
        pending.insert(initial)?;
    }
    Ok(())
}

/// Whether one of these nodes is below a node, where all of them stand after it: the first of them
/// is the one that tells.
fn has_below(tree: &Tree, nodes: &BTreeSet<u32>, high: u32) -> bool
    requires high { high < length tree.now }
    requires after { (n : ℕ) → IsTrue (contains nat_cmp nodes.now n) → high < n }
    requires inside { (n : ℕ) → IsTrue (contains nat_cmp nodes.now n) → n < length tree.now }
    ensures { IsTrue result ↔ HasBelow tree.now (contains nat_cmp nodes.now) high }
{
    let _nodes = tree.len();
    match nodes.first() {
        Some(next) => tree.below(*next, high),
        None => false,
    }
}

/// Whether a prospect is entered. Each that can be is.
fn is_entered(tree: &Tree, domain: Domain, node: u32) -> bool
    requires node { node < length tree.now }
    requires domain { IsDomainOf tree.now domain }
    ensures { IsTrue result ↔ CanBeEnteredOrWhole tree.now domain node }
{
    if node == 0 && is_whole(domain) {
        return true;
    }
    can_be_entered(tree, domain, node)
}

/// Whether the domain is the whole tree.
fn is_whole(domain: Domain) -> bool
    ensures { IsTrue result ↔ (domain ≡ Domain.Whole) }
{
    match domain {
        Domain::Node(_) => false,
        Domain::Whole => true,
    }
}

/// Whether the domain is this node.
fn is_node(domain: Domain, node: u32) -> bool
    ensures { IsTrue result ↔ (domain ≡ Domain.Node node) }
{
    match domain {
        Domain::Node(high) => high == node,
        Domain::Whole => false,
    }
}

/// Whether a node is below the domain and no history node.
fn can_be_entered(tree: &Tree, domain: Domain, node: u32) -> bool
    requires node { node < length tree.now }
    requires domain { IsDomainOf tree.now domain }
    ensures { IsTrue result ↔ CanBeEntered tree.now domain node }
{
    is_under(tree, domain, node) && !is_history(tree, node)
}

/// Whether a node is below the domain.
fn is_under(tree: &Tree, domain: Domain, node: u32) -> bool
    requires node { node < length tree.now }
    requires domain { IsDomainOf tree.now domain }
    ensures { IsTrue result ↔ IsUnder tree.now domain node }
{
    match domain {
        Domain::Node(high) => tree.below(node, high),
        Domain::Whole => true,
    }
}
