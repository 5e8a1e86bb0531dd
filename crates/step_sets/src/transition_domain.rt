//! The domain of a transition.

ghost use Rattle.std.specs.Prelude.{◌≡◌, ◌↔◌, ◌<◌, ℕ, length, All, IfSome, IsTrue, MatchOption};
ghost use Rattle.node_tree.specs.Nodes.{AreNodes, IsBelow, IsWithin};
ghost use Rattle.step_sets.specs.Domains.{IsDomain, IsDomainOf, IsInternal, IsCommonAncestor, IsInnermostAncestor, outermost_of};

use crate::Domain;
use node_tree::Tree;

/// The domain of a transition with targets, after SCXML's `getTransitionDomain`: the node below which
/// the transition leaves and enters. A history target counts as the history node itself. It costs as
/// many looks at the tree as the source has ancestors, times the number of targets.
pub fn domain(tree: &Tree, source: u32, targets: &[u32], reenter: bool) -> Domain
    requires source { source < length tree.now }
    requires targets { AreNodes tree.now targets.now }
    requires some { 0 < length targets.now }
    ensures domain { IsDomain tree.now
        (record { source = source; targets = targets.now; reenter = reenter }) result }
    ensures of_tree { IsDomainOf tree.now result }
{
    if is_internal(tree, source, targets, reenter) {
        return Domain::Node(source);
    }
    match innermost_ancestor(tree, source, targets) {
        Some(ancestor) => Domain::Node(ancestor),
        None => outermost(reenter),
    }
}

/// Whether the transition does not reenter, and each target is the source or below it.
fn is_internal(tree: &Tree, source: u32, targets: &[u32], reenter: bool) -> bool
    requires source { source < length tree.now }
    requires targets { AreNodes tree.now targets.now }
    ensures { IsTrue result ↔ IsInternal tree.now source targets.now reenter }
{
    !reenter && all_within(tree, targets, source)
}

/// The domain where no node is above the source and all targets.
fn outermost(reenter: bool) -> Domain
    ensures { result ≡ outermost_of reenter }
{
    if reenter {
        Domain::Whole
    } else {
        Domain::Node(0)
    }
}

/// The innermost proper ancestor of the source that has every target below it.
fn innermost_ancestor(tree: &Tree, source: u32, targets: &[u32]) -> Option<u32>
    requires source { source < length tree.now }
    requires targets { AreNodes tree.now targets.now }
    ensures ancestor { MatchOption result
        ((a : ℕ) → ¬ IsCommonAncestor tree.now source targets.now a)
        (λ a. IsInnermostAncestor tree.now source targets.now a) }
    ensures of_tree { IfSome result (λ a. a < length tree.now) }
{
    let mut node = source;
    while let Some(above) = tree.parent(node) {
        if all_below(tree, targets, above) {
            return Some(above);
        }
        node = above;
    }
    None
}

/// Whether each target is the node or below it.
fn all_within(tree: &Tree, targets: &[u32], high: u32) -> bool
    requires high { high < length tree.now }
    requires targets { AreNodes tree.now targets.now }
    ensures { IsTrue result ↔ All (λ t. IsWithin tree.now t high) targets.now }
{
    targets.iter().all(|t| is_within(tree, *t, high))
}

/// Whether each target is below the node.
fn all_below(tree: &Tree, targets: &[u32], high: u32) -> bool
    requires high { high < length tree.now }
    requires targets { AreNodes tree.now targets.now }
    ensures { IsTrue result ↔ All (λ t. IsBelow tree.now t high) targets.now }
{
    targets.iter().all(|t| tree.below(*t, high))
}

/// Whether the one node is the other or below it.
fn is_within(tree: &Tree, low: u32, high: u32) -> bool
    requires low { low < length tree.now }
    requires high { high < length tree.now }
    ensures { IsTrue result ↔ IsWithin tree.now low high }
{
    low == high || tree.below(low, high)
}
