//! Targets of one transition that clash.

ghost use Rattle.std.specs.Prelude.{◌≡◌, ◌≢◌, ◌<◌, ◌∷◌, ◌↔◌, ℕ, true, List, Some, IfOk, MatchBool, MatchOption, OnOk, Contains, length};
ghost use Rattle.std.specs.BTreeSet.{contains};
ghost use Rattle.std.specs.Ordering.{nat_cmp};
ghost use Rattle.node_tree.specs.Nodes.{IsOutline};
ghost use Rattle.node_tree.specs.Kinds.{kind_of};
ghost use Rattle.machine_json.specs.FirstPass.{TellsFirst};
ghost use Rattle.machine_json.specs.Reached.{HasReached, IsBlocked, IsFree, IsOpen, IsTaken, TellsReached};
ghost use Rattle.machine_json.specs.SecondPass.{IsClash, led_to};
ghost use Rattle.step_sets.specs.Statechart.{CountsFor};

use crate::fault::MachineFault;
use crate::first::earlier;
use crate::links::led_to;
use node_tree::{Kind, Outline};
use ordered_json::OrderedJson;
use std::alloc::{AllocError, Global};
use std::collections::BTreeSet;

/// The first target that clashes with one before it. It costs a look-up for each target, and a walk
/// up to the root for each node that is reached for the first time.
pub(crate) fn first_clash(
    alloc: Global,
    outline: &Outline,
    source: u32,
    targets: &[OrderedJson],
) -> Result<Option<MachineFault>, AllocError>
    requires outline { IsOutline outline.now }
    requires source { source < length outline.now }
    ensures { IfOk result (λ first. TellsFirst first (IsClash outline.now source targets.now)) }
{
    let mut around = BTreeSet::new(alloc);
    let mut closed = BTreeSet::new(alloc);
    let mut first = None;
    for target in targets {
        let next = reach_target(outline, source, target, &mut around, &mut closed)?;
        first = earlier(first, next);
    }
    Ok(first)
}

/// The fault of a target that clashes with what was reached. Takes down that it was reached too.
fn reach_target(
    outline: &Outline,
    source: u32,
    target: &OrderedJson,
    around: &mut BTreeSet<u32>,
    closed: &mut BTreeSet<u32>,
) -> Result<Option<MachineFault>, AllocError>
    requires outline { IsOutline outline.now }
    requires source { source < length outline.now }
    ensures { IfOk result (λ first. (reached : List ℕ) →
        TellsReached outline.now reached (contains nat_cmp around.old) (contains nat_cmp closed.old) →
        HasReached outline.now source target.now reached
        (contains nat_cmp around.new) (contains nat_cmp closed.new) first) }
{
    let Some(node) = counted_target(outline, source, target) else {
        return Ok(None);
    };
    let is_taken = is_taken(outline, around, closed, node);
    reach(outline, around, closed, node)?;
    Ok(is_taken.then_some(MachineFault::Clash(target.place())))
}

/// The node that counts for a target: where it leads, or the parent of a history node. The target
/// may lead nowhere, and a history node may have no parent.
fn counted_target(outline: &Outline, source: u32, target: &OrderedJson) -> Option<u32>
    requires outline { IsOutline outline.now }
    requires source { source < length outline.now }
    ensures { MatchOption result
        ((s a : ℕ) → led_to outline.now source target.now ≡ Some s → ¬ CountsFor outline.now s a)
        (λ n. (n < length outline.now) × (s : ℕ) × (led_to outline.now source target.now ≡ Some s)
        × ((a : ℕ) → CountsFor outline.now s a ↔ (n ≡ a))) }
{
    let node = led_to(outline, source, target)?;
    if outline.node(node).kind.is_history() {
        outline.parent(node)
    } else {
        Some(node)
    }
}

/// Whether a node isn't in another region than each of those that were reached.
fn is_taken(outline: &Outline, around: &BTreeSet<u32>, closed: &BTreeSet<u32>, node: u32) -> bool
    requires outline { IsOutline outline.now }
    requires node { node < length outline.now }
    ensures { (reached : List ℕ) →
        TellsReached outline.now reached (contains nat_cmp around.now) (contains nat_cmp closed.now) →
        MatchBool result (IsTaken outline.now reached node) (IsFree outline.now reached node) }
{
    if around.contains(&node) {
        return true;
    }
    let mut at = node;
    while let Some(parent) = outline.parent(at) {
        if is_blocked(outline, around, closed, at, parent) {
            return true;
        }
        at = parent;
    }
    false
}

/// Whether a parent leaves nothing free below one of its children.
fn is_blocked(
    outline: &Outline,
    around: &BTreeSet<u32>,
    closed: &BTreeSet<u32>,
    child: u32,
    parent: u32,
) -> bool
    requires { parent < length outline.now }
    ensures { MatchBool result
        (IsBlocked outline.now (contains nat_cmp around.now) (contains nat_cmp closed.now) child parent)
        (IsOpen outline.now (contains nat_cmp around.now) (contains nat_cmp closed.now) child parent) }
{
    closed.contains(&parent) || !around.contains(&child) && is_divided(outline, around, parent)
}

/// Whether a node isn't parallel, and it or something below it was reached.
fn is_divided(outline: &Outline, around: &BTreeSet<u32>, node: u32) -> bool
    requires { node < length outline.now }
    ensures { MatchBool result
        ((contains nat_cmp around.now node ≡ true) × (kind_of outline.now node ≢ Some Kind.Parallel))
        (contains nat_cmp around.now node ≡ true → kind_of outline.now node ≡ Some Kind.Parallel) }
{
    around.contains(&node) && !matches!(outline.node(node).kind, Kind::Parallel)
}

/// Takes down that a node was reached.
fn reach(
    outline: &Outline,
    around: &mut BTreeSet<u32>,
    closed: &mut BTreeSet<u32>,
    node: u32,
) -> Result<(), AllocError>
    requires outline { IsOutline outline.now }
    requires node { node < length outline.now }
    ensures { OnOk result ((reached : List ℕ) →
        TellsReached outline.now reached (contains nat_cmp around.old) (contains nat_cmp closed.old) →
        TellsReached outline.now (node ∷ reached)
        (contains nat_cmp around.new) (contains nat_cmp closed.new)) }
{
    closed.insert(node)?;
    let mut at = node;
    while around.insert(at)? {
        let Some(parent) = outline.parent(at) else {
            return Ok(());
        };
        if is_divided(outline, around, parent) {
            closed.insert(parent)?;
        }
        at = parent;
    }
    Ok(())
}
