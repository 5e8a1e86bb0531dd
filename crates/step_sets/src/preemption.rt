//! Which of the enabled transitions stay.

ghost use Rattle.std.specs.Prelude.{◌≡◌, ℕ, IfOk, MatchBool, OnOk};
ghost use Rattle.std.specs.BTreeSet.{contains};
ghost use Rattle.std.specs.Ordering.{nat_cmp};
ghost use Rattle.step_sets.specs.Preemption.{KeepsUnpreempted, IsApart, HasTaken, TakesAll};

use crate::Flags;
use node_tree::NodeSet;
use std::alloc::{AllocError, Global};
use std::collections::BTreeSet;
use xs_data::Items;

/// Which of the enabled transitions stay, after SCXML's `removeConflictingTransitions`: those whose
/// exit set has no node in common with the exit set of one that stays before it. It costs a look-up
/// in the set of the nodes that are left for each node of each exit set.
pub fn stays(alloc: Global, exits: &[NodeSet]) -> Result<Flags, AllocError>
    ensures { IfOk result (λ flags. KeepsUnpreempted exits.now flags) }
{
    let mut taken = BTreeSet::new(alloc);
    let mut flags = Vec::new(alloc);
    for exit in exits {
        let stays = take_apart(&mut taken, exit.as_slice())?;
        flags.push(stays)?;
    }
    Ok(Items::from_vec(flags))
}

/// Takes the nodes if none of them is taken, and tells whether it did.
fn take_apart(taken: &mut BTreeSet<u32>, nodes: &[u32]) -> Result<bool, AllocError>
    ensures { IfOk result (λ stays. MatchBool stays
        (IsApart nodes.now (contains nat_cmp taken.old)
        × TakesAll nodes.now (contains nat_cmp taken.old) (contains nat_cmp taken.new))
        (HasTaken nodes.now (contains nat_cmp taken.old)
        × ((n : ℕ) → contains nat_cmp taken.new n ≡ contains nat_cmp taken.old n))) }
{
    if meets(nodes, taken) {
        return Ok(false);
    }
    take_all(taken, nodes)?;
    Ok(true)
}

/// Whether one of the nodes is taken.
fn meets(nodes: &[u32], taken: &BTreeSet<u32>) -> bool
    ensures { MatchBool result
        (HasTaken nodes.now (contains nat_cmp taken.now))
        (IsApart nodes.now (contains nat_cmp taken.now)) }
{
    nodes.iter().any(|n| taken.contains(n))
}

/// Takes the nodes.
pub(crate) fn take_all(taken: &mut BTreeSet<u32>, nodes: &[u32]) -> Result<(), AllocError>
    ensures { OnOk result
        (TakesAll nodes.now (contains nat_cmp taken.old) (contains nat_cmp taken.new)) }
{
    for n in nodes {
        taken.insert(*n)?;
    }
    Ok(())
}
