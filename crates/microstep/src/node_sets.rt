//! What two sets of nodes have together, and what one has beside another.

ghost use Rattle.std.specs.Prelude.{◌<◌, ◌≤◌, ◌⊎◌, ℕ, Contains, IfOk, IsTrue, MatchOption, length};
ghost use Rattle.std.specs.List.Sorted.{IsStrictlyIncreasing};
ghost use Rattle.step_sets.specs.Sets.{IsSetOf};
ghost use Rattle.microstep.specs.NodeSets.{IsLeast, IsPast};

use node_tree::NodeSet;
use std::alloc::{AllocError, Global};

/// The nodes of both sets. Where the second one stands behind the first, it costs a copy of the
/// second; otherwise a copy of both.
pub(crate) fn union(alloc: Global, mut all: Vec<u32>, more: &[u32]) -> Result<Vec<u32>, AllocError>
    requires all { IsStrictlyIncreasing all.items }
    requires more { IsStrictlyIncreasing more.now }
    ensures { IfOk result (λ both.
        IsSetOf (λ n. Contains all.items n ⊎ Contains more.now n) both.items) }
{
    if stands_before(&all, more) {
        all.extend_from_slice(more)?;
        return Ok(all);
    }
    merge(alloc, &all, more)
}

/// Whether each node of the one set stands before each node of the other.
fn stands_before(first: &[u32], second: &[u32]) -> bool
    requires first { IsStrictlyIncreasing first.now }
    requires second { IsStrictlyIncreasing second.now }
    ensures { IsTrue result → (m n : ℕ) → Contains first.now m → Contains second.now n → m < n }
{
    first.is_empty() || second.is_empty() || first[first.len() - 1] < second[0]
}

/// The nodes of both sets, side by side.
fn merge(alloc: Global, first: &[u32], second: &[u32]) -> Result<Vec<u32>, AllocError>
    requires first { IsStrictlyIncreasing first.now }
    requires second { IsStrictlyIncreasing second.now }
    ensures { IfOk result (λ both.
        IsSetOf (λ n. Contains first.now n ⊎ Contains second.now n) both.items) }
{
    let mut both = Vec::new(alloc);
    let mut i = 0;
    let mut j = 0;
    while let Some(node) = least(first, i, second, j) {
        both.push(node)?;
        i = past(first, i, node);
        j = past(second, j, node);
    }
    Ok(both)
}

/// The least of the nodes that stand at these places and behind them.
fn least(first: &[u32], i: usize, second: &[u32], j: usize) -> Option<u32>
    ensures { MatchOption result
        ((length first.now ≤ i) × (length second.now ≤ j))
        (IsLeast first.now i second.now j) }
{
    match (first.get(i), second.get(j)) {
        (Some(one), Some(other)) => {
            if *one < *other {
                Some(*one)
            } else {
                Some(*other)
            }
        }
        (Some(one), None) => Some(*one),
        (None, Some(other)) => Some(*other),
        (None, None) => None,
    }
}

/// The next place, where this node stands at the place.
fn past(nodes: &[u32], place: usize, node: u32) -> usize
    requires { place ≤ length nodes.now }
    ensures { IsPast nodes.now place node result }
{
    match nodes.get(place) {
        Some(at) if *at == node => place + 1,
        _ => place,
    }
}

/// The nodes of the list that are not in the set. It costs a search by halves for each node.
pub(crate) fn without(
    alloc: Global,
    nodes: &[u32],
    others: &NodeSet,
) -> Result<Vec<u32>, AllocError>
    requires { IsStrictlyIncreasing nodes.now }
    ensures { IfOk result (λ rest.
        IsSetOf (λ n. Contains nodes.now n × ¬ Contains others.now n) rest.items) }
{
    let mut rest = Vec::new(alloc);
    for node in nodes {
        if !others.has(*node) {
            rest.push(*node)?;
        }
    }
    Ok(rest)
}
