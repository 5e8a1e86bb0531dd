//! What the active nodes pick: inner nodes before outer ones.

ghost use Rattle.std.specs.Prelude.{◌≡◌, ◌≢◌, ◌↔◌, ◌<◌, All, Err, IsTrue, MatchOption, MatchResult, Ok, Some, length, reverse};
ghost use Rattle.xs_model.specs.declared.env.EvalFault.TheVariants.{Memory};
ghost use Rattle.microstep.specs.Readings.{IsPassed, IsSelectable, Picks, PicksNone, looking_of};
ghost use Rattle.microstep.specs.Selection.{ArePicks, HasNoFault, Place, Selects};

use crate::candidates::own_transition;
use crate::reading::Reading;
use node_tree::Tree;
use std::alloc::Global;
use xs_model::EvalFault;

/// What the asked nodes pick, in document order. The active nodes are looked at from the last to
/// the first; those below a node stand right behind it, so a node is passed over exactly where the
/// pick made last is below it.
pub(crate) fn picks(alloc: Global, reading: &Reading<'_>) -> Result<Vec<(u32, usize)>, EvalFault>
    requires { IsSelectable reading.now }
    ensures { MatchResult result
        (λ picked. ArePicks (looking_of reading.now) picked.items
        × HasNoFault (looking_of reading.now))
        (λ fault. fault ≢ Memory → Selects (looking_of reading.now) (Err fault)) }
{
    let _nodes = reading.def.tree.len();
    let nodes = reading.own.nodes.as_slice();
    let mut picked = Vec::new(alloc);
    for i in (0..nodes.len()).rev() {
        if let Some(place) = pick(alloc, reading, &picked, nodes[i])? {
            picked.push((nodes[i], place))?;
        }
    }
    picked.reverse();
    Ok(picked)
}

/// What a node picks, where these are the picks of the nodes after it, the last node first.
fn pick(
    alloc: Global,
    reading: &Reading<'_>,
    picked: &[(u32, usize)],
    node: u32,
) -> Result<Option<usize>, EvalFault>
    requires reading { IsSelectable reading.now }
    requires picked { All (λ (place : Place). place.0 < length reading.now.def.now.tree)
        picked.now }
    requires node { node < length reading.now.def.now.tree }
    ensures { MatchResult result
        (λ own. MatchOption own
        (PicksNone (looking_of reading.now) (reverse picked.now) node)
        (λ place. Picks (looking_of reading.now) (reverse picked.now) node (Ok (Some place))))
        (λ fault. fault ≢ Memory
        → Picks (looking_of reading.now) (reverse picked.now) node (Err fault)) }
{
    if is_above_last(&reading.def.tree, picked, node) {
        return Ok(None);
    }
    own_transition(alloc, reading, node)
}

/// Whether the node of the last pick is below this one.
fn is_above_last(tree: &Tree, picked: &[(u32, usize)], node: u32) -> bool
    requires picked { All (λ (place : Place). place.0 < length tree.now) picked.now }
    requires node { node < length tree.now }
    ensures { IsTrue result ↔ IsPassed tree.now (reverse picked.now) node }
{
    match picked.last() {
        Some((inner, _)) => tree.below(*inner, node),
        None => false,
    }
}
