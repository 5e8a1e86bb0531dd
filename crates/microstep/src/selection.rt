//! Which transitions an event takes.

ghost use Rattle.std.specs.Prelude.{◌≡◌, ℕ, false, IfOk, length, map};
ghost use Rattle.std.specs.List.{AllZip, items_where_true};
ghost use Rattle.step_sets.specs.Sets.{IsSetOf};
ghost use Rattle.guard_eval.specs.Definitions.{IsWellFormed};
ghost use Rattle.office_types.specs.OwnParts.{HasBegun};
ghost use Rattle.microstep.specs.Candidates.{descriptors_of};
ghost use Rattle.microstep.specs.Patterns.{pattern_text};
ghost use Rattle.microstep.specs.Readings.{IsSelectable, looking_of};
ghost use Rattle.microstep.specs.Selected.{IsSelected};
ghost use Rattle.microstep.specs.Selection.{ArePicks, IsLeftBy, IsSelection};
ghost use Rattle.microstep.specs.Taking.{CanBeTaken};

use crate::micro::{Picked, StepFault};
use crate::patterns::{Pattern, patterns_of};
use crate::picks::picks;
use crate::places::transition_at;
use crate::reading::Reading;
use guard_eval::Def;
use node_tree::NodeSet;
use office_types::{Own, event_type};
use std::alloc::{AllocError, Global};
use step_sets::{domain, exit_set, stays};
use xs_data::Items;
use xs_model::Value;

/// The transitions that an event takes, or for a step without an event those of `always`, whose
/// guards read the event that was taken last. Of the active nodes the inner ones are asked before
/// the outer ones, and each gives the first of its candidates that is enabled; of these one is
/// dropped that leaves a node which one before it leaves. The fault of the last node that is asked
/// and has one ends it. It costs a look at the candidates of the active nodes, their guards, and
/// what the transitions leave.
pub fn select(
    alloc: Global,
    def: &Def,
    own: &Own,
    event: &Value,
    eventless: bool,
) -> Result<Picked, StepFault>
    requires well_formed { (actors : ℕ) × IsWellFormed actors def.now }
    requires begun { HasBegun def.now.tree own.now }
    ensures selected { IsSelected
        (record { def = def.now; own = own.now; event = event.now; eventless = eventless }) result }
    ensures taken { IfOk result (λ picked. CanBeTaken def.now own.now picked) }
{
    let kind = match event_type(event) {
        Some(kind) => kind.as_bytes(),
        None => &[],
    };
    let patterns = patterns_for(alloc, kind, eventless)?;
    let reading = Reading {
        def,
        own,
        event,
        eventless,
        kind,
        patterns: &patterns,
    };
    let picked = picks(alloc, &reading)?;
    let taken = staying(alloc, &reading, &picked)?;
    Ok(Picked {
        eventless,
        taken: Items::from_vec(taken),
    })
}

/// The descriptors of a type, for a step with an event.
fn patterns_for(alloc: Global, kind: &[u8], eventless: bool) -> Result<Vec<Pattern>, AllocError>
    ensures { IfOk result (λ patterns. eventless ≡ false
        → map (pattern_text kind.now) patterns.items ≡ descriptors_of kind.now) }
{
    if eventless {
        return Ok(Vec::new(alloc));
    }
    patterns_of(alloc, kind)
}

/// The picks that stay.
fn staying(
    alloc: Global,
    reading: &Reading<'_>,
    picked: &[(u32, usize)],
) -> Result<Vec<(u32, usize)>, AllocError>
    requires reading { IsSelectable reading.now }
    requires picked { ArePicks (looking_of reading.now) picked.now }
    ensures { IfOk result (λ taken. IsSelection (looking_of reading.now) taken.items) }
{
    let exits = exits_of(alloc, reading, picked)?;
    let flags = stays(alloc, &exits)?;
    kept(alloc, picked, flags.as_slice())
}

/// The exit set of each pick.
fn exits_of(
    alloc: Global,
    reading: &Reading<'_>,
    picked: &[(u32, usize)],
) -> Result<Vec<NodeSet>, AllocError>
    requires { IsSelectable reading.now }
    ensures { IfOk result (λ exits.
        AllZip (λ place. IsSetOf (IsLeftBy (looking_of reading.now) place))
        picked.now exits.items) }
{
    let active = NodeSet::of(alloc, &reading.def.tree, reading.own.nodes.as_slice())?;
    let mut exits = Vec::new(alloc);
    for place in picked {
        exits.push(exits_at(alloc, reading, &active, *place)?)?;
    }
    Ok(exits)
}

/// The exit set of the transition at a place. Without targets it leaves nothing.
fn exits_at(
    alloc: Global,
    reading: &Reading<'_>,
    active: &NodeSet,
    place: (u32, usize),
) -> Result<NodeSet, AllocError>
    requires reading { IsSelectable reading.now }
    requires active { active.now ≡ reading.now.own.now.nodes }
    ensures { IfOk result (λ exits. IsSetOf (IsLeftBy (looking_of reading.now) place) exits) }
{
    let Some(transition) = transition_at(reading.def, reading.eventless, place) else {
        return Ok(NodeSet::from_rising(Items::new(alloc)));
    };
    let targets = transition.targets.as_slice();
    if targets.is_empty() {
        return Ok(NodeSet::from_rising(Items::new(alloc)));
    }
    let tree = &reading.def.tree;
    let _nodes = tree.len();
    let domain = domain(tree, transition.source, targets, transition.reenter);
    exit_set(alloc, tree, active, domain)
}

/// The picks whose flags say that they stay.
fn kept(
    alloc: Global,
    picked: &[(u32, usize)],
    flags: &[bool],
) -> Result<Vec<(u32, usize)>, AllocError>
    requires { length flags.now ≡ length picked.now }
    ensures { IfOk result (λ taken. taken.items ≡ items_where_true flags.now picked.now) }
{
    let mut taken = Vec::new(alloc);
    for (i, place) in picked.iter().enumerate() {
        if flags[i] {
            taken.push(*place)?;
        }
    }
    Ok(taken)
}
