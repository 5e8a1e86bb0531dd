//! The parts of an actor's step.

ghost use Rattle.std.specs.Prelude.{◌≡◌, ◌<◌, ℕ, List, Some, IfOk, IsTrue, length};
ghost use Rattle.std.specs.List.Sorted.{IsStrictlyIncreasing};
ghost use Rattle.office_types.specs.declared.outcome.Own.{Own as own_part};
ghost use Rattle.office_types.specs.Definitions.{OfficeDefinitions};
ghost use Rattle.office_types.specs.Effects.{after_effects};
ghost use Rattle.office_types.specs.Ends.{after_failure};
ghost use Rattle.office_types.specs.Events.{fault_error};
ghost use Rattle.office_types.specs.Mailboxes.{without_head};
ghost use Rattle.office_types.specs.Observation.{own_of};
ghost use Rattle.office_types.specs.Outcomes.{AreAllowedEffects, IsAllowedOutcome};
ghost use Rattle.office_types.specs.Records.{is_ready};
ghost use Rattle.office_types.specs.Step.{after_outcome};
ghost use Rattle.office_types.specs.ValidOffice.{IsValidOffice};
ghost use Rattle.action_table.specs.Definitions.{office_definitions};
ghost use Rattle.actor_tree.specs.Changes.{Concludes, Goes, IsPreparedStep};
ghost use Rattle.actor_tree.specs.Parts.{CanPutAll, put};

use crate::ahead::Ahead;
use crate::conclusion::{add_conclusion, add_failure};
use crate::effects::add_effect;
use crate::events::fault_error;
use crate::held::Held;
use crate::part::Parts;
use crate::unfit::Unfit;
use action_table::Defs;
use office_types::{Effect, FaultName, Outcome, copy_own};
use std::alloc::{AllocError, Global};

/// Prepares the step of a ready actor with this outcome. Where something doesn't fit, the actor takes
/// its letter and ends in error. It costs what the outcome is large and what the step removes.
pub(crate) fn step_parts(
    alloc: Global,
    defs: &Defs,
    held: &Held,
    actor: u64,
    outcome: &Outcome,
) -> Result<Parts, AllocError>
    requires valid { IsValidOffice (office_definitions defs.now) held.now.office }
    requires ready { IsTrue (is_ready held.now.office actor) }
    requires allowed { (own : own_part) × (own_of held.now.office actor ≡ Some own)
        × IsAllowedOutcome (office_definitions defs.now) own outcome.now }
    ensures { IfOk result (IsPreparedStep (record {
      definitions = office_definitions defs.now;
      office = held.now.office;
      actor = actor;
      outcome = outcome.now;
    })) }
{
    let ahead = Ahead::begin(alloc, held, actor)?;
    match add_outcome(alloc, defs, outcome, ahead) {
        Ok(parts) => Ok(parts),
        Err(Unfit::Fault(name)) => failure_parts(alloc, held, actor, name),
        Err(Unfit::Memory) => Err(AllocError),
    }
}

/// Prepares the end in error of an actor whose step doesn't fit.
fn failure_parts(
    alloc: Global,
    held: &Held,
    actor: u64,
    name: FaultName,
) -> Result<Parts, AllocError>
    requires valid { (definitions : OfficeDefinitions) × IsValidOffice definitions held.now.office }
    requires ready { IsTrue (is_ready held.now.office actor) }
    ensures office { IfOk result (λ parts. put held.now.office parts
        ≡ after_failure actor (fault_error name) (without_head held.now.office actor)) }
    ensures fits { IfOk result (CanPutAll held.now.office) }
{
    let ahead = Ahead::begin(alloc, held, actor)?;
    let error = fault_error(alloc, name)?;
    add_failure(alloc, &error, ahead)
}

/// Adds the own part, the effects in their order, and the end.
fn add_outcome(
    alloc: Global,
    defs: &Defs,
    outcome: &Outcome,
    ahead: Ahead<'_>,
) -> Result<Parts, Unfit>
    requires effects { (ids : List (List ℕ))
        × AreAllowedEffects (office_definitions defs.now) ids outcome.now.effects }
    requires machine { outcome.now.own.def < length defs.now.defs }
    requires in_order { IsStrictlyIncreasing outcome.now.own.nodes }
    ensures concludes { Concludes
        (λ a. after_outcome (office_definitions defs.now) a.actor outcome.now a.office)
        ahead.entry result }
{
    let ahead = ahead.own(copy_own(alloc, &outcome.own)?)?;
    let ahead = add_effects(alloc, defs, outcome.effects.as_slice(), ahead)?;
    add_conclusion(alloc, defs, &outcome.own, &outcome.end, ahead)
}

/// Adds the parts of effects, up to the first that doesn't fit.
fn add_effects<'a>(
    alloc: Global,
    defs: &Defs,
    effects: &[Effect],
    ahead: Ahead<'a>,
) -> Result<Ahead<'a>, Unfit>
    requires allowed { (ids : List (List ℕ))
        × AreAllowedEffects (office_definitions defs.now) ids effects.now }
    ensures goes { Goes
        (λ a. after_effects (office_definitions defs.now) a.actor effects.now a.office)
        ahead.entry result }
{
    let mut ahead = ahead;
    for effect in effects {
        ahead = add_effect(alloc, defs, effect, ahead)?;
    }
    Ok(ahead)
}
