//! Microsteps until nothing is left to do.

ghost use Rattle.std.specs.Prelude.{◌≡◌, ◌≤◌, ℕ, IfOk, MatchOption, MatchResult, length};
ghost use Rattle.guard_eval.specs.Definitions.{IsWellFormed};
ghost use Rattle.office_types.specs.OwnParts.{HasBegun};
ghost use Rattle.microstep.specs.Taking.{CanBeTaken, transitions_at};
ghost use Rattle.macrostep.specs.Allowed.{IsAllowedEnd};
ghost use Rattle.macrostep.specs.Macro.{Makes, Runs, Takes, run_of};
ghost use Rattle.macrostep.specs.Trails.{ComesToRest, Follows, GoesOn, HasOutput, IsMade, MayFail, Settles, run_with};

use crate::trail::{Made, Trail};
use guard_eval::Def;
use microstep::{Picked, StepFault, advance, machine_output, select};
use office_types::{End, FaultName, MAX_MICROSTEPS, Outcome, Own};
use std::alloc::Global;
use xs_model::Value;

/// What an own part that is used up makes of an event: a microstep of the transitions that it
/// takes, if it takes any, and what follows.
pub(crate) fn take(alloc: Global, def: &Def, own: Own, event: &Value) -> Result<Outcome, StepFault>
    requires well_formed { (actors : ℕ) × IsWellFormed actors def.now }
    requires begun { HasBegun def.now.tree own }
    ensures settles { Settles (Takes def.now (run_of own event.now)) result }
    ensures allowed { IfOk result (IsAllowedEnd def.now (run_of own event.now)) }
    ensures within { IfOk result (λ outcome. length outcome.micros ≤ MAX_MICROSTEPS) }
    ensures begun { IfOk result (λ outcome. HasBegun def.now.tree outcome.own) }
{
    let picked = select(alloc, def, &own, event, false)?;
    let mut trail = Trail::new(alloc);
    if picked.taken.is_empty() {
        let made = Made {
            own,
            finished: false,
        };
        return follow(alloc, def, made, event, trail);
    }
    let made = make(alloc, def, own, event, &mut trail, &picked)?;
    follow(alloc, def, made, event, trail)
}

/// What follows a microstep, where the macrostep began with this event.
pub(crate) fn follow(
    alloc: Global,
    def: &Def,
    mut made: Made,
    first: &Value,
    mut trail: Trail,
) -> Result<Outcome, StepFault>
    requires well_formed { (actors : ℕ) × IsWellFormed actors def.now }
    requires begun { HasBegun def.now.tree made.own }
    requires output { HasOutput def.now (run_with made.own first.now trail) made.finished }
    requires within { length trail.read.items ≤ MAX_MICROSTEPS }
    ensures settles { Settles
        (Follows def.now (run_with made.own first.now trail) made.finished) result }
    ensures allowed { IfOk result (IsAllowedEnd def.now (run_with made.own first.now trail)) }
    ensures within { IfOk result (λ outcome. length outcome.micros ≤ MAX_MICROSTEPS) }
    ensures begun { IfOk result (λ outcome. HasBegun def.now.tree outcome.own) }
{
    while !made.finished {
        let Some(picked) = next_transitions(alloc, def, &made.own, first, &mut trail)? else {
            return Ok(trail.into_outcome(made.own, End::Active));
        };
        made = make(alloc, def, made.own, first, &mut trail, &picked)?;
    }
    let output = machine_output(alloc, def, &made.own, trail.event(first))?;
    Ok(trail.into_outcome(made.own, End::Done(output)))
}

/// The transitions of the next microstep: those without an event, or those of the oldest raised
/// event that takes any.
fn next_transitions(
    alloc: Global,
    def: &Def,
    own: &Own,
    first: &Value,
    trail: &mut Trail,
) -> Result<Option<Picked>, StepFault>
    requires well_formed { (actors : ℕ) × IsWellFormed actors def.now }
    requires begun { HasBegun def.now.tree own.now }
    ensures { MatchResult result
        (λ next. MatchOption next
        (ComesToRest def.now (run_with own.now first.now trail.old)
        (run_with own.now first.now trail.new))
        (λ picked. GoesOn def.now (run_with own.now first.now trail.old) picked
        (run_with own.now first.now trail.new)))
        (MayFail (Runs def.now (run_with own.now first.now trail.old))) }
{
    loop {
        let eventless = select(alloc, def, own, trail.event(first), true)?;
        if !eventless.taken.is_empty() {
            return Ok(Some(eventless));
        }
        if !trail.take_oldest() {
            return Ok(None);
        }
        let picked = select(alloc, def, own, trail.event(first), false)?;
        if !picked.taken.is_empty() {
            return Ok(Some(picked));
        }
    }
}

/// A microstep of these transitions. One too many is the fault Steps.
fn make(
    alloc: Global,
    def: &Def,
    own: Own,
    first: &Value,
    trail: &mut Trail,
    picked: &Picked,
) -> Result<Made, StepFault>
    requires well_formed { (actors : ℕ) × IsWellFormed actors def.now }
    requires begun { HasBegun def.now.tree own }
    requires picked { CanBeTaken def.now own picked.now }
    requires within { length trail.old.read.items ≤ MAX_MICROSTEPS }
    ensures { MatchResult result
        (λ made. IsMade def.now (transitions_at def.now picked.now)
        (run_with own first.now trail.old) made.finished (run_with made.own first.now trail.new))
        (MayFail (Makes def.now (run_with own first.now trail.old)
        (transitions_at def.now picked.now))) }
{
    if trail.is_full() {
        return Err(StepFault::Fault(FaultName::Steps));
    }
    let micro = advance(alloc, def, own, picked, trail.event(first))?;
    trail.add(alloc, first, micro)
}
