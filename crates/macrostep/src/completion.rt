//! Run to completion: the outcome of one event.

ghost use Rattle.std.specs.Prelude.{◌≡◌, ◌≤◌, ℕ, false, IfOk, IsTrue, MatchResult, length};
ghost use Rattle.guard_eval.specs.Definitions.{IsWellFormed};
ghost use Rattle.office_types.specs.declared.outcome.End.TheVariants.{Active};
ghost use Rattle.office_types.specs.Effects.{fresh_own};
ghost use Rattle.office_types.specs.Limits.{is_event};
ghost use Rattle.office_types.specs.OwnParts.{HasBegun};
ghost use Rattle.microstep.specs.Selected.{IsFaultOf};
ghost use Rattle.macrostep.specs.Allowed.{IsAllowedFor};
ghost use Rattle.macrostep.specs.Macro.{IsFirstMacrostep, IsMacrostep, outcome_of};
ghost use Rattle.macrostep.specs.Trails.{IsFirstOutcome, IsOutcome, IsUnhandled, MayFail, looking_at};

use crate::outcomes::{
    child_error, error_outcome, fault_outcome, fresh_own, init_event, is_child_error,
};
use crate::runs::{follow, take};
use crate::trail::Trail;
use guard_eval::Def;
use microstep::{StepFault, first_microstep, select};
use office_types::{MAX_MICROSTEPS, Outcome, Own, copy_own};
use std::alloc::{AllocError, Global};
use xs_model::Value;

/// The first step of an actor of the machine with this number: its context is evaluated, the root
/// is entered, and then microsteps are made until nothing is left to do. A fault ends the actor in
/// error, and is an outcome too. It costs what its microsteps touch.
pub fn begin(alloc: Global, def: &Def, number: u32, input: &Value) -> Result<Outcome, AllocError>
    requires { (actors : ℕ) × IsWellFormed actors def.now }
    ensures outcome { IfOk result (λ outcome.
        IsFirstMacrostep def.now number input.now outcome) }
    ensures allowed { IfOk result (λ outcome.
        IsAllowedFor def.now (fresh_own number) outcome) }
    ensures begun { IfOk result (λ outcome.
        outcome.end ≡ Active → HasBegun def.now.tree outcome.own) }
    ensures bounded { IfOk result (λ outcome. length outcome.micros ≤ MAX_MICROSTEPS) }
{
    match first_run(alloc, def, number, input) {
        Ok(outcome) => Ok(outcome),
        Err(StepFault::Fault(name)) => fault_outcome(alloc, fresh_own(alloc, number), name),
        Err(StepFault::Memory) => Err(AllocError),
    }
}

/// What an event makes of an actor that has begun: the transitions that it takes, and then
/// microsteps until nothing is left to do. A fault ends the actor in error, as does the error of a
/// child that takes no transition; both are outcomes. It costs a copy of the own part, and what its
/// microsteps touch.
pub fn macrostep(alloc: Global, def: &Def, own: &Own, event: &Value) -> Result<Outcome, AllocError>
    requires well_formed { (actors : ℕ) × IsWellFormed actors def.now }
    requires begun { HasBegun def.now.tree own.now }
    ensures outcome { IfOk result (λ outcome. IsMacrostep def.now own.now event.now outcome) }
    ensures allowed { IfOk result (λ outcome.
        IsTrue (is_event event.now) → IsAllowedFor def.now own.now outcome) }
    ensures begun { IfOk result (λ outcome. HasBegun def.now.tree outcome.own) }
    ensures bounded { IfOk result (λ outcome. length outcome.micros ≤ MAX_MICROSTEPS) }
{
    match run(alloc, def, own, event) {
        Ok(outcome) => Ok(outcome),
        Err(StepFault::Fault(name)) => fault_outcome(alloc, copy_own(alloc, own)?, name),
        Err(StepFault::Memory) => Err(AllocError),
    }
}

/// The first macrostep, up to its fault.
fn first_run(alloc: Global, def: &Def, number: u32, input: &Value) -> Result<Outcome, StepFault>
    requires { (actors : ℕ) × IsWellFormed actors def.now }
    ensures { MatchResult result
        (IsFirstOutcome def.now number input.now)
        (MayFail (λ ended.
        IsFirstMacrostep def.now number input.now (outcome_of (fresh_own number) ended))) }
{
    let event = init_event(alloc, input)?;
    let micro = first_microstep(alloc, def, number, &event)?;
    let mut trail = Trail::new(alloc);
    let made = trail.add(alloc, &event, micro)?;
    follow(alloc, def, made, &event, trail)
}

/// A macrostep, up to its fault.
fn run(alloc: Global, def: &Def, own: &Own, event: &Value) -> Result<Outcome, StepFault>
    requires well_formed { (actors : ℕ) × IsWellFormed actors def.now }
    requires begun { HasBegun def.now.tree own.now }
    ensures { MatchResult result
        (IsOutcome def.now own.now event.now)
        (MayFail (λ ended.
        IsMacrostep def.now own.now event.now (outcome_of own.now ended))) }
{
    if is_unhandled(alloc, def, own, event)? {
        let error = child_error(alloc, event)?;
        return Ok(error_outcome(alloc, copy_own(alloc, own)?, error));
    }
    take(alloc, def, copy_own(alloc, own)?, event)
}

/// Whether an event tells that a child ended in error, and selects no transition.
fn is_unhandled(alloc: Global, def: &Def, own: &Own, event: &Value) -> Result<bool, StepFault>
    requires well_formed { (actors : ℕ) × IsWellFormed actors def.now }
    requires begun { HasBegun def.now.tree own.now }
    ensures { MatchResult result (IsUnhandled def.now own.now event.now)
        (IsFaultOf (looking_at def.now own.now event.now false)) }
{
    if !is_child_error(event) {
        return Ok(false);
    }
    let picked = select(alloc, def, own, event, false)?;
    Ok(picked.taken.is_empty())
}
