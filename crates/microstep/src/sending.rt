//! `raise`, `sendTo` and `cancel`: events now or after a delay.

ghost use Rattle.microstep.specs.Actions as spec;
ghost use Rattle.microstep.specs.Actions.{scope_at};
ghost use Rattle.microstep.specs.Progressing.{Becomes, Gives, given_of};

use crate::lent::Lent;
use crate::micro::StepFault;
use crate::parts::{delay_in, event_in, name_in, optional_name};
use crate::progress::Progress;
use office_types::{Effect, FaultName, To};
use std::alloc::Global;
use xs_data::Text;
use xs_model::{Env, Expr, Target, Value};

/// An event to the actor itself, which is raised where no delay is given.
pub(crate) fn raise(
    alloc: Global,
    lent: &Lent<'_>,
    event: &Expr,
    delay: &Option<Expr>,
    id: &Option<Expr>,
    progress: &mut Progress,
) -> Result<(), StepFault>
    ensures { Becomes result progress.new
        (spec.raise (scope_at (given_of lent.now) progress.old) event.now delay.now id.now
        progress.old) }
{
    let env = Env {
        context: &progress.context,
        event: lent.event,
        params: lent.params,
        input: &Value::Null,
    };
    let event = event_in(alloc, event, &env)?;
    match delay {
        None => progress.raise(event),
        Some(delay) => delayed(alloc, lent, To::Own, event, delay, id, progress),
    }
}

/// An event to another.
pub(crate) fn send(
    alloc: Global,
    lent: &Lent<'_>,
    to: To,
    event: &Expr,
    delay: &Option<Expr>,
    id: &Option<Expr>,
    progress: &mut Progress,
) -> Result<(), StepFault>
    ensures { Becomes result progress.new
        (spec.send (scope_at (given_of lent.now) progress.old) to event.now delay.now id.now
        progress.old) }
{
    let env = Env {
        context: &progress.context,
        event: lent.event,
        params: lent.params,
        input: &Value::Null,
    };
    let event = event_in(alloc, event, &env)?;
    match delay {
        None => progress.add(alloc, Effect::Send { to, event }),
        Some(delay) => delayed(alloc, lent, to, event, delay, id, progress),
    }
}

/// An event after a delay, under an id where one is given.
fn delayed(
    alloc: Global,
    lent: &Lent<'_>,
    to: To,
    event: Value,
    delay: &Expr,
    id: &Option<Expr>,
    progress: &mut Progress,
) -> Result<(), StepFault>
    ensures { Becomes result progress.new
        (spec.delayed (scope_at (given_of lent.now) progress.old) to event delay.now id.now
        progress.old) }
{
    let env = Env {
        context: &progress.context,
        event: lent.event,
        params: lent.params,
        input: &Value::Null,
    };
    let delay = delay_in(alloc, delay, &env)?;
    let id = optional_name(alloc, id, &env)?;
    progress.add(
        alloc,
        Effect::Schedule {
            id,
            delay,
            to,
            event,
        },
    )
}

/// To whom `sendTo` sends. A child that isn't there is NoChild.
pub(crate) fn target_in(
    alloc: Global,
    lent: &Lent<'_>,
    target: &Target,
    progress: &Progress,
) -> Result<To, StepFault>
    ensures { Gives result
        (spec.target_in (scope_at (given_of lent.now) progress.now) progress.now target.now) }
{
    let env = Env {
        context: &progress.context,
        event: lent.event,
        params: lent.params,
        input: &Value::Null,
    };
    match target {
        Target::Own => Ok(To::Own),
        Target::Parent => Ok(To::Parent),
        Target::Child(expr) => {
            let id = name_in(alloc, expr, &env)?;
            held_child(progress, id)
        }
        Target::System(expr) => {
            let name = name_in(alloc, expr, &env)?;
            Ok(To::System(name))
        }
    }
}

/// The child with this id.
fn held_child(progress: &Progress, id: Text) -> Result<To, StepFault>
    ensures { Gives result (spec.held_child progress.now id) }
{
    if progress.has_child(id.as_bytes()) {
        Ok(To::Child(id))
    } else {
        Err(StepFault::Fault(FaultName::NoChild))
    }
}

/// No letter any more of the timer with this id.
pub(crate) fn cancel(
    alloc: Global,
    lent: &Lent<'_>,
    id: &Expr,
    progress: &mut Progress,
) -> Result<(), StepFault>
    ensures { Becomes result progress.new
        (spec.cancel (scope_at (given_of lent.now) progress.old) id.now progress.old) }
{
    let env = Env {
        context: &progress.context,
        event: lent.event,
        params: lent.params,
        input: &Value::Null,
    };
    let id = name_in(alloc, id, &env)?;
    progress.add(alloc, Effect::Cancel { id })
}
