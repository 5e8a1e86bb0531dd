//! What an action does.

ghost use Rattle.std.specs.Prelude.{OnOk, length, map};
ghost use Rattle.guard_eval.specs.Definitions.{StartsActors};
ghost use Rattle.office_types.specs.declared.outcome.Own.{Own};
ghost use Rattle.office_types.specs.Definitions.{OfficeDefinitions};
ghost use Rattle.microstep.specs.Allowed.{IsAllowedSoFar};
ghost use Rattle.microstep.specs.Actions.{after_action, doing, enqueued, scope_at};
ghost use Rattle.microstep.specs.Choices.{choice};
ghost use Rattle.microstep.specs.Progressing.{Becomes, given_of};

use crate::assignment::assign;
use crate::choices::choose_all;
use crate::lent::Lent;
use crate::micro::StepFault;
use crate::progress::Progress;
use crate::sending::{cancel, raise, send, target_in};
use crate::spawning::{spawn, stop_child};
use guard_eval::ActionUse;
use std::alloc::Global;
use xs_model::{Action, ActionItems, Env, Value};

/// What an action of the table does, where the microstep reads this event. Each of its parts is
/// evaluated and checked before the next one, and the first fault ends it. It costs the
/// evaluations, a look at each child where one is named, and at each byte of the context where it
/// is assigned to.
pub(crate) fn run_action(
    alloc: Global,
    event: &Value,
    action_use: &ActionUse,
    progress: &mut Progress,
) -> Result<(), StepFault>
    ensures gives { Becomes result progress.new
        (after_action event.now action_use.now progress.old) }
    ensures allowed { OnOk result ((definitions : OfficeDefinitions) (own : Own)
        → StartsActors (length definitions.actors) action_use.now
        → IsAllowedSoFar definitions own progress.old
        → IsAllowedSoFar definitions own progress.new) }
{
    let lent = Lent {
        event,
        params: &action_use.params,
    };
    run(alloc, &lent, &action_use.action, progress)
}

/// What an action does: it is counted, and then does what its form says.
#[cycle(run)]
fn run(
    alloc: Global,
    lent: &Lent<'_>,
    action: &Action,
    progress: &mut Progress,
) -> Result<(), StepFault>
    ensures { Becomes result progress.new (doing action.now (given_of lent.now) progress.old) }
{
    progress.count();
    match action {
        Action::Assign { values } => assign(alloc, lent, values, progress),
        Action::Raise { event, delay, id } => raise(alloc, lent, event, delay, id, progress),
        Action::SendTo {
            target,
            event,
            delay,
            id,
        } => {
            let to = target_in(alloc, lent, target, progress)?;
            send(alloc, lent, to, event, delay, id, progress)
        }
        Action::Cancel { id } => cancel(alloc, lent, id, progress),
        Action::SpawnChild {
            src,
            id,
            input,
            system,
        } => spawn(alloc, lent, *src, id, input, system, progress),
        Action::StopChild { id } => stop_child(alloc, lent, id, progress),
        Action::EnqueueActions { items } => enqueue(alloc, lent, items, progress),
    }
}

/// The actions that items choose, one after the other. All of them are chosen before the first
/// runs.
#[cycle(run)]
fn enqueue(
    alloc: Global,
    lent: &Lent<'_>,
    items: &ActionItems,
    progress: &mut Progress,
) -> Result<(), StepFault>
    ensures { Becomes result progress.new
        (enqueued (scope_at (given_of lent.now) progress.old) (map choice items.now)
        (given_of lent.now) progress.old) }
{
    let mut actions = Vec::new(alloc);
    let env = Env {
        context: &progress.context,
        event: lent.event,
        params: lent.params,
        input: &Value::Null,
    };
    choose_all(alloc, items, &env, &mut actions)?;
    for action in &actions {
        run(alloc, lent, action, progress)?;
    }
    Ok(())
}
