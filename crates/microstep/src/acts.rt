//! What a microstep does where nodes are left and transitions are taken.

ghost use Rattle.std.specs.Prelude.{reverse};
ghost use Rattle.std.specs.List.{flat_map};
ghost use Rattle.microstep.specs.Actions.{in_turn};
ghost use Rattle.microstep.specs.Acts.{after_acts, exit_acts, exits_of, last_acts, runs};
ghost use Rattle.microstep.specs.Progressing.{Becomes};
ghost use Rattle.microstep.specs.Working.{acts_at, cancel_timer, stop_invocation};

use crate::actions::run_action;
use crate::micro::StepFault;
use crate::places::transition_at;
use crate::progress::Progress;
use guard_eval::{ActionUse, Def, Invocation, NodeDef};
use office_types::Effect;
use std::alloc::Global;
use xs_data::Text;
use xs_model::{Expr, Value};

/// Leaves nodes, from the last to the first.
pub(crate) fn leave_all(
    alloc: Global,
    def: &Def,
    event: &Value,
    nodes: &[u32],
    progress: &mut Progress,
) -> Result<(), StepFault>
    ensures { Becomes result progress.new
        (after_acts event.now (flat_map (exit_acts def.now) (reverse nodes.now)) progress.old) }
{
    for i in (0..nodes.len()).rev() {
        leave(alloc, def, event, nodes[i], progress)?;
    }
    Ok(())
}

/// Leaves a node: its exit actions run, its timers are cancelled, its invocations are stopped.
fn leave(
    alloc: Global,
    def: &Def,
    event: &Value,
    node: u32,
    progress: &mut Progress,
) -> Result<(), StepFault>
    ensures { Becomes result progress.new
        (after_acts event.now (exit_acts def.now node) progress.old) }
{
    match def.nodes.get(node as usize) {
        Some(said) => leave_as(alloc, said, event, progress),
        None => Ok(()),
    }
}

/// What is done where a node is left of which this is said.
fn leave_as(
    alloc: Global,
    said: &NodeDef,
    event: &Value,
    progress: &mut Progress,
) -> Result<(), StepFault>
    ensures { Becomes result progress.new (after_acts event.now (exits_of said.now) progress.old) }
{
    run_all(alloc, event, said.exit.as_slice(), progress)?;
    cancel_timers(alloc, said.after.as_slice(), progress)?;
    stop_invoked(alloc, said.invoke.as_slice(), progress)
}

/// Runs the exit actions of nodes, from the last to the first.
pub(crate) fn run_last(
    alloc: Global,
    def: &Def,
    event: &Value,
    nodes: &[u32],
    progress: &mut Progress,
) -> Result<(), StepFault>
    ensures { Becomes result progress.new
        (after_acts event.now (flat_map (last_acts def.now) (reverse nodes.now)) progress.old) }
{
    for i in (0..nodes.len()).rev() {
        run_exit(alloc, def, event, nodes[i], progress)?;
    }
    Ok(())
}

/// Runs the exit actions of a node.
fn run_exit(
    alloc: Global,
    def: &Def,
    event: &Value,
    node: u32,
    progress: &mut Progress,
) -> Result<(), StepFault>
    ensures { Becomes result progress.new
        (after_acts event.now (last_acts def.now node) progress.old) }
{
    match def.nodes.get(node as usize) {
        Some(said) => run_all(alloc, event, said.exit.as_slice(), progress),
        None => Ok(()),
    }
}

/// Runs the actions of the transitions at these places.
pub(crate) fn act_all(
    alloc: Global,
    def: &Def,
    event: &Value,
    eventless: bool,
    places: &[(u32, usize)],
    progress: &mut Progress,
) -> Result<(), StepFault>
    ensures { Becomes result progress.new
        (after_acts event.now (flat_map (acts_at def.now eventless) places.now) progress.old) }
{
    for place in places {
        act_at(alloc, def, event, eventless, *place, progress)?;
    }
    Ok(())
}

/// Runs the actions of the transition at a place.
fn act_at(
    alloc: Global,
    def: &Def,
    event: &Value,
    eventless: bool,
    place: (u32, usize),
    progress: &mut Progress,
) -> Result<(), StepFault>
    ensures { Becomes result progress.new
        (after_acts event.now (acts_at def.now eventless place) progress.old) }
{
    match transition_at(def, eventless, place) {
        Some(transition) => run_all(alloc, event, transition.actions.as_slice(), progress),
        None => Ok(()),
    }
}

/// Runs actions.
pub(crate) fn run_all(
    alloc: Global,
    event: &Value,
    actions: &[ActionUse],
    progress: &mut Progress,
) -> Result<(), StepFault>
    ensures { Becomes result progress.new (after_acts event.now (runs actions.now) progress.old) }
{
    for action_use in actions {
        run_action(alloc, event, action_use, progress)?;
    }
    Ok(())
}

/// Cancels timers.
fn cancel_timers(
    alloc: Global,
    timers: &[(Text, Expr)],
    progress: &mut Progress,
) -> Result<(), StepFault>
    ensures { Becomes result progress.new (in_turn cancel_timer timers.now progress.old) }
{
    for timer in timers {
        cancel_timer(alloc, timer, progress)?;
    }
    Ok(())
}

/// Cancels a timer, which has the type of its event as its id.
fn cancel_timer(
    alloc: Global,
    timer: &(Text, Expr),
    progress: &mut Progress,
) -> Result<(), StepFault>
    ensures { Becomes result progress.new (cancel_timer timer.now progress.old) }
{
    let id = timer.0.copy(alloc)?;
    progress.add(alloc, Effect::Cancel { id })
}

/// Stops the children of invocations.
fn stop_invoked(
    alloc: Global,
    invocations: &[Invocation],
    progress: &mut Progress,
) -> Result<(), StepFault>
    ensures { Becomes result progress.new (in_turn stop_invocation invocations.now progress.old) }
{
    for invocation in invocations {
        stop_invocation(alloc, invocation, progress)?;
    }
    Ok(())
}

/// Stops the child of an invocation, if it is there.
fn stop_invocation(
    alloc: Global,
    invocation: &Invocation,
    progress: &mut Progress,
) -> Result<(), StepFault>
    ensures { Becomes result progress.new (stop_invocation invocation.now progress.old) }
{
    progress.stop(alloc, &invocation.id)
}
