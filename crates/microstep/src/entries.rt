//! What a microstep does where nodes are entered.

ghost use Rattle.std.specs.Prelude.{◌≡◌, ℕ, All, Contains, List};
ghost use Rattle.std.specs.List.{AllZip, flat_map};
ghost use Rattle.std.specs.List.Sorted.{IsStrictlyIncreasing};
ghost use Rattle.step_sets.specs.Statechart.{IsStatechart};
ghost use Rattle.office_types.specs.OwnParts.{IsConfiguration};
ghost use Rattle.microstep.specs.Acts.{Act, after_acts, checked_system, entries_of, entry_acts, invoke, invokes, plain_scope, start_timer, starts};
ghost use Rattle.microstep.specs.Climbing.{IsActiveYet};
ghost use Rattle.microstep.specs.Progressing.{Becomes, Gives};
ghost use Rattle.microstep.specs.Working.{AreActsOf, BecomesBy, IsActiveUpTo};

use crate::acts::run_all;
use crate::done_events::raise_done_events;
use crate::made_events::after_event;
use crate::micro::StepFault;
use crate::parts::{checked_name, delay_in, short_in};
use crate::progress::Progress;
use guard_eval::{Def, Invocation, NodeDef};
use office_types::{Effect, To};
use std::alloc::Global;
use xs_data::Text;
use xs_model::{Env, Expr, Value};

/// Enters nodes of a legal configuration, in document order.
pub(crate) fn enter_all(
    alloc: Global,
    def: &Def,
    event: &Value,
    configuration: &[u32],
    entered: &[u32],
    progress: &mut Progress,
) -> Result<(), StepFault>
    requires statechart { IsStatechart def.now.tree }
    requires configuration { IsConfiguration def.now.tree configuration.now }
    requires entered { IsStrictlyIncreasing entered.now }
    requires active { All (Contains configuration.now) entered.now }
    ensures { BecomesBy (λ acts. (entries : List (List Act))
        × AllZip (λ n. AreActsOf def.now (IsActiveUpTo configuration.now entered.now n) n)
        entered.now entries
        × (acts ≡ flat_map (λ entry. entry) entries)) event.now result progress.old progress.new }
{
    let _nodes = def.tree.len();
    for i in 0..entered.len() {
        let later = &entered[i + 1..];
        enter_one(
            alloc,
            def,
            event,
            configuration,
            later,
            entered[i],
            progress,
        )?;
    }
    Ok(())
}

/// Enters a node, and raises its done events, where these nodes are entered later.
fn enter_one(
    alloc: Global,
    def: &Def,
    event: &Value,
    configuration: &[u32],
    later: &[u32],
    node: u32,
    progress: &mut Progress,
) -> Result<(), StepFault>
    requires statechart { IsStatechart def.now.tree }
    requires configuration { IsConfiguration def.now.tree configuration.now }
    requires later { IsStrictlyIncreasing later.now }
    requires active { Contains configuration.now node }
    ensures { BecomesBy (AreActsOf def.now (IsActiveYet configuration.now later.now) node)
        event.now result progress.old progress.new }
{
    let _nodes = def.tree.len();
    enter(alloc, def, event, node, progress)?;
    raise_done_events(alloc, def, event, configuration, later, node, progress)
}

/// Enters a node: its entry actions run, its timers and invocations begin. Its done events follow.
fn enter(
    alloc: Global,
    def: &Def,
    event: &Value,
    node: u32,
    progress: &mut Progress,
) -> Result<(), StepFault>
    ensures { Becomes result progress.new
        (after_acts event.now (entry_acts def.now node) progress.old) }
{
    match def.nodes.get(node as usize) {
        Some(said) => enter_as(alloc, said, event, progress),
        None => Ok(()),
    }
}

/// What is done where a node is entered of which this is said.
fn enter_as(
    alloc: Global,
    said: &NodeDef,
    event: &Value,
    progress: &mut Progress,
) -> Result<(), StepFault>
    ensures { Becomes result progress.new
        (after_acts event.now (entries_of said.now) progress.old) }
{
    run_all(alloc, event, said.entry.as_slice(), progress)?;
    start_timers(alloc, event, said.after.as_slice(), progress)?;
    begin_invocations(alloc, event, said.invoke.as_slice(), progress)
}

/// Begins timers.
fn start_timers(
    alloc: Global,
    event: &Value,
    timers: &[(Text, Expr)],
    progress: &mut Progress,
) -> Result<(), StepFault>
    ensures { Becomes result progress.new (after_acts event.now (starts timers.now) progress.old) }
{
    for timer in timers {
        start_timer(alloc, event, &timer.0, &timer.1, progress)?;
    }
    Ok(())
}

/// Begins a timer under the type of its event, which is its id.
fn start_timer(
    alloc: Global,
    event: &Value,
    kind: &Text,
    delay: &Expr,
    progress: &mut Progress,
) -> Result<(), StepFault>
    ensures { Becomes result progress.new
        (start_timer (plain_scope event.now progress.old) kind.now delay.now progress.old) }
{
    let env = Env {
        context: &progress.context,
        event,
        params: &Value::Null,
        input: &Value::Null,
    };
    let delay = delay_in(alloc, delay, &env)?;
    let id = checked_name(kind.copy(alloc)?)?;
    let event = after_event(alloc, kind)?;
    progress.add(
        alloc,
        Effect::Schedule {
            id: Some(id),
            delay,
            to: To::Own,
            event,
        },
    )
}

/// Begins invocations.
fn begin_invocations(
    alloc: Global,
    event: &Value,
    invocations: &[Invocation],
    progress: &mut Progress,
) -> Result<(), StepFault>
    ensures { Becomes result progress.new
        (after_acts event.now (invokes invocations.now) progress.old) }
{
    for invocation in invocations {
        begin_invocation(alloc, event, invocation, progress)?;
    }
    Ok(())
}

/// Begins an invocation: a child under its id.
fn begin_invocation(
    alloc: Global,
    event: &Value,
    invocation: &Invocation,
    progress: &mut Progress,
) -> Result<(), StepFault>
    ensures { Becomes result progress.new
        (invoke (plain_scope event.now progress.old) invocation.now progress.old) }
{
    let id = checked_name(invocation.id.copy(alloc)?)?;
    let env = Env {
        context: &progress.context,
        event,
        params: &Value::Null,
        input: &Value::Null,
    };
    let input = short_in(alloc, &invocation.input, &env)?;
    let system = checked_system(alloc, &invocation.system)?;
    progress.spawn(alloc, id, invocation.src, input, system)
}

/// The system name of an invocation, if it has one.
fn checked_system(alloc: Global, name: &Option<Text>) -> Result<Option<Text>, StepFault>
    ensures { Gives result (checked_system name.now) }
{
    match name {
        None => Ok(None),
        Some(name) => {
            let checked = checked_name(name.copy(alloc)?)?;
            Ok(Some(checked))
        }
    }
}
