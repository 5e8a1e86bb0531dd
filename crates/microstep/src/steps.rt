//! One microstep: what transitions that are taken together do.

ghost use Rattle.std.specs.Prelude.{◌≡◌, ℕ, All, Contains, IfOk, codes};
ghost use Rattle.std.specs.Option.{option_copied};
ghost use Rattle.std.specs.List.Sorted.{IsStrictlyIncreasing};
ghost use Rattle.step_sets.specs.Statechart.{IsStatechart};
ghost use Rattle.guard_eval.specs.Definitions.{IsWellFormed};
ghost use Rattle.office_types.specs.Effects.{fresh_own};
ghost use Rattle.office_types.specs.Events.{under};
ghost use Rattle.office_types.specs.OwnParts.{HasBegun, IsConfiguration};
ghost use Rattle.microstep.specs.Micro.{IsFirstMicrostep, IsMicrostep, as_map, first_context, machine_output};
ghost use Rattle.microstep.specs.Progress.{progress_of};
ghost use Rattle.microstep.specs.Progressing.{Gives};
ghost use Rattle.microstep.specs.Taking.{CanBeTaken, IsAnswered, LeavesAllowed, transitions_at};
ghost use Rattle.microstep.specs.Working.{AreActsTo, BecomesBy};

use crate::acts::{act_all, leave_all};
use crate::ends::{ended, output};
use crate::entries::enter_all;
use crate::micro::{Micro, Picked, StepFault};
use crate::moves::{Move, first_move, move_of};
use crate::parts::{checked_context, value_in};
use crate::progress::Progress;
use guard_eval::Def;
use office_types::{FaultName, Own, copy_own};
use std::alloc::Global;
use xs_data::Items;
use xs_model::{Env, Value};

/// What these transitions do, taken together, where the step reads this event. The own part stays
/// as it is; it costs a copy of it and what [`advance`] costs.
pub fn microstep(
    alloc: Global,
    def: &Def,
    own: &Own,
    picked: &Picked,
    event: &Value,
) -> Result<Micro, StepFault>
    requires well_formed { (actors : ℕ) × IsWellFormed actors def.now }
    requires begun { HasBegun def.now.tree own.now }
    requires picked { CanBeTaken def.now own.now picked.now }
    ensures gives { IsAnswered
        (IsMicrostep def.now own.now (transitions_at def.now picked.now) event.now) result }
    ensures leaves { IfOk result (λ micro. (actors : ℕ) → IsWellFormed actors def.now
        → LeavesAllowed actors def.now own.now micro) }
{
    let own = copy_own(alloc, own)?;
    advance(alloc, def, own, picked, event)
}

/// As [`microstep`], of an own part that is used up. It costs what it touches: the active nodes, those
/// that are left, with their children, and those that are entered, and the actions. What is recorded
/// for history nodes is handed on as it lies, unless something is recorded: then each record is moved.
pub fn advance(
    alloc: Global,
    def: &Def,
    own: Own,
    picked: &Picked,
    event: &Value,
) -> Result<Micro, StepFault>
    requires well_formed { (actors : ℕ) × IsWellFormed actors def.now }
    requires begun { HasBegun def.now.tree own }
    requires picked { CanBeTaken def.now own picked.now }
    ensures gives { IsAnswered
        (IsMicrostep def.now own (transitions_at def.now picked.now) event.now) result }
    ensures leaves { IfOk result (λ micro. (actors : ℕ) → IsWellFormed actors def.now
        → LeavesAllowed actors def.now own micro) }
{
    let _nodes = def.tree.len();
    let number = own.def;
    let (made, mut progress) = move_of(alloc, def, own, picked)?;
    act(alloc, def, event, picked, &made, &mut progress)?;
    ended(alloc, def, event, number, made, progress)
}

/// The first microstep of an actor of the machine with this number: its context is evaluated, and
/// the root is entered. It costs what it touches.
pub fn first_microstep(
    alloc: Global,
    def: &Def,
    number: u32,
    event: &Value,
) -> Result<Micro, StepFault>
    requires well_formed { (actors : ℕ) × IsWellFormed actors def.now }
    ensures gives { IsAnswered (IsFirstMicrostep def.now (fresh_own number) event.now) result }
    ensures leaves { IfOk result (λ micro. (actors : ℕ) → IsWellFormed actors def.now
        → LeavesAllowed actors def.now (fresh_own number) micro) }
{
    let _nodes = def.tree.len();
    let context = first_context(alloc, def, event)?;
    let made = first_move(alloc, def)?;
    let mut progress = progress_with(alloc, context);
    let configuration = made.configuration.as_slice();
    enter_all(
        alloc,
        def,
        event,
        configuration,
        made.entered.as_slice(),
        &mut progress,
    )?;
    ended(alloc, def, event, number, made, progress)
}

/// What a machine that is done gives: its output, which reads the done event of the root.
pub fn machine_output(
    alloc: Global,
    def: &Def,
    own: &Own,
    event: &Value,
) -> Result<Value, StepFault>
    requires well_formed { (actors : ℕ) × IsWellFormed actors def.now }
    requires begun { HasBegun def.now.tree own.now }
    ensures { IsAnswered
        (λ given. given ≡ machine_output def.now own.now.nodes event.now (progress_of own.now))
        result }
{
    output(alloc, def, own.nodes.as_slice(), event, &own.context)
}

/// What is done so far where an actor begins with this context.
fn progress_with(alloc: Global, context: Value) -> Progress
    ensures { (number : ℕ)
        → result ≡ record (progress_of (fresh_own number)) { context = context } }
{
    Progress::new(alloc, context, Items::new(alloc), 0)
}

/// What is done up to the new configuration: nodes are left, the transitions act, nodes are
/// entered.
fn act(
    alloc: Global,
    def: &Def,
    event: &Value,
    picked: &Picked,
    made: &Move,
    progress: &mut Progress,
) -> Result<(), StepFault>
    requires statechart { IsStatechart def.now.tree }
    requires configuration { IsConfiguration def.now.tree made.now.configuration }
    requires entered { IsStrictlyIncreasing made.now.entered }
    requires active { All (Contains made.now.configuration) made.now.entered }
    ensures { BecomesBy (AreActsTo def.now (transitions_at def.now picked.now) made.now)
        event.now result progress.old progress.new }
{
    let _nodes = def.tree.len();
    let configuration = made.configuration.as_slice();
    leave_all(alloc, def, event, made.left.as_slice(), progress)?;
    act_all(
        alloc,
        def,
        event,
        picked.eventless,
        picked.taken.as_slice(),
        progress,
    )?;
    enter_all(
        alloc,
        def,
        event,
        configuration,
        made.entered.as_slice(),
        progress,
    )
}

/// The context of an actor that begins. It reads the input of the event.
fn first_context(alloc: Global, def: &Def, event: &Value) -> Result<Value, StepFault>
    ensures { Gives result (first_context def.now event.now) }
{
    let null = Value::Null;
    let env = Env {
        context: &null,
        event,
        params: &null,
        input: input_of(event).unwrap_or(&null),
    };
    let context = value_in(alloc, &def.context, &env)?;
    let context = as_map(context)?;
    checked_context(context)
}

/// The input of an event, if it has one.
fn input_of(event: &Value) -> Option<&Value>
    ensures { option_copied result ≡ under (codes "input") event.now }
{
    let Value::Map(members) = event else {
        return None;
    };
    members.get(b"input".as_slice())
}

/// A map; another kind is Kind.
fn as_map(value: Value) -> Result<Value, StepFault>
    ensures { Gives result (as_map value) }
{
    if matches!(value, Value::Map(_)) {
        Ok(value)
    } else {
        Err(StepFault::Fault(FaultName::Kind))
    }
}
