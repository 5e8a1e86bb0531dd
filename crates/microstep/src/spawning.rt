//! `spawnChild` and `stopChild`: children.

ghost use Rattle.microstep.specs.Actions as spec;
ghost use Rattle.microstep.specs.Actions.{scope_at};
ghost use Rattle.microstep.specs.Progressing.{Becomes, Gives, given_of};
ghost use Rattle.xs_model.specs.Eval.{scope_of};

use crate::lent::Lent;
use crate::micro::StepFault;
use crate::parts::{input_in, name_in, optional_name};
use crate::progress::Progress;
use office_types::{FaultName, MAX_NEXT_NUMBER};
use std::alloc::Global;
use xs_data::Text;
use xs_model::{Env, Expr, Value};

/// A child of a row of the table of actors.
pub(crate) fn spawn(
    alloc: Global,
    lent: &Lent<'_>,
    src: u32,
    id: &Option<Expr>,
    input: &Option<Expr>,
    system: &Option<Expr>,
    progress: &mut Progress,
) -> Result<(), StepFault>
    ensures { Becomes result progress.new
        (spec.spawn (scope_at (given_of lent.now) progress.old) src id.now input.now system.now
        progress.old) }
{
    let env = Env {
        context: &progress.context,
        event: lent.event,
        params: lent.params,
        input: &Value::Null,
    };
    let (id, unnamed) = child_id_in(alloc, id, &env, progress.unnamed)?;
    let input = input_in(alloc, input, &env)?;
    let system = optional_name(alloc, system, &env)?;
    progress.unnamed = unnamed;
    progress.spawn(alloc, id, src, input, system)
}

/// The id of a child, and the count of unnamed children after it.
fn child_id_in(
    alloc: Global,
    id: &Option<Expr>,
    env: &Env<'_>,
    unnamed: u64,
) -> Result<(Text, u64), StepFault>
    ensures { Gives result (spec.child_id_in (scope_of env.now) id.now unnamed) }
{
    match id {
        None => unnamed_id(alloc, unnamed),
        Some(expr) => {
            let id = name_in(alloc, expr, env)?;
            Ok((id, unnamed))
        }
    }
}

/// The id of the next unnamed child, and the count after it. Where no number is left it is
/// ActorsFull.
fn unnamed_id(alloc: Global, unnamed: u64) -> Result<(Text, u64), StepFault>
    ensures { Gives result (spec.unnamed_id unnamed) }
{
    if unnamed >= MAX_NEXT_NUMBER {
        return Err(StepFault::Fault(FaultName::ActorsFull));
    }
    let id = format!(in alloc; "x:{unnamed}")?;
    Ok((Text::from_string(id), unnamed + 1))
}

/// The child with this id is stopped, if there is one.
pub(crate) fn stop_child(
    alloc: Global,
    lent: &Lent<'_>,
    id: &Expr,
    progress: &mut Progress,
) -> Result<(), StepFault>
    ensures { Becomes result progress.new
        (spec.stop_child (scope_at (given_of lent.now) progress.old) id.now progress.old) }
{
    let env = Env {
        context: &progress.context,
        event: lent.event,
        params: lent.params,
        input: &Value::Null,
    };
    let id = name_in(alloc, id, &env)?;
    progress.stop(alloc, &id)
}
