//! `assign`: new values in the context.

ghost use Rattle.std.specs.Prelude.{Ok};
ghost use Rattle.xs_model.specs.Eval.{Evaluates, scope_of};
ghost use Rattle.microstep.specs.Actions.{assign, members_assigned, scope_at, with_members};
ghost use Rattle.microstep.specs.Progressing.{Becomes, Gives, given_of};

use crate::lent::Lent;
use crate::micro::StepFault;
use crate::parts::checked_context;
use crate::progress::Progress;
use std::alloc::Global;
use std::mem;
use xs_data::{Items, Text};
use xs_model::{Entries, Env, EvalFault, Parts, Value, eval};

/// Values with their keys, in the order of the text.
type Members = Items<(Text, Value)>;

/// Puts new values under these keys of the context. They are all evaluated before the first is put.
/// It costs their evaluation, a place found by halves for each, and a look at each byte of the new
/// context.
pub(crate) fn assign(
    alloc: Global,
    lent: &Lent<'_>,
    values: &Parts,
    progress: &mut Progress,
) -> Result<(), StepFault>
    ensures { Becomes result progress.new
        (assign (scope_at (given_of lent.now) progress.old) values.now progress.old) }
{
    let env = Env {
        context: &progress.context,
        event: lent.event,
        params: lent.params,
        input: &Value::Null,
    };
    let members = members_in(alloc, values, &env)?;
    let context = mem::replace(&mut progress.context, Value::Null);
    let context = with_members(alloc, context, members)?;
    progress.context = checked_context(context)?;
    Ok(())
}

/// The values that are assigned, each with its key, in the order of the text.
fn members_in(alloc: Global, values: &Parts, env: &Env<'_>) -> Result<Members, EvalFault>
    ensures { Evaluates result (members_assigned (scope_of env.now) values.now) }
{
    let mut members = Vec::with_capacity(alloc, values.len())?;
    for (key, expr) in values.as_slice() {
        let value = eval(alloc, expr, env)?;
        members.push((key.copy(alloc)?, value))?;
    }
    Ok(Items::from_vec(members))
}

/// The context with these members put in, one after the other.
fn with_members(alloc: Global, context: Value, members: Members) -> Result<Value, StepFault>
    ensures { Gives result (Ok (with_members context members)) }
{
    let mut fields = match context {
        Value::Map(fields) => fields,
        _ => Entries::new(alloc),
    };
    for (key, value) in members.into_vec() {
        fields.put(key, value).map_err(|_| StepFault::Memory)?;
    }
    Ok(Value::Map(fields))
}
