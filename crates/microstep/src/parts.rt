//! What the parts of actions give, each within its limits.

ghost use Rattle.std.specs.Prelude.{◌≡◌};
ghost use Rattle.xs_model.specs.declared.value.Value.{out-Value};
ghost use Rattle.xs_model.specs.Eval.{scope_of};
ghost use Rattle.office_types.specs.Events.{event_type};
ghost use Rattle.office_types.specs.Limits.{is_name};
ghost use Rattle.microstep.specs.Actions.{checked_context};
ghost use Rattle.microstep.specs.Parts as spec;
ghost use Rattle.microstep.specs.Progressing.{Gives};

use crate::micro::StepFault;
use office_types::{FaultName, MAX_MOMENT, event_type, is_reserved, is_short};
use std::alloc::Global;
use xs_data::Text;
use xs_model::{Env, Expr, MAX_CONTEXT_TEXT, MAX_NAME, MAX_NESTING, Value, depth, eval, text_len};

/// What an expression gives.
pub(crate) fn value_in(alloc: Global, expr: &Expr, env: &Env<'_>) -> Result<Value, StepFault>
    ensures { Gives result (spec.value_in (scope_of env.now) expr.now) }
{
    Ok(eval(alloc, expr, env)?)
}

/// A text; another kind is Kind.
fn as_text(value: Value) -> Result<Text, StepFault>
    ensures { Gives result (spec.as_text (out-Value value)) }
{
    match value {
        Value::Text(text) => Ok(text),
        _ => Err(StepFault::Fault(FaultName::Kind)),
    }
}

/// Whether a text is as long as an id or a system name may be.
fn is_name(text: &[u8]) -> bool
    ensures { result ≡ is_name text.now }
{
    !text.is_empty() && text.len() <= MAX_NAME
}

/// An id or a system name; an empty or a longer text is TooLarge.
pub(crate) fn checked_name(text: Text) -> Result<Text, StepFault>
    ensures { Gives result (spec.checked_name text) }
{
    if is_name(text.as_bytes()) {
        Ok(text)
    } else {
        Err(StepFault::Fault(FaultName::TooLarge))
    }
}

/// The id or the system name that an expression gives.
pub(crate) fn name_in(alloc: Global, expr: &Expr, env: &Env<'_>) -> Result<Text, StepFault>
    ensures { Gives result (spec.name_in (scope_of env.now) expr.now) }
{
    let value = value_in(alloc, expr, env)?;
    let text = as_text(value)?;
    checked_name(text)
}

/// An id or a system name that may not be given.
pub(crate) fn optional_name(
    alloc: Global,
    expr: &Option<Expr>,
    env: &Env<'_>,
) -> Result<Option<Text>, StepFault>
    ensures { Gives result (spec.optional (spec.name_in (scope_of env.now)) expr.now) }
{
    match expr {
        None => Ok(None),
        Some(expr) => {
            let name = name_in(alloc, expr, env)?;
            Ok(Some(name))
        }
    }
}

/// A delay in milliseconds; another kind is Kind, another number Range.
fn as_delay(value: &Value) -> Result<u64, StepFault>
    ensures { Gives result (spec.as_delay (out-Value value.now)) }
{
    let Value::Int(number) = value else {
        return Err(StepFault::Fault(FaultName::Kind));
    };
    match u64::try_from(*number) {
        Ok(delay) if delay <= MAX_MOMENT => Ok(delay),
        _ => Err(StepFault::Fault(FaultName::Range)),
    }
}

/// The delay that an expression gives.
pub(crate) fn delay_in(alloc: Global, expr: &Expr, env: &Env<'_>) -> Result<u64, StepFault>
    ensures { Gives result (spec.delay_in (scope_of env.now) expr.now) }
{
    let value = value_in(alloc, expr, env)?;
    as_delay(&value)
}

/// The truth value that an expression gives.
pub(crate) fn test_in(alloc: Global, expr: &Expr, env: &Env<'_>) -> Result<bool, StepFault>
    ensures { Gives result (spec.test_in (scope_of env.now) expr.now) }
{
    match value_in(alloc, expr, env)? {
        Value::Bool(truth) => Ok(truth),
        _ => Err(StepFault::Fault(FaultName::Kind)),
    }
}

/// The input or output that an expression gives. The limits are looked for in each of its bytes.
pub(crate) fn short_in(alloc: Global, expr: &Expr, env: &Env<'_>) -> Result<Value, StepFault>
    ensures { Gives result (spec.short_in (scope_of env.now) expr.now) }
{
    let value = value_in(alloc, expr, env)?;
    if is_short(&value) {
        Ok(value)
    } else {
        Err(StepFault::Fault(FaultName::TooLarge))
    }
}

/// An input that may not be given: null then.
pub(crate) fn input_in(
    alloc: Global,
    expr: &Option<Expr>,
    env: &Env<'_>,
) -> Result<Value, StepFault>
    ensures { Gives result (spec.input_in (scope_of env.now) expr.now) }
{
    match expr {
        None => Ok(Value::Null),
        Some(expr) => short_in(alloc, expr, env),
    }
}

/// An event that an action makes: no map with a text `type` is Kind, one of the office's own types
/// Reserved, and one past the limits TooLarge.
fn checked_event(event: Value) -> Result<Value, StepFault>
    ensures { Gives result (spec.checked_event event (event_type event)) }
{
    let Some(kind) = event_type(&event) else {
        return Err(StepFault::Fault(FaultName::Kind));
    };
    if is_reserved(kind.as_bytes()) {
        return Err(StepFault::Fault(FaultName::Reserved));
    }
    if is_short(&event) {
        Ok(event)
    } else {
        Err(StepFault::Fault(FaultName::TooLarge))
    }
}

/// The event that an expression gives.
pub(crate) fn event_in(alloc: Global, expr: &Expr, env: &Env<'_>) -> Result<Value, StepFault>
    ensures { Gives result (spec.event_in (scope_of env.now) expr.now) }
{
    let event = value_in(alloc, expr, env)?;
    checked_event(event)
}

/// A context within its limits, which are looked for in each of its bytes.
pub(crate) fn checked_context(context: Value) -> Result<Value, StepFault>
    ensures { Gives result (checked_context context) }
{
    if text_len(&context) <= MAX_CONTEXT_TEXT && depth(&context) <= MAX_NESTING {
        Ok(context)
    } else {
        Err(StepFault::Fault(FaultName::TooLarge))
    }
}
