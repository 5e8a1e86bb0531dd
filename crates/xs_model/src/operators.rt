//! What each operator makes of its operands' values.

ghost use Rattle.std.specs.Prelude.{◌≡◌};
ghost use Rattle.xs_model.specs.declared.value.Value.{out-Value};
ghost use Rattle.xs_model.specs.Eval as spec;
ghost use Rattle.xs_model.specs.Eval.{Evaluates, scope_of};

use crate::env::{Env, EvalFault};
use crate::equality::same;
use crate::expr::{Arithmetic, Binary, Comparison, Connective, Division, PathRoot, Unary};
use crate::limits::{MAX_NESTING, MAX_VALUE_TEXT};
use crate::nesting::depth;
use crate::size::text_len;
use crate::value::Value;
use std::alloc::Global;
use xs_data::Text;

pub(crate) fn value_if_small(answer: Result<Value, EvalFault>) -> Result<Value, EvalFault>
    ensures { result ≡ spec.value_if_small answer }
{
    let value = answer?;
    if text_len(&value) <= MAX_VALUE_TEXT && depth(&value) <= MAX_NESTING {
        Ok(value)
    } else {
        Err(EvalFault::TooLarge)
    }
}

pub(crate) fn root_value<'a>(root: PathRoot, env: &Env<'a>) -> &'a Value
    ensures { result.now ≡ spec.root_value root (scope_of env.now) }
{
    match root {
        PathRoot::Context => env.context,
        PathRoot::Event => env.event,
        PathRoot::Params => env.params,
        PathRoot::Input => env.input,
    }
}

pub(crate) fn unary(alloc: Global, op: Unary, x: &Value) -> Result<Value, EvalFault>
    ensures { Evaluates result (spec.unary op (out-Value x.now)) }
{
    match op {
        Unary::Decimal => decimal(alloc, x),
        Unary::Len => len(x),
        Unary::Not => Ok(Value::Bool(!truth(x)?)),
    }
}

pub(crate) fn binary(alloc: Global, op: Binary, x: Value, y: Value) -> Result<Value, EvalFault>
    ensures { Evaluates result (spec.binary op x y) }
{
    match op {
        Binary::Arithmetic(op) => arithmetic(op, &x, &y),
        Binary::Division(op) => division(op, &x, &y),
        Binary::Concat => concat(alloc, &x, &y),
        Binary::Append => append(x, y),
        Binary::Equal => Ok(Value::Bool(same(&x, &y))),
        Binary::Compare(op) => compare(op, &x, &y),
    }
}

fn arithmetic(op: Arithmetic, x: &Value, y: &Value) -> Result<Value, EvalFault>
    ensures { result ≡ spec.arithmetic op (out-Value x.now) (out-Value y.now) }
{
    let (Value::Int(m), Value::Int(n)) = (x, y) else {
        return Err(EvalFault::Kind);
    };
    let number = match op {
        Arithmetic::Add => m.checked_add(*n),
        Arithmetic::Sub => m.checked_sub(*n),
        Arithmetic::Mul => m.checked_mul(*n),
    };
    number.map(Value::Int).ok_or(EvalFault::Range)
}

fn division(op: Division, x: &Value, y: &Value) -> Result<Value, EvalFault>
    ensures { result ≡ spec.division op (out-Value x.now) (out-Value y.now) }
{
    let (Value::Int(m), Value::Int(n)) = (x, y) else {
        return Err(EvalFault::Kind);
    };
    if *n == 0 {
        return Err(EvalFault::Range);
    }
    match op {
        Division::Div => m.checked_div(*n).map(Value::Int).ok_or(EvalFault::Range),
        // The least number has the remainder 0 by -1.
        Division::Rem => Ok(Value::Int(m.wrapping_rem(*n))),
    }
}

fn compare(op: Comparison, x: &Value, y: &Value) -> Result<Value, EvalFault>
    ensures { result ≡ spec.compare op (out-Value x.now) (out-Value y.now) }
{
    let order = match (x, y) {
        (Value::Int(m), Value::Int(n)) => m.cmp(n),
        (Value::Text(s), Value::Text(t)) => s.as_bytes().cmp(t.as_bytes()),
        _ => return Err(EvalFault::Kind),
    };
    Ok(Value::Bool(match op {
        Comparison::Less => order.is_lt(),
        Comparison::LessOrEqual => order.is_le(),
    }))
}

fn len(x: &Value) -> Result<Value, EvalFault>
    ensures { result ≡ spec.len (out-Value x.now) }
{
    let len = match x {
        Value::List(members) => members.as_slice().len(),
        Value::Map(members) => members.as_slice().len(),
        Value::Text(text) => text.as_bytes().len(),
        _ => return Err(EvalFault::Kind),
    };
    Ok(Value::Int(len as i64))
}

pub(crate) fn truth(x: &Value) -> Result<bool, EvalFault>
    ensures { result ≡ spec.truth (out-Value x.now) }
{
    match x {
        Value::Bool(truth) => Ok(*truth),
        _ => Err(EvalFault::Kind),
    }
}

fn concat(alloc: Global, x: &Value, y: &Value) -> Result<Value, EvalFault>
    ensures { Evaluates result (spec.concat (out-Value x.now) (out-Value y.now)) }
{
    let (Value::Text(s), Value::Text(t)) = (x, y) else {
        return Err(EvalFault::Kind);
    };
    let mut text = String::from_str(alloc, s.as_str())?;
    text.push_str(t.as_str())?;
    Ok(Value::Text(Text::from_string(text)))
}

fn decimal(alloc: Global, x: &Value) -> Result<Value, EvalFault>
    ensures { Evaluates result (spec.decimal_text (out-Value x.now)) }
{
    match x {
        Value::Int(number) => Ok(Value::Text(Text::from_string(number.to_string(alloc)?))),
        _ => Err(EvalFault::Kind),
    }
}

fn append(x: Value, y: Value) -> Result<Value, EvalFault>
    ensures { Evaluates result (spec.append (out-Value x) y) }
{
    match x {
        Value::List(mut members) => match members.push(y) {
            Ok(()) => Ok(Value::List(members)),
            Err(_) => Err(EvalFault::Memory),
        },
        _ => Err(EvalFault::Kind),
    }
}

/// Whether the first operand's truth value is that of the whole.
pub(crate) fn decides(op: Connective, first: bool) -> bool
    ensures { result ≡ spec.decides op first }
{
    match op {
        Connective::And => !first,
        Connective::Or => first,
    }
}
