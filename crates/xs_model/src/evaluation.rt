//! Evaluation: what an expression gives in an environment.

ghost use Rattle.std.specs.Prelude.{◌≡◌, OnOk, IfErr, map};
ghost use Rattle.xs_model.specs.Eval as spec;
ghost use Rattle.xs_model.specs.Eval.{Evaluates, scope_of, outcome};
ghost use Rattle.xs_model.specs.Rising.{put};

use crate::copies::copy;
use crate::env::{Env, EvalFault};
use crate::expr::{Expr, Exprs, Parts};
use crate::fields::Entries;
use crate::operators::{binary, decides, root_value, truth, unary, value_if_small};
use crate::paths::at_path;
use crate::value::{Fields, Value};
use std::alloc::Global;
use xs_data::{Items, Text};

/// What an expression gives. Memory comes only for want of memory, each other fault exactly where
/// the table of forms has it.
///
/// A path lends until the value at its end is copied, and no form copies more than it gives. The
/// limit check reads the whole value of each operator, list and map once more, so an expression
/// costs at most the sum of the sizes of the values that its forms make, each of which is at most
/// 65,536 bytes or ends the evaluation.
#[cycle(eval)]
pub fn eval(alloc: Global, expr: &Expr, env: &Env<'_>) -> Result<Value, EvalFault>
    ensures { Evaluates result (outcome (scope_of env.now) expr.now) }
{
    match expr {
        Expr::Null => Ok(Value::Null),
        Expr::Bool(truth) => Ok(Value::Bool(*truth)),
        Expr::Int(number) => Ok(Value::Int(*number)),
        Expr::Text(text) => Ok(Value::Text(text.copy(alloc)?)),
        Expr::List(parts) => value_if_small(list_of(alloc, parts, env)),
        Expr::Map(parts) => value_if_small(map_of(alloc, parts, env)),
        Expr::Path(root, path) => {
            let value = at_path(root_value(*root, env), path.as_str()).ok_or(EvalFault::Missing)?;
            value_if_small(Ok(copy(alloc, value)?))
        }
        Expr::OrElse(a, b) => match eval(alloc, a.get(), env) {
            Err(EvalFault::Missing) => value_if_small(eval(alloc, b.get(), env)),
            answer => value_if_small(answer),
        },
        Expr::Unary(op, a) => value_if_small(unary(alloc, *op, &eval(alloc, a.get(), env)?)),
        Expr::Binary(op, a, b) => {
            let x = eval(alloc, a.get(), env)?;
            let y = eval(alloc, b.get(), env)?;
            value_if_small(binary(alloc, *op, x, y))
        }
        Expr::Connect(op, a, b) => {
            let first = truth(&eval(alloc, a.get(), env)?)?;
            if decides(*op, first) {
                return value_if_small(Ok(Value::Bool(first)));
            }
            value_if_small(Ok(Value::Bool(truth(&eval(alloc, b.get(), env)?)?)))
        }
        Expr::If(c, a, b) => {
            if truth(&eval(alloc, c.get(), env)?)? {
                value_if_small(eval(alloc, a.get(), env))
            } else {
                value_if_small(eval(alloc, b.get(), env))
            }
        }
        Expr::Lit(value) => value_if_small(Ok(copy(alloc, value)?)),
    }
}

/// The list of what the parts give.
#[cycle(eval)]
fn list_of(alloc: Global, parts: &Exprs, env: &Env<'_>) -> Result<Value, EvalFault>
    ensures { Evaluates result (spec.list_of (map (outcome (scope_of env.now)) parts.now)) }
{
    let mut members = Vec::with_capacity(alloc, parts.len())?;
    for part in parts.as_slice() {
        members.push(eval(alloc, part, env)?)?;
    }
    Ok(Value::List(Items::from_vec(members)))
}

/// The map of what the parts give.
#[cycle(eval)]
fn map_of(alloc: Global, parts: &Parts, env: &Env<'_>) -> Result<Value, EvalFault>
    ensures { Evaluates result
        (spec.map_of (map (λ part. (part.0, outcome (scope_of env.now) part.1)) parts.now)) }
{
    let mut members = Entries::new(alloc);
    for (key, part) in parts.as_slice() {
        let value = eval(alloc, part, env)?;
        put_part(alloc, &mut members, key, value)?;
    }
    Ok(Value::Map(members))
}

/// Puts what a part of a map gives under a copy of its key.
fn put_part(alloc: Global, members: &mut Fields, key: &Text, value: Value) -> Result<(), EvalFault>
    ensures ok { OnOk result (members.new ≡ put members.old key.now value) }
    ensures err { IfErr result (λ fault. fault ≡ EvalFault.Memory) }
{
    match members.put(key.copy(alloc)?, value) {
        Ok(()) => Ok(()),
        Err(_) => Err(EvalFault::Memory),
    }
}
