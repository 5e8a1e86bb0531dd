//! Whether a guard holds.

ghost use Rattle.std.specs.Prelude.{◌≡◌};
ghost use Rattle.std.specs.List.Sorted.{IsStrictlyIncreasing};
ghost use Rattle.xs_model.specs.Eval.{Evaluates, scope_of};
ghost use Rattle.guard_eval.specs.Guards.{guard_value, test_value};

use crate::guard::GuardUse;
use std::alloc::Global;
use xs_model::{Env, EvalFault, Expr, Value, eval};

/// Whether a guard holds where these nodes are active. Its parts are looked at from left to right, up
/// to the first that decides or has a fault. A test reads its own params, and is Kind where it gives
/// no truth value; other faults are those of its expression. `In` costs a look by halves, a test its
/// evaluation.
pub fn holds(
    alloc: Global,
    guard: &GuardUse,
    nodes: &[u32],
    env: &Env<'_>,
) -> Result<bool, EvalFault>
    requires { IsStrictlyIncreasing nodes.now }
    ensures { Evaluates result (guard_value (scope_of env.now) nodes.now guard.now) }
{
    match guard {
        GuardUse::Test { expr, params } => test(alloc, expr, params, env),
        GuardUse::And(parts) => {
            for part in parts.as_slice() {
                if !holds(alloc, part, nodes, env)? {
                    return Ok(false);
                }
            }
            Ok(true)
        }
        GuardUse::Or(parts) => {
            for part in parts.as_slice() {
                if holds(alloc, part, nodes, env)? {
                    return Ok(true);
                }
            }
            Ok(false)
        }
        GuardUse::Not(part) => Ok(!holds(alloc, part.get(), nodes, env)?),
        GuardUse::In(node) => Ok(nodes.binary_search(node).is_ok()),
    }
}

/// The truth value that an expression gives, read with these params.
fn test(alloc: Global, expr: &Expr, params: &Value, env: &Env<'_>) -> Result<bool, EvalFault>
    ensures { Evaluates result (test_value (scope_of env.now) expr.now params.now) }
{
    let own = Env {
        context: env.context,
        event: env.event,
        params,
        input: env.input,
    };
    match eval(alloc, expr, &own)? {
        Value::Bool(truth) => Ok(truth),
        _ => Err(EvalFault::Kind),
    }
}
