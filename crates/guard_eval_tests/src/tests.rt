//! Guards on plain data, and the calls of the lists.

ghost use Rattle.std.specs.Prelude.{◌↔◌, IsTrue};
ghost use Rattle.std.specs.List.Sorted.{IsStrictlyIncreasing};

use guard_eval::*;
use sqlite_items::Boxed;
use std::alloc::Global;
use xs_data::{Items, Text};
use xs_model::{Binary, Division, Env, EvalFault, Expr, PathRoot, Value};

/// The active nodes of the cases.
const ACTIVE: [u32; 3] = [0, 2, 5];

/// Guards, and what they give where the nodes 0, 2 and 5 are active, the context is true and the
/// params of the environment are a number. A guard is its form and the words of its parts.
const CASES: &str = "\
and: => true
and: true => true
and: false => false
and: true true => true
and: true false => false
and: false missing => false
and: missing false => Missing
and: true range missing => Range
and: number => Kind
and: number false => Kind
and: false number => false
and: missing number => Missing
or: => false
or: true => true
or: false => false
or: false false => false
or: false true => true
or: true missing => true
or: missing true => Missing
or: false range true => Range
or: number true => Kind
or: true number => true
not and: => false
not and: false => true
not and: true true => false
not and: false missing => true
not and: missing => Missing
not and: number => Kind
and: in-0 in-2 in-5 => true
or: in-1 in-3 in-4 => false
or: in-6 in-4294967295 => false
and: in-2 in-1 => false
or: in-1 in-5 => true
and: params-true => true
and: params-false => false
and: params-true context params-true => true
or: params-false context => true
not and: context in-2 => false";

/// A division by zero.
fn quotient(alloc: Global) -> Result<Expr, EvalFault> {
    let one = Boxed::new(alloc, Expr::Int(1))?;
    let zero = Boxed::new(alloc, Expr::Int(0))?;
    Ok(Expr::Binary(Binary::Division(Division::Div), one, zero))
}

/// What a test evaluates: for `missing` a path that leads to nothing, for `range` a division by
/// zero, for `context` the context, and for `params-true` and `params-false` its own params.
fn expr(alloc: Global, word: &str) -> Result<Expr, EvalFault> {
    match word {
        "true" => Ok(Expr::Bool(true)),
        "false" => Ok(Expr::Bool(false)),
        "number" => Ok(Expr::Int(1)),
        "missing" => Ok(Expr::Path(PathRoot::Event, Text::from_str(alloc, "none")?)),
        "range" => quotient(alloc),
        "context" => Ok(Expr::Path(PathRoot::Context, Text::new(alloc))),
        _ => Ok(Expr::Path(PathRoot::Params, Text::new(alloc))),
    }
}

fn params(word: &str) -> Value {
    match word {
        "params-true" => Value::Bool(true),
        "params-false" => Value::Bool(false),
        _ => Value::Null,
    }
}

fn node(word: &str) -> Option<u32> {
    word.strip_prefix("in-")?.parse::<u32>().ok()
}

fn part(alloc: Global, word: &str) -> Result<GuardUse, EvalFault> {
    match node(word) {
        Some(node) => Ok(GuardUse::In(node)),
        None => Ok(GuardUse::Test {
            expr: expr(alloc, word)?,
            params: params(word),
        }),
    }
}

fn parts(alloc: Global, words: &str) -> Result<Guards, EvalFault> {
    let mut guards: Guards = Items::new(alloc);
    for word in words.split(' ') {
        if !word.is_empty() && guards.push(part(alloc, word)?).is_err() {
            return Err(EvalFault::Memory);
        }
    }
    Ok(guards)
}

fn around(alloc: Global, form: &str, guards: Guards) -> Result<GuardUse, EvalFault> {
    match form {
        "and" => Ok(GuardUse::And(guards)),
        "or" => Ok(GuardUse::Or(guards)),
        _ => Ok(GuardUse::Not(Boxed::new(alloc, GuardUse::And(guards))?)),
    }
}

fn is_rising(nodes: &[u32]) -> bool
    ensures { IsTrue result ↔ IsStrictlyIncreasing nodes.now }
{
    for i in 1..nodes.len() {
        if nodes[i - 1] >= nodes[i] {
            return false;
        }
    }
    true
}

fn found(alloc: Global, guard: &GuardUse, active: &[u32]) -> Result<bool, EvalFault>
    requires { IsStrictlyIncreasing active.now }
{
    let context = Value::Bool(true);
    let event = Value::Null;
    let params = Value::Int(7);
    let env = Env {
        context: &context,
        event: &event,
        params: &params,
        input: &event,
    };
    holds(alloc, guard, active, &env)
}

fn given(alloc: Global, text: &str, active: &[u32]) -> Result<bool, EvalFault>
    requires { IsStrictlyIncreasing active.now }
{
    let (form, words) = text.split_once(":").unwrap_or((text, ""));
    let guard = around(alloc, form, parts(alloc, words)?)?;
    found(alloc, &guard, active)
}

fn answer(given: Result<bool, EvalFault>) -> &'static str {
    match given {
        Ok(true) => "true",
        Ok(false) => "false",
        Err(EvalFault::Missing) => "Missing",
        Err(EvalFault::Range) => "Range",
        Err(EvalFault::Kind) => "Kind",
        Err(_) => "another fault",
    }
}

fn is_given(alloc: Global, text: &str, wanted: &str) -> bool {
    let active = ACTIVE;
    is_rising(&active) && answer(given(alloc, text, &active)) == wanted
}

#[test]
fn guards_stop_at_the_first_part_that_decides(rt: HostRuntime) {
    for row in CASES.split('\n') {
        let (text, wanted) = row.split_once(" => ").unwrap_or((row, ""));
        assert!(rt; is_given(rt.alloc(), text, wanted), "at {row}");
    }
}
