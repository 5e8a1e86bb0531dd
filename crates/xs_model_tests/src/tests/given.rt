//! Operands and outcomes as plain data, for tables of cases.

use sqlite_items::Boxed;
use std::alloc::Global;
use xs_data::Items;
use xs_model::*;

/// An operand: a value whose lists and maps hold numbers, or an expression that has one fault.
#[derive(Clone, Copy)]
pub(crate) enum Given {
    Null,
    Bool(bool),
    Int(i64),
    Text(&'static str),
    List(&'static [i64]),
    Map(&'static [(&'static str, i64)]),
    /// A path that leads to nothing.
    Missing,
    /// A division by zero.
    OutOfRange,
    /// `$not` of a number.
    WrongKind,
}

/// One value of each kind.
pub(crate) const KINDS: [Given; 6] = [
    Given::Null,
    Given::Bool(true),
    Given::Int(1),
    Given::Text("1"),
    Given::List(&[1]),
    Given::Map(&[("1", 1)]),
];

/// What a case should give.
pub(crate) type Wanted = Result<Given, EvalFault>;

/// Whether both are values of one kind.
pub(crate) fn same_kind(a: Given, b: Given) -> bool {
    match (a, b) {
        (Given::Null, Given::Null) => true,
        (Given::Bool(_), Given::Bool(_)) => true,
        (Given::Int(_), Given::Int(_)) => true,
        (Given::Text(_), Given::Text(_)) => true,
        (Given::List(_), Given::List(_)) => true,
        (Given::Map(_), Given::Map(_)) => true,
        _ => false,
    }
}

/// The value; Null for an operand that has a fault.
pub(crate) fn value(alloc: Global, given: Given) -> Result<Value, EvalFault> {
    match given {
        Given::Bool(truth) => Ok(Value::Bool(truth)),
        Given::Int(number) => Ok(Value::Int(number)),
        Given::Text(text) => Ok(Value::Text(Text::from_str(alloc, text)?)),
        Given::List(numbers) => list(alloc, numbers),
        Given::Map(pairs) => map(alloc, pairs),
        _ => Ok(Value::Null),
    }
}

fn list(alloc: Global, numbers: &[i64]) -> Result<Value, EvalFault> {
    let mut members = Vec::new(alloc);
    for number in numbers {
        members.push(Value::Int(*number))?;
    }
    Ok(Value::List(Items::from_vec(members)))
}

fn map(alloc: Global, pairs: &[(&str, i64)]) -> Result<Value, EvalFault> {
    let mut members = Fields::new(alloc);
    for (key, number) in pairs {
        put(alloc, &mut members, key, Value::Int(*number))?;
    }
    Ok(Value::Map(members))
}

/// Puts a value under a copy of the key.
pub(crate) fn put(
    alloc: Global,
    members: &mut Fields,
    key: &str,
    value: Value,
) -> Result<(), EvalFault> {
    match members.put(Text::from_str(alloc, key)?, value) {
        Ok(()) => Ok(()),
        Err(_) => Err(EvalFault::Memory),
    }
}

/// The expression that gives the value, or has the fault.
pub(crate) fn expr(alloc: Global, given: Given) -> Result<Expr, EvalFault> {
    match given {
        Given::Null => Ok(Expr::Null),
        Given::Bool(truth) => Ok(Expr::Bool(truth)),
        Given::Int(number) => Ok(Expr::Int(number)),
        Given::Text(text) => Ok(Expr::Text(Text::from_str(alloc, text)?)),
        Given::List(numbers) => list_expr(alloc, numbers),
        Given::Map(pairs) => map_expr(alloc, pairs),
        Given::Missing => Ok(Expr::Path(PathRoot::Context, Text::from_str(alloc, "none")?)),
        Given::OutOfRange => divided_by_zero(alloc),
        Given::WrongKind => Ok(Expr::Unary(Unary::Not, Boxed::new(alloc, Expr::Int(1))?)),
    }
}

fn divided_by_zero(alloc: Global) -> Result<Expr, EvalFault> {
    let one = Boxed::new(alloc, Expr::Int(1))?;
    let zero = Boxed::new(alloc, Expr::Int(0))?;
    Ok(Expr::Binary(Binary::Division(Division::Div), one, zero))
}

fn list_expr(alloc: Global, numbers: &[i64]) -> Result<Expr, EvalFault> {
    let mut parts = Vec::new(alloc);
    for number in numbers {
        parts.push(Expr::Int(*number))?;
    }
    Ok(Expr::List(Items::from_vec(parts)))
}

fn map_expr(alloc: Global, pairs: &[(&str, i64)]) -> Result<Expr, EvalFault> {
    let mut parts = Vec::new(alloc);
    for (key, number) in pairs {
        parts.push((Text::from_str(alloc, key)?, Expr::Int(*number)))?;
    }
    Ok(Expr::Map(Items::from_vec(parts)))
}

/// The expression in a box, as an operator holds it.
pub(crate) fn operand(alloc: Global, given: Given) -> Result<Boxed<Expr>, EvalFault> {
    Ok(Boxed::new(alloc, expr(alloc, given)?)?)
}

/// What an expression gives where everything that it may read is Null.
pub(crate) fn alone(alloc: Global, expr: &Expr) -> Result<Value, EvalFault> {
    let nothing = Value::Null;
    let env = Env {
        context: &nothing,
        event: &nothing,
        params: &nothing,
        input: &nothing,
    };
    eval(alloc, expr, &env)
}

/// Whether the expression gives what is wanted, where everything that it may read is Null.
pub(crate) fn gives(alloc: Global, expr: &Expr, wanted: Wanted) -> Result<bool, EvalFault> {
    agrees(alloc, alone(alloc, expr), wanted)
}

/// Whether an answer is the wanted value or fault.
pub(crate) fn agrees(
    alloc: Global,
    answer: Result<Value, EvalFault>,
    wanted: Wanted,
) -> Result<bool, EvalFault> {
    match (answer, wanted) {
        (Ok(found), Ok(given)) => Ok(same(&found, &value(alloc, given)?)),
        (Err(found), Err(fault)) => Ok(found == fault),
        _ => Ok(false),
    }
}
