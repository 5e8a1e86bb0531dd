//! Paths, lists, maps and literals.

use crate::tests::applied::Applied;
use crate::tests::given::{Given, Wanted, agrees, expr, gives, put, value};
use std::alloc::Global;
use std::test::Fail;
use xs_data::Items;
use xs_model::*;

/// {"":30,"a":[10,{"b":20}],"a.b":40}
fn sample(alloc: Global) -> Result<Value, EvalFault> {
    let mut whole = Fields::new(alloc);
    put(alloc, &mut whole, "a", sample_list(alloc)?)?;
    put(alloc, &mut whole, "a.b", Value::Int(40))?;
    put(alloc, &mut whole, "", Value::Int(30))?;
    Ok(Value::Map(whole))
}

/// [10,{"b":20}]
fn sample_list(alloc: Global) -> Result<Value, EvalFault> {
    let mut members = Vec::new(alloc);
    members.push(Value::Int(10))?;
    members.push(value(alloc, Given::Map(&[("b", 20)]))?)?;
    Ok(Value::List(Items::from_vec(members)))
}

/// A step into a list is a place from 0 in decimal without leading zeros, and nothing else.
const PATHS: [(&str, Option<i64>); 17] = [
    ("a.0", Some(10)),
    ("a.1.b", Some(20)),
    ("a.00", None),
    ("a.01", None),
    ("a.+1", None),
    ("a.-1", None),
    ("a.2", None),
    ("a.", None),
    ("a. 1", None),
    ("a.b", None),
    ("a.18446744073709551616", None),
    ("b", None),
    ("A", None),
    ("a.0.b", None),
    ("a.1.b.", None),
    (".", None),
    ("a..0", None),
];

fn number_at(whole: &Value, path: &str) -> Option<i64> {
    match at_path(whole, path) {
        Some(Value::Int(number)) => Some(*number),
        _ => None,
    }
}

#[test]
fn paths_lead_through_lists_and_maps(rt: HostRuntime) -> Result<(), Fail> {
    let whole = sample(rt.alloc())?;
    for (path, wanted) in PATHS.iter() {
        assert!(rt; number_at(&whole, path) == *wanted, "{path}");
    }
    Ok(())
}

fn leads_to_itself(whole: &Value) -> bool {
    match at_path(whole, "") {
        Some(found) => same(found, whole),
        None => false,
    }
}

#[test]
fn the_empty_path_leads_to_the_whole(rt: HostRuntime) -> Result<(), Fail> {
    assert!(rt; leads_to_itself(&sample(rt.alloc())?));
    Ok(())
}

/// A root, a path and what they give beside a list, a map, a text and a number.
const READS: [(PathRoot, &str, Wanted); 12] = [
    (PathRoot::Context, "", Ok(Given::List(&[7, 8]))),
    (PathRoot::Context, "1", Ok(Given::Int(8))),
    (PathRoot::Context, "01", Err(EvalFault::Missing)),
    (PathRoot::Context, "2", Err(EvalFault::Missing)),
    (PathRoot::Event, "", Ok(Given::Map(&[("0", 9), ("01", 10)]))),
    (PathRoot::Event, "0", Ok(Given::Int(9))),
    (PathRoot::Event, "01", Ok(Given::Int(10))),
    (PathRoot::Event, "1", Err(EvalFault::Missing)),
    (PathRoot::Params, "", Ok(Given::Text("0"))),
    (PathRoot::Params, "0", Err(EvalFault::Missing)),
    (PathRoot::Input, "", Ok(Given::Int(0))),
    (PathRoot::Input, "0", Err(EvalFault::Missing)),
];

/// What the expression gives beside those values.
fn read(alloc: Global, expr: &Expr) -> Result<Value, EvalFault> {
    let context = value(alloc, Given::List(&[7, 8]))?;
    let event = value(alloc, Given::Map(&[("01", 10), ("0", 9)]))?;
    let params = value(alloc, Given::Text("0"))?;
    let input = Value::Int(0);
    let env = Env {
        context: &context,
        event: &event,
        params: &params,
        input: &input,
    };
    eval(alloc, expr, &env)
}

fn reads(alloc: Global, row: &(PathRoot, &str, Wanted)) -> Result<bool, EvalFault> {
    let (root, path, wanted) = *row;
    let expr = Expr::Path(root, Text::from_str(alloc, path)?);
    agrees(alloc, read(alloc, &expr), wanted)
}

#[test]
fn each_root_is_read_by_its_own_operator(rt: HostRuntime) -> Result<(), Fail> {
    for (place, row) in READS.iter().enumerate() {
        assert!(rt; reads(rt.alloc(), row)?, "row {place}");
    }
    Ok(())
}

/// Scalars, lists, maps and literals give themselves.
pub(crate) const DATA: [(Applied, Wanted); 20] = [
    (Applied::Itself(Given::Null), Ok(Given::Null)),
    (Applied::Itself(Given::Bool(true)), Ok(Given::Bool(true))),
    (Applied::Itself(Given::Int(-1)), Ok(Given::Int(-1))),
    (
        Applied::Itself(Given::Text("\u{0}\"")),
        Ok(Given::Text("\u{0}\"")),
    ),
    (Applied::Itself(Given::List(&[])), Ok(Given::List(&[]))),
    (
        Applied::Itself(Given::List(&[2, 1])),
        Ok(Given::List(&[2, 1])),
    ),
    (Applied::Itself(Given::Map(&[])), Ok(Given::Map(&[]))),
    (
        Applied::Itself(Given::Map(&[("b", 1), ("a", 2)])),
        Ok(Given::Map(&[("b", 1), ("a", 2)])),
    ),
    (Applied::Itself(Given::Int(1)), Ok(Given::Int(1))),
    (Applied::Itself(Given::Text("1")), Ok(Given::Text("1"))),
    (Applied::Itself(Given::List(&[1])), Ok(Given::List(&[1]))),
    (
        Applied::Itself(Given::Map(&[("1", 1)])),
        Ok(Given::Map(&[("1", 1)])),
    ),
    (Applied::Literal(Given::Null), Ok(Given::Null)),
    (Applied::Literal(Given::Bool(true)), Ok(Given::Bool(true))),
    (Applied::Literal(Given::Int(-1)), Ok(Given::Int(-1))),
    (
        Applied::Literal(Given::Text("\u{0}\"")),
        Ok(Given::Text("\u{0}\"")),
    ),
    (Applied::Literal(Given::List(&[])), Ok(Given::List(&[]))),
    (
        Applied::Literal(Given::List(&[2, 1])),
        Ok(Given::List(&[2, 1])),
    ),
    (Applied::Literal(Given::Map(&[])), Ok(Given::Map(&[]))),
    (
        Applied::Literal(Given::Map(&[("b", 1), ("a", 2)])),
        Ok(Given::Map(&[("b", 1), ("a", 2)])),
    ),
];

pub(crate) fn list_of(alloc: Global, a: Given, b: Given) -> Result<Expr, EvalFault> {
    let mut parts = Vec::new(alloc);
    parts.push(expr(alloc, a)?)?;
    parts.push(expr(alloc, b)?)?;
    Ok(Expr::List(Items::from_vec(parts)))
}

/// A map whose first part in the text has the greater key.
pub(crate) fn map_of(alloc: Global, a: Given, b: Given) -> Result<Expr, EvalFault> {
    let mut parts = Vec::new(alloc);
    parts.push((Text::from_str(alloc, "z")?, expr(alloc, a)?))?;
    parts.push((Text::from_str(alloc, "a")?, expr(alloc, b)?))?;
    Ok(Expr::Map(Items::from_vec(parts)))
}

/// Two parts are evaluated in the order of the text, and the first fault is the answer; the
/// members of a map are sorted by their keys.
pub(crate) const PARTS: [(Applied, Wanted); 9] = [
    (
        Applied::List(Given::Missing, Given::OutOfRange),
        Err(EvalFault::Missing),
    ),
    (
        Applied::List(Given::OutOfRange, Given::Missing),
        Err(EvalFault::Range),
    ),
    (
        Applied::List(Given::Int(1), Given::WrongKind),
        Err(EvalFault::Kind),
    ),
    (
        Applied::List(Given::WrongKind, Given::Int(1)),
        Err(EvalFault::Kind),
    ),
    (
        Applied::Map(Given::Missing, Given::OutOfRange),
        Err(EvalFault::Missing),
    ),
    (
        Applied::Map(Given::OutOfRange, Given::Missing),
        Err(EvalFault::Range),
    ),
    (
        Applied::Map(Given::Int(1), Given::WrongKind),
        Err(EvalFault::Kind),
    ),
    (
        Applied::Map(Given::WrongKind, Given::Int(1)),
        Err(EvalFault::Kind),
    ),
    (
        Applied::Map(Given::Int(1), Given::Int(2)),
        Ok(Given::Map(&[("a", 2), ("z", 1)])),
    ),
];
