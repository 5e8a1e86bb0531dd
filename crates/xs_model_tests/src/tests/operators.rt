//! Each operator with each kind of operand.

use crate::tests::applied::Applied;
use crate::tests::given::{Given, KINDS, Wanted, gives, operand, same_kind};
use std::alloc::Global;
use std::test::Fail;
use xs_model::*;

const LEAST: i64 = -9_223_372_036_854_775_808;

const MOST: i64 = 9_223_372_036_854_775_807;

const ADD: Binary = Binary::Arithmetic(Arithmetic::Add);

const SUB: Binary = Binary::Arithmetic(Arithmetic::Sub);

const MUL: Binary = Binary::Arithmetic(Arithmetic::Mul);

const DIV: Binary = Binary::Division(Division::Div);

const REM: Binary = Binary::Division(Division::Rem);

const LESS: Binary = Binary::Compare(Comparison::Less);

const LESS_OR_EQUAL: Binary = Binary::Compare(Comparison::LessOrEqual);

pub(crate) fn binary(alloc: Global, op: Binary, a: Given, b: Given) -> Result<Expr, EvalFault> {
    Ok(Expr::Binary(op, operand(alloc, a)?, operand(alloc, b)?))
}

/// Arithmetic, as two numbers and what they give.
pub(crate) const ARITHMETIC: [(Applied, Wanted); 25] = [
    (Applied::Numbers(ADD, 2, 3), Ok(Given::Int(5))),
    (Applied::Numbers(ADD, MOST, 0), Ok(Given::Int(MOST))),
    (Applied::Numbers(ADD, MOST, 1), Err(EvalFault::Range)),
    (Applied::Numbers(ADD, LEAST, -1), Err(EvalFault::Range)),
    (Applied::Numbers(ADD, LEAST, MOST), Ok(Given::Int(-1))),
    (Applied::Numbers(SUB, 2, 3), Ok(Given::Int(-1))),
    (Applied::Numbers(SUB, LEAST, 0), Ok(Given::Int(LEAST))),
    (Applied::Numbers(SUB, LEAST, 1), Err(EvalFault::Range)),
    (Applied::Numbers(SUB, 0, LEAST), Err(EvalFault::Range)),
    (Applied::Numbers(SUB, -1, LEAST), Ok(Given::Int(MOST))),
    (Applied::Numbers(MUL, -4, 3), Ok(Given::Int(-12))),
    (Applied::Numbers(MUL, LEAST, 1), Ok(Given::Int(LEAST))),
    (Applied::Numbers(MUL, LEAST, -1), Err(EvalFault::Range)),
    (
        Applied::Numbers(MUL, 4_294_967_296, 2_147_483_648),
        Err(EvalFault::Range),
    ),
    (
        Applied::Numbers(MUL, -4_294_967_296, 2_147_483_648),
        Ok(Given::Int(LEAST)),
    ),
    (Applied::Numbers(DIV, 7, 2), Ok(Given::Int(3))),
    (Applied::Numbers(DIV, 7, -2), Ok(Given::Int(-3))),
    (Applied::Numbers(DIV, -7, 2), Ok(Given::Int(-3))),
    (Applied::Numbers(DIV, 1, 0), Err(EvalFault::Range)),
    (Applied::Numbers(DIV, LEAST, -1), Err(EvalFault::Range)),
    (Applied::Numbers(REM, 7, -2), Ok(Given::Int(1))),
    (Applied::Numbers(REM, -7, 2), Ok(Given::Int(-1))),
    (Applied::Numbers(REM, 1, 0), Err(EvalFault::Range)),
    (Applied::Numbers(REM, LEAST, -1), Ok(Given::Int(0))),
    (Applied::Numbers(REM, MOST, LEAST), Ok(Given::Int(MOST))),
];

/// Operators of two operands on the kinds that they take.
pub(crate) const PAIRS: [(Applied, Wanted); 21] = [
    (
        Applied::Binary(Binary::Concat, Given::Text("ab"), Given::Text("c")),
        Ok(Given::Text("abc")),
    ),
    (
        Applied::Binary(Binary::Concat, Given::Text(""), Given::Text("")),
        Ok(Given::Text("")),
    ),
    (
        Applied::Binary(Binary::Append, Given::List(&[]), Given::Int(1)),
        Ok(Given::List(&[1])),
    ),
    (
        Applied::Binary(Binary::Append, Given::List(&[2, 1]), Given::Int(3)),
        Ok(Given::List(&[2, 1, 3])),
    ),
    (
        Applied::Binary(Binary::Equal, Given::Text("1"), Given::Int(1)),
        Ok(Given::Bool(false)),
    ),
    (
        Applied::Binary(Binary::Equal, Given::Text("1"), Given::Text("01")),
        Ok(Given::Bool(false)),
    ),
    (
        Applied::Binary(Binary::Equal, Given::List(&[1, 2]), Given::List(&[1, 2])),
        Ok(Given::Bool(true)),
    ),
    (
        Applied::Binary(Binary::Equal, Given::List(&[1, 2]), Given::List(&[2, 1])),
        Ok(Given::Bool(false)),
    ),
    (
        Applied::Binary(Binary::Equal, Given::List(&[1, 2]), Given::List(&[1])),
        Ok(Given::Bool(false)),
    ),
    (
        Applied::Binary(
            Binary::Equal,
            Given::Map(&[("a", 1), ("b", 2)]),
            Given::Map(&[("b", 2), ("a", 1)]),
        ),
        Ok(Given::Bool(true)),
    ),
    (
        Applied::Binary(
            Binary::Equal,
            Given::Map(&[("a", 1)]),
            Given::Map(&[("b", 1)]),
        ),
        Ok(Given::Bool(false)),
    ),
    (
        Applied::Binary(
            Binary::Equal,
            Given::Map(&[("a", 1)]),
            Given::Map(&[("a", 2)]),
        ),
        Ok(Given::Bool(false)),
    ),
    (
        Applied::Binary(LESS, Given::Int(-1), Given::Int(0)),
        Ok(Given::Bool(true)),
    ),
    (
        Applied::Binary(LESS, Given::Int(LEAST), Given::Int(MOST)),
        Ok(Given::Bool(true)),
    ),
    (
        Applied::Binary(LESS, Given::Int(1), Given::Int(1)),
        Ok(Given::Bool(false)),
    ),
    (
        Applied::Binary(LESS_OR_EQUAL, Given::Int(1), Given::Int(1)),
        Ok(Given::Bool(true)),
    ),
    (
        Applied::Binary(LESS_OR_EQUAL, Given::Int(2), Given::Int(1)),
        Ok(Given::Bool(false)),
    ),
    (
        Applied::Binary(LESS, Given::Text("B"), Given::Text("a")),
        Ok(Given::Bool(true)),
    ),
    (
        Applied::Binary(LESS, Given::Text("b"), Given::Text("aa")),
        Ok(Given::Bool(false)),
    ),
    (
        Applied::Binary(LESS, Given::Text("z"), Given::Text("\u{e9}")),
        Ok(Given::Bool(true)),
    ),
    (
        Applied::Binary(LESS_OR_EQUAL, Given::Text("a"), Given::Text("a")),
        Ok(Given::Bool(true)),
    ),
];

/// Operators that want kinds of their operands, with operands of those kinds.
const TYPED: [(Binary, Given, Given); 10] = [
    (ADD, Given::Int(1), Given::Int(1)),
    (SUB, Given::Int(1), Given::Int(1)),
    (MUL, Given::Int(1), Given::Int(1)),
    (DIV, Given::Int(1), Given::Int(1)),
    (REM, Given::Int(1), Given::Int(1)),
    (Binary::Concat, Given::Text("a"), Given::Text("a")),
    (LESS, Given::Int(1), Given::Int(1)),
    (LESS, Given::Text("a"), Given::Text("a")),
    (LESS_OR_EQUAL, Given::Int(1), Given::Int(1)),
    (LESS_OR_EQUAL, Given::Text("a"), Given::Text("a")),
];

fn refuses(alloc: Global, op: Binary, a: Given, b: Given) -> Result<bool, EvalFault> {
    gives(alloc, &binary(alloc, op, a, b)?, Err(EvalFault::Kind))
}

fn refuses_other_kinds(alloc: Global, row: &(Binary, Given, Given)) -> Result<bool, EvalFault> {
    let (op, a, b) = *row;
    for other in KINDS.iter() {
        if !same_kind(*other, a)
            && !(refuses(alloc, op, *other, b)? && refuses(alloc, op, a, *other)?)
        {
            return Ok(false);
        }
    }
    Ok(true)
}

#[test]
fn operators_refuse_other_kinds(rt: HostRuntime) -> Result<(), Fail> {
    for (place, row) in TYPED.iter().enumerate() {
        assert!(rt; refuses_other_kinds(rt.alloc(), row)?, "row {place}");
    }
    Ok(())
}

/// Append takes a list first, and anything after it.
pub(crate) const APPENDED: [(Applied, Wanted); 11] = [
    (
        Applied::Binary(Binary::Append, Given::Null, Given::List(&[1])),
        Err(EvalFault::Kind),
    ),
    (
        Applied::Binary(Binary::Append, Given::Bool(true), Given::List(&[1])),
        Err(EvalFault::Kind),
    ),
    (
        Applied::Binary(Binary::Append, Given::Int(1), Given::List(&[1])),
        Err(EvalFault::Kind),
    ),
    (
        Applied::Binary(Binary::Append, Given::Text("1"), Given::List(&[1])),
        Err(EvalFault::Kind),
    ),
    (
        Applied::Binary(Binary::Append, Given::Map(&[("1", 1)]), Given::List(&[1])),
        Err(EvalFault::Kind),
    ),
    (
        Applied::AppendedLen(Given::List(&[1]), Given::Null),
        Ok(Given::Int(2)),
    ),
    (
        Applied::AppendedLen(Given::List(&[1]), Given::Bool(true)),
        Ok(Given::Int(2)),
    ),
    (
        Applied::AppendedLen(Given::List(&[1]), Given::Int(1)),
        Ok(Given::Int(2)),
    ),
    (
        Applied::AppendedLen(Given::List(&[1]), Given::Text("1")),
        Ok(Given::Int(2)),
    ),
    (
        Applied::AppendedLen(Given::List(&[1]), Given::List(&[1])),
        Ok(Given::Int(2)),
    ),
    (
        Applied::AppendedLen(Given::List(&[1]), Given::Map(&[("1", 1)])),
        Ok(Given::Int(2)),
    ),
];

fn equals_its_kind_alone(alloc: Global, a: Given) -> Result<bool, EvalFault> {
    for b in KINDS.iter() {
        let wanted = Ok(Given::Bool(same_kind(a, *b)));
        if !gives(alloc, &binary(alloc, Binary::Equal, a, *b)?, wanted)? {
            return Ok(false);
        }
    }
    Ok(true)
}

#[test]
fn values_of_two_kinds_are_unequal(rt: HostRuntime) -> Result<(), Fail> {
    for (place, kind) in KINDS.iter().enumerate() {
        assert!(rt; equals_its_kind_alone(rt.alloc(), *kind)?, "kind {place}");
    }
    Ok(())
}

/// Both operands are evaluated, from left to right, before their kinds are looked at.
pub(crate) const FAULTS: [(Applied, Wanted); 7] = [
    (
        Applied::Binary(ADD, Given::Missing, Given::OutOfRange),
        Err(EvalFault::Missing),
    ),
    (
        Applied::Binary(ADD, Given::OutOfRange, Given::Missing),
        Err(EvalFault::Range),
    ),
    (
        Applied::Binary(ADD, Given::Text("a"), Given::Missing),
        Err(EvalFault::Missing),
    ),
    (
        Applied::Binary(DIV, Given::Null, Given::OutOfRange),
        Err(EvalFault::Range),
    ),
    (
        Applied::Binary(Binary::Concat, Given::Int(1), Given::Missing),
        Err(EvalFault::Missing),
    ),
    (
        Applied::Binary(Binary::Append, Given::Int(1), Given::OutOfRange),
        Err(EvalFault::Range),
    ),
    (
        Applied::Binary(Binary::Equal, Given::WrongKind, Given::Missing),
        Err(EvalFault::Kind),
    ),
];

/// Operators of one operand.
pub(crate) const SINGLE: [(Applied, Wanted); 24] = [
    (
        Applied::Unary(Unary::Decimal, Given::Int(0)),
        Ok(Given::Text("0")),
    ),
    (
        Applied::Unary(Unary::Decimal, Given::Int(-10)),
        Ok(Given::Text("-10")),
    ),
    (
        Applied::Unary(Unary::Decimal, Given::Int(LEAST)),
        Ok(Given::Text("-9223372036854775808")),
    ),
    (
        Applied::Unary(Unary::Decimal, Given::Int(MOST)),
        Ok(Given::Text("9223372036854775807")),
    ),
    (
        Applied::Unary(Unary::Decimal, Given::Null),
        Err(EvalFault::Kind),
    ),
    (
        Applied::Unary(Unary::Decimal, Given::Bool(true)),
        Err(EvalFault::Kind),
    ),
    (
        Applied::Unary(Unary::Decimal, Given::Text("1")),
        Err(EvalFault::Kind),
    ),
    (
        Applied::Unary(Unary::Decimal, Given::List(&[1])),
        Err(EvalFault::Kind),
    ),
    (
        Applied::Unary(Unary::Decimal, Given::Map(&[])),
        Err(EvalFault::Kind),
    ),
    (
        Applied::Unary(Unary::Len, Given::List(&[])),
        Ok(Given::Int(0)),
    ),
    (
        Applied::Unary(Unary::Len, Given::List(&[5, 5, 5])),
        Ok(Given::Int(3)),
    ),
    (
        Applied::Unary(Unary::Len, Given::Map(&[("a", 1), ("b", 1)])),
        Ok(Given::Int(2)),
    ),
    (
        Applied::Unary(Unary::Len, Given::Text("\u{e9}\u{20ac}")),
        Ok(Given::Int(5)),
    ),
    (
        Applied::Unary(Unary::Len, Given::Null),
        Err(EvalFault::Kind),
    ),
    (
        Applied::Unary(Unary::Len, Given::Bool(true)),
        Err(EvalFault::Kind),
    ),
    (
        Applied::Unary(Unary::Len, Given::Int(1)),
        Err(EvalFault::Kind),
    ),
    (
        Applied::Unary(Unary::Len, Given::Missing),
        Err(EvalFault::Missing),
    ),
    (
        Applied::Unary(Unary::Not, Given::Bool(true)),
        Ok(Given::Bool(false)),
    ),
    (
        Applied::Unary(Unary::Not, Given::Bool(false)),
        Ok(Given::Bool(true)),
    ),
    (
        Applied::Unary(Unary::Not, Given::Null),
        Err(EvalFault::Kind),
    ),
    (
        Applied::Unary(Unary::Not, Given::Int(0)),
        Err(EvalFault::Kind),
    ),
    (
        Applied::Unary(Unary::Not, Given::Text("")),
        Err(EvalFault::Kind),
    ),
    (
        Applied::Unary(Unary::Not, Given::List(&[])),
        Err(EvalFault::Kind),
    ),
    (
        Applied::Unary(Unary::Not, Given::Map(&[])),
        Err(EvalFault::Kind),
    ),
];
