//! Tables of forms with their operands, and what they give.

use crate::tests::choices::{BRANCHES, CONNECTED, STAND_INS};
use crate::tests::given::{Given, Wanted, expr, gives, operand, value};
use crate::tests::operators::{APPENDED, ARITHMETIC, FAULTS, PAIRS, SINGLE, binary};
use crate::tests::parts::{DATA, PARTS, list_of, map_of};
use sqlite_items::Boxed;
use std::alloc::Global;
use std::test::Fail;
use xs_model::*;

/// A form with its operands.
#[derive(Clone, Copy)]
pub(crate) enum Applied {
    /// The operand alone.
    Itself(Given),
    /// The value as a literal.
    Literal(Given),
    Unary(Unary, Given),
    Binary(Binary, Given, Given),
    /// An operator of two numbers.
    Numbers(Binary, i64, i64),
    /// The length of a list with one more member.
    AppendedLen(Given, Given),
    Connect(Connective, Given, Given),
    /// A condition and its two branches.
    If(Given, Given, Given),
    /// An operand and what stands in for it.
    OrElse(Given, Given),
    /// A list of two parts.
    List(Given, Given),
    /// A map of two parts, of which the first in the text has the greater key.
    Map(Given, Given),
}

fn made(alloc: Global, form: Applied) -> Result<Expr, EvalFault> {
    match form {
        Applied::Itself(a) => expr(alloc, a),
        Applied::Literal(a) => Ok(Expr::Lit(value(alloc, a)?)),
        Applied::Unary(op, a) => Ok(Expr::Unary(op, operand(alloc, a)?)),
        Applied::Binary(op, a, b) => binary(alloc, op, a, b),
        Applied::Numbers(op, a, b) => binary(alloc, op, Given::Int(a), Given::Int(b)),
        Applied::AppendedLen(a, b) => appended_len(alloc, a, b),
        Applied::Connect(op, a, b) => connect(alloc, op, a, b),
        Applied::If(c, a, b) => branch(alloc, c, a, b),
        Applied::OrElse(a, b) => or_else(alloc, a, b),
        Applied::List(a, b) => list_of(alloc, a, b),
        Applied::Map(a, b) => map_of(alloc, a, b),
    }
}

fn appended_len(alloc: Global, a: Given, b: Given) -> Result<Expr, EvalFault> {
    let longer = binary(alloc, Binary::Append, a, b)?;
    Ok(Expr::Unary(Unary::Len, Boxed::new(alloc, longer)?))
}

fn connect(alloc: Global, op: Connective, a: Given, b: Given) -> Result<Expr, EvalFault> {
    Ok(Expr::Connect(op, operand(alloc, a)?, operand(alloc, b)?))
}

fn branch(alloc: Global, c: Given, a: Given, b: Given) -> Result<Expr, EvalFault> {
    let condition = operand(alloc, c)?;
    Ok(Expr::If(condition, operand(alloc, a)?, operand(alloc, b)?))
}

fn or_else(alloc: Global, a: Given, b: Given) -> Result<Expr, EvalFault> {
    Ok(Expr::OrElse(operand(alloc, a)?, operand(alloc, b)?))
}

/// Each table with what it shows.
const TABLES: [(&str, &[(Applied, Wanted)]); 10] = [
    ("connectives stop at the deciding operand", &CONNECTED),
    ("one branch is evaluated", &BRANCHES),
    ("a stand-in is for what is missing", &STAND_INS),
    ("numbers stay within 64 bits", &ARITHMETIC),
    ("operators take their kinds", &PAIRS),
    ("append takes a list and anything", &APPENDED),
    ("the first fault is the answer", &FAULTS),
    ("operators of one operand", &SINGLE),
    ("data gives itself", &DATA),
    ("parts are evaluated in the order of the text", &PARTS),
];

/// Whether the form gives what is wanted, and a copy of it does too.
fn holds(alloc: Global, row: &(Applied, Wanted)) -> Result<bool, EvalFault> {
    let (form, wanted) = *row;
    let first = made(alloc, form)?;
    let copied = copy_expr(alloc, &first)?;
    Ok(gives(alloc, &first, wanted)? && gives(alloc, &copied, wanted)?)
}

#[test]
fn forms_give_what_is_wanted(rt: HostRuntime) -> Result<(), Fail> {
    for (shown, rows) in TABLES.iter() {
        for (place, row) in rows.iter().enumerate() {
            assert!(rt; holds(rt.alloc(), row)?, "{shown}: row {place}");
        }
    }
    Ok(())
}
