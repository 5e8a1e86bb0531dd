//! The forms that don't evaluate all their operands.

use crate::tests::applied::Applied;
use crate::tests::given::{Given, Wanted};
use xs_model::*;

/// The second operand is asked only where the first one doesn't decide, and the first one's kind
/// is looked at before it.
pub(crate) const CONNECTED: [(Applied, Wanted); 14] = [
    (
        Applied::Connect(Connective::And, Given::Bool(false), Given::Missing),
        Ok(Given::Bool(false)),
    ),
    (
        Applied::Connect(Connective::And, Given::Bool(true), Given::Missing),
        Err(EvalFault::Missing),
    ),
    (
        Applied::Connect(Connective::And, Given::Bool(true), Given::Bool(true)),
        Ok(Given::Bool(true)),
    ),
    (
        Applied::Connect(Connective::And, Given::Bool(true), Given::Bool(false)),
        Ok(Given::Bool(false)),
    ),
    (
        Applied::Connect(Connective::And, Given::Bool(true), Given::Int(1)),
        Err(EvalFault::Kind),
    ),
    (
        Applied::Connect(Connective::And, Given::Int(0), Given::Missing),
        Err(EvalFault::Kind),
    ),
    (
        Applied::Connect(Connective::And, Given::OutOfRange, Given::Missing),
        Err(EvalFault::Range),
    ),
    (
        Applied::Connect(Connective::Or, Given::Bool(true), Given::Missing),
        Ok(Given::Bool(true)),
    ),
    (
        Applied::Connect(Connective::Or, Given::Bool(false), Given::Missing),
        Err(EvalFault::Missing),
    ),
    (
        Applied::Connect(Connective::Or, Given::Bool(false), Given::Bool(true)),
        Ok(Given::Bool(true)),
    ),
    (
        Applied::Connect(Connective::Or, Given::Bool(false), Given::Bool(false)),
        Ok(Given::Bool(false)),
    ),
    (
        Applied::Connect(Connective::Or, Given::Bool(false), Given::Null),
        Err(EvalFault::Kind),
    ),
    (
        Applied::Connect(Connective::Or, Given::Text(""), Given::Missing),
        Err(EvalFault::Kind),
    ),
    (
        Applied::Connect(Connective::Or, Given::Missing, Given::Bool(true)),
        Err(EvalFault::Missing),
    ),
];

/// A condition, its two branches and what they give.
pub(crate) const BRANCHES: [(Applied, Wanted); 8] = [
    (
        Applied::If(Given::Bool(true), Given::Int(1), Given::Missing),
        Ok(Given::Int(1)),
    ),
    (
        Applied::If(Given::Bool(false), Given::Missing, Given::Int(2)),
        Ok(Given::Int(2)),
    ),
    (
        Applied::If(Given::Bool(true), Given::OutOfRange, Given::Int(2)),
        Err(EvalFault::Range),
    ),
    (
        Applied::If(Given::Null, Given::Missing, Given::Missing),
        Err(EvalFault::Kind),
    ),
    (
        Applied::If(Given::Int(1), Given::Int(1), Given::Int(2)),
        Err(EvalFault::Kind),
    ),
    (
        Applied::If(Given::Text("true"), Given::Int(1), Given::Int(2)),
        Err(EvalFault::Kind),
    ),
    (
        Applied::If(Given::List(&[]), Given::Int(1), Given::Int(2)),
        Err(EvalFault::Kind),
    ),
    (
        Applied::If(Given::Map(&[]), Given::Int(1), Given::Int(2)),
        Err(EvalFault::Kind),
    ),
];

/// The second operand stands in where the first one finds nothing, and for no other fault.
pub(crate) const STAND_INS: [(Applied, Wanted); 6] = [
    (
        Applied::OrElse(Given::Missing, Given::Int(2)),
        Ok(Given::Int(2)),
    ),
    (
        Applied::OrElse(Given::Missing, Given::OutOfRange),
        Err(EvalFault::Range),
    ),
    (
        Applied::OrElse(Given::Missing, Given::Missing),
        Err(EvalFault::Missing),
    ),
    (
        Applied::OrElse(Given::Int(1), Given::Missing),
        Ok(Given::Int(1)),
    ),
    (
        Applied::OrElse(Given::WrongKind, Given::Int(2)),
        Err(EvalFault::Kind),
    ),
    (
        Applied::OrElse(Given::OutOfRange, Given::Int(2)),
        Err(EvalFault::Range),
    ),
];
