//! Texts with `^` before the byte at which their fault stands. A text without it has no fault.

use machine_json::*;
use ordered_json::OrderedJson;
use std::alloc::{AllocError, Global};
use std::process::Abort;
use std::test::Fail;

/// A call that reads a text.
#[derive(Clone, Copy)]
pub(crate) enum Reader {
    /// The first pass over a machine.
    Fields,
    /// A whole machine.
    Machine,
    /// An expression whose unknown forms are answered at their objects.
    Expression,
    /// An expression whose unknown forms are answered at their operators.
    Form,
}

/// The name and the place of a text's fault, or `None`.
fn fault_of(alloc: Global, reader: Reader, json: &OrderedJson) -> Result<String, AllocError> {
    match reader {
        Reader::Fields => format!(in alloc; "{:?}", check_fields(alloc, json).err()),
        Reader::Machine => format!(in alloc; "{:?}", read_machine(alloc, json).err()),
        Reader::Expression => format!(in alloc; "{:?}", read_expr(alloc, json).err()),
        Reader::Form => {
            format!(in alloc; "{:?}", read_form(alloc, json, FormPlace::AtOperator).err())
        }
    }
}

/// Whether a marked text has the fault of this name at its mark, and a text without a mark none.
pub(crate) fn is_answered(
    alloc: Global,
    reader: Reader,
    fault: &str,
    marked: &str,
) -> Result<bool, Fail> {
    let (before, behind) = marked.split_once('^').unwrap_or((marked, ""));
    let wanted = if before.len() < marked.len() {
        format!(in alloc; "Some({fault}({}))", before.len())?
    } else {
        String::from_str(alloc, "None")?
    };
    let text = format!(in alloc; "{before}{behind}")?;
    let json = ordered_json::read(alloc, text.as_bytes())?;
    Ok(fault_of(alloc, reader, &json)?.as_str() == wanted.as_str())
}

/// Asserts that each line is answered so.
pub(crate) fn expect_answers(
    rt: &impl Abort,
    alloc: Global,
    reader: Reader,
    fault: &str,
    lines: &str,
) -> Result<(), Fail> {
    for marked in lines.lines() {
        assert!(rt; is_answered(alloc, reader, fault, marked)?, "{marked}");
    }
    Ok(())
}
