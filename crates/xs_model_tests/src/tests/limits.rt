//! The limits at their edges, and the lengths of compact texts.

use crate::tests::given::{Given, alone, value};
use sqlite_items::Boxed;
use std::alloc::Global;
use std::test::Fail;
use xs_data::Items;
use xs_model::*;

/// The escapes of RFC 8259, section 7: two bytes for those with a letter, six for another control.
const QUOTED: [(&[u8], u64); 12] = [
    (b"", 2),
    (b"plain", 7),
    (b"\"", 4),
    (b"\\", 4),
    (b"/", 3),
    (b"\x08\x0c\n\r\t", 12),
    (b"\x00", 8),
    (b"\x07\x0b\x0e", 20),
    (b"\x1f", 8),
    (b" \x7f", 4),
    (b"\xc3\xa9", 4),
    (b"\xf0\x9d\x84\x9e", 6),
];

#[test]
fn quoted_texts_have_the_shortest_escapes(rt: HostRuntime) {
    for (text, len) in QUOTED.iter() {
        assert!(rt; quoted_len(text) == *len, "{text:?}");
    }
}

/// Values and their compact texts.
const TEXTS: [(Given, &str); 16] = [
    (Given::Null, "null"),
    (Given::Bool(true), "true"),
    (Given::Bool(false), "false"),
    (Given::Int(0), "0"),
    (Given::Int(9), "9"),
    (Given::Int(10), "10"),
    (Given::Int(-1), "-1"),
    (Given::Int(9_223_372_036_854_775_807), "9223372036854775807"),
    (
        Given::Int(-9_223_372_036_854_775_808),
        "-9223372036854775808",
    ),
    (Given::Text("a\n\u{1}\u{e9}"), "\"a\\n\\u0001\u{e9}\""),
    (Given::List(&[]), "[]"),
    (Given::List(&[1]), "[1]"),
    (Given::List(&[1, -2, 30]), "[1,-2,30]"),
    (Given::Map(&[]), "{}"),
    (Given::Map(&[("\"", 1)]), "{\"\\\"\":1}"),
    (Given::Map(&[("b", 1), ("a", 22)]), "{\"a\":22,\"b\":1}"),
];

fn has_length_of(alloc: Global, given: Given, text: &str) -> Result<bool, EvalFault> {
    Ok(text_len(&value(alloc, given)?) == text.len() as u64)
}

#[test]
fn values_are_as_long_as_their_texts(rt: HostRuntime) -> Result<(), Fail> {
    for (given, text) in TEXTS.iter() {
        assert!(rt; has_length_of(rt.alloc(), *given, text)?, "{text}");
    }
    Ok(())
}

/// A text of so many letters.
fn letters(alloc: Global, count: usize) -> Result<Text, EvalFault> {
    let mut text = String::new(alloc);
    for _ in 0..count {
        text.push('a')?;
    }
    Ok(Text::from_string(text))
}

/// A form around a text of letters, and how many bytes of compact text it has besides the letters.
#[derive(Clone, Copy)]
enum Form {
    Concat,
    List,
    Map,
    Literal,
    OrElse,
}

/// A list of one part.
fn list_around(alloc: Global, part: Expr) -> Result<Expr, EvalFault> {
    let mut parts = Vec::new(alloc);
    parts.push(part)?;
    Ok(Expr::List(Items::from_vec(parts)))
}

/// A map of one part, under the empty key.
fn map_around(alloc: Global, part: Expr) -> Result<Expr, EvalFault> {
    let mut parts = Vec::new(alloc);
    parts.push((Text::new(alloc), part))?;
    Ok(Expr::Map(Items::from_vec(parts)))
}

fn concat_with_nothing(alloc: Global, text: Text) -> Result<Expr, EvalFault> {
    let first = Boxed::new(alloc, Expr::Text(text))?;
    let second = Boxed::new(alloc, Expr::Text(Text::new(alloc)))?;
    Ok(Expr::Binary(Binary::Concat, first, second))
}

fn or_else_null(alloc: Global, text: Text) -> Result<Expr, EvalFault> {
    let first = Boxed::new(alloc, Expr::Text(text))?;
    Ok(Expr::OrElse(first, Boxed::new(alloc, Expr::Null)?))
}

fn around(alloc: Global, form: Form, text: Text) -> Result<Expr, EvalFault> {
    match form {
        Form::Concat => concat_with_nothing(alloc, text),
        Form::List => list_around(alloc, Expr::Text(text)),
        Form::Map => map_around(alloc, Expr::Text(text)),
        Form::Literal => Ok(Expr::Lit(Value::Text(text))),
        Form::OrElse => or_else_null(alloc, text),
    }
}

/// "..", [".."], {"":".."}
const LENGTHS: [(Form, u8); 5] = [
    (Form::Concat, 2),
    (Form::List, 4),
    (Form::Map, 7),
    (Form::Literal, 2),
    (Form::OrElse, 2),
];

/// How long the compact text is of what the form gives around so many letters.
fn length_around(alloc: Global, form: Form, count: usize) -> Result<u64, EvalFault> {
    let made = around(alloc, form, letters(alloc, count)?)?;
    Ok(text_len(&alone(alloc, &made)?))
}

fn ends_at_the_limit(alloc: Global, form: Form, besides: u8) -> bool {
    let fits = length_around(alloc, form, 65_536 - besides as usize);
    let long = length_around(alloc, form, 65_537 - besides as usize);
    fits == Ok(65_536) && long == Err(EvalFault::TooLarge)
}

#[test]
fn what_is_made_has_at_most_65536_bytes(rt: HostRuntime) -> Result<(), Fail> {
    for (place, (form, besides)) in LENGTHS.iter().enumerate() {
        assert!(rt;
            ends_at_the_limit(rt.alloc(), *form, *besides),
            "row {place}"
        );
    }
    Ok(())
}

fn length_of_text(alloc: Global, count: usize) -> Result<u64, EvalFault> {
    let text = Expr::Text(letters(alloc, count)?);
    Ok(text_len(&alone(alloc, &text)?))
}

#[test]
fn a_text_has_no_limit_of_its_own(rt: HostRuntime) -> Result<(), Fail> {
    assert!(rt; length_of_text(rt.alloc(), 70_000)? == 70_002);
    Ok(())
}

/// Lists in one another, so many in all.
fn nested_lists(alloc: Global, levels: u32) -> Result<Expr, EvalFault> {
    let mut nested = Expr::Int(1);
    for _ in 0..levels {
        nested = list_around(alloc, nested)?;
    }
    Ok(nested)
}

/// Maps in one another, so many in all.
fn nested_maps(alloc: Global, levels: u32) -> Result<Expr, EvalFault> {
    let mut nested = Expr::Int(1);
    for _ in 0..levels {
        nested = map_around(alloc, nested)?;
    }
    Ok(nested)
}

/// A list with these lists as its last member.
fn appended(alloc: Global, levels: u32) -> Result<Expr, EvalFault> {
    let list = Boxed::new(alloc, Expr::List(Items::new(alloc)))?;
    let member = Boxed::new(alloc, nested_lists(alloc, levels)?)?;
    Ok(Expr::Binary(Binary::Append, list, member))
}

/// How levels are nested.
#[derive(Clone, Copy)]
enum Shape {
    Lists,
    Maps,
    Appended,
}

fn nested(alloc: Global, shape: Shape, levels: u32) -> Result<Expr, EvalFault> {
    match shape {
        Shape::Lists => nested_lists(alloc, levels),
        Shape::Maps => nested_maps(alloc, levels),
        Shape::Appended => appended(alloc, levels),
    }
}

fn depth_of(alloc: Global, shape: Shape, levels: u32) -> Result<u32, EvalFault> {
    let made = nested(alloc, shape, levels)?;
    Ok(depth(&alone(alloc, &made)?))
}

/// Shapes, levels and the nesting of what they give.
const LEVELS: [(Shape, u32, Result<u32, EvalFault>); 9] = [
    (Shape::Lists, 0, Ok(0)),
    (Shape::Lists, 1, Ok(1)),
    (Shape::Lists, 32, Ok(32)),
    (Shape::Lists, 33, Err(EvalFault::TooLarge)),
    (Shape::Maps, 1, Ok(1)),
    (Shape::Maps, 32, Ok(32)),
    (Shape::Maps, 33, Err(EvalFault::TooLarge)),
    (Shape::Appended, 31, Ok(32)),
    (Shape::Appended, 32, Err(EvalFault::TooLarge)),
];

#[test]
fn what_is_made_nests_at_most_32_deep(rt: HostRuntime) -> Result<(), Fail> {
    for (place, (shape, levels, wanted)) in LEVELS.iter().enumerate() {
        assert!(rt;
            depth_of(rt.alloc(), *shape, *levels) == *wanted,
            "row {place}"
        );
    }
    Ok(())
}

/// A list of 65,536 bytes of compact text.
fn longest_list(alloc: Global) -> Result<Value, EvalFault> {
    let mut members = Vec::new(alloc);
    members.push(Value::Text(letters(alloc, 65_532)?))?;
    Ok(Value::List(Items::from_vec(members)))
}

/// The length of what an expression gives where that list is the context.
fn length_within(alloc: Global, expr: &Expr) -> Result<u64, EvalFault> {
    let context = longest_list(alloc)?;
    let nothing = Value::Null;
    let env = Env {
        context: &context,
        event: &nothing,
        params: &nothing,
        input: &nothing,
    };
    Ok(text_len(&eval(alloc, expr, &env)?))
}

fn whole_context(alloc: Global) -> Expr {
    Expr::Path(PathRoot::Context, Text::new(alloc))
}

#[test]
fn a_whole_context_has_at_most_65536_bytes(rt: HostRuntime) -> Result<(), Fail> {
    let whole = whole_context(rt.alloc());
    assert!(rt; length_within(rt.alloc(), &whole)? == 65_536);
    Ok(())
}

/// The context with one more member.
fn longer_context(alloc: Global) -> Result<Expr, EvalFault> {
    let first = Boxed::new(alloc, whole_context(alloc))?;
    let second = Boxed::new(alloc, Expr::Int(1))?;
    Ok(Expr::Binary(Binary::Append, first, second))
}

#[test]
fn a_context_with_one_more_member_is_too_large(rt: HostRuntime) -> Result<(), Fail> {
    let longer = longer_context(rt.alloc())?;
    assert!(rt; length_within(rt.alloc(), &longer) == Err(EvalFault::TooLarge));
    Ok(())
}
