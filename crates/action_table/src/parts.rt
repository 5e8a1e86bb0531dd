//! The parts of objects among the implementations. Each call is made of JSON in which no fault was
//! found, so that what it needs is there, and is read but for want of memory.

ghost use Rattle.std.specs.Prelude.{◌≡◌, [], IfOk, Some, map, unwrap_or};
ghost use Rattle.ordered_json.specs.Words.{as_object, get, member_parts};
ghost use Rattle.machine_json.specs.Expressions.{MeansExpr};
ghost use Rattle.action_table.specs.TableMeaning.{IsNameAt, MeansOptional, MeansPart, MeansUnder, members_under};

use machine_json::{FormPlace, Named, read_form};
use ordered_json::{Member, OrderedJson, get, get_object};
use std::alloc::{AllocError, Global};
use xs_data::Items;
use xs_model::{Expr, Parts};

/// The expression that a value is.
pub fn expr_in(alloc: Global, json: &OrderedJson) -> Result<Expr, AllocError>
    ensures { IfOk result (λ expr. MeansExpr json.now expr) }
{
    match read_form(alloc, json, FormPlace::AtOperator) {
        Ok(expr) => Ok(expr),
        Err(_) => Err(AllocError),
    }
}

/// The expression under a key.
pub fn part_under(alloc: Global, key: &str, members: &[Member]) -> Result<Expr, AllocError>
    ensures { IfOk result
        (λ expr. MeansPart (get key.now (map member_parts members.now)) expr) }
{
    match get(members, key) {
        Some(json) => expr_in(alloc, json),
        None => Err(AllocError),
    }
}

/// The expression under a key, if the key is there.
pub fn optional_under(
    alloc: Global,
    key: &str,
    members: &[Member],
) -> Result<Option<Expr>, AllocError>
    ensures { IfOk result
        (λ expr. MeansOptional (get key.now (map member_parts members.now)) expr) }
{
    match get(members, key) {
        Some(json) => Ok(Some(expr_in(alloc, json)?)),
        None => Ok(None),
    }
}

/// The expressions under two keys, each if its key is there.
pub fn both_under(
    alloc: Global,
    first: &str,
    second: &str,
    members: &[Member],
) -> Result<(Option<Expr>, Option<Expr>), AllocError>
    ensures one { IfOk result
        (λ both. MeansOptional (get first.now (map member_parts members.now)) both.0) }
    ensures other { IfOk result
        (λ both. MeansOptional (get second.now (map member_parts members.now)) both.1) }
{
    let one = optional_under(alloc, first, members)?;
    Ok((one, optional_under(alloc, second, members)?))
}

/// The name under a key.
pub fn name_under(alloc: Global, key: &str, members: &[Member]) -> Result<Named, AllocError>
    ensures { IfOk result
        (λ named. IsNameAt (get key.now (map member_parts members.now)) named) }
{
    match get(members, key) {
        Some(json) => name_in(alloc, json),
        None => Err(AllocError),
    }
}

/// The name that a value is, at the value's place.
fn name_in(alloc: Global, json: &OrderedJson) -> Result<Named, AllocError>
    ensures { IfOk result (λ named. IsNameAt (Some json.now) named) }
{
    match json.as_text() {
        Some(text) => Ok(Named {
            name: text.copy(alloc)?,
            place: json.place(),
        }),
        None => Err(AllocError),
    }
}

/// The expressions of an object under a key, each under its own key.
pub fn values_under(alloc: Global, key: &str, members: &[Member]) -> Result<Parts, AllocError>
    ensures { IfOk result
        (λ values. MeansUnder MeansExpr
        (members_under key.now (map member_parts members.now)) values) }
{
    each_value(alloc, members_under(key, members))
}

/// The expression under each key.
fn each_value(alloc: Global, members: &[Member]) -> Result<Parts, AllocError>
    ensures { IfOk result
        (λ values. MeansUnder MeansExpr (map member_parts members.now) values) }
{
    let mut values = Vec::with_capacity(alloc, members.len())?;
    for member in members {
        let key = member.key.copy(alloc)?;
        let value = expr_in(alloc, &member.value)?;
        values.push((key, value))?;
    }
    Ok(Items::from_vec(values))
}

/// The members of the object under a key. Where there is none, it has no members.
pub fn members_under<'a>(key: &str, members: &'a [Member]) -> &'a [Member]
    ensures { map member_parts result.now
        ≡ members_under key.now (map member_parts members.now) }
{
    match get_object(members, key) {
        Some(inner) => inner,
        None => &[],
    }
}

/// The members of an object. Another value has none.
pub fn members_of(json: &OrderedJson) -> &[Member]
    ensures { map member_parts result.now ≡ unwrap_or (as_object json.now) [] }
{
    match json.as_object() {
        Some(members) => members,
        None => &[],
    }
}
