//! The expressions and invocations of a node, from a machine text without faults.

ghost use Rattle.std.specs.Prelude.{◌≡◌, IfOk, Some, map, option_map};
ghost use Rattle.ordered_json.specs.Words.{get, member_parts};
ghost use Rattle.xs_model.specs.declared.expr.Expr.TheVariants as expression;
ghost use Rattle.machine_json.specs.Meaning.{AreInvocations, MeansExprOr, MeansInvocation, invoked_id, text_of};

use crate::actions::{named_under, text_of};
use crate::expressions::read_expr;
use crate::first_pass::members_of;
use crate::machine::{UnlinkedInvocation, UnlinkedInvocations};
use ordered_json::{Member, OrderedJson, get};
use std::alloc::{AllocError, Global};
use xs_data::{Items, Text};
use xs_model::Expr;

/// The expression under a key, or `null`. A text without faults has no unknown form, so reading it
/// fails for want of memory alone.
pub(crate) fn expr_under(alloc: Global, key: &str, members: &[Member]) -> Result<Expr, AllocError>
    ensures { IfOk result (λ expr.
        MeansExprOr expression.Null (get key.now (map member_parts members.now)) expr) }
{
    match get(members, key) {
        Some(json) => expr_of(alloc, json),
        None => Ok(Expr::Null),
    }
}

/// The expression that a value is.
pub(crate) fn expr_of(alloc: Global, json: &OrderedJson) -> Result<Expr, AllocError>
    ensures { IfOk result (λ expr. MeansExprOr expression.Null (Some json.now) expr) }
{
    match read_expr(alloc, json) {
        Ok(expr) => Ok(expr),
        Err(_) => Err(AllocError),
    }
}

/// The invocations of the node with this id.
pub(crate) fn each_invocation(
    alloc: Global,
    node: &str,
    jsons: &[OrderedJson],
) -> Result<UnlinkedInvocations, AllocError>
    ensures { IfOk result (λ invocations. AreInvocations node.now jsons.now invocations) }
{
    let mut invocations = Vec::with_capacity(alloc, jsons.len())?;
    for (place, json) in jsons.iter().enumerate() {
        let one = invocation(alloc, node, place, members_of(json))?;
        invocations.push(one)?;
    }
    Ok(Items::from_vec(invocations))
}

/// The invocation at a place among those of the node with this id.
pub(crate) fn invocation(
    alloc: Global,
    node: &str,
    place: usize,
    members: &[Member],
) -> Result<UnlinkedInvocation, AllocError>
    ensures { IfOk result
        (λ invocation. MeansInvocation node.now place (map member_parts members.now) invocation) }
{
    Ok(UnlinkedInvocation {
        id: invoked_id(alloc, node, place, members)?,
        src: named_under(alloc, "src", members)?,
        input: expr_under(alloc, "input", members)?,
        system: text_under(alloc, "systemId", members)?,
        observed: get(members, "onSnapshot").is_some(),
    })
}

/// The id of the child of an invocation.
pub(crate) fn invoked_id(
    alloc: Global,
    node: &str,
    place: usize,
    members: &[Member],
) -> Result<Text, AllocError>
    ensures { IfOk result (λ id. id ≡ invoked_id node.now place (map member_parts members.now)) }
{
    match get(members, "id") {
        Some(json) => text_of(alloc, json),
        None => Ok(Text::from_string(format!(in alloc; "{place}.{node}")?)),
    }
}

/// The text under a key.
fn text_under(alloc: Global, key: &str, members: &[Member]) -> Result<Option<Text>, AllocError>
    ensures { IfOk result
        (λ text. text ≡ option_map text_of (get key.now (map member_parts members.now))) }
{
    match get(members, key) {
        Some(json) => Ok(Some(text_of(alloc, json)?)),
        None => Ok(None),
    }
}
