//! The first fault among the implementations.

ghost use Rattle.std.specs.Prelude.{◌≡◌, map, IfOk};
ghost use Rattle.ordered_json.specs.Words.{member_parts};
ghost use Rattle.machine_json.specs.declared.expressions.FormPlace.TheVariants.{AtOperator};
ghost use Rattle.machine_json.specs.Expressions.{HasUnknownForm};
ghost use Rattle.action_table.specs.TablePlaces.{HasItemFault, HasMemberFault, HasTableFault, IsLeastOf, least_of};

use crate::role::{Shape, TableRole, is_complete, key_role, list_role, shape_of, takes};
use machine_json::{FormFault, FormPlace, read_form};
use ordered_json::{Member, OrderedJson};
use std::alloc::{AllocError, Global};

/// The least place of a fault of a value that stands there. It looks at each part once.
#[cycle(first_fault)]
pub fn first_fault(
    alloc: Global,
    role: TableRole,
    json: &OrderedJson,
) -> Result<Option<usize>, AllocError>
    ensures { IfOk result (λ found. IsLeastOf (HasTableFault role json.now) found) }
{
    if let TableRole::Expression = role {
        return unknown_form(alloc, json);
    }
    if !takes(role, json) {
        return Ok(Some(json.place()));
    }
    match json {
        OrderedJson::Object { place, members } => {
            let shape = shape_of(role, members.as_slice());
            let own = if is_complete(role, shape, members.as_slice()) {
                None
            } else {
                Some(*place)
            };
            let inner = first_of_members(alloc, role, shape, members.as_slice())?;
            Ok(least_of(own, inner))
        }
        OrderedJson::List { items, .. } => match list_role(role) {
            Some(part) => first_of_items(alloc, part, items.as_slice()),
            None => Ok(None),
        },
        OrderedJson::Null { .. }
        | OrderedJson::Bool { .. }
        | OrderedJson::Int { .. }
        | OrderedJson::Text { .. } => Ok(None),
    }
}

/// The least place of an unknown form of an expression.
fn unknown_form(alloc: Global, json: &OrderedJson) -> Result<Option<usize>, AllocError>
    ensures { IfOk result (λ found. IsLeastOf (HasUnknownForm AtOperator json.now) found) }
{
    match read_form(alloc, json, FormPlace::AtOperator).err() {
        None => Ok(None),
        Some(FormFault::Unknown(place)) => Ok(Some(place)),
        Some(FormFault::Memory) => Err(AllocError),
    }
}

/// The least place of a fault of the members of an object of this form.
#[cycle(first_fault)]
fn first_of_members(
    alloc: Global,
    role: TableRole,
    shape: Option<Shape>,
    members: &[Member],
) -> Result<Option<usize>, AllocError>
    ensures { IfOk result
        (λ found. IsLeastOf (HasMemberFault role shape (map member_parts members.now)) found) }
{
    let mut least = None;
    for member in members {
        let found = match key_role(role, shape, member.key.as_bytes()) {
            Some(part) => first_fault(alloc, part, &member.value)?,
            None => Some(member.key_place),
        };
        least = least_of(least, found);
    }
    Ok(least)
}

/// The least place of a fault of the items of a list.
#[cycle(first_fault)]
fn first_of_items(
    alloc: Global,
    role: TableRole,
    items: &[OrderedJson],
) -> Result<Option<usize>, AllocError>
    ensures { IfOk result (λ found. IsLeastOf (HasItemFault role items.now) found) }
{
    let mut least = None;
    for item in items {
        least = least_of(least, first_fault(alloc, role, item)?);
    }
    Ok(least)
}

/// The lesser of two places that there may be.
pub(crate) fn least_of(first: Option<usize>, second: Option<usize>) -> Option<usize>
    ensures { result ≡ least_of first second }
{
    match (first, second) {
        (Some(place), Some(other)) => Some(place.min(other)),
        (None, found) => found,
        (found, None) => found,
    }
}
