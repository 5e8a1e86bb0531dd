//! The outer shape of a definitions text.

ghost use Rattle.std.specs.Prelude.{◌≡◌, MatchResult, map};
ghost use Rattle.machine_json.specs.FirstFaults.{IsLeastPlace};
ghost use Rattle.std.specs.Option.{option_copied};
ghost use Rattle.ordered_json.specs.Words.{member_parts};
ghost use Rattle.action_table.specs.OuterShape.{HasOuterShape, HasShapeFault, IsMachinesFault, IsNoObject, IsOtherMember, IsPlaceAmong, IsTablePartFault, is_outer_key};
ghost use Rattle.action_table.specs.TablePlaces.{IsLeastOf};

use crate::first::least_of;
use ordered_json::{Member, OrderedJson, get, get_list};

/// The texts of the machines, and the implementations: the parts of a text in its outer shape, an
/// object with exactly the members `machines`, a list of objects, and `implementations`, an object.
/// Otherwise the least place at which the text is out of it.
pub(crate) fn outer_parts(json: &OrderedJson) -> Result<(&[OrderedJson], &OrderedJson), usize>
    ensures { MatchResult result (λ parts. HasOuterShape json.now parts.0.now parts.1.now)
        (λ place. IsLeastPlace (HasShapeFault json.now) place) }
{
    if let Some(place) = shape_fault(json) {
        return Err(place);
    }
    let Some(members) = json.as_object() else {
        unreachable!();
    };
    let Some(machines) = get_list(members, "machines") else {
        unreachable!();
    };
    let Some(implementations) = get(members, "implementations") else {
        unreachable!();
    };
    Ok((machines, implementations))
}

/// The least place at which a text is out of its outer shape.
fn shape_fault(json: &OrderedJson) -> Option<usize>
    ensures { IsLeastOf (HasShapeFault json.now) result }
{
    let Some(members) = json.as_object() else {
        return Some(json.place());
    };
    let key = first_other(members);
    let machines = machines_fault(get(members, "machines"));
    let table = table_part_fault(get(members, "implementations"));
    least_of(least_of(key, machines), table)
}

/// The least place of a member with another key.
fn first_other(members: &[Member]) -> Option<usize>
    ensures { IsLeastOf (IsPlaceAmong IsOtherMember (map member_parts members.now)) result }
{
    let mut least = None;
    for member in members {
        least = least_of(least, other_member(member));
    }
    least
}

/// The place of a member with another key.
fn other_member(member: &Member) -> Option<usize>
    ensures { IsLeastOf (IsOtherMember (member_parts member.now)) result }
{
    if is_outer_key(member.key.as_bytes()) {
        None
    } else {
        Some(member.key_place)
    }
}

/// Whether the text has the key.
fn is_outer_key(key: &[u8]) -> bool
    ensures { result ≡ is_outer_key key.now }
{
    key == b"machines".as_slice() || key == b"implementations".as_slice()
}

/// The least place of a fault of the machines, each taken alone.
fn machines_fault(part: Option<&OrderedJson>) -> Option<usize>
    ensures { IsLeastOf (IsMachinesFault (option_copied part.entry)) result }
{
    let Some(json) = part else {
        return Some(0);
    };
    match json.as_list() {
        Some(items) => first_no_object(items),
        None => Some(json.place()),
    }
}

/// The least place of an item that is no object.
fn first_no_object(items: &[OrderedJson]) -> Option<usize>
    ensures { IsLeastOf (IsPlaceAmong IsNoObject items.now) result }
{
    let mut least = None;
    for item in items {
        least = least_of(least, no_object(item));
    }
    least
}

/// The place of a value that is no object.
fn no_object(json: &OrderedJson) -> Option<usize>
    ensures { IsLeastOf (IsNoObject json.now) result }
{
    if json.is_object() {
        None
    } else {
        Some(json.place())
    }
}

/// The place of a fault of the implementations, taken as an object alone.
fn table_part_fault(part: Option<&OrderedJson>) -> Option<usize>
    ensures { IsLeastOf (IsTablePartFault (option_copied part.entry)) result }
{
    match part {
        Some(json) => no_object(json),
        None => Some(0),
    }
}
