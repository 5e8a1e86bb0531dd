//! The forms of actions, from implementations in which no fault was found.

ghost use Rattle.std.specs.Prelude.{◌≡◌, IfOk, Some, map};
ghost use Rattle.ordered_json.specs.Words.{get, member_parts};
ghost use Rattle.action_table.specs.TableMeaning.{MeansAs, MeansTarget, MeansTargetPart};

use crate::parts::{both_under, members_of, name_under, optional_under, part_under, values_under};
use crate::role::{Shape, TableRole, shape_of};
use crate::table::UnlinkedForm;
use ordered_json::{Member, OrderedJson, get};
use std::alloc::{AllocError, Global};
use xs_model::Target;

/// The form of this shape that the members have, but for `enqueueActions`.
pub fn form_of_parts(
    alloc: Global,
    shape: Shape,
    members: &[Member],
) -> Result<UnlinkedForm, AllocError>
    ensures { IfOk result (λ form. MeansAs shape (map member_parts members.now) form) }
{
    match shape {
        Shape::Assign => assign(alloc, members),
        Shape::Raise => raise(alloc, members),
        Shape::SendTo => send_to(alloc, members),
        Shape::Cancel => cancel(alloc, members),
        Shape::SpawnChild => spawn_child(alloc, members),
        Shape::StopChild => stop_child(alloc, members),
        _ => Err(AllocError),
    }
}

/// `assign`.
fn assign(alloc: Global, members: &[Member]) -> Result<UnlinkedForm, AllocError>
    ensures { IfOk result (λ form. MeansAs Shape.Assign (map member_parts members.now) form) }
{
    let values = values_under(alloc, "assign", members)?;
    Ok(UnlinkedForm::Assign { values })
}

/// `raise`.
fn raise(alloc: Global, members: &[Member]) -> Result<UnlinkedForm, AllocError>
    ensures { IfOk result (λ form. MeansAs Shape.Raise (map member_parts members.now) form) }
{
    let event = part_under(alloc, "raise", members)?;
    let (delay, id) = both_under(alloc, "delay", "id", members)?;
    Ok(UnlinkedForm::Raise { event, delay, id })
}

/// `sendTo`.
fn send_to(alloc: Global, members: &[Member]) -> Result<UnlinkedForm, AllocError>
    ensures { IfOk result (λ form. MeansAs Shape.SendTo (map member_parts members.now) form) }
{
    let target = target_under(alloc, "sendTo", members)?;
    let event = part_under(alloc, "event", members)?;
    let (delay, id) = both_under(alloc, "delay", "id", members)?;
    Ok(UnlinkedForm::SendTo {
        target,
        event,
        delay,
        id,
    })
}

/// `cancel`.
fn cancel(alloc: Global, members: &[Member]) -> Result<UnlinkedForm, AllocError>
    ensures { IfOk result (λ form. MeansAs Shape.Cancel (map member_parts members.now) form) }
{
    let id = part_under(alloc, "cancel", members)?;
    Ok(UnlinkedForm::Cancel { id })
}

/// `spawnChild`.
fn spawn_child(alloc: Global, members: &[Member]) -> Result<UnlinkedForm, AllocError>
    ensures { IfOk result
        (λ form. MeansAs Shape.SpawnChild (map member_parts members.now) form) }
{
    let src = name_under(alloc, "spawnChild", members)?;
    let id = optional_under(alloc, "id", members)?;
    let (input, system) = both_under(alloc, "input", "systemId", members)?;
    Ok(UnlinkedForm::SpawnChild {
        src,
        id,
        input,
        system,
    })
}

/// `stopChild`.
fn stop_child(alloc: Global, members: &[Member]) -> Result<UnlinkedForm, AllocError>
    ensures { IfOk result
        (λ form. MeansAs Shape.StopChild (map member_parts members.now) form) }
{
    let id = part_under(alloc, "stopChild", members)?;
    Ok(UnlinkedForm::StopChild { id })
}

/// To whom is sent that stands under a key.
fn target_under(alloc: Global, key: &str, members: &[Member]) -> Result<Target, AllocError>
    ensures { IfOk result
        (λ target. MeansTargetPart (get key.now (map member_parts members.now)) target) }
{
    match get(members, key) {
        Some(json) => target_in(alloc, json),
        None => Err(AllocError),
    }
}

/// To whom is sent: a word, or the form of an object.
fn target_in(alloc: Global, json: &OrderedJson) -> Result<Target, AllocError>
    ensures { IfOk result (λ target. MeansTarget json.now target) }
{
    match json.as_text() {
        Some(text) if text.as_bytes() == b"self".as_slice() => Ok(Target::Own),
        Some(text) if text.as_bytes() == b"parent".as_slice() => Ok(Target::Parent),
        _ => target_of(alloc, json),
    }
}

/// To whom is sent where an object says it.
fn target_of(alloc: Global, json: &OrderedJson) -> Result<Target, AllocError>
    ensures { IfOk result (λ target. MeansTarget json.now target) }
{
    let members = members_of(json);
    match shape_of(TableRole::Target, members) {
        Some(Shape::Child) => Ok(Target::Child(part_under(alloc, "child", members)?)),
        Some(Shape::System) => Ok(Target::System(part_under(alloc, "system", members)?)),
        _ => Err(AllocError),
    }
}
