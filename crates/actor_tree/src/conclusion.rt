//! The parts of what follows the effects of a step.

ghost use Rattle.std.specs.Prelude.{◌≡◌, ◌&&◌, ◌<◌, Some, IfOk, length};
ghost use Rattle.std.specs.List.{list_any};
ghost use Rattle.std.specs.List.Sorted.{IsStrictlyIncreasing};
ghost use Rattle.std.specs.Option.{option_map_or};
ghost use Rattle.std.specs.Str.{bytes_eq};
ghost use Rattle.guard_eval.specs.declared.def.Invocation.{Invocation as invocation};
ghost use Rattle.office_types.specs.Definitions.{observed_at};
ghost use Rattle.office_types.specs.Ends.{after_done, after_failure, child_id};
ghost use Rattle.office_types.specs.Observation.{after_observation, is_observed, observes, short_snapshot_event, snapshot_of};
ghost use Rattle.office_types.specs.Records.{parent_actor};
ghost use Rattle.office_types.specs.Step.{after_conclusion};
ghost use Rattle.action_table.specs.Definitions.{office_definitions};
ghost use Rattle.actor_tree.specs.Changes.{Concludes};
ghost use Rattle.actor_tree.specs.Parts.{CanPutAll, put};

use crate::ahead::Ahead;
use crate::events::{done_event, error_event, snapshot, snapshot_event};
use crate::part::Parts;
use crate::unfit::Unfit;
use action_table::Defs;
use guard_eval::Invocation;
use office_types::{End, FaultName, Own, is_short, state_value};
use std::alloc::{AllocError, Global};
use xs_model::{Value, copy};

/// Adds the parts of what follows the effects: an actor that stays active tells a parent that
/// observes it what it is now, and one that ends tells its parent of its end.
pub(crate) fn add_conclusion(
    alloc: Global,
    defs: &Defs,
    own: &Own,
    end: &End,
    ahead: Ahead<'_>,
) -> Result<Parts, Unfit>
    requires machine { own.now.def < length defs.now.defs }
    requires in_order { IsStrictlyIncreasing own.now.nodes }
    ensures concludes { Concludes
        (λ a. after_conclusion (office_definitions defs.now) a.actor own.now end.now a.office)
        ahead.entry result }
{
    match end {
        End::Active => add_observation(alloc, defs, own, ahead),
        End::Done(output) => add_done(alloc, output, ahead),
        End::Error(error) => Ok(add_failure(alloc, error, ahead)?),
    }
}

/// Adds the end of an actor that is done, and the letter that tells its parent.
fn add_done(alloc: Global, output: &Value, ahead: Ahead<'_>) -> Result<Parts, Unfit>
    ensures concludes { Concludes (λ a. after_done a.actor output.now a.office) ahead.entry result }
{
    let ended = ahead.done(alloc, copy(alloc, output)?)?;
    let Some(parent) = ended.parent() else {
        return Ok(ended.into_parts());
    };
    if !ended.has_letter_room(1) {
        return Err(Unfit::Fault(FaultName::LettersFull));
    }
    let event = done_event(alloc, copy(alloc, output)?, ended.child_id(parent))?;
    Ok(ended.mail(parent, event)?)
}

/// Adds the end of an actor in error, and the letter that tells its parent if it finds room and a
/// number.
pub(crate) fn add_failure(
    alloc: Global,
    error: &Value,
    ahead: Ahead<'_>,
) -> Result<Parts, AllocError>
    ensures office { IfOk result (λ parts. put ahead.entry.before parts
        ≡ after_failure ahead.entry.actor error.now ahead.entry.office) }
    ensures fits { IfOk result (CanPutAll ahead.entry.before) }
{
    let ended = ahead.fail(alloc, copy(alloc, error)?)?;
    let Some(parent) = ended.parent() else {
        return Ok(ended.into_parts());
    };
    if !ended.has_letter_room(1) {
        return Ok(ended.into_parts());
    }
    let event = error_event(alloc, copy(alloc, error)?, ended.child_id(parent))?;
    ended.mail(parent, event)
}

/// Adds the letter that tells a parent what the actor is now, if the parent observes it.
fn add_observation(alloc: Global, defs: &Defs, own: &Own, ahead: Ahead<'_>) -> Result<Parts, Unfit>
    requires machine { own.now.def < length defs.now.defs }
    requires in_order { IsStrictlyIncreasing own.now.nodes }
    ensures concludes { Concludes
        (λ a. after_observation (office_definitions defs.now) a.actor own.now a.office)
        ahead.entry result }
{
    let Some(parent) = ahead.parent() else {
        return Ok(ahead.into_parts());
    };
    if !is_observed_by(defs, &ahead, parent) {
        return Ok(ahead.into_parts());
    }
    if !ahead.has_letter_room(1) {
        return Err(Unfit::Fault(FaultName::LettersFull));
    }
    let event = short_snapshot(alloc, defs, own, ahead.child_id(parent))?;
    let ahead = ahead.mail(parent, event)?;
    Ok(ahead.into_parts())
}

/// Whether the actor's parent, which is this one, observes it.
fn is_observed_by(defs: &Defs, ahead: &Ahead<'_>, parent: u64) -> bool
    requires { parent_actor ahead.now.office ahead.now.actor ≡ Some parent }
    ensures { result ≡ is_observed (office_definitions defs.now) ahead.now.office ahead.now.actor }
{
    match ahead.own_of_parent(parent) {
        Some(own) => observes(defs, own, ahead.child_id(parent)),
        None => false,
    }
}

/// Whether an active node has an invocation with `onSnapshot` of this id. It looks at the invocations
/// of each active node.
fn observes(defs: &Defs, own: &Own, id: &str) -> bool
    ensures { result ≡ observes (office_definitions defs.now) own.now id.now }
{
    own.nodes
        .as_slice()
        .iter()
        .any(|node| observes_at(defs, own.def, *node, id))
}

/// Whether a node has an invocation with `onSnapshot` of this id.
fn observes_at(defs: &Defs, machine: u32, node: u32, id: &str) -> bool
    ensures { result
        ≡ list_any (bytes_eq id.now) (observed_at (office_definitions defs.now) machine node) }
{
    let Some(def) = defs.defs.get(machine) else {
        return false;
    };
    let Some(said) = def.nodes.get(node as usize) else {
        return false;
    };
    has_observing(said.invoke.as_slice(), id)
}

/// Whether one of these invocations is with `onSnapshot` and of this id.
fn has_observing(invocations: &[Invocation], id: &str) -> bool
    ensures { result ≡ list_any
        (λ (one : invocation). one.observed && bytes_eq id.now one.id) invocations.now }
{
    invocations.iter().any(|one| is_observing(one, id))
}

/// Whether an invocation is with `onSnapshot` and of this id.
fn is_observing(invocation: &Invocation, id: &str) -> bool
    ensures { result ≡ (invocation.now.observed && bytes_eq id.now invocation.now.id) }
{
    invocation.observed && id.as_bytes() == invocation.id.as_bytes()
}

/// The event that tells a parent what an actor is now. Where it would be too long the snapshot is
/// null.
fn short_snapshot(alloc: Global, defs: &Defs, own: &Own, id: &str) -> Result<Value, AllocError>
    requires machine { own.now.def < length defs.now.defs }
    requires in_order { IsStrictlyIncreasing own.now.nodes }
    ensures { IfOk result (λ event. event
        ≡ short_snapshot_event (snapshot_of (office_definitions defs.now) own.now) id.now) }
{
    let event = snapshot_event(alloc, snapshot_of(alloc, defs, own)?, id)?;
    if is_short(&event) {
        return Ok(event);
    }
    snapshot_event(alloc, Value::Null, id)
}

/// The context and the state value of an own part.
fn snapshot_of(alloc: Global, defs: &Defs, own: &Own) -> Result<Value, AllocError>
    requires machine { own.now.def < length defs.now.defs }
    requires in_order { IsStrictlyIncreasing own.now.nodes }
    ensures { IfOk result (λ value. value ≡ snapshot_of (office_definitions defs.now) own.now) }
{
    let Some(def) = defs.defs.get(own.def) else {
        unreachable!()
    };
    let value = state_value(alloc, &def.tree, own.nodes.as_slice())?;
    snapshot(alloc, copy(alloc, &own.context)?, value)
}
