//! Records of actors.

ghost use Rattle.std.specs.Prelude.{◌≡◌, ◌↔◌, All, Contains, IfOk, IfSome, IsTrue, false};
ghost use Rattle.xs_model.specs.declared.value.Value.TheVariants.{Null as null_value};
ghost use Rattle.office_types.specs.Records.{is_active};
ghost use Rattle.office_types.specs.ValidOffice.{HasEnded, IsActor, IsChildOf};
ghost use Rattle.action_table.specs.Definitions.{office_definitions};
ghost use Rattle.snapshot_text.specs.Validity.{AreListedOnce, AreStatecharts, HasItsValues, HaveParents, IsPlainRecord, RecordsRise};

use crate::validity::kinds::is_of_one_kind;
use crate::validity::letters::do_letters_rise;
use crate::validity::limits::{is_active, is_given};
use crate::validity::lookups::is_within_levels;
use crate::validity::parents::is_child_of;
use crate::validity::timers::is_name_if_some;
use action_table::Defs;
use office_types::{ActorRecord, OfficeState, Status, is_short};
use std::alloc::{AllocError, Global};
use xs_model::Value;

/// Whether each record is one that an actor may have.
pub(crate) fn are_actors(
    alloc: Global,
    defs: &Defs,
    state: &OfficeState,
    listed: &[u64],
) -> Result<bool, AllocError>
    requires statecharts { AreStatecharts defs.now }
    requires rise { RecordsRise state.now.actors }
    requires parents { HaveParents state.now }
    requires listed { AreListedOnce state.now listed.now }
    ensures { IfOk result (λ valid. IsTrue valid
        ↔ All (IsActor (office_definitions defs.now) state.now) state.now.actors) }
{
    for actor in state.actors.as_slice() {
        if !is_actor(alloc, defs, state, listed, actor)? {
            return Ok(false);
        }
    }
    Ok(true)
}

fn is_actor(
    alloc: Global,
    defs: &Defs,
    state: &OfficeState,
    listed: &[u64],
    actor: &ActorRecord,
) -> Result<bool, AllocError>
    requires statecharts { AreStatecharts defs.now }
    requires rise { RecordsRise state.now.actors }
    requires parents { HaveParents state.now }
    requires listed { AreListedOnce state.now listed.now }
    requires actor { Contains state.now.actors actor.now }
    ensures { IfOk result (λ valid. IsTrue valid
        ↔ IsActor (office_definitions defs.now) state.now actor.now) }
{
    if !is_given(state.next_actor, actor.number) {
        return Ok(false);
    }
    if !has_its_parent(state, listed, actor) {
        return Ok(false);
    }
    if !is_within_levels(state, actor.number) {
        return Ok(false);
    }
    if !is_plain(actor) {
        return Ok(false);
    }
    is_of_one_kind(alloc, defs, actor)
}

fn has_its_parent(state: &OfficeState, listed: &[u64], actor: &ActorRecord) -> bool
    requires rise { RecordsRise state.now.actors }
    requires parents { HaveParents state.now }
    requires listed { AreListedOnce state.now listed.now }
    requires actor { Contains state.now.actors actor.now }
    ensures { IsTrue result ↔ IfSome actor.now.parent (IsChildOf state.now actor.now) }
{
    match actor.parent {
        Some(parent) => is_child_of(state, listed, actor, parent),
        None => true,
    }
}

/// Whether an actor's end, name, values and mailbox are such as it may have.
fn is_plain(actor: &ActorRecord) -> bool
    ensures { IsTrue result ↔ IsPlainRecord actor.now }
{
    if !has_ended_if_it_has(actor) {
        return false;
    }
    if !has_its_values(actor) {
        return false;
    }
    if !is_name_if_some(&actor.system) {
        return false;
    }
    let letters = actor.mailbox.as_slice();
    do_letters_rise(letters)
}

fn has_ended_if_it_has(actor: &ActorRecord) -> bool
    ensures { IsTrue result ↔ (is_active actor.now ≡ false → HasEnded actor.now) }
{
    if is_active(actor) {
        true
    } else {
        has_ended(actor)
    }
}

/// Whether the output and the error are short, and null unless the actor is done or in error.
fn has_its_values(actor: &ActorRecord) -> bool
    ensures { IsTrue result ↔ HasItsValues actor.now }
{
    if !is_short(&actor.output) {
        return false;
    }
    if !is_short(&actor.error) {
        return false;
    }
    match actor.status {
        Status::Active => is_null(&actor.output) && is_null(&actor.error),
        Status::Done => is_null(&actor.error),
        Status::Error => is_null(&actor.output),
        Status::Stopped => is_null(&actor.output) && is_null(&actor.error),
    }
}

fn has_ended(actor: &ActorRecord) -> bool
    ensures { IsTrue result ↔ HasEnded actor.now }
{
    actor.mailbox.is_empty() && actor.system.is_none()
}

fn is_null(value: &Value) -> bool
    ensures { IsTrue result ↔ (value.now ≡ null_value) }
{
    matches!(value, Value::Null)
}
