//! Whether an office is valid.

ghost use Rattle.std.specs.Prelude.{◌↔◌, All, IfOk, IsTrue, length};
ghost use Rattle.guard_eval.specs.Definitions.{IsWellFormed};
ghost use Rattle.office_types.specs.ValidOffice.{IsActor, IsValidOffice};
ghost use Rattle.action_table.specs.Definitions.{office_definitions};
ghost use Rattle.snapshot_text.specs.Validity.{AreStatecharts, HasPlainParts, RecordsRise, StandOnce};

mod actors;
mod callers;
mod configurations;
mod distinct;
mod events;
mod histories;
mod kinds;
mod letters;
mod limits;
mod lookups;
mod names;
mod own_parts;
mod parents;
mod regions;
mod timers;

use crate::validity::actors::are_actors;
use crate::validity::callers::{are_callers, are_callers_once};
use crate::validity::letters::{are_all_letters, are_letters_once};
use crate::validity::limits::{has_numbers_left, is_within_limits};
use crate::validity::lookups::do_records_rise;
use crate::validity::names::{are_names_of, are_names_once};
use crate::validity::parents::{do_kids_have_parents, do_numbers_rise, listed_kids};
use crate::validity::timers::{are_timer_ids_once, are_timers, do_timers_rise};
use action_table::Defs;
use office_types::OfficeState;
use std::alloc::{AllocError, Global};

/// Whether the office is valid under these definitions. It looks at each part once or twice; records,
/// letters, timers, names and callers are found by halves or sorted, and history is judged in the size of
/// what was recorded times the depth of the tree. It takes memory for the sorted numbers and names.
pub fn is_valid_office(alloc: Global, defs: &Defs, state: &OfficeState) -> Result<bool, AllocError>
    requires { All (IsWellFormed (length defs.now.actors)) defs.now.defs }
    ensures { IfOk result (λ valid. IsTrue valid
        ↔ IsValidOffice (office_definitions defs.now) state.now) }
{
    let actors = state.actors.as_slice();
    if !do_records_rise(actors) {
        return Ok(false);
    }
    if !has_plain_parts(state) {
        return Ok(false);
    }
    if !stand_once(alloc, state)? {
        return Ok(false);
    }
    has_valid_actors(alloc, defs, state)
}

/// Whether all parts but the records are ones that an office may have, each on its own.
fn has_plain_parts(state: &OfficeState) -> bool
    requires { RecordsRise state.now.actors }
    ensures { IsTrue result ↔ HasPlainParts state.now }
{
    if !has_numbers_left(state) {
        return false;
    }
    if !is_within_limits(state) {
        return false;
    }
    if !are_all_letters(state) {
        return false;
    }
    if !are_timers(state) {
        return false;
    }
    let timers = state.timers.as_slice();
    if !do_timers_rise(timers) {
        return false;
    }
    let actors = state.actors.as_slice();
    let names = state.names.as_slice();
    if !are_names_of(actors, names) {
        return false;
    }
    let callers = state.callers.as_slice();
    are_callers(callers)
}

/// Whether no letter, id of a timer, name or caller stands twice.
fn stand_once(alloc: Global, state: &OfficeState) -> Result<bool, AllocError>
    ensures { IfOk result (λ once. IsTrue once ↔ StandOnce state.now) }
{
    if !are_letters_once(alloc, state)? {
        return Ok(false);
    }
    let timers = state.timers.as_slice();
    if !are_timer_ids_once(alloc, timers)? {
        return Ok(false);
    }
    let names = state.names.as_slice();
    if !are_names_once(alloc, names)? {
        return Ok(false);
    }
    let callers = state.callers.as_slice();
    are_callers_once(alloc, callers)
}

/// Whether each record is one that an actor may have.
fn has_valid_actors(alloc: Global, defs: &Defs, state: &OfficeState) -> Result<bool, AllocError>
    requires statecharts { AreStatecharts defs.now }
    requires rise { RecordsRise state.now.actors }
    ensures { IfOk result (λ valid. IsTrue valid
        ↔ All (IsActor (office_definitions defs.now) state.now) state.now.actors) }
{
    if !do_kids_have_parents(state) {
        return Ok(false);
    }
    let actors = state.actors.as_slice();
    let sorted = listed_kids(alloc, actors)?;
    let listed = sorted.as_slice();
    if !do_numbers_rise(listed) {
        return Ok(false);
    }
    are_actors(alloc, defs, state, listed)
}
