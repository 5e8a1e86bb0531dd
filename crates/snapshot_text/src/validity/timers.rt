//! Timers.

ghost use Rattle.std.specs.Prelude.{◌≡◌, ◌↔◌, All, AllPairs, IfOk, IfSome, IsTrue, map};
ghost use Rattle.std.specs.List.{filter_map};
ghost use Rattle.std.specs.List.Sorted.{IsStrictlyIncreasing};
ghost use Rattle.office_types.specs.declared.office.Timer.{Timer as timer};
ghost use Rattle.office_types.specs.Limits.{is_name};
ghost use Rattle.office_types.specs.ValidOffice.{AreOfOneId, IsTimer};
ghost use Rattle.snapshot_text.specs.Validity.{RecordsRise, timer_key};

use crate::validity::distinct::are_distinct;
use crate::validity::events::{begins_actor, is_event, is_name};
use crate::validity::limits::is_given;
use crate::validity::lookups::is_active_machine;
use office_types::{OfficeState, Timer};
use std::alloc::{AllocError, Global};
use xs_data::Text;

/// Whether each timer is one that may stand. It costs a look-up by halves for each.
pub(crate) fn are_timers(state: &OfficeState) -> bool
    requires { RecordsRise state.now.actors }
    ensures { IsTrue result ↔ All (IsTimer state.now) state.now.timers }
{
    state
        .timers
        .as_slice()
        .iter()
        .all(|timer| is_timer(state, timer))
}

fn is_timer(state: &OfficeState, timer: &Timer) -> bool
    requires { RecordsRise state.now.actors }
    ensures { IsTrue result ↔ IsTimer state.now timer.now }
{
    is_given(state.next_timer, timer.order)
        && is_active_machine(state, timer.owner)
        && is_given(state.next_actor, timer.target)
        && is_name_if_some(&timer.id)
        && is_event(&timer.event)
        && !begins_actor(&timer.event)
}

/// Whether there is no name, or one of the length that names have.
pub(crate) fn is_name_if_some(name: &Option<Text>) -> bool
    ensures { IsTrue result ↔ IfSome name.now (λ name. IsTrue (is_name name)) }
{
    match name {
        Some(name) => is_name(name.as_bytes()),
        None => true,
    }
}

/// Whether timers stand by rising numbers.
pub(crate) fn do_timers_rise(timers: &[Timer]) -> bool
    ensures { IsTrue result
        ↔ IsStrictlyIncreasing (map (λ (timer : timer). timer.order) timers.now) }
{
    for place in 1..timers.len() {
        if timers[place - 1].order >= timers[place].order {
            return false;
        }
    }
    true
}

/// Whether no owner has two timers of one id. It sorts the owners and ids of those that have one.
pub(crate) fn are_timer_ids_once(alloc: Global, timers: &[Timer]) -> Result<bool, AllocError>
    ensures { IfOk result (λ once. IsTrue once ↔ AllPairs (λ a b. AreOfOneId a b → ⊥) timers.now) }
{
    Ok(are_distinct(timer_keys(alloc, timers)?))
}

/// The owner and the id of each timer that has one.
fn timer_keys<'a>(alloc: Global, timers: &'a [Timer]) -> Result<Vec<(u64, &'a [u8])>, AllocError>
    ensures { IfOk result (λ keys.
        map (λ key. (key.0, key.1.now)) keys.items ≡ filter_map timer_key timers.now) }
{
    let mut keys = Vec::new(alloc);
    for timer in timers {
        let Some(id) = &timer.id else {
            continue;
        };
        keys.push((timer.owner, id.as_bytes()))?;
    }
    Ok(keys)
}
