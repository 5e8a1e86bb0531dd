//! The parts of what a forest holds, made of the records of an office.

ghost use Rattle.std.specs.Prelude.{◌≡◌, ◌≢◌, ◌≤◌, ℕ, List, Some, IfOk, AllPairs, filter, length, map, sum_by, if◌then◌else◌};
ghost use Rattle.std.specs.List.{AllByRecursion, filter_map};
ghost use Rattle.std.specs.List.Sorted.{IsStrictlyIncreasing};
ghost use Rattle.office_types.specs.declared.office.ActorRecord.{ActorRecord};
ghost use Rattle.office_types.specs.declared.office.Timer.{Timer};
ghost use Rattle.office_types.specs.Records.{is_active};
ghost use Rattle.office_types.specs.ValidOffice.{AreOfOneId};
ghost use Rattle.office_types.specs.WorkItems.{open_item};
ghost use Rattle.actor_tree.specs.Actors.{records_of};
ghost use Rattle.actor_tree.specs.HeldOffice.{HasOwnItem};

use crate::actor::Actor;
use crate::books::{add_timer, hold_name, open_new_item};
use crate::ending::Uncounted;
use crate::records::actor_of;
use delay_queue::Timers;
use office_books::{Items, Registry, Slots};
use office_types::{
    ActorRecord, Item, MAX_ACTIVE_ACTORS, MAX_LETTERS, Status, Timer, copy_item, copy_timer,
};
use std::alloc::{AllocError, Global};
use xs_data::Text;

/// What a forest has of the actors of these records. It costs as much as they are large.
pub(crate) fn restore_actors(
    alloc: Global,
    actors: &[ActorRecord],
) -> Result<Slots<Actor>, AllocError>
    requires { IsStrictlyIncreasing
        (map (λ (actor : ActorRecord). actor.number) actors.now) }
    ensures { IfOk result (λ made. records_of made.items ≡ actors.now) }
{
    let mut made = Slots::new(alloc);
    for actor in actors {
        let held = actor_of(alloc, actor)?;
        made.reserve(1)?;
        made.push(actor.number, held);
    }
    Ok(made)
}

/// The items of the active ones.
pub(crate) fn restore_items(alloc: Global, actors: &[ActorRecord]) -> Result<Items, AllocError>
    requires rise { IsStrictlyIncreasing
        (map (λ (actor : ActorRecord). actor.number) actors.now) }
    requires own { AllByRecursion HasOwnItem actors.now }
    ensures { IfOk result (λ made. made.items ≡ filter_map open_item actors.now) }
{
    let mut made = Items::new(alloc);
    for actor in actors {
        let item = copy_open_item(alloc, actor)?;
        made.reserve(1)?;
        open_new_item(&mut made, item);
    }
    Ok(made)
}

/// The item of an actor that is active.
fn copy_open_item(alloc: Global, actor: &ActorRecord) -> Result<Option<Item>, AllocError>
    ensures { IfOk result (λ made. made ≡ open_item actor.now) }
{
    match (&actor.item, actor.status) {
        (Some(item), Status::Active) => Ok(Some(copy_item(alloc, item)?)),
        _ => Ok(None),
    }
}

/// The names that actors hold, each by one of them.
pub(crate) fn restore_names(alloc: Global, names: &[(Text, u64)]) -> Result<Registry, AllocError>
    requires rise { IsStrictlyIncreasing (map (λ (holder : List ℕ × ℕ). holder.1) names.now) }
    requires once { AllPairs (λ (a b : List ℕ × ℕ). a.0 ≢ b.0) names.now }
    ensures { IfOk result (λ made. made.names ≡ names.now) }
{
    let mut made = Registry::new(alloc);
    for (name, actor) in names {
        let name = name.copy(alloc)?;
        made.reserve(1)?;
        hold_name(&mut made, Some(name), *actor);
    }
    Ok(made)
}

/// The timers, no two of which have one owner and one id.
pub(crate) fn restore_timers(alloc: Global, timers: &[Timer]) -> Result<Timers, AllocError>
    requires rise { IsStrictlyIncreasing (map (λ (timer : Timer). timer.order) timers.now) }
    requires once { AllPairs (λ a b. AreOfOneId a b → ⊥) timers.now }
    ensures { IfOk result (λ made. made.timers ≡ timers.now) }
{
    let mut made = Timers::new(alloc);
    for timer in timers {
        let timer = copy_timer(alloc, timer)?;
        made.reserve(1)?;
        add_timer(&mut made, timer);
    }
    Ok(made)
}

/// How many actors are active, and how many letters wait for all of them.
pub(crate) fn count_all(actors: &[ActorRecord]) -> Uncounted
    requires few { length (filter is_active actors.now) ≤ MAX_ACTIVE_ACTORS }
    requires few_letters { sum_by (λ (actor : ActorRecord). length actor.mailbox) actors.now
        ≤ MAX_LETTERS }
    ensures active { result.active ≡ length (filter is_active actors.now) }
    ensures letters { result.letters
        ≡ sum_by (λ (actor : ActorRecord). length actor.mailbox) actors.now }
{
    let mut active = 0;
    let mut letters = 0;
    for actor in actors {
        letters += actor.mailbox.len() as u64;
        active += one_if_active(actor);
    }
    Uncounted { active, letters }
}

fn one_if_active(actor: &ActorRecord) -> u64
    ensures value { result ≡ (if is_active actor.now then 1 else 0) }
    ensures at_most_one { result ≤ 1 }
{
    match actor.status {
        Status::Active => 1,
        Status::Done | Status::Error | Status::Stopped => 0,
    }
}
