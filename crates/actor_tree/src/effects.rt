//! The parts of a step's effects.

ghost use Rattle.std.specs.Prelude.{◌≡◌, ◌≤◌, ℕ, List, Err, None, IfNone, IfOk, IfSome, slice_get};
ghost use Rattle.std.specs.Option.{option_map};
ghost use Rattle.xs_model.specs.declared.value.Value.{Value as value};
ghost use Rattle.office_types.specs.Effects.{after_effect, after_schedule, after_send, after_spawn, first_letters, with_child, with_item, with_logic, with_machine};
ghost use Rattle.office_types.specs.Outcomes.{IsAllowedEffect};
ghost use Rattle.action_table.specs.Definitions.{actor_logic, office_definitions};
ghost use Rattle.actor_tree.specs.Changes.{Goes, HasChildRoom};
ghost use Rattle.actor_tree.specs.Parts.{IsBorn, with_newcomer};

use crate::ahead::Ahead;
use crate::events::init_event;
use crate::newcomers::{copy_name, new_item, new_machine};
use crate::part::Newcomer;
use crate::unfit::Unfit;
use action_table::{Actor as Logic, Defs};
use office_types::{Effect, FaultName, Item, Letter, MAX_MOMENT, Origin, Timer, To};
use std::alloc::{AllocError, Global};
use xs_data::Text;
use xs_model::{Value, copy};

/// Adds the parts of one effect, or names what stands against it. It costs what the effect is large;
/// a stop costs what is removed.
pub(crate) fn add_effect<'a>(
    alloc: Global,
    defs: &Defs,
    effect: &Effect,
    ahead: Ahead<'a>,
) -> Result<Ahead<'a>, Unfit>
    requires allowed { (ids : List (List ℕ))
        × IsAllowedEffect (office_definitions defs.now) ids effect.now }
    ensures goes { Goes
        (λ a. after_effect (office_definitions defs.now) a.actor effect.now a.office)
        ahead.entry result }
{
    match effect {
        Effect::Send { to, event } => add_send(alloc, to, event, ahead),
        Effect::Schedule {
            id,
            delay,
            to,
            event,
        } => add_timer(alloc, id, *delay, to, event, ahead),
        Effect::Cancel { id } => Ok(ahead.cancel(alloc, id.copy(alloc)?)?),
        Effect::Spawn {
            id,
            src,
            input,
            system,
        } => add_child(alloc, defs, id, *src, input, system, ahead),
        Effect::Stop { id } => Ok(ahead.stop(alloc, id.copy(alloc)?)?),
    }
}

/// Adds a letter to where a send goes.
fn add_send<'a>(alloc: Global, to: &To, event: &Value, ahead: Ahead<'a>) -> Result<Ahead<'a>, Unfit>
    ensures goes { Goes (λ a. after_send a.actor to.now event.now a.office)
        ahead.entry result }
{
    let Some(receiver) = ahead.receiver_of(to) else {
        return Ok(ahead);
    };
    if !ahead.has_letter_room(1) {
        return Err(Unfit::Fault(FaultName::LettersFull));
    }
    Ok(ahead.mail(receiver, copy(alloc, event)?)?)
}

/// Adds a timer for where a send goes.
fn add_timer<'a>(
    alloc: Global,
    id: &Option<Text>,
    delay: u64,
    to: &To,
    event: &Value,
    ahead: Ahead<'a>,
) -> Result<Ahead<'a>, Unfit>
    requires delay { delay ≤ MAX_MOMENT }
    ensures goes { Goes (λ a. after_schedule a.actor id.now delay to.now event.now a.office)
        ahead.entry result }
{
    let Some(target) = ahead.receiver_of(to) else {
        return Ok(ahead);
    };
    if !ahead.has_timer_room(id) {
        return Err(Unfit::Fault(FaultName::TimersFull));
    }
    let timer = Timer {
        order: ahead.next_timer(),
        owner: ahead.actor(),
        target,
        due: ahead.moment() + delay,
        id: copy_name(alloc, id)?,
        event: copy(alloc, event)?,
    };
    Ok(ahead.schedule(alloc, timer)?)
}

/// Adds a child of a row of the table of actors.
fn add_child<'a>(
    alloc: Global,
    defs: &Defs,
    id: &Text,
    src: u32,
    input: &Value,
    system: &Option<Text>,
    ahead: Ahead<'a>,
) -> Result<Ahead<'a>, Unfit>
    ensures goes { Goes (λ a. after_spawn (office_definitions defs.now)
        a.actor id.now src input.now system.now a.office) ahead.entry result }
{
    match row_of(defs, src) {
        Some((name, logic)) => add_child_of(alloc, id, name, logic, input, system, ahead),
        None => Ok(ahead),
    }
}

/// A row of the table of actors.
fn row_of(defs: &Defs, src: u32) -> Option<(&str, Logic)>
    ensures { option_map (λ row. actor_logic (row.0.now, row.1)) result
        ≡ slice_get (office_definitions defs.now).actors src }
{
    let (name, logic) = defs.actors.at(src as usize)?;
    Some((name, *logic))
}

/// Adds a child of this logic.
fn add_child_of<'a>(
    alloc: Global,
    id: &Text,
    name: &str,
    logic: Logic,
    input: &Value,
    system: &Option<Text>,
    ahead: Ahead<'a>,
) -> Result<Ahead<'a>, Unfit>
    ensures goes { Goes (λ a. with_child a.actor id.now (actor_logic (name.now, logic))
        input.now system.now a.office) ahead.entry result }
{
    if let Some(fault) = child_fault(&ahead, name, logic, system) {
        return Err(Unfit::Fault(fault));
    }
    let child = child_of(alloc, &ahead, name, logic, input, system)?;
    Ok(ahead.spawn(alloc, id.copy(alloc)?, child)?)
}

/// What stands against a child of this logic under a system name.
fn child_fault(
    ahead: &Ahead<'_>,
    name: &str,
    logic: Logic,
    system: &Option<Text>,
) -> Option<FaultName>
    ensures some { IfSome result (λ fault. (id : List ℕ) (input : value)
        → with_child ahead.now.actor id (actor_logic (name.now, logic)) input system.now
        ahead.now.office ≡ Err fault) }
    ensures none { IfNone result (HasChildRoom ahead.now
        (first_letters (actor_logic (name.now, logic))) system.now) }
{
    if ahead.is_name_held(system) {
        return Some(FaultName::NameHeld);
    }
    if !ahead.has_actor_room() {
        return Some(FaultName::ActorsFull);
    }
    if !ahead.has_letter_room(first_letters(logic)) {
        return Some(FaultName::LettersFull);
    }
    if !ahead.has_level_below() {
        return Some(FaultName::TooDeep);
    }
    None
}

/// How many letters a new actor of this logic begins with.
fn first_letters(logic: Logic) -> u64
    ensures { (name : List ℕ) → result ≡ first_letters (actor_logic (name, logic)) }
{
    match logic {
        Logic::Machine(_) => 1,
        Logic::Promise => 0,
    }
}

/// A new actor of this logic, which the actor of the step makes.
fn child_of(
    alloc: Global,
    ahead: &Ahead<'_>,
    name: &str,
    logic: Logic,
    input: &Value,
    system: &Option<Text>,
) -> Result<Newcomer, AllocError>
    ensures made { IfOk result (λ made. with_newcomer ahead.now.office made
        ≡ with_logic ahead.now.office ahead.now.actor (actor_logic (name.now, logic))
        input.now system.now) }
    ensures born { IfOk result (IsBorn ahead.now.actor system.now
        (first_letters (actor_logic (name.now, logic)))) }
    ensures item { IfOk result (λ made. IfSome made.item
        (λ item. item.actor ≡ ahead.now.office.next_actor)) }
{
    let input = copy(alloc, input)?;
    let system = copy_name(alloc, system)?;
    match logic {
        Logic::Machine(number) => machine_child(alloc, ahead, number, input, system),
        Logic::Promise => item_child(alloc, ahead, Text::from_str(alloc, name)?, input, system),
    }
}

/// A new machine actor, which the actor of the step makes.
fn machine_child(
    alloc: Global,
    ahead: &Ahead<'_>,
    machine: u32,
    input: Value,
    system: Option<Text>,
) -> Result<Newcomer, AllocError>
    ensures made { IfOk result (λ made. with_newcomer ahead.now.office made
        ≡ with_machine ahead.now.office (Origin.Actor ahead.now.actor) (Some ahead.now.actor)
        machine input system) }
    ensures born { IfOk result (IsBorn ahead.now.actor system 1) }
    ensures item { IfOk result (λ made. made.item ≡ None) }
{
    ahead.next_is_free();
    let parent = ahead.actor();
    let first = Letter {
        number: ahead.next_letter(),
        origin: Origin::Actor(parent),
        event: init_event(alloc, input)?,
    };
    let made = new_machine(alloc, machine, Some(parent), system, first)?;
    Ok(made)
}

/// A new work item, which the actor of the step makes.
fn item_child(
    alloc: Global,
    ahead: &Ahead<'_>,
    src: Text,
    input: Value,
    system: Option<Text>,
) -> Result<Newcomer, AllocError>
    ensures made { IfOk result (λ made. with_newcomer ahead.now.office made
        ≡ with_item ahead.now.office (Some ahead.now.actor) src input system) }
    ensures born { IfOk result (IsBorn ahead.now.actor system 0) }
    ensures item { IfOk result (λ made. IfSome made.item
        (λ item. item.actor ≡ ahead.now.office.next_actor)) }
{
    let item = Item {
        actor: ahead.next_actor(),
        src,
        input,
    };
    let made = new_item(alloc, Some(ahead.actor()), system, item)?;
    Ok(made)
}
