//! The reader of definitions: an office of flat machines out of a JSON value.

ghost use Rattle.std.specs.Prelude.{◌≡◌, map, IfOk};
ghost use Rattle.std.specs.Option.{option_copied};
ghost use Rattle.ordered_json.specs.Words.{member_parts};
ghost use Rattle.flat_core.specs.FlatText.{ReadsOffice, office_in, machine_in, state_of, flat_transitions_of, transition_of, each_of, is_state_key, is_descriptor, are_distinct};

use crate::flat::{
    FlatMachine, FlatMachines, FlatState, FlatStates, FlatTransition, FlatTransitions,
};
use crate::places::Places;
use ordered_json::{Member, OrderedJson, get, get_list, get_object, get_text};
use std::alloc::{AllocError, Global};
use std::collections::BTreeSet;
use thiserror::Error;
use xs_data::Items;

/// Why a JSON value isn't read as an office.
#[derive(Clone, Copy, Debug, PartialEq, Eq, Error)]
pub enum FlatFault {
    /// The value is no office of flat machines.
    #[error("these are no flat machines")]
    NotFlat,
    #[error("out of memory")]
    Memory,
}

impl From<AllocError> for FlatFault {
    ghost use Rattle.flat_core.specs.declared.flat_text.FlatFault.TheVariants.{Memory};

    ghost from_gives = { λ _ fault. fault ≡ Memory };

    fn from(_error: AllocError) -> FlatFault {
        FlatFault::Memory
    }
}

/// Reads an office of flat machines: an object of `machines`, a list of machines with ids of their own, and
/// `implementations`, which is empty. A machine has an `id`, which isn't empty, `initial` and `states`; a state may have
/// `on`, from event types to keys of states of the machine. Where a place among the states doesn't fit 32 bits, the
/// answer is want of memory. The cost is linear in the value, but for the look-up of each target and each id, which takes
/// the logarithm of the number of keys or ids.
pub fn read_flat(alloc: Global, text: &OrderedJson) -> Result<FlatMachines, FlatFault>
    ensures { ReadsOffice (office_in text.now) result }
{
    let fields = text
        .as_object_of(&["machines", "implementations"])
        .ok_or(FlatFault::NotFlat)?;
    let texts = get_list(fields, "machines").ok_or(FlatFault::NotFlat)?;
    let implementations = get_object(fields, "implementations").ok_or(FlatFault::NotFlat)?;
    let machines = read_machines(alloc, texts)?;
    let distinct = are_distinct(alloc, machines.as_slice())?;
    if !implementations.is_empty() || !distinct {
        return Err(FlatFault::NotFlat);
    }
    Ok(machines)
}

/// The machines of a list.
fn read_machines(alloc: Global, texts: &[OrderedJson]) -> Result<FlatMachines, FlatFault>
    ensures { ReadsOffice (each_of machine_in texts.now) result }
{
    let mut machines = Items::new(alloc);
    for text in texts {
        let machine = read_machine(alloc, text)?;
        if machines.push(machine).is_err() {
            return Err(FlatFault::Memory);
        }
    }
    Ok(machines)
}

/// A machine of an `id`, `initial` and `states`.
fn read_machine(alloc: Global, json: &OrderedJson) -> Result<FlatMachine, FlatFault>
    ensures { ReadsOffice (machine_in json.now) result }
{
    let fields = json
        .as_object_of(&["id", "initial", "states"])
        .ok_or(FlatFault::NotFlat)?;
    let id = get_text(fields, "id").ok_or(FlatFault::NotFlat)?;
    let initial = get_text(fields, "initial").ok_or(FlatFault::NotFlat)?;
    let members = get_object(fields, "states").ok_or(FlatFault::NotFlat)?;
    let places = Places::of(alloc, members)?;
    let states = read_states(alloc, &places, members)?;
    let initial = places.find(initial.as_str()).ok_or(FlatFault::NotFlat)?;
    if id.len() == 0 {
        return Err(FlatFault::NotFlat);
    }
    let id = id.copy(alloc)?;
    Ok(FlatMachine {
        id,
        initial,
        states,
    })
}

/// The states of an object, each under its key.
fn read_states(alloc: Global, places: &Places, members: &[Member]) -> Result<FlatStates, FlatFault>
    ensures { ReadsOffice (each_of (state_of places.now) (map member_parts members.now)) result }
{
    let mut states = Items::new(alloc);
    for member in members {
        let state = read_state(alloc, places, member)?;
        if states.push(state).is_err() {
            return Err(FlatFault::Memory);
        }
    }
    Ok(states)
}

/// A state under its key, with `on` or without.
fn read_state(alloc: Global, places: &Places, member: &Member) -> Result<FlatState, FlatFault>
    ensures { ReadsOffice (state_of places.now (member_parts member.now)) result }
{
    let fields = member
        .value
        .as_object_of(&["on"])
        .ok_or(FlatFault::NotFlat)?;
    let transitions = read_transitions(alloc, places, get(fields, "on"))?;
    if !is_state_key(member.key.as_bytes()) {
        return Err(FlatFault::NotFlat);
    }
    let key = member.key.copy(alloc)?;
    Ok(FlatState { key, transitions })
}

/// The transitions under `on`, if it is there.
fn read_transitions(
    alloc: Global,
    places: &Places,
    on: Option<&OrderedJson>,
) -> Result<FlatTransitions, FlatFault>
    ensures { ReadsOffice (flat_transitions_of places.now (option_copied on.entry)) result }
{
    let Some(on) = on else {
        return Ok(Items::new(alloc));
    };
    let members = on.as_object().ok_or(FlatFault::NotFlat)?;
    read_each_transition(alloc, places, members)
}

/// The transitions of an object, each under its descriptor.
fn read_each_transition(
    alloc: Global,
    places: &Places,
    members: &[Member],
) -> Result<FlatTransitions, FlatFault>
    ensures { ReadsOffice
        (each_of (transition_of places.now) (map member_parts members.now)) result }
{
    let mut transitions = Items::new(alloc);
    for member in members {
        let transition = read_transition(alloc, places, member)?;
        if transitions.push(transition).is_err() {
            return Err(FlatFault::Memory);
        }
    }
    Ok(transitions)
}

/// A transition under its descriptor, to the state that the text names.
fn read_transition(
    alloc: Global,
    places: &Places,
    member: &Member,
) -> Result<FlatTransition, FlatFault>
    ensures { ReadsOffice (transition_of places.now (member_parts member.now)) result }
{
    let target = member.value.as_text().ok_or(FlatFault::NotFlat)?;
    let state = places.find(target.as_str()).ok_or(FlatFault::NotFlat)?;
    if !is_descriptor(member.key.as_bytes()) {
        return Err(FlatFault::NotFlat);
    }
    let descriptor = member.key.copy(alloc)?;
    Ok(FlatTransition { descriptor, state })
}

/// Whether a target can name a state of this key.
fn is_state_key(key: &[u8]) -> bool
    ensures { result ≡ is_state_key key.now }
{
    !key.is_empty() && !key.contains(&b'.') && key[0] != b'#'
}

/// Whether this is an event type, and no wildcard.
fn is_descriptor(key: &[u8]) -> bool
    ensures { result ≡ is_descriptor key.now }
{
    key != b"*".as_slice() && !key.ends_with(b".*".as_slice())
}

/// Whether no two machines have one id. It takes memory for a copy of each.
fn are_distinct(alloc: Global, machines: &[FlatMachine]) -> Result<bool, AllocError>
    ensures { IfOk result (λ distinct.
        distinct ≡ are_distinct (map (λ machine. machine.id) machines.now)) }
{
    let mut ids = BTreeSet::new(alloc);
    for machine in machines {
        let id = machine.id.as_str();
        if ids.contains(id) {
            return Ok(false);
        }
        ids.insert(String::from_str(alloc, id)?)?;
    }
    Ok(true)
}
