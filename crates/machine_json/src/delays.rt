//! The delays of a node, from a machine text without faults.

ghost use Rattle.std.specs.Prelude.{◌≡◌, IfOk, map};
ghost use Rattle.ordered_json.specs.Words.{member_parts};
ghost use Rattle.machine_json.specs.Meaning.{after_type, delay_of, delays_of, timed_of};

use crate::key::milliseconds;
use crate::machine::{Named, UnlinkedDelay, UnlinkedDelays};
use ordered_json::{Member, get_object};
use std::alloc::{AllocError, Global};
use xs_data::{Items, Text};

/// The delays of a node with this id, each with the type of its event.
#[tactic(auto, using(crate::proofs::TestLemmas::maps))]
pub(crate) fn delays_of(
    alloc: Global,
    id: &str,
    members: &[Member],
) -> Result<UnlinkedDelays, AllocError>
    ensures { IfOk result (λ delays. delays ≡ delays_of id.now (map member_parts members.now)) }
{
    match get_object(members, "after") {
        Some(after) => each_delay(alloc, id, after),
        None => Ok(Items::new(alloc)),
    }
}

/// The delay that each member is.
fn each_delay(alloc: Global, id: &str, members: &[Member]) -> Result<UnlinkedDelays, AllocError>
    ensures { IfOk result
        (λ delays. delays ≡ map (λ member. timed_of id.now (member_parts member)) members.now) }
{
    let mut delays = Vec::with_capacity(alloc, members.len())?;
    for member in members {
        let timed = timed_of(alloc, id, member)?;
        delays.push(timed).map_err(AllocError::from)?;
    }
    Ok(Items::from_vec(delays))
}

/// A delay with the type of its event.
fn timed_of(alloc: Global, id: &str, member: &Member) -> Result<(Text, UnlinkedDelay), AllocError>
    ensures { IfOk result (λ timed. timed ≡ timed_of id.now (member_parts member.now)) }
{
    let event = after_type(alloc, member.key.as_str(), id)?;
    let delay = delay_of(alloc, member)?;
    Ok((event, delay))
}

/// A number of milliseconds, or a name used at its key.
fn delay_of(alloc: Global, member: &Member) -> Result<UnlinkedDelay, AllocError>
    ensures { IfOk result (λ delay. delay ≡ delay_of (member_parts member.now)) }
{
    match milliseconds(member.key.as_bytes()) {
        Some(milliseconds) => Ok(UnlinkedDelay::Milliseconds(milliseconds as i64)),
        None => Ok(UnlinkedDelay::Named(Named {
            name: member.key.copy(alloc)?,
            place: member.key_place,
        })),
    }
}

/// The type of the event that comes after a delay of a node: `xstate.after.<key>.<id>`.
pub(crate) fn after_type(alloc: Global, key: &str, id: &str) -> Result<Text, AllocError>
    ensures { IfOk result (λ text. text ≡ after_type key.now id.now) }
{
    let mut text = String::from_str(alloc, "xstate.after.")?;
    text.push_str(key)?;
    text.push_str(".")?;
    text.push_str(id)?;
    Ok(Text::from_string(text))
}
