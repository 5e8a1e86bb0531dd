//! How the head letters of actors follow the parts of a change.

ghost use Rattle.std.specs.Prelude.{◌≡◌, ◌+◌, ◌≤◌, ◌∷◌, IfOk, List, map, sum_by};
ghost use Rattle.std.specs.List.Sorted.{IsStrictlyIncreasing};
ghost use Rattle.office_types.specs.declared.office.ActorRecord.{ActorRecord as record_type};
ghost use Rattle.actor_tree.specs.declared.part.Part.{Part};
ghost use Rattle.actor_tree.specs.Following.{head_number, head_numbers, heads_left, actors_made, silenced, touch_of, without_numbers};
ghost use Rattle.actor_tree.specs.Parts.{CanPut, CanPutAll, put, put_part};
ghost use Rattle.actor_tree.specs.Rooms.{HasRoomForAll};

use crate::heads::Heads;
use crate::held::Held;
use crate::part::{Part, Parts};
use office_types::{ActorRecord, Status};
use std::alloc::{AllocError, Global};

/// Whose head letter a part may change, beside those of actors that are removed or end.
#[derive(Clone, Copy, Debug)]
pub(crate) enum Touch {
    Nobody,
    One(u64),
    /// The actor that is made.
    Made,
}

/// Makes one part of a change happen, where there is room, and lets the head letters follow.
pub(crate) fn put_followed(held: &mut Held, heads: &mut Heads, part: Part)
    requires fits { CanPut held.old.office part }
    requires room { (later : List Part) × HasRoomForAll held.old (part ∷ later) }
    requires heads { heads.old.items ≡ head_numbers held.old.office.actors }
    requires heads_room { actors_made part ≤ heads.old.spare }
    ensures office { held.new.office ≡ put_part held.old.office part }
    ensures room { (later : List Part) → HasRoomForAll held.old (part ∷ later)
        → HasRoomForAll held.new later }
    ensures heads { heads.new.items ≡ head_numbers held.new.office.actors }
    ensures heads_room { heads.old.spare ≤ heads.new.spare + actors_made part }
{
    leave(heads, &part);
    match touch_of(&part) {
        Touch::Nobody => held.put(part),
        Touch::One(number) => {
            held.put(part);
            heads.set(number, held.head_number(number));
        }
        Touch::Made => {
            let number = held.new_number();
            held.put(part);
            heads.add(number, held.head_number(number));
        }
    }
}

/// Takes out the head letters of actors that a part removes or ends.
fn leave(heads: &mut Heads, part: &Part)
    ensures items { heads.new.items ≡ heads_left part.now heads.old.items }
    ensures keeps_room { heads.new.spare ≡ heads.old.spare }
{
    match part {
        Part::Stop { subtree, .. } => remove_all(heads, subtree.as_slice()),
        Part::Done { subtree, .. } | Part::Fail { subtree, .. } => {
            silence(heads, subtree.as_slice());
        }
        _ => {}
    }
}

fn remove_all(heads: &mut Heads, numbers: &[u64])
    ensures items { heads.new.items ≡ without_numbers numbers.now heads.old.items }
    ensures keeps_room { heads.new.spare ≡ heads.old.spare }
{
    for number in numbers {
        heads.remove(*number);
    }
}

fn silence(heads: &mut Heads, numbers: &[u64])
    ensures items { heads.new.items ≡ silenced numbers.now heads.old.items }
    ensures keeps_room { heads.new.spare ≡ heads.old.spare }
{
    for number in numbers {
        heads.set(*number, None);
    }
}

fn touch_of(part: &Part) -> Touch
    ensures { result ≡ touch_of part.now }
{
    match part {
        Part::TakeHead { actor } | Part::Own { actor, .. } => Touch::One(*actor),
        Part::Mail { receiver, .. } => Touch::One(*receiver),
        Part::Make(_) => Touch::Made,
        Part::Schedule(_)
        | Part::Cancel { .. }
        | Part::Join { .. }
        | Part::Stop { .. }
        | Part::Done { .. }
        | Part::Fail { .. }
        | Part::Advance { .. } => Touch::Nobody,
    }
}

/// Makes the parts of a change happen, one after the other, where there is room.
pub(crate) fn put_all(held: &mut Held, heads: &mut Heads, parts: Parts)
    requires fits { CanPutAll held.old.office parts }
    requires room { HasRoomForAll held.old parts }
    requires heads { heads.old.items ≡ head_numbers held.old.office.actors }
    requires heads_room { sum_by actors_made parts ≤ heads.old.spare }
    ensures office { held.new.office ≡ put held.old.office parts }
    ensures heads { heads.new.items ≡ head_numbers held.new.office.actors }
{
    for part in parts.into_vec() {
        put_followed(held, heads, part);
    }
}

/// How many actors parts make.
pub(crate) fn room_for(parts: &[Part]) -> usize
    ensures { result ≡ sum_by actors_made parts.now }
{
    let mut count = 0;
    for part in parts {
        if let Part::Make(_) = part {
            count += 1;
        }
    }
    count
}

/// The head letters of actors by their numbers.
pub(crate) fn heads_of(alloc: Global, actors: &[ActorRecord]) -> Result<Heads, AllocError>
    requires { IsStrictlyIncreasing (map (λ (actor : record_type). actor.number) actors.now) }
    ensures { IfOk result (λ heads. heads.items ≡ head_numbers actors.now) }
{
    let mut heads = Heads::with_room(alloc, actors.len())?;
    for actor in actors {
        heads.add(actor.number, head_number(actor));
    }
    Ok(heads)
}

/// The number of an actor's head letter, if it is ready.
fn head_number(actor: &ActorRecord) -> Option<u64>
    ensures { result ≡ head_number actor.now }
{
    match actor.status {
        Status::Active if actor.own.is_some() => Some(actor.mailbox.get(0)?.number),
        _ => None,
    }
}
