//! Room for the parts of a change.

ghost use Rattle.std.specs.Prelude.{◌≡◌, ℕ, IfOk, IfSome, OnOk, sum_by};
ghost use Rattle.office_types.specs.declared.office.OfficeState.{OfficeState};
ghost use Rattle.actor_tree.specs.declared.part.Part.{Part};
ghost use Rattle.actor_tree.specs.HeldOffice.{HasRoomOf, IsRoomBeside, no_needs};
ghost use Rattle.actor_tree.specs.Parts.{CanPutAll, put};
ghost use Rattle.actor_tree.specs.Rooms.{AreRoomier, HasRoomForAll, IsRoomier, kids_for, letters_for, needs_of, next_after};
ghost use Rattle.actor_tree.specs.Tally.{tallied};

use crate::following::room_for;
use crate::held::Held;
use crate::part::{Part, Parts};
use crate::room::reserve_newcomer;
use crate::tally::how_often;
use std::alloc::{AllocError, Global};
use std::collections::BTreeMap;

/// How many of something come to actors, by their numbers.
type PerActor = BTreeMap<u64, u64>;

/// Makes the room that parts need, in what is held and in the actors that they make, and gives the parts
/// back. It costs a look by halves for each letter and child that they bring, two for each actor that they
/// make, and one move of each part. For want of memory the office is as it was.
pub(crate) fn make_room(held: &mut Held, alloc: Global, parts: Parts) -> Result<Parts, AllocError>
    ensures office { held.new.office ≡ held.old.office }
    ensures same { IfOk result
        (λ made. (state : OfficeState) → put state made ≡ put state parts) }
    ensures fits { IfOk result
        (λ made. (state : OfficeState) → CanPutAll state parts → CanPutAll state made) }
    ensures room { IfOk result (HasRoomForAll held.new) }
{
    let actors = room_for(parts.as_slice()) as u64;
    let timers = timers_in(parts.as_slice());
    held.reserve(actors, timers)?;
    let letters = make_letter_rooms(held, alloc, parts.as_slice())?;
    let kids = make_kid_rooms(held, alloc, parts.as_slice())?;
    with_room_of_newcomers(alloc, parts, held.next_actor(), &letters, &kids)
}

/// Makes room for the letters that parts bring to actors that are there, and says how many they bring
/// to each actor.
fn make_letter_rooms(held: &mut Held, alloc: Global, parts: &[Part]) -> Result<PerActor, AllocError>
    ensures office { held.new.office ≡ held.old.office }
    ensures keeps_room { IsRoomBeside no_needs held.old.room held.new.room }
    ensures counts { IfOk result (λ counts. (number : ℕ)
        → tallied counts number ≡ letters_for number parts.now) }
    ensures room { OnOk result ((number : ℕ)
        → HasRoomOf (letters_for number parts.now) number held.new.room.letters) }
{
    let mut counts = PerActor::new(alloc);
    for part in parts {
        held.make_letter_room(part, &mut counts)?;
    }
    Ok(counts)
}

/// Makes room for the children that parts bring to actors that are there, and says how many they bring
/// to each actor.
fn make_kid_rooms(held: &mut Held, alloc: Global, parts: &[Part]) -> Result<PerActor, AllocError>
    ensures office { held.new.office ≡ held.old.office }
    ensures keeps_room { IsRoomBeside no_needs held.old.room held.new.room }
    ensures counts { IfOk result (λ counts. (number : ℕ)
        → tallied counts number ≡ kids_for number parts.now) }
    ensures room { OnOk result ((number : ℕ)
        → HasRoomOf (kids_for number parts.now) number held.new.room.kids) }
{
    let mut counts = PerActor::new(alloc);
    for part in parts {
        held.make_kid_room(part, &mut counts)?;
    }
    Ok(counts)
}

/// How many timers parts schedule.
fn timers_in(parts: &[Part]) -> u64
    ensures { result ≡ sum_by (λ (part : Part). (needs_of part).timers) parts.now }
{
    let mut count = 0;
    for part in parts {
        if let Part::Schedule(_) = part {
            count += 1;
        }
    }
    count
}

/// The parts, with room in each actor that they make for the letters and children that come to it. The
/// first that they make gets the number `first`. An actor whose number would leave no next one of 64 bits
/// is refused as for want of memory; the numbers of an office end far below.
fn with_room_of_newcomers(
    alloc: Global,
    parts: Parts,
    first: u64,
    letters: &PerActor,
    kids: &PerActor,
) -> Result<Parts, AllocError>
    ensures { IfOk result
        (AreRoomier (tallied letters.now) (tallied kids.now) first parts) }
{
    let mut number = first;
    let mut roomier = Vec::new(alloc);
    for part in parts.into_vec() {
        let part = with_own_room(part, number, letters, kids)?;
        number = number_after(&part, number).ok_or(AllocError)?;
        roomier.push(part)?;
    }
    Ok(Parts::from_vec(roomier))
}

/// A part. One that makes an actor, of this number, gets room for the letters and children that come to it.
fn with_own_room(
    part: Part,
    number: u64,
    letters: &PerActor,
    kids: &PerActor,
) -> Result<Part, AllocError>
    ensures { IfOk result (IsRoomier (tallied letters.now) (tallied kids.now) number part) }
{
    match part {
        Part::Make(newcomer) => {
            let mut newcomer = newcomer;
            reserve_newcomer(
                &mut newcomer,
                how_often(letters, number),
                how_often(kids, number),
            )?;
            Ok(Part::Make(newcomer))
        }
        other => Ok(other),
    }
}

/// The number of the next actor after a part, if there is one of 64 bits.
fn number_after(part: &Part, number: u64) -> Option<u64>
    ensures { IfSome result (λ next. next ≡ next_after number part.now) }
{
    match part {
        Part::Make(_) => number.checked_add(1),
        _ => Some(number),
    }
}
