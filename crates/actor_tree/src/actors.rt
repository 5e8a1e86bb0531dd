//! Changes of one actor among those that are held.

ghost use Rattle.std.specs.Prelude.{◌≡◌, ◌+◌, ◌≤◌, [], ◌∷◌, drop, OnOk, Some};
ghost use Rattle.office_types.specs.declared.office.ActorRecord.{ActorRecord};
ghost use Rattle.office_types.specs.Mailboxes.{with_mail};
ghost use Rattle.office_types.specs.Effects.{with_kid, without_kid};
ghost use Rattle.office_books.specs.NumberedItems.{NumbersRise};
ghost use Rattle.actor_tree.specs.HeldOffice.{active_in, HasRoomAt, HasRoomOf, IsChangedAt, IsTakenFrom, kid_room, letter_room, letters_in, no_needs, rooms_by};
ghost use Rattle.actor_tree.specs.Removal.{ended_by};

use crate::actor::Actor;
use crate::ending::{Ending, Uncounted, counted, end};
use crate::kids::drop_kid;
use office_books::Slots;
use office_types::{Letter, Own};
use std::alloc::AllocError;
use xs_data::Text;

/// Puts an own part in the place of an actor's, if the actor is there.
pub(crate) fn set_own(actors: &mut Slots<Actor>, number: u64, own: Own)
    requires { NumbersRise actors.old.items }
    ensures changed { IsChangedAt number
        (λ (actor : ActorRecord). record actor { own = Some own }) no_needs
        actors.old.items actors.new.items }
    ensures keeps_room { actors.new.spare ≡ actors.old.spare }
    ensures count { letters_in actors.new.items ≡ letters_in actors.old.items }
{
    if let Some(actor) = actors.find_mut(number) {
        actor.own = Some(own);
    }
}

/// Takes the head letter out of an actor's mailbox, and says how many letters that were.
pub(crate) fn drop_head(actors: &mut Slots<Actor>, number: u64) -> u64
    requires { NumbersRise actors.old.items }
    ensures changed { IsChangedAt number
        (λ (actor : ActorRecord). record actor { mailbox = drop 1 actor.mailbox }) no_needs
        actors.old.items actors.new.items }
    ensures keeps_room { actors.new.spare ≡ actors.old.spare }
    ensures count { letters_in actors.new.items + result ≡ letters_in actors.old.items }
{
    match actors.find_mut(number) {
        Some(actor) => {
            let before = actor.mailbox.len();
            let _ = actor.mailbox.pop_front();
            (before - actor.mailbox.len()) as u64
        }
        None => 0,
    }
}

/// Puts a letter at the end of an actor's mailbox, where there is room, and says how many letters
/// entered: none where there is no such actor.
pub(crate) fn add_letter(actors: &mut Slots<Actor>, receiver: u64, letter: Letter) -> u64
    requires rise { NumbersRise actors.old.items }
    requires room { HasRoomAt receiver (rooms_by letter_room actors.old.items) }
    ensures changed { IsChangedAt receiver (with_mail letter)
        (record no_needs { receivers = receiver ∷ [] })
        actors.old.items actors.new.items }
    ensures keeps_room { actors.new.spare ≡ actors.old.spare }
    ensures count { letters_in actors.new.items ≡ letters_in actors.old.items + result }
    ensures at_most_one { result ≤ 1 }
{
    match actors.find_mut(receiver) {
        Some(actor) => {
            actor.mailbox.push_back_reserved(letter);
            1
        }
        None => 0,
    }
}

/// Puts a child last among its parent's, where there is room, if the parent is there.
pub(crate) fn add_kid(actors: &mut Slots<Actor>, parent: u64, id: Text, child: u64)
    requires rise { NumbersRise actors.old.items }
    requires room { HasRoomAt parent (rooms_by kid_room actors.old.items) }
    ensures changed { IsChangedAt parent (with_kid id child)
        (record no_needs { parents = parent ∷ [] })
        actors.old.items actors.new.items }
    ensures keeps_room { actors.new.spare ≡ actors.old.spare }
    ensures count { letters_in actors.new.items ≡ letters_in actors.old.items }
{
    if let Some(actor) = actors.find_mut(parent) {
        actor.kids.push_reserved((id, child));
    }
}

/// Takes the child of an id out of its parent's. It looks through the parent's children.
pub(crate) fn remove_kid(actors: &mut Slots<Actor>, parent: u64, id: &[u8])
    requires { NumbersRise actors.old.items }
    ensures changed { IsChangedAt parent (without_kid id.now) no_needs
        actors.old.items actors.new.items }
    ensures keeps_room { actors.new.spare ≡ actors.old.spare }
    ensures count { letters_in actors.new.items ≡ letters_in actors.old.items }
{
    if let Some(actor) = actors.find_mut(parent) {
        drop_kid(&mut actor.kids, id);
    }
}

/// Ends an actor, if it is there, and says what isn't counted any more.
pub(crate) fn end_actor(actors: &mut Slots<Actor>, number: u64, ending: Ending) -> Uncounted
    requires { NumbersRise actors.old.items }
    ensures changed { IsChangedAt number (ended_by ending) no_needs
        actors.old.items actors.new.items }
    ensures keeps_room { actors.new.spare ≡ actors.old.spare }
    ensures count { letters_in actors.new.items + result.letters
        ≡ letters_in actors.old.items }
    ensures active { active_in actors.new.items + result.active ≡ active_in actors.old.items }
{
    match actors.find_mut(number) {
        Some(actor) => end(actor, ending),
        None => Uncounted {
            active: 0,
            letters: 0,
        },
    }
}

/// Takes an actor out, if it is there, and says what isn't counted any more.
pub(crate) fn take_actor(actors: &mut Slots<Actor>, number: u64) -> Uncounted
    requires { NumbersRise actors.old.items }
    ensures taken { IsTakenFrom number actors.old.items actors.new.items }
    ensures keeps_room { actors.new.spare ≡ actors.old.spare }
    ensures count { letters_in actors.new.items + result.letters
        ≡ letters_in actors.old.items }
    ensures active { active_in actors.new.items + result.active ≡ active_in actors.old.items }
{
    match actors.take(number) {
        Some(actor) => counted(&actor),
        None => Uncounted {
            active: 0,
            letters: 0,
        },
    }
}

/// Makes room for so many letters more of an actor, if it is there.
pub(crate) fn reserve_letters(
    actors: &mut Slots<Actor>,
    receiver: u64,
    more: usize,
) -> Result<(), AllocError>
    requires { NumbersRise actors.old.items }
    ensures changed { IsChangedAt receiver (λ actor. actor) no_needs
        actors.old.items actors.new.items }
    ensures keeps_room { actors.new.spare ≡ actors.old.spare }
    ensures count { letters_in actors.new.items ≡ letters_in actors.old.items }
    ensures room { OnOk result (HasRoomOf more receiver (rooms_by letter_room actors.new.items)) }
{
    match actors.find_mut(receiver) {
        Some(actor) => actor.mailbox.reserve(more),
        None => Ok(()),
    }
}

/// Makes room for so many children more of an actor, if it is there.
pub(crate) fn reserve_kids(
    actors: &mut Slots<Actor>,
    parent: u64,
    more: usize,
) -> Result<(), AllocError>
    requires { NumbersRise actors.old.items }
    ensures changed { IsChangedAt parent (λ actor. actor) no_needs
        actors.old.items actors.new.items }
    ensures keeps_room { actors.new.spare ≡ actors.old.spare }
    ensures count { letters_in actors.new.items ≡ letters_in actors.old.items }
    ensures room { OnOk result (HasRoomOf more parent (rooms_by kid_room actors.new.items)) }
{
    match actors.find_mut(parent) {
        Some(actor) => actor.kids.reserve(more),
        None => Ok(()),
    }
}
