//! Letters: each on its own, in each mailbox, and in all mailboxes together.

ghost use Rattle.std.specs.Prelude.{◌≡◌, ◌≢◌, ◌↔◌, All, AllPairs, ◌++◌, IfOk, IsTrue, OnOk, map};
ghost use Rattle.std.specs.List.Sorted.{IsStrictlyIncreasing};
ghost use Rattle.office_types.specs.declared.office.Letter.{Letter as letter};
ghost use Rattle.office_types.specs.ValidOffice.{HasInitAsHead, HasItsInit, HasNoInit, IsLetter, IsOrigin, is_init, letters_of};

use crate::validity::distinct::are_distinct;
use crate::validity::events::{begins_actor, is_event};
use crate::validity::limits::is_given;
use office_types::{ActorRecord, Letter, OfficeState, Origin, Own};
use std::alloc::{AllocError, Global};

/// Whether each letter of all mailboxes is one that may wait.
pub(crate) fn are_all_letters(state: &OfficeState) -> bool
    ensures { IsTrue result ↔ All (IsLetter state.now) (letters_of state.now.actors) }
{
    for actor in state.actors.as_slice() {
        if !are_letters(state, actor.mailbox.as_slice()) {
            return false;
        }
    }
    true
}

fn are_letters(state: &OfficeState, letters: &[Letter]) -> bool
    ensures { IsTrue result ↔ All (IsLetter state.now) letters.now }
{
    letters.iter().all(|letter| is_letter(state, letter))
}

fn is_letter(state: &OfficeState, letter: &Letter) -> bool
    ensures { IsTrue result ↔ IsLetter state.now letter.now }
{
    is_given(state.next_letter, letter.number)
        && is_origin(state, &letter.origin)
        && is_event(&letter.event)
}

fn is_origin(state: &OfficeState, origin: &Origin) -> bool
    ensures { IsTrue result ↔ IsOrigin state.now origin.now }
{
    match origin {
        Origin::Caller(_) => true,
        Origin::Actor(number) => is_given(state.next_actor, *number),
    }
}

/// Whether no number of a letter stands twice. It sorts the numbers of all letters.
pub(crate) fn are_letters_once(alloc: Global, state: &OfficeState) -> Result<bool, AllocError>
    ensures { IfOk result (λ once. IsTrue once
        ↔ AllPairs (λ (a b : letter). a.number ≢ b.number) (letters_of state.now.actors)) }
{
    Ok(are_distinct(letter_numbers(alloc, state.actors.as_slice())?))
}

fn letter_numbers(alloc: Global, actors: &[ActorRecord]) -> Result<Vec<u64>, AllocError>
    ensures { IfOk result (λ numbers. numbers.items
        ≡ map (λ (letter : letter). letter.number) (letters_of actors.now)) }
{
    let mut numbers = Vec::new(alloc);
    for actor in actors {
        push_numbers(&mut numbers, actor.mailbox.as_slice())?;
    }
    Ok(numbers)
}

fn push_numbers(numbers: &mut Vec<u64>, letters: &[Letter]) -> Result<(), AllocError>
    ensures { OnOk result (numbers.new.items
        ≡ numbers.old.items ++ map (λ (letter : letter). letter.number) letters.now) }
{
    for letter in letters {
        numbers.push(letter.number)?;
    }
    Ok(())
}

/// Whether letters stand by rising numbers.
pub(crate) fn do_letters_rise(letters: &[Letter]) -> bool
    ensures { IsTrue result
        ↔ IsStrictlyIncreasing (map (λ (letter : letter). letter.number) letters.now) }
{
    for place in 1..letters.len() {
        if letters[place - 1].number >= letters[place].number {
            return false;
        }
    }
    true
}

/// Whether the letter that begins an actor is the head of its mailbox where the actor hasn't begun, and
/// stands nowhere else.
pub(crate) fn has_its_init(own: &Own, mailbox: &[Letter]) -> bool
    ensures { IsTrue result ↔ HasItsInit own.now mailbox.now }
{
    if own.begun {
        has_no_init(mailbox)
    } else {
        has_init_as_head(mailbox)
    }
}

fn has_init_as_head(letters: &[Letter]) -> bool
    ensures { IsTrue result ↔ HasInitAsHead letters.now }
{
    let [head, others @ ..] = letters else {
        return false;
    };
    is_init(head) && has_no_init(others)
}

fn has_no_init(letters: &[Letter]) -> bool
    ensures { IsTrue result ↔ HasNoInit letters.now }
{
    letters.iter().all(|letter| !is_init(letter))
}

fn is_init(letter: &Letter) -> bool
    ensures { result ≡ is_init letter.now }
{
    begins_actor(&letter.event)
}
