//! Which actors of a forest have letters, and which of them has the earliest head letter.

ghost use Rattle.std.specs.Prelude.{◌≡◌, ◌+◌, ◌<◌, ◌≤◌, ℕ, [], ◌∷◌, ◌++◌, Some, not, filter, IfOk, IsOk, OnOk};
ghost use Rattle.std.specs.List.{All};
ghost use Rattle.std.specs.Option.{option_map, option_map_or, option_or};
ghost use Rattle.office_types.specs.Ready.{Head, first_of, is_busy};
ghost use Rattle.office_books.specs.NumberedItems.{NumbersRise, numbered_item, with_numbered_item, without_numbered_item};
ghost use Rattle.actor_tree.specs.declared.heads.Spot.{Spot as spot_record};
ghost use Rattle.actor_tree.specs.Heads.{HaveOwnLetters, entrant_of, heads_among, with_letter_of};

use crate::tournament::{Entrant, Tournament};
use office_books::Slots;
use std::alloc::{AllocError, Global};
use std::marker::Model;

/// Where an actor has its place in the tournament, and the number of its head letter.
#[derive(Debug, Drop)]
struct Spot {
    place: usize,
    letter: Option<u64>,
}

/// Actors by their numbers, each with the number of its head letter, or none where no letter waits.
#[derive(Debug, Drop)]
pub(crate) struct Heads {
    spots: Slots<Spot>,
    /// A place for each actor; those of actors that were taken out stay empty.
    tournament: Tournament,
    /// The first place that nobody had yet.
    next: usize,
}

impl Model for Heads {
    ghost use Rattle.std.specs.Prelude.{ℕ, ◌-◌, Option, length, min};
    ghost use Rattle.std.specs.Coded.{coded_ℕ, coded_option};
    ghost use Rattle.office_books.specs.NumberedItems.{NumberedItems, numbered_items_code};

    ghost Value = { NumberedItems (Option ℕ) };

    ghost coded = { numbered_items_code (coded_option coded_ℕ) };

    ghost use Rattle.actor_tree.specs.Heads.{HaveSpots, letters_of_spots};

    ghost view = { λ h. record {
      items = letters_of_spots h.spots.items;
      spare = min h.spots.spare (length h.tournament - h.next);
    } };

    ghost invariant = { λ h. HaveSpots h.next h.spots.items h.tournament };
}

impl Heads {
    /// No actors, and room for so many.
    pub(crate) fn with_room(alloc: Global, room: usize) -> Result<Heads, AllocError>
        ensures items { IfOk result (λ made. made.items ≡ []) }
        ensures room { IfOk result (λ made. room ≤ made.spare) }
    {
        let mut spots = Slots::new(alloc);
        spots.reserve(room)?;
        Ok(Heads {
            spots,
            tournament: Tournament::new(alloc, room)?,
            next: 0,
        })
    }

    /// Makes room for so many actors more. Where too few places are left, everybody gets a place in a
    /// tournament of twice as many as are needed; those of actors that were taken out are dropped.
    pub(crate) fn reserve(&mut self, alloc: Global, more: usize) -> Result<(), AllocError>
        ensures items { self.new.items ≡ self.old.items }
        ensures room { OnOk result (more ≤ self.new.spare) }
        ensures keeps_room { self.old.spare ≤ self.new.spare }
    {
        if more <= self.tournament.count() - self.next {
            return self.spots.reserve(more);
        }
        let roomy = self.with_more_room(alloc, more)?;
        *self = roomy;
        Ok(())
    }

    /// The same actors, with room for so many more.
    fn with_more_room(&self, alloc: Global, more: usize) -> Result<Heads, AllocError>
        ensures items { IfOk result (λ made. made.items ≡ self.now.items) }
        ensures room { IfOk result (λ made. more ≤ made.spare) }
    {
        let count = twice_as_many(self.spots.len(), more)?;
        let mut made = Heads::with_room(alloc, count)?;
        for (actor, spot) in self.spots.iter() {
            made.add(actor, spot.letter);
        }
        Ok(made)
    }

    /// Adds an actor whose number is above all others, where there is room.
    pub(crate) fn add(&mut self, actor: u64, letter: Option<u64>)
        requires room { 0 < self.old.spare }
        requires newer { All (λ pair. pair.0 < actor) self.old.items }
        ensures items { self.new.items ≡ self.old.items ++ (actor, letter) ∷ [] }
        ensures takes_one { self.old.spare ≤ self.new.spare + 1 }
    {
        let place = self.next;
        self.spots.push(actor, Spot { place, letter });
        self.tournament.set(place, entrant_of(actor, letter));
        self.next += 1;
    }

    /// Takes an actor out, if it is there.
    pub(crate) fn remove(&mut self, actor: u64)
        ensures items { self.new.items ≡ without_numbered_item actor self.old.items }
        ensures keeps_room { self.new.spare ≡ self.old.spare }
    {
        if let Some(spot) = self.spots.take(actor) {
            self.tournament.set(spot.place, None);
        }
    }

    /// Gives an actor another head letter or none, if it is there.
    pub(crate) fn set(&mut self, actor: u64, letter: Option<u64>)
        ensures items { self.new.items ≡ with_numbered_item actor letter self.old.items }
        ensures by_number { NumbersRise self.new.items }
        ensures keeps_room { self.new.spare ≡ self.old.spare }
    {
        if let Some(place) = set_letter(&mut self.spots, actor, letter) {
            self.tournament.set(place, entrant_of(actor, letter));
        }
    }

    /// The actor with the earliest head letter. One look.
    pub(crate) fn first(&self) -> Option<u64>
        requires { HaveOwnLetters self.now.items }
        ensures { result ≡ first_of (heads_among self.now.items) }
    {
        match self.tournament.first() {
            Some(first) => Some(first.actor),
            None => None,
        }
    }

    /// The actor with the earliest head letter of those that aren't busy; if all that have one are
    /// busy, of these. It looks by halves for each that is busy.
    pub(crate) fn first_but(&self, busy: &[u64]) -> Option<u64>
        requires { HaveOwnLetters self.now.items }
        ensures { result ≡ option_or
            (first_of (filter (λ head. not (is_busy busy.now head)) (heads_among self.now.items)))
            (first_of (heads_among self.now.items)) }
    {
        match self.tournament.first_but(busy) {
            Some(first) => Some(first.actor),
            None => self.first(),
        }
    }
}

/// Twice the places that are needed for so many, and so many more.
fn twice_as_many(taken: usize, more: usize) -> Result<usize, AllocError>
    ensures { IfOk result (λ count. taken + more ≤ count) }
{
    let needed = taken.checked_add(more).ok_or(AllocError)?;
    needed.checked_mul(2).ok_or(AllocError)
}

/// Another letter for an actor, if it is there; its place in the tournament.
fn set_letter(spots: &mut Slots<Spot>, actor: u64, letter: Option<u64>) -> Option<usize>
    ensures place { result ≡ option_map (λ (spot : spot_record). spot.place)
        (numbered_item actor spots.old.items) }
    ensures items { spots.new.items ≡ with_letter_of actor letter spots.old.items }
    ensures keeps_room { spots.new.spare ≡ spots.old.spare }
{
    match spots.find_mut(actor) {
        Some(spot) => {
            spot.letter = letter;
            Some(spot.place)
        }
        None => None,
    }
}

/// What stands in an actor's place.
fn entrant_of(actor: u64, letter: Option<u64>) -> Option<Entrant>
    ensures { result ≡ entrant_of actor letter }
{
    match letter {
        Some(letter) => Some(Entrant { actor, letter }),
        None => None,
    }
}
