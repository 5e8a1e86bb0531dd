//! Items by their numbers, in places that stay empty where one was taken out.

ghost use Rattle.std.specs.Prelude.{◌≡◌, ◌+◌, ◌<◌, ◌≤◌, ℕ, [], ◌∷◌, ◌++◌, Some, None, length, IfOk, IfErr, IfSome, IfNone, IsOk, IsSome, OnOk, option_copied};
ghost use Rattle.std.specs.Option.{option_copied_mut};
ghost use Rattle.std.specs.Borrow.{Lends, sem};
ghost use Rattle.std.specs.List.{All};
ghost use Rattle.std.specs.Ordering.{nat_cmp};
ghost use Rattle.std.specs.Iterator.{YieldsFirstBy, item_count};
ghost use Rattle.office_books.specs.NumberedItems.{numbered_item, NumbersRise, without_numbered_item};
ghost use Rattle.office_books.specs.Slots.{BeginsAt, HoldsItem, in_slots, slot_numbers, SlotsRise};
ghost use Rattle.office_books.specs.Sorted.{IsAt, IsAbsentAt};

use std::alloc::{AllocError, Global};
use std::marker::Model;

/// A place for the item of a number: empty where that item was taken out.
#[derive(Debug, Drop)]
struct Slot<T> {
    number: u64,
    item: Option<T>,
}

/// Items of one type by their numbers, with room for more. What is taken out leaves an empty place,
/// so that no call but `reserve` moves items.
#[derive(Debug, Drop)]
pub struct Slots<T> {
    slots: Vec<Slot<T>>,
    /// How many of them have an item.
    filled: usize,
}

impl<T> Model for Slots<T> {
    ghost use Rattle.office_books.specs.Books.{vec_room};
    ghost use Rattle.office_books.specs.NumberedItems.{NumberedItems, numbered_items_code};

    ghost Value = { NumberedItems T };

    ghost coded = { numbered_items_code T.code };

    ghost use Rattle.office_books.specs.Slots.{AreSlots, in_slots};

    ghost view = { λ s. record { items = in_slots s.slots.items; spare = vec_room s.slots } };

    ghost invariant = { λ s. AreSlots s.slots.items s.filled };
}

impl<T> Slot<T> {
    ghost use Rattle.office_books.specs.contracts.slots.Slot.{the_row};
    ghost use Rattle.office_books.specs.Slots.{with_slot_item};

    /// The item of a place that isn't empty.
    fn item_mut(&mut self) -> &mut T
        requires { IsSome self.old.item }
        ensures* writes_back { sem 𝓛
            (Lends (the_row T.row) T.row self.entry result (with_slot_item self.old)) }
        ensures value { self.old.item ≡ Some result.now }
    {
        match &mut self.item {
            Some(item) => item,
            None => unreachable!(),
        }
    }
}

impl<T> Slots<T> {
    ghost use Rattle.office_books.specs.SlotLends.{lends_item};

    /// No items. It takes no memory.
    pub fn new(alloc: Global) -> Slots<T>
        ensures { result.items ≡ [] }
    {
        Slots {
            slots: Vec::new(alloc),
            filled: 0,
        }
    }

    /// How many items there are.
    pub fn len(&self) -> usize
        ensures { result ≡ length self.now.items }
    {
        self.filled
    }

    /// Goes over the items by their numbers, and passes over the empty places.
    pub fn iter(&self) -> SlotItems<'_, T>
        ensures items { result ≡ self.now.items }
        ensures by_number { NumbersRise result }
    {
        SlotItems {
            slots: self.slots.as_slice(),
        }
    }

    /// The item of a number, found by halves.
    pub fn find(&self, number: u64) -> Option<&T>
        ensures { option_copied result ≡ numbered_item number self.now.items }
    {
        let place = filled_place(self.slots.as_slice(), number)?;
        self.slots[place].item.as_ref()
    }

    /// The item of a number for writing, found by halves.
    pub fn find_mut(&mut self, number: u64) -> Option<&mut T>
        ensures* writes_back { sem 𝓛 (lends_item T.row self.entry number result) }
        ensures value { option_copied_mut result ≡ numbered_item number self.old.items }
    {
        match filled_place(self.slots.as_slice(), number) {
            Some(place) => Some(self.slots[place].item_mut()),
            None => None,
        }
    }

    /// Takes out the item of a number, found by halves, and leaves its place empty.
    pub fn take(&mut self, number: u64) -> Option<T>
        ensures item { result ≡ numbered_item number self.old.items }
        ensures items { self.new.items ≡ without_numbered_item number self.old.items }
        ensures keeps_room { self.new.spare ≡ self.old.spare }
    {
        let place = filled_place(self.slots.as_slice(), number)?;
        self.filled -= 1;
        self.slots[place].item.take()
    }
}

impl<T: Drop> Slots<T> {
    /// Makes room for `more` items. Where half of the places or more are empty, it drops those first,
    /// which moves the items that are left: about one move for each that was taken out.
    pub fn reserve(&mut self, more: usize) -> Result<(), AllocError>
        ensures items { self.new.items ≡ self.old.items }
        ensures room { OnOk result (more ≤ self.new.spare) }
        ensures keeps_room { self.old.spare ≤ self.new.spare }
        ensures succeeds { more ≤ self.old.spare → IsOk result }
    {
        if self.filled <= self.slots.len() / 2 {
            self.slots.retain(|slot| slot.item.is_some());
        }
        self.slots.reserve(more)
    }

    /// Adds an item under a number that is above all others, where there is room. Empty places of
    /// that number and above are dropped.
    pub fn push(&mut self, number: u64, item: T)
        requires room { 0 < self.old.spare }
        requires newer { All (λ (pair : ℕ × T). pair.0 < number) self.old.items }
        ensures items { self.new.items ≡ self.old.items ++ (number, item) ∷ [] }
        ensures takes_one { self.old.spare ≤ self.new.spare + 1 }
    {
        let end = beginning_of(self.slots.as_slice(), number);
        self.slots.truncate(end);
        self.slots.push_reserved(Slot {
            number,
            item: Some(item),
        });
        self.filled += 1;
    }
}

/// The items by their numbers, seen as the list of the pairs that are left.
#[derive(Drop)]
pub struct SlotItems<'a, T> {
    slots: &'a [Slot<T>],
}

impl<'a, T> Model for SlotItems<'a, T> {
    ghost use Rattle.std.specs.Prelude.{ℕ, List};

    ghost Value = { List (ℕ × T) };

    ghost use Rattle.office_books.specs.Slots.{in_slots};

    ghost view = { λ it. in_slots it.slots.now };
}

impl<'a, T> Iterator for SlotItems<'a, T> {
    type Item = (u64, &'a T);

    ghost next_gives = { YieldsFirstBy (λ item. (item.0, item.1.now)) (λ rest. rest) };

    ghost remaining = { item_count (λ rest. rest) };

    fn next(&mut self) -> Option<(u64, &'a T)> {
        while let Some((slot, rest)) = self.slots.split_first() {
            self.slots = rest;
            if let Some(item) = &slot.item {
                return Some((slot.number, item));
            }
        }
        None
    }
}

/// Where the item of a number is.
fn filled_place<T>(slots: &[Slot<T>], number: u64) -> Option<usize>
    requires { SlotsRise slots.now }
    ensures some { IfSome result (HoldsItem number slots.now) }
    ensures none { IfNone result (numbered_item number (in_slots slots.now) ≡ None) }
{
    match search(slots, number) {
        Ok(place) if slots[place].item.is_some() => Some(place),
        _ => None,
    }
}

/// Where a number's place is, or where it would go.
fn search<T>(slots: &[Slot<T>], number: u64) -> Result<usize, usize>
    requires { SlotsRise slots.now }
    ensures within { IfOk result (λ place. place < length slots.now) }
    ensures found { IfOk result (λ place. IsAt nat_cmp number place (slot_numbers slots.now)) }
    ensures absent { IfErr result
        (λ place. IsAbsentAt nat_cmp number place (slot_numbers slots.now)) }
{
    slots.binary_search_by(|slot| slot.number.cmp(&number))
}

/// Where the places of a number and above begin.
fn beginning_of<T>(slots: &[Slot<T>], number: u64) -> usize
    requires { SlotsRise slots.now }
    ensures { BeginsAt number result slots.now }
{
    match search(slots, number) {
        Ok(place) => place,
        Err(place) => place,
    }
}
