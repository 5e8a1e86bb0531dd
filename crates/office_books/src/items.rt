//! The open work items.

ghost use Rattle.std.specs.Prelude.{◌≡◌, ◌+◌, ◌<◌, ◌≤◌, [], length, IfOk, IfErr, OnOk, OnErr, IsOk};
ghost use Rattle.std.specs.List.{All};
ghost use Rattle.std.specs.Ordering.{nat_cmp};
ghost use Rattle.office_types.specs.WorkItems.{item_of, with_open_item, without_item};
ghost use Rattle.office_books.specs.Books.{item_numbers};
ghost use Rattle.office_books.specs.Sorted.{RisesBy, IsAt, IsAbsentAt};

use office_types::Item;
use std::alloc::{AllocError, Global};
use std::marker::Model;

/// The work items that are open, by their numbers, with room for more.
#[derive(Debug, Drop)]
pub struct Items {
    items: Vec<Item>,
}

impl Model for Items {
    ghost use Rattle.std.specs.Ordering.{nat_cmp};
    ghost use Rattle.office_types.specs.declared.office.Item.{Item};
    ghost use Rattle.office_books.specs.Books.{OpenItems, vec_room};
    ghost use Rattle.office_books.specs.Sorted.{RisesBy};
    ghost use Rattle.std.specs.Coded.{codes};
    ghost use Rattle.xs_model.specs.contracts.value.Value as value;

    ghost Value = { OpenItems };

    ghost coded = { Prim.hlevel (codes, value.the_row.coded) };

    ghost view = { λ book. record { items = book.items.items; spare = vec_room book.items } };

    ghost invariant = { λ book. RisesBy nat_cmp (λ (item : Item). item.actor) book.items.items };
}

impl Items {
    /// An empty book. It takes no memory.
    pub fn new(alloc: Global) -> Items
        ensures { result.items ≡ [] }
    {
        Items {
            items: Vec::new(alloc),
        }
    }

    /// Makes room, so that the next `more` calls of `open` succeed.
    pub fn reserve(&mut self, more: u64) -> Result<(), AllocError>
        ensures items { self.new.items ≡ self.old.items }
        ensures room { OnOk result (more ≤ self.new.spare) }
        ensures keeps_room { self.old.spare ≤ self.new.spare }
    {
        self.items.reserve(more as usize)
    }

    /// Opens an item that is newer than all others. For want of memory it hands the item back.
    pub fn open(&mut self, item: Item) -> Result<(), Item>
        requires { All (λ (other : Item). other.actor < item.actor) self.old.items }
        ensures ok { OnOk result (self.new.items ≡ with_open_item self.old.items item) }
        ensures err { OnErr result (self.new.items ≡ self.old.items) }
        ensures handed_back { IfErr result (λ back. back ≡ item) }
        ensures succeeds { 0 < self.old.spare → IsOk result }
        ensures takes_one { self.old.spare ≤ self.new.spare + 1 }
    {
        match self.items.push(item) {
            Ok(()) => Ok(()),
            Err(refused) => Err(refused.value),
        }
    }

    /// Closes an item, and gives it, if it is open. It is found by halves, and those after it move.
    pub fn close(&mut self, actor: u64) -> Option<Item>
        ensures item { result ≡ item_of actor self.old.items }
        ensures items { self.new.items ≡ without_item actor self.old.items }
        ensures keeps_room { self.old.spare ≤ self.new.spare }
    {
        match search(self.items.as_slice(), actor) {
            Ok(place) => Some(self.items.remove(place)),
            Err(_) => None,
        }
    }

    /// Lends the open items, by their numbers.
    pub fn list(&self) -> &[Item]
        ensures items { result.now ≡ self.now.items }
        ensures by_number { RisesBy nat_cmp (λ (item : Item). item.actor) result.now }
    {
        self.items.as_slice()
    }
}

/// Where an item is, or where it would go.
fn search(items: &[Item], actor: u64) -> Result<usize, usize>
    requires { RisesBy nat_cmp (λ (item : Item). item.actor) items.now }
    ensures within { IfOk result (λ place. place < length items.now) }
    ensures found { IfOk result (λ place. IsAt nat_cmp actor place (item_numbers items.now)) }
    ensures absent { IfErr result
        (λ place. IsAbsentAt nat_cmp actor place (item_numbers items.now)) }
{
    items.binary_search_by(|item| item.actor.cmp(&actor))
}
