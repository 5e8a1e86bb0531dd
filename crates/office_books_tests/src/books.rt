//! Each call with ample memory: a body that always gives up would be proved.

ghost use Rattle.std.specs.Prelude.{◌≡◌, IfOk};
ghost use Rattle.std.specs.Bool.{OnTrue};
ghost use Rattle.office_books.specs.NumberedItems.{with_numbered_item};

mod scripts;

use office_books::{Items, Registry, Slots};
use office_types::Item;
use std::alloc::{AllocError, Global};
use std::process::Abort;
use std::test::Fail;
use xs_data::Text;
use xs_model::Value;

fn item(alloc: Global, actor: u64) -> Result<Item, AllocError>
    ensures { IfOk result (λ made. made.actor ≡ actor) }
{
    Ok(Item {
        actor,
        src: Text::from_str(alloc, "pay")?,
        input: Value::Null,
    })
}

/// Items of which that of actor 5 is open.
fn one_item(rt: &impl Abort, alloc: Global) -> Result<Items, AllocError> {
    let mut items = Items::new(alloc);
    items.reserve(1)?;
    assert!(rt; items.open(item(alloc, 5)?).is_ok());
    Ok(items)
}

fn is_pay(item: &Option<Item>) -> bool {
    match item {
        Some(item) => item.src.same(b"pay"),
        None => false,
    }
}

/// Whether the one open item is closed once.
fn is_closed_once(items: &mut Items) -> bool {
    let count = items.list().len();
    let other = items.close(4);
    let closed = items.close(5);
    let again = items.close(5);
    count == 1 && other.is_none() && is_pay(&closed) && again.is_none() && items.list().is_empty()
}

#[test]
fn an_item_is_closed_once(rt: HostRuntime) -> Result<(), Fail> {
    let mut items = one_item(&rt, rt.alloc())?;
    assert!(rt; is_closed_once(&mut items));
    Ok(())
}

/// A registry in which actor 2 holds `till`, and actor 3 `til`.
fn two_names(rt: &impl Abort, alloc: Global) -> Result<Registry, AllocError> {
    let mut registry = Registry::new(alloc);
    registry.reserve(2)?;
    assert!(rt; registry.hold(Text::from_str(alloc, "till")?, 2).is_ok());
    assert!(rt; registry.hold(Text::from_str(alloc, "til")?, 3).is_ok());
    Ok(registry)
}

/// Whether these actors hold `till` and `til`, and none a shorter or a longer name.
fn are_held_by(registry: &Registry, till: Option<u64>, til: Option<u64>) -> bool {
    registry.held(b"till") == till
        && registry.held(b"til") == til
        && registry.held(b"tills").is_none()
        && registry.held(b"").is_none()
}

#[test]
fn a_name_is_held_until_it_is_freed(rt: HostRuntime) -> Result<(), Fail> {
    let mut registry = two_names(&rt, rt.alloc())?;
    assert!(rt; are_held_by(&registry, Some(2), Some(3)));
    registry.free(4);
    registry.free(2);
    assert!(rt; are_held_by(&registry, None, Some(3)));
    Ok(())
}

/// Writes an item in place of that of a number, if there is one.
fn write(slots: &mut Slots<u64>, number: u64, item: u64) -> bool
    ensures { OnTrue result (slots.new.items ≡ with_numbered_item number item slots.old.items) }
{
    match slots.find_mut(number) {
        Some(held) => {
            *held = item;
            true
        }
        None => false,
    }
}

/// Items with the numbers 2 and 5.
fn two_items(alloc: Global) -> Result<Slots<u64>, AllocError> {
    let mut slots = Slots::new(alloc);
    slots.reserve(2)?;
    slots.push(2, 20);
    slots.push(5, 50);
    Ok(slots)
}

/// Whether the item with number 5 is written over, and that with number 2 is taken once.
fn are_written_and_taken(slots: &mut Slots<u64>) -> bool {
    let fifth = write(slots, 5, 51);
    let fourth = write(slots, 4, 41);
    let found = slots.find(5).copied();
    let taken = slots.take(2);
    let again = slots.take(2);
    fifth && !fourth && found == Some(51) && taken == Some(20) && again.is_none()
}

/// Whether an item with number 5 is the only one.
fn is_only(slots: &Slots<u64>, item: u64) -> bool {
    slots.len() == 1 && slots.iter().next() == Some((5, &item))
}

#[test]
fn an_item_is_held_by_its_number_until_it_is_taken(rt: HostRuntime) -> Result<(), Fail> {
    let mut slots = two_items(rt.alloc())?;
    assert!(rt; are_written_and_taken(&mut slots) && is_only(&slots, 51));
    slots.reserve(1)?;
    assert!(rt; is_only(&slots, 51));
    Ok(())
}
