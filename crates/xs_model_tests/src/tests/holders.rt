//! Copies, equality, and the two lists of pairs.

use crate::tests::given::{Given, KINDS, expr, gives, same_kind, value};
use std::alloc::Global;
use std::test::Fail;
use xs_model::*;

/// Whether the value is equal to that kind just where it is of that kind.
fn compares(alloc: Global, copied: &Value, given: Given, other: Given) -> Result<bool, EvalFault> {
    Ok(same(copied, &value(alloc, other)?) == same_kind(given, other))
}

fn copies(alloc: Global, given: Given) -> Result<bool, EvalFault> {
    let copied = copy(alloc, &value(alloc, given)?)?;
    for other in KINDS.iter() {
        if !compares(alloc, &copied, given, *other)? {
            return Ok(false);
        }
    }
    Ok(true)
}

#[test]
fn a_copy_is_equal(rt: HostRuntime) -> Result<(), Fail> {
    for (place, given) in KINDS.iter().enumerate() {
        assert!(rt; copies(rt.alloc(), *given)?, "kind {place}");
    }
    Ok(())
}

/// Keys in the order in which they are put.
const PUT: [(&str, u8); 6] = [
    ("b", 1),
    ("", 2),
    ("ab", 3),
    ("a", 4),
    ("\u{e9}", 5),
    ("b", 6),
];

/// The same keys sorted by their bytes, each with what was put last.
const SORTED: [(&str, u8); 5] = [("", 2), ("a", 4), ("ab", 3), ("b", 6), ("\u{e9}", 5)];

/// The entries of [`PUT`].
fn entered(alloc: Global) -> Result<Entries<u8>, Fail> {
    let mut entries: Entries<u8> = Entries::new(alloc);
    for (key, number) in PUT.iter() {
        if entries.put(Text::from_str(alloc, key)?, *number).is_err() {
            return Err(Fail::new("no memory"));
        }
    }
    Ok(entries)
}

fn begin_empty(alloc: Global) -> bool {
    let entries: Entries<u8> = Entries::new(alloc);
    entries.is_empty()
}

#[test]
fn new_entries_are_empty(rt: HostRuntime) -> Result<(), Fail> {
    assert!(rt; begin_empty(rt.alloc()));
    Ok(())
}

fn stands_at(entries: &Entries<u8>, place: usize, key: &str, wanted: u8) -> bool {
    match entries.as_slice().get(place) {
        Some((found, number)) => found.as_str() == key && *number == wanted,
        None => false,
    }
}

#[test]
fn entries_are_sorted_and_keep_the_last(rt: HostRuntime) -> Result<(), Fail> {
    let entries = entered(rt.alloc())?;
    for (place, (key, wanted)) in SORTED.iter().enumerate() {
        assert!(rt; stands_at(&entries, place, key, *wanted), "{key}");
    }
    Ok(())
}

fn is_entered(entries: &Entries<u8>, key: &str, wanted: u8) -> bool {
    entries.get(key.as_bytes()).copied() == Some(wanted)
}

#[test]
fn entries_are_found_by_their_keys(rt: HostRuntime) -> Result<(), Fail> {
    let entries = entered(rt.alloc())?;
    for (key, wanted) in SORTED.iter() {
        assert!(rt; is_entered(&entries, key, *wanted), "{key}");
    }
    Ok(())
}

fn are_no_others(entries: &Entries<u8>) -> bool {
    entries.len() == 5 && entries.get(b"c").is_none()
}

#[test]
fn what_is_not_entered_is_not_found(rt: HostRuntime) -> Result<(), Fail> {
    assert!(rt; are_no_others(&entered(rt.alloc())?));
    Ok(())
}

/// Names in the order in which they are put, which is not that of their bytes.
const NAMED: [(&str, u8); 4] = [("b", 1), ("", 2), ("\u{e9}", 3), ("a", 4)];

/// The names of [`NAMED`], in their order.
fn named(alloc: Global) -> Result<Names<u8>, Fail> {
    let mut names: Names<u8> = Names::new(alloc);
    for (key, number) in NAMED.iter() {
        if names.get(key.as_bytes()).is_some() {
            return Err(Fail::new("named twice"));
        }
        if names
            .put_last(Text::from_str(alloc, key)?, *number)
            .is_err()
        {
            return Err(Fail::new("no memory"));
        }
    }
    Ok(names)
}

fn is_named_at(names: &Names<u8>, place: usize, key: &str, wanted: u8) -> bool {
    match names.at(place) {
        Some((name, number)) => name == key && *number == wanted,
        None => false,
    }
}

#[test]
fn names_stand_in_the_order_of_insertion(rt: HostRuntime) -> Result<(), Fail> {
    let names = named(rt.alloc())?;
    for (place, (key, number)) in NAMED.iter().enumerate() {
        assert!(rt; is_named_at(&names, place, key, *number), "{key}");
    }
    Ok(())
}

#[test]
fn names_have_their_places(rt: HostRuntime) -> Result<(), Fail> {
    let names = named(rt.alloc())?;
    for (place, (key, _)) in NAMED.iter().enumerate() {
        assert!(rt; names.place_of(key.as_bytes()) == Some(place), "{key}");
    }
    Ok(())
}

fn are_four(names: &Names<u8>) -> bool {
    names.len() == 4 && !names.is_empty() && names.at(4).is_none()
}

#[test]
fn names_end_with_the_last_one(rt: HostRuntime) -> Result<(), Fail> {
    assert!(rt; are_four(&named(rt.alloc())?));
    Ok(())
}

fn lacks(names: &Names<u8>, key: &[u8]) -> bool {
    names.place_of(key).is_none()
}

#[test]
fn what_is_not_named_is_not_found(rt: HostRuntime) -> Result<(), Fail> {
    let names = named(rt.alloc())?;
    assert!(rt; lacks(&names, b"c") && lacks(&names, b"\xe9"));
    Ok(())
}

fn is_taken(names: &mut Names<u8>, key: &[u8], wanted: u8) -> bool {
    names.take(key) == Some(wanted) && names.take(key).is_none() && names.get(key).is_none()
}

#[test]
fn a_name_that_is_taken_out_is_gone(rt: HostRuntime) -> Result<(), Fail> {
    let mut names = named(rt.alloc())?;
    let taken = is_taken(&mut names, b"", 2);
    assert!(rt; taken && is_named_at(&names, 1, "\u{e9}", 3));
    Ok(())
}

/// A copy of a `Cancel` with that name.
fn copied_cancel(alloc: Global, given: Given) -> Result<Action, EvalFault> {
    let cancel = Action::Cancel {
        id: expr(alloc, given)?,
    };
    Ok(copy_action(alloc, &cancel)?)
}

fn cancels(alloc: Global, action: &Action, given: Given) -> Result<bool, EvalFault> {
    match action {
        Action::Cancel { id } => gives(alloc, id, Ok(given)),
        _ => Ok(false),
    }
}

#[test]
fn a_copied_action_has_the_same_parts(rt: HostRuntime) -> Result<(), Fail> {
    let copied = copied_cancel(rt.alloc(), Given::Text("p"))?;
    assert!(rt; cancels(rt.alloc(), &copied, Given::Text("p"))?);
    Ok(())
}
