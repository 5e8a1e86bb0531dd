//! Random scripts, beside plain lists of what they leave.

ghost use Rattle.std.specs.Prelude.{◌≡◌, ◌<◌, [], ℕ, List, IfOk};
ghost use Rattle.std.specs.List.{All};
ghost use Rattle.office_types.specs.declared.office.Item.{Item};

use super::item;
use crate::numbers::Numbers;
use office_books::{Items, Registry};
use office_types::Item;
use std::alloc::Global;
use std::process::Abort;
use std::test::Fail;
use xs_data::Text;

const NAMES: [&str; 6] = ["", "a", "aa", "ab", "b", "\u{e9}"];

const STEPS: u64 = 400;

/// A registry, and its names by their places in `NAMES`.
#[derive(Drop)]
struct Names {
    registry: Registry,
    plain: Vec<(usize, u64)>,
    next: u64,
    ghost newer: { All (λ (holder : List ℕ × ℕ). holder.1 < next) registry.names },
}

impl Names {
    fn hold(&mut self, rt: &impl Abort, alloc: Global, place: usize) -> Result<(), Fail> {
        assert!(rt; place < NAMES.len() && self.next < STEPS);
        let name = NAMES[place];
        if self.registry.held(name.as_bytes()).is_some() {
            return Ok(());
        }
        let actor = self.next;
        self.next += 1;
        assert!(rt;
            self.registry
                .hold(Text::from_str(alloc, name)?, actor)
                .is_ok()
        );
        self.plain.push((place, actor))?;
        Ok(())
    }

    fn free(&mut self, actor: u64) {
        self.registry.free(actor);
        self.plain.retain(|held| held.1 != actor);
    }

    /// Makes a random call.
    fn step(&mut self, rt: &impl Abort, alloc: Global, numbers: &mut Numbers) -> Result<(), Fail> {
        let recent = self.next.saturating_sub(numbers.below(6));
        match numbers.below(3) {
            0 => self.free(numbers.below(STEPS)),
            1 => self.free(recent),
            _ => self.hold(rt, alloc, numbers.below(6) as usize)?,
        }
        Ok(())
    }

    /// Whether each name is held as the plain list says.
    fn agrees(&self) -> bool {
        for (place, name) in NAMES.iter().enumerate() {
            if self.registry.held(name.as_bytes()) != holder_in(&self.plain, place) {
                return false;
            }
        }
        true
    }
}

/// The actor that holds the name at a place of `NAMES`.
fn holder_in(plain: &[(usize, u64)], place: usize) -> Option<u64> {
    for held in plain {
        if held.0 == place {
            return Some(held.1);
        }
    }
    None
}

#[test]
fn names_are_those_of_the_plain_list(rt: HostRuntime) -> Result<(), Fail> {
    let mut numbers = Numbers(12);
    let mut names = Names {
        registry: Registry::new(rt.alloc()),
        plain: Vec::new(rt.alloc()),
        next: 0,
    };
    for _ in 0..STEPS {
        names.step(&rt, rt.alloc(), &mut numbers)?;
        assert!(rt; names.agrees());
    }
    Ok(())
}

/// Open items, and their numbers.
#[derive(Drop)]
struct Open {
    items: Items,
    plain: Vec<u64>,
    next: u64,
    ghost newer: { All (λ (item : Item). item.actor < next) items.items },
}

impl Open {
    fn open(&mut self, rt: &impl Abort, alloc: Global) -> Result<(), Fail> {
        assert!(rt; self.next < STEPS);
        let actor = self.next;
        self.next += 1;
        assert!(rt; self.items.open(item(alloc, actor)?).is_ok());
        self.plain.push(actor)?;
        Ok(())
    }

    fn close(&mut self, rt: &impl Abort, actor: u64) {
        let closed = self.items.close(actor).map(|item| item.actor);
        let plain = self.plain.iter().copied().find(|open| *open == actor);
        assert_eq!(rt; closed, plain);
        self.plain.retain(|open| *open != actor);
    }

    /// Makes a random call.
    fn step(&mut self, rt: &impl Abort, alloc: Global, numbers: &mut Numbers) -> Result<(), Fail> {
        let recent = self.next.saturating_sub(numbers.below(6));
        match numbers.below(3) {
            0 => self.close(rt, numbers.below(STEPS)),
            1 => self.close(rt, recent),
            _ => self.open(rt, alloc)?,
        }
        Ok(())
    }

    /// Whether the items that the plain list names are open.
    fn agrees(&self) -> bool {
        have_numbers(self.items.list(), &self.plain)
    }
}

fn have_numbers(items: &[Item], numbers: &[u64]) -> bool {
    for (item, number) in items.iter().zip(numbers) {
        if item.actor != *number {
            return false;
        }
    }
    items.len() == numbers.len()
}

#[test]
fn items_are_those_of_the_plain_list(rt: HostRuntime) -> Result<(), Fail> {
    let mut numbers = Numbers(13);
    let mut open = Open {
        items: Items::new(rt.alloc()),
        plain: Vec::new(rt.alloc()),
        next: 0,
    };
    for _ in 0..STEPS {
        open.step(&rt, rt.alloc(), &mut numbers)?;
        assert!(rt; open.agrees());
    }
    Ok(())
}
