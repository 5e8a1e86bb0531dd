//! The arrays and objects that are open.
ghost use Rattle.std.specs.Prelude.{◌≡◌, [], ◌∷◌, length, MatchOption, IfOk, IfErr, OnOk, Ok};

use crate::members::OpenMembers;
use crate::{JsonFault, OrderedJson};
use std::alloc::{AllocError, Global};
use std::marker::Model;
use xs_data::{Items, Text};

/// An array or an object that is open, with what it has so far.
#[derive(Drop)]
pub enum Level {
    /// An array, and where its bracket stands.
    List {
        place: usize,
        items: Items<OrderedJson>,
    },
    /// An object that awaits no value, and where its bracket stands.
    Object {
        place: usize,
        members: OpenMembers,
    },
    /// An object that awaits the value of a key.
    Member {
        place: usize,
        members: OpenMembers,
        key: Text,
        key_place: usize,
    },
}

impl Level {
    ghost use Rattle.ordered_json.specs.Steps.{with_value, IsFaultOf};

    /// The level with one more value, which stands before `place`.
    pub fn with_value(
        self,
        alloc: Global,
        place: usize,
        json: OrderedJson,
    ) -> Result<Level, JsonFault>
        ensures ok { IfOk result (λ more. with_value place json self ≡ Ok more) }
        ensures err { IfErr result (IsFaultOf (with_value place json self)) }
    {
        match self {
            Level::List { place, mut items } => match items.push(json) {
                Ok(()) => Ok(Level::List { place, items }),
                Err(_) => Err(JsonFault::Memory),
            },
            Level::Member {
                place,
                members,
                key,
                key_place,
            } => Ok(Level::Object {
                place,
                members: members.with(alloc, key, key_place, json)?,
            }),
            // An object awaits a value after a key alone.
            Level::Object { .. } => Err(JsonFault::Syntax(place)),
        }
    }
}

/// What follows a comma.
#[derive(Clone, Copy, Debug)]
pub enum Awaits {
    /// The next value of an array.
    Value,
    /// The next key of an object.
    Key,
    /// No comma may stand here.
    Nothing,
}

/// The open arrays and objects. Contracts see them as a list, the innermost first.
#[derive(Drop)]
pub struct Levels {
    levels: Vec<Level>,
}

impl Model for Levels {
    ghost use Rattle.std.specs.Coded.{codes};
    ghost use Rattle.std.specs.Prelude.{List, reverse};
    ghost use Rattle.ordered_json.specs.contracts.level.Level as level;
    ghost use Rattle.ordered_json.specs.declared.level.Level.{Level};

    ghost Value = { List Level };

    ghost coded = { Prim.hlevel (codes, level.the_row.coded) };

    ghost view = { λ l. reverse l.levels.items };
}

impl Levels {
    ghost use Rattle.ordered_json.specs.Steps.{awaits_of};

    /// None is open. It takes no memory.
    pub fn new(alloc: Global) -> Levels
        ensures { result ≡ [] }
    {
        Levels {
            levels: Vec::new(alloc),
        }
    }

    /// How many are open.
    pub fn len(&self) -> usize
        ensures { result ≡ length self.now }
    {
        self.levels.len()
    }

    /// Opens one inside the others.
    pub fn push(&mut self, level: Level) -> Result<(), AllocError>
        ensures { OnOk result (self.new ≡ level ∷ self.old) }
    {
        self.levels.push(level)?;
        Ok(())
    }

    /// What a comma stands between in the innermost.
    pub fn awaits(&self) -> Awaits
        ensures { result ≡ awaits_of self.now }
    {
        match self.levels.last() {
            Some(Level::List { .. }) => Awaits::Value,
            Some(Level::Object { .. }) => Awaits::Key,
            Some(Level::Member { .. }) | None => Awaits::Nothing,
        }
    }

    /// Takes the innermost out.
    pub fn pop(&mut self) -> Option<Level>
        ensures { MatchOption result ((self.old ≡ []) × (self.new ≡ []))
            (λ level. self.old ≡ level ∷ self.new) }
    {
        self.levels.pop()
    }
}
