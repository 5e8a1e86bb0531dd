//! The members of an object that is open.
ghost use Rattle.std.specs.Prelude.{◌≡◌, [], ◌∷◌, ◌++◌, map, IfOk, OnOk};
ghost use Rattle.ordered_json.specs.Words.{key_of, member_of};
ghost use Rattle.ordered_json.specs.Meaning.{has_key};

use crate::{Member, OrderedJson};
use std::alloc::{AllocError, Global};
use std::collections::BTreeSet;
use std::marker::Model;
use xs_data::{Items, Text};

/// The members of an open object so far. Contracts see them as their list. Each key is there twice
/// until the object closes, among the members and in the set by which it is found again.
#[derive(Drop)]
pub struct OpenMembers {
    members: Items<Member>,
    keys: BTreeSet<String>,
}

impl Model for OpenMembers {
    ghost use Rattle.std.specs.Prelude.{◌≡◌, List, ℕ, map};
    ghost use Rattle.std.specs.BTreeSet.{contains_text};
    ghost use Rattle.std.specs.Coded.{codes};
    ghost use Rattle.ordered_json.specs.contracts.json.Member as member;
    ghost use Rattle.ordered_json.specs.declared.json.Member.{Member};
    ghost use Rattle.ordered_json.specs.Words.{key_of};
    ghost use Rattle.ordered_json.specs.Meaning.{has_key};

    ghost Value = { List Member };

    ghost coded = { Prim.hlevel (codes, member.the_row.coded) };

    ghost view = { λ m. m.members };

    ghost invariant = { λ m. (key : List ℕ)
        → contains_text m.keys key ≡ has_key key (map key_of m.members) };
}

impl OpenMembers {
    /// No member. It takes no memory.
    pub fn new(alloc: Global) -> OpenMembers
        ensures { result ≡ [] }
    {
        OpenMembers {
            members: Items::new(alloc),
            keys: BTreeSet::new(alloc),
        }
    }

    /// Whether one of the members has the key, in time that grows with the logarithm of their
    /// number.
    pub fn has_key(&self, key: &str) -> bool
        ensures { result ≡ has_key key.now (map key_of self.now) }
    {
        self.keys.contains(key)
    }

    /// The same members and one more at the end. It takes memory for a copy of the key too.
    pub fn with(
        self,
        alloc: Global,
        key: Text,
        key_place: usize,
        value: OrderedJson,
    ) -> Result<OpenMembers, AllocError>
        ensures { IfOk result (λ more. more ≡ self ++ member_of key key_place value ∷ []) }
    {
        let OpenMembers {
            mut members,
            mut keys,
        } = self;
        keys.insert(String::from_str(alloc, key.as_str())?)?;
        match members.push(Member {
            key,
            key_place,
            value,
        }) {
            Ok(()) => Ok(OpenMembers { members, keys }),
            Err(_) => Err(AllocError),
        }
    }

    /// The members, as they lie.
    pub fn into_items(self) -> Items<Member>
        ensures { result ≡ self }
    {
        let OpenMembers { members, keys: _ } = self;
        members
    }
}
