//! Where the keys of an object stand among its members.

ghost use Rattle.std.specs.Prelude.{◌≡◌, map, IfOk};
ghost use Rattle.ordered_json.specs.Words.{member_parts};
ghost use Rattle.flat_core.specs.FlatText.{member_keys, place_of_state};

use ordered_json::Member;
use std::alloc::{AllocError, Global};
use std::collections::BTreeMap;
use std::marker::Model;

/// Where each key of an object's members stands first. Contracts see the keys, in order.
#[derive(Drop)]
pub struct Places<'a> {
    members: &'a [Member],
    places: BTreeMap<String, u32>,
}

impl<'a> Model for Places<'a> {
    ghost use Rattle.std.specs.Prelude.{◌≡◌, List, ℕ, map};
    ghost use Rattle.std.specs.BTreeMap.{get_by_text};
    ghost use Rattle.std.specs.Coded.{coded_ℕ, coded_list};
    ghost use Rattle.ordered_json.specs.Words.{member_parts};
    ghost use Rattle.flat_core.specs.FlatText.{member_keys, place_of_state};

    ghost Value = { List (List ℕ) };

    ghost coded = { coded_list (coded_list coded_ℕ) };

    ghost view = { λ p. member_keys (map member_parts p.members.now) };

    ghost invariant = { λ p. (key : List ℕ) →
        get_by_text p.places key
        ≡ place_of_state (member_keys (map member_parts p.members.now)) key };
}

impl<'a> Places<'a> {
    /// The places of the members' keys. It takes memory for a copy of each key. A place that 32 bits don't hold is want of
    /// memory.
    pub fn of(alloc: Global, members: &'a [Member]) -> Result<Places<'a>, AllocError>
        ensures { IfOk result (λ places. places ≡ member_keys (map member_parts members.now)) }
    {
        let mut places = BTreeMap::new(alloc);
        for (place, member) in members.iter().enumerate() {
            let key = member.key.as_str();
            if !places.contains_key(key) {
                let Ok(place) = u32::try_from(place) else {
                    return Err(AllocError);
                };
                places.insert(String::from_str(alloc, key)?, place)?;
            }
        }
        Ok(Places { members, places })
    }

    /// Where a key stands first, in time that grows with the logarithm of the number of keys.
    pub fn find(&self, key: &str) -> Option<u32>
        ensures { result ≡ place_of_state self.now key.now }
    {
        self.places.get(key).copied()
    }
}
