//! Named values in the order in which they were put.

ghost use Rattle.std.specs.Prelude.{◌≡◌, [], ◌∷◌, ◌++◌, None, ◌==◌, length, slice_get, position, bytes_eq, IfErr, OnOk, OnErr, option_copied, option_map};
ghost use Rattle.xs_model.specs.Rising.{get};
ghost use Rattle.xs_model.specs.Names.{without};

use indexmap::IndexMap;
use std::alloc::Global;
use std::marker::Model;
use std::str;
use xs_data::Text;

/// Values under distinct names, in order of insertion, each found by a hash of its name. Contracts
/// see the list of pairs of a name's bytes and its value.
#[derive(Drop)]
pub struct Names<T> {
    alloc: Global,
    values: IndexMap<String, T>,
}

impl<T> Model for Names<T> {
    ghost use Rattle.std.specs.Prelude.{List, ℕ};
    ghost use Rattle.std.specs.Coded.{coded_list, coded×, coded_ℕ};
    ghost use Rattle.xs_model.specs.Names.{named_values};

    ghost Value = { List (List ℕ × T) };

    ghost coded = { coded_list (coded× (coded_list coded_ℕ) T.code) };

    ghost view = { λ names. named_values names.values.entries };
}

impl<T> Names<T> {
    /// No names. It takes no memory.
    pub fn new(alloc: Global) -> Names<T>
        ensures { result ≡ [] }
    {
        Names {
            alloc,
            values: IndexMap::new(alloc),
        }
    }

    /// How many names there are.
    pub fn len(&self) -> usize
        ensures { result ≡ length self.now }
    {
        self.values.len()
    }

    /// Whether there is no name.
    pub fn is_empty(&self) -> bool
        ensures { result ≡ (length self.now == 0) }
    {
        self.values.is_empty()
    }

    /// What a name stands for, found by a hash of its bytes. It takes no memory.
    pub fn get(&self, key: &[u8]) -> Option<&T>
        ensures { option_copied result ≡ get key.now self.now }
    {
        match str::from_utf8(key) {
            Ok(name) => self.values.get(name),
            Err(_) => None,
        }
    }

    /// At which place a name stands in the order of insertion, counted from 0, found by a hash of
    /// its bytes. It takes no memory.
    pub fn place_of(&self, key: &[u8]) -> Option<usize>
        ensures { result ≡ position (λ pair. bytes_eq key.now pair.0) self.now }
    {
        match str::from_utf8(key) {
            Ok(name) => self.values.get_index_of(name),
            Err(_) => None,
        }
    }

    /// The name and the value at a place in the order of insertion, counted from 0. It takes no
    /// memory.
    pub fn at(&self, place: usize) -> Option<(&str, &T)>
        ensures { option_map (λ pair. (pair.0.now, pair.1.now)) result ≡ slice_get self.now place }
    {
        match self.values.get_index(place) {
            Some((name, value)) => Some((name.as_str(), value)),
            None => None,
        }
    }
}

impl<T: Drop> Names<T> {
    /// Puts a value last, under a name that isn't held, which it copies. Now and then it moves all
    /// the pairs, so it takes constant time on average. For want of memory it hands the pair back.
    pub fn put_last(&mut self, key: Text, value: T) -> Result<(), (Text, T)>
        requires { get key self.old ≡ None }
        ensures ok { OnOk result (self.new ≡ self.old ++ (key, value) ∷ []) }
        ensures err { OnErr result (self.new ≡ self.old) }
        ensures handed_back { IfErr result (λ back. back ≡ (key, value)) }
    {
        let Ok(name) = String::from_str(self.alloc, key.as_str()) else {
            return Err((key, value));
        };
        match self.values.insert(name, value) {
            Ok(_) => Ok(()),
            Err(refused) => Err((key, refused.value.1)),
        }
    }

    /// Takes out what a name stands for. The others keep their order, so it moves those after it.
    /// It takes no memory.
    pub fn take(&mut self, key: &[u8]) -> Option<T>
        ensures value { result ≡ get key.now self.old }
        ensures rest { self.new ≡ without key.now self.old }
        ensures gone { get key.now self.new ≡ None }
    {
        match str::from_utf8(key) {
            Ok(name) => self.values.shift_remove(name),
            Err(_) => None,
        }
    }
}
