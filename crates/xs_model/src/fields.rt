//! Pairs sorted by their keys.

ghost use Rattle.std.specs.Prelude.{◌≡◌, [], ◌==◌, length, IfOk, IfErr, OnOk, OnErr, option_copied};
ghost use Rattle.xs_model.specs.Rising.{KeysRise, HoldsKeyAt, HasGapAt, key_cmp};

use std::alloc::Global;
use std::cmp::Ordering;
use std::marker::Model;
use xs_data::Text;

/// A list of pairs sorted by the keys' bytes, each key once. Contracts see it as that list.
#[derive(Debug, Drop)]
pub struct Entries<T> {
    pairs: Vec<(Text, T)>,
}

impl<T> Model for Entries<T> {
    ghost use Rattle.std.specs.Prelude.{List, ℕ};
    ghost use Rattle.std.specs.Coded.{coded_list, coded×, coded_ℕ};
    ghost use Rattle.xs_model.specs.Rising.{KeysRise};

    ghost Value = { List (List ℕ × T) };

    ghost coded = { coded_list (coded× (coded_list coded_ℕ) T.code) };

    ghost view = { λ fields. fields.pairs.items };

    ghost invariant = { λ fields. KeysRise fields.pairs.items };
}

impl<T> Entries<T> {
    ghost use Rattle.xs_model.specs.Rising.{get};

    /// The empty list. It takes no memory.
    pub fn new(alloc: Global) -> Entries<T>
        ensures { result ≡ [] }
    {
        Entries {
            pairs: Vec::new(alloc),
        }
    }

    /// How many pairs there are.
    pub fn len(&self) -> usize
        ensures { result ≡ length self.now }
    {
        self.pairs.len()
    }

    /// Whether there is no pair.
    pub fn is_empty(&self) -> bool
        ensures { result ≡ (length self.now == 0) }
    {
        self.pairs.is_empty()
    }

    /// Lends the pairs, in the order of their keys.
    pub fn as_slice(&self) -> &[(Text, T)]
        ensures pairs { result.now ≡ self.now }
        ensures sorted { KeysRise self.now }
    {
        self.pairs.as_slice()
    }

    /// Takes over pairs whose keys rise.
    pub(crate) fn from_sorted(pairs: Vec<(Text, T)>) -> Entries<T>
        requires { KeysRise pairs.items }
        ensures { result ≡ pairs.items }
    {
        Entries { pairs }
    }

    /// What is held under a key, found by halves.
    pub fn get(&self, key: &[u8]) -> Option<&T>
        ensures { option_copied result ≡ get key.now self.now }
    {
        match search(self.pairs.as_slice(), key) {
            Ok(place) => Some(&self.pairs[place].1),
            Err(_) => None,
        }
    }
}

impl<T: Drop> Entries<T> {
    ghost use Rattle.xs_model.specs.Rising.{put};

    /// Puts a value under a key, in place of what was held there. The place is found by halves, and
    /// a new pair moves those after it. For want of memory it hands the pair back.
    pub fn put(&mut self, key: Text, value: T) -> Result<(), (Text, T)>
        ensures ok { OnOk result (self.new ≡ put self.old key value) }
        ensures err { OnErr result (self.new ≡ self.old) }
        ensures handed_back { IfErr result (λ back. back ≡ (key, value)) }
    {
        match search(self.pairs.as_slice(), key.as_bytes()) {
            Ok(place) => {
                self.pairs[place] = (key, value);
                Ok(())
            }
            Err(place) => match self.pairs.insert(place, (key, value)) {
                Ok(()) => Ok(()),
                Err(refused) => Err(refused.value),
            },
        }
    }
}

/// Where the pair with the key is, or where it would go.
fn search<T>(pairs: &[(Text, T)], key: &[u8]) -> Result<usize, usize>
    requires { KeysRise pairs.now }
    ensures found { IfOk result (λ place. HoldsKeyAt key.now place pairs.now) }
    ensures absent { IfErr result (λ place. HasGapAt key.now place pairs.now) }
{
    pairs.binary_search_by(|pair| pair.0.as_bytes().cmp(key))
}
