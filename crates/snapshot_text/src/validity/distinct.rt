//! Whether items are all different, and whether numbers rise.

ghost use Rattle.std.specs.Prelude.{◌≢◌, ◌↔◌, AllPairs, IsTrue};
ghost use Rattle.std.specs.List.Sorted.{IsStrictlyIncreasing};
ghost use Rattle.std.specs.declared.cmp.Ordering.TheVariants.{Equal as equal};

use std::cmp::Ordering;

/// Whether no two of the keys are equal. It sorts them and looks at neighbours; it takes no memory.
pub(crate) fn are_distinct<K: Ord + Drop>(mut keys: Vec<K>) -> bool
    ensures { IsTrue result ↔ AllPairs (λ a b. K.cmp a b ≢ equal) keys.items }
{
    keys.sort_unstable();
    for place in 1..keys.len() {
        if keys[place - 1].cmp(&keys[place]) == Ordering::Equal {
            return false;
        }
    }
    true
}

/// Whether each number is above the one before it.
pub(crate) fn do_rise(numbers: &[u32]) -> bool
    ensures { IsTrue result ↔ IsStrictlyIncreasing numbers.now }
{
    for place in 1..numbers.len() {
        if numbers[place - 1] >= numbers[place] {
            return false;
        }
    }
    true
}
