//! How often numbers were counted.

ghost use Rattle.std.specs.Prelude.{◌≡◌, ◌+◌, ◌<◌, ◌^◌, ℕ, [], ◌∷◌, IfOk, OnOk};
ghost use Rattle.actor_tree.specs.HeldOffice.{times_among};
ghost use Rattle.actor_tree.specs.Tally.{tallied};

use std::alloc::AllocError;
use std::collections::BTreeMap;

/// Counts a number once more, and says how often it was counted by now.
pub(crate) fn add_one(tally: &mut BTreeMap<u64, u64>, number: u64) -> Result<u64, AllocError>
    requires { tallied tally.old number < 2 ^ 63 }
    ensures count { IfOk result (λ count. count ≡ tallied tally.new number) }
    ensures tally { OnOk result ((other : ℕ) → tallied tally.new other
        ≡ tallied tally.old other + times_among other (number ∷ [])) }
{
    let count = how_often(tally, number) + 1;
    tally.insert(number, count)?;
    Ok(count)
}

/// How often a number was counted.
pub(crate) fn how_often(tally: &BTreeMap<u64, u64>, number: u64) -> u64
    ensures { result ≡ tallied tally.now number }
{
    match tally.get(&number) {
        Some(count) => *count,
        None => 0,
    }
}
