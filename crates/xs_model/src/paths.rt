//! Paths: keys joined by dots. On a list a key is a place in decimal.

ghost use Rattle.std.specs.Prelude.{◌≡◌, ◌≢◌, ◌<◌, ◌^◌, ℕ, MatchOption, decimal, option_copied};
ghost use Rattle.xs_model.specs.Paths.{at_path, path_step};

use crate::value::Value;
use sqlite_items::at;

/// What stands at a path, lent. It takes no memory, and a path_step into a map goes by halves.
pub fn at_path<'a>(value: &'a Value, path: &str) -> Option<&'a Value>
    ensures { option_copied result ≡ at_path path.now value.now }
{
    if path.is_empty() {
        return Some(value);
    }
    let mut reached = value;
    let mut rest = path;
    while let Some((key, later)) = rest.split_once('.') {
        reached = path_step(reached, key)?;
        rest = later;
    }
    path_step(reached, rest)
}

/// What a key finds in a value.
fn path_step<'a>(value: &'a Value, key: &str) -> Option<&'a Value>
    ensures { option_copied result ≡ path_step key.now value.now }
{
    match value {
        Value::List(members) => at(members.as_slice(), place_of_key(key)?),
        Value::Map(members) => members.get(key.as_bytes()),
        _ => None,
    }
}

/// The number that a key is the decimal of.
fn place_of_key(key: &str) -> Option<usize>
    ensures { MatchOption result ((n : ℕ) → n < 2 ^ 63 → decimal n ≢ key.now)
        (λ n. (decimal n ≡ key.now) × (n < 2 ^ 64)) }
{
    let first = *key.as_bytes().first()?;
    if first == b'+' || (first == b'0' && key.len() > 1) {
        return None;
    }
    key.parse::<usize>().ok()
}
