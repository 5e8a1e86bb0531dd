//! Keys that may not be any text.

ghost use Rattle.std.specs.Prelude.{◌≡◌, ◌≤◌, IfSome, nat_le, true, if◌then◌else◌};
ghost use Rattle.std.specs.List.{list_all};
ghost use Rattle.ordered_json.specs.Meaning.{magnitude};
ghost use Rattle.machine_json.specs.Keys.{is_delay_key, is_digit, is_number, is_state_key, milliseconds_of};

use node_tree::{DOT, HASH};

/// The longest delay, in milliseconds.
pub const MAX_DELAY: u64 = 9_007_199_254_740_991;

/// Whether a target can name a state of this key.
pub fn is_state_key(key: &[u8]) -> bool
    ensures { result ≡ is_state_key key.now }
{
    !key.is_empty() && !key.contains(&DOT) && key[0] != HASH
}

/// Whether an `after` key is a delay's name, or digits that make a delay.
pub fn is_delay_key(key: &[u8]) -> bool
    ensures { result ≡ is_delay_key key.now }
{
    !is_number(key) || fits_a_delay(key)
}

/// Whether a key is digits alone.
pub fn is_number(key: &[u8]) -> bool
    ensures { result ≡ is_number key.now }
{
    !key.is_empty() && are_digits(key)
}

/// Whether each byte is a decimal digit.
fn are_digits(bytes: &[u8]) -> bool
    ensures { result ≡ list_all is_digit bytes.now }
{
    bytes.iter().all(|byte| is_digit(*byte))
}

/// Whether a byte is a decimal digit.
fn is_digit(byte: u8) -> bool
    ensures { result ≡ is_digit byte }
{
    b'0' <= byte && byte <= b'9'
}

/// Whether the number that digits spell is a delay.
fn fits_a_delay(digits: &[u8]) -> bool
    requires { is_number digits.now ≡ true }
    ensures { result ≡ nat_le (magnitude digits.now) MAX_DELAY }
{
    delay_value(digits).is_some()
}

/// The number of milliseconds that a key of digits is, if they make a delay.
pub(crate) fn milliseconds(key: &[u8]) -> Option<u64>
    ensures value { result ≡ milliseconds_of key.now }
    ensures bound { IfSome result (λ milliseconds. milliseconds ≤ MAX_DELAY) }
{
    if is_number(key) {
        delay_value(key)
    } else {
        None
    }
}

/// The number that digits spell, if it is a delay.
fn delay_value(digits: &[u8]) -> Option<u64>
    requires { is_number digits.now ≡ true }
    ensures value { result ≡ (if nat_le (magnitude digits.now) MAX_DELAY
        then Some (magnitude digits.now) else None) }
    ensures bound { IfSome result (λ delay. delay ≤ MAX_DELAY) }
{
    let mut delay = 0;
    for digit in digits {
        delay = delay * 10 + u64::from(*digit - b'0');
        if delay > MAX_DELAY {
            return None;
        }
    }
    Some(delay)
}
