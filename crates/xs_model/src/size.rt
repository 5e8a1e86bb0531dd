//! How long the compact text of a value is.

ghost use Rattle.std.specs.Prelude.{◌≡◌, ◌≤◌, decimal, length, min, ◌+◌, nat_lt};
ghost use Rattle.std.specs.Fmt.{signed_decimal};
ghost use Rattle.json.specs.Print.{escape_letter, escape_byte};
ghost use Rattle.xs_model.specs.Compact.{quoted_text, compact_text};

use crate::value::Value;

/// The length of a value's compact text; the greatest `u64` where it is more. It takes no memory,
/// and looks at each byte of the value's texts once.
pub fn text_len(value: &Value) -> u64
    ensures { result ≡ min (length (compact_text value.now)) u64.MAX }
{
    // An opening bracket, and a comma or the closing bracket after each member.
    let mut len: u64 = 1;
    match value {
        Value::Null | Value::Bool(true) => 4,
        Value::Bool(false) => 5,
        Value::Int(number) => int_len(*number),
        Value::Text(text) => quoted_len(text.as_bytes()),
        Value::List(members) => {
            for member in members.as_slice() {
                len = len.saturating_add(text_len(member)).saturating_add(1);
            }
            len.max(2)
        }
        Value::Map(members) => {
            for (key, member) in members.as_slice() {
                len = len.saturating_add(keyed_len(key.as_bytes(), text_len(member)));
            }
            len.max(2)
        }
    }
}

/// The length of a key, a colon and a text of this length, and a comma or bracket after them.
fn keyed_len(key: &[u8], len: u64) -> u64
    ensures { result ≡ min (length (quoted_text key.now) + len + 2) u64.MAX }
{
    quoted_len(key).saturating_add(len).saturating_add(2)
}

/// How many bytes a number has in decimal, with its sign.
fn int_len(number: i64) -> u64
    ensures { result ≡ length (signed_decimal number) }
{
    let digits = decimal_len(number.unsigned_abs());
    if number < 0 { digits + 1 } else { digits }
}

fn decimal_len(number: u64) -> u64
    ensures exact { result ≡ length (decimal number) }
    ensures small { result ≤ 20 }
{
    let mut rest = number;
    let mut len = 1;
    while rest >= 10 {
        rest /= 10;
        len += 1;
    }
    len
}

/// The length of a text's compact form, in quotes and with its escapes; the greatest `u64` where it
/// is more. It looks at each byte once.
pub fn quoted_len(text: &[u8]) -> u64
    ensures { result ≡ min (length (quoted_text text.now)) u64.MAX }
{
    let mut len: u64 = 2;
    for &byte in text {
        len = len.saturating_add(escaped_len(byte));
    }
    len
}

/// How many bytes stand for a byte between the quotes.
fn escaped_len(byte: u8) -> u64
    ensures { result ≡ length (escape_byte byte) }
{
    if has_short_escape(byte) {
        2
    } else if byte < 32 {
        6
    } else {
        1
    }
}

/// Whether a backslash and a letter stand for the byte.
fn has_short_escape(byte: u8) -> bool
    ensures { result ≡ nat_lt 0 (escape_letter byte) }
{
    matches!(byte, b'"' | b'\\' | 8 | b'\t' | b'\n' | 12 | b'\r')
}
