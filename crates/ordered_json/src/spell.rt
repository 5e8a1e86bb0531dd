//! The characters of a string, byte by byte.
ghost use Rattle.std.specs.Prelude.{◌≡◌, ◌≤◌, ◌<◌, ◌^◌, ◌&&◌, cond, nat_le};
ghost use Rattle.std.specs.Char.{digit_value, is_digit};
ghost use Rattle.ordered_json.specs.Grammar as grammar;
ghost use Rattle.ordered_json.specs.Spell as spells;
ghost use Rattle.ordered_json.specs.declared.mode.Spelled.TheVariants as spelled;

use crate::byte::escape_value;
use crate::mode::{Spelled, Spelling, Unit};

/// Reads one byte of a string (RFC 8259, section 7, over UTF-8 of RFC 3629).
pub fn spell(at: Spelling, byte: u8) -> Spelled
    ensures { result ≡ spells.spell at byte }
{
    match at {
        Spelling::Between => spell_first(byte),
        Spelling::Backslash => spell_escape(byte),
        Spelling::Hex0 => more_if(is_hex(byte), Spelling::Hex1(byte)),
        Spelling::Hex1(a) => more_if(is_no_low(a, byte), Spelling::Hex2(a, byte)),
        Spelling::Hex2(a, b) => more_if(is_hex(byte), Spelling::Hex3(a, b, byte)),
        Spelling::Hex3(a, b, c) if is_hex(byte) => unit_end(Unit::new(a, b, c, byte)),
        Spelling::High(high) => more_if(byte == b'\\', Spelling::HighBackslash(high)),
        Spelling::HighBackslash(high) => more_if(byte == b'u', Spelling::Low0(high)),
        Spelling::Low0(high) => more_if(digit_value(byte) == 13, Spelling::Low1(high, byte)),
        Spelling::Low1(high, a) => more_if(is_low_second(byte), Spelling::Low2(high, a, byte)),
        Spelling::Low2(high, a, b) => more_if(is_hex(byte), Spelling::Low3(high, a, b, byte)),
        Spelling::Low3(high, a, b, c) if is_hex(byte) => pair_end(high, Unit::new(a, b, c, byte)),
        Spelling::Lead1(first) if is_second(first, byte) => spell_second(first, byte),
        Spelling::Lead2(first, second) if is_tail(byte) => spell_third(first, second, byte),
        Spelling::Lead3(a, b, c) if is_tail(byte) => char_of(four_bytes(a, b, c, byte)),
        _ => Spelled::Bad,
    }
}

/// The character goes on, if the byte may stand there.
fn more_if(may_stand: bool, next: Spelling) -> Spelled
    ensures { result ≡ cond may_stand (spelled.More next) spelled.Bad }
{
    if may_stand {
        Spelled::More(next)
    } else {
        Spelled::Bad
    }
}

/// Whether the byte is the second digit of a low surrogate's code unit.
fn is_low_second(byte: u8) -> bool
    ensures { result ≡ is_digit byte 16 && nat_le 12 (digit_value byte) }
{
    is_hex(byte) && digit_value(byte) >= 12
}

/// The first byte of a character, or the closing quote.
fn spell_first(byte: u8) -> Spelled
    ensures { result ≡ spells.spell Spelling.Between byte }
{
    match byte {
        b'"' => Spelled::End,
        b'\\' => Spelled::More(Spelling::Backslash),
        0..32 => Spelled::Bad,
        32..128 => Spelled::Char(byte as char),
        0xC2..=0xF4 => Spelled::More(Spelling::Lead1(byte)),
        _ => Spelled::Bad,
    }
}

/// The byte after a backslash.
fn spell_escape(byte: u8) -> Spelled
    ensures { result ≡ spells.spell Spelling.Backslash byte }
{
    if byte == b'u' {
        return Spelled::More(Spelling::Hex0);
    }
    match escape_value(byte) {
        0 => Spelled::Bad,
        value => Spelled::Char(value as char),
    }
}

/// The second byte of a character in UTF-8.
fn spell_second(first: u8, second: u8) -> Spelled
    ensures { result ≡ spells.after_second first second }
{
    if first < 0xE0 {
        char_of(u32::from(first % 32) * 64 + u32::from(second % 64))
    } else {
        Spelled::More(Spelling::Lead2(first, second))
    }
}

/// The third byte of a character in UTF-8.
fn spell_third(first: u8, second: u8, third: u8) -> Spelled
    ensures { result ≡ spells.after_third first second third }
{
    if first < 0xF0 {
        char_of((u32::from(first % 16) * 64 + u32::from(second % 64)) * 64 + u32::from(third % 64))
    } else {
        Spelled::More(Spelling::Lead3(first, second, third))
    }
}

/// The code of a character of four bytes.
fn four_bytes(first: u8, second: u8, third: u8, fourth: u8) -> u32
    ensures { result ≡ spells.four_bytes first second third fourth }
{
    let high = u32::from(first % 8) * 64 + u32::from(second % 64);
    (high * 64 + u32::from(third % 64)) * 64 + u32::from(fourth % 64)
}

/// Whether the second byte of a character may follow its first in UTF-8.
fn is_second(first: u8, second: u8) -> bool
    ensures { result ≡ spells.is_second first second }
{
    if first == 0xE0 {
        0xA0 <= second && second <= 0xBF
    } else if first == 0xED {
        0x80 <= second && second <= 0x9F
    } else if first == 0xF0 {
        0x90 <= second && second <= 0xBF
    } else if first == 0xF4 {
        0x80 <= second && second <= 0x8F
    } else {
        is_tail(second)
    }
}

/// Whether the byte is a later one of a character in UTF-8.
fn is_tail(byte: u8) -> bool
    ensures { result ≡ spells.is_tail byte }
{
    0x80 <= byte && byte <= 0xBF
}

/// The value of a digit or a letter as a digit, and 36 for any other byte.
fn digit_value(byte: u8) -> u32
    ensures value { result ≡ digit_value byte }
    ensures small { result ≤ 36 }
{
    match byte {
        b'0'..=b'9' => u32::from(byte - b'0'),
        b'A'..=b'Z' => u32::from(byte - b'A') + 10,
        b'a'..=b'z' => u32::from(byte - b'a') + 10,
        _ => 36,
    }
}

/// Whether the byte is a hexadecimal digit.
fn is_hex(byte: u8) -> bool
    ensures { result ≡ is_digit byte 16 }
{
    digit_value(byte) < 16
}

/// Whether two digits begin a code unit of UTF-16 that is no low surrogate.
fn is_no_low(first: u8, second: u8) -> bool
    ensures { result ≡ spells.is_no_low first second }
{
    is_hex(second) && !(digit_value(first) == 13 && digit_value(second) >= 12)
}

/// The code unit that four digits spell.
fn hex_value(unit: Unit) -> u32
    ensures value { result ≡ spells.hex_value unit }
    ensures small { result < 2 ^ 18 }
{
    let high = digit_value(unit.first) * 16 + digit_value(unit.second);
    (high * 16 + digit_value(unit.third)) * 16 + digit_value(unit.fourth)
}

/// A character by its code.
fn char_of(code: u32) -> Spelled
    ensures { result ≡ spells.char_of code }
{
    match char::from_u32(code) {
        Some(character) => Spelled::Char(character),
        None => Spelled::Bad,
    }
}

/// Four digits that stand first.
fn unit_end(unit: Unit) -> Spelled
    ensures { result ≡ spells.unit_end unit }
{
    let code = hex_value(unit);
    if is_high_surrogate(code) {
        Spelled::More(Spelling::High(unit))
    } else {
        char_of(code)
    }
}

/// Four digits after those of a high surrogate.
fn pair_end(high: Unit, low: Unit) -> Spelled
    ensures { result ≡ spells.pair_end high low }
{
    let high = hex_value(high);
    let low = hex_value(low);
    if is_high_surrogate(high) && is_low_surrogate(low) {
        char_of(0x10000 + (high - 0xD800) * 1024 + (low - 0xDC00))
    } else {
        Spelled::Bad
    }
}

/// Whether the code is a high surrogate.
fn is_high_surrogate(code: u32) -> bool
    ensures { result ≡ grammar.is_high_surrogate code }
{
    0xD800 <= code && code < 0xDC00
}

/// Whether the code is a low surrogate.
fn is_low_surrogate(code: u32) -> bool
    ensures { result ≡ grammar.is_low_surrogate code }
{
    0xDC00 <= code && code < 0xE000
}
