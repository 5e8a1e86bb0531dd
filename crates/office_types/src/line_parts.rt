//! The parts of a line.

ghost use Rattle.std.specs.Prelude.{◌≡◌, ◌<◌, ◌↔◌, ◌==◌, All, position, MatchResult, IsTrue};
ghost use Rattle.std.specs.List.{list_all};
ghost use Rattle.office_types.specs.Callers.{is_caller, is_caller_byte};
ghost use Rattle.office_types.specs.LineParts.{IsCallerText, IsCut, IsNameText, IsSystemText, SpellsNumber, begins_number, is_spaceless};
ghost use Rattle.office_types.specs.RequestLines.{Reads};

use crate::limits::MAX_CALLER;
use crate::line_fault::LineFault;
use std::alloc::Global;
use std::str;
use xs_data::Text;
use xs_model::MAX_NAME;

/// What stands before the first space, and what stands after it.
pub(crate) fn cut(bytes: &[u8]) -> Result<(&[u8], &[u8]), LineFault>
    ensures { MatchResult result
        (λ parts. IsCut bytes.now parts.0.now parts.1.now)
        (λ fault. (fault ≡ LineFault.NotALine) × IsTrue (is_spaceless bytes.now)) }
{
    let Some(place) = first_space(bytes) else {
        return Err(LineFault::NotALine);
    };
    Ok((&bytes[..place], &bytes[place + 1..]))
}

// Where the first space stands.
fn first_space(bytes: &[u8]) -> Option<usize>
    ensures { result ≡ position (λ byte. byte == 32) bytes.now }
{
    bytes.iter().position(|byte| *byte == b' ')
}

/// The number of 64 bits that the bytes spell in decimal, with no leading zero. It takes no memory.
pub fn read_number(bytes: &[u8]) -> Result<u64, LineFault>
    ensures { Reads (SpellsNumber bytes.now) result }
{
    // `parse` would take a plus and leading zeros.
    if !begins_number(bytes) {
        return Err(LineFault::NotALine);
    }
    let Ok(digits) = str::from_utf8(bytes) else {
        return Err(LineFault::NotALine);
    };
    let Ok(number) = digits.parse::<u64>() else {
        return Err(LineFault::NotALine);
    };
    Ok(number)
}

// Whether a digit stands first, which is no 0 where another byte follows.
fn begins_number(bytes: &[u8]) -> bool
    ensures { result ≡ begins_number bytes.now }
{
    match bytes {
        [] => false,
        [only] => only.is_ascii_digit(),
        [first, ..] => first.is_ascii_digit() && *first != b'0',
    }
}

/// The caller that the bytes are.
pub(crate) fn read_caller(alloc: Global, bytes: &[u8]) -> Result<Text, LineFault>
    ensures { Reads (IsCallerText bytes.now) result }
{
    if !is_caller(bytes) {
        return Err(LineFault::NotALine);
    }
    let Ok(caller) = str::from_utf8(bytes) else {
        return Err(LineFault::NotALine);
    };
    Ok(Text::from_str(alloc, caller)?)
}

/// Whether the bytes are a letter from a to z and at most 63 of a to z, 0 to 9 and `-`. It looks at each
/// of them once.
pub fn is_caller(bytes: &[u8]) -> bool
    ensures { result ≡ is_caller bytes.now }
{
    let [first, rest @ ..] = bytes else {
        return false;
    };
    first.is_ascii_lowercase() && are_caller_bytes(rest) && bytes.len() <= MAX_CALLER
}

// Whether each byte is one that may follow the first one of a caller.
fn are_caller_bytes(bytes: &[u8]) -> bool
    ensures { result ≡ list_all is_caller_byte bytes.now }
{
    bytes
        .iter()
        .all(|byte| matches!(byte, b'a'..=b'z' | b'0'..=b'9' | b'-'))
}

/// The name with no space that the bytes are.
pub(crate) fn read_name(alloc: Global, bytes: &[u8]) -> Result<Text, LineFault>
    ensures { Reads (IsNameText bytes.now) result }
{
    if bytes.is_empty() || bytes.len() > MAX_NAME || !is_visible(bytes) {
        return Err(LineFault::NotALine);
    }
    let Ok(name) = str::from_utf8(bytes) else {
        return Err(LineFault::NotALine);
    };
    Ok(Text::from_str(alloc, name)?)
}

// Whether no space is among the bytes, and no byte below it.
fn is_visible(bytes: &[u8]) -> bool
    ensures { IsTrue result ↔ All (λ byte. 32 < byte) bytes.now }
{
    bytes.iter().all(|byte| *byte > b' ')
}

/// The system name that the bytes are, or none for `-`.
pub(crate) fn read_system(alloc: Global, bytes: &[u8]) -> Result<Option<Text>, LineFault>
    ensures { Reads (IsSystemText bytes.now) result }
{
    if bytes == b"-".as_slice() {
        return Ok(None);
    }
    Ok(Some(read_name(alloc, bytes)?))
}
