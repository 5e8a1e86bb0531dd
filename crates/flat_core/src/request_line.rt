//! The reader of a line that is a request.

ghost use Rattle.std.specs.Prelude.{◌≡◌, ◌<◌, ◌↔◌, ◌==◌, All, position, MatchResult, IsTrue, option_and_then};
ghost use Rattle.std.specs.Option.{option_copied};
ghost use Rattle.std.specs.List.{list_all};
ghost use Rattle.xs_data.specs.Ascii.{space};
ghost use Rattle.ordered_json.specs.Words.{as_object};
ghost use Rattle.flat_core.specs.LineParts.{IsCut, begins_number, is_spaceless, IsNumber, IsNameText, IsCallerText, IsStart, IsSend};
ghost use Rattle.flat_core.specs.RequestLine.{ReadsLine, IsAsk, IsEvent, IsRequest, is_caller, is_sendable, is_caller_byte, type_in};

use crate::request::{Ask, Request};
use ordered_json::{JsonFault, OrderedJson};
use std::alloc::{AllocError, Global};
use std::str;
use thiserror::Error;
use xs_data::Text;
use xs_model::{MAX_EVENT_TEXT, MAX_NAME, quoted_len};

/// Why a line isn't read as a request.
#[derive(Clone, Copy, Debug, PartialEq, Eq, Error)]
pub enum LineFault {
    /// The line is no request's.
    #[error("the line is no request")]
    NotALine,
    #[error("out of memory")]
    Memory,
}

impl From<AllocError> for LineFault {
    ghost use Rattle.flat_core.specs.declared.request_line.LineFault.TheVariants.{Memory};

    ghost from_gives = { λ _ fault. fault ≡ Memory };

    fn from(_error: AllocError) -> LineFault {
        LineFault::Memory
    }
}

impl From<JsonFault> for LineFault {
    ghost use Rattle.flat_core.specs.LineParts.{line_fault};

    ghost from_gives = { λ fault line. line ≡ line_fault fault };

    fn from(fault: JsonFault) -> LineFault {
        match fault {
            JsonFault::Memory => LineFault::Memory,
            _ => LineFault::NotALine,
        }
    }
}

/// The longest line, in bytes, its line feed left out.
pub const MAX_LINE: usize = 65_536;

/// The longest caller, in bytes.
pub const MAX_CALLER: usize = 64;

/// The bytes of `{"type":` and `}`, which stand round an event's type.
const AROUND_TYPE: u64 = 9;

/// Reads the line of a request, given without its line feed: a caller, its number, and `start MACHINE - null` or
/// `send ACTOR JSON`, with one space between two parts. The JSON, which white space may stand round, is an object
/// whose one member is `type`, a text. That text doesn't begin with `xstate.`, and the object's compact text has at most
/// 4,096 bytes. The cost is linear in the line.
pub fn read_request(alloc: Global, line: &[u8]) -> Result<Request, LineFault>
    ensures { ReadsLine (IsRequest line.now) result }
{
    if line.len() > MAX_LINE {
        return Err(LineFault::NotALine);
    }
    let (caller, rest) = cut(line)?;
    let (number, ask) = cut(rest)?;
    let caller = read_caller(alloc, caller)?;
    let number = read_number(number)?;
    if number == 0 {
        return Err(LineFault::NotALine);
    }
    let ask = read_ask(alloc, ask)?;
    Ok(Request {
        caller,
        number,
        ask,
    })
}

/// What is asked for.
fn read_ask(alloc: Global, text: &[u8]) -> Result<Ask, LineFault>
    ensures { ReadsLine (IsAsk text.now) result }
{
    let (word, rest) = cut(text)?;
    if word == b"start".as_slice() {
        let machine = read_start(alloc, rest)?;
        return Ok(Ask::Start { machine });
    }
    if word == b"send".as_slice() {
        let (actor, event) = read_send(alloc, rest)?;
        return Ok(Ask::Send { actor, event });
    }
    Err(LineFault::NotALine)
}

/// The id of the machine, behind the word `start`.
fn read_start(alloc: Global, bytes: &[u8]) -> Result<Text, LineFault>
    ensures { ReadsLine (IsStart bytes.now) result }
{
    let (machine, rest) = cut(bytes)?;
    if rest != b"- null".as_slice() {
        return Err(LineFault::NotALine);
    }
    read_name(alloc, machine)
}

/// The actor and the type of the event, behind the word `send`.
fn read_send(alloc: Global, bytes: &[u8]) -> Result<(u64, Text), LineFault>
    ensures { ReadsLine (IsSend bytes.now) result }
{
    let (actor, json) = cut(bytes)?;
    let actor = read_number(actor)?;
    let event = read_event(alloc, json)?;
    Ok((actor, event))
}

/// The type of the event that the bytes mean.
fn read_event(alloc: Global, bytes: &[u8]) -> Result<Text, LineFault>
    ensures { ReadsLine (IsEvent bytes.now) result }
{
    ordered_json::laws::meaning_is_unique();
    let json = ordered_json::read(alloc, bytes)?;
    let Some(kind) = type_of(&json) else {
        return Err(LineFault::NotALine);
    };
    if !is_sendable(kind.as_bytes()) {
        return Err(LineFault::NotALine);
    }
    Ok(kind.copy(alloc)?)
}

/// The text of an object whose one member is `type`, a text.
fn type_of(json: &OrderedJson) -> Option<&Text>
    ensures { option_copied result ≡ option_and_then type_in (as_object json.now) }
{
    let [member] = json.as_object()? else {
        return None;
    };
    if !member.key.same(b"type") {
        return None;
    }
    member.value.as_text()
}

/// Whether an event of this type may be sent: it isn't too long, and its type isn't one of the machines' own.
fn is_sendable(kind: &[u8]) -> bool
    ensures { result ≡ is_sendable kind.now }
{
    quoted_len(kind).saturating_add(AROUND_TYPE) <= MAX_EVENT_TEXT
        && !kind.starts_with(b"xstate.".as_slice())
}

/// The name that the bytes are.
fn read_name(alloc: Global, bytes: &[u8]) -> Result<Text, LineFault>
    ensures { ReadsLine (IsNameText bytes.now) result }
{
    if bytes.is_empty() || bytes.len() > MAX_NAME || !is_visible(bytes) {
        return Err(LineFault::NotALine);
    }
    let Ok(name) = str::from_utf8(bytes) else {
        return Err(LineFault::NotALine);
    };
    Ok(Text::from_str(alloc, name)?)
}

/// Whether no space is among the bytes, and no byte below it.
fn is_visible(bytes: &[u8]) -> bool
    ensures { IsTrue result ↔ All (λ b. space < b) bytes.now }
{
    bytes.iter().all(|byte| *byte > b' ')
}

/// The caller that the bytes are.
fn read_caller(alloc: Global, bytes: &[u8]) -> Result<Text, LineFault>
    ensures { ReadsLine (IsCallerText bytes.now) result }
{
    if !is_caller(bytes) {
        return Err(LineFault::NotALine);
    }
    let Ok(caller) = str::from_utf8(bytes) else {
        return Err(LineFault::NotALine);
    };
    Ok(Text::from_str(alloc, caller)?)
}

/// Whether the bytes are a caller.
fn is_caller(bytes: &[u8]) -> bool
    ensures { result ≡ is_caller bytes.now }
{
    let [first, rest @ ..] = bytes else {
        return false;
    };
    first.is_ascii_lowercase() && rest.len() < MAX_CALLER && are_caller_bytes(rest)
}

/// Whether each byte is one that may follow the first one of a caller.
fn are_caller_bytes(bytes: &[u8]) -> bool
    ensures { result ≡ list_all is_caller_byte bytes.now }
{
    bytes
        .iter()
        .all(|byte| matches!(byte, b'a'..=b'z' | b'0'..=b'9' | b'-'))
}

/// The number that the bytes spell in decimal, with no leading zero.
pub fn read_number(bytes: &[u8]) -> Result<u64, LineFault>
    ensures { ReadsLine (IsNumber bytes.now) result }
{
    // `parse` would take a plus and leading zeros.
    if !begins_number(bytes) {
        return Err(LineFault::NotALine);
    }
    let Ok(digits) = str::from_utf8(bytes) else {
        return Err(LineFault::NotALine);
    };
    let Ok(number) = digits.parse::<u64>() else {
        return Err(LineFault::NotALine);
    };
    Ok(number)
}

/// Whether a digit stands first, which is no 0 where another byte follows.
fn begins_number(bytes: &[u8]) -> bool
    ensures { result ≡ begins_number bytes.now }
{
    match bytes {
        [] => false,
        [only] => only.is_ascii_digit(),
        [first, ..] => matches!(first, b'1'..=b'9'),
    }
}

/// What stands before the first space, and what stands after it.
fn cut(bytes: &[u8]) -> Result<(&[u8], &[u8]), LineFault>
    ensures { MatchResult result
        (λ parts. IsCut bytes.now parts.0.now parts.1.now)
        (λ fault. (fault ≡ LineFault.NotALine) × IsTrue (is_spaceless bytes.now)) }
{
    let Some(place) = first_space(bytes) else {
        return Err(LineFault::NotALine);
    };
    Ok((&bytes[..place], &bytes[place + 1..]))
}

/// Where the first space stands.
fn first_space(bytes: &[u8]) -> Option<usize>
    ensures { result ≡ position (λ b. b == space) bytes.now }
{
    bytes.iter().position(|byte| *byte == b' ')
}
