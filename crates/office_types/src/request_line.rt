//! The line of a request, read and written.

ghost use Rattle.std.specs.Prelude.{◌≡◌, [], ◌++◌, IfOk, codes, string_bytes};
ghost use Rattle.std.specs.Option.{option_copied};
ghost use Rattle.office_types.specs.LineParts.{IsAskBehind, IsAskText, IsNumberedText, IsShortText};
ghost use Rattle.office_types.specs.RequestLines.{IsRequestLine, Reads, ask_value, canonical_line, line_with, system_text};

use crate::event::{event_type, is_short};
use crate::json_value::{Bytes, read_value, with_value};
use crate::limits::{MAX_LINE, MAX_MOMENT};
use crate::line_fault::LineFault;
use crate::line_parts::{cut, read_caller, read_name, read_number, read_system};
use crate::request::{Ask, Request};
use std::alloc::{AllocError, Global};
use xs_data::Text;
use xs_model::Value;

/// Reads the line of a request, given without its line feed. The cost is that of `read_value`.
pub fn read_request(alloc: Global, line: &[u8]) -> Result<Request, LineFault>
    ensures { Reads (IsRequestLine line.now) result }
{
    if line.len() > MAX_LINE {
        return Err(LineFault::NotALine);
    }
    let (caller, rest) = cut(line)?;
    let (number, ask) = cut(rest)?;
    let caller = read_caller(alloc, caller)?;
    let number = read_number(number)?;
    if number == 0 {
        return Err(LineFault::NotALine);
    }
    let ask = read_ask(alloc, ask)?;
    Ok(Request {
        caller,
        number,
        ask,
    })
}

// What is asked for.
fn read_ask(alloc: Global, text: &[u8]) -> Result<Ask, LineFault>
    ensures { Reads (IsAskText text.now) result }
{
    let (word, rest) = cut(text)?;
    if word == b"start".as_slice() {
        return read_start(alloc, rest);
    }
    if word == b"send".as_slice() {
        return read_send(alloc, rest);
    }
    if word == b"resolve".as_slice() {
        return read_resolve(alloc, rest);
    }
    if word == b"reject".as_slice() {
        return read_reject(alloc, rest);
    }
    if word == b"at".as_slice() {
        return read_at(rest);
    }
    Err(LineFault::NotALine)
}

// What stands behind the word `start`: a machine's id, a system name or `-`, and the input.
fn read_start(alloc: Global, bytes: &[u8]) -> Result<Ask, LineFault>
    ensures { Reads (IsAskBehind (codes "start") bytes.now) result }
{
    let (machine, rest) = cut(bytes)?;
    let (system, json) = cut(rest)?;
    let machine = read_name(alloc, machine)?;
    let system = read_system(alloc, system)?;
    let input = read_short(alloc, json)?;
    Ok(Ask::Start {
        machine,
        system,
        input,
    })
}

// What stands behind the word `send`: an actor's number, and the event.
fn read_send(alloc: Global, bytes: &[u8]) -> Result<Ask, LineFault>
    ensures { Reads (IsAskBehind (codes "send") bytes.now) result }
{
    ordered_json::laws::meaning_is_unique();
    let (actor, event) = read_numbered(alloc, bytes)?;
    if event_type(&event).is_none() {
        return Err(LineFault::NotALine);
    }
    Ok(Ask::Send { actor, event })
}

// What stands behind the word `resolve`: an item's number, and the output.
fn read_resolve(alloc: Global, bytes: &[u8]) -> Result<Ask, LineFault>
    ensures { Reads (IsAskBehind (codes "resolve") bytes.now) result }
{
    let (item, output) = read_numbered(alloc, bytes)?;
    Ok(Ask::Resolve { item, output })
}

// What stands behind the word `reject`: an item's number, and the error.
fn read_reject(alloc: Global, bytes: &[u8]) -> Result<Ask, LineFault>
    ensures { Reads (IsAskBehind (codes "reject") bytes.now) result }
{
    let (item, error) = read_numbered(alloc, bytes)?;
    Ok(Ask::Reject { item, error })
}

// What stands behind the word `at`: a moment.
fn read_at(bytes: &[u8]) -> Result<Ask, LineFault>
    ensures { Reads (IsAskBehind (codes "at") bytes.now) result }
{
    let moment = read_number(bytes)?;
    if moment > MAX_MOMENT {
        return Err(LineFault::NotALine);
    }
    Ok(Ask::At { moment })
}

// A number, and a short value behind it.
fn read_numbered(alloc: Global, bytes: &[u8]) -> Result<(u64, Value), LineFault>
    ensures { Reads (IsNumberedText bytes.now) result }
{
    let (number, json) = cut(bytes)?;
    let number = read_number(number)?;
    let value = read_short(alloc, json)?;
    Ok((number, value))
}

// The short value that the bytes mean.
fn read_short(alloc: Global, bytes: &[u8]) -> Result<Value, LineFault>
    ensures { Reads (IsShortText bytes.now) result }
{
    ordered_json::laws::meaning_is_unique();
    let value = read_value(alloc, bytes)?;
    if !is_short(&value) {
        return Err(LineFault::NotALine);
    }
    Ok(value)
}

/// Writes the canonical line of a request, with no line feed, in one pass.
pub fn write_request(alloc: Global, request: &Request) -> Result<Bytes, AllocError>
    ensures { IfOk result (λ line. line ≡ canonical_line request.now) }
{
    Ok(Bytes::from_vec(line_behind(alloc, "", request)?))
}

/// A text, and behind it the canonical line of a request.
pub(crate) fn line_behind(
    alloc: Global,
    front: &str,
    request: &Request,
) -> Result<Vec<u8>, AllocError>
    ensures { IfOk result (λ bytes. bytes.items ≡ front.now ++ canonical_line request.now) }
{
    let text = words_behind(alloc, front, request)?;
    match json_of(&request.ask) {
        None => Ok(text.into_bytes()),
        Some(value) => with_value(text.into_bytes(), value),
    }
}

// A text, and behind it the line of a request up to its JSON.
fn words_behind(alloc: Global, front: &str, request: &Request) -> Result<String, AllocError>
    ensures { IfOk result (λ text. string_bytes text ≡ front.now ++ line_with request.now []) }
{
    let caller = request.caller.as_str();
    let number = request.number;
    match &request.ask {
        Ask::Start {
            machine,
            system,
            ..
        } => {
            let machine = machine.as_str();
            let system = system_text(system);
            format!(in alloc; "{front}{caller} {number} start {machine} {system} ")
        }
        Ask::Send { actor, .. } => {
            let actor = *actor;
            format!(in alloc; "{front}{caller} {number} send {actor} ")
        }
        Ask::Resolve { item, .. } => {
            let item = *item;
            format!(in alloc; "{front}{caller} {number} resolve {item} ")
        }
        Ask::Reject { item, .. } => {
            let item = *item;
            format!(in alloc; "{front}{caller} {number} reject {item} ")
        }
        Ask::At { moment } => {
            let moment = *moment;
            format!(in alloc; "{front}{caller} {number} at {moment}")
        }
    }
}

// The value that stands in a request's line as JSON, if there is one.
fn json_of(ask: &Ask) -> Option<&Value>
    ensures { option_copied result ≡ ask_value ask.now }
{
    match ask {
        Ask::Start { input, .. } => Some(input),
        Ask::Send { event, .. } => Some(event),
        Ask::Resolve { output, .. } => Some(output),
        Ask::Reject { error, .. } => Some(error),
        Ask::At { .. } => None,
    }
}

// A system name in a line.
fn system_text(system: &Option<Text>) -> &str
    ensures { result.now ≡ system_text system.now }
{
    match system {
        None => "-",
        Some(name) => name.as_str(),
    }
}
