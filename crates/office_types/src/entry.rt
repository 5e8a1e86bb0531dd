//! What happens in an office, one change at a time, and its text in a journal.

ghost use Rattle.std.specs.Prelude.{◌≡◌, ◌↔◌, IfOk, IsTrue};
ghost use Rattle.office_types.specs.LineParts.{IsDecidedText, IsStepText};
ghost use Rattle.office_types.specs.RequestLines.{IsEntryText, Reads, canonical_line, entry_text};

use crate::json_value::Bytes;
use crate::line_fault::LineFault;
use crate::line_parts::{cut, read_number};
use crate::request::Request;
use crate::request_line::{line_behind, read_request, write_request};
use std::alloc::{AllocError, Global};

/// One change of an office, and nothing smaller: a request is decided, or the actor of this number
/// takes a step.
#[derive(Debug, Drop)]
pub enum Entry {
    Decided(Request),
    Step(u64),
}

/// Reads the text of an entry: `R ` and a canonical line, or `S ` and an actor's number. The cost is
/// that of `read_request` and of writing the line again.
pub fn read_entry(alloc: Global, payload: &[u8]) -> Result<Entry, LineFault>
    ensures { Reads (IsEntryText payload.now) result }
{
    let (kind, rest) = cut(payload)?;
    if kind == b"R".as_slice() {
        return read_decided(alloc, rest);
    }
    if kind == b"S".as_slice() {
        return read_step(rest);
    }
    Err(LineFault::NotALine)
}

// The decision on the request whose canonical line this is.
fn read_decided(alloc: Global, line: &[u8]) -> Result<Entry, LineFault>
    ensures { Reads (IsDecidedText line.now) result }
{
    crate::laws::request_is_unique();
    let request = read_request(alloc, line)?;
    if !is_canonical(alloc, line, &request)? {
        return Err(LineFault::NotALine);
    }
    Ok(Entry::Decided(request))
}

// Whether the line is the canonical one of the request.
fn is_canonical(alloc: Global, line: &[u8], request: &Request) -> Result<bool, AllocError>
    ensures { IfOk result (λ same. IsTrue same ↔ (line.now ≡ canonical_line request.now)) }
{
    let canonical = write_request(alloc, request)?;
    Ok(line == canonical.as_slice())
}

// The step of the actor whose number this is.
fn read_step(bytes: &[u8]) -> Result<Entry, LineFault>
    ensures { Reads (IsStepText bytes.now) result }
{
    Ok(Entry::Step(read_number(bytes)?))
}

/// Writes the text of an entry, in one pass.
pub fn write_entry(alloc: Global, entry: &Entry) -> Result<Bytes, AllocError>
    ensures { IfOk result (λ payload. payload ≡ entry_text entry.now) }
{
    match entry {
        Entry::Decided(request) => Ok(Bytes::from_vec(line_behind(alloc, "R ", request)?)),
        Entry::Step(actor) => {
            let actor = *actor;
            Ok(Bytes::from_vec(format!(in alloc; "S {actor}")?.into_bytes()))
        }
    }
}
