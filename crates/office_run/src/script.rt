//! The lines of a script.

ghost use Rattle.std.specs.Prelude.{IfOk};
ghost use Rattle.flat_core.specs.RequestLine.{ReadsLine};
ghost use Rattle.office_run.specs.Script.{IsLine, IsValueLine};

use flat_core::{LineFault, Request, read_number, read_request};
use std::alloc::{AllocError, Global};

/// A line of a script.
#[derive(Debug, Drop)]
pub enum Line {
    /// A caller's request.
    Request(Request),
    /// `turn`: the actor with the least head letter takes a step.
    Turn,
    /// `value ACTOR`: what an actor's state is.
    Value { actor: u64 },
    /// A line of no form.
    Malformed,
}

/// Reads a line of a script, without its line feed. The cost is linear in the line.
pub fn read_line(alloc: Global, bytes: &[u8]) -> Result<Line, AllocError>
    ensures { IfOk result (IsLine bytes.now) }
{
    if bytes == b"turn".as_slice() {
        return Ok(Line::Turn);
    }
    match read_value_line(bytes) {
        Ok(actor) => return Ok(Line::Value { actor }),
        Err(LineFault::NotALine) => {}
        Err(LineFault::Memory) => return Err(AllocError),
    }
    match read_request(alloc, bytes) {
        Ok(request) => Ok(Line::Request(request)),
        Err(LineFault::NotALine) => Ok(Line::Malformed),
        Err(LineFault::Memory) => Err(AllocError),
    }
}

/// The actor of a line `value ACTOR`.
fn read_value_line(bytes: &[u8]) -> Result<u64, LineFault>
    ensures { ReadsLine (IsValueLine bytes.now) result }
{
    match bytes {
        [b'v', b'a', b'l', b'u', b'e', b' ', actor @ ..] => read_number(actor),
        _ => Err(LineFault::NotALine),
    }
}
