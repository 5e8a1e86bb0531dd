//! The records among bytes that are at hand.

ghost use Rattle.std.specs.Prelude.{◌≡◌, ◌+◌, ◌^◌, ◌<◌, ◌≤◌, List, ℕ, IfOk, length, take, drop};
ghost use Rattle.gate_journal.specs.Reading.{Adds, StopsAt};

use crate::Records;
use crate::parts::{Next, RECORD_HEAD, next_record};
use std::alloc::AllocError;

/// Why the records at hand end.
#[derive(Clone, Copy, Debug)]
pub enum Stop {
    /// A gate that isn't open.
    End,
    /// A record of a length that none has.
    Bad,
    /// No whole record is left.
    More,
}

/// Takes the whole records at the front of some bytes, of which the first stands at this place. It
/// answers how many bytes they are, and why they end there.
pub fn take_records(
    text: &[u8],
    place: u64,
    records: &mut Records,
    places: &mut Vec<u64>,
) -> Result<(usize, Stop), AllocError>
    requires { place + length text.now < 2 ^ 64 }
    ensures inside { IfOk result (λ r. r.0 ≤ length text.now) }
    ensures added { IfOk result (λ r. (added : List (List ℕ))
        × Adds place (take r.0 text.now) added
        records.old records.new places.old.items places.new.items) }
    ensures stop { IfOk result (λ r. StopsAt r.1 (drop r.0 text.now)) }
{
    let mut at = 0;
    'records: loop {
        match next_record(&text[at..]) {
            Next::Record(size) => {
                let end = at + RECORD_HEAD + size;
                records.push(&text[at + RECORD_HEAD..end])?;
                places.push(place + at as u64)?;
                at = end;
            }
            Next::End => return Ok((at, Stop::End)),
            Next::Bad => return Ok((at, Stop::Bad)),
            Next::More => return Ok((at, Stop::More)),
        }
    }
}
