//! The records of a side, one after the other in one buffer.

ghost use Rattle.std.specs.Prelude.{◌≡◌, ◌++◌, [], ◌∷◌, length, OnOk, OnErr, ◌<◌, ◌==◌, slice_get};
ghost use Rattle.std.specs.Option.{option_copied};
ghost use Rattle.gate_journal.specs.Pieces.{start_of};

use std::alloc::{AllocError, Global};
use std::marker::Model;

/// A list of records, which contracts see as the list of their bytes.
///
/// All bytes lie in one buffer, so that a million short records take little more memory than their
/// bytes.
#[derive(Debug, Drop)]
pub struct Records {
    bytes: Vec<u8>,
    ends: Vec<u64>,
}

impl Model for Records {
    ghost use Rattle.std.specs.Prelude.{List, ℕ, length};

    ghost Value = { List (List ℕ) };

    ghost use Rattle.gate_journal.specs.Pieces.{pieces, Ends};

    ghost view = { λ r. pieces r.bytes.items 0 r.ends.items };

    ghost invariant = { λ r. Ends 0 r.ends.items (length r.bytes.items) };
}

impl Records {
    /// No records. It takes no memory.
    pub fn new(alloc: Global) -> Records
        ensures { result ≡ [] }
    {
        Records {
            bytes: Vec::new(alloc),
            ends: Vec::new(alloc),
        }
    }

    /// How many records there are.
    pub fn len(&self) -> usize
        ensures { result ≡ length self.now }
    {
        self.ends.len()
    }

    /// Whether there is no record.
    pub fn is_empty(&self) -> bool
        ensures { result ≡ (length self.now == 0) }
    {
        self.ends.is_empty()
    }

    /// The record at a place of the list, if there is one.
    pub fn get(&self, index: usize) -> Option<&[u8]>
        ensures { option_copied result ≡ slice_get self.now index }
    {
        if index >= self.ends.len() {
            return None;
        }
        let start = start_of(&self.ends, index);
        let end = self.ends[index] as usize;
        Some(&self.bytes[start..end])
    }

    /// Adds a copy of a record at the end. For want of memory the list stays as it is.
    pub fn push(&mut self, payload: &[u8]) -> Result<(), AllocError>
        ensures ok { OnOk result (self.new ≡ self.old ++ payload.now ∷ []) }
        ensures err { OnErr result (self.new ≡ self.old) }
    {
        self.ends.reserve(1)?;
        self.bytes.extend_from_slice(payload)?;
        let end = self.bytes.len() as u64;
        self.ends.push(end)?;
        Ok(())
    }
}

/// Where the piece with this number starts.
fn start_of(ends: &[u64], index: usize) -> usize
    requires { index < length ends.now }
    ensures { result ≡ start_of ends.now index }
{
    if index == 0 {
        return 0;
    }
    ends[index - 1] as usize
}
