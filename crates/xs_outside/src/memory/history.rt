//! A side in memory with all its changes, from which it tells what crashes may leave of it.

ghost use Rattle.std.specs.Prelude.{◌≡◌, ◌+◌, ◌≤◌, ◌∷◌, [], IsTrue, reverse, OnOk, OnErr, IfOk};
ghost use Rattle.std.specs.Vec.{vec_len};
ghost use Rattle.xs_outside.specs.History.{content_of, side_after_write, in_place};
ghost use Rattle.xs_outside.specs.declared.memory.history.SideChange.TheVariants.{Write, Sync};

use crate::Bytes;
use std::alloc::AllocError;

/// A change of a side, with its moment.
#[derive(Debug, Drop)]
pub enum SideChange {
    /// These bytes were written at this place.
    Write {
        moment: u64,
        at: usize,
        bytes: Bytes,
    },
    /// The side was synced.
    Sync {
        moment: u64,
    },
}

/// A side: what it was at the start, its changes, and what it reads now.
#[derive(Debug, Drop)]
pub struct SideHistory {
    pub start: Vec<u8>,
    pub changes: Vec<SideChange>,
    pub content: Vec<u8>,
    ghost reads: { content.items ≡ content_of start.items (reverse changes.items) },
    ghost fits: { IsTrue (in_place start.items (reverse changes.items)) },
}

impl SideHistory {
    /// A side with these bytes, all synced.
    pub fn new(bytes: Vec<u8>) -> Result<SideHistory, AllocError>
        ensures start { IfOk result (λ side. side.start.items ≡ bytes.items) }
        ensures changes { IfOk result (λ side. side.changes.items ≡ []) }
    {
        let alloc = *bytes.allocator();
        Ok(SideHistory {
            start: bytes.clone()?,
            changes: Vec::new(alloc),
            content: bytes,
        })
    }

    /// Writes bytes over those from a place on, and past the end. For want of memory it changes
    /// nothing.
    pub fn write(&mut self, moment: u64, at: usize, bytes: &[u8]) -> Result<(), AllocError>
        requires { at ≤ vec_len self.old.content }
        ensures start { self.new.start ≡ self.old.start }
        ensures written { OnOk result (reverse self.new.changes.items
            ≡ Write moment at bytes.now ∷ reverse self.old.changes.items) }
        ensures refused { OnErr result (self.new.changes.items ≡ self.old.changes.items) }
    {
        let kept = Bytes::from_vec(bytes.to_vec(*self.content.allocator())?);
        self.changes.push(SideChange::Write {
            moment,
            at,
            bytes: kept,
        })?;
        if overwrite(&mut self.content, at, bytes).is_err() {
            let _ = self.changes.pop();
            return Err(AllocError);
        }
        Ok(())
    }

    /// Syncs: a crash leaves what is read.
    pub fn sync(&mut self, moment: u64) -> Result<(), AllocError>
        ensures start { self.new.start ≡ self.old.start }
        ensures synced { OnOk result (reverse self.new.changes.items
            ≡ Sync moment ∷ reverse self.old.changes.items) }
        ensures refused { OnErr result (self.new.changes.items ≡ self.old.changes.items) }
    {
        Ok(self.changes.push(SideChange::Sync { moment })?)
    }
}

/// Puts bytes in the place of those from a place on, and past the end. For want of memory it
/// changes nothing.
pub fn overwrite(content: &mut Vec<u8>, at: usize, bytes: &[u8]) -> Result<(), AllocError>
    ensures written { OnOk result (content.new.items
        ≡ side_after_write at bytes.now content.old.items) }
    ensures refused { OnErr result (content.new.items ≡ content.old.items) }
{
    let at = at.min(content.len());
    let inside = bytes.len().min(content.len() - at);
    content.extend_from_slice(&bytes[inside..])?;
    content[at..at + inside].copy_from_slice(&bytes[..inside]);
    Ok(())
}
