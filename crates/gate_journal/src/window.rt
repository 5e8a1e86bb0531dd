//! The window through which a side is read: each byte once, in pieces.

ghost use Rattle.std.specs.Prelude.{◌≡◌, ◌+◌, ◌-◌, ◌^◌, ◌<◌, ◌≤◌, ◌↔◌, ◌⊎◌, IsTrue, IfOk, OnOk, OnErr, List, ℕ, length, vec_len, take, drop, ◌++◌};
ghost use Rattle.xs_outside.specs.Counts.{CountsFailure};
ghost use Rattle.xs_outside.specs.Disk.{on, Fetches};
ghost use Rattle.gate_journal.specs.Reads.{OnlyReads};

use std::alloc::{AllocError, Global};
use xs_outside::{Disk, Failed, Side};

/// How many bytes are read at a time, where a side has as many.
const PIECE: u64 = 262_144;

/// Why bytes weren't read.
#[derive(Clone, Copy, Debug)]
pub enum ReadRefused {
    /// A call of the disk failed.
    Fault,
    /// Memory was wanted.
    Memory,
}

impl From<Failed> for ReadRefused {
    ghost use Rattle.std.specs.Prelude.{◌≡◌};
    ghost use Rattle.gate_journal.specs.declared.window.ReadRefused.TheVariants as refused;

    ghost from_gives = { λ _ e. e ≡ refused.Fault };

    fn from(_: Failed) -> ReadRefused {
        ReadRefused::Fault
    }
}

impl From<AllocError> for ReadRefused {
    ghost use Rattle.std.specs.Prelude.{◌≡◌};
    ghost use Rattle.gate_journal.specs.declared.window.ReadRefused.TheVariants as refused;

    ghost from_gives = { λ _ e. e ≡ refused.Memory };

    fn from(_: AllocError) -> ReadRefused {
        ReadRefused::Memory
    }
}

/// The bytes of a side that were read and not taken yet.
#[derive(Debug, Drop)]
pub struct Window {
    pub side: Side,
    /// The length of the side.
    pub length: u64,
    /// Where in the side the bytes stand.
    pub place: u64,
    pub bytes: Vec<u8>,
    ghost inside: { place + vec_len bytes ≤ length },
    ghost fits: { length < 2 ^ 64 },
}

impl Window {
    ghost use Rattle.gate_journal.specs.declared.parts.TheConstants.{HEAD};
    ghost use Rattle.gate_journal.specs.Reading.{ReadsOn, CountsReadFault, Shows, left_behind};

    /// The first piece of a side.
    pub fn open<D: Disk>(alloc: Global, disk: &mut D, side: Side) -> Result<Window, ReadRefused>
        ensures shows { IfOk result (λ window. IsTrue (D.state disk.old).honest
            → Shows (on side (D.state disk.old).content) window) }
        ensures front { IfOk result (λ window. (window.side ≡ side) × (window.place ≡ 0)
            × (left_behind window ≡ 0 ⊎ (HEAD ≤ length window.bytes.items))) }
        ensures reads { OnlyReads (D.state disk.old) (D.state disk.new) }
        ensures fetched { IfOk result (λ window. (D.state disk.new).fetched + left_behind window
            ≤ (D.state disk.old).fetched + window.length) }
        ensures unread { OnErr result ((D.state disk.new).fetched ≡ (D.state disk.old).fetched) }
        ensures faults { CountsReadFault result
            (D.state disk.old).faults (D.state disk.new).faults }
    {
        let mut window = Window {
            side,
            length: disk.length(side)?,
            place: 0,
            bytes: Vec::new(alloc),
        };
        if window.length > 0 {
            window.read_more(disk)?;
        }
        Ok(window)
    }

    /// Whether no byte of the side comes behind the window.
    pub fn is_last(&self) -> bool
        ensures { IsTrue result ↔ (left_behind self.now ≡ 0) }
    {
        self.length - self.place == self.bytes.len() as u64
    }

    /// Reads the next piece behind the bytes.
    pub fn read_more<D: Disk>(&mut self, disk: &mut D) -> Result<(), ReadRefused>
        requires more { 0 < left_behind self.old }
        requires shows { IsTrue (D.state disk.old).honest
            → Shows (on self.old.side (D.state disk.old).content) self.old }
        ensures shows { OnOk result (IsTrue (D.state disk.old).honest
            → Shows (on self.old.side (D.state disk.old).content) self.new) }
        ensures place { self.new.place ≡ self.old.place }
        ensures more { OnOk result ((left_behind self.new < left_behind self.old)
            × (left_behind self.new ≡ 0 ⊎ (HEAD ≤ length self.new.bytes.items))) }
        ensures reads { ReadsOn (D.state disk.old) (D.state disk.new) self.old self.new }
        ensures unread { OnErr result ((D.state disk.new).fetched ≡ (D.state disk.old).fetched) }
        ensures faults { CountsReadFault result
            (D.state disk.old).faults (D.state disk.new).faults }
    {
        let old = self.bytes.len();
        let next = self.place + old as u64;
        let count = PIECE.min(self.length - next) as usize;
        self.bytes.resize(old + count, 0)?;
        fill_from(disk, self.side, next, &mut self.bytes, old)?;
        Ok(())
    }

    /// Leaves out so many bytes at the front.
    pub fn skip(&mut self, count: usize)
        requires { count ≤ length self.old.bytes.items }
        ensures bytes { self.new.bytes.items ≡ drop count self.old.bytes.items }
        ensures place { self.new.place ≡ self.old.place + count }
        ensures side { self.new.side ≡ self.old.side }
        ensures length { self.new.length ≡ self.old.length }
        ensures left { left_behind self.new ≡ left_behind self.old }
        ensures shows { (text : List ℕ) → Shows text self.old → Shows text self.new }
    {
        let rest = self.bytes.len() - count;
        self.bytes.copy_within(count.., 0);
        self.bytes.truncate(rest);
        self.place += count as u64;
    }
}

/// Fills a slice, from a place of its own on, with the bytes of a side.
fn fill_from<D: Disk>(
    disk: &mut D,
    side: Side,
    at: u64,
    bytes: &mut [u8],
    from: usize,
) -> Result<(), Failed>
    requires inside { from ≤ length bytes.old }
    requires there { IsTrue (D.state disk.old).honest
        → at + (length bytes.old - from) ≤ length (on side (D.state disk.old).content) }
    ensures bytes { OnOk result (IsTrue (D.state disk.old).honest → bytes.new ≡ take from bytes.old
        ++ take (length bytes.old - from) (drop at (on side (D.state disk.old).content))) }
    ensures reads { OnlyReads (D.state disk.old) (D.state disk.new) }
    ensures fetched { Fetches result (length bytes.old - from)
        (D.state disk.old) (D.state disk.new) }
    ensures faults { CountsFailure result (D.state disk.old).faults (D.state disk.new).faults }
{
    disk.read(side, at, &mut bytes[from..])
}
