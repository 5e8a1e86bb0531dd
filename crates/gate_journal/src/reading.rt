//! A side is read behind its head: its base, and its records up to the gate that ends them.

ghost use Rattle.std.specs.Prelude.{◌≡◌, ◌+◌, ◌≤◌, IsTrue, IfOk, OnOk, length, take, drop};
ghost use Rattle.xs_outside.specs.Disk.{on};
ghost use Rattle.gate_journal.specs.Reading.{AddsBetween, BreaksAt, CountsReadFault, EndsAt, ReadsOn, Shows};
ghost use Rattle.gate_journal.specs.Refusals.{CountsFault, IfBad};

use crate::Records;
use crate::scan::{Stop, take_records};
use crate::window::{ReadRefused, Window};
use std::alloc::{AllocError, Global};
use xs_outside::Disk;

/// Why a side wasn't read to its end.
#[derive(Clone, Copy, Debug)]
pub enum SideRefused {
    /// The place of its first fault.
    Bad(u64),
    /// A call of the disk failed.
    Fault,
    /// Memory was wanted.
    Memory,
}

impl From<ReadRefused> for SideRefused {
    ghost use Rattle.std.specs.Prelude.{◌≡◌};
    ghost use Rattle.gate_journal.specs.Refusals.{refused_side};

    ghost from_gives = { λ refused e. e ≡ refused_side refused };

    fn from(refused: ReadRefused) -> SideRefused {
        match refused {
            ReadRefused::Fault => SideRefused::Fault,
            ReadRefused::Memory => SideRefused::Memory,
        }
    }
}

impl From<AllocError> for SideRefused {
    ghost use Rattle.std.specs.Prelude.{◌≡◌};
    ghost use Rattle.gate_journal.specs.declared.reading.SideRefused.TheVariants as refused;

    ghost from_gives = { λ _ e. e ≡ refused.Memory };

    fn from(_: AllocError) -> SideRefused {
        SideRefused::Memory
    }
}

/// The base of a side, which begins where the window does. The window then stands behind it.
pub fn read_base<D: Disk>(
    alloc: Global,
    disk: &mut D,
    window: &mut Window,
    size: usize,
) -> Result<Vec<u8>, ReadRefused>
    requires fits { window.old.place + size ≤ window.old.length }
    requires shows { IsTrue (D.state disk.old).honest
        → Shows (on window.old.side (D.state disk.old).content) window.old }
    ensures base { IfOk result (λ base. IsTrue (D.state disk.old).honest
        → base.items ≡ take size (drop window.old.place
        (on window.old.side (D.state disk.old).content))) }
    ensures place { OnOk result (window.new.place ≡ window.old.place + size) }
    ensures shows { OnOk result (IsTrue (D.state disk.old).honest
        → Shows (on window.old.side (D.state disk.old).content) window.new) }
    ensures reads { ReadsOn (D.state disk.old) (D.state disk.new) window.old window.new }
    ensures faults { CountsReadFault result (D.state disk.old).faults (D.state disk.new).faults }
{
    let mut base = Vec::with_capacity(alloc, size)?;
    'pieces: loop {
        let part = window.bytes.len().min(size - base.len());
        base.extend_from_slice(&window.bytes[..part])?;
        window.skip(part);
        if base.len() == size {
            return Ok(base);
        }
        window.read_more(disk)?;
    }
}

/// The records of a side, the first of which begins where the window does. The window then stands
/// at the gate that ends them.
pub fn read_records<D: Disk>(
    disk: &mut D,
    window: &mut Window,
    records: &mut Records,
    places: &mut Vec<u64>,
) -> Result<(), SideRefused>
    requires shows { IsTrue (D.state disk.old).honest
        → Shows (on window.old.side (D.state disk.old).content) window.old }
    ensures records { OnOk result (IsTrue (D.state disk.old).honest
        → AddsBetween (on window.old.side (D.state disk.old).content)
        window.old.place window.new.place records.old records.new places.old.items places.new.items
        × EndsAt (on window.old.side (D.state disk.old).content) window.new.place) }
    ensures indexed { OnOk result (length places.old.items ≡ length records.old
        → length places.new.items ≡ length records.new) }
    ensures bad { IfBad result (λ place. IsTrue (D.state disk.old).honest
        → AddsBetween (on window.old.side (D.state disk.old).content)
        window.old.place place records.old records.new places.old.items places.new.items
        × BreaksAt (on window.old.side (D.state disk.old).content) place) }
    ensures reads { ReadsOn (D.state disk.old) (D.state disk.new) window.old window.new }
    ensures faults { CountsFault result (D.state disk.old).faults (D.state disk.new).faults }
{
    'pieces: loop {
        let (count, stop) = take_records(&window.bytes, window.place, records, places)?;
        window.skip(count);
        match stop {
            Stop::End => return Ok(()),
            Stop::Bad => return Err(SideRefused::Bad(window.place)),
            Stop::More => {}
        }
        if window.is_last() {
            return Err(SideRefused::Bad(window.place));
        }
        window.read_more(disk)?;
    }
}
