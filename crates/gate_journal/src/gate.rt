//! The way in which a journal writes: a text behind a closed gate first, and then the gate.

ghost use Rattle.std.specs.Prelude.{◌≡◌, ◌↔◌, ◌+◌, ◌^◌, ◌<◌, ◌≤◌, IsTrue, length, OnOk, is_err};
ghost use Rattle.xs_outside.specs.Disk.{on, Changes, Torn, Written, AllSince, IsSettled};
ghost use Rattle.gate_journal.specs.declared.parts.TheConstants.{OPEN};
ghost use Rattle.gate_journal.specs.Gate.{BeginsWith, IsBeingMade, IsOpening, StandsBehind};
ghost use Rattle.gate_journal.specs.Ready.{IsReady};
ghost use Rattle.gate_journal.specs.Runs.{IsJournalCall};

use crate::parts::{CLOSED, OPEN};
use xs_outside::{Disk, Failed, Side};

/// Makes a side begin with a text behind an open gate. A side that is closed and has two bytes or
/// more takes four calls of the disk. Any other is closed first, by two calls more: a stop in a
/// write of its first byte leaves it closed, or as it was.
pub fn make_side<D: Disk>(disk: &mut D, side: Side, ready: bool, text: &[u8]) -> Result<(), Failed>
    requires ready { IsTrue (D.state disk.old).honest
        → IsTrue ready ↔ IsReady (on side (D.state disk.old).content) }
    requires settled { IsTrue (D.state disk.old).honest → IsSettled (D.state disk.old) }
    ensures images { IsTrue (D.state disk.old).honest → AllSince (D.state disk.old).clock
        (Changes side (IsBeingMade text.now) (D.state disk.old).content) (D.state disk.new) }
    ensures settled { OnOk result (IsTrue (D.state disk.old).honest
        → IsSettled (D.state disk.new)) }
    ensures made { OnOk result (IsTrue (D.state disk.old).honest
        → Changes side (λ _. BeginsWith text.now)
        (D.state disk.old).content (D.state disk.new).content) }
    ensures call { IsJournalCall (is_err result) (D.state disk.old) (D.state disk.new) }
    ensures fetched { (D.state disk.new).fetched ≡ (D.state disk.old).fetched }
{
    if !ready {
        write_through(disk, side, 0, &[CLOSED])?;
    }
    open_gate(disk, side, 0, text)
}

/// Writes a text behind a gate that isn't open, and then opens the gate. Four calls of the disk.
pub fn open_gate<D: Disk>(disk: &mut D, side: Side, gate: u64, text: &[u8]) -> Result<(), Failed>
    requires room { gate + 1 < 2 ^ 64 }
    requires place { IsTrue (D.state disk.old).honest
        → gate + 1 ≤ length (on side (D.state disk.old).content) }
    requires settled { IsTrue (D.state disk.old).honest → IsSettled (D.state disk.old) }
    ensures images { IsTrue (D.state disk.old).honest → AllSince (D.state disk.old).clock
        (Changes side (IsOpening gate text.now) (D.state disk.old).content) (D.state disk.new) }
    ensures settled { OnOk result (IsTrue (D.state disk.old).honest
        → IsSettled (D.state disk.new)) }
    ensures stands { OnOk result (IsTrue (D.state disk.old).honest
        → Changes side (StandsBehind OPEN gate text.now)
        (D.state disk.old).content (D.state disk.new).content) }
    ensures call { IsJournalCall (is_err result) (D.state disk.old) (D.state disk.new) }
    ensures fetched { (D.state disk.new).fetched ≡ (D.state disk.old).fetched }
{
    write_through(disk, side, gate + 1, text)?;
    write_through(disk, side, gate, &[OPEN])
}

/// Writes to a disk on which nothing is pending, and syncs.
pub fn write_through<D: Disk>(disk: &mut D, side: Side, at: u64, bytes: &[u8]) -> Result<(), Failed>
    requires place { IsTrue (D.state disk.old).honest
        → at ≤ length (on side (D.state disk.old).content) }
    requires settled { IsTrue (D.state disk.old).honest → IsSettled (D.state disk.old) }
    ensures images { IsTrue (D.state disk.old).honest → AllSince (D.state disk.old).clock
        (Changes side (Torn at (length bytes.now)) (D.state disk.old).content) (D.state disk.new) }
    ensures settled { OnOk result (IsTrue (D.state disk.old).honest
        → IsSettled (D.state disk.new)) }
    ensures written { OnOk result (IsTrue (D.state disk.old).honest
        → Changes side (Written at bytes.now)
        (D.state disk.old).content (D.state disk.new).content) }
    ensures call { IsJournalCall (is_err result) (D.state disk.old) (D.state disk.new) }
    ensures fetched { (D.state disk.new).fetched ≡ (D.state disk.old).fetched }
{
    disk.write(side, at, bytes)?;
    disk.sync(side)
}
