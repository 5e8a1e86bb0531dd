//! The payload behind a closed gate, and then the gate.

ghost use Rattle.std.specs.Prelude.{◌≡◌, ◌∷◌, ◌≤◌, [], length, IsTrue, OnOk, Some};
ghost use Rattle.gated_record.specs.Record.{payload_of, IsAllOrNothing, IsDiskRun};
ghost use Rattle.xs_outside.specs.Disk.{on, Changes, Torn, Written, AllSince, IsSettled};

use xs_outside::{Disk, Failed, Side};

/// The byte of a gate behind which nothing counts.
pub const CLOSED: u8 = 0;

/// The byte of a gate behind which a record stands.
pub const OPEN: u8 = 1;

/// Records a payload on a side that holds a closed gate and nothing else.
pub fn put_record<D: Disk>(disk: &mut D, side: Side, payload: &[u8]) -> Result<(), Failed>
    requires rest { IsTrue (D.state disk.old).honest
        → on side (D.state disk.old).content ≡ CLOSED ∷ [] }
    requires settled { IsTrue (D.state disk.old).honest → IsSettled (D.state disk.old) }
    ensures any_moment { IsTrue (D.state disk.old).honest
        → AllSince (D.state disk.old).clock
        (IsAllOrNothing side payload.now (D.state disk.old).content) (D.state disk.new) }
    ensures settled { OnOk result (IsTrue (D.state disk.old).honest
        → IsSettled (D.state disk.new)) }
    ensures acknowledged { OnOk result (IsTrue (D.state disk.old).honest
        → payload_of (on side (D.state disk.new).content) ≡ Some payload.now) }
    ensures run { IsDiskRun result (D.state disk.old) (D.state disk.new) }
{
    write_through(disk, side, 1, payload)?;
    write_through(disk, side, 0, &[OPEN])
}

/// Writes to a disk on which nothing is pending, and syncs.
fn write_through<D: Disk>(disk: &mut D, side: Side, at: u64, bytes: &[u8]) -> Result<(), Failed>
    requires place { IsTrue (D.state disk.old).honest
        → at ≤ length (on side (D.state disk.old).content) }
    requires settled { IsTrue (D.state disk.old).honest → IsSettled (D.state disk.old) }
    ensures any_moment { IsTrue (D.state disk.old).honest
        → AllSince (D.state disk.old).clock
        (Changes side (Torn at (length bytes.now)) (D.state disk.old).content)
        (D.state disk.new) }
    ensures settled { OnOk result (IsTrue (D.state disk.old).honest
        → IsSettled (D.state disk.new)) }
    ensures written { OnOk result (IsTrue (D.state disk.old).honest
        → Changes side (Written at bytes.now)
        (D.state disk.old).content (D.state disk.new).content) }
    ensures run { IsDiskRun result (D.state disk.old) (D.state disk.new) }
{
    disk.write(side, at, bytes)?;
    disk.sync(side)
}
