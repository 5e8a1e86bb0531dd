//! The calls of a journal for tests: each may be made of any journal in use, and tells whether it was done.

ghost use Rattle.std.specs.Prelude.{IsTrue, IfOk, OnOk};
ghost use Rattle.gate_journal.specs.InUse.{IsInUse};
ghost use Rattle.gate_journal.specs.Journal.{disk_of};

use gate_journal::{Held, Journal, JournalRefused, MAX_RECORD, SidesRefused};
use std::alloc::Global;
use xs_outside::Disk;

/// Opens a journal.
pub fn open_on<D: Disk>(
    alloc: Global,
    disk: D,
) -> Result<(Journal<D>, Option<Held>), JournalRefused<D>>
    ensures { IfOk result (λ r. IsInUse (D.state (disk_of r.0)) r.0) }
{
    Journal::open(alloc, disk)
}

/// Opens a journal anew in place.
pub fn open_anew<D: Disk>(journal: &mut Journal<D>) -> Result<Option<Held>, SidesRefused>
    ensures { OnOk result (IsInUse (D.state (disk_of journal.new)) journal.new) }
{
    journal.reopen()
}

pub fn append_to<D: Disk>(journal: &mut Journal<D>, payload: &[u8]) -> bool
    requires { IsInUse (D.state (disk_of journal.old)) journal.old }
    ensures { IsTrue result → IsInUse (D.state (disk_of journal.new)) journal.new }
{
    let Some(end) = journal.end() else {
        return false;
    };
    if end >= 1 << 62 || payload.is_empty() || payload.len() > MAX_RECORD {
        return false;
    }
    match journal.append(payload) {
        Ok(()) => true,
        Err(_) => false,
    }
}

pub fn drop_from<D: Disk>(journal: &mut Journal<D>) -> bool
    requires { IsInUse (D.state (disk_of journal.old)) journal.old }
    ensures { IsTrue result → IsInUse (D.state (disk_of journal.new)) journal.new }
{
    if !journal.knows_last() {
        return false;
    }
    match journal.drop_last() {
        Ok(()) => true,
        Err(_) => false,
    }
}

pub fn switch_to<D: Disk>(journal: &mut Journal<D>, base: &[u8]) -> bool
    requires { IsInUse (D.state (disk_of journal.old)) journal.old }
    ensures { IsTrue result → IsInUse (D.state (disk_of journal.new)) journal.new }
{
    match journal.switch(base) {
        Ok(_) => true,
        Err(_) => false,
    }
}
