//! Bytes that are given: an empty office, its first record, and records at the limits.

ghost use Rattle.std.specs.Prelude.{IfOk};
ghost use Rattle.gate_journal.specs.InUse.{IsInUse};
ghost use Rattle.gate_journal.specs.Journal.{disk_of};

use super::kit::{append_to, open_on, switch_to};
use gate_journal::{Held, Journal, MAX_RECORD, Records};
use std::alloc::{AllocError, Global};
use std::test::Fail;
use xs_outside::{Disk, MemoryDisk, Side};

const BASE: &[u8] =
    br#"{"actors":[],"callers":[],"defs":"{\"machines\":[],\"implementations\":{}}","entries":0,"moment":0,"nextActor":1,"nextLetter":1,"nextTimer":1,"timers":[]}"#;

/// `R ann 1 start toggle - null`.
const RECORD: &[u8] =
    b"\x52\x20\x61\x6e\x6e\x20\x31\x20\x73\x74\x61\x72\x74\x20\x74\x6f\x67\x67\x6c\x65\x20\x2d\x20\x6e\x75\x6c\x6c";

fn disk_of(alloc: Global, a: &[u8], b: &[u8]) -> Result<MemoryDisk, AllocError> {
    MemoryDisk::new(a.to_vec(alloc)?, b.to_vec(alloc)?, Vec::new(alloc))
}

/// Side a of an empty office, with these bytes behind its base.
fn office(alloc: Global, behind: &[u8]) -> Result<Vec<u8>, AllocError> {
    let mut side = b"\x01\0\0\0\0\0\0\0\x01\0\0\0\x9a".to_vec(alloc)?;
    side.extend_from_slice(BASE)?;
    side.extend_from_slice(behind)?;
    Ok(side)
}

/// The bytes behind the base of an office with its first record.
fn first_record(alloc: Global) -> Result<Vec<u8>, AllocError> {
    let mut behind = b"\x01\0\0\0\x1b".to_vec(alloc)?;
    behind.extend_from_slice(RECORD)?;
    behind.push(0)?;
    Ok(behind)
}

/// A journal on an empty disk, which holds nothing.
fn new_journal(alloc: Global) -> Result<Journal<MemoryDisk>, Fail>
    ensures { IfOk result (λ journal.
        IsInUse (⟦<MemoryDisk as Disk>⟧.state (disk_of journal)) journal) }
{
    match open_on(alloc, disk_of(alloc, b"", b"")?) {
        Ok((journal, None)) => Ok(journal),
        _ => Err("not opened, or not empty")?,
    }
}

/// Whether a disk holds this on side a, and nothing on side b.
fn holds(disk: &MemoryDisk, a: &[u8]) -> bool {
    disk.side(Side::A) == a && disk.side(Side::B).is_empty()
}

/// Moves to an empty office, and adds the first record, where both end as given.
fn write_record<D: Disk>(journal: &mut Journal<D>) -> bool
    requires { IsInUse (D.state (disk_of journal.old)) journal.old }
{
    if !switch_to(journal, BASE) {
        return false;
    }
    let first = journal.end();
    if !append_to(journal, RECORD) {
        return false;
    }
    first == Some(167) && journal.end() == Some(199)
}

#[test]
fn the_first_record_takes_32_bytes(rt: HostRuntime) -> Result<(), Fail> {
    let mut journal = new_journal(rt.alloc())?;
    assert!(rt; write_record(&mut journal));
    let a = office(rt.alloc(), &first_record(rt.alloc())?)?;
    assert!(rt; holds(&journal.disk(), &a));
    Ok(())
}

/// Moves to an empty office, which has the first generation and no record.
fn write_office<D: Disk>(journal: &mut Journal<D>) -> bool
    requires { IsInUse (D.state (disk_of journal.old)) journal.old }
{
    switch_to(journal, BASE) && journal.generation() == 1 && !journal.knows_last()
}

#[test]
fn an_empty_office_is_written_as_given_and_has_168_bytes(rt: HostRuntime) -> Result<(), Fail> {
    let mut journal = new_journal(rt.alloc())?;
    assert!(rt; write_office(&mut journal));
    let a = office(rt.alloc(), b"\0")?;
    assert!(rt; holds(&journal.disk(), &a) && a.len() == 168);
    Ok(())
}

/// Whether this is the office of the first generation with its first record, on side a.
fn is_given(held: &Held) -> bool {
    held.side == Side::A
        && held.generation == 1
        && held.base.as_slice() == BASE
        && held.records.len() == 1
        && held.records.get(0) == Some(RECORD)
        && held.places.as_slice() == [167].as_slice()
}

#[test]
fn a_given_office_is_read_back(rt: HostRuntime) -> Result<(), Fail> {
    let a = office(rt.alloc(), &first_record(rt.alloc())?)?;
    let disk = disk_of(rt.alloc(), &a, b"")?;
    let (journal, held) = Journal::open(rt.alloc(), disk)?;
    assert!(rt; journal.knows_last() && journal.end() == Some(199));
    assert!(rt; is_given(&held.ok_or("nothing is held")?));
    Ok(())
}

/// Moves to a base, and adds a short record between two long ones.
fn write_long<D: Disk>(journal: &mut Journal<D>, base: &[u8], longest: &[u8]) -> bool
    requires { IsInUse (D.state (disk_of journal.old)) journal.old }
{
    switch_to(journal, base)
        && append_to(journal, longest)
        && append_to(journal, b"x")
        && append_to(journal, longest)
}

/// Whether these are a short record between two long ones.
fn are_long(records: &Records, longest: &[u8]) -> bool {
    records.len() == 3
        && records.get(0) == Some(longest)
        && records.get(1) == Some(b"x".as_slice())
        && records.get(2) == Some(longest)
}

/// Whether a journal on this disk holds this base, and a short record between two long ones.
fn holds_long(alloc: Global, disk: MemoryDisk, base: &[u8], longest: &[u8]) -> Result<bool, Fail> {
    let (_, held) = Journal::open(alloc, disk)?;
    let held = held.ok_or("nothing is held")?;
    Ok(
        held.base.as_slice() == base
            && are_long(&held.records, longest)
            && held.places.as_slice() == [300_013, 431_090, 431_096].as_slice(),
    )
}

#[test]
fn records_at_the_limit_go_over_several_pieces(rt: HostRuntime) -> Result<(), Fail> {
    let base = vec![in rt.alloc(); 7; 300_000]?;
    let longest = vec![in rt.alloc(); 1; MAX_RECORD]?;
    let mut journal = new_journal(rt.alloc())?;
    assert!(rt; write_long(&mut journal, &base, &longest));
    assert!(rt; holds_long(rt.alloc(), journal.disk(), &base, &longest)?);
    Ok(())
}
