//! Damaged sides, each with the side and the place of its first fault, in the order of looking.

use gate_journal::{Journal, JournalRefused, Layout, MAX_RECORD, layout};
use std::alloc::{AllocError, Global};
use std::process::Abort;
use std::test::Fail;
use xs_outside::{Got, MemoryDisk, MemoryStation, Side};

/// Sides, and the side and the place of their first fault.
type Damage = (&'static [u8], &'static [u8], Side, u64);

/// A whole side of generation 1 with the base `ab` and no record.
const WHOLE: &[u8] = b"\x01\0\0\0\0\0\0\0\x01\0\0\0\x02ab\0";

fn open_disk(alloc: Global, a: &[u8], b: &[u8]) -> Result<MemoryDisk, AllocError> {
    MemoryDisk::new(a.to_vec(alloc)?, b.to_vec(alloc)?, Vec::new(alloc))
}

/// Whether a disk is bad, on this side and at this place.
fn is_bad_at(disk: MemoryDisk, alloc: Global, side: Side, place: u64) -> bool {
    match Journal::open(alloc, disk) {
        Err(JournalRefused::Bad(bad, first, _)) => bad == side && first == place,
        _ => false,
    }
}

/// Whether a disk isn't bad.
fn is_good(disk: MemoryDisk, alloc: Global) -> bool {
    !matches!(Journal::open(alloc, disk), Err(JournalRefused::Bad(..)))
}

fn are_bad_so(rt: &impl Abort, alloc: Global, rows: &[Damage]) -> Result<(), Fail> {
    for (a, b, side, place) in rows {
        let disk = open_disk(alloc, a, b)?;
        let bad = is_bad_at(disk, alloc, *side, *place);
        assert!(rt; bad, "of {} bytes and {}", a.len(), b.len());
    }
    Ok(())
}

const HEADS: [Damage; 6] = [
    (b"\x01\0", b"", Side::A, 1),
    (b"\x01\0\0\0\0\0\0\0\x01\0\0\0", b"", Side::A, 1),
    (b"", b"\x01\x01", Side::B, 1),
    (WHOLE, b"\x01\0\0\0\0\0\0\0\0\0\0\0", Side::B, 1),
    // side a is looked at first
    (b"\x01\x01\x01", b"\x01\x01", Side::A, 1),
    (b"\x01\0\0\0\0\0\0\0\x01\0\0\0", WHOLE, Side::A, 1),
];

#[test]
fn an_open_side_has_a_whole_head(rt: HostRuntime) -> Result<(), Fail> {
    are_bad_so(&rt, rt.alloc(), &HEADS)
}

const GENERATIONS: [Damage; 2] = [
    (WHOLE, WHOLE, Side::B, 1),
    // whatever else is bad on them
    (
        b"\x01\xff\0\0\0\0\0\0\x07\xff\xff\xff\xff",
        b"\x01\xff\0\0\0\0\0\0\x07\0\0\0\0",
        Side::B,
        1,
    ),
];

#[test]
fn two_open_sides_have_two_generations(rt: HostRuntime) -> Result<(), Fail> {
    are_bad_so(&rt, rt.alloc(), &GENERATIONS)
}

const BASES: [Damage; 6] = [
    (b"\x01\0\0\0\0\0\0\0\x01\0\0\0\x01", b"", Side::A, 9),
    (b"\x01\0\0\0\0\0\0\0\x01\0\0\0\x03ab", b"\0\0", Side::A, 9),
    (b"\x01\0\0\0\0\0\0\0\x01\x40\0\0\x01ab", b"", Side::A, 9),
    (b"", b"\x01\0\0\0\0\0\0\0\x01\xff\xff\xff\xffab", Side::B, 9),
    // the newer side is held
    (WHOLE, b"\x01\0\0\0\0\0\0\0\x02\0\0\0\x02a", Side::B, 9),
    (b"\x01\0\0\0\0\0\0\x01\0\0\0\0\x02a", WHOLE, Side::A, 9),
];

#[test]
fn a_base_is_short_and_whole(rt: HostRuntime) -> Result<(), Fail> {
    are_bad_so(&rt, rt.alloc(), &BASES)
}

const ENDS: [Damage; 4] = [
    (b"\x01\0\0\0\0\0\0\0\x01\0\0\0\0", b"", Side::A, 13),
    (b"\x01\0\0\0\0\0\0\0\x01\0\0\0\x02ab", b"", Side::A, 15),
    (
        b"",
        b"\x01\0\0\0\0\0\0\0\x01\0\0\0\0\x01\0\0\0\x01x",
        Side::B,
        19,
    ),
    (
        b"\x01\0\0\0\0\0\0\0\x01\0\0\0\x01a\x01\0\0\0\x01x\x01\0\0\0\x02yz",
        b"",
        Side::A,
        27,
    ),
];

#[test]
fn a_gate_ends_the_records(rt: HostRuntime) -> Result<(), Fail> {
    are_bad_so(&rt, rt.alloc(), &ENDS)
}

const CUT_RECORDS: [Damage; 6] = [
    // cut behind its gate, in its length, behind it, and in its payload
    (b"\x01\0\0\0\0\0\0\0\x01\0\0\0\0\x01", b"", Side::A, 13),
    (
        b"\x01\0\0\0\0\0\0\0\x01\0\0\0\0\x01\0\0\0",
        b"",
        Side::A,
        13,
    ),
    (
        b"\x01\0\0\0\0\0\0\0\x01\0\0\0\0\x01\0\0\0\x02",
        b"",
        Side::A,
        13,
    ),
    (
        b"",
        b"\x01\0\0\0\0\0\0\0\x01\0\0\0\0\x01\0\0\0\x02x",
        Side::B,
        13,
    ),
    // the second record is cut
    (
        b"\x01\0\0\0\0\0\0\0\x01\0\0\0\x01a\x01\0\0\0\x01x\x01\0\0\0",
        b"",
        Side::A,
        20,
    ),
    (
        b"\x01\0\0\0\0\0\0\0\x01\0\0\0\x01a\x01\0\0\0\x01x\x01\0\0\0\x03yz",
        b"",
        Side::A,
        20,
    ),
];

#[test]
fn a_record_is_whole(rt: HostRuntime) -> Result<(), Fail> {
    are_bad_so(&rt, rt.alloc(), &CUT_RECORDS)
}

const LENGTHS: [Damage; 5] = [
    (
        b"\x01\0\0\0\0\0\0\0\x01\0\0\0\0\x01\0\0\0\0\0",
        b"",
        Side::A,
        13,
    ),
    (
        b"\x01\0\0\0\0\0\0\0\x01\0\0\0\x01a\x01\0\0\0\x01x\x01\0\0\0\0\0",
        b"",
        Side::A,
        20,
    ),
    (
        b"\x01\0\0\0\0\0\0\0\x01\0\0\0\0\x01\0\x02\0\x01x\0",
        b"",
        Side::A,
        13,
    ),
    (
        b"\x01\0\0\0\0\0\0\0\x01\0\0\0\0\x01\xff\xff\xff\xffx\0",
        b"",
        Side::A,
        13,
    ),
    // 131,072 is a length, but so many bytes don't follow
    (
        b"",
        b"\x01\0\0\0\0\0\0\0\x01\0\0\0\0\x01\0\x02\0\0x\0",
        Side::B,
        13,
    ),
];

#[test]
fn a_record_has_a_length_that_it_may_have(rt: HostRuntime) -> Result<(), Fail> {
    are_bad_so(&rt, rt.alloc(), &LENGTHS)
}

/// A side with no base and one record that gives this length, and one byte more than the longest
/// record has.
fn long_record(alloc: Global, length: [u8; 4]) -> Result<Vec<u8>, AllocError> {
    let mut side = b"\x01\0\0\0\0\0\0\0\x01\0\0\0\0\x01".to_vec(alloc)?;
    side.extend_from_slice(&length)?;
    side.extend_from_slice(&vec![in alloc; 0; MAX_RECORD]?)?;
    side.push(0)?;
    Ok(side)
}

#[test]
fn a_record_of_131_072_bytes_is_read(rt: HostRuntime) -> Result<(), Fail> {
    let longest = long_record(rt.alloc(), [0, 2, 0, 0])?;
    let disk = open_disk(rt.alloc(), &longest, b"")?;
    assert!(rt; is_good(disk, rt.alloc()));
    Ok(())
}

#[test]
fn a_record_of_131_073_bytes_is_not_read(rt: HostRuntime) -> Result<(), Fail> {
    let mut longer = long_record(rt.alloc(), [0, 2, 0, 1])?;
    longer.push(0)?;
    let disk = open_disk(rt.alloc(), &longer, b"")?;
    assert!(rt; is_bad_at(disk, rt.alloc(), Side::A, 13));
    Ok(())
}

const UNREAD: [(&[u8], &[u8]); 6] = [
    (b"", b""),
    // fewer than two bytes, or another gate
    (b"\x01", b"\x07\x01\x01"),
    (b"\0\x01\x01", b"\x01"),
    // the older side
    (b"\x01\0\0\0\0\0\0\0\0\xff\xff\xff\xff", WHOLE),
    (WHOLE, b"\x01\0\0\0\0\0\0\0\0\0\0\0\0"),
    // behind the gate that ends the records
    (WHOLE, b"\x01\0\0\0\0\0\0\0\x02\0\0\0\0\x07\x01\0\0\0\0"),
];

#[test]
fn what_is_not_looked_at_may_be_anything(rt: HostRuntime) -> Result<(), Fail> {
    for (a, b) in UNREAD.iter() {
        let disk = open_disk(rt.alloc(), a, b)?;
        assert!(rt; is_good(disk, rt.alloc()));
    }
    Ok(())
}

/// The generation of an open side, or the place where a side is bad.
fn layout_on(alloc: Global, mut disk: MemoryDisk) -> Option<Result<u64, u64>> {
    match layout(alloc, &mut disk, Side::B) {
        Layout::Open(held) => Some(Ok(held.generation)),
        Layout::Bad(place) => Some(Err(place)),
        _ => None,
    }
}

/// Sides, each with its generation, or with the place where it is bad.
type Outcome = (&'static [u8], Option<Result<u64, u64>>);

const LAYOUTS: [Outcome; 5] = [
    (b"\x01", None),
    (WHOLE, Some(Ok(1))),
    (b"\x01\0", Some(Err(1))),
    (b"\x01\0\0\0\0\0\0\0\0\0\0\0\x01", Some(Err(9))),
    (b"\x01\0\0\0\0\0\0\0\0\0\0\0\0", Some(Err(13))),
];

#[test]
fn each_side_has_a_layout_of_its_own(rt: HostRuntime) -> Result<(), Fail> {
    for (side, outcome) in LAYOUTS.iter() {
        let disk = open_disk(rt.alloc(), b"", side)?;
        assert!(rt; layout_on(rt.alloc(), disk) == *outcome);
    }
    Ok(())
}

fn station_of(alloc: Global, input: &[u8]) -> Result<MemoryStation, AllocError> {
    MemoryStation::new(
        input.to_vec(alloc)?,
        Vec::new(alloc),
        Vec::new(alloc),
        Vec::new(alloc),
    )
}

/// Whether the station of a journal with the input `abc` is read and written.
fn is_in_use(mut journal: Journal<MemoryStation>) -> bool {
    let mut into = [0; 2];
    let got = journal.read_in(&mut into);
    let written = journal.write_out(b"out");
    got == Got::Bytes(2)
        && into.as_slice() == b"ab".as_slice()
        && written == Ok(())
        && journal.disk().output() == b"out".as_slice()
}

#[test]
fn the_station_of_a_journal_is_still_read_and_written(rt: HostRuntime) -> Result<(), Fail> {
    let station = station_of(rt.alloc(), b"abc")?;
    let (journal, _) = Journal::open(rt.alloc(), station)?;
    assert!(rt; is_in_use(journal));
    Ok(())
}
