//! How many calls of the disk each call of a journal makes.

use super::kit::open_on;
use super::script::{Step, make};
use std::alloc::{AllocError, Global};
use std::test::Fail;
use xs_outside::MemoryStation;

/// Side a with generation 2, no base and one record.
const ONE_RECORD: &[u8] = b"\x01\0\0\0\0\0\0\0\x02\0\0\0\0\x01\0\0\0\x01x\0";

/// A side with generation 1, no base and no record.
const OLDER: &[u8] = b"\x01\0\0\0\0\0\0\0\x01\0\0\0\0\0";

/// Sides, a call, and how many calls of the disk opening them makes, and the call itself.
type Count = (&'static [u8], &'static [u8], Step, u64, u64);

const COUNTS: [Count; 9] = [
    (ONE_RECORD, b"", Step::Append(1), 5, 4),
    (ONE_RECORD, b"", Step::DropLast, 5, 2),
    // sides of fewer than two bytes, and open ones, are closed first
    (b"", b"", Step::Switch(1), 4, 6),
    (b"\0", b"", Step::Switch(1), 5, 6),
    (b"\x01", b"", Step::Switch(1), 5, 6),
    (ONE_RECORD, b"", Step::Switch(1), 5, 6),
    (ONE_RECORD, OLDER, Step::Switch(1), 6, 6),
    // closed ones of two bytes or more aren't
    (b"\0\x01", b"", Step::Switch(1), 5, 4),
    (ONE_RECORD, b"\x07\x01", Step::Switch(1), 6, 4),
];

fn station_of(alloc: Global, a: &[u8], b: &[u8]) -> Result<MemoryStation, AllocError> {
    MemoryStation::new(
        Vec::new(alloc),
        a.to_vec(alloc)?,
        b.to_vec(alloc)?,
        Vec::new(alloc),
    )
}

/// Whether a call is done on a station that makes so many calls of its disk, those of opening among
/// them.
fn is_done_in(
    alloc: Global,
    mut station: MemoryStation,
    step: Step,
    calls: u64,
) -> Result<bool, AllocError> {
    station.stop_after(calls);
    match open_on(alloc, station) {
        Ok((mut journal, _)) => make(alloc, &mut journal, step),
        Err(_) => Ok(false),
    }
}

/// Whether a call is done in so many calls of the disk, and not in one fewer.
fn is_count(alloc: Global, count: &Count) -> Result<bool, AllocError> {
    let (a, b, step, opening, calls) = count;
    let all = opening.saturating_add(*calls);
    let fewer = all.saturating_sub(1);
    let done = is_done_in(alloc, station_of(alloc, a, b)?, *step, all)?;
    Ok(done && !is_done_in(alloc, station_of(alloc, a, b)?, *step, fewer)?)
}

#[test]
fn each_call_makes_so_many_of_the_disk(rt: HostRuntime) -> Result<(), Fail> {
    for count in COUNTS.iter() {
        assert!(rt;
            is_count(rt.alloc(), count)?,
            "in {} and {}",
            count.3,
            count.4
        );
    }
    Ok(())
}
