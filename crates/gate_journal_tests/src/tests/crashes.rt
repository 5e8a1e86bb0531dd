//! Scripts that are stopped at each call of the disk, and what a crash then leaves.

ghost use Rattle.gate_journal.specs.InUse.{IsInUse};
ghost use Rattle.gate_journal.specs.Journal.{disk_of};

use super::kit::{open_anew, open_on};
use super::script::{Plain, Step, Stop, run, script};
use gate_journal::{Held, Journal, JournalRefused};
use std::alloc::{AllocError, Global};
use std::test::Fail;
use xs_outside::{Disk, Image, MemoryDisk, MemoryStation};

/// How many scripts are tried.
const SCRIPTS: u64 = 6;

/// How many calls each script makes of a journal.
const STEPS: u64 = 14;

/// No script makes more calls of the disk: opening makes four, and each step at most six.
const MOST_CALLS: u64 = 4 + 6 * STEPS;

fn empty_station(alloc: Global, fails: Vec<u64>) -> Result<MemoryStation, AllocError> {
    MemoryStation::new(Vec::new(alloc), Vec::new(alloc), Vec::new(alloc), fails)
}

fn disk_of(alloc: Global, image: &Image) -> Result<MemoryDisk, AllocError> {
    let a = image.a.as_slice().to_vec(alloc)?;
    let b = image.b.as_slice().to_vec(alloc)?;
    MemoryDisk::new(a, b, Vec::new(alloc))
}

/// What a disk holds.
fn held_on(alloc: Global, disk: MemoryDisk) -> Result<Option<Held>, Fail> {
    match Journal::open(alloc, disk) {
        Ok((_, held)) => Ok(held),
        Err(_) => Err("an image is bad")?,
    }
}

/// Each crash now leaves what was held before the call that failed, or what is held after it.
fn leaves_either(alloc: Global, station: &MemoryStation, stop: &Stop) -> Result<(), Fail> {
    let images = station.images()?;
    for image in images.as_slice() {
        let held = held_on(alloc, disk_of(alloc, image)?)?;
        if !stop.is_either(&held)? {
            return Err("a crash leaves what neither was held nor is next")?;
        }
    }
    Ok(())
}

/// Makes a script on a station, from opening it on, until a call fails.
fn begin(
    alloc: Global,
    station: MemoryStation,
    steps: &[Step],
) -> Result<(MemoryStation, Stop), Fail> {
    match open_on(alloc, station) {
        Ok((mut journal, _)) => {
            let stop = run(alloc, &mut journal, steps, Plain::new(alloc))?;
            if journal.is_shut() != (stop.done < steps.len()) {
                return Err("a journal is shut after a failed call, and only then")?;
            }
            Ok((journal.disk(), stop))
        }
        Err(JournalRefused::Fault(station)) => Ok((station, Stop::new(alloc))),
        Err(_) => Err("not opened")?,
    }
}

/// Makes a script on a station, and tells whether it was done.
fn is_done(alloc: Global, station: MemoryStation, steps: &[Step]) -> Result<bool, Fail> {
    let (station, stop) = begin(alloc, station, steps)?;
    leaves_either(alloc, &station, &stop)?;
    Ok(stop.done == steps.len())
}

/// Stops a script after each number of calls of the disk, and tells whether it was done in the end.
fn is_done_in_the_end(alloc: Global, steps: &[Step]) -> Result<bool, Fail> {
    for calls in 0..=MOST_CALLS {
        let mut station = empty_station(alloc, Vec::new(alloc))?;
        station.stop_after(calls);
        if is_done(alloc, station, steps)? {
            return Ok(true);
        }
    }
    Ok(false)
}

#[test]
fn a_stop_after_any_call_leaves_what_was_held_or_what_is_next(rt: HostRuntime) -> Result<(), Fail> {
    for seed in 1..=SCRIPTS {
        let steps = script(rt.alloc(), seed, STEPS)?;
        assert!(rt; is_done_in_the_end(rt.alloc(), &steps)?);
    }
    Ok(())
}

/// Makes each front part of a script, and tells whether all were done.
fn is_each_done(alloc: Global, steps: &[Step]) -> Result<bool, Fail> {
    for count in 0..=steps.len() {
        let station = empty_station(alloc, Vec::new(alloc))?;
        if !is_done(alloc, station, &steps[..count])? {
            return Ok(false);
        }
    }
    Ok(true)
}

#[test]
fn a_crash_after_an_answer_leaves_what_it_says(rt: HostRuntime) -> Result<(), Fail> {
    for seed in 1..=SCRIPTS {
        let steps = script(rt.alloc(), seed, STEPS)?;
        assert!(rt; is_each_done(rt.alloc(), &steps)?);
    }
    Ok(())
}

/// Opens the disk of a station once more after a failed call, and makes the rest of a script.
fn go_on(alloc: Global, station: MemoryStation, steps: &[Step], stop: Stop) -> Result<(), Fail> {
    let Ok((mut journal, held)) = open_on(alloc, station) else {
        return Err("not opened again")?;
    };
    let end = make_rest(alloc, &mut journal, steps, stop, &held)?;
    leaves_either(alloc, &journal.disk(), &end)
}

/// Makes the rest of a script, where this was found to be held after a failed call.
fn make_rest<D: Disk>(
    alloc: Global,
    journal: &mut Journal<D>,
    steps: &[Step],
    stop: Stop,
    held: &Option<Held>,
) -> Result<Stop, Fail>
    requires { IsInUse (D.state (disk_of journal.old)) journal.old }
{
    let (held, done) = stop.held_now(held)?;
    let rest = steps.get(done..).unwrap_or(&[]);
    let end = run(alloc, journal, rest, held)?;
    if end.done != rest.len() {
        return Err("the rest isn't done")?;
    }
    Ok(end)
}

/// Makes a script on a station whose call with this number fails, opens its disk again, and makes
/// the rest.
fn fail_once(alloc: Global, steps: &[Step], call: u64) -> Result<(), Fail> {
    let station = empty_station(alloc, [call].to_vec(alloc)?)?;
    let (station, stop) = begin(alloc, station, steps)?;
    if stop.done == steps.len() {
        return leaves_either(alloc, &station, &stop);
    }
    go_on(alloc, station, steps, stop)
}

#[test]
fn after_one_failed_call_the_disk_is_opened_again_and_used(rt: HostRuntime) -> Result<(), Fail> {
    for seed in 1..=SCRIPTS {
        let steps = script(rt.alloc(), seed, STEPS)?;
        for call in 1..=MOST_CALLS {
            fail_once(rt.alloc(), &steps, call)?;
        }
    }
    Ok(())
}

/// Makes a script on a station whose call with this number fails, opens the journal anew in place, and
/// makes the rest. Where opening fails there is no journal.
fn fail_in_place(alloc: Global, steps: &[Step], call: u64) -> Result<(), Fail> {
    let station = empty_station(alloc, [call].to_vec(alloc)?)?;
    let Ok((mut journal, _)) = open_on(alloc, station) else {
        return Ok(());
    };
    let stop = run(alloc, &mut journal, steps, Plain::new(alloc))?;
    if stop.done == steps.len() {
        return leaves_either(alloc, &journal.disk(), &stop);
    }
    let Ok(held) = open_anew(&mut journal) else {
        return Err("not opened anew")?;
    };
    let end = make_rest(alloc, &mut journal, steps, stop, &held)?;
    leaves_either(alloc, &journal.disk(), &end)
}

#[test]
fn after_one_failed_call_the_journal_is_opened_anew_and_used(rt: HostRuntime) -> Result<(), Fail> {
    for seed in 1..=SCRIPTS {
        let steps = script(rt.alloc(), seed, STEPS)?;
        for call in 1..=MOST_CALLS {
            fail_in_place(rt.alloc(), &steps, call)?;
        }
    }
    Ok(())
}
