//! A disk in memory. It fails at the calls that its list names, and tells what a crash at each
//! moment may leave.

ghost use Rattle.std.specs.Prelude.{◌≡◌, ◌≤◌, IfOk};

use super::disk_history::DiskHistory;
use super::schedule::Schedule;
use crate::{Disk, Failed, Side};
use std::alloc::AllocError;

/// A disk in memory. It keeps all bytes that were ever written to it.
#[derive(Debug, Drop)]
pub struct MemoryDisk {
    pub(super) sides: DiskHistory,
    pub(super) schedule: Schedule,
    faults: u64,
    fetched: u64,
}

impl MemoryDisk {
    ghost use Rattle.xs_outside.specs.Counts.{saturating_next};
    ghost use Rattle.xs_outside.specs.Disk.{on};
    ghost use Rattle.xs_outside.specs.MemoryDisk.{IsFreshDisk, DiskFailsAt, state_of_disk};
    ghost use Rattle.xs_outside.specs.Schedule.{is_due, Counted};
    ghost use Rattle.xs_outside.specs.Station.{KeepsDisk};

    /// A disk whose sides hold these bytes, nothing pending, whose calls with these numbers fail,
    /// counted from 1.
    pub fn new(a: Vec<u8>, b: Vec<u8>, fails: Vec<u64>) -> Result<MemoryDisk, AllocError>
        ensures fresh { IfOk result (λ disk. IsFreshDisk a.items b.items
            (⟦<MemoryDisk as Disk>⟧.state disk)) }
        ensures fails { IfOk result (λ disk. DiskFailsAt fails.items disk) }
    {
        Ok(MemoryDisk {
            sides: DiskHistory::new(a, b)?,
            schedule: Schedule::new(fails),
            faults: 0,
            fetched: 0,
        })
    }

    /// Lends a side as it reads.
    pub fn side(&self, side: Side) -> &[u8]
        ensures { result.now ≡ on side (⟦<MemoryDisk as Disk>⟧.state self.now).content }
    {
        self.sides.side(side)
    }

    /// Lets a call of a stream go by, which a station counts together with those of its disk, and
    /// tells whether it is to fail.
    pub(super) fn stream_call_fails(&mut self) -> bool
        ensures due { result ≡ is_due self.old.schedule }
        ensures counted { Counted self.old.schedule self.new.schedule }
        ensures kept { KeepsDisk (state_of_disk self.old) (state_of_disk self.new) }
    {
        self.sides.tick();
        self.schedule.next_fails()
    }

    /// Counts a fault.
    fn fail(&mut self) -> Failed
        ensures faults { self.new.faults ≡ saturating_next self.old.faults }
        ensures later { self.old.faults ≤ self.new.faults }
        ensures kept { self.new ≡ record self.old { faults = self.new.faults } }
    {
        self.faults = self.faults.saturating_add(1);
        Failed
    }
}

impl Disk for MemoryDisk {
    ghost use Rattle.xs_outside.specs.MemoryDisk.{state_of_disk, LooksAtDisk, StoresOnDisk};
    ghost use Rattle.xs_outside.specs.ReadsAnImage.{reads_an_image};

    ghost state = { state_of_disk };

    ghost looks = { LooksAtDisk };

    ghost stores = { StoresOnDisk };

    ghost reads_an_image = { λ disk honest. reads_an_image disk.sides };

    fn length(&mut self, side: Side) -> Result<u64, Failed> {
        self.sides.tick();
        if self.schedule.next_disk_call_fails() {
            return Err(self.fail());
        }
        Ok(self.sides.side(side).len() as u64)
    }

    fn read(&mut self, side: Side, at: u64, into: &mut [u8]) -> Result<(), Failed> {
        self.sides.tick();
        if self.schedule.next_disk_call_fails() {
            return Err(self.fail());
        }
        let at = at as usize;
        into.copy_from_slice(&self.sides.side(side)[at..at + into.len()]);
        self.fetched = self.fetched.saturating_add(into.len() as u64);
        Ok(())
    }

    fn write(&mut self, side: Side, at: u64, bytes: &[u8]) -> Result<(), Failed> {
        if self.schedule.next_disk_call_fails() {
            self.sides.tick();
            return Err(self.fail());
        }
        if self.sides.write(side, at as usize, bytes).is_err() {
            return Err(self.fail());
        }
        Ok(())
    }

    fn sync(&mut self, side: Side) -> Result<(), Failed> {
        if self.schedule.next_disk_call_fails() {
            self.sides.tick();
            return Err(self.fail());
        }
        if self.sides.sync(side).is_err() {
            return Err(self.fail());
        }
        Ok(())
    }
}
