//! The two sides of a disk in memory, with one clock.

ghost use Rattle.std.specs.Prelude.{◌≡◌, ◌+◌, ◌≤◌, length, reverse, OnOk, OnErr, IfOk};
ghost use Rattle.xs_outside.specs.History.{latest};

use super::crash::{Images, images, sides_after_crashes};
use super::history::SideHistory;
use crate::Side;
use std::alloc::AllocError;

/// Both sides with their histories. The clock counts the calls.
#[derive(Debug, Drop)]
pub struct DiskHistory {
    pub a: SideHistory,
    pub b: SideHistory,
    pub clock: u64,
    ghost a_in_the_past: { latest (reverse a.changes.items) ≤ clock },
    ghost b_in_the_past: { latest (reverse b.changes.items) ≤ clock },
}

impl DiskHistory {
    ghost use Rattle.std.specs.List.{All};
    ghost use Rattle.xs_outside.specs.Counts.{saturating_next};
    ghost use Rattle.xs_outside.specs.Disk.{on, Changes, Written, Torn, NoMoreImages, NoFewerImages, SyncedImages, Passes, IsSettled};
    ghost use Rattle.xs_outside.specs.DiskHistory.{sides_of_history, state_of_history, MayLeave, tried_images, sides_of_image};
    ghost use Rattle.xs_outside.specs.Station.{KeepsDisk};

    /// A disk whose sides hold these bytes, all synced.
    pub fn new(a: Vec<u8>, b: Vec<u8>) -> Result<DiskHistory, AllocError>
        ensures content { IfOk result (λ disk. sides_of_history disk
            ≡ record { a = a.items; b = b.items }) }
        ensures settled { IfOk result (λ disk. IsSettled (state_of_history disk)) }
        ensures clock { IfOk result (λ disk. disk.clock ≡ 0) }
    {
        Ok(DiskHistory {
            a: SideHistory::new(a)?,
            b: SideHistory::new(b)?,
            clock: 0,
        })
    }

    /// Lends what a side reads.
    pub fn side(&self, side: Side) -> &[u8]
        ensures { result.now ≡ on side (sides_of_history self.now) }
    {
        match side {
            Side::A => &self.a.content,
            Side::B => &self.b.content,
        }
    }

    /// What crashes now may leave: each side with its pending writes left out, with them done, and
    /// with their ranges filled, beside each of the other side, and this output.
    pub fn images(&self, output: &[u8]) -> Result<Images, AllocError>
        ensures tried { IfOk result (λ images. images ≡ tried_images self.now output.now) }
        ensures possible { IfOk result (λ images. All (λ image.
            MayLeave self.now self.now.clock (sides_of_image image) × (image.output ≡ output.now))
            images) }
    {
        let alloc = *self.a.start.allocator();
        let a = sides_after_crashes(alloc, &self.a.start, &self.a.changes)?;
        let b = sides_after_crashes(alloc, &self.b.start, &self.b.changes)?;
        images(alloc, &a, &b, output)
    }

    /// Lets one call go by that changes no side.
    pub fn tick(&mut self)
        ensures clock { self.new.clock ≡ saturating_next self.old.clock }
        ensures kept { KeepsDisk (state_of_history self.old) (state_of_history self.new) }
    {
        self.clock = self.clock.saturating_add(1);
    }

    /// Writes bytes on a side over those from a place on, and past the end. For want of memory, and
    /// at the end of time, only the time goes by.
    pub fn write(&mut self, side: Side, at: usize, bytes: &[u8]) -> Result<(), AllocError>
        requires { at ≤ length (on side (sides_of_history self.old)) }
        ensures written { OnOk result (Changes side (Written at bytes.now)
            (sides_of_history self.old) (sides_of_history self.new)) }
        ensures images { OnOk result (NoMoreImages (Changes side (Torn at (length bytes.now)))
            (state_of_history self.old) (state_of_history self.new)) }
        ensures torn { OnOk result (NoFewerImages (Changes side (Torn at (length bytes.now)))
            (state_of_history self.old) (state_of_history self.new)) }
        ensures time { Passes (state_of_history self.old) (state_of_history self.new) }
        ensures refused { OnErr result (KeepsDisk
            (state_of_history self.old) (state_of_history self.new)) }
    {
        let Some(moment) = self.clock.checked_add(1) else {
            return Err(AllocError);
        };
        self.clock = moment;
        match side {
            Side::A => self.a.write(moment, at, bytes),
            Side::B => self.b.write(moment, at, bytes),
        }
    }

    /// Syncs a side. For want of memory, and at the end of time, only the time goes by.
    pub fn sync(&mut self, side: Side) -> Result<(), AllocError>
        ensures content { sides_of_history self.new ≡ sides_of_history self.old }
        ensures synced { OnOk result (SyncedImages side
            (state_of_history self.old) (state_of_history self.new)) }
        ensures time { Passes (state_of_history self.old) (state_of_history self.new) }
        ensures refused { OnErr result (KeepsDisk
            (state_of_history self.old) (state_of_history self.new)) }
    {
        let Some(moment) = self.clock.checked_add(1) else {
            return Err(AllocError);
        };
        self.clock = moment;
        match side {
            Side::A => self.a.sync(moment),
            Side::B => self.b.sync(moment),
        }
    }
}
