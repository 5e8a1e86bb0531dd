//! The outside of an office in memory: an input, an output and a disk on one clock.

ghost use Rattle.std.specs.Prelude.{◌≡◌, ◌≤◌, IfOk, Some};
ghost use Rattle.std.specs.List.{All};
ghost use Rattle.xs_outside.specs.Spans.{moments_of};

use super::buffers::{InputBuffer, StampedOutput};
use super::crash::Images;
use super::disk::MemoryDisk;
use crate::{Both, Disk, Failed, Got, Side, Sink, Source, Station};
use std::alloc::AllocError;

/// The outside of an office in memory. It keeps all bytes that were ever written to its disk.
#[derive(Debug, Drop)]
pub struct MemoryStation {
    input: InputBuffer,
    output: StampedOutput,
    disk: MemoryDisk,
    ghost in_the_past: { All (λ m. m ≤ disk.sides.clock) (moments_of output.spans.items) },
}

impl MemoryStation {
    ghost use Rattle.xs_outside.specs.Buffers.{IsFreshInput, IsFreshOutput};
    ghost use Rattle.xs_outside.specs.Disk.{on, MayLeaveNow};
    ghost use Rattle.xs_outside.specs.DiskHistory.{sides_of_image};
    ghost use Rattle.xs_outside.specs.MemoryDisk.{IsFreshDisk};
    ghost use Rattle.xs_outside.specs.MemoryStation.{images_of_station, StationFailsAt, IsStoppedAfter};

    /// A station with this input and no output, on a disk whose sides hold these bytes, nothing
    /// pending. The calls with these numbers fail, counted from 1 over calls of every kind.
    pub fn new(
        input: Vec<u8>,
        a: Vec<u8>,
        b: Vec<u8>,
        fails: Vec<u64>,
    ) -> Result<MemoryStation, AllocError>
        ensures input { IfOk result (λ station. IsFreshInput input.items
            (⟦<MemoryStation as Source>⟧.left station)
            (⟦<MemoryStation as Source>⟧.taken station)
            (⟦<MemoryStation as Source>⟧.read_faults station)) }
        ensures output { IfOk result (λ station. IsFreshOutput
            (⟦<MemoryStation as Sink>⟧.written station)
            (⟦<MemoryStation as Sink>⟧.write_faults station)) }
        ensures disk { IfOk result (λ station. IsFreshDisk a.items b.items
            (⟦<MemoryStation as Disk>⟧.state station)) }
        ensures fails { IfOk result (λ station. StationFailsAt fails.items station) }
    {
        Ok(MemoryStation {
            output: StampedOutput::new(*input.allocator()),
            input: InputBuffer::new(input),
            disk: MemoryDisk::new(a, b, fails)?,
        })
    }

    /// From now on the station makes so many calls of its disk. Every call after these, of any
    /// kind, fails and does nothing but raise its count and the clock.
    pub fn stop_after(&mut self, k: u64)
        ensures { IsStoppedAfter k self.old self.new }
    {
        self.disk.schedule.stop_after(k);
    }

    /// What a crash now may leave: each side with its pending writes left out, with them done, and
    /// with their ranges filled with 0, 1 and 255 at the old and at the new length, beside each of
    /// the other side. These are 1, 8 or 64 images, and each goes through all that was ever written.
    pub fn images(&self) -> Result<Images, AllocError>
        ensures tried { IfOk result (λ images. images ≡ images_of_station self.now) }
        ensures possible { IfOk result (λ images. All (λ image.
            MayLeaveNow (⟦<MemoryStation as Disk>⟧.state self.now) (sides_of_image image)) images) }
        ensures output { IfOk result (λ images. All (λ image.
            ⟦<MemoryStation as Sink>⟧.written self.now ≡ Some image.output) images) }
    {
        self.disk.sides.images(&self.output.buffer.bytes)
    }

    /// Lends what was written to the output.
    pub fn output(&self) -> &[u8]
        ensures { ⟦<MemoryStation as Sink>⟧.written self.now ≡ Some result.now }
    {
        &self.output.buffer.bytes
    }

    /// Lends a side of the disk as it reads.
    pub fn side(&self, side: Side) -> &[u8]
        ensures { result.now ≡ on side (⟦<MemoryStation as Disk>⟧.state self.now).content }
    {
        self.disk.side(side)
    }
}

impl Source for MemoryStation {
    ghost use Rattle.std.specs.Prelude.{Some};
    ghost use Rattle.xs_outside.specs.Buffers.{left_of};
    ghost use Rattle.xs_outside.specs.MemoryStation.{ReadsStation};

    ghost left = { λ station. Some (left_of station.input) };

    ghost taken = { λ station. station.input.place };

    ghost read_faults = { λ station. station.input.faults };

    ghost reads = { ReadsStation };

    fn read(&mut self, into: &mut [u8]) -> Got {
        let fails = self.disk.stream_call_fails();
        self.input.read(fails, into)
    }
}

impl Sink for MemoryStation {
    ghost use Rattle.std.specs.Prelude.{Some};
    ghost use Rattle.xs_outside.specs.MemoryStation.{WritesStation};

    ghost written = { λ station. Some station.output.buffer.bytes.items };

    ghost write_faults = { λ station. station.output.buffer.faults };

    ghost writes = { WritesStation };

    /// At the end of time no byte can get a moment of its own call, so a write fails there.
    fn write(&mut self, bytes: &[u8]) -> Result<(), Failed> {
        let then = self.disk.sides.clock;
        let due = self.disk.stream_call_fails();
        let now = self.disk.sides.clock;
        let fails = due || now == then;
        self.output.write(fails, now, bytes)
    }
}

impl Both for MemoryStation {
    ghost use Rattle.std.proofs.Common.{ap};
    ghost use Rattle.std.specs.Prelude.{Some};
    ghost use Rattle.xs_outside.specs.Buffers.{left_of};

    ghost read_leaves = { λ got old new kept.
        (ap (λ o. Some o.buffer.bytes.items) kept.output, ap (λ o. o.buffer.faults) kept.output) };

    ghost write_leaves = { λ result old new kept. (
      ap (λ i. Some (left_of i)) kept.input,
      ap (λ i. i.place) kept.input,
      ap (λ i. i.faults) kept.input,
    ) };
}

impl Disk for MemoryStation {
    ghost use Rattle.xs_outside.specs.MemoryStation.{state_of_station, LooksAtStation, StoresOnStation};
    ghost use Rattle.xs_outside.specs.ReadsAnImage.{reads_an_image};

    ghost state = { state_of_station };

    ghost looks = { LooksAtStation };

    ghost stores = { StoresOnStation };

    ghost reads_an_image = { λ station honest. reads_an_image station.disk.sides };

    fn length(&mut self, side: Side) -> Result<u64, Failed> {
        self.disk.length(side)
    }

    fn read(&mut self, side: Side, at: u64, into: &mut [u8]) -> Result<(), Failed> {
        self.disk.read(side, at, into)
    }

    fn write(&mut self, side: Side, at: u64, bytes: &[u8]) -> Result<(), Failed> {
        self.disk.write(side, at, bytes)
    }

    fn sync(&mut self, side: Side) -> Result<(), Failed> {
        self.disk.sync(side)
    }
}

impl Station for MemoryStation {
    ghost use Rattle.std.proofs.Common.{refl};

    ghost tells_input = { λ station.
        record { input = refl; handed_out = refl; read_faults = refl } };

    ghost tells_output = { λ station. record {
      output = refl;
      write_faults = refl;
      moments = record { each = station.output.each; past = station.in_the_past };
    } };

    ghost read_leaves_disk = { λ got old new kept. kept.disk };

    ghost write_leaves_disk = { λ result old new kept. kept.disk };
}
