//! The input and the output of an object in memory, each with its count of faults.

ghost use Rattle.std.specs.Prelude.{◌≡◌, ◌+◌, ◌≤◌, ◌<◌, [], ◌++◌, Some, min, length, take, replicate, OnOk, OnErr};
ghost use Rattle.std.specs.Vec.{vec_len};
ghost use Rattle.xs_outside.specs.Spans.{moments_of};
ghost use Rattle.xs_outside.specs.Counts.{CountsFailure};
ghost use Rattle.xs_outside.specs.Streams.{bytes_given, CountsReadFailure, ReadGives, WriteAdds};

use crate::{Failed, Got};
use std::alloc::Global;

/// Bytes that are handed out from the front.
#[derive(Debug, Drop)]
pub struct InputBuffer {
    bytes: Vec<u8>,
    place: usize,
    faults: u64,
    ghost within: { place ≤ vec_len bytes },
}

impl InputBuffer {
    ghost use Rattle.xs_outside.specs.Buffers.{left_of, IsFreshInput, ReadsInput};

    pub fn new(bytes: Vec<u8>) -> InputBuffer
        ensures { IsFreshInput bytes.items (Some (left_of result)) result.place result.faults }
    {
        InputBuffer {
            bytes,
            place: 0,
            faults: 0,
        }
    }

    /// Copies as many of the next bytes to the front of the slice as there are or as fit, unless
    /// the call is to fail.
    pub fn read(&mut self, fails: bool, into: &mut [u8]) -> Got
        requires { 0 < length into.old }
        ensures gives { ReadGives result into.new
            (Some (left_of self.old)) (Some (left_of self.new)) }
        ensures taken { self.new.place ≡ self.old.place + bytes_given result }
        ensures faults { CountsReadFailure result self.old.faults self.new.faults }
        ensures later { self.old.faults ≤ self.new.faults }
        ensures call { ReadsInput fails result self.old self.new }
    {
        if fails {
            self.faults = self.faults.saturating_add(1);
            return Got::Failed;
        }
        match self.hand_out(into) {
            0 => Got::End,
            count => Got::Bytes(count),
        }
    }

    /// Copies the next bytes to the front of the slice, and tells how many.
    fn hand_out(&mut self, into: &mut [u8]) -> usize
        ensures count { result ≡ min (length (left_of self.old)) (length into.old) }
        ensures left { left_of self.old ≡ take result into.new ++ left_of self.new }
        ensures place { self.new.place ≡ self.old.place + result }
        ensures kept { (self.new.bytes ≡ self.old.bytes) × (self.new.faults ≡ self.old.faults) }
    {
        let count = (self.bytes.len() - self.place).min(into.len());
        into[..count].copy_from_slice(&self.bytes[self.place..self.place + count]);
        self.place += count;
        count
    }
}

/// What was written.
#[derive(Debug, Drop)]
pub struct OutputBuffer {
    pub bytes: Vec<u8>,
    faults: u64,
}

impl OutputBuffer {
    ghost use Rattle.xs_outside.specs.Buffers.{IsFreshOutput, WritesOutput};

    pub fn new(alloc: Global) -> OutputBuffer
        ensures { IsFreshOutput (Some result.bytes.items) result.faults }
    {
        OutputBuffer {
            bytes: Vec::new(alloc),
            faults: 0,
        }
    }

    /// Appends bytes, unless the call is to fail. For want of memory it fails and appends none.
    pub fn write(&mut self, fails: bool, bytes: &[u8]) -> Result<(), Failed>
        ensures adds { WriteAdds result bytes.now
            (Some self.old.bytes.items) (Some self.new.bytes.items) }
        ensures faults { CountsFailure result self.old.faults self.new.faults }
        ensures later { self.old.faults ≤ self.new.faults }
        ensures call { WritesOutput fails result self.old self.new }
    {
        if fails || self.bytes.extend_from_slice(bytes).is_err() {
            self.faults = self.faults.saturating_add(1);
            return Err(Failed);
        }
        Ok(())
    }
}

/// So many bytes that were written at this moment.
#[derive(Clone, Copy, Debug)]
pub struct Span {
    pub moment: u64,
    pub count: usize,
}

/// What was written, with the moment of each write.
#[derive(Debug, Drop)]
pub struct StampedOutput {
    pub buffer: OutputBuffer,
    spans: Vec<Span>,
    ghost each: { length buffer.bytes.items ≡ length (moments_of spans.items) },
}

impl StampedOutput {
    ghost use Rattle.xs_outside.specs.Buffers.{IsFreshOutput, WritesOutput};

    pub fn new(alloc: Global) -> StampedOutput
        ensures buffer { IsFreshOutput (Some result.buffer.bytes.items) result.buffer.faults }
        ensures moments { moments_of result.spans.items ≡ [] }
    {
        StampedOutput {
            buffer: OutputBuffer::new(alloc),
            spans: Vec::new(alloc),
        }
    }

    /// Appends bytes with their moment, unless the call is to fail. For want of memory it fails and
    /// appends none.
    #[tactic(auto, using(crate::proofs::MomentLemmas::moments_push, crate::proofs::MomentLemmas::moments_more))]
    pub fn write(&mut self, fails: bool, moment: u64, bytes: &[u8]) -> Result<(), Failed>
        ensures adds { WriteAdds result bytes.now
            (Some self.old.buffer.bytes.items) (Some self.new.buffer.bytes.items) }
        ensures faults { CountsFailure result self.old.buffer.faults self.new.buffer.faults }
        ensures later { self.old.buffer.faults ≤ self.new.buffer.faults }
        ensures call { WritesOutput fails result self.old.buffer self.new.buffer }
        ensures stamped { OnOk result (moments_of self.new.spans.items
            ≡ moments_of self.old.spans.items ++ replicate (length bytes.now) moment) }
        ensures refused { OnErr result (moments_of self.new.spans.items
            ≡ moments_of self.old.spans.items) }
    {
        let count = bytes.len();
        if fails || self.spans.push(Span { moment, count }).is_err() {
            return self.buffer.write(true, bytes);
        }
        if let Err(failed) = self.buffer.write(false, bytes) {
            let _ = self.spans.pop();
            return Err(failed);
        }
        Ok(())
    }
}
