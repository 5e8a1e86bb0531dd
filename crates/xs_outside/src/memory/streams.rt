//! A source, a sink and both in one, in memory. Each fails at the calls that its list names.

ghost use Rattle.std.specs.Prelude.{◌≡◌, Some, IfOk};

use super::buffers::{InputBuffer, OutputBuffer};
use super::schedule::Schedule;
use crate::{Both, Failed, Got, Sink, Source};
use std::alloc::AllocError;

/// A source in memory.
#[derive(Debug, Drop)]
pub struct MemorySource {
    input: InputBuffer,
    schedule: Schedule,
}

impl MemorySource {
    ghost use Rattle.xs_outside.specs.Buffers.{IsFreshInput};
    ghost use Rattle.xs_outside.specs.MemoryStreams.{SourceFailsAt};

    /// A source of these bytes, whose calls with these numbers fail, counted from 1.
    pub fn new(bytes: Vec<u8>, fails: Vec<u64>) -> Result<MemorySource, AllocError>
        ensures input { IfOk result (λ source. IsFreshInput bytes.items
            (⟦<MemorySource as Source>⟧.left source)
            (⟦<MemorySource as Source>⟧.taken source)
            (⟦<MemorySource as Source>⟧.read_faults source)) }
        ensures fails { IfOk result (λ source. SourceFailsAt fails.items source) }
    {
        Ok(MemorySource {
            input: InputBuffer::new(bytes),
            schedule: Schedule::new(fails),
        })
    }
}

impl Source for MemorySource {
    ghost use Rattle.std.specs.Prelude.{Some};
    ghost use Rattle.xs_outside.specs.Buffers.{left_of};
    ghost use Rattle.xs_outside.specs.MemoryStreams.{ReadsSource};

    ghost left = { λ source. Some (left_of source.input) };

    ghost taken = { λ source. source.input.place };

    ghost read_faults = { λ source. source.input.faults };

    ghost reads = { ReadsSource };

    fn read(&mut self, into: &mut [u8]) -> Got {
        let fails = self.schedule.next_fails();
        self.input.read(fails, into)
    }
}

/// A sink in memory.
#[derive(Debug, Drop)]
pub struct MemorySink {
    output: OutputBuffer,
    schedule: Schedule,
}

impl MemorySink {
    ghost use Rattle.xs_outside.specs.Buffers.{IsFreshOutput};
    ghost use Rattle.xs_outside.specs.MemoryStreams.{SinkFailsAt};

    /// An empty sink, whose calls with these numbers fail, counted from 1.
    pub fn new(fails: Vec<u64>) -> Result<MemorySink, AllocError>
        ensures output { IfOk result (λ sink. IsFreshOutput
            (⟦<MemorySink as Sink>⟧.written sink)
            (⟦<MemorySink as Sink>⟧.write_faults sink)) }
        ensures fails { IfOk result (λ sink. SinkFailsAt fails.items sink) }
    {
        Ok(MemorySink {
            output: OutputBuffer::new(*fails.allocator()),
            schedule: Schedule::new(fails),
        })
    }

    /// Lends what was written.
    pub fn output(&self) -> &[u8]
        ensures { ⟦<MemorySink as Sink>⟧.written self.now ≡ Some result.now }
    {
        &self.output.bytes
    }
}

impl Sink for MemorySink {
    ghost use Rattle.std.specs.Prelude.{Some};
    ghost use Rattle.xs_outside.specs.MemoryStreams.{WritesSink};

    ghost written = { λ sink. Some sink.output.bytes.items };

    ghost write_faults = { λ sink. sink.output.faults };

    ghost writes = { WritesSink };

    fn write(&mut self, bytes: &[u8]) -> Result<(), Failed> {
        let fails = self.schedule.next_fails();
        self.output.write(fails, bytes)
    }
}

/// A connection in memory: a source and a sink whose calls are counted together.
#[derive(Debug, Drop)]
pub struct MemoryLink {
    input: InputBuffer,
    output: OutputBuffer,
    schedule: Schedule,
}

impl MemoryLink {
    ghost use Rattle.xs_outside.specs.Buffers.{IsFreshInput, IsFreshOutput};
    ghost use Rattle.xs_outside.specs.MemoryStreams.{LinkFailsAt};

    /// A link with this input and no output, whose calls with these numbers fail, counted from 1.
    pub fn new(input: Vec<u8>, fails: Vec<u64>) -> Result<MemoryLink, AllocError>
        ensures input { IfOk result (λ link. IsFreshInput input.items
            (⟦<MemoryLink as Source>⟧.left link)
            (⟦<MemoryLink as Source>⟧.taken link)
            (⟦<MemoryLink as Source>⟧.read_faults link)) }
        ensures output { IfOk result (λ link. IsFreshOutput
            (⟦<MemoryLink as Sink>⟧.written link)
            (⟦<MemoryLink as Sink>⟧.write_faults link)) }
        ensures fails { IfOk result (λ link. LinkFailsAt fails.items link) }
    {
        Ok(MemoryLink {
            output: OutputBuffer::new(*fails.allocator()),
            input: InputBuffer::new(input),
            schedule: Schedule::new(fails),
        })
    }

    /// Lends what was written.
    pub fn output(&self) -> &[u8]
        ensures { ⟦<MemoryLink as Sink>⟧.written self.now ≡ Some result.now }
    {
        &self.output.bytes
    }
}

impl Source for MemoryLink {
    ghost use Rattle.std.specs.Prelude.{Some};
    ghost use Rattle.xs_outside.specs.Buffers.{left_of};
    ghost use Rattle.xs_outside.specs.MemoryStreams.{ReadsLink};

    ghost left = { λ link. Some (left_of link.input) };

    ghost taken = { λ link. link.input.place };

    ghost read_faults = { λ link. link.input.faults };

    ghost reads = { ReadsLink };

    fn read(&mut self, into: &mut [u8]) -> Got {
        let fails = self.schedule.next_fails();
        self.input.read(fails, into)
    }
}

impl Sink for MemoryLink {
    ghost use Rattle.std.specs.Prelude.{Some};
    ghost use Rattle.xs_outside.specs.MemoryStreams.{WritesLink};

    ghost written = { λ link. Some link.output.bytes.items };

    ghost write_faults = { λ link. link.output.faults };

    ghost writes = { WritesLink };

    fn write(&mut self, bytes: &[u8]) -> Result<(), Failed> {
        let fails = self.schedule.next_fails();
        self.output.write(fails, bytes)
    }
}

impl Both for MemoryLink {
    ghost use Rattle.std.proofs.Common.{ap};
    ghost use Rattle.std.specs.Prelude.{Some};
    ghost use Rattle.xs_outside.specs.Buffers.{left_of};

    ghost read_leaves = { λ got old new kept.
        (ap (λ o. Some o.bytes.items) kept.output, ap (λ o. o.faults) kept.output) };

    ghost write_leaves = { λ result old new kept. (
      ap (λ i. Some (left_of i)) kept.input,
      ap (λ i. i.place) kept.input,
      ap (λ i. i.faults) kept.input,
    ) };
}
