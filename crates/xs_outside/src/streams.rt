//! Streams of bytes whose ends may fail: what a call takes from a source and appends to a sink.

ghost use Rattle.std.specs.Prelude.{◌≡◌, ◌+◌, ◌≤◌, ◌<◌, ℕ, List, Result, length};
ghost use Rattle.std.specs.declared.option.Option.{Option};
ghost use Rattle.xs_outside.specs.Counts.{CountsFailure};
ghost use Rattle.xs_outside.specs.Streams.{bytes_given, CountsReadFailure, ReadGives, WriteAdds};
ghost use Rattle.xs_outside.specs.declared.streams.Failed.{Failed as Refusal};
ghost use Rattle.xs_outside.specs.declared.streams.Got.{Got};

/// What a read of a source gives.
#[derive(Clone, Copy, Debug, PartialEq, Eq)]
pub enum Got {
    /// So many bytes, at the front of the slice.
    Bytes(usize),
    /// Nothing is left.
    End,
    /// The source failed, and took nothing.
    Failed,
}

/// A call of the outside failed.
#[derive(Clone, Copy, Debug, PartialEq, Eq)]
pub struct Failed;

/// Where input comes from.
pub trait Source {
    /// The bytes that are left, where the source tells them: it tells them always or never.
    ghost left: { Self → Option (List ℕ) };

    /// How many bytes it has handed out.
    ghost taken: { Self → ℕ };

    /// How often it has failed.
    ghost read_faults: { Self → ℕ };

    /// A read with this answer may lead from the first of these to the second.
    ghost reads: { Got → Self → Self → Type 0 };

    /// Fills the front of the slice with the next bytes. It may give fewer than there is room for.
    fn read(&mut self, into: &mut [u8]) -> Got
        requires { 0 < length into.old }
        ensures gives { ReadGives result into.new (left self.old) (left self.new) }
        ensures taken { taken self.new ≡ taken self.old + bytes_given result }
        ensures faults { CountsReadFailure result (read_faults self.old) (read_faults self.new) }
        ensures later { read_faults self.old ≤ read_faults self.new }
        ensures relation { reads result self.old self.new };
}

/// Where output goes.
pub trait Sink {
    /// The bytes that were written to it, where the sink tells them: it tells them always or never.
    ghost written: { Self → Option (List ℕ) };

    /// How often it has failed.
    ghost write_faults: { Self → ℕ };

    /// A write with this answer may lead from the first of these to the second.
    ghost writes: { Result Unit Refusal → Self → Self → Type 0 };

    /// Appends the bytes. At `Failed` a front part of them may stand there, which may be none or
    /// all.
    fn write(&mut self, bytes: &[u8]) -> Result<(), Failed>
        ensures adds { WriteAdds result bytes.now (written self.old) (written self.new) }
        ensures faults { CountsFailure result (write_faults self.old) (write_faults self.new) }
        ensures later { write_faults self.old ≤ write_faults self.new }
        ensures relation { writes result self.old self.new };
}

/// A source and a sink in one: neither end's calls touch the other end.
pub trait Both: Source + Sink {
    /// A read leaves what was written, and the sink's count.
    ghost read_leaves: { (got : Got) (old new : Self) → Self.reads got old new
        → (Self.written new ≡ Self.written old) × (Self.write_faults new ≡ Self.write_faults old) };

    /// A write leaves what is left, what was handed out, and the source's count.
    ghost write_leaves: { (result : Result Unit Refusal) (old new : Self)
        → Self.writes result old new
        → (Self.left new ≡ Self.left old) × (Self.taken new ≡ Self.taken old)
        × (Self.read_faults new ≡ Self.read_faults old) };
}
