//! What an office is run on: its input, its output and its disk, with one clock.

ghost use Rattle.std.specs.Prelude.{Result};
ghost use Rattle.xs_outside.specs.Station.{TellsInput, TellsOutput, LeavesDisk, StampsOutput};
ghost use Rattle.xs_outside.specs.declared.streams.Failed.{Failed as Refusal};
ghost use Rattle.xs_outside.specs.declared.streams.Got.{Got};

use crate::{Both, Disk};

/// What an office is run on: its input and its output, and a disk on the same clock. A crash at a
/// moment leaves one image of that moment, and the output of that moment.
pub trait Station: Both + Disk {
    /// What the disk has beside it are the input and the output.
    ghost tells_input: { (station : Self) → TellsInput (Self.left station)
        (Self.taken station) (Self.read_faults station) (Self.state station) };

    ghost tells_output: { (station : Self) → TellsOutput (Self.written station)
        (Self.write_faults station) (Self.state station) };

    /// A read of the input leaves the disk, and the output with its moments.
    ghost read_leaves_disk: { (got : Got) (old new : Self) → Self.reads got old new
        → LeavesDisk (Self.state old) (Self.state new) };

    /// A write of output leaves the disk. The bytes get a moment of the call.
    ghost write_leaves_disk: { (result : Result Unit Refusal) (old new : Self)
        → Self.writes result old new
        → StampsOutput (Self.state old) (Self.state new) };
}
