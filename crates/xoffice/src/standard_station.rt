//! The standard streams and the two files of a journal as a station.

use crate::faults::Faults;
use crate::file_disk::FileDisk;
use crate::file_system::FileSystem;
use crate::side_file::SideFile;
use crate::tally::Tally;
use crate::writer::write_whole;
use std::io::{Read, Write};
use xs_outside::{Both, Disk, Failed, Got, Side, Sink, Source, Station};

/// A reader, a writer and two files: standard input, standard output and the sides of the journal, where the
/// program makes it.
#[derive(Drop)]
pub struct StandardStation<'a, R, W, S: FileSystem> {
    input: R,
    output: W,
    disk: FileDisk<'a, S>,
    clock: u64,
    tally: Tally,
    write_faults: Faults,
}

impl<'a, R: Read, W: Write, S: FileSystem> StandardStation<'a, R, W, S> {
    ghost use Rattle.std.specs.Prelude.{◌≡◌};

    /// The writer is to keep no buffer: what a `write` of the station answers to is out.
    pub fn new(
        input: R,
        output: W,
        a: SideFile<'a, S>,
        b: SideFile<'a, S>,
    ) -> StandardStation<'a, R, W, S>
        ensures a { result.disk.a ≡ a.entry }
        ensures b { result.disk.b ≡ b.entry }
        ensures clock { result.clock ≡ 0 }
        ensures taken { result.tally.taken ≡ 0 }
        ensures read_faults { result.tally.faults.count ≡ 0 }
        ensures write_faults { result.write_faults.count ≡ 0 }
        ensures disk_faults { result.disk.faults.count ≡ 0 }
        ensures fetched { result.disk.fetched ≡ 0 }
    {
        StandardStation {
            input,
            output,
            disk: FileDisk::new(a, b),
            clock: 0,
            tally: Tally::new(),
            write_faults: Faults::none(),
        }
    }
}

impl<R: Read, W: Write, S: FileSystem> Source for StandardStation<'_, R, W, S> {
    ghost use Rattle.std.specs.Prelude.{◌≡◌, ◌+◌, ◌<◌, ◌≤◌, length, None};
    ghost use Rattle.xs_outside.specs.Streams.{bytes_given, CountsReadFailure, ReadGives};
    ghost use Rattle.xoffice.specs.Answers.{ReadsFrom};
    ghost use Rattle.xoffice.specs.Stations.{LeavesOutputAndDisk};

    ghost left = { λ _. None };

    ghost taken = { λ s. s.tally.taken };

    ghost read_faults = { λ s. s.tally.faults.count };

    ghost reads = { λ _ old new. LeavesOutputAndDisk old new };

    fn read(&mut self, into: &mut [u8]) -> Got
        requires { 0 < length into.old }
        ensures gives { ReadGives result into.new None None }
        ensures input { ReadsFrom result into.new
            (R.remaining self.old.input) (R.remaining self.new.input) }
        ensures taken { self.new.tally.taken ≡ self.old.tally.taken + bytes_given result }
        ensures faults { CountsReadFailure result
            self.old.tally.faults.count self.new.tally.faults.count }
        ensures later { self.old.tally.faults.count ≤ self.new.tally.faults.count }
        ensures relation { LeavesOutputAndDisk self.old self.new }
    {
        self.clock = self.clock.saturating_add(1);
        self.tally.read(&mut self.input, into)
    }
}

impl<R: Read, W: Write, S: FileSystem> Sink for StandardStation<'_, R, W, S> {
    ghost use Rattle.std.specs.Prelude.{◌≤◌, None};
    ghost use Rattle.xs_outside.specs.Counts.{CountsFailure};
    ghost use Rattle.xs_outside.specs.Streams.{WriteAdds};
    ghost use Rattle.xoffice.specs.Answers.{WritesTo};
    ghost use Rattle.xoffice.specs.Stations.{LeavesInputAndDisk};

    ghost written = { λ _. None };

    ghost write_faults = { λ s. s.write_faults.count };

    ghost writes = { λ _ old new. LeavesInputAndDisk old new };

    fn write(&mut self, bytes: &[u8]) -> Result<(), Failed>
        ensures adds { WriteAdds result bytes.now None None }
        ensures output { WritesTo result bytes.now
            (W.contents self.old.output) (W.contents self.new.output) }
        ensures faults { CountsFailure result
            self.old.write_faults.count self.new.write_faults.count }
        ensures later { self.old.write_faults.count ≤ self.new.write_faults.count }
        ensures relation { LeavesInputAndDisk self.old self.new }
    {
        self.clock = self.clock.saturating_add(1);
        let outcome = write_whole(&mut self.output, bytes);
        self.write_faults.note(outcome)
    }
}

impl<R: Read, W: Write, S: FileSystem> Both for StandardStation<'_, R, W, S> {
    ghost use Rattle.std.specs.Prelude.{refl};

    ghost read_leaves = { λ got old new kept. (refl, kept.write_faults) };

    ghost write_leaves = { λ result old new kept. (refl, kept.taken, kept.read_faults) };
}

impl<R: Read, W: Write, S: FileSystem> Disk for StandardStation<'_, R, W, S> {
    ghost use Rattle.std.specs.Prelude.{MatchBool};
    ghost use Rattle.xoffice.specs.Sides.{LooksAtSide, StoresOnSide};
    ghost use Rattle.xoffice.specs.Untold.{counts, untold};

    ghost state = { λ s. untold s.clock s.disk.faults.count s.disk.fetched
        (counts s.tally.taken s.tally.faults.count s.write_faults.count) };

    ghost looks = { λ ok old new.
        MatchBool ok (LooksAtSide S.calls old.disk new.disk) S.calls.failed };

    ghost stores = { λ ok old new.
        MatchBool ok (StoresOnSide S.calls old.disk new.disk) S.calls.failed };

    ghost reads_an_image = { λ s honest. tt };

    fn length(&mut self, side: Side) -> Result<u64, Failed> {
        self.clock = self.clock.saturating_add(1);
        self.disk.length(side)
    }

    fn read(&mut self, side: Side, at: u64, into: &mut [u8]) -> Result<(), Failed> {
        self.clock = self.clock.saturating_add(1);
        self.disk.read(side, at, into)
    }

    fn write(&mut self, side: Side, at: u64, bytes: &[u8]) -> Result<(), Failed> {
        self.clock = self.clock.saturating_add(1);
        self.disk.write(side, at, bytes)
    }

    fn sync(&mut self, side: Side) -> Result<(), Failed> {
        self.clock = self.clock.saturating_add(1);
        self.disk.sync(side)
    }
}

impl<R: Read, W: Write, S: FileSystem> Station for StandardStation<'_, R, W, S> {
    ghost use Rattle.std.specs.Prelude.{refl};
    ghost use Rattle.xoffice.specs.Untold.{keeps_disk, none_stamped, tells_output};

    ghost tells_input = { λ s. record { input = refl; handed_out = refl; read_faults = refl } };

    ghost tells_output = { λ s. tells_output s.clock s.disk.faults.count s.disk.fetched
        s.tally.taken s.tally.faults.count s.write_faults.count };

    ghost read_leaves_disk = { λ got old new kept. record {
      disk = keeps_disk _ _ _ _ _ _ _ _ kept.time kept.disk_faults kept.fetched;
      moments = refl;
    } };

    ghost write_leaves_disk = { λ result old new kept. record {
      disk = keeps_disk _ _ _ _ _ _ _ _ kept.time kept.disk_faults kept.fetched;
      moments = none_stamped _ _;
    } };
}

#[cfg(test)]
mod tests {
    use super::*;
    use std::fs;
    use std::test::Fail;

    #[test]
    fn a_station_over_what_is_not_there_fails(rt: HostRuntime) -> Result<(), Fail> {
        let mut into = [0u8; 8];
        // A file that is open for writing alone can't be read, and one that is open for reading alone can't be written.
        let input = fs::create(&rt, "written")?;
        let output = fs::open(&rt, "written")?;
        let a = SideFile::new(&rt, "missing/office.a");
        let b = SideFile::new(&rt, "missing/office.b");
        let mut station = StandardStation::new(input, output, a, b);
        assert_eq!(rt; Source::read(&mut station, &mut into), Got::Failed);
        assert_eq!(rt; Sink::write(&mut station, b"lost"), Err(Failed));
        // A side that isn't there is empty. It can't be made where its folder isn't there.
        assert_eq!(rt; station.length(Side::B), Ok(0));
        assert_eq!(rt; station.sync(Side::B), Ok(()));
        assert_eq!(rt;
            Disk::read(&mut station, Side::B, 0, &mut into),
            Err(Failed)
        );
        assert_eq!(rt; Disk::write(&mut station, Side::A, 0, b"lost"), Err(Failed));
        fs::remove_file(&rt, "written")?;
        Ok(())
    }

    #[test]
    fn a_station_reads_and_writes(rt: HostRuntime) -> Result<(), Fail> {
        fs::write(&rt, "input", "hello")?;
        let mut into = [0u8; 8];
        let input = fs::open(&rt, "input")?;
        let output = fs::create(&rt, "output")?;
        let a = SideFile::new(&rt, "office.a");
        let b = SideFile::new(&rt, "office.b");
        let mut station = StandardStation::new(input, output, a, b);
        assert_eq!(rt; Source::read(&mut station, &mut into), Got::Bytes(5));
        assert_eq!(rt; into, *b"hello\0\0\0");
        assert_eq!(rt; Source::read(&mut station, &mut into), Got::End);
        assert_eq!(rt; Sink::write(&mut station, b"one "), Ok(()));
        assert_eq!(rt; Sink::write(&mut station, b"two"), Ok(()));
        assert_eq!(rt; fs::read_to_string(&rt, "output")?.as_str(), "one two");

        assert_eq!(rt;
            Disk::write(&mut station, Side::A, 0, b"0123456789"),
            Ok(())
        );
        assert_eq!(rt; Disk::write(&mut station, Side::A, 8, b"abcd"), Ok(()));
        assert_eq!(rt; station.sync(Side::A), Ok(()));
        assert_eq!(rt; Disk::read(&mut station, Side::A, 4, &mut into), Ok(()));
        assert_eq!(rt; into, *b"4567abcd");
        assert_eq!(rt; station.length(Side::A), Ok(12));
        assert_eq!(rt; station.length(Side::B), Ok(0));
        assert_eq!(rt;
            fs::read_to_string(&rt, "office.a")?.as_str(),
            "01234567abcd"
        );
        // A range past the end.
        assert_eq!(rt;
            Disk::read(&mut station, Side::A, 5, &mut into),
            Err(Failed)
        );
        for name in ["input", "output", "office.a"] {
            fs::remove_file(&rt, name)?;
        }
        Ok(())
    }
}
