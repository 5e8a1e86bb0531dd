//! What a source outside this process has handed out, and how often it failed.

ghost use Rattle.std.specs.Prelude.{◌≡◌, ◌+◌, ◌≤◌, ◌<◌, ◌^◌, length, IfOk};
ghost use Rattle.xs_outside.specs.Streams.{bytes_given, CountsReadFailure};
ghost use Rattle.xoffice.specs.Answers.{got_of, ReadsFrom};

use crate::faults::Faults;
use std::io::{self, ErrorKind, Read};
use xs_outside::{Failed, Got};

/// Counts of bytes handed out and of faults. Both end at `u64::MAX`: a read that could go past it fails.
#[derive(Debug, Drop)]
pub struct Tally {
    pub taken: u64,
    pub faults: Faults,
}

impl Tally {
    /// Nothing is handed out yet.
    pub fn new() -> Tally
        ensures taken { result.taken ≡ 0 }
        ensures faults { result.faults.count ≡ 0 }
    {
        Tally {
            taken: 0,
            faults: Faults::none(),
        }
    }

    /// What a read of the system answered, counted. No bytes are the end.
    pub fn note(&mut self, outcome: io::Result<usize>) -> Got
        requires { IfOk outcome (λ count. self.old.taken + count < 2 ^ 64) }
        ensures answer { result ≡ got_of outcome }
        ensures taken { self.new.taken ≡ self.old.taken + bytes_given result }
        ensures faults { CountsReadFailure result self.old.faults.count self.new.faults.count }
        ensures later { self.old.faults.count ≤ self.new.faults.count }
    {
        match self.faults.note(outcome) {
            Err(Failed) => Got::Failed,
            Ok(0) => Got::End,
            Ok(count) => {
                self.taken += count as u64;
                Got::Bytes(count)
            }
        }
    }

    /// Reads once, and counts what came of it.
    pub fn read<R: Read>(&mut self, reader: &mut R, into: &mut [u8]) -> Got
        requires { 0 < length into.old }
        ensures answer { ReadsFrom result into.new
            (R.remaining reader.old) (R.remaining reader.new) }
        ensures taken { self.new.taken ≡ self.old.taken + bytes_given result }
        ensures faults { CountsReadFailure result self.old.faults.count self.new.faults.count }
        ensures later { self.old.faults.count ≤ self.new.faults.count }
    {
        if self.taken.checked_add(into.len() as u64).is_none() {
            return self.note(Err(ErrorKind::FileTooLarge.into()));
        }
        let outcome = reader.read(into);
        self.note(outcome)
    }
}
