//! The two files of a journal as the sides of a disk.

ghost use Rattle.std.specs.Prelude.{◌≡◌, ◌+◌, ◌-◌, ◌^◌, ◌≤◌, min, IfOk, OnErr, OnOk, length, MatchResult};
ghost use Rattle.xs_outside.specs.Counts.{CountsFailure};

use crate::faults::Faults;
use crate::file_system::FileSystem;
use crate::side_file::SideFile;
use xs_outside::{Failed, Side};

/// The two files of a journal, with a count of their faults and of the bytes that were read.
#[derive(Drop)]
pub struct FileDisk<'a, S: FileSystem> {
    pub a: SideFile<'a, S>,
    pub b: SideFile<'a, S>,
    pub faults: Faults,
    pub fetched: u64,
}

impl<'a, S: FileSystem> FileDisk<'a, S> {
    ghost use Rattle.xoffice.specs.Sides.{IsLength, IsSynced, GivesBytes, KeepsOther, TakesBytes, side_of};

    /// Opens nothing yet.
    pub fn new(a: SideFile<'a, S>, b: SideFile<'a, S>) -> FileDisk<'a, S>
        ensures a { result.a ≡ a.entry }
        ensures b { result.b ≡ b.entry }
        ensures faults { result.faults.count ≡ 0 }
        ensures fetched { result.fetched ≡ 0 }
    {
        FileDisk {
            a,
            b,
            faults: Faults::none(),
            fetched: 0,
        }
    }

    /// The number of bytes of a side.
    pub fn length(&mut self, side: Side) -> Result<u64, Failed>
        ensures told { IfOk result
            (IsLength S.calls (side_of side self.old) (side_of side self.new)) }
        ensures failed { OnErr result S.calls.failed }
        ensures other { KeepsOther side self.old self.new }
        ensures faults { CountsFailure result self.old.faults.count self.new.faults.count }
        ensures later { self.old.faults.count ≤ self.new.faults.count }
        ensures fetched { self.new.fetched ≡ self.old.fetched }
    {
        let outcome = match side {
            Side::A => self.a.length(),
            Side::B => self.b.length(),
        };
        self.faults.note(outcome)
    }

    /// Fills the slice with the bytes of a side from a place on.
    pub fn read(&mut self, side: Side, at: u64, into: &mut [u8]) -> Result<(), Failed>
        ensures gives { OnOk result (GivesBytes S.calls (record { at = at; bytes = into.new })
            (side_of side self.old) (side_of side self.new)) }
        ensures failed { OnErr result S.calls.failed }
        ensures other { KeepsOther side self.old self.new }
        ensures faults { CountsFailure result self.old.faults.count self.new.faults.count }
        ensures later { self.old.faults.count ≤ self.new.faults.count }
        ensures fetched { MatchResult result
            (λ _. self.new.fetched ≡ min (self.old.fetched + length into.old) (2 ^ 64 - 1))
            (λ _. self.new.fetched ≡ self.old.fetched) }
    {
        let outcome = match side {
            Side::A => self.a.read(at, into),
            Side::B => self.b.read(at, into),
        };
        self.faults.note(outcome)?;
        self.fetched = self.fetched.saturating_add(into.len() as u64);
        Ok(())
    }

    /// Writes over what stands on a side from a place on, and past its end.
    pub fn write(&mut self, side: Side, at: u64, bytes: &[u8]) -> Result<(), Failed>
        ensures takes { OnOk result (TakesBytes S.calls (record { at = at; bytes = bytes.now })
            (side_of side self.old) (side_of side self.new)) }
        ensures failed { OnErr result S.calls.failed }
        ensures other { KeepsOther side self.old self.new }
        ensures faults { CountsFailure result self.old.faults.count self.new.faults.count }
        ensures later { self.old.faults.count ≤ self.new.faults.count }
        ensures fetched { self.new.fetched ≡ self.old.fetched }
    {
        let outcome = match side {
            Side::A => self.a.write(at, bytes),
            Side::B => self.b.write(at, bytes),
        };
        self.faults.note(outcome)
    }

    /// Waits until what was written to a side stands on the disk.
    pub fn sync(&mut self, side: Side) -> Result<(), Failed>
        ensures synced { OnOk result
            (IsSynced S.calls (side_of side self.old) (side_of side self.new)) }
        ensures failed { OnErr result S.calls.failed }
        ensures other { KeepsOther side self.old self.new }
        ensures faults { CountsFailure result self.old.faults.count self.new.faults.count }
        ensures later { self.old.faults.count ≤ self.new.faults.count }
        ensures fetched { self.new.fetched ≡ self.old.fetched }
    {
        let outcome = match side {
            Side::A => self.a.sync(),
            Side::B => self.b.sync(),
        };
        self.faults.note(outcome)
    }
}
