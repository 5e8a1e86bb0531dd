//! A side of the journal as a file.

ghost use Rattle.std.specs.Prelude.{◌≡◌, ◌⊎◌, None, Ok, true, false, IfOk, OnErr, IfSome, IfNone, OnOk};
ghost use Rattle.xoffice.specs.Files.{Finds, IsMissing};
ghost use Rattle.xoffice.specs.declared.file_system.Access.TheVariants.{Update};

use crate::file_system::{Access, FileSystem};
use crate::lazy_file::LazyFile;
use std::io::{self, ErrorKind};

/// A side in a file, which is opened at the first call that needs it. A file that isn't there reads as an
/// empty side, and the first write makes it.
#[derive(Drop)]
pub struct SideFile<'a, S: FileSystem> {
    pub file: LazyFile<'a, S>,
    pub is_entry_synced: bool,
}

impl<'a, S: FileSystem> SideFile<'a, S> {
    ghost use Rattle.xoffice.specs.Sides.{HasEntrySynced, IsLength, IsSynced, GivesBytes, TakesBytes};

    /// Opens nothing yet.
    pub fn new(file_system: &'a S, path: &'a str) -> SideFile<'a, S>
        ensures file { result.file.file ≡ None }
        ensures path { result.file.path.now ≡ path.now }
        ensures entry { result.is_entry_synced ≡ false }
    {
        SideFile {
            file: LazyFile::new(file_system, path),
            is_entry_synced: false,
        }
    }

    /// The number of bytes.
    pub fn length(&mut self) -> io::Result<u64>
        ensures told { IfOk result (IsLength S.calls self.old self.new) }
        ensures failed { OnErr result S.calls.failed }
        ensures path { self.new.file.path.now ≡ self.old.file.path.now }
        ensures entry { self.new.is_entry_synced ≡ self.old.is_entry_synced }
    {
        let Some(file) = self.take()? else {
            return Ok(0);
        };
        let found = self.file.file_system.length(&file);
        self.file.keep(file);
        found
    }

    /// Fills the slice with the bytes from a place on.
    pub fn read(&mut self, at: u64, into: &mut [u8]) -> io::Result<()>
        ensures gives { OnOk result
            (GivesBytes S.calls (record { at = at; bytes = into.new }) self.old self.new) }
        ensures failed { OnErr result S.calls.failed }
        ensures path { self.new.file.path.now ≡ self.old.file.path.now }
        ensures entry { self.new.is_entry_synced ≡ self.old.is_entry_synced }
    {
        let mut file = match self.file.take(Access::Update) {
            Ok(file) => file,
            Err(error) if error.kind() == ErrorKind::NotFound && into.is_empty() => return Ok(()),
            Err(error) => return Err(error),
        };
        let outcome = self.file.file_system.read_at(&mut file, at, into);
        self.file.keep(file);
        outcome
    }

    /// Writes over what stands from a place on, and past the end.
    pub fn write(&mut self, at: u64, bytes: &[u8]) -> io::Result<()>
        ensures takes { OnOk result
            (TakesBytes S.calls (record { at = at; bytes = bytes.now }) self.old self.new) }
        ensures failed { OnErr result S.calls.failed }
        ensures path { self.new.file.path.now ≡ self.old.file.path.now }
        ensures entry { self.new.is_entry_synced ≡ self.old.is_entry_synced }
    {
        let mut file = match self.take()? {
            Some(file) => file,
            None => self.file.take(Access::Create)?,
        };
        let outcome = self.file.file_system.write_at(&mut file, at, bytes);
        self.file.keep(file);
        outcome
    }

    /// Waits until what was written stands on the disk. The first time it also waits for the entry of the file
    /// in its folder, without which a crash could leave no file.
    pub fn sync(&mut self) -> io::Result<()>
        ensures synced { OnOk result (IsSynced S.calls self.old self.new) }
        ensures failed { OnErr result S.calls.failed }
        ensures path { self.new.file.path.now ≡ self.old.file.path.now }
        ensures entry { self.new.is_entry_synced ≡ true → HasEntrySynced S.calls self.old }
    {
        let Some(file) = self.take()? else {
            return Ok(());
        };
        let outcome = self.file.file_system.sync(&file);
        self.file.keep(file);
        outcome?;
        if !self.is_entry_synced {
            self.file.file_system.sync_entry(self.file.path)?;
            self.is_entry_synced = true;
        }
        Ok(())
    }

    /// Takes out the open file, or the file that is opened now; none where there is no such file.
    fn take(&mut self) -> io::Result<Option<S::File>>
        ensures found { IfOk result (λ found. IfSome found
            (Finds (S.calls.opens Update self.old.file.path.now) self.old.file.file)) }
        ensures missing { IfOk result (λ found. IfNone found
            (IsMissing S.calls self.old.file.path.now)) }
        ensures was_closed { IfOk result (λ found. IfNone found (self.old.file.file ≡ None)) }
        ensures failed { OnErr result S.calls.failed }
        ensures left { self.new.file.file ≡ None }
        ensures path { self.new.file.path.now ≡ self.old.file.path.now }
        ensures entry { self.new.is_entry_synced ≡ self.old.is_entry_synced }
    {
        match self.file.take(Access::Update) {
            Ok(file) => Ok(Some(file)),
            Err(error) if error.kind() == ErrorKind::NotFound => Ok(None),
            Err(error) => Err(error),
        }
    }
}
