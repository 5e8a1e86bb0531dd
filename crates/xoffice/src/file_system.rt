//! The calls of the system that files are made of.

ghost use Rattle.std.specs.Prelude.{OnErr, OnOk};
ghost use Rattle.std.specs.Io.KnownBytes.{Appends, Consumes};
ghost use Rattle.xoffice.specs.Calls.{Calls};
ghost use Rattle.xoffice.specs.Files.{GoesOnAt};

use crate::writer::write_whole;
use std::fs::{self, OpenFile, OpenOptions};
use std::io::{self, Read, Seek, SeekFrom, Write};
use std::path::Path;
use std::rt::Files;

/// How a file is opened.
#[derive(Clone, Copy, Debug, PartialEq, Eq)]
pub enum Access {
    /// For reading. It has to be there.
    Look,
    /// For reading and writing. It has to be there.
    Update,
    /// For reading and writing. It is made where it isn't there.
    Create,
}

/// The calls of the system that files are made of. What each answered is told by a relation that nothing else gives: so
/// code over any file system can't answer for a call that it didn't make, nor swallow an error.
pub trait FileSystem {
    type File: Read + Drop;

    /// What each call may have answered.
    ghost calls: { Calls Self.File };

    fn open(&self, path: &str, access: Access) -> io::Result<Self::File>
        ensures answer { calls.opens access path.now result }
        ensures failed { OnErr result calls.failed };

    /// The number of bytes.
    fn length(&self, file: &Self::File) -> io::Result<u64>
        ensures answer { calls.measures file.now result }
        ensures failed { OnErr result calls.failed };

    /// Fills the slice with the bytes from a place on.
    fn read_at(&self, file: &mut Self::File, at: u64, into: &mut [u8]) -> io::Result<()>
        ensures answer { calls.reads
            (record { at = at; bytes = into.new }) result file.old file.new }
        ensures failed { OnErr result calls.failed };

    /// Writes over what stands from a place on, and past the end.
    fn write_at(&self, file: &mut Self::File, at: u64, bytes: &[u8]) -> io::Result<()>
        ensures answer { calls.writes
            (record { at = at; bytes = bytes.now }) result file.old file.new }
        ensures failed { OnErr result calls.failed };

    /// Waits until what was written to the file stands on the disk.
    fn sync(&self, file: &Self::File) -> io::Result<()>
        ensures answer { calls.syncs file.now result }
        ensures failed { OnErr result calls.failed };

    /// Waits until the entry of the file at the path stands in its folder.
    fn sync_entry(&self, path: &str) -> io::Result<()>
        ensures answer { calls.syncs_entry path.now result }
        ensures failed { OnErr result calls.failed };
}

impl<F: Files> FileSystem for F {
    ghost use Rattle.xoffice.specs.Calls.{untold_calls};

    type File = F::File;

    ghost calls = { untold_calls };

    fn open(&self, path: &str, access: Access) -> io::Result<F::File> {
        OpenOptions::new()
            .read(true)
            .write(access != Access::Look)
            .create(access == Access::Create)
            .open(self, path)
    }

    fn length(&self, file: &F::File) -> io::Result<u64> {
        Ok(file.metadata()?.len())
    }

    fn read_at(&self, file: &mut F::File, at: u64, into: &mut [u8]) -> io::Result<()> {
        read_from(file, at, into)
    }

    fn write_at(&self, file: &mut F::File, at: u64, bytes: &[u8]) -> io::Result<()> {
        write_from(file, at, bytes)
    }

    fn sync(&self, file: &F::File) -> io::Result<()> {
        file.sync_data()
    }

    fn sync_entry(&self, path: &str) -> io::Result<()> {
        fs::open(self, folder_of(path))?.sync_all()
    }
}

/// Fills the slice with the bytes from a place on.
fn read_from<F: Read + Seek>(file: &mut F, at: u64, into: &mut [u8]) -> io::Result<()>
    ensures { OnOk result (GoesOnAt F.stream_position at
        (λ from to. Consumes (F.remaining from) (F.remaining to) into.new) file.old file.new) }
{
    file.seek(SeekFrom::Start(at))?;
    file.read_exact(into)
}

/// Writes the bytes from a place on.
fn write_from<F: Write + Seek>(file: &mut F, at: u64, bytes: &[u8]) -> io::Result<()>
    ensures { OnOk result (GoesOnAt F.stream_position at
        (λ from to. Appends (F.contents from) (F.contents to) bytes.now) file.old file.new) }
{
    file.seek(SeekFrom::Start(at))?;
    write_whole(file, bytes)
}

/// The folder in which the file at a path stands.
fn folder_of(path: &str) -> &str {
    match Path::new(path).parent() {
        Some(folder) if !folder.as_str().is_empty() => folder.as_str(),
        _ => ".",
    }
}
