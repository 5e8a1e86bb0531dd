//! A file that is opened at the first call that needs it.

ghost use Rattle.std.specs.Prelude.{◌≡◌, Some, None, Err, IfOk, IfErr, OnErr};
ghost use Rattle.xoffice.specs.Files.{Finds};

use crate::file_system::{Access, FileSystem};
use std::io;

/// A file that is opened at the first call that needs it. Where it can't be opened, the next call tries again.
#[derive(Drop)]
pub struct LazyFile<'a, S: FileSystem> {
    pub file_system: &'a S,
    pub path: &'a str,
    pub file: Option<S::File>,
}

impl<'a, S: FileSystem> LazyFile<'a, S> {
    /// Opens nothing yet.
    pub fn new(file_system: &'a S, path: &'a str) -> LazyFile<'a, S>
        ensures file { result.file ≡ None }
        ensures path { result.path.now ≡ path.now }
    {
        LazyFile {
            file_system,
            path,
            file: None,
        }
    }

    /// Takes the open file out, which is opened now where it isn't. `keep` puts it back.
    pub fn take(&mut self, access: Access) -> io::Result<S::File>
        ensures found { IfOk result (Finds (S.calls.opens access self.old.path.now) self.old.file) }
        ensures refused { IfErr result (λ error.
            S.calls.opens access self.old.path.now (Err error)) }
        ensures failed { OnErr result S.calls.failed }
        ensures was_closed { OnErr result (self.old.file ≡ None) }
        ensures left { self.new.file ≡ None }
        ensures path { self.new.path.now ≡ self.old.path.now }
    {
        match self.file.take() {
            Some(file) => Ok(file),
            None => self.file_system.open(self.path, access),
        }
    }

    /// Puts the file back.
    pub fn keep(&mut self, file: S::File)
        ensures kept { self.new.file ≡ Some file }
        ensures path { self.new.path.now ≡ self.old.path.now }
    {
        self.file = Some(file);
    }
}
