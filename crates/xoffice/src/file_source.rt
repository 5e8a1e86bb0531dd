//! A file as a source.

use crate::file_system::{Access, FileSystem};
use crate::lazy_file::LazyFile;
use crate::tally::Tally;
use xs_outside::{Got, Source};

/// The bytes of the file at a path.
#[derive(Drop)]
pub struct FileSource<'a, S: FileSystem> {
    file: LazyFile<'a, S>,
    tally: Tally,
}

impl<'a, S: FileSystem> FileSource<'a, S> {
    ghost use Rattle.std.specs.Prelude.{◌≡◌, None};

    /// Opens nothing yet.
    pub fn new(file_system: &'a S, path: &'a str) -> FileSource<'a, S>
        ensures file { result.file.file ≡ None }
        ensures path { result.file.path.now ≡ path.now }
        ensures taken { result.tally.taken ≡ 0 }
        ensures faults { result.tally.faults.count ≡ 0 }
    {
        FileSource {
            file: LazyFile::new(file_system, path),
            tally: Tally::new(),
        }
    }
}

impl<S: FileSystem> Source for FileSource<'_, S> {
    ghost use Rattle.std.specs.Prelude.{◌≡◌, ◌+◌, ◌<◌, ◌≤◌, length, None, MatchOption};
    ghost use Rattle.xs_outside.specs.Streams.{bytes_given, CountsReadFailure, ReadGives};
    ghost use Rattle.xoffice.specs.Answers.{ReadsFrom};
    ghost use Rattle.xoffice.specs.Files.{IfFound};
    ghost use Rattle.xoffice.specs.declared.file_system.Access.TheVariants.{Look};
    ghost use Rattle.xs_outside.specs.declared.streams.Got.TheVariants.{Failed};

    ghost left = { λ _. None };

    ghost taken = { λ s. s.tally.taken };

    ghost read_faults = { λ s. s.tally.faults.count };

    ghost reads = { λ _ _ _. Unit {0} };

    fn read(&mut self, into: &mut [u8]) -> Got
        requires { 0 < length into.old }
        ensures gives { ReadGives result into.new None None }

        // The answer is that of the file that was found; where there is none, the read failed.
        ensures file { MatchOption self.new.file.file (result ≡ Failed) (λ file.
            IfFound (S.calls.opens Look self.old.file.path.now)
            (λ found. ReadsFrom result into.new (S.File.remaining found) (S.File.remaining file))
            self.old.file.file) }
        ensures taken { self.new.tally.taken ≡ self.old.tally.taken + bytes_given result }
        ensures faults { CountsReadFailure result
            self.old.tally.faults.count self.new.tally.faults.count }
        ensures later { self.old.tally.faults.count ≤ self.new.tally.faults.count }
    {
        let mut file = match self.file.take(Access::Look) {
            Ok(file) => file,
            Err(error) => return self.tally.note(Err(error)),
        };
        let got = self.tally.read(&mut file, into);
        self.file.keep(file);
        got
    }
}

#[cfg(test)]
mod tests {
    use super::*;
    use std::fs;
    use std::test::Fail;

    #[test]
    fn a_file_is_opened_at_the_first_read_of_it(rt: HostRuntime) -> Result<(), Fail> {
        let mut into = [0u8; 4];
        let mut source = FileSource::new(&rt, "office.json");
        assert_eq!(rt; source.read(&mut into), Got::Failed);
        assert_eq!(rt; source.read(&mut into), Got::Failed);
        assert_eq!(rt; source.tally.faults.count, 2);
        fs::write(&rt, "office.json", "office")?;
        assert_eq!(rt; source.read(&mut into), Got::Bytes(4));
        assert_eq!(rt; into, *b"offi");
        assert_eq!(rt; source.read(&mut into), Got::Bytes(2));
        assert_eq!(rt; into, *b"cefi");
        assert_eq!(rt; source.read(&mut into), Got::End);
        // A folder opens and can't be read.
        fs::create_dir(&rt, "folder")?;
        let mut folder = FileSource::new(&rt, "folder");
        assert_eq!(rt; folder.read(&mut into), Got::Failed);
        fs::remove_dir(&rt, "folder")?;
        fs::remove_file(&rt, "office.json")?;
        Ok(())
    }
}
