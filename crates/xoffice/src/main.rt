//! The program: gives the words, the definitions file and the standard streams to the run.
#![tactic(auto)]

mod faults;
mod file_disk;
mod file_source;
mod file_system;
mod lazy_file;
mod side_file;
mod standard_station;
mod tally;
mod writer;

use crate::file_source::FileSource;
use crate::side_file::SideFile;
use crate::standard_station::StandardStation;
use office_run::{EXIT_MEMORY, run};
use std::env;
use std::io::{self, ErrorKind};
use std::process::ExitCode;
use std::rc::RcStr;
use std::rt::Env;

/// The words behind the program's name. Where one of them is no text, there are none: that is in no form either.
fn words<R: Env + AllocGlobal>(rt: &R) -> io::Result<Vec<RcStr>> {
    let mut words = Vec::new(rt.alloc());
    let given = match env::args(rt) {
        Err(error) if error.kind() == ErrorKind::InvalidData => return Ok(words),
        given => given?,
    };
    for word in given.skip(1) {
        words.push(RcStr::from_string(word)?)?;
    }
    Ok(words)
}

/// The word at a place, or the empty one.
fn word(words: &[RcStr], place: usize) -> &str {
    words.get(place).map_or("", |word| word.as_str())
}

/// The status of a run on the words, over the standard streams and these files of the journal.
fn status_over<'a>(rt: &'a HostRuntime, words: &'a [RcStr], a: &'a str, b: &'a str) -> u8 {
    let mut defs = FileSource::new(rt, word(words, 1));
    let a = SideFile::new(rt, a);
    let b = SideFile::new(rt, b);
    let station = StandardStation::new(rt.stdin(), rt.stdout(), a, b);
    run(rt.alloc(), words, &mut defs, station).status
}

/// The status of this process. It fails for want of memory.
fn status(rt: &HostRuntime) -> io::Result<u8> {
    let words = words(rt)?;
    // `check DEFS` or `run DEFS JOURNAL`. Each file is opened at the first call that needs it.
    let journal = word(&words, 2);
    let a = format!(in rt.alloc(); "{journal}.a")?;
    let b = format!(in rt.alloc(); "{journal}.b")?;
    Ok(status_over(rt, &words, a.as_str(), b.as_str()))
}

fn main(rt: HostRuntime) -> ExitCode {
    ExitCode::from(status(&rt).unwrap_or(EXIT_MEMORY))
}
