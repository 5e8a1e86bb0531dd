//! Whole scripts with what they print, and how a run ends where a call of the outside fails.

use office_run::{
    EXIT_DONE, EXIT_INPUT_LONG, EXIT_MEMORY, EXIT_READ_FAULT, EXIT_REFUSED, EXIT_USAGE,
    EXIT_WRITE_FAULT, MAX_INPUT, TOO_LONG, UNHOSTED, run,
};
use std::alloc::Global;
use std::rc::RcStr;
use std::test::Fail;
use xs_outside::{Ended, MemorySource, MemoryStation};

const TOGGLE: &[u8] =
    b"{\"machines\":[{\"id\":\"toggle\",\"initial\":\"off\",\"states\":{\"off\":{\"on\":{\"FLIP\":\"on\"}},\"on\":{\"on\":{\"FLIP\":\"off\"}}}}],\"implementations\":{}}";

const SCRIPT: &[u8] =
    b"ann 1 start toggle - null\nturn\nvalue 1\nann 2 send 1 {\"type\":\"FLIP\"}\nturn\nturn\nvalue 1\nvalue 2\nflip\n";

const ANSWERS: &[u8] =
    b"ann 1 201 actor 1\nstep 1 1 active\nvalue 1 active \"off\" {}\nann 2 202 letter 2\nstep 1 2 active\nidle\nvalue 1 active \"on\" {}\n404 actor 2\n400 line\n";

const USAGE: &[u8] = b"usage: xoffice check, run, show, audit, load or serve\n";

const RUN: &[&str] = &["run", "office.json", "office"];

const CHECK: &[&str] = &["check", "office.json"];

// A run over the memory forms of the outside: its words, the bytes of its sources, and which calls of the definitions'
// source and of the station fail.
#[derive(Clone, Copy, Drop)]
struct Case<'a> {
    words: &'a [&'a str],
    definitions: &'a [u8],
    input: &'a [u8],
    source_fails: &'a [u64],
    fails: &'a [u64],
}

fn script(input: &[u8]) -> Case<'_> {
    Case {
        words: RUN,
        definitions: TOGGLE,
        input,
        source_fails: &[],
        fails: &[],
    }
}

fn failing(fails: &[u64]) -> Case<'_> {
    Case {
        words: RUN,
        definitions: TOGGLE,
        input: SCRIPT,
        source_fails: &[],
        fails,
    }
}

fn words_of(alloc: Global, case: &Case) -> Result<Vec<RcStr>, Fail> {
    let mut words = Vec::new(alloc);
    for word in case.words {
        words.push(RcStr::from_string(word.to_string(alloc)?)?)?;
    }
    Ok(words)
}

fn source_of(alloc: Global, case: &Case) -> Result<MemorySource, Fail> {
    let fails = case.source_fails.to_vec(alloc)?;
    Ok(MemorySource::new(case.definitions.to_vec(alloc)?, fails)?)
}

fn station_of(alloc: Global, case: &Case) -> Result<MemoryStation, Fail> {
    let input = case.input.to_vec(alloc)?;
    let fails = case.fails.to_vec(alloc)?;
    Ok(MemoryStation::new(input, Vec::new(alloc), Vec::new(alloc), fails)?)
}

fn ended(alloc: Global, case: &Case) -> Result<Ended<MemoryStation>, Fail> {
    let words = words_of(alloc, case)?;
    let mut definitions = source_of(alloc, case)?;
    let station = station_of(alloc, case)?;
    Ok(run(alloc, &words, &mut definitions, station))
}

// Whether the run ends with this status and this output.
fn gives(alloc: Global, case: &Case, status: u8, output: &[u8]) -> Result<bool, Fail> {
    let ended = ended(alloc, case)?;
    Ok(ended.status == status && ended.station.output() == output)
}

// Lines of the input, and what they print.
const SCRIPTS: [(&[u8], &[u8]); 5] = [
    (SCRIPT, ANSWERS),
    (b"", b""),
    (b"\n", b"400 line\n"),
    (b"turn", b"idle\n"),
    (
        b"turn\r\nvalue 01\nvalue 0\n",
        b"400 line\n400 line\n404 actor 0\n",
    ),
];

#[test]
fn scripts_get_their_answers(rt: HostRuntime) -> Result<(), Fail> {
    for (input, answers) in SCRIPTS.iter() {
        assert!(rt; gives(rt.alloc(), &script(input), 0, answers)?);
    }
    Ok(())
}

// Words that are no call of the program.
const OTHER_WORDS: [&[&str]; 9] = [
    &[],
    &["run"],
    &["run", "a"],
    &["run", "-a", "b"],
    &["run", "a", ""],
    &["check"],
    &["check", "-a"],
    &["check", "a", "b"],
    &["serve", "a", "b", "127.0.0.1:80", "1", "1"],
];

#[test]
fn words_are_refused(rt: HostRuntime) -> Result<(), Fail> {
    for words in OTHER_WORDS.iter() {
        let case = Case {
            words,
            ..script(SCRIPT)
        };
        assert!(rt; gives(rt.alloc(), &case, 2, USAGE)?);
    }
    Ok(())
}

// Definitions, what `check` says of them, and what `run` says of those that it doesn't host.
const DEFINITIONS: [(&[u8], &[u8], &[u8]); 10] = [
    (TOGGLE, b"definitions machines 1 nodes 3\n", b""),
    (
        b"{\"machines\":[],\"implementations\":{}}",
        b"definitions machines 0 nodes 0\n",
        b"",
    ),
    (
        b"{\"machines\":[{\"id\":\"x\"},{\"id\":\"y\",\"initial\":\"a\",\"states\":{\"a\":{}}}],\"implementations\":{}}",
        b"definitions machines 2 nodes 3\n",
        b"definitions\n",
    ),
    (
        b"{\"machines\":[{\"id\":\"x\",\"inital\":\"a\"}],\"implementations\":{}}",
        b"definitions machine 1 23\n",
        b"definitions machine 1 23\n",
    ),
    (
        b"{\"machines\":[{\"id\":\"x\",\"on\":{\"A\":{\"guard\":\"g\"}}}],\"implementations\":{}}",
        b"definitions table 2 42\n",
        b"definitions table 2 42\n",
    ),
    (
        b"{\"machines\":[{\"id\":\"a\"},{\"id\":\"a\"}],\"implementations\":{}}",
        b"definitions table 3 24\n",
        b"definitions table 3 24\n",
    ),
    (
        b"{}",
        b"definitions table 1 0\n",
        b"definitions table 1 0\n",
    ),
    (
        b"{\"machines\":[",
        b"definitions json 1 13\n",
        b"definitions json 1 13\n",
    ),
    (b"", b"definitions json 1 0\n", b"definitions json 1 0\n"),
    (
        &[b'['; 65],
        b"definitions json 5 64\n",
        b"definitions json 5 64\n",
    ),
];

fn check(definitions: &[u8]) -> Case<'_> {
    Case {
        words: CHECK,
        definitions,
        ..script(SCRIPT)
    }
}

#[test]
fn definitions_are_counted_or_refused(rt: HostRuntime) -> Result<(), Fail> {
    for (definitions, checked, _) in DEFINITIONS.iter() {
        let is_counted = checked.starts_with(b"definitions machines");
        let status = if is_counted { 0 } else { 3 };
        assert!(rt; gives(rt.alloc(), &check(definitions), status, checked)?);
    }
    Ok(())
}

#[test]
fn definitions_are_hosted_or_refused(rt: HostRuntime) -> Result<(), Fail> {
    for (definitions, _, refused) in DEFINITIONS.iter() {
        let case = Case {
            definitions,
            ..script(b"")
        };
        let status = if refused.is_empty() { 0 } else { 3 };
        assert!(rt; gives(rt.alloc(), &case, status, refused)?);
    }
    Ok(())
}

#[test]
fn definitions_that_are_too_long_are_refused(rt: HostRuntime) -> Result<(), Fail> {
    let spaces = vec![in rt.alloc(); b' '; 1_048_577]?;
    let case = Case {
        words: CHECK,
        definitions: spaces.as_slice(),
        ..script(b"")
    };
    assert!(rt; gives(rt.alloc(), &case, 3, b"definitions json 6 1048576\n")?);
    Ok(())
}

fn failing_source(source_fails: &[u64]) -> Case<'_> {
    Case {
        source_fails,
        ..script(SCRIPT)
    }
}

// The calls of the definitions' source: one read, and the read that finds the end.
#[test]
fn definitions_that_fail_end_the_run(rt: HostRuntime) -> Result<(), Fail> {
    for call in 1..=2 {
        assert!(rt; gives(rt.alloc(), &failing_source(&[call]), 5, b"")?);
    }
    Ok(())
}

#[test]
fn a_third_read_of_the_definitions_is_not_made(rt: HostRuntime) -> Result<(), Fail> {
    assert!(rt; gives(rt.alloc(), &failing_source(&[3]), 0, ANSWERS)?);
    Ok(())
}

// Whether a run whose call fails ends with this status, and has printed a beginning of the answers.
fn begins(alloc: Global, call: u64, status: u8) -> Result<bool, Fail> {
    let ended = ended(alloc, &failing(&[call]))?;
    Ok(ended.status == status && ANSWERS.starts_with(ended.station.output()))
}

// The calls of the station over the script: one read, nine writes, and the read that finds the end.
#[test]
fn a_failing_call_ends_the_run(rt: HostRuntime) -> Result<(), Fail> {
    for call in 1..=11 {
        let status = if call == 1 || call == 11 { 5 } else { 6 };
        assert!(rt; begins(rt.alloc(), call, status)?);
    }
    Ok(())
}

#[test]
fn all_is_printed_before_the_last_call(rt: HostRuntime) -> Result<(), Fail> {
    assert!(rt; gives(rt.alloc(), &failing(&[11]), 5, ANSWERS)?);
    Ok(())
}

// Two lines of a whole piece each.
fn two_pieces(alloc: Global) -> Result<Vec<u8>, Fail> {
    let mut input = vec![in alloc; b'x'; 131_072]?;
    input[65_535] = b'\n';
    input[131_071] = b'\n';
    Ok(input)
}

// The first line is answered before the second is read.
#[test]
fn a_line_is_answered_before_the_next_is_read(rt: HostRuntime) -> Result<(), Fail> {
    let input = two_pieces(rt.alloc())?;
    let case = Case {
        fails: &[3],
        ..script(input.as_slice())
    };
    assert!(rt; gives(rt.alloc(), &case, 5, b"400 line\n")?);
    Ok(())
}

fn are_the_statuses() -> bool {
    EXIT_DONE == 0
        && EXIT_USAGE == 2
        && EXIT_REFUSED == 3
        && EXIT_READ_FAULT == 5
        && EXIT_WRITE_FAULT == 6
        && EXIT_MEMORY == 8
        && EXIT_INPUT_LONG == 9
}

fn are_the_texts() -> bool {
    TOO_LONG == "input long\n" && UNHOSTED == "definitions\n"
}

// Definitions cite these constants, so no clause says what they are.
#[test]
fn constants_are_those_of_the_program(rt: HostRuntime) {
    assert!(rt; MAX_INPUT == 1_073_741_824 && are_the_texts() && are_the_statuses());
}
