//! Lines, entries and values, against the grammar's own examples.

use office_types::*;
use std::alloc::Global;

mod copies;
mod limits;
mod state_values;

// Lines that are canonical already. One calls a machine `-`, and one has an event of a reserved type.
const CANONICAL: &str = "\
ann 1 start toggle - null
turn 3 send 5 {\"type\":\"FLIP\"}
a 1 reject 18446744073709551615 [1,-2,true]
a 1 at 9007199254740991
a 18446744073709551615 at 0
ann 2 start - desk {\"x\":[]}
ann 2 send 1 {\"type\":\"xstate.x\"}";

// Lines, and how they are written: white space round the JSON and members out of order; escapes, and
// a zero with a sign.
const SPELLED_OTHERWISE: &str = "\
b-2- 7 send 0  \t{ \"type\" : \"X\" , \"a\" : 1 } \r => b-2- 7 send 0 {\"a\":1,\"type\":\"X\"}
a 1 resolve 2 {\"b\":\"\\u0041\\/\\n\",\"a\":-0} => a 1 resolve 2 {\"a\":0,\"b\":\"A/\\n\"}";

// Too few parts, none of them too, too many, and other blanks than one space.
const PARTED_OTHERWISE: &str = "\
ann 1 start toggle

ann 1 start toggle - null null
 ann 1 start toggle - null
ann  1 start toggle - null
ann 1 start toggle  - null
ann 1 at 5\x20
ann 1 at 5\r";

// Callers, numbers and moments that are none.
const NUMBERED_OTHERWISE: &str = "\
Ann 1 at 5
1ann 1 at 5
ann 0 at 5
ann 01 at 5
ann +1 at 5
ann 18446744073709551616 at 5
ann 1 at 05
ann 1 at 9007199254740992
ann 1 send 01 {\"type\":\"X\"}";

// Words and names, JSON, and events that are none.
const NAMED_OTHERWISE: &str = "\
ann 1 stop toggle - null
ann 1 start tog\0gle - null
ann 1 start  - null
ann 1 resolve 2\x20
ann 1 resolve 2 {\"a\":1,\"a\":1}
ann 1 resolve 2 1.5
ann 1 resolve 2 9223372036854775808
ann 1 resolve 2 \"\\ud800\"
ann 1 send 1 \"X\"
ann 1 send 1 {\"type\":1}
ann 1 send 1 {\"Type\":\"X\"}";

// Payloads of entries.
const ENTRIES: &str = "\
R ann 1 start toggle - null
R a 1 send 1 {\"a\":1,\"type\":\"X\"}
S 18446744073709551615";

// No canonical line, another letter, a number with a leading zero, none, and no letter.
const OTHER_PAYLOADS: &str = "\
R a 1 send 1 {\"type\":\"X\",\"a\":1}
R a 1 send 1 {\"type\": \"X\"}
R  a 1 at 5
r a 1 at 5
S 01
S\x20
";

fn is_line_of(alloc: Global, request: &Request, wanted: &str) -> bool {
    match write_request(alloc, request) {
        Ok(line) => line.as_slice() == wanted.as_bytes(),
        Err(_) => false,
    }
}

fn is_written_as(alloc: Global, line: &str, wanted: &str) -> bool {
    let found = read_request(alloc, line.as_bytes());
    match &found {
        Ok(request) => is_line_of(alloc, request, wanted),
        Err(_) => false,
    }
}

fn is_refused(alloc: Global, line: &[u8]) -> bool {
    let found = read_request(alloc, line);
    match &found {
        Ok(_) => false,
        Err(fault) => *fault == LineFault::NotALine,
    }
}

fn is_printed_as(alloc: Global, fault: LineFault, wanted: &str) -> bool {
    match format!(in alloc; "{fault}") {
        Ok(text) => text.as_str() == wanted,
        Err(_) => false,
    }
}

fn is_payload_of(alloc: Global, entry: &Entry, wanted: &str) -> bool {
    match write_entry(alloc, entry) {
        Ok(payload) => payload.as_slice() == wanted.as_bytes(),
        Err(_) => false,
    }
}

fn is_kept(alloc: Global, payload: &str) -> bool {
    let found = read_entry(alloc, payload.as_bytes());
    match &found {
        Ok(entry) => is_payload_of(alloc, entry, payload),
        Err(_) => false,
    }
}

fn is_entry(alloc: Global, payload: &str) -> bool {
    read_entry(alloc, payload.as_bytes()).is_ok()
}

#[test]
fn keeps_canonical_lines(rt: HostRuntime) {
    for line in CANONICAL.split('\n') {
        assert!(rt; is_written_as(rt.alloc(), line, line), "at {line}");
    }
}

#[test]
fn writes_canonical_lines(rt: HostRuntime) {
    for row in SPELLED_OTHERWISE.split('\n') {
        let (line, wanted) = row.split_once(" => ").unwrap_or((row, ""));
        assert!(rt; is_written_as(rt.alloc(), line, wanted), "at {row}");
    }
}

#[test]
fn refuses_lines_of_other_parts(rt: HostRuntime) {
    for line in PARTED_OTHERWISE.split('\n') {
        assert!(rt; is_refused(rt.alloc(), line.as_bytes()), "at {line}");
    }
}

#[test]
fn refuses_lines_of_other_numbers(rt: HostRuntime) {
    for line in NUMBERED_OTHERWISE.split('\n') {
        assert!(rt; is_refused(rt.alloc(), line.as_bytes()), "at {line}");
    }
}

#[test]
fn refuses_lines_of_other_names(rt: HostRuntime) {
    for line in NAMED_OTHERWISE.split('\n') {
        assert!(rt; is_refused(rt.alloc(), line.as_bytes()), "at {line}");
    }
}

#[test]
fn refuses_a_name_that_is_no_text(rt: HostRuntime) {
    assert!(rt; is_refused(rt.alloc(), b"ann 1 start tog\xffgle - null"));
}

#[test]
fn refuses_a_value_that_is_no_text(rt: HostRuntime) {
    assert!(rt; is_refused(rt.alloc(), b"ann 1 resolve 2 \"\xff\""));
}

#[test]
fn says_why_it_refuses_a_line(rt: HostRuntime) {
    let wanted = "the line is no request";
    assert!(rt; is_printed_as(rt.alloc(), LineFault::NotALine, wanted));
}

#[test]
fn reads_entries_and_writes_them(rt: HostRuntime) {
    for payload in ENTRIES.split('\n') {
        assert!(rt; is_kept(rt.alloc(), payload), "at {payload}");
    }
}

#[test]
fn refuses_other_payloads(rt: HostRuntime) {
    for payload in OTHER_PAYLOADS.split('\n') {
        assert!(rt; !is_entry(rt.alloc(), payload), "at {payload}");
    }
}
