//! Lines that are those of requests, and lines that aren't.
use flat_core::*;
use std::alloc::{AllocError, Global};
use std::process::Abort;
use std::test::Fail;

const REFUSED: &str = "the line is no request";

// What a line asks for, in one text, or why it is refused.
fn shown(alloc: Global, line: &[u8]) -> Result<String, AllocError> {
    match read_request(alloc, line) {
        Ok(request) => {
            let caller = request.caller.as_str();
            let number = request.number;
            match &request.ask {
                Ask::Start { machine } => {
                    let machine = machine.as_str();
                    format!(in alloc; "{caller} {number} start {machine}")
                }
                Ask::Send { actor, event } => {
                    let actor = *actor;
                    let event = event.as_str();
                    format!(in alloc; "{caller} {number} send {actor} {event}")
                }
            }
        }
        Err(fault) => format!(in alloc; "{fault}"),
    }
}

fn is_shown(alloc: Global, line: &[u8], want: &str) -> Result<bool, AllocError> {
    Ok(shown(alloc, line)?.as_str() == want)
}

// Each line of the rows is refused.
fn expect_refused(rt: &impl Abort, alloc: Global, rows: &str) -> Result<(), Fail> {
    for line in rows.lines() {
        assert!(rt; is_shown(alloc, line.as_bytes(), REFUSED)?, "at {line}");
    }
    Ok(())
}

// Lines, each with the request that it is.
const REQUESTS: &str = "\
ann 1 start toggle - null=>ann 1 start toggle
ann 2 start - - null=>ann 2 start -
ann 2 start schr\u{e4}nk - null=>ann 2 start schr\u{e4}nk
turn 3 send 5 {\"type\":\"FLIP\"}=>turn 3 send 5 FLIP
b-2- 7 send 0  \t{ \"type\" : \"X\" } \r=>b-2- 7 send 0 X
a 1 send 1 {\"type\":\"\"}=>a 1 send 1\x20
a 1 send 1 {\"type\":\"a b\"}=>a 1 send 1 a b
a 1 send 1 {\"type\":\"xstate\"}=>a 1 send 1 xstate
a 18446744073709551615 send 18446744073709551615 {\"type\":\"X\"}=>a 18446744073709551615 send 18446744073709551615 X";

// Too few parts, and too many.
const PARTS: &str = "\
\x20
ann
ann 1
ann 1\x20
ann 1 start
ann 1 start toggle
ann 1 start toggle -
ann 1 start toggle - null null";

// Other blanks than one space between two parts.
const BLANKS: &str = "\
\x20ann 1 start toggle - null
ann  1 start toggle - null
ann 1  start toggle - null
ann 1 start  toggle - null
ann 1 start toggle  - null
ann 1 start toggle -  null
ann 1 start toggle - null\x20
ann\t1 start toggle - null
ann 1\tstart toggle - null
ann 1 start\ttoggle - null";

// A byte 0.
const ZEROS: &str = "\
ann 1 start toggle - null\0
ann\0 1 start toggle - null
ann 1 start tog\0gle - null";

// Callers.
const CALLERS: &str = "\
Ann 1 start toggle - null
1ann 1 start toggle - null
-ann 1 start toggle - null
an_n 1 start toggle - null
aNn 1 start toggle - null";

// Numbers.
const NUMBERS: &str = "\
ann 0 start toggle - null
ann 01 start toggle - null
ann +1 start toggle - null
ann -1 start toggle - null
ann 1x start toggle - null
ann 18446744073709551616 start toggle - null
ann 1 send 01 {\"type\":\"X\"}
ann 1 send +1 {\"type\":\"X\"}
ann 1 send 18446744073709551616 {\"type\":\"X\"}";

// Words and their parts.
const WORDS: &str = "\
ann 1 stop toggle - null
ann 1 starts toggle - null
ann 1 start toggle desk null
ann 1 start toggle - nul
ann 1 start toggle - {}";

// Events.
const EVENTS: &str = "\
ann 1 send 1\x20
ann 1 send 1 {}
ann 1 send 1 \"X\"
ann 1 send 1 [\"type\",\"X\"]
ann 1 send 1 {\"type\":1}
ann 1 send 1 {\"Type\":\"X\"}
ann 1 send 1 {\"type\":\"X\",\"to\":\"Y\"}
ann 1 send 1 {\"type\":\"X\",\"type\":\"X\"}
ann 1 send 1 {\"type\":\"X\"} {\"type\":\"X\"}
ann 1 send 1 {\"type\":\"X\"}x
ann 1 send 1 {\"type\":\"xstate.\"}
ann 1 send 1 {\"type\":\"xstate.x\"}";

// Lines that no row of a text can hold: the empty one, ends of lines, and bytes that are no UTF-8.
const ODD: [&[u8]; 5] = [
    b"",
    b"ann 1 start toggle - null\r",
    b"ann 1 start toggle - null\n",
    b"ann 1 start tog\xffgle - null",
    b"ann 1 send 1 {\"type\":\"\xff\"}",
];

#[test]
fn reads_requests(rt: HostRuntime) -> Result<(), Fail> {
    for row in REQUESTS.lines() {
        let (line, want) = row.split_once("=>").ok_or("no row")?;
        assert!(rt; is_shown(rt.alloc(), line.as_bytes(), want)?, "at {line}");
    }
    Ok(())
}

#[test]
fn refuses_too_few_parts_and_too_many(rt: HostRuntime) -> Result<(), Fail> {
    expect_refused(&rt, rt.alloc(), PARTS)
}

#[test]
fn refuses_other_blanks(rt: HostRuntime) -> Result<(), Fail> {
    expect_refused(&rt, rt.alloc(), BLANKS)
}

#[test]
fn refuses_a_byte_0(rt: HostRuntime) -> Result<(), Fail> {
    expect_refused(&rt, rt.alloc(), ZEROS)
}

#[test]
fn refuses_other_callers(rt: HostRuntime) -> Result<(), Fail> {
    expect_refused(&rt, rt.alloc(), CALLERS)
}

#[test]
fn refuses_other_numbers(rt: HostRuntime) -> Result<(), Fail> {
    expect_refused(&rt, rt.alloc(), NUMBERS)
}

#[test]
fn refuses_other_words(rt: HostRuntime) -> Result<(), Fail> {
    expect_refused(&rt, rt.alloc(), WORDS)
}

#[test]
fn refuses_other_events(rt: HostRuntime) -> Result<(), Fail> {
    expect_refused(&rt, rt.alloc(), EVENTS)
}

#[test]
fn refuses_odd_lines(rt: HostRuntime) -> Result<(), Fail> {
    for line in ODD.iter() {
        assert!(rt; is_shown(rt.alloc(), line, REFUSED)?, "at {line:?}");
    }
    Ok(())
}

// Some bytes, `count` times another one, and some more.
fn padded(
    alloc: Global,
    front: &[u8],
    byte: u8,
    count: usize,
    back: &[u8],
) -> Result<Vec<u8>, AllocError> {
    let mut line = Vec::new(alloc);
    line.extend_from_slice(front)?;
    for _ in 0..count {
        line.push(byte)?;
    }
    line.extend_from_slice(back)?;
    Ok(line)
}

// Whether the line with the byte so many times is a request, and the one with it once more isn't.
fn is_most(
    alloc: Global,
    front: &[u8],
    byte: u8,
    most: usize,
    back: &[u8],
) -> Result<bool, AllocError> {
    let line = padded(alloc, front, byte, most, back)?;
    let longer = padded(alloc, front, byte, most.saturating_add(1), back)?;
    let is_taken = !is_shown(alloc, line.as_slice(), REFUSED)?;
    Ok(is_taken && is_shown(alloc, longer.as_slice(), REFUSED)?)
}

#[test]
fn callers_have_64_bytes_at_most(rt: HostRuntime) -> Result<(), Fail> {
    assert!(rt; is_most(rt.alloc(), b"a", b'b', 63, b" 1 start toggle - null")?);
    Ok(())
}

#[test]
fn names_have_256_bytes_at_most(rt: HostRuntime) -> Result<(), Fail> {
    assert!(rt; is_most(rt.alloc(), b"ann 1 start ", b'm', 256, b" - null")?);
    Ok(())
}

// A compact text of 4,096 bytes: `{"type":"`, the type and `"}`.
#[test]
fn events_have_4096_bytes_at_most(rt: HostRuntime) -> Result<(), Fail> {
    let front = b"ann 1 send 1 {\"type\":\"";
    assert!(rt; is_most(rt.alloc(), front, b'T', 4085, b"\"}")?);
    Ok(())
}

#[test]
fn lines_have_65536_bytes_at_most(rt: HostRuntime) -> Result<(), Fail> {
    let front = b"ann 1 send 1 {\"type\":\"X\"}";
    assert!(rt; is_most(rt.alloc(), front, b' ', 65_511, b"")?);
    Ok(())
}
