//! How long a line and its parts may be, and how deep a value may nest.

use office_types::read_request;
use std::alloc::{AllocError, Global};

// What stands before and after the part that is repeated, and how often that may stand at most.
const LIMITS: [(&str, &str, u16, &str); 5] = [
    // A caller of 64 bytes, and names of 256.
    ("a", "b", 63, " 1 at 5"),
    ("a 1 start ", "m", 256, " - null"),
    ("a 1 start m ", "s", 256, " null"),
    // A compact text of 4,096 bytes: the text and its quotes.
    ("a 1 resolve 2 \"", "T", 4_094, "\""),
    // A line of 65,536 bytes.
    ("a 1 resolve 2 null", " ", 65_518, ""),
];

fn padded(
    alloc: Global,
    front: &str,
    part: &str,
    count: usize,
    back: &str,
) -> Result<String, AllocError> {
    let middle = part.repeat(alloc, count)?;
    format!(in alloc; "{front}{middle}{back}")
}

fn is_read(
    alloc: Global,
    front: &str,
    part: &str,
    count: usize,
    back: &str,
) -> Result<bool, AllocError> {
    let line = padded(alloc, front, part, count, back)?;
    Ok(read_request(alloc, line.as_bytes()).is_ok())
}

// Whether a line is read with the part so often, and not with the part once more.
fn is_limit(
    alloc: Global,
    front: &str,
    part: &str,
    most: u16,
    back: &str,
) -> Result<bool, AllocError> {
    let most = usize::from(most);
    let short = is_read(alloc, front, part, most, back)?;
    let long = is_read(alloc, front, part, most + 1, back)?;
    Ok(short && !long)
}

fn nests(alloc: Global, depth: usize) -> Result<bool, AllocError> {
    let back = "]".repeat(alloc, depth)?;
    is_read(alloc, "a 1 resolve 2 ", "[", depth, back.as_str())
}

#[test]
fn keeps_the_limits(rt: HostRuntime) {
    for (front, part, most, back) in LIMITS.iter() {
        let found = is_limit(rt.alloc(), front, part, *most, back);
        assert!(rt; found.unwrap_or(false), "at {front}");
    }
}

#[test]
fn nests_values_32_deep(rt: HostRuntime) {
    assert!(rt; nests(rt.alloc(), 32).unwrap_or(false));
}

#[test]
fn nests_no_value_33_deep(rt: HostRuntime) {
    assert!(rt; !nests(rt.alloc(), 33).unwrap_or(true));
}
