//! Machine texts that the second pass refuses, and some that it takes, as marked lines.

use crate::marked::{Reader, expect_answers};
use std::alloc::Global;
use std::process::Abort;
use std::test::Fail;

const DOUBLE_IDS: &str = r#"{"id":"m","initial":"a","states":{"a":{"id":^"m"}}}
{"initial":"a","states":{"a":{"id":^"(machine)"}}}
{"initial":"a","states":{"a":{"id":"x"},"b":{"id":^"x"}}}
{"initial":"a","states":{"a":{"id":"x"},"b":{"id":^"x"},"c":{"id":"x"}}}
{"initial":"a","states":{"a":{"id":"x","initial":"b","states":{"b":{"id":^"x"}}}}}
{"id":"m","initial":"a","states":{"a":{},"b":{"id":^"m.a"}}}
{"id":"m","initial":"a","states":{"b":{"id":"m.a"},"a":^{}}}
{"id":"m","initial":"a","states":{"c":{"id":"m.a.b"},"a":{"initial":"b","states":{"b":^{}}}}}
{"initial":"a","states":{"a":{"id":"q"},"b":{"id":^"q","on":{"E":"x"}}}}"#;

const NO_TARGETS: &str = r##"{"on":{"E":^"x"}}
{"on":{"E":^""}}
{"on":{"*":^".x"}}
{"on":{"E":^"#"}}
{"on":{"E":^"#x"}}
{"id":"m","on":{"E":^"#m.x"}}
{"id":"m","on":{"E":^"#m."}}
{"id":"m","on":{"E":^"#.m"}}
{"id":"m","on":{"E":^"#mm"}}
{"id":"m","on":{"E":^"m"}}
{"initial":"a","on":{"E":^"a"},"states":{"a":{}}}
{"initial":"a","always":^".b","states":{"a":{}}}
{"initial":"a","states":{"a":{"on":{"E":^"c"}},"b":{}}}
{"initial":"a","states":{"a":{"on":{"E":^".b"}},"b":{}}}
{"initial":"a","states":{"a":{"on":{"E":^""}},"b":{}}}
{"initial":"a","states":{"a":{"on":{"E":^"."}},"b":{}}}
{"initial":"a","states":{"a":{"on":{"E":^"b."}},"b":{}}}
{"initial":"a","states":{"a":{"on":{"E":^"..b"}},"b":{}}}
{"initial":"a","states":{"a":{"on":{"E":^"#b"}},"b":{}}}
{"initial":"p","on":{"E":^"#a.b.c"},"states":{"p":{"id":"a","initial":"b","states":{"b":{"initial":"c","states":{"c":{}}}}},"q":{"id":"a.b"}}}
{"on":{"E":{"target":^"x"}}}
{"on":{"E":[{},^"x"]}}
{"on":{"E":[{"target":^"x"},"y"]}}
{"initial":"a","states":{"a":{"on":{"E":{"target":["b",^"x"]}}},"b":{}}}
{"initial":"a","states":{"a":{"on":{"E":{"target":[^"x","b"]}}},"b":{}}}
{"always":[{"target":^"x"}]}
{"after":{"100":^"x"}}
{"after":{"wait":{"target":[^"x"]}}}
{"initial":"a","states":{"a":{"onDone":^"x"}}}
{"invoke":{"src":"s","onDone":^"x"}}
{"invoke":[{"src":"s","onError":{"target":^"x"}}]}
{"invoke":{"src":"s","onSnapshot":[^"x"]}}
{"on":{"E":{"guard":{"stateIn":^"#x"}}}}
{"id":"m","on":{"E":{"guard":{"stateIn":^"#m.x"}}}}
{"on":{"E":{"guard":{"and":["g",{"not":{"stateIn":^"#x"}}]}}}}
{"always":{"guard":{"or":[{"stateIn":^"#x"},"g"]}}}
{"initial":"a","states":{"a":{},"h":{"type":"history","target":^"x"}}}
{"initial":"a","states":{"a":{},"h":{"type":"history","target":^".a"}}}
{"initial":"a","states":{"a":{},"h":{"type":"history","target":^"h"}}}
{"initial":"a","states":{"a":{},"h":{"history":true,"target":^"g"},"g":{"history":true}}}
{"id":"m","initial":"a","states":{"a":{},"h":{"history":true,"target":^"#m"}}}
{"initial":"a","states":{"a":{"initial":"b","states":{"b":{},"h":{"history":true,"target":^"#c"}}},"c":{"id":"c"}}}
{"initial":"a","states":{"a":{"id":"a","initial":"b","states":{"b":{},"h":{"history":"deep","target":^"#a"}}}}}
{"initial":"a","states":{"a":{"on":{"E":^"x"}},"b":{"id":"q"},"c":{"id":"q"}}}
{"initial":"a","states":{"a":{"on":{"E":^"x"}}},"on":{"E":"#y"}}"##;

/// The members of a parallel root that clash tables share, before and behind the targets of its
/// transition.
const BEFORE_TARGETS: &str = r#"{"id":"m","type":"parallel","on":{"E":{"target":["#;

const BEHIND_TARGETS: &str =
    r#"]}},"states":{"r":{"initial":"u","states":{"u":{},"v":{},"h":{"history":true},"g":{"history":"deep"}}},"s":{"type":"parallel","states":{"u":{},"x":{}}},"k":{"history":true}}}"#;

/// Targets of one transition of that root, whose id is `m`.
const CLASHES: &str = r##"".r",^".r"
".r.u",^".r.u"
"#m",^".r"
".r",^"#m"
".r.u",^".r.v"
".r.v",^".r.u"
".r",^".r.u"
".r.u",^".r"
".r.u",".s.u",".s.x",^".r.v"
".s.u",".s.x",".r",^".s"
".r",".s",^".s.x"
".r.h",^".r.u"
".r.h",^".r.g"
".r",^".r.g"
".s",^".k"
".r.u",^".r.v",".r.v",".r""##;

/// Targets of that root that don't clash.
const APART: &str = r#"".r"
".r",".s"
".r.u",".s.u"
".s.x",".r.v",".s.u"
".r.h",".s"
".k""#;

const TAKEN: &str =
    r##"{"id":"m","initial":"a","on":{"E":"#m.a","F":".a","G":"#m"},"states":{"a":{"on":{"E":"a","F":"b"}},"b":{}}}
{"initial":"a","states":{"a":{"initial":"b","states":{"b":{"on":{"E":"#(machine).a.b"}}}}}}
{"initial":"p","on":{"E":"#a.b"},"states":{"p":{"id":"a","initial":"c","states":{"c":{}}},"q":{"id":"a.b"}}}
{"initial":"a","states":{"a":{"initial":"b","states":{"b":{}}},"h":{"history":true,"target":"a.b"}}}
{"initial":"a","on":{"E":{"guard":{"stateIn":"#(machine).a"}}},"states":{"a":{}}}
{"meta":{"target":"x"},"entry":{"type":"a","params":{"on":{"E":"x"}}},"context":{"target":"x"}}"##;

/// Asserts that the clashes of that root's targets stand at their marks.
fn expect_clashes(rt: &impl Abort, alloc: Global, lines: &str) -> Result<(), Fail> {
    for targets in lines.lines() {
        let text = format!(in alloc; "{BEFORE_TARGETS}{targets}{BEHIND_TARGETS}")?;
        expect_answers(rt, alloc, Reader::Machine, "Clash", text.as_str())?;
    }
    Ok(())
}

#[test]
fn double_ids(rt: HostRuntime) -> Result<(), Fail> {
    expect_answers(&rt, rt.alloc(), Reader::Machine, "DoubleId", DOUBLE_IDS)
}

#[test]
fn texts_that_lead_nowhere(rt: HostRuntime) -> Result<(), Fail> {
    expect_answers(&rt, rt.alloc(), Reader::Machine, "NoTarget", NO_TARGETS)
}

#[test]
fn targets_that_clash(rt: HostRuntime) -> Result<(), Fail> {
    expect_clashes(&rt, rt.alloc(), CLASHES)
}

#[test]
fn targets_that_are_apart(rt: HostRuntime) -> Result<(), Fail> {
    expect_clashes(&rt, rt.alloc(), APART)
}

#[test]
fn taken(rt: HostRuntime) -> Result<(), Fail> {
    expect_answers(&rt, rt.alloc(), Reader::Machine, "", TAKEN)
}
