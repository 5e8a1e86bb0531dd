//! Tables of refused texts, as lines with `^` before the byte at which the fault stands, and texts that
//! are taken.

use action_table::*;
use std::alloc::Global;
use std::process::Abort;
use std::test::Fail;

/// Texts that are no object of kinds of implementations.
const OUTER: &str = r#"^[]
^null
^"x"
^5
{^"guard":{}}
{"guards":{},^"x":1}
{"guards":^[]}
{"actions":^null}
{"delays":^"d"}
{"actors":^1}
{"actors":^[],"guards":[]}
{^"machines":[],"guards":[]}
{"guards":{"":{^"$no":1}}}"#;

/// Unknown forms of expressions, at their keys.
const EXPRESSIONS: &str = r#"{"guards":{"g":{^"$no":1}}}
{"guards":{"g":{"a":1,^"$lit":2}}}
{"guards":{"g":{^"$add":[1]}}}
{"guards":{"g":{"$add":[{^"$a":1},{"$b":1}]}}}
{"delays":{"d":{^"$context":5}}}
{"delays":{"d":[1,{"x":{^"$if":[1,2]}}]}}
{"guards":{"a":1,"b":{^"$lit":1,"$not":2}}}
{"guards":{"g":{^"$not":1,"x":{"$no":1}}}}"#;

/// Actors.
const ACTORS: &str = r#"{"actors":{"a":^1}}
{"actors":{"a":^"m"}}
{"actors":{"a":^[]}}
{"actors":{"a":^{}}}
{"actors":{"a":{^"x":1}}}
{"actors":{"a":{"machine":^1}}}
{"actors":{"a":{"machine":^{}}}}
{"actors":{"a":{"machine":"m",^"promise":{}}}}
{"actors":{"a":{^"x":1,"machine":"m"}}}
{"actors":{"a":{"promise":^null}}}
{"actors":{"a":{"promise":^[]}}}
{"actors":{"a":{"promise":{^"x":1}}}}
{"actors":{"a":{"promise":{},^"machine":"m"}}}
{"actors":{"a":{"machine":"m",^"input":1}}}
{"actors":{"a":{"promise":{},^"id":"i"}}}"#;

/// Forms of actions.
const FORMS: &str = r#"{"actions":{"a":^1}}
{"actions":{"a":^"b"}}
{"actions":{"a":^{}}}
{"actions":{"a":[^1]}}
{"actions":{"a":[^[]]}}
{"actions":{"a":[^{}]}}
{"actions":{"a":{^"x":1}}}
{"actions":{"a":{^"id":"i"}}}
{"actions":{"a":{^"if":true,"then":[]}}}
{"actions":{"a":{^"delay":5,"x":1}}}
{"actions":{"a":{"assign":^1}}}
{"actions":{"a":{"assign":^[]}}}
{"actions":{"a":{"assign":{"k":{^"$no":1}}}}}
{"actions":{"a":{"assign":{},^"id":1}}}
{"actions":{"a":{"assign":{},^"raise":1}}}
{"actions":{"a":{"raise":{^"$no":1}}}}
{"actions":{"a":{"raise":1,"delay":{^"$no":1}}}}
{"actions":{"a":{"raise":1,"id":{^"$no":1}}}}
{"actions":{"a":{"raise":1,^"event":1}}}
{"actions":{"a":{"raise":1,^"cancel":"x"}}}
{"actions":{"a":{"cancel":{^"$no":1}}}}
{"actions":{"a":{"cancel":"x",^"delay":1}}}
{"actions":{"a":{"cancel":"x",^"id":1}}}
{"actions":{"a":{"stopChild":{^"$no":1}}}}
{"actions":{"a":{"stopChild":"x",^"id":1}}}
{"actions":{"a":{"spawnChild":^1}}}
{"actions":{"a":{"spawnChild":^{"$lit":"x"}}}}
{"actions":{"a":{"spawnChild":"x","id":{^"$no":1}}}}
{"actions":{"a":{"spawnChild":"x","input":{^"$no":1}}}}
{"actions":{"a":{"spawnChild":"x","systemId":{^"$no":1}}}}
{"actions":{"a":{"spawnChild":"x",^"delay":1}}}
{"actions":{"a":[{"cancel":"x"},{^"y":1},{"z":1}]}}"#;

/// `sendTo` and its targets.
const SENDS: &str = r#"{"actions":{"a":^{"sendTo":"self"}}}
{"actions":{"a":^{"sendTo":"self","delay":1}}}
{"actions":{"a":^{"sendTo":5}}}
{"actions":{"a":{"sendTo":^"other","event":1}}}
{"actions":{"a":{"sendTo":^5,"event":1}}}
{"actions":{"a":{"sendTo":^{},"event":1}}}
{"actions":{"a":{"sendTo":^[],"event":1}}}
{"actions":{"a":{"sendTo":{^"x":1},"event":1}}}
{"actions":{"a":{"sendTo":{"child":"c",^"system":"s"},"event":1}}}
{"actions":{"a":{"sendTo":{^"x":1,"child":"c"},"event":1}}}
{"actions":{"a":{"sendTo":{"child":{^"$no":1}},"event":1}}}
{"actions":{"a":{"sendTo":{"system":{^"$no":1}},"event":1}}}
{"actions":{"a":{"sendTo":"self","event":{^"$no":1}}}}
{"actions":{"a":{"sendTo":"self","event":1,"delay":{^"$no":1}}}}
{"actions":{"a":{"sendTo":"self","event":1,"id":{^"$no":1}}}}
{"actions":{"a":{"sendTo":"self","event":1,^"input":1}}}
{"actions":{"a":{^"x":1,"sendTo":"other","event":1}}}
{"actions":{"a":{"event":{^"$no":1},"sendTo":"other"}}}"#;

/// Items of `enqueueActions`.
const ITEMS: &str = r#"{"actions":{"a":{"enqueueActions":^1}}}
{"actions":{"a":{"enqueueActions":^{}}}}
{"actions":{"a":{"enqueueActions":[^1]}}}
{"actions":{"a":{"enqueueActions":[^{}]}}}
{"actions":{"a":{"enqueueActions":[^[]]}}}
{"actions":{"a":{"enqueueActions":[],^"id":1}}}
{"actions":{"a":{"enqueueActions":[{^"enqueueActions":[]}]}}}
{"actions":{"a":{"enqueueActions":[{^"x":1}]}}}
{"actions":{"a":{"enqueueActions":[{"cancel":{^"$no":1}}]}}}
{"actions":{"a":{"enqueueActions":[^{"if":true}]}}}
{"actions":{"a":{"enqueueActions":[^{"if":true,"else":[]}]}}}
{"actions":{"a":{"enqueueActions":[{^"then":[],"else":[]}]}}}
{"actions":{"a":{"enqueueActions":[{"if":{^"$no":1},"then":[]}]}}}
{"actions":{"a":{"enqueueActions":[{"if":true,"then":^{}}]}}}
{"actions":{"a":{"enqueueActions":[{"if":true,"then":[],"else":^1}]}}}
{"actions":{"a":{"enqueueActions":[{"if":true,"then":[{^"x":1}]}]}}}
{"actions":{"a":{"enqueueActions":[{"if":true,"then":[{^"enqueueActions":[]}]}]}}}
{"actions":{"a":{"enqueueActions":[{"if":true,"then":[],^"x":1}]}}}
{"actions":{"a":{"enqueueActions":[{"if":true,"then":[{"if":true,"then":[],"else":[{^"x":1}]}]}]}}}
{"actions":{"a":{"enqueueActions":[{"cancel":"x",^"if":true}]}}}
{"actions":{"a":{"enqueueActions":[{"if":true,"then":[],^"cancel":1}]}}}"#;

/// Several faults, of which the one at the least place is answered.
const SEVERAL: &str = r#"{"guards":{"g":{^"$no":1}},"actions":[]}
{"actors":{"a":^1},"x":1}
{"actions":{"a":{"raise":{^"$no":1},"x":2}}}
{"actions":{"a":^{"sendTo":"other"}}}
{"actions":{"a":[{"cancel":{^"$no":1}},5]},"zzz":1}"#;

/// Texts that are taken: each form with its parts.
const TAKEN: &str = r#"{}
{"guards":{},"actions":{},"delays":{},"actors":{}}
{"actors":{},"guards":{}}
{"guards":{"":null}}
{"guards":{"g":{"$lit":{"$no":1}}},"delays":{"d":{"$context":"n"}}}
{"actors":{"m":{"machine":"x"},"p":{"promise":{}},"":{"machine":""}}}
{"actions":{"a":[],"b":{"assign":{"$k":1,"":2}}}}
{"actions":{"a":{"raise":1},"b":{"raise":1,"delay":2,"id":"i"},"c":{"id":"i","raise":1}}}
{"actions":{"a":{"sendTo":"self","event":1},"b":{"sendTo":"parent","event":1,"delay":0,"id":"x"}}}
{"actions":{"a":{"sendTo":{"child":"c"},"event":1},"b":{"event":1,"sendTo":{"system":"s"}}}}
{"actions":{"a":[{"cancel":"x"},{"stopChild":"y"},{"spawnChild":"z"}]}}
{"actions":{"a":{"spawnChild":"z","id":"i","input":null,"systemId":"s"}}}
{"actions":{"a":{"enqueueActions":[]},"b":{"enqueueActions":[{"assign":{}},{"if":true,"then":[]},{"then":[{"cancel":"x"}],"else":[{"if":1,"then":[]}],"if":0}]}}}"#;

/// Whether a marked text has its least fault at its mark, and a text without a mark none.
fn is_answered(alloc: Global, marked: &str) -> Result<bool, Fail> {
    let (before, behind) = marked.split_once('^').unwrap_or((marked, ""));
    let wanted = if before.len() < marked.len() {
        Some(before.len())
    } else {
        None
    };
    let text = format!(in alloc; "{before}{behind}")?;
    let json = ordered_json::read(alloc, text.as_bytes())?;
    Ok(first_fault(alloc, TableRole::Implementations, &json)? == wanted)
}

/// Asserts that each line is answered so.
fn expect_answers(rt: &impl Abort, alloc: Global, lines: &str) -> Result<(), Fail> {
    for marked in lines.lines() {
        assert!(rt; is_answered(alloc, marked)?, "{marked}");
    }
    Ok(())
}

#[test]
fn refuses_what_is_no_table(rt: HostRuntime) -> Result<(), Fail> {
    expect_answers(&rt, rt.alloc(), OUTER)
}

#[test]
fn refuses_expressions(rt: HostRuntime) -> Result<(), Fail> {
    expect_answers(&rt, rt.alloc(), EXPRESSIONS)
}

#[test]
fn refuses_actors(rt: HostRuntime) -> Result<(), Fail> {
    expect_answers(&rt, rt.alloc(), ACTORS)
}

#[test]
fn refuses_forms(rt: HostRuntime) -> Result<(), Fail> {
    expect_answers(&rt, rt.alloc(), FORMS)
}

#[test]
fn refuses_sends(rt: HostRuntime) -> Result<(), Fail> {
    expect_answers(&rt, rt.alloc(), SENDS)
}

#[test]
fn refuses_items(rt: HostRuntime) -> Result<(), Fail> {
    expect_answers(&rt, rt.alloc(), ITEMS)
}

#[test]
fn refuses_several(rt: HostRuntime) -> Result<(), Fail> {
    expect_answers(&rt, rt.alloc(), SEVERAL)
}

#[test]
fn takes_each_form(rt: HostRuntime) -> Result<(), Fail> {
    expect_answers(&rt, rt.alloc(), TAKEN)
}
