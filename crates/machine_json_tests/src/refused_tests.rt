//! Machine texts that the first pass refuses, and some that it takes, as marked lines.

use crate::marked::{Reader, expect_answers};
use std::process::Abort;
use std::test::Fail;

const UNKNOWN_FIELDS: &str = r#"{"id":"m",^"x":1}
{^"inital":"a"}
{^"Id":"m"}
{^"onDone":"a"}
{^"target":"a"}
{"initial":"a",^"history":true,"states":{"a":{}}}
{"initial":"a","states":{"a":{^"version":"1"}}}
{"initial":"a","states":{"a":{^"context":{}}}}
{"initial":"a","states":{"a":{^"output":1}}}
{"initial":"a","states":{"a":{^"target":"b"}}}
{"initial":"a","states":{"a":{"type":"atomic",^"history":"deep"}}}
{"type":"parallel","states":{"a":{^"output":null}}}
{"initial":"a","states":{"a":{"type":"final",^"on":{}}}}
{"initial":"a","states":{"a":{"type":"final",^"always":[]}}}
{"initial":"a","states":{"a":{"type":"final",^"after":{}}}}
{"initial":"a","states":{"a":{"type":"final",^"invoke":[]}}}
{"initial":"a","states":{"a":{"type":"final",^"onDone":[]}}}
{"initial":"a","states":{"a":{"type":"final",^"states":{}}}}
{"initial":"a","states":{"a":{"type":"final",^"initial":"b"}}}
{"initial":"a","states":{"a":{"type":"final",^"context":{}}}}
{"initial":"a","states":{"a":{},"h":{"type":"history",^"entry":[]}}}
{"initial":"a","states":{"a":{},"h":{"type":"history",^"exit":[]}}}
{"initial":"a","states":{"a":{},"h":{"type":"history",^"on":{}}}}
{"initial":"a","states":{"a":{},"h":{"type":"history",^"always":[]}}}
{"initial":"a","states":{"a":{},"h":{"type":"history",^"after":{}}}}
{"initial":"a","states":{"a":{},"h":{"type":"history",^"invoke":[]}}}
{"initial":"a","states":{"a":{},"h":{"type":"history",^"onDone":[]}}}
{"initial":"a","states":{"a":{},"h":{"type":"history",^"tags":[]}}}
{"initial":"a","states":{"a":{},"h":{"history":true,^"states":{}}}}
{"initial":"a","states":{"a":{},"h":{"history":true,^"output":1}}}
{"on":{"E":{^"x":1}}}
{"always":[{"target":"a"},{^"goto":"a"}]}
{"after":{"100":{"actions":[],^"delay":1}}}
{"entry":{"type":"a",^"x":1}}
{"exit":[{"type":"a"},{"type":"b",^"param":1}]}
{"on":{"E":{"guard":{"type":"g",^"x":1}}}}
{"on":{"E":{"guard":{"and":["g",{"not":{"type":"h",^"y":1}}]}}}}
{"invoke":{"src":"a",^"data":1}}
{"invoke":[{"src":"a"},{"src":"b",^"onEvent":[]}]}
{"invoke":{"src":"a","onDone":{^"cond":"g"}}}"#;

const BAD_NODES: &str = r##"^5
^[]
^"m"
^null
{"id":^5}
{"id":^""}
{"id":^null}
{"version":^1}
{"description":^1}
{"type":^5}
{"type":^"simple"}
{"type":^"Final"}
{"type":^"final"}
{"type":^"history"}
{"history":^true}
{"history":^"deep"}
{"history":"deep","type":^"history"}
{"history":^5,"type":"none"}
{"initial":^5}
{"initial":^null,"states":{"a":{}}}
{"type":"parallel","initial":^[],"states":{"a":{}}}
{"states":^[]}
{"states":^null}
{"type":^"atomic","states":{"a":{}}}
{"initial":"a","states":{"a":{},^"":{}}}
{"initial":"a","states":{"a":{},^"a.b":{}}}
{"initial":"a","states":{"a":{},^".":{}}}
{"initial":"a","states":{"a":{},^"#a":{}}}
{"initial":"a","states":{"a":{},"b":^5}}
{"initial":"a","states":{"a":^null}}
{"initial":"a","states":{"a":^"b"}}
{"tags":^5}
{"tags":["a",^null]}
{"context":^{"$x":1}}
{"output":{"a":^{"$add":[1]}}}
{"invoke":{"src":"a","input":[1,^{"$lit":1,"b":2}]}}
{"initial":"a","states":{"a":{"type":"final","output":^{"$not":1,"$len":2}}}}
{"initial":"a","states":{"a":{},"h":{"type":"history","history":^false}}}
{"initial":"a","states":{"a":{},"h":{"type":"history","history":^"deepest"}}}
{"initial":"a","states":{"a":{},"h":{"type":"history","history":^null}}}
{"initial":"a","states":{"a":{},"h":{"type":"history","target":^5}}}
{"initial":"a","states":{"a":{},"h":{"type":"history","target":^["a"]}}}"##;

const BAD_TRANSITIONS: &str = r#"{"on":^[]}
{"on":^"E"}
{"on":{"E":^5}}
{"on":{"E":^null}}
{"on":{"E":[^[]]}}
{"on":{"E":["a",^true]}}
{"always":^1}
{"always":[{},^null]}
{"on":{"E":{"target":^[]}}}
{"on":{"E":{"target":["a",^5]}}}
{"on":{"E":{"target":^null}}}
{"on":{"E":{"target":^{}}}}
{"on":{"E":{"reenter":^1}}}
{"on":{"E":{"reenter":^"true"}}}
{"on":{"E":{"description":^[]}}}
{"after":^[]}
{"after":{"100":^5}}
{"after":{"soon":[^5]}}
{"after":{^"9007199254740992":"a"}}
{"after":{^"00009007199254740992":"a"}}
{"after":{^"99999999999999999999999999":"a"}}
{"entry":^5}
{"entry":[^[]]}
{"entry":{"type":^1}}
{"entry":^{}}
{"entry":^{"params":1}}
{"entry":^{"x":1}}
{"exit":["a",^null]}
{"on":{"E":{"actions":^true}}}
{"on":{"E":{"actions":["a",^{}]}}}"#;

const BAD_GUARDS: &str = r##"{"on":{"E":{"guard":^[]}}}
{"on":{"E":{"guard":^null}}}
{"on":{"E":{"guard":^{}}}}
{"on":{"E":{"guard":^{"x":1}}}}
{"on":{"E":{"guard":^{"params":1}}}}
{"on":{"E":{"guard":^{"type":"g","and":[]}}}}
{"on":{"E":{"guard":^{"and":[],"or":[]}}}}
{"on":{"E":{"guard":^{"and":[],"params":1}}}}
{"on":{"E":{"guard":^{"stateIn":"#a","params":1}}}}
{"on":{"E":{"guard":^{"not":"g","stateIn":"#a"}}}}
{"on":{"E":{"guard":{"type":^1}}}}
{"on":{"E":{"guard":{"and":^"g"}}}}
{"on":{"E":{"guard":{"or":^{}}}}}
{"on":{"E":{"guard":{"or":[^5]}}}}
{"on":{"E":{"guard":{"and":["g",^[]]}}}}
{"on":{"E":{"guard":{"not":^[]}}}}
{"on":{"E":{"guard":{"not":{"not":^1}}}}}
{"on":{"E":{"guard":{"stateIn":^"a"}}}}
{"on":{"E":{"guard":{"stateIn":^""}}}}
{"on":{"E":{"guard":{"stateIn":^5}}}}
{"invoke":^5}
{"invoke":^"src"}
{"invoke":^{}}
{"invoke":^{"id":"x","data":1}}
{"invoke":[^[]]}
{"invoke":[{"src":"a"},^"b"]}
{"invoke":{"src":^5}}
{"invoke":{"src":"a","id":^5}}
{"invoke":{"src":"a","systemId":^null}}
{"invoke":{"src":"a","onDone":^5}}
{"invoke":{"src":"a","onError":[^5]}}
{"invoke":{"src":"a","onSnapshot":^null}}
{"invoke":{"src":"a","onSnapshot":{"target":^[]}}}
{"invoke":{"src":"a","onDone":{"guard":^{}}}}"##;

const NO_INITIAL: &str = r#"^{"states":{"a":{}}}
{"initial":^"b","states":{"a":{}}}
{"initial":^"","states":{"a":{}}}
{"initial":^"h","states":{"a":{},"h":{"type":"history"}}}
{"initial":^"h","states":{"a":{},"h":{"history":5}}}
{"initial":^"a"}
{"initial":^"a","states":{}}
^{"type":"compound"}
{"initial":"a","states":{"a":^{"states":{"b":{}}}}}
^{"states":{"h":{"history":true}}}"#;

const EMPTY_STATES: &str = r#"^{"type":"parallel"}
^{"type":"parallel","states":{}}
^{"type":"parallel","states":{"h":{"history":true}}}
^{"type":"compound","initial":"a"}
^{"type":"compound","initial":"h","states":{"h":{"history":true}}}
^{"initial":"h","states":{"h":{"history":true}}}
{"initial":"a","states":{"a":^{"type":"parallel"}}}"#;

/// Texts with several faults, each behind the name of the first.
const FIRST_OF_SEVERAL: &str = r#"BadKind {"id":^5,"x":1}
UnknownField {^"x":1,"id":5}
UnknownField {"states":{"a":{^"bad":1}},"type":"atomic"}
NoInitial {"initial":^"a","states":{"a":{"bad":1}},"type":"atomic"}
UnknownField {^"on_":1,"history":true}
UnknownField {^"on":{},"type":"final"}
BadKind {"output":1,"version":"1","context":{},"initial":"q","type":^"final"}
BadKind {"context":^{"$a":{"$b":1}},"output":{"$c":1}}
NoInitial ^{"states":{"":{}},"x":1}"#;

/// Texts in which the first pass finds no fault.
const TAKEN: &str =
    r##"{"id":"once","initial":"a","output":7,"states":{"a":{"on":{"END":"z"}},"z":{"type":"final"}}}
{"id":"r","initial":"p","states":{"p":{"type":"parallel","states":{"x":{"initial":"x1","states":{"x1":{"on":{"E":"x2"}},"x2":{}}},"y":{"initial":"y1","states":{"y1":{"on":{"E":"#out"}}}}}},"out":{"id":"out"}}}
{"id":"h","initial":"a","states":{"a":{"initial":"b","on":{"OUT":"z"},"states":{"b":{"initial":"b1","states":{"b1":{"on":{"N":"b2"}},"b2":{}}},"hs":{"type":"history"},"hd":{"type":"history","history":"deep"}}},"z":{"on":{"S":"#h.a.hs","D":"#h.a.hd"}}}}
{"id":"h2","initial":"z","states":{"a":{"initial":"b","on":{"OUT":"z"},"states":{"b":{},"c":{},"hs":{"history":true,"target":"c"},"hd":{"history":"deep"}}},"z":{"on":{"S":"#h2.a.hs","D":"#h2.a.hd"}}}}
{"id":"s","initial":"a","context":{"n":0},"states":{"a":{"entry":"inc","on":{"X":"a","Y":{"target":"a","reenter":true}}}}}
{"id":"loop","initial":"a","context":{"max":{"$input":"max"},"n":0},"states":{"a":{"always":{"guard":"more","actions":"inc"}}}}
{"id":"q","context":{"n":0,"seen":null},"on":{"GO":{"actions":"batch"}}}
{"id":"top","initial":"a","states":{"a":{"invoke":{"src":"mid"}}}}
{"id":"mid","initial":"a","states":{"a":{"invoke":[{"src":"low"},{"src":"idle"}]}}}
{"id":"low","on":{"BAD":{"actions":"boom"}}}
{"id":"idle"}
{"id":"w","initial":"ask","states":{"ask":{"invoke":{"src":"sign","id":"s","input":{"doc":5},"onDone":"yes","onError":"no"},"on":{"SKIP":"no"}},"yes":{},"no":{}}}
{"id":"t","context":{"log":[]},"entry":["p","q","r","cr"],"on":{"P":{"actions":"log"},"Q":{"actions":"log"},"R":{"actions":"log"}}}
{"id":"u","initial":"a","entry":"p","states":{"a":{"after":{"100":"b"},"on":{"END":"z"}},"b":{},"z":{"type":"final"}}}
{"id":"boss","initial":"a","states":{"a":{"invoke":{"src":"idle"},"on":{"STOP":"b"}},"b":{}}}
{"id":"tri","on":{"GO":{"actions":"three"}}}
{"id":"purchase","initial":"review","context":{"amount":{"$input":"amount"}},"states":{"review":{"invoke":{"src":"approval","input":{"amount":{"$context":"amount"}},"onDone":[{"guard":"granted","target":"order"},{"target":"refused"}],"onError":"refused"}},"order":{"invoke":{"src":"place","input":{"amount":{"$context":"amount"}},"onDone":"bought","onError":"refused"}},"bought":{"type":"final"},"refused":{"type":"final"}}}
{"id":"approval","initial":"waiting","context":{"granted":false},"output":{"granted":{"$context":"granted"}},"states":{"waiting":{"invoke":{"src":"sign","onDone":{"target":"decided","actions":"keep"},"onError":"decided"},"after":{"86400000":{"actions":"remind"}}},"decided":{"type":"final"}}}
{}
{"type":"parallel","initial":"none","states":{"a":{"type":"compound","initial":"b","onDone":[],"tags":"x","states":{"b":{"meta":{"$":1},"description":""}}}}}
{"type":"atomic","states":{},"version":"","id":"x.y"}
{"on":{"":{},"*":[],"E.*":{"guard":{"or":[{"and":[]},{"not":{"stateIn":"#"}},{"type":"g","params":{"$a":1,"$b":2}}]}}}}
{"after":{"":"a","0009007199254740991":{"target":["a","b"],"meta":[]},"1s":[]},"entry":{"type":"a","params":null},"exit":[]}"##;

#[test]
fn unknown_fields(rt: HostRuntime) -> Result<(), Fail> {
    expect_answers(
        &rt,
        rt.alloc(),
        Reader::Fields,
        "UnknownField",
        UNKNOWN_FIELDS,
    )
}

#[test]
fn bad_nodes(rt: HostRuntime) -> Result<(), Fail> {
    expect_answers(&rt, rt.alloc(), Reader::Fields, "BadKind", BAD_NODES)
}

#[test]
fn bad_transitions(rt: HostRuntime) -> Result<(), Fail> {
    expect_answers(&rt, rt.alloc(), Reader::Fields, "BadKind", BAD_TRANSITIONS)
}

#[test]
fn bad_guards_and_invocations(rt: HostRuntime) -> Result<(), Fail> {
    expect_answers(&rt, rt.alloc(), Reader::Fields, "BadKind", BAD_GUARDS)
}

#[test]
fn no_initial(rt: HostRuntime) -> Result<(), Fail> {
    expect_answers(&rt, rt.alloc(), Reader::Fields, "NoInitial", NO_INITIAL)
}

#[test]
fn empty_states(rt: HostRuntime) -> Result<(), Fail> {
    expect_answers(&rt, rt.alloc(), Reader::Fields, "EmptyStates", EMPTY_STATES)
}

#[test]
fn first_of_several(rt: HostRuntime) -> Result<(), Fail> {
    for line in FIRST_OF_SEVERAL.lines() {
        let (fault, marked) = line.split_once(' ').unwrap_or((line, ""));
        expect_answers(&rt, rt.alloc(), Reader::Fields, fault, marked)?;
    }
    Ok(())
}

#[test]
fn taken(rt: HostRuntime) -> Result<(), Fail> {
    expect_answers(&rt, rt.alloc(), Reader::Fields, "", TAKEN)
}
