//! Machines that the rules' own examples are told of.

use super::{Step, follow};
use std::test::Fail;

/// The machines of the examples.
const OFFICE: &str = r##"{"machines":[
{"id":"r","initial":"p","states":{"p":{"type":"parallel","states":{"x":{"initial":"x1","states":{"x1":{"on":{"E":"x2"}},"x2":{}}},"y":{"initial":"y1","states":{"y1":{"on":{"E":"#out"}}}}}},"out":{"id":"out"}}},
{"id":"h","initial":"a","states":{"a":{"initial":"b","on":{"OUT":"z"},"states":{"b":{"initial":"b1","states":{"b1":{"on":{"N":"b2"}},"b2":{}}},"hs":{"type":"history"},"hd":{"type":"history","history":"deep"}}},"z":{"on":{"S":"#h.a.hs","D":"#h.a.hd"}}}},
{"id":"h2","initial":"z","states":{"a":{"initial":"b","on":{"OUT":"z"},"states":{"b":{},"c":{},"hs":{"history":true,"target":"c"},"hd":{"history":"deep"}}},"z":{"on":{"S":"#h2.a.hs","D":"#h2.a.hd"}}}},
{"id":"s","initial":"a","context":{"n":0},"states":{"a":{"entry":"inc","on":{"X":"a","Y":{"target":"a","reenter":true}}}}},
{"id":"loop","initial":"a","context":{"max":{"$input":"max"},"n":0},"states":{"a":{"always":{"guard":"more","actions":"inc"}}}},
{"id":"q","context":{"n":0,"seen":null},"on":{"GO":{"actions":"batch"}}},
{"id":"top","initial":"a","states":{"a":{"invoke":{"src":"mid"}}}},
{"id":"mid","initial":"a","states":{"a":{"invoke":[{"src":"low"},{"src":"idle"}]}}},
{"id":"low","on":{"BAD":{"actions":"boom"}}},
{"id":"idle"}],
"implementations":{
"guards":{"more":{"$lt":[{"$context":"n"},{"$context":"max"}]}},
"actions":{
"inc":{"assign":{"n":{"$add":[{"$context":"n"},1]}}},
"batch":{"enqueueActions":[{"assign":{"n":5}},{"if":{"$eq":[{"$context":"n"},5]},"then":[{"assign":{"seen":true}}],"else":[{"assign":{"seen":false}}]}]},
"boom":{"assign":{"x":{"$div":[1,0]}}}},
"actors":{"mid":{"machine":"mid"},"low":{"machine":"low"},"idle":{"machine":"idle"}}}}"##;

/// What an example shows, its machine, and its steps.
type Example = (&'static str, &'static str, &'static [Step]);

const EXAMPLES: [Example; 11] = [
    (
        "conflict: the transition of the region that stands first stays",
        "r",
        &[
            ("null", "r.p.x.x1,r.p.y.y1 {} [xstate.init]"),
            ("E", "r.p.x.x2,r.p.y.y1 {} [E]"),
            ("E", "out {} [E]"),
        ],
    ),
    (
        "history, deep and then shallow",
        "h",
        &[
            ("null", "h.a.b.b1 {} [xstate.init]"),
            ("N", "h.a.b.b2 {} [N]"),
            ("OUT", "h.z {} [OUT]"),
            ("D", "h.a.b.b2 {} [D]"),
            ("OUT", "h.z {} [OUT]"),
            ("S", "h.a.b.b1 {} [S]"),
        ],
    ),
    (
        "history without a record, shallow",
        "h2",
        &[("null", "h2.z {} [xstate.init]"), ("S", "h2.a.c {} [S]")],
    ),
    (
        "history without a record, deep",
        "h2",
        &[("null", "h2.z {} [xstate.init]"), ("D", "h2.a.b {} [D]")],
    ),
    (
        "self transitions: internal, and then external",
        "s",
        &[
            ("null", r#"s.a {"n":1} [xstate.init]"#),
            ("X", r#"s.a {"n":1} [X]"#),
            ("Y", r#"s.a {"n":2} [Y]"#),
        ],
    ),
    (
        "bound: a thousand microsteps are as many as there may be",
        "loop",
        &[(r#"{"max":999}"#, r#"loop.a {"max":999,"n":999} [1000]"#)],
    ),
    (
        "bound: a microstep too many",
        "loop",
        &[(r#"{"max":1000}"#, r#"- null [] error {"fault":"Steps"}"#)],
    ),
    (
        "enqueueActions: an `if` doesn't see what an earlier item assigned",
        "q",
        &[
            ("null", r#"q {"n":0,"seen":null} [xstate.init]"#),
            ("GO", r#"q {"n":5,"seen":false} [GO]"#),
        ],
    ),
    (
        "errors climb: the actor with the fault",
        "low",
        &[
            ("null", "low {} [xstate.init]"),
            ("BAD", r#"low {} [] error {"fault":"Range"}"#),
        ],
    ),
    (
        "errors climb: its parent, which doesn't handle it",
        "mid",
        &[
            (
                "null",
                "mid.a {} children 0.mid.a,1.mid.a [xstate.init] spawn 0.mid.a 1 null - spawn 1.mid.a 2 null -",
            ),
            (
                r#"{"type":"xstate.error.actor.0.mid.a","actorId":"0.mid.a","error":{"fault":"Range"}}"#,
                r#"mid.a {} children 0.mid.a,1.mid.a [] error {"fault":"Range"}"#,
            ),
        ],
    ),
    (
        "errors climb: the parent's parent",
        "top",
        &[
            (
                "null",
                "top.a {} children 0.top.a [xstate.init] spawn 0.top.a 0 null -",
            ),
            (
                r#"{"type":"xstate.error.actor.0.top.a","actorId":"0.top.a","error":{"fault":"Range"}}"#,
                r#"top.a {} children 0.top.a [] error {"fault":"Range"}"#,
            ),
        ],
    ),
];

#[test]
fn examples(rt: HostRuntime) -> Result<(), Fail> {
    for (shows, id, steps) in EXAMPLES {
        follow(&rt, rt.alloc(), OFFICE, id, steps, shows)?;
    }
    Ok(())
}
