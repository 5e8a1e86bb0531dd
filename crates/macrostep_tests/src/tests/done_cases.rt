//! Done events, the end of a machine, and the order of raised events and of transitions without
//! one.

use super::{Case, follow_all};
use std::test::Fail;

/// Actions that log their params, the type and the output of the event, and that raise an event of
/// the type that their params are.
const TABLE: &str =
    r#"{"guards":{"is":{"$eq":[{"$event":"type"},{"$params":""}]}},"actions":{"log":{"assign":{"log":{"$append":[{"$context":"log"},{"$params":""}]}}},"seen":{"assign":{"log":{"$append":[{"$context":"log"},{"$event":"type"}]}}},"output":{"assign":{"log":{"$append":[{"$context":"log"},{"$event":"output"}]}}},"raise":{"raise":{"type":{"$params":""}}},"bye":{"sendTo":"parent","event":{"type":"BYE"}}}}"#;

const DONE: [Case; 7] = [
    Case {
        shows: "a final child raises its parent's done event with its output",
        machine: r#""initial":"a","context":{"log":[]},"states":{"a":{"initial":"b","onDone":{"target":"z","actions":"output"},"states":{"b":{"on":{"E":"c"}},"c":{"type":"final","output":7}}},"z":{}}"#,
        steps: &[
            ("null", r#"m.a.b {"log":[]} [xstate.init]"#),
            ("E", r#"m.z {"log":[7]} [E,xstate.done.state.m.a]"#),
        ],
    },
    Case {
        shows: "the output reads the context as the final node's entry actions leave it",
        machine: r#""initial":"a","context":{"log":[]},"states":{"a":{"initial":"b","onDone":{"target":"z","actions":"output"},"states":{"b":{"on":{"E":"c"}},"c":{"type":"final","entry":{"type":"log","params":"c"},"output":{"$len":{"$context":"log"}}}}},"z":{}}"#,
        steps: &[
            ("null", r#"m.a.b {"log":[]} [xstate.init]"#),
            ("E", r#"m.z {"log":["c",1]} [E,xstate.done.state.m.a]"#),
        ],
    },
    Case {
        shows: "a parallel node is done with the output null when all its regions are",
        machine: r#""initial":"p","context":{"log":[]},"states":{"p":{"type":"parallel","onDone":{"target":"z","actions":"output"},"states":{"x":{"initial":"a","states":{"a":{"on":{"X":"f"}},"f":{"type":"final","output":1}}},"y":{"initial":"a","states":{"a":{"on":{"Y":"f"}},"f":{"type":"final","output":2}}}}},"z":{}}"#,
        steps: &[
            ("null", r#"m.p.x.a,m.p.y.a {"log":[]} [xstate.init]"#),
            ("X", r#"m.p.x.f,m.p.y.a {"log":[]} [X]"#),
            ("Y", r#"m.z {"log":[null]} [Y,xstate.done.state.m.p]"#),
        ],
    },
    Case {
        shows: "done events are raised from the inside out, and in document order",
        machine: r#""initial":"p","context":{"log":[]},"on":{"*":{"actions":"seen"}},"states":{"p":{"type":"parallel","states":{"x":{"initial":"a","states":{"a":{"on":{"E":"f"}},"f":{"type":"final"}}},"y":{"initial":"a","states":{"a":{"on":{"E":"f"}},"f":{"type":"final"}}}}}}"#,
        steps: &[
            ("null", r#"m.p.x.a,m.p.y.a {"log":[]} [xstate.init]"#),
            (
                "E",
                r#"m.p.x.f,m.p.y.f {"log":["xstate.done.state.m.p.x","xstate.done.state.m.p.y","xstate.done.state.m.p"]} [E,xstate.done.state.m.p.x,xstate.done.state.m.p.y,xstate.done.state.m.p]"#,
            ),
        ],
    },
    Case {
        shows: "a parallel node whose last open region is itself final raises nothing",
        machine: r#""initial":"a","states":{"a":{"on":{"E":"p"}},"p":{"type":"parallel","onDone":"z","states":{"x":{"type":"final"},"y":{"type":"final"}}},"z":{}}"#,
        steps: &[
            ("null", "m.a {} [xstate.init]"),
            ("E", "m.p.x,m.p.y {} [E]"),
        ],
    },
    Case {
        shows: "a done compound child doesn't end its parent",
        machine: r#""initial":"a","states":{"a":{"initial":"b","onDone":"z","states":{"b":{"initial":"c","states":{"c":{"on":{"E":"f"}},"f":{"type":"final"}}}}},"z":{}}"#,
        steps: &[
            ("null", "m.a.b.c {} [xstate.init]"),
            ("E", "m.a.b.f {} [E]"),
        ],
    },
    Case {
        shows: "a done event may lead to a final node, whose done event follows",
        machine: r#""initial":"a","states":{"a":{"initial":"b","onDone":"z","states":{"b":{"initial":"c","onDone":"g","states":{"c":{"on":{"E":"f"}},"f":{"type":"final"}}},"g":{"type":"final"}}},"z":{}}"#,
        steps: &[
            ("null", "m.a.b.c {} [xstate.init]"),
            (
                "E",
                "m.z {} [E,xstate.done.state.m.a.b,xstate.done.state.m.a]",
            ),
        ],
    },
];

const ENDED: [Case; 8] = [
    Case {
        shows: "what is under `on` goes before `onDone`",
        machine: r#""initial":"a","states":{"a":{"initial":"b","onDone":"z","on":{"xstate.done.state.m.a":"y"},"states":{"b":{"on":{"E":"c"}},"c":{"type":"final"}}},"y":{},"z":{}}"#,
        steps: &[
            ("null", "m.a.b {} [xstate.init]"),
            ("E", "m.y {} [E,xstate.done.state.m.a]"),
        ],
    },
    Case {
        shows: "a final child of the root ends the machine with its output",
        machine: r#""initial":"a","output":{"$event":"output"},"states":{"a":{"on":{"E":"f"}},"f":{"type":"final","output":7}}"#,
        steps: &[("null", "m.a {} [xstate.init]"), ("E", "m.f {} [E] done 7")],
    },
    Case {
        shows: "the machine's output reads the root's done event",
        machine: r#""initial":"a","output":{"$event":"type"},"states":{"a":{"on":{"E":"f"}},"f":{"type":"final"}}"#,
        steps: &[
            ("null", "m.a {} [xstate.init]"),
            ("E", r#"m.f {} [E] done "xstate.done.state.m""#),
        ],
    },
    Case {
        shows: "a machine may be done in its first step",
        machine: r#""initial":"f","output":{"$event":"output"},"states":{"f":{"type":"final","output":7}}"#,
        steps: &[("null", "m.f {} [xstate.init] done 7")],
    },
    Case {
        shows: "at the end the exit actions of all active nodes run, the inner ones first",
        machine: r#""initial":"a","context":{"log":[]},"exit":{"type":"log","params":"m"},"states":{"a":{"on":{"E":"f"}},"f":{"type":"final","exit":[{"type":"log","params":"f"},"bye"]}}"#,
        steps: &[
            ("null", r#"m.a {"log":[]} [xstate.init]"#),
            (
                "E",
                r#"m.f {"log":["f","m"]} [E] send parent {"type":"BYE"} done null"#,
            ),
        ],
    },
    Case {
        shows: "the outputs read the context as the last exit actions leave it",
        machine: r#""initial":"a","context":{"log":[]},"output":{"$event":"output"},"states":{"a":{"on":{"E":"f"}},"f":{"type":"final","exit":{"type":"log","params":"f"},"output":{"$len":{"$context":"log"}}}}"#,
        steps: &[
            ("null", r#"m.a {"log":[]} [xstate.init]"#),
            ("E", r#"m.f {"log":["f"]} [E] done 1"#),
        ],
    },
    Case {
        shows: "a parallel root is done with the output null when all its regions are",
        machine: r#""type":"parallel","output":{"$event":"output"},"states":{"x":{"initial":"a","states":{"a":{"on":{"X":"f"}},"f":{"type":"final","output":1}}},"y":{"initial":"a","states":{"a":{"on":{"Y":"f"}},"f":{"type":"final","output":2}}}}"#,
        steps: &[
            ("null", "m.x.a,m.y.a {} [xstate.init]"),
            ("Y", "m.x.a,m.y.f {} [Y]"),
            ("X", "m.x.f,m.y.f {} [X] done null"),
        ],
    },
    Case {
        shows: "raised events that wait are dropped at the end",
        machine: r#""initial":"a","context":{"log":[]},"on":{"R":{"actions":"seen"}},"states":{"a":{"on":{"E":{"target":"f","actions":{"type":"raise","params":"R"}}}},"f":{"type":"final"}}"#,
        steps: &[
            ("null", r#"m.a {"log":[]} [xstate.init]"#),
            ("E", r#"m.f {"log":[]} [E] done null"#),
        ],
    },
];

const ORDER: [Case; 11] = [
    Case {
        shows: "raised events are taken in the order in which they were raised",
        machine: r#""context":{"log":[]},"on":{"E":{"actions":[{"type":"raise","params":"R"},{"type":"raise","params":"S"}]},"*":{"actions":"seen"}}"#,
        steps: &[
            ("null", r#"m {"log":[]} [xstate.init]"#),
            ("E", r#"m {"log":["R","S"]} [E,R,S]"#),
        ],
    },
    Case {
        shows: "what exits raise comes before what transitions raise, and that before what entries raise",
        machine: r#""initial":"a","context":{"log":[]},"on":{"*":{"actions":"seen"}},"states":{"a":{"exit":{"type":"raise","params":"X"},"on":{"E":{"target":"b","actions":{"type":"raise","params":"T"}}}},"b":{"entry":{"type":"raise","params":"N"}}}"#,
        steps: &[
            ("null", r#"m.a {"log":[]} [xstate.init]"#),
            ("E", r#"m.b {"log":["X","T","N"]} [E,X,T,N]"#),
        ],
    },
    Case {
        shows: "what a raised event raises waits behind those that wait already",
        machine: r#""context":{"log":[]},"on":{"E":{"actions":[{"type":"raise","params":"R"},{"type":"raise","params":"S"}]},"R":{"actions":["seen",{"type":"raise","params":"T"}]},"*":{"actions":"seen"}}"#,
        steps: &[
            ("null", r#"m {"log":[]} [xstate.init]"#),
            ("E", r#"m {"log":["R","S","T"]} [E,R,S,T]"#),
        ],
    },
    Case {
        shows: "a raised event that selects nothing makes no microstep",
        machine: r#""initial":"a","states":{"a":{"on":{"E":{"target":"b","actions":[{"type":"raise","params":"R"},{"type":"raise","params":"S"}]}}},"b":{"on":{"S":"c"}},"c":{}}"#,
        steps: &[("null", "m.a {} [xstate.init]"), ("E", "m.c {} [E,S]")],
    },
    Case {
        shows: "the first step takes what entry actions raise",
        machine: r#""initial":"a","entry":{"type":"raise","params":"R"},"states":{"a":{"on":{"R":"b"}},"b":{}}"#,
        steps: &[("null", "m.b {} [xstate.init,R]")],
    },
    Case {
        shows: "a transition without an event goes before a raised event",
        machine: r#""initial":"a","states":{"a":{"on":{"E":{"target":"b","actions":{"type":"raise","params":"R"}}}},"b":{"always":"c","on":{"R":"x"}},"c":{"on":{"R":"y"}},"x":{},"y":{}}"#,
        steps: &[("null", "m.a {} [xstate.init]"), ("E", "m.y {} [E,E,R]")],
    },
    Case {
        shows: "guards without an event read the event that was taken last",
        machine: r#""initial":"a","context":{"log":[]},"states":{"a":{"on":{"E":{"target":"b","actions":{"type":"raise","params":"R"}}}},"b":{"always":{"target":"c","guard":{"type":"is","params":"R"}}},"c":{"entry":"seen"}}"#,
        steps: &[
            ("null", r#"m.a {"log":[]} [xstate.init]"#),
            ("E", r#"m.c {"log":["R"]} [E,R]"#),
        ],
    },
    Case {
        shows: "the first step takes transitions without an event, which read the event that begins it",
        machine: r#""initial":"a","context":{"log":[]},"states":{"a":{"always":"b"},"b":{"entry":"seen"}}"#,
        steps: &[(
            "null",
            r#"m.b {"log":["xstate.init"]} [xstate.init,xstate.init]"#,
        )],
    },
    Case {
        shows: "regions take transitions without an event in one microstep",
        machine: r#""type":"parallel","states":{"x":{"initial":"a","states":{"a":{"always":"b"},"b":{}}},"y":{"initial":"a","states":{"a":{"always":"b"},"b":{}}}}"#,
        steps: &[("null", "m.x.b,m.y.b {} [xstate.init,xstate.init]")],
    },
    Case {
        shows: "an inner node's transition without an event goes before an outer one's",
        machine: r#""initial":"a","context":{"log":[]},"states":{"a":{"initial":"b","always":{"target":"z","actions":{"type":"log","params":"a"}},"states":{"b":{"always":{"target":"c","actions":{"type":"log","params":"b"}}},"c":{}}},"z":{}}"#,
        steps: &[(
            "null",
            r#"m.z {"log":["b","a"]} [xstate.init,xstate.init,xstate.init]"#,
        )],
    },
    Case {
        shows: "an event that selects nothing still lets transitions without an event be taken",
        machine: r#""initial":"a","states":{"a":{"always":{"target":"b","guard":{"type":"is","params":"E"}}},"b":{}}"#,
        steps: &[
            ("null", "m.a {} [xstate.init]"),
            ("F", "m.a {} []"),
            ("E", "m.b {} [E]"),
        ],
    },
];

#[test]
fn raises_done_events(rt: HostRuntime) -> Result<(), Fail> {
    follow_all(&rt, rt.alloc(), TABLE, DONE.as_slice())
}

#[test]
fn ends_machines(rt: HostRuntime) -> Result<(), Fail> {
    follow_all(&rt, rt.alloc(), TABLE, ENDED.as_slice())
}

#[test]
fn takes_raised_and_eventless_in_order(rt: HostRuntime) -> Result<(), Fail> {
    follow_all(&rt, rt.alloc(), TABLE, ORDER.as_slice())
}
