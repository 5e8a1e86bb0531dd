//! Which transitions an event takes, and which fault a selection has.

use super::{Case, follow_all};
use std::test::Fail;

/// Guards, and an action that logs its params.
const TABLE: &str =
    r#"{"guards":{"yes":true,"no":false,"missing":{"$context":"gone"},"number":1},"actions":{"log":{"assign":{"log":{"$append":[{"$context":"log"},{"$params":""}]}}}}}"#;

const TAKEN: [Case; 19] = [
    Case {
        shows: "an inner node's transition wins over its parent's",
        machine: r#""initial":"a","states":{"a":{"initial":"b","on":{"E":"z"},"states":{"b":{"on":{"E":"c"}},"c":{}}},"z":{}}"#,
        steps: &[
            ("null", "m.a.b {} [xstate.init]"),
            ("E", "m.a.c {} [E]"),
            ("E", "m.z {} [E]"),
        ],
    },
    Case {
        shows: "the first transition in the order of the text wins",
        machine: r#""initial":"a","states":{"a":{"on":{"E":[{"target":"b"},{"target":"c"}]}},"b":{},"c":{}}"#,
        steps: &[("null", "m.a {} [xstate.init]"), ("E", "m.b {} [E]")],
    },
    Case {
        shows: "a transition whose guard doesn't hold is passed over",
        machine: r#""initial":"a","states":{"a":{"on":{"E":[{"target":"b","guard":"no"},{"target":"c","guard":"yes"}]}},"b":{},"c":{}}"#,
        steps: &[("null", "m.a {} [xstate.init]"), ("E", "m.c {} [E]")],
    },
    Case {
        shows: "an outer node is asked where the inner one's guard doesn't hold",
        machine: r#""initial":"a","states":{"a":{"initial":"b","on":{"E":"z"},"states":{"b":{"on":{"E":{"target":"c","guard":"no"}}},"c":{}}},"z":{}}"#,
        steps: &[("null", "m.a.b {} [xstate.init]"), ("E", "m.z {} [E]")],
    },
    Case {
        shows: "the equal descriptor goes before a wildcard that stands earlier",
        machine: r#""initial":"a","states":{"a":{"on":{"*":"b","E":"c"}},"b":{},"c":{}}"#,
        steps: &[("null", "m.a {} [xstate.init]"), ("E", "m.c {} [E]")],
    },
    Case {
        shows: "a longer partial wildcard goes before a shorter one, and that before the star",
        machine: r#""initial":"a","states":{"a":{"on":{"*":"b","x.*":"c","x.y.*":"d"}},"b":{"on":{"x.*":"a"}},"c":{"on":{"*":"a"}},"d":{"on":{"*":"a"}}}"#,
        steps: &[
            ("null", "m.a {} [xstate.init]"),
            ("x.y.z", "m.d {} [x.y.z]"),
            ("R", "m.a {} [R]"),
            ("x.z", "m.c {} [x.z]"),
            ("R", "m.a {} [R]"),
            ("z", "m.b {} [z]"),
            ("x", "m.a {} [x]"),
        ],
    },
    Case {
        shows: "a partial wildcard matches what stands before its dot, and no longer word",
        machine: r#""initial":"a","states":{"a":{"on":{"x.*":"b"}},"b":{}}"#,
        steps: &[
            ("null", "m.a {} [xstate.init]"),
            ("xy", "m.a {} []"),
            ("x", "m.b {} [x]"),
        ],
    },
    Case {
        shows: "a wildcard is taken where the equal descriptor's guard doesn't hold",
        machine: r#""initial":"a","states":{"a":{"on":{"x.y":{"target":"b","guard":"no"},"x.*":"c"}},"b":{},"c":{}}"#,
        steps: &[("null", "m.a {} [xstate.init]"), ("x.y", "m.c {} [x.y]")],
    },
    Case {
        shows: "a star matches events that the machine makes",
        machine: r#""initial":"a","states":{"a":{"initial":"b","on":{"*":"z"},"states":{"b":{"on":{"E":"c"}},"c":{"type":"final"}}},"z":{}}"#,
        steps: &[
            ("null", "m.a.b {} [xstate.init]"),
            ("E", "m.z {} [E,xstate.done.state.m.a]"),
        ],
    },
    Case {
        shows: "an empty transition is taken, and keeps the outer one from it",
        machine: r#""initial":"a","states":{"a":{"initial":"b","on":{"E":"z"},"states":{"b":{"on":{"E":{}}}}},"z":{}}"#,
        steps: &[("null", "m.a.b {} [xstate.init]"), ("E", "m.a.b {} [E]")],
    },
    Case {
        shows: "an event that selects nothing makes no microstep",
        machine: r#""initial":"a","states":{"a":{"on":{"E":"b"}},"b":{}}"#,
        steps: &[("null", "m.a {} [xstate.init]"), ("F", "m.a {} []")],
    },
    Case {
        shows: "of two transitions that leave a common node the earlier one stays",
        machine: r##""initial":"p","states":{"p":{"type":"parallel","states":{"x":{"initial":"a","states":{"a":{"on":{"E":"#m.out"}}}},"y":{"initial":"a","states":{"a":{"on":{"E":"b"}},"b":{}}}}},"out":{}}"##,
        steps: &[
            ("null", "m.p.x.a,m.p.y.a {} [xstate.init]"),
            ("E", "m.out {} [E]"),
        ],
    },
    Case {
        shows: "transitions of two regions are both taken where neither leaves the other's nodes",
        machine: r#""type":"parallel","context":{"log":[]},"states":{"x":{"initial":"a","states":{"a":{"on":{"E":{"target":"b","actions":{"type":"log","params":"x"}}}},"b":{}}},"y":{"initial":"a","states":{"a":{"on":{"E":{"target":"b","actions":{"type":"log","params":"y"}}}},"b":{}}}}"#,
        steps: &[
            ("null", r#"m.x.a,m.y.a {"log":[]} [xstate.init]"#),
            ("E", r#"m.x.b,m.y.b {"log":["x","y"]} [E]"#),
        ],
    },
    Case {
        shows: "a parallel node isn't asked while one of its regions takes the event",
        machine: r#""initial":"p","states":{"p":{"type":"parallel","on":{"E":"z"},"states":{"x":{"initial":"a","states":{"a":{"on":{"E":"b"}},"b":{}}},"y":{}}},"z":{}}"#,
        steps: &[
            ("null", "m.p.x.a,m.p.y {} [xstate.init]"),
            ("E", "m.p.x.b,m.p.y {} [E]"),
            ("E", "m.z {} [E]"),
        ],
    },
    Case {
        shows: "a region is asked whatever the nodes of other regions take",
        machine: r#""type":"parallel","states":{"x":{"initial":"a","states":{"a":{"on":{"E":"b"}},"b":{}}},"y":{"initial":"c","on":{"E":".d"},"states":{"c":{},"d":{}}}}"#,
        steps: &[
            ("null", "m.x.a,m.y.c {} [xstate.init]"),
            ("E", "m.x.b,m.y.d {} [E]"),
        ],
    },
    Case {
        shows: "the root's transition is taken where no node below it has one",
        machine: r#""initial":"a","on":{"E":".b"},"states":{"a":{},"b":{}}"#,
        steps: &[("null", "m.a {} [xstate.init]"), ("E", "m.b {} [E]")],
    },
    Case {
        shows: "a guard reads which nodes are active when it is asked",
        machine: r##""type":"parallel","states":{"x":{"initial":"a","states":{"a":{"on":{"E":{"target":"b","guard":{"stateIn":"#m.y.d"}}}},"b":{}}},"y":{"initial":"c","states":{"c":{"on":{"F":"d"}},"d":{}}}}"##,
        steps: &[
            ("null", "m.x.a,m.y.c {} [xstate.init]"),
            ("E", "m.x.a,m.y.c {} []"),
            ("F", "m.x.a,m.y.d {} [F]"),
            ("E", "m.x.b,m.y.d {} [E]"),
        ],
    },
    Case {
        shows: "`and` and `not` hold by what they join",
        machine: r#""initial":"a","states":{"a":{"on":{"E":{"target":"b","guard":{"and":["yes",{"not":"yes"}]}},"F":{"target":"b","guard":{"and":["yes",{"not":"no"}]}}}},"b":{}}"#,
        steps: &[
            ("null", "m.a {} [xstate.init]"),
            ("E", "m.a {} []"),
            ("F", "m.b {} [F]"),
        ],
    },
    Case {
        shows: "`or` stops at the part that decides, before a fault",
        machine: r#""initial":"a","states":{"a":{"on":{"E":{"target":"b","guard":{"or":["yes","missing"]}}}},"b":{}}"#,
        steps: &[("null", "m.a {} [xstate.init]"), ("E", "m.b {} [E]")],
    },
];

const FAULTS: [Case; 6] = [
    Case {
        shows: "a guard's fault ends the actor in error",
        machine: r#""initial":"a","states":{"a":{"on":{"E":{"target":"b","guard":"missing"}}},"b":{}}"#,
        steps: &[
            ("null", "m.a {} [xstate.init]"),
            ("E", r#"m.a {} [] error {"fault":"Missing"}"#),
        ],
    },
    Case {
        shows: "a guard that is no truth value is a fault",
        machine: r#""initial":"a","states":{"a":{"on":{"E":{"target":"b","guard":"number"}}},"b":{}}"#,
        steps: &[
            ("null", "m.a {} [xstate.init]"),
            ("E", r#"m.a {} [] error {"fault":"Kind"}"#),
        ],
    },
    Case {
        shows: "a fault behind the transition that is taken is never met",
        machine: r#""initial":"a","states":{"a":{"on":{"E":["b",{"target":"a","guard":"missing"}]}},"b":{}}"#,
        steps: &[("null", "m.a {} [xstate.init]"), ("E", "m.b {} [E]")],
    },
    Case {
        shows: "a fault of an outer node is never met where an inner one takes the event",
        machine: r#""initial":"a","on":{"E":{"guard":"missing"}},"states":{"a":{"on":{"E":"b"}},"b":{}}"#,
        steps: &[("null", "m.a {} [xstate.init]"), ("E", "m.b {} [E]")],
    },
    Case {
        shows: "of two faults that of the node that stands later counts",
        machine: r#""type":"parallel","states":{"x":{"on":{"E":{"guard":"missing"}}},"y":{"on":{"E":{"guard":"number"}}}}"#,
        steps: &[
            ("null", "m.x,m.y {} [xstate.init]"),
            ("E", r#"m.x,m.y {} [] error {"fault":"Kind"}"#),
        ],
    },
    Case {
        shows: "a fault of a guard without an event ends the actor too",
        machine: r#""initial":"a","states":{"a":{"on":{"E":"b"}},"b":{"always":{"target":"a","guard":"missing"}}}"#,
        steps: &[
            ("null", "m.a {} [xstate.init]"),
            ("E", r#"m.a {} [] error {"fault":"Missing"}"#),
        ],
    },
];

#[test]
fn takes_what_is_selected(rt: HostRuntime) -> Result<(), Fail> {
    follow_all(&rt, rt.alloc(), TABLE, TAKEN.as_slice())
}

#[test]
fn faults_of_selection(rt: HostRuntime) -> Result<(), Fail> {
    follow_all(&rt, rt.alloc(), TABLE, FAULTS.as_slice())
}
