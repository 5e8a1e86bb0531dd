//! Which nodes are left and entered in which order, and what history nodes remember.

use super::{Case, follow_all};
use std::test::Fail;

/// An action that logs its params.
const TABLE: &str =
    r#"{"actions":{"log":{"assign":{"log":{"$append":[{"$context":"log"},{"$params":""}]}}}}}"#;

const ENTERED: [Case; 12] = [
    Case {
        shows: "a compound target is entered down to a leaf by its initial child",
        machine: r#""initial":"a","states":{"a":{"on":{"E":"b"}},"b":{"initial":"d","states":{"c":{},"d":{"initial":"e","states":{"e":{}}}}}}"#,
        steps: &[("null", "m.a {} [xstate.init]"), ("E", "m.b.d.e {} [E]")],
    },
    Case {
        shows: "a parallel target is entered in all its regions",
        machine: r#""initial":"a","states":{"a":{"on":{"E":"p"}},"p":{"type":"parallel","states":{"x":{},"y":{"initial":"q","states":{"q":{}}}}}}"#,
        steps: &[
            ("null", "m.a {} [xstate.init]"),
            ("E", "m.p.x,m.p.y.q {} [E]"),
        ],
    },
    Case {
        shows: "a target in one region enters the others by default",
        machine: r##""initial":"a","states":{"a":{"on":{"E":"#m.p.y.r"}},"p":{"type":"parallel","states":{"x":{"initial":"q","states":{"q":{},"r":{}}},"y":{"initial":"q","states":{"q":{},"r":{}}}}}}"##,
        steps: &[
            ("null", "m.a {} [xstate.init]"),
            ("E", "m.p.x.q,m.p.y.r {} [E]"),
        ],
    },
    Case {
        shows: "targets in two regions are both entered",
        machine: r##""initial":"a","states":{"a":{"on":{"E":{"target":["#m.p.y.r","#m.p.x.r"]}}},"p":{"type":"parallel","states":{"x":{"initial":"q","states":{"q":{},"r":{}}},"y":{"initial":"q","states":{"q":{},"r":{}}}}}}"##,
        steps: &[
            ("null", "m.a {} [xstate.init]"),
            ("E", "m.p.x.r,m.p.y.r {} [E]"),
        ],
    },
    Case {
        shows: "the nodes above a target are entered, and not their initial children",
        machine: r##""initial":"a","context":{"log":[]},"states":{"a":{"on":{"E":"#m.b.c.d"}},"b":{"initial":"o","entry":{"type":"log","params":"b"},"states":{"o":{"entry":{"type":"log","params":"o"}},"c":{"initial":"p","entry":{"type":"log","params":"c"},"states":{"p":{},"d":{"entry":{"type":"log","params":"d"}}}}}}}"##,
        steps: &[
            ("null", r#"m.a {"log":[]} [xstate.init]"#),
            ("E", r#"m.b.c.d {"log":["b","c","d"]} [E]"#),
        ],
    },
    Case {
        shows: "the first step enters the root and then its initial child",
        machine: r#""initial":"a","context":{"log":[]},"entry":{"type":"log","params":"m"},"states":{"a":{"entry":{"type":"log","params":"a"}}}"#,
        steps: &[("null", r#"m.a {"log":["m","a"]} [xstate.init]"#)],
    },
    Case {
        shows: "entry actions run from the outside in, and in document order",
        machine: r#""initial":"a","context":{"log":[]},"states":{"a":{"on":{"E":"p"}},"p":{"type":"parallel","entry":{"type":"log","params":"p"},"states":{"x":{"entry":{"type":"log","params":"x"},"initial":"q","states":{"q":{"entry":{"type":"log","params":"q"}}}},"y":{"entry":{"type":"log","params":"y"}}}}}"#,
        steps: &[
            ("null", r#"m.a {"log":[]} [xstate.init]"#),
            ("E", r#"m.p.x.q,m.p.y {"log":["p","x","q","y"]} [E]"#),
        ],
    },
    Case {
        shows: "exit actions run from the inside out, before the transition's, and those before entries",
        machine: r##""initial":"a","context":{"log":[]},"states":{"a":{"exit":{"type":"log","params":"-a"},"initial":"b","states":{"b":{"exit":{"type":"log","params":"-b"},"on":{"E":{"target":"#m.c","actions":{"type":"log","params":"E"}}}}}},"c":{"entry":{"type":"log","params":"+c"}}}"##,
        steps: &[
            ("null", r#"m.a.b {"log":[]} [xstate.init]"#),
            ("E", r#"m.c {"log":["-b","-a","E","+c"]} [E]"#),
        ],
    },
    Case {
        shows: "regions are left in reverse document order",
        machine: r#""initial":"p","context":{"log":[]},"states":{"p":{"type":"parallel","on":{"E":"a"},"states":{"x":{"exit":{"type":"log","params":"x"}},"y":{"exit":{"type":"log","params":"y"}}}},"a":{}}"#,
        steps: &[
            ("null", r#"m.p.x,m.p.y {"log":[]} [xstate.init]"#),
            ("E", r#"m.a {"log":["y","x"]} [E]"#),
        ],
    },
    Case {
        shows: "all nodes are left before any transition acts, and all act before any node is entered",
        machine: r#""type":"parallel","context":{"log":[]},"states":{"x":{"initial":"a","states":{"a":{"exit":{"type":"log","params":"-x"},"on":{"E":{"target":"b","actions":{"type":"log","params":"x"}}}},"b":{"entry":{"type":"log","params":"+x"}}}},"y":{"initial":"a","states":{"a":{"exit":{"type":"log","params":"-y"},"on":{"E":{"target":"b","actions":{"type":"log","params":"y"}}}},"b":{"entry":{"type":"log","params":"+y"}}}}}"#,
        steps: &[
            ("null", r#"m.x.a,m.y.a {"log":[]} [xstate.init]"#),
            (
                "E",
                r#"m.x.b,m.y.b {"log":["-y","-x","x","y","+x","+y"]} [E]"#,
            ),
        ],
    },
    Case {
        shows: "a transition between regions leaves and enters all of them",
        machine: r##""initial":"p","context":{"log":[]},"states":{"p":{"type":"parallel","entry":{"type":"log","params":"p"},"states":{"x":{"entry":{"type":"log","params":"x"},"initial":"a","states":{"a":{"on":{"E":"#m.p.y.b"}}}},"y":{"entry":{"type":"log","params":"y"},"initial":"a","states":{"a":{},"b":{}}}}}}"##,
        steps: &[
            (
                "null",
                r#"m.p.x.a,m.p.y.a {"log":["p","x","y"]} [xstate.init]"#,
            ),
            ("E", r#"m.p.x.a,m.p.y.b {"log":["p","x","y","x","y"]} [E]"#),
        ],
    },
    Case {
        shows: "a transition to the root enters its initial child, and not the root",
        machine: r##""initial":"a","context":{"log":[]},"entry":{"type":"log","params":"m"},"states":{"a":{"on":{"N":"b"}},"b":{"on":{"E":"#m"}}}"##,
        steps: &[
            ("null", r#"m.a {"log":["m"]} [xstate.init]"#),
            ("N", r#"m.b {"log":["m"]} [N]"#),
            ("E", r#"m.a {"log":["m"]} [E]"#),
        ],
    },
];

const INTERNAL: [Case; 9] = [
    Case {
        shows: "a transition to its own source doesn't leave it",
        machine: r#""initial":"a","context":{"log":[]},"states":{"a":{"entry":{"type":"log","params":"a"},"on":{"E":"a"}}}"#,
        steps: &[
            ("null", r#"m.a {"log":["a"]} [xstate.init]"#),
            ("E", r#"m.a {"log":["a"]} [E]"#),
        ],
    },
    Case {
        shows: "a reentering transition to its own source leaves and enters it",
        machine: r#""initial":"a","context":{"log":[]},"states":{"a":{"entry":{"type":"log","params":"a"},"exit":{"type":"log","params":"-a"},"on":{"E":{"target":"a","reenter":true}}}}"#,
        steps: &[
            ("null", r#"m.a {"log":["a"]} [xstate.init]"#),
            ("E", r#"m.a {"log":["a","-a","a"]} [E]"#),
        ],
    },
    Case {
        shows: "a compound node that targets itself goes back to its initial child, and isn't left",
        machine: r#""initial":"a","context":{"log":[]},"states":{"a":{"entry":{"type":"log","params":"a"},"initial":"b","on":{"E":"a"},"states":{"b":{"on":{"N":"c"}},"c":{}}}}"#,
        steps: &[
            ("null", r#"m.a.b {"log":["a"]} [xstate.init]"#),
            ("N", r#"m.a.c {"log":["a"]} [N]"#),
            ("E", r#"m.a.b {"log":["a"]} [E]"#),
        ],
    },
    Case {
        shows: "a transition to a child leaves the active child, and keeps the source",
        machine: r#""initial":"a","context":{"log":[]},"states":{"a":{"entry":{"type":"log","params":"a"},"initial":"b","on":{"E":".c"},"states":{"b":{"exit":{"type":"log","params":"-b"}},"c":{}}}}"#,
        steps: &[
            ("null", r#"m.a.b {"log":["a"]} [xstate.init]"#),
            ("E", r#"m.a.c {"log":["a","-b"]} [E]"#),
        ],
    },
    Case {
        shows: "a reentering transition to a child enters the source again",
        machine: r#""initial":"a","context":{"log":[]},"states":{"a":{"entry":{"type":"log","params":"a"},"initial":"b","on":{"E":{"target":".c","reenter":true}},"states":{"b":{},"c":{}}}}"#,
        steps: &[
            ("null", r#"m.a.b {"log":["a"]} [xstate.init]"#),
            ("E", r#"m.a.c {"log":["a","a"]} [E]"#),
        ],
    },
    Case {
        shows: "a reentering transition of the root leaves and enters the root",
        machine: r#""initial":"a","context":{"log":[]},"entry":{"type":"log","params":"m"},"exit":{"type":"log","params":"-m"},"on":{"E":{"target":".b","reenter":true}},"states":{"a":{},"b":{}}"#,
        steps: &[
            ("null", r#"m.a {"log":["m"]} [xstate.init]"#),
            ("E", r#"m.b {"log":["m","-m","m"]} [E]"#),
        ],
    },
    Case {
        shows: "a transition without a target leaves nothing",
        machine: r#""initial":"a","context":{"log":[]},"states":{"a":{"exit":{"type":"log","params":"-a"},"on":{"E":{"actions":{"type":"log","params":"E"}}}}}"#,
        steps: &[
            ("null", r#"m.a {"log":[]} [xstate.init]"#),
            ("E", r#"m.a {"log":["E"]} [E]"#),
        ],
    },
    Case {
        shows: "a transition without a target leaves nothing, though it reenters",
        machine: r#""initial":"a","context":{"log":[]},"states":{"a":{"exit":{"type":"log","params":"-a"},"on":{"E":{"reenter":true,"actions":{"type":"log","params":"E"}}}}}"#,
        steps: &[
            ("null", r#"m.a {"log":[]} [xstate.init]"#),
            ("E", r#"m.a {"log":["E"]} [E]"#),
        ],
    },
    Case {
        shows: "a transition to a sibling keeps their parent",
        machine: r#""initial":"a","context":{"log":[]},"states":{"a":{"entry":{"type":"log","params":"a"},"initial":"b","states":{"b":{"on":{"E":"c"}},"c":{}}}}"#,
        steps: &[
            ("null", r#"m.a.b {"log":["a"]} [xstate.init]"#),
            ("E", r#"m.a.c {"log":["a"]} [E]"#),
        ],
    },
];

const RECORDED: [Case; 11] = [
    Case {
        shows: "shallow history enters the recorded child, and that by default",
        machine: r##""initial":"a","states":{"a":{"initial":"b","on":{"O":"z"},"states":{"b":{"on":{"N":"c"}},"c":{"initial":"d","states":{"d":{"on":{"N":"e"}},"e":{}}},"h":{"type":"history"}}},"z":{"on":{"S":"#m.a.h"}}}"##,
        steps: &[
            ("null", "m.a.b {} [xstate.init]"),
            ("N", "m.a.c.d {} [N]"),
            ("N", "m.a.c.e {} [N]"),
            ("O", "m.z {} [O]"),
            ("S", "m.a.c.d {} [S]"),
        ],
    },
    Case {
        shows: "deep history enters the recorded leaves",
        machine: r##""initial":"a","states":{"a":{"initial":"b","on":{"O":"z"},"states":{"b":{"on":{"N":"c"}},"c":{"initial":"d","states":{"d":{"on":{"N":"e"}},"e":{}}},"h":{"history":"deep"}}},"z":{"on":{"S":"#m.a.h"}}}"##,
        steps: &[
            ("null", "m.a.b {} [xstate.init]"),
            ("N", "m.a.c.d {} [N]"),
            ("N", "m.a.c.e {} [N]"),
            ("O", "m.z {} [O]"),
            ("S", "m.a.c.e {} [S]"),
        ],
    },
    Case {
        shows: "history without a record enters its target",
        machine: r##""initial":"z","states":{"a":{"initial":"b","states":{"b":{},"c":{},"h":{"history":true,"target":"c"}}},"z":{"on":{"S":"#m.a.h"}}}"##,
        steps: &[("null", "m.z {} [xstate.init]"), ("S", "m.a.c {} [S]")],
    },
    Case {
        shows: "history without a record enters a target deep below",
        machine: r##""initial":"z","states":{"a":{"initial":"b","states":{"b":{},"c":{"initial":"d","states":{"d":{},"e":{}}},"h":{"type":"history","target":"c.e"}}},"z":{"on":{"S":"#m.a.h"}}}"##,
        steps: &[("null", "m.z {} [xstate.init]"), ("S", "m.a.c.e {} [S]")],
    },
    Case {
        shows: "history without a record and a target enters its parent by default",
        machine: r##""initial":"z","states":{"a":{"initial":"b","states":{"b":{},"c":{},"h":{"history":"deep"}}},"z":{"on":{"S":"#m.a.h"}}}"##,
        steps: &[("null", "m.z {} [xstate.init]"), ("S", "m.a.b {} [S]")],
    },
    Case {
        shows: "a record goes before the history node's target",
        machine: r##""initial":"a","states":{"a":{"initial":"b","on":{"O":"z"},"states":{"b":{},"c":{},"h":{"type":"history","target":"c"}}},"z":{"on":{"S":"#m.a.h"}}}"##,
        steps: &[
            ("null", "m.a.b {} [xstate.init]"),
            ("O", "m.z {} [O]"),
            ("S", "m.a.b {} [S]"),
        ],
    },
    Case {
        shows: "each time that the parent is left a new record replaces the old one",
        machine: r##""initial":"a","states":{"a":{"initial":"b","on":{"O":"z"},"states":{"b":{"on":{"N":"c"}},"c":{"on":{"N":"d"}},"d":{},"h":{"type":"history"}}},"z":{"on":{"S":"#m.a.h"}}}"##,
        steps: &[
            ("null", "m.a.b {} [xstate.init]"),
            ("N", "m.a.c {} [N]"),
            ("O", "m.z {} [O]"),
            ("S", "m.a.c {} [S]"),
            ("N", "m.a.d {} [N]"),
            ("O", "m.z {} [O]"),
            ("S", "m.a.d {} [S]"),
        ],
    },
    Case {
        shows: "deep history of a parallel node enters each region's recorded leaf",
        machine: r##""initial":"p","states":{"p":{"type":"parallel","on":{"O":"z"},"states":{"x":{"initial":"a","states":{"a":{"on":{"X":"b"}},"b":{}}},"y":{"initial":"a","states":{"a":{"on":{"Y":"b"}},"b":{}}},"h":{"history":"deep"}}},"z":{"on":{"S":"#m.p.h"}}}"##,
        steps: &[
            ("null", "m.p.x.a,m.p.y.a {} [xstate.init]"),
            ("Y", "m.p.x.a,m.p.y.b {} [Y]"),
            ("O", "m.z {} [O]"),
            ("S", "m.p.x.a,m.p.y.b {} [S]"),
        ],
    },
    Case {
        shows: "shallow history of a parallel node enters its regions by default",
        machine: r##""initial":"p","states":{"p":{"type":"parallel","on":{"O":"z"},"states":{"x":{"initial":"a","states":{"a":{},"b":{}}},"y":{"initial":"a","states":{"a":{"on":{"Y":"b"}},"b":{}}},"h":{"type":"history"}}},"z":{"on":{"S":"#m.p.h"}}}"##,
        steps: &[
            ("null", "m.p.x.a,m.p.y.a {} [xstate.init]"),
            ("Y", "m.p.x.a,m.p.y.b {} [Y]"),
            ("O", "m.z {} [O]"),
            ("S", "m.p.x.a,m.p.y.a {} [S]"),
        ],
    },
    Case {
        shows: "a microstep enters what it records itself",
        machine: r#""initial":"a","states":{"a":{"initial":"b","on":{"R":{"target":".h","reenter":true}},"states":{"b":{"on":{"N":"c"}},"c":{},"h":{"type":"history"}}}}"#,
        steps: &[
            ("null", "m.a.b {} [xstate.init]"),
            ("N", "m.a.c {} [N]"),
            ("R", "m.a.c {} [R]"),
        ],
    },
    Case {
        shows: "nothing is recorded where the history node's parent isn't left",
        machine: r#""initial":"a","states":{"a":{"initial":"b","states":{"b":{"on":{"N":"c"}},"c":{"on":{"R":"h"}},"h":{"type":"history"}}}}"#,
        steps: &[
            ("null", "m.a.b {} [xstate.init]"),
            ("N", "m.a.c {} [N]"),
            ("R", "m.a.b {} [R]"),
        ],
    },
];

#[test]
fn leaves_and_enters(rt: HostRuntime) -> Result<(), Fail> {
    follow_all(&rt, rt.alloc(), TABLE, ENTERED.as_slice())?;
    follow_all(&rt, rt.alloc(), TABLE, INTERNAL.as_slice())
}

#[test]
fn remembers(rt: HostRuntime) -> Result<(), Fail> {
    follow_all(&rt, rt.alloc(), TABLE, RECORDED.as_slice())
}
