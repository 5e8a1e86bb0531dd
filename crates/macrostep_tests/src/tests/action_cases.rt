//! What actions, timers and invocations do: the context, the effects, the children, and their
//! faults.

use super::{Case, follow_all};
use std::test::Fail;

/// An action of each form. `kid` is the actor 0, and `other` the actor 1.
const TABLE: &str =
    r#"{"delays":{"soon":{"$context":"wait"}},"actors":{"kid":{"promise":{}},"other":{"promise":{}}},"actions":{"log":{"assign":{"log":{"$append":[{"$context":"log"},{"$params":""}]}}},"swap":{"assign":{"a":{"$context":"b"},"b":{"$context":"a"}}},"count":{"enqueueActions":[{"assign":{"log":[1]}},{"if":{"$eq":[{"$len":{"$context":"log"}},0]},"then":[{"assign":{"log":{"$append":[{"$context":"log"},2]}}}],"else":[{"assign":{"log":[3]}}]}]},"boom":{"assign":{"x":{"$div":[1,0]}}},"tell":{"sendTo":"parent","event":{"type":{"$params":""}}},"me":{"sendTo":"self","event":{"type":"ME"}},"desk":{"sendTo":{"system":"desk"},"event":{"type":"D"},"delay":5},"ask":{"sendTo":{"child":"k"},"event":{"type":"ASK"}},"later":{"raise":{"type":"R"},"delay":{"$params":""},"id":"t"},"cancel":{"cancel":{"$params":""}},"spawn":{"spawnChild":"kid"},"spawn_k":{"spawnChild":"other","id":"k","input":{"n":1},"systemId":"desk"},"stop":{"stopChild":{"$params":""}},"reserved":{"raise":{"type":"xstate.x"}},"list":{"raise":[1]},"untyped":{"raise":{"type":1}}}}"#;

const NODES: [Case; 9] = [
    Case {
        shows: "entering a node starts its timers, and leaving it cancels them",
        machine: r#""initial":"a","states":{"a":{"after":{"100":"b"}},"b":{}}"#,
        steps: &[
            (
                "null",
                r#"m.a {} [xstate.init] schedule xstate.after.100.m.a 100 self {"type":"xstate.after.100.m.a"}"#,
            ),
            (
                "xstate.after.100.m.a",
                "m.b {} [xstate.after.100.m.a] cancel xstate.after.100.m.a",
            ),
        ],
    },
    Case {
        shows: "a delay by name reads the context when the node is entered",
        machine: r#""initial":"a","context":{"wait":7},"states":{"a":{"after":{"soon":"b"}},"b":{}}"#,
        steps: &[(
            "null",
            r#"m.a {"wait":7} [xstate.init] schedule xstate.after.soon.m.a 7 self {"type":"xstate.after.soon.m.a"}"#,
        )],
    },
    Case {
        shows: "an invocation starts a child when its node is entered, and stops it when it is left",
        machine: r#""initial":"a","states":{"a":{"invoke":{"src":"kid"},"on":{"E":"b"}},"b":{}}"#,
        steps: &[
            (
                "null",
                "m.a {} children 0.m.a [xstate.init] spawn 0.m.a 0 null -",
            ),
            ("E", "m.b {} [E] stop 0.m.a"),
        ],
    },
    Case {
        shows: "an invocation gives its child an id, an input and a system name, and hears of its end",
        machine: r#""initial":"a","context":{"n":3},"states":{"a":{"invoke":{"src":"other","id":"k","input":{"n":{"$context":"n"}},"systemId":"desk","onDone":"b"}},"b":{}}"#,
        steps: &[
            (
                "null",
                r#"m.a {"n":3} children k [xstate.init] spawn k 1 {"n":3} desk"#,
            ),
            (
                r#"{"type":"xstate.done.actor.k","actorId":"k","output":1}"#,
                r#"m.b {"n":3} [xstate.done.actor.k] stop k"#,
            ),
        ],
    },
    Case {
        shows: "an observed child's snapshots are events of its invocation",
        machine: r#""initial":"a","states":{"a":{"invoke":{"src":"kid","id":"k","onSnapshot":{"actions":{"type":"tell","params":"S"}}}}}"#,
        steps: &[
            ("null", "m.a {} children k [xstate.init] spawn k 0 null -"),
            (
                "xstate.snapshot.k",
                r#"m.a {} children k [xstate.snapshot.k] send parent {"type":"S"}"#,
            ),
        ],
    },
    Case {
        shows: "a reentered node starts its invocation again",
        machine: r#""initial":"a","states":{"a":{"invoke":{"src":"kid"},"on":{"E":{"target":"a","reenter":true}}}}"#,
        steps: &[
            (
                "null",
                "m.a {} children 0.m.a [xstate.init] spawn 0.m.a 0 null -",
            ),
            (
                "E",
                "m.a {} children 0.m.a [E] stop 0.m.a spawn 0.m.a 0 null -",
            ),
        ],
    },
    Case {
        shows: "leaving a node stops no invoked child that is stopped already",
        machine: r#""initial":"a","states":{"a":{"invoke":{"src":"kid","id":"k"},"on":{"S":{"actions":{"type":"stop","params":"k"}},"E":"b"}},"b":{}}"#,
        steps: &[
            ("null", "m.a {} children k [xstate.init] spawn k 0 null -"),
            ("S", "m.a {} [S] stop k"),
            ("E", "m.b {} [E]"),
        ],
    },
    Case {
        shows: "a spawned child stays when the node that spawned it is left",
        machine: r#""initial":"a","states":{"a":{"entry":"spawn","on":{"E":"b"}},"b":{}}"#,
        steps: &[
            (
                "null",
                "m.a {} children x:0 [xstate.init] spawn x:0 0 null -",
            ),
            ("E", "m.b {} children x:0 [E]"),
        ],
    },
    Case {
        shows: "exit: actions, timers, invocations; the transition's actions; entry: actions, timers, invocations",
        machine: r#""initial":"a","states":{"a":{"exit":{"type":"tell","params":"-a"},"after":{"5":"z"},"invoke":{"src":"kid"},"on":{"E":{"target":"b","actions":{"type":"tell","params":"E"}}}},"b":{"entry":{"type":"tell","params":"+b"},"after":{"7":"z"},"invoke":{"src":"kid"}},"z":{}}"#,
        steps: &[
            (
                "null",
                r#"m.a {} children 0.m.a [xstate.init] schedule xstate.after.5.m.a 5 self {"type":"xstate.after.5.m.a"} spawn 0.m.a 0 null -"#,
            ),
            (
                "E",
                r#"m.b {} children 0.m.b [E] send parent {"type":"-a"} cancel xstate.after.5.m.a stop 0.m.a send parent {"type":"E"} send parent {"type":"+b"} schedule xstate.after.7.m.b 7 self {"type":"xstate.after.7.m.b"} spawn 0.m.b 0 null -"#,
            ),
        ],
    },
];

const ACTIONS: [Case; 9] = [
    Case {
        shows: "the expressions of an assignment read the context as it stood before it",
        machine: r#""context":{"a":1,"b":2},"on":{"E":{"actions":"swap"}}"#,
        steps: &[
            ("null", r#"m {"a":1,"b":2} [xstate.init]"#),
            ("E", r#"m {"a":2,"b":1} [E]"#),
        ],
    },
    Case {
        shows: "an `if` reads the context as it stood before the list, a chosen action that of its time",
        machine: r#""context":{"log":[]},"on":{"E":{"actions":"count"}}"#,
        steps: &[
            ("null", r#"m {"log":[]} [xstate.init]"#),
            ("E", r#"m {"log":[1,2]} [E]"#),
        ],
    },
    Case {
        shows: "an event is sent to the actor itself, to its parent, or later to a system name",
        machine: r#""on":{"E":{"actions":["me",{"type":"tell","params":"T"},"desk"]}}"#,
        steps: &[
            ("null", "m {} [xstate.init]"),
            (
                "E",
                r#"m {} [E] send self {"type":"ME"} send parent {"type":"T"} schedule - 5 system desk {"type":"D"}"#,
            ),
        ],
    },
    Case {
        shows: "a delay of nothing makes a timer too, and a timer is cancelled by its id",
        machine: r#""on":{"E":{"actions":[{"type":"later","params":0},{"type":"cancel","params":"t"}]}}"#,
        steps: &[
            ("null", "m {} [xstate.init]"),
            ("E", r#"m {} [E] schedule t 0 self {"type":"R"} cancel t"#),
        ],
    },
    Case {
        shows: "children without an id are counted",
        machine: r#""on":{"E":{"actions":["spawn","spawn"]}}"#,
        steps: &[
            ("null", "m {} [xstate.init]"),
            (
                "E",
                "m {} children x:0,x:1 [E] spawn x:0 0 null - spawn x:1 0 null -",
            ),
            (
                "E",
                "m {} children x:0,x:1,x:2,x:3 [E] spawn x:2 0 null - spawn x:3 0 null -",
            ),
        ],
    },
    Case {
        shows: "a child under an id that is held takes the other's place, as the last one",
        machine: r#""on":{"E":{"actions":["spawn_k","spawn"]}}"#,
        steps: &[
            ("null", "m {} [xstate.init]"),
            (
                "E",
                r#"m {} children k,x:0 [E] spawn k 1 {"n":1} desk spawn x:0 0 null -"#,
            ),
            (
                "E",
                r#"m {} children x:0,k,x:1 [E] stop k spawn k 1 {"n":1} desk spawn x:1 0 null -"#,
            ),
        ],
    },
    Case {
        shows: "stopping a child that isn't there does nothing",
        machine: r#""on":{"E":{"actions":"spawn_k"},"S":{"actions":{"type":"stop","params":"k"}}}"#,
        steps: &[
            ("null", "m {} [xstate.init]"),
            ("E", r#"m {} children k [E] spawn k 1 {"n":1} desk"#),
            ("S", "m {} [S] stop k"),
            ("S", "m {} [S]"),
        ],
    },
    Case {
        shows: "an event goes to a child of this step too",
        machine: r#""on":{"E":{"actions":["spawn_k","ask"]}}"#,
        steps: &[
            ("null", "m {} [xstate.init]"),
            (
                "E",
                r#"m {} children k [E] spawn k 1 {"n":1} desk send child k {"type":"ASK"}"#,
            ),
        ],
    },
    Case {
        shows: "the context reads the input",
        machine: r#""context":{"n":{"$input":"n"}}"#,
        steps: &[(r#"{"n":4}"#, r#"m {"n":4} [xstate.init]"#)],
    },
];

const FAULTS: [Case; 11] = [
    Case {
        shows: "a fault drops what the actions before it did",
        machine: r#""on":{"C":{"actions":"spawn"},"E":{"actions":["spawn",{"type":"tell","params":"T"},{"type":"stop","params":"x:0"},"boom"]}}"#,
        steps: &[
            ("null", "m {} [xstate.init]"),
            ("C", "m {} children x:0 [C] spawn x:0 0 null -"),
            ("E", r#"m {} children x:0 [] error {"fault":"Range"}"#),
        ],
    },
    Case {
        shows: "a fault of a later microstep leaves the nodes and the context of before the event",
        machine: r#""initial":"a","context":{"log":[]},"states":{"a":{"on":{"E":{"target":"b","actions":{"type":"log","params":"E"}}}},"b":{"always":{"target":"c","actions":"boom"}},"c":{}}"#,
        steps: &[
            ("null", r#"m.a {"log":[]} [xstate.init]"#),
            ("E", r#"m.a {"log":[]} [] error {"fault":"Range"}"#),
        ],
    },
    Case {
        shows: "a fault in the first step leaves an actor that hasn't begun",
        machine: r#""entry":["spawn","boom"]"#,
        steps: &[("null", r#"- null [] error {"fault":"Range"}"#)],
    },
    Case {
        shows: "a context that is no map is a fault",
        machine: r#""context":5"#,
        steps: &[("null", r#"- null [] error {"fault":"Kind"}"#)],
    },
    Case {
        shows: "a context that reads an input that isn't there is a fault",
        machine: r#""context":{"n":{"$input":"n"}}"#,
        steps: &[("null", r#"- null [] error {"fault":"Missing"}"#)],
    },
    Case {
        shows: "an event to a child that isn't there is a fault",
        machine: r#""on":{"E":{"actions":"ask"}}"#,
        steps: &[
            ("null", "m {} [xstate.init]"),
            ("E", r#"m {} [] error {"fault":"NoChild"}"#),
        ],
    },
    Case {
        shows: "an action makes no event of a type that is kept for the office",
        machine: r#""on":{"E":{"actions":"reserved"}}"#,
        steps: &[
            ("null", "m {} [xstate.init]"),
            ("E", r#"m {} [] error {"fault":"Reserved"}"#),
        ],
    },
    Case {
        shows: "an action makes no event that is no map",
        machine: r#""on":{"E":{"actions":"list"}}"#,
        steps: &[
            ("null", "m {} [xstate.init]"),
            ("E", r#"m {} [] error {"fault":"Kind"}"#),
        ],
    },
    Case {
        shows: "an action makes no event whose type is no text",
        machine: r#""on":{"E":{"actions":"untyped"}}"#,
        steps: &[
            ("null", "m {} [xstate.init]"),
            ("E", r#"m {} [] error {"fault":"Kind"}"#),
        ],
    },
    Case {
        shows: "a child's error that selects nothing ends its parent with that error",
        machine: r#""on":{"E":{}}"#,
        steps: &[
            ("null", "m {} [xstate.init]"),
            (
                r#"{"type":"xstate.error.actor.k","actorId":"k","error":5}"#,
                "m {} [] error 5",
            ),
        ],
    },
    Case {
        shows: "a child's error that selects a transition is taken as any event",
        machine: r#""initial":"a","states":{"a":{"invoke":{"src":"kid","id":"k","onError":"b"}},"b":{}}"#,
        steps: &[
            ("null", "m.a {} children k [xstate.init] spawn k 0 null -"),
            (
                r#"{"type":"xstate.error.actor.k","actorId":"k","error":5}"#,
                "m.b {} [xstate.error.actor.k] stop k",
            ),
        ],
    },
];

#[test]
fn nodes_have_timers_and_children(rt: HostRuntime) -> Result<(), Fail> {
    follow_all(&rt, rt.alloc(), TABLE, NODES.as_slice())
}

#[test]
fn actions_act_in_order(rt: HostRuntime) -> Result<(), Fail> {
    follow_all(&rt, rt.alloc(), TABLE, ACTIONS.as_slice())
}

#[test]
fn faults_of_actions(rt: HostRuntime) -> Result<(), Fail> {
    follow_all(&rt, rt.alloc(), TABLE, FAULTS.as_slice())
}
