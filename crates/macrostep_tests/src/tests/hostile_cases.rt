//! Machines and events that mean harm: each ends in the fault that its rule names, and leaves all
//! as it was.

use super::{Case, Step, follow_all};
use std::test::Fail;

/// Actions that go on and on, and such as take all they do from the event.
const TABLE: &str =
    r#"{"actors":{"kid":{"promise":{}}},"actions":{"again":{"raise":{"type":"R"}},"spawn":{"spawnChild":"kid"},"nothing":{"assign":{}},"double":{"assign":{"x":{"$concat":[{"$context":"x"},{"$context":"x"}]}}},"grow":{"assign":{"x":{"$event":"x"}}},"raise":{"raise":{"type":"R","x":{"$event":"x"}}},"tell":{"sendTo":"parent","event":{"type":"R","x":{"$event":"x"}}},"any":{"raise":{"$event":"x"}},"later":{"raise":{"type":"R"},"delay":{"$event":"n"},"id":{"$event":"id"}},"now":{"raise":{"type":"R"},"id":{"$event":"id"}},"ask":{"sendTo":{"child":{"$event":"id"}},"event":{"type":"ASK"}},"child":{"spawnChild":"kid","id":{"$event":"id"}},"name":{"spawnChild":"kid","systemId":{"$event":"id"}},"input":{"spawnChild":"kid","input":{"$event":"x"}}}}"#;

const LOOPS: [Case; 10] = [
    Case {
        shows: "a loop without an event",
        machine: r#""initial":"a","states":{"a":{"on":{"C":{"actions":"spawn"},"E":"b"}},"b":{"always":{}}}"#,
        steps: &[
            ("null", "m.a {} [xstate.init]"),
            ("C", "m.a {} children x:0 [C] spawn x:0 0 null -"),
            ("E", r#"m.a {} children x:0 [] error {"fault":"Steps"}"#),
        ],
    },
    Case {
        shows: "a loop without an event in the first step",
        machine: r#""initial":"a","states":{"a":{"always":"b"},"b":{"always":"a"}}"#,
        steps: &[("null", r#"- null [] error {"fault":"Steps"}"#)],
    },
    Case {
        shows: "an event that raises itself",
        machine: r#""on":{"C":{"actions":"spawn"},"R":{"actions":"again"}}"#,
        steps: &[
            ("null", "m {} [xstate.init]"),
            ("C", "m {} children x:0 [C] spawn x:0 0 null -"),
            ("R", r#"m {} children x:0 [] error {"fault":"Steps"}"#),
        ],
    },
    Case {
        shows: "an event that raises itself twice",
        machine: r#""on":{"R":{"actions":["again","again"]}}"#,
        steps: &[
            ("null", "m {} [xstate.init]"),
            ("R", r#"m {} [] error {"fault":"Steps"}"#),
        ],
    },
    Case {
        shows: "a node that is done as soon as it is entered, and entered when it is done",
        machine: r#""initial":"a","states":{"a":{"initial":"f","onDone":{"target":"a","reenter":true},"states":{"f":{"type":"final"}}}}"#,
        steps: &[("null", r#"- null [] error {"fault":"Steps"}"#)],
    },
    Case {
        shows: "a loop that spawns",
        machine: r#""on":{"C":{"actions":"spawn"},"R":{"actions":["spawn","again"]}}"#,
        steps: &[
            ("null", "m {} [xstate.init]"),
            ("C", "m {} children x:0 [C] spawn x:0 0 null -"),
            ("R", r#"m {} children x:0 [] error {"fault":"Steps"}"#),
        ],
    },
    Case {
        shows: "a loop that invokes",
        machine: r#""initial":"a","states":{"a":{"invoke":{"src":"kid"},"on":{"R":{"target":"a","reenter":true,"actions":"again"}}}}"#,
        steps: &[
            (
                "null",
                "m.a {} children 0.m.a [xstate.init] spawn 0.m.a 0 null -",
            ),
            ("R", r#"m.a {} children 0.m.a [] error {"fault":"Steps"}"#),
        ],
    },
    Case {
        shows: "a loop of four actions a microstep has too many microsteps",
        machine: r#""on":{"R":{"actions":["again","nothing","nothing","nothing"]}}"#,
        steps: &[
            ("null", "m {} [xstate.init]"),
            ("R", r#"m {} [] error {"fault":"Steps"}"#),
        ],
    },
    Case {
        shows: "a loop of five actions a microstep has too many actions",
        machine: r#""on":{"R":{"actions":["again","nothing","nothing","nothing","nothing"]}}"#,
        steps: &[
            ("null", "m {} [xstate.init]"),
            ("R", r#"m {} [] error {"fault":"Actions"}"#),
        ],
    },
    Case {
        shows: "a loop that doubles a text of the context",
        machine: r#""context":{"x":"a"},"on":{"R":{"actions":["double","again"]}}"#,
        steps: &[
            ("null", r#"m {"x":"a"} [xstate.init]"#),
            ("R", r#"m {"x":"a"} [] error {"fault":"TooLarge"}"#),
        ],
    },
];

/// A machine that does with an event's parts what its type says.
const SERVANT: &str =
    r#""context":{"x":""},"on":{"GROW":{"actions":"grow"},"RAISE":{"actions":"raise"},"R":{},"TELL":{"actions":"tell"},"ANY":{"actions":"any"},"LATER":{"actions":"later"},"NOW":{"actions":"now"},"ASK":{"actions":"ask"},"CHILD":{"actions":"child"},"NAME":{"actions":"name"},"INPUT":{"actions":"input"}}"#;

const BEGUN: Step = ("null", r#"m {"x":""} [xstate.init]"#);

const BORN: Step = (
    r#"{"type":"CHILD","id":"k"}"#,
    r#"m {"x":""} children k [CHILD] spawn k 0 null -"#,
);

const LIMITS: [Case; 24] = [
    Case {
        shows: "a context of 65,536 bytes",
        machine: SERVANT,
        steps: &[
            BEGUN,
            BORN,
            (
                r#"{"type":"GROW","x":"<65528>"}"#,
                r#"m {"x":"<65528>"} children k [GROW]"#,
            ),
            (
                r#"{"type":"GROW","x":""}"#,
                r#"m {"x":""} children k [GROW]"#,
            ),
        ],
    },
    Case {
        shows: "a context of 65,537 bytes",
        machine: SERVANT,
        steps: &[
            BEGUN,
            BORN,
            (
                r#"{"type":"GROW","x":"<65529>"}"#,
                r#"m {"x":""} children k [] error {"fault":"TooLarge"}"#,
            ),
        ],
    },
    Case {
        shows: "a context that nests 32 deep",
        machine: SERVANT,
        steps: &[
            BEGUN,
            BORN,
            (
                r#"{"type":"GROW","x":[[[[[[[[[[[[[[[[[[[[[[[[[[[[[[[]]]]]]]]]]]]]]]]]]]]]]]]]]]]]]]}"#,
                r#"m {"x":[[[[[[[[[[[[[[[[[[[[[[[[[[[[[[[]]]]]]]]]]]]]]]]]]]]]]]]]]]]]]]} children k [GROW]"#,
            ),
        ],
    },
    Case {
        shows: "a context that nests 33 deep",
        machine: SERVANT,
        steps: &[
            BEGUN,
            BORN,
            (
                r#"{"type":"GROW","x":[[[[[[[[[[[[[[[[[[[[[[[[[[[[[[[[]]]]]]]]]]]]]]]]]]]]]]]]]]]]]]]]}"#,
                r#"m {"x":""} children k [] error {"fault":"TooLarge"}"#,
            ),
        ],
    },
    Case {
        shows: "a raised event of 4,096 bytes",
        machine: SERVANT,
        steps: &[
            BEGUN,
            BORN,
            (
                r#"{"type":"RAISE","x":"<4077>"}"#,
                r#"m {"x":""} children k [RAISE,R]"#,
            ),
        ],
    },
    Case {
        shows: "a raised event of 4,097 bytes",
        machine: SERVANT,
        steps: &[
            BEGUN,
            BORN,
            (
                r#"{"type":"RAISE","x":"<4078>"}"#,
                r#"m {"x":""} children k [] error {"fault":"TooLarge"}"#,
            ),
        ],
    },
    Case {
        shows: "a sent event of 4,096 bytes",
        machine: SERVANT,
        steps: &[
            BEGUN,
            BORN,
            (
                r#"{"type":"TELL","x":"<4077>"}"#,
                r#"m {"x":""} children k [TELL] send parent {"type":"R","x":"<4077>"}"#,
            ),
        ],
    },
    Case {
        shows: "a sent event of 4,097 bytes",
        machine: SERVANT,
        steps: &[
            BEGUN,
            BORN,
            (
                r#"{"type":"TELL","x":"<4078>"}"#,
                r#"m {"x":""} children k [] error {"fault":"TooLarge"}"#,
            ),
        ],
    },
    Case {
        shows: "a reserved type goes before a length",
        machine: SERVANT,
        steps: &[
            BEGUN,
            BORN,
            (
                r#"{"type":"ANY","x":{"type":"xstate.<4200>"}}"#,
                r#"m {"x":""} children k [] error {"fault":"Reserved"}"#,
            ),
        ],
    },
    Case {
        shows: "a kind goes before a length",
        machine: SERVANT,
        steps: &[
            BEGUN,
            BORN,
            (
                r#"{"type":"ANY","x":{"type":5,"x":"<4200>"}}"#,
                r#"m {"x":""} children k [] error {"fault":"Kind"}"#,
            ),
        ],
    },
    Case {
        shows: "a delay of -1",
        machine: SERVANT,
        steps: &[
            BEGUN,
            BORN,
            (
                r#"{"type":"LATER","n":-1,"id":"t"}"#,
                r#"m {"x":""} children k [] error {"fault":"Range"}"#,
            ),
        ],
    },
    Case {
        shows: "a delay of 2^53 - 1",
        machine: SERVANT,
        steps: &[
            BEGUN,
            BORN,
            (
                r#"{"type":"LATER","n":9007199254740991,"id":"t"}"#,
                r#"m {"x":""} children k [LATER] schedule t 9007199254740991 self {"type":"R"}"#,
            ),
        ],
    },
    Case {
        shows: "a delay of 2^53",
        machine: SERVANT,
        steps: &[
            BEGUN,
            BORN,
            (
                r#"{"type":"LATER","n":9007199254740992,"id":"t"}"#,
                r#"m {"x":""} children k [] error {"fault":"Range"}"#,
            ),
        ],
    },
    Case {
        shows: "a delay goes before an id",
        machine: SERVANT,
        steps: &[
            BEGUN,
            BORN,
            (
                r#"{"type":"LATER","n":-1,"id":"<257>"}"#,
                r#"m {"x":""} children k [] error {"fault":"Range"}"#,
            ),
        ],
    },
    Case {
        shows: "a timer's id of 256 bytes",
        machine: SERVANT,
        steps: &[
            BEGUN,
            BORN,
            (
                r#"{"type":"LATER","n":1,"id":"<256>"}"#,
                r#"m {"x":""} children k [LATER] schedule <256> 1 self {"type":"R"}"#,
            ),
        ],
    },
    Case {
        shows: "a timer's id of 257 bytes",
        machine: SERVANT,
        steps: &[
            BEGUN,
            BORN,
            (
                r#"{"type":"LATER","n":1,"id":"<257>"}"#,
                r#"m {"x":""} children k [] error {"fault":"TooLarge"}"#,
            ),
        ],
    },
    Case {
        shows: "an empty id",
        machine: SERVANT,
        steps: &[
            BEGUN,
            BORN,
            (
                r#"{"type":"LATER","n":1,"id":""}"#,
                r#"m {"x":""} children k [] error {"fault":"TooLarge"}"#,
            ),
        ],
    },
    Case {
        shows: "an id without a delay isn't looked at",
        machine: SERVANT,
        steps: &[
            BEGUN,
            BORN,
            (
                r#"{"type":"NOW","id":"<257>"}"#,
                r#"m {"x":""} children k [NOW,R]"#,
            ),
        ],
    },
    Case {
        shows: "a child's id of 257 bytes is too long before it isn't there",
        machine: SERVANT,
        steps: &[
            BEGUN,
            BORN,
            (
                r#"{"type":"ASK","id":"<257>"}"#,
                r#"m {"x":""} children k [] error {"fault":"TooLarge"}"#,
            ),
        ],
    },
    Case {
        shows: "a child that isn't there",
        machine: SERVANT,
        steps: &[
            BEGUN,
            BORN,
            (
                r#"{"type":"ASK","id":"<256>"}"#,
                r#"m {"x":""} children k [] error {"fault":"NoChild"}"#,
            ),
        ],
    },
    Case {
        shows: "a spawned child's id of 257 bytes",
        machine: SERVANT,
        steps: &[
            BEGUN,
            BORN,
            (
                r#"{"type":"CHILD","id":"<257>"}"#,
                r#"m {"x":""} children k [] error {"fault":"TooLarge"}"#,
            ),
        ],
    },
    Case {
        shows: "a system name of 257 bytes",
        machine: SERVANT,
        steps: &[
            BEGUN,
            BORN,
            (
                r#"{"type":"NAME","id":"<257>"}"#,
                r#"m {"x":""} children k [] error {"fault":"TooLarge"}"#,
            ),
        ],
    },
    Case {
        shows: "an input of 4,096 bytes",
        machine: SERVANT,
        steps: &[
            BEGUN,
            BORN,
            (
                r#"{"type":"INPUT","x":"<4094>"}"#,
                r#"m {"x":""} children k,x:0 [INPUT] spawn x:0 0 "<4094>" -"#,
            ),
        ],
    },
    Case {
        shows: "an input of 4,097 bytes",
        machine: SERVANT,
        steps: &[
            BEGUN,
            BORN,
            (
                r#"{"type":"INPUT","x":"<4095>"}"#,
                r#"m {"x":""} children k [] error {"fault":"TooLarge"}"#,
            ),
        ],
    },
];

#[test]
fn loops_end(rt: HostRuntime) -> Result<(), Fail> {
    follow_all(&rt, rt.alloc(), TABLE, LOOPS.as_slice())
}

#[test]
fn limits_hold(rt: HostRuntime) -> Result<(), Fail> {
    follow_all(&rt, rt.alloc(), TABLE, LIMITS.as_slice())
}
