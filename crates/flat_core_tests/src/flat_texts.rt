//! Definitions that are an office of flat machines, and definitions that aren't.
use flat_core::*;
use std::alloc::{AllocError, Global};
use std::fmt::Write;
use std::process::Abort;
use std::test::Fail;

const REFUSED: &str = "these are no flat machines";

// The transitions of a state, each as its descriptor and its place.
fn draw_transitions(text: &mut String, state: &FlatState) -> Result<(), AllocError> {
    for transition in state.transitions.as_slice() {
        let descriptor = transition.descriptor.as_str();
        let place = transition.state;
        write!(text, "{descriptor}>{place},")?;
    }
    Ok(())
}

// The states of a machine, each with its transitions.
fn draw_states(text: &mut String, machine: &FlatMachine) -> Result<(), AllocError> {
    for state in machine.states.as_slice() {
        let key = state.key.as_str();
        write!(text, "{key}(")?;
        draw_transitions(text, state)?;
        text.push_str(")")?;
    }
    Ok(())
}

// The machines in one text: each with its id, its initial place, and its states.
fn drawn(alloc: Global, machines: &FlatMachines) -> Result<String, AllocError> {
    let mut text = String::new(alloc);
    for machine in machines.as_slice() {
        let id = machine.id.as_str();
        let initial = machine.initial;
        write!(text, "{id}:{initial}[")?;
        draw_states(&mut text, machine)?;
        text.push_str("]")?;
    }
    Ok(text)
}

// What a text means, or why it is refused.
fn shown(alloc: Global, text: &str) -> Result<String, AllocError> {
    let json = match ordered_json::read(alloc, text.as_bytes()) {
        Ok(json) => json,
        Err(fault) => return format!(in alloc; "{fault}"),
    };
    match read_flat(alloc, &json) {
        Ok(machines) => drawn(alloc, &machines),
        Err(fault) => format!(in alloc; "{fault}"),
    }
}

fn is_shown(alloc: Global, text: &str, want: &str) -> Result<bool, AllocError> {
    Ok(shown(alloc, text)?.as_str() == want)
}

// Each text of the rows is refused.
fn expect_refused(rt: &impl Abort, alloc: Global, rows: &str) -> Result<(), Fail> {
    for text in rows.lines() {
        assert!(rt; is_shown(alloc, text, REFUSED)?, "at {text}");
    }
    Ok(())
}

// Texts, each with the machines that it means.
const OFFICES: &str = r#"{"machines":[],"implementations":{}}=>
{"machines":[{"id":"toggle","initial":"off","states":{"off":{"on":{"FLIP":"on"}},"on":{"on":{"FLIP":"off"}}}}],"implementations":{}}=>toggle:0[off(FLIP>1,)on(FLIP>0,)]
 { "implementations" : { } , "machines" : [ { "states" : { "a" : { } , "b" : { "on" : { } } } , "initial" : "b" , "id" : "m" } ] } =>m:1[a()b()]
{"machines":[{"id":"m","initial":"a","states":{"a":{"on":{"":"a","**":"a",".":"a","*.":"a"}}}},{"id":"n","initial":"a#","states":{"a#":{}}}],"implementations":{}}=>m:0[a(>0,**>0,.>0,*.>0,)]n:0[a#()]"#;

// The whole.
const WHOLE: &str = r#"[]
{}
{"machines":[]}
{"implementations":{}}
{"machines":{}}
{"machines":{},"implementations":{}}
{"machines":[],"implementations":[]}
{"machines":[],"implementations":{"guards":{}}}
{"machines":[],"implementations":{},"version":"1"}
{"machines":["m"],"implementations":{}}"#;

// A field of a machine that is missing, unknown, or of another kind.
const MACHINES: &str = r#"{"machines":[{"initial":"a","states":{"a":{}}}],"implementations":{}}
{"machines":[{"id":"m","states":{"a":{}}}],"implementations":{}}
{"machines":[{"id":"m","initial":"a"}],"implementations":{}}
{"machines":[{"id":"m","initial":"a","states":{"a":{}},"context":{}}],"implementations":{}}
{"machines":[{"id":"","initial":"a","states":{"a":{}}}],"implementations":{}}
{"machines":[{"id":1,"initial":"a","states":{"a":{}}}],"implementations":{}}
{"machines":[{"id":"m","initial":["a"],"states":{"a":{}}}],"implementations":{}}
{"machines":[{"id":"m","initial":"a","states":["a"]}],"implementations":{}}
{"machines":[{"id":"m","initial":"b","states":{"a":{}}}],"implementations":{}}
{"machines":[{"id":"m","initial":"a","states":{}}],"implementations":{}}
{"machines":[{"id":"m","initial":"a","states":{"a":{}}},{"id":"m","initial":"b","states":{"b":{}}}],"implementations":{}}"#;

// The states of a machine.
const STATES: &str =
    r##"{"machines":[{"id":"m","initial":"a","states":{"a":"b","b":{}}}],"implementations":{}}
{"machines":[{"id":"m","initial":"a","states":{"a":{"entry":"x"}}}],"implementations":{}}
{"machines":[{"id":"m","initial":"a","states":{"a":{},"b.c":{}}}],"implementations":{}}
{"machines":[{"id":"m","initial":"a","states":{"a":{},"#b":{}}}],"implementations":{}}
{"machines":[{"id":"m","initial":"a","states":{"a":{},"":{}}}],"implementations":{}}"##;

// The transitions of a state.
const TRANSITIONS: &str =
    r#"{"machines":[{"id":"m","initial":"a","states":{"a":{"on":["E"]}}}],"implementations":{}}
{"machines":[{"id":"m","initial":"a","states":{"a":{"on":{"E":["a"]}}}}],"implementations":{}}
{"machines":[{"id":"m","initial":"a","states":{"a":{"on":{"E":{"target":"a"}}}}}],"implementations":{}}
{"machines":[{"id":"m","initial":"a","states":{"a":{"on":{"E":"b"}}}}],"implementations":{}}
{"machines":[{"id":"m","initial":"a","states":{"a":{"on":{"E":""}}}}],"implementations":{}}
{"machines":[{"id":"m","initial":"a","states":{"a":{"on":{"*":"a"}}}}],"implementations":{}}
{"machines":[{"id":"m","initial":"a","states":{"a":{"on":{"a.*":"a"}}}}],"implementations":{}}
{"machines":[{"id":"m","initial":"a","states":{"a":{"on":{".*":"a"}}}}],"implementations":{}}"#;

#[test]
fn reads_offices(rt: HostRuntime) -> Result<(), Fail> {
    for row in OFFICES.lines() {
        let (text, want) = row.split_once("=>").ok_or("no row")?;
        assert!(rt; is_shown(rt.alloc(), text, want)?, "at {text}");
    }
    Ok(())
}

#[test]
fn refuses_other_wholes(rt: HostRuntime) -> Result<(), Fail> {
    expect_refused(&rt, rt.alloc(), WHOLE)
}

#[test]
fn refuses_other_machines(rt: HostRuntime) -> Result<(), Fail> {
    expect_refused(&rt, rt.alloc(), MACHINES)
}

#[test]
fn refuses_other_states(rt: HostRuntime) -> Result<(), Fail> {
    expect_refused(&rt, rt.alloc(), STATES)
}

#[test]
fn refuses_other_transitions(rt: HostRuntime) -> Result<(), Fail> {
    expect_refused(&rt, rt.alloc(), TRANSITIONS)
}

// A key that comes twice is refused by the reader of JSON.
#[test]
fn refuses_a_key_that_comes_twice(rt: HostRuntime) -> Result<(), Fail> {
    let twice = r#"{"machines":[],"implementations":{},"machines":[]}"#;
    let want = "the key at byte 36 comes twice in its object";
    assert!(rt; is_shown(rt.alloc(), twice, want)?);
    Ok(())
}
