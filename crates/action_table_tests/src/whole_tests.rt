//! Whole definitions texts, and what they are read as.

use action_table::*;
use std::alloc::Global;
use std::test::Fail;

/// A machine of each kind of step: 17 machines with 51 nodes, and their implementations.
const MANY: &str =
    r##"{"machines":[{"id":"once","initial":"a","output":7,"states":{"a":{"on":{"END":"z"}},"z":{"type":"final"}}},{"id":"r","initial":"p","states":{"p":{"type":"parallel","states":{"x":{"initial":"x1","states":{"x1":{"on":{"E":"x2"}},"x2":{}}},"y":{"initial":"y1","states":{"y1":{"on":{"E":"#out"}}}}}},"out":{"id":"out"}}},{"id":"h","initial":"a","states":{"a":{"initial":"b","on":{"OUT":"z"},"states":{"b":{"initial":"b1","states":{"b1":{"on":{"N":"b2"}},"b2":{}}},"hs":{"type":"history"},"hd":{"type":"history","history":"deep"}}},"z":{"on":{"S":"#h.a.hs","D":"#h.a.hd"}}}},{"id":"h2","initial":"z","states":{"a":{"initial":"b","on":{"OUT":"z"},"states":{"b":{},"c":{},"hs":{"history":true,"target":"c"},"hd":{"history":"deep"}}},"z":{"on":{"S":"#h2.a.hs","D":"#h2.a.hd"}}}},{"id":"s","initial":"a","context":{"n":0},"states":{"a":{"entry":"inc","on":{"X":"a","Y":{"target":"a","reenter":true}}}}},{"id":"loop","initial":"a","context":{"max":{"$input":"max"},"n":0},"states":{"a":{"always":{"guard":"more","actions":"inc"}}}},{"id":"q","context":{"n":0,"seen":null},"on":{"GO":{"actions":"batch"}}},{"id":"top","initial":"a","states":{"a":{"invoke":{"src":"mid"}}}},{"id":"mid","initial":"a","states":{"a":{"invoke":[{"src":"low"},{"src":"idle"}]}}},{"id":"low","on":{"BAD":{"actions":"boom"}}},{"id":"idle"},{"id":"sp","on":{"GO":{"actions":"mk"}}},{"id":"w","initial":"ask","states":{"ask":{"invoke":{"src":"sign","id":"s","input":{"doc":5},"onDone":"yes","onError":"no"},"on":{"SKIP":"no"}},"yes":{},"no":{}}},{"id":"t","context":{"log":[]},"entry":["p","q","r","cr"],"on":{"P":{"actions":"log"},"Q":{"actions":"log"},"R":{"actions":"log"}}},{"id":"u","initial":"a","entry":"p","states":{"a":{"after":{"100":"b"},"on":{"END":"z"}},"b":{},"z":{"type":"final"}}},{"id":"boss","initial":"a","states":{"a":{"invoke":{"src":"idle"},"on":{"STOP":"b"}},"b":{}}},{"id":"tri","on":{"GO":{"actions":"three"}}}],"implementations":{"guards":{"more":{"$lt":[{"$context":"n"},{"$context":"max"}]}},"actions":{"inc":{"assign":{"n":{"$add":[{"$context":"n"},1]}}},"batch":{"enqueueActions":[{"assign":{"n":5}},{"if":{"$eq":[{"$context":"n"},5]},"then":[{"assign":{"seen":true}}],"else":[{"assign":{"seen":false}}]}]},"boom":{"assign":{"x":{"$div":[1,0]}}},"mk":{"spawnChild":"idle","systemId":"desk"},"p":{"raise":{"type":"P"},"delay":100,"id":"p"},"q":{"raise":{"type":"Q"},"delay":100,"id":"q"},"r":{"raise":{"type":"R"},"delay":100,"id":"r"},"cr":{"cancel":"r"},"log":{"assign":{"log":{"$append":[{"$context":"log"},{"$event":"type"}]}}},"three":[{"sendTo":{"system":"a"},"event":{"type":"GO"}},{"sendTo":{"system":"b"},"event":{"type":"GO"}},{"sendTo":{"system":"c"},"event":{"type":"GO"}}]},"actors":{"mid":{"machine":"mid"},"low":{"machine":"low"},"idle":{"machine":"idle"},"sign":{"promise":{}}}}}"##;

/// Purchases that somebody approves.
const PURCHASE: &str =
    r#"{"machines":[{"id":"purchase","initial":"review","context":{"amount":{"$input":"amount"}},"states":{"review":{"invoke":{"src":"approval","input":{"amount":{"$context":"amount"}},"onDone":[{"guard":"granted","target":"order"},{"target":"refused"}],"onError":"refused"}},"order":{"invoke":{"src":"place","input":{"amount":{"$context":"amount"}},"onDone":"bought","onError":"refused"}},"bought":{"type":"final"},"refused":{"type":"final"}}},{"id":"approval","initial":"waiting","context":{"granted":false},"output":{"granted":{"$context":"granted"}},"states":{"waiting":{"invoke":{"src":"sign","onDone":{"target":"decided","actions":"keep"},"onError":"decided"},"after":{"86400000":{"actions":"remind"}}},"decided":{"type":"final"}}},{"id":"desk","context":{"count":0},"on":{"REMIND":{"actions":"count"}}}],"implementations":{"guards":{"granted":{"$event":"output.granted"}},"actions":{"keep":{"assign":{"granted":{"$event":"output.granted"}}},"remind":{"sendTo":{"system":"desk"},"event":{"type":"REMIND"}},"count":{"assign":{"count":{"$add":[{"$context":"count"},1]}}}},"actors":{"approval":{"machine":"approval"},"place":{"promise":{}},"sign":{"promise":{}}}}}"#;

/// A toggle.
const TOGGLE: &str =
    r#"{"machines":[{"id":"toggle","initial":"off","states":{"off":{"on":{"FLIP":"on"}},"on":{"on":{"FLIP":"off"}}}}],"implementations":{}}"#;

/// Whether a text is read as so many machines with so many nodes together.
fn has_machines(alloc: Global, text: &str, machines: u32, nodes: usize) -> Result<bool, Fail> {
    let defs = read_defs(alloc, text.as_bytes())?;
    Ok(defs.defs.len() == machines && nodes_of(&defs) == nodes)
}

/// How many nodes all machines have together.
fn nodes_of(defs: &Defs) -> usize {
    let mut nodes: usize = 0;
    for number in 0..defs.defs.len() {
        if let Some(def) = defs.defs.get(number) {
            nodes = nodes.saturating_add(def.tree.len() as usize);
        }
    }
    nodes
}

/// Whether names stand for the machines and actors that they have in `MANY`.
fn names_its_numbers(defs: &Defs) -> bool {
    defs.machine_named(b"u".as_slice()) == Some(14)
        && defs.machine_named(b"none".as_slice()) == None
        && !defs.defs.is_empty()
        && defs.actors.get(b"idle".as_slice()).copied() == Some(Actor::Machine(10))
        && defs.actors.get(b"sign".as_slice()).copied() == Some(Actor::Promise)
}

#[test]
fn reads_machines_and_nodes(rt: HostRuntime) -> Result<(), Fail> {
    assert!(rt; has_machines(rt.alloc(), MANY, 17, 51)?);
    Ok(())
}

#[test]
fn reads_purchases(rt: HostRuntime) -> Result<(), Fail> {
    assert!(rt; has_machines(rt.alloc(), PURCHASE, 3, 9)?);
    Ok(())
}

#[test]
fn reads_a_toggle(rt: HostRuntime) -> Result<(), Fail> {
    assert!(rt; has_machines(rt.alloc(), TOGGLE, 1, 3)?);
    Ok(())
}

#[test]
fn numbers_machines_and_actors(rt: HostRuntime) -> Result<(), Fail> {
    let defs = read_defs(rt.alloc(), MANY.as_bytes())?;
    assert!(rt; names_its_numbers(&defs));
    Ok(())
}
