//! Machine texts that are read whole, and how many nodes a machine may have.

use crate::marked::{Reader, is_answered};
use machine_json::*;
use ordered_json::OrderedJson;
use std::alloc::{AllocError, Global};
use std::test::Fail;

/// Machines, each behind its number of nodes.
const MACHINES: &str =
    r##"3 {"id":"once","initial":"a","output":7,"states":{"a":{"on":{"END":"z"}},"z":{"type":"final"}}}
8 {"id":"r","initial":"p","states":{"p":{"type":"parallel","states":{"x":{"initial":"x1","states":{"x1":{"on":{"E":"x2"}},"x2":{}}},"y":{"initial":"y1","states":{"y1":{"on":{"E":"#out"}}}}}},"out":{"id":"out"}}}
8 {"id":"h","initial":"a","states":{"a":{"initial":"b","on":{"OUT":"z"},"states":{"b":{"initial":"b1","states":{"b1":{"on":{"N":"b2"}},"b2":{}}},"hs":{"type":"history"},"hd":{"type":"history","history":"deep"}}},"z":{"on":{"S":"#h.a.hs","D":"#h.a.hd"}}}}
7 {"id":"h2","initial":"z","states":{"a":{"initial":"b","on":{"OUT":"z"},"states":{"b":{},"c":{},"hs":{"history":true,"target":"c"},"hd":{"history":"deep"}}},"z":{"on":{"S":"#h2.a.hs","D":"#h2.a.hd"}}}}
2 {"id":"s","initial":"a","context":{"n":0},"states":{"a":{"entry":"inc","on":{"X":"a","Y":{"target":"a","reenter":true}}}}}
2 {"id":"loop","initial":"a","context":{"max":{"$input":"max"},"n":0},"states":{"a":{"always":{"guard":"more","actions":"inc"}}}}
1 {"id":"q","context":{"n":0,"seen":null},"on":{"GO":{"actions":"batch"}}}
2 {"id":"top","initial":"a","states":{"a":{"invoke":{"src":"mid"}}}}
2 {"id":"mid","initial":"a","states":{"a":{"invoke":[{"src":"low"},{"src":"idle"}]}}}
1 {"id":"low","on":{"BAD":{"actions":"boom"}}}
1 {"id":"idle"}
1 {"id":"sp","on":{"GO":{"actions":"mk"}}}
4 {"id":"w","initial":"ask","states":{"ask":{"invoke":{"src":"sign","id":"s","input":{"doc":5},"onDone":"yes","onError":"no"},"on":{"SKIP":"no"}},"yes":{},"no":{}}}
1 {"id":"t","context":{"log":[]},"entry":["p","q","r","cr"],"on":{"P":{"actions":"log"},"Q":{"actions":"log"},"R":{"actions":"log"}}}
4 {"id":"u","initial":"a","entry":"p","states":{"a":{"after":{"100":"b"},"on":{"END":"z"}},"b":{},"z":{"type":"final"}}}
3 {"id":"boss","initial":"a","states":{"a":{"invoke":{"src":"idle"},"on":{"STOP":"b"}},"b":{}}}
1 {"id":"tri","on":{"GO":{"actions":"three"}}}
5 {"id":"purchase","initial":"review","context":{"amount":{"$input":"amount"}},"states":{"review":{"invoke":{"src":"approval","input":{"amount":{"$context":"amount"}},"onDone":[{"guard":"granted","target":"order"},{"target":"refused"}],"onError":"refused"}},"order":{"invoke":{"src":"place","input":{"amount":{"$context":"amount"}},"onDone":"bought","onError":"refused"}},"bought":{"type":"final"},"refused":{"type":"final"}}}
3 {"id":"approval","initial":"waiting","context":{"granted":false},"output":{"granted":{"$context":"granted"}},"states":{"waiting":{"invoke":{"src":"sign","onDone":{"target":"decided","actions":"keep"},"onError":"decided"},"after":{"86400000":{"actions":"remind"}}},"decided":{"type":"final"}}}
1 {"id":"desk","context":{"count":0},"on":{"REMIND":{"actions":"count"}}}"##;

/// Whether a machine has so many nodes, by its tree and by its list.
fn counts(machine: &Machine, nodes: usize) -> bool {
    machine.tree.len() as usize == nodes && machine.nodes.len() == nodes
}

/// The machine that JSON means.
fn machine_of(alloc: Global, json: &OrderedJson) -> Result<Machine, MachineFault> {
    read_machine(alloc, json)
}

/// Whether a text is read as a machine of so many nodes.
fn has_nodes(alloc: Global, text: &str, nodes: usize) -> Result<bool, Fail> {
    let json = ordered_json::read(alloc, text.as_bytes())?;
    let machine = machine_of(alloc, &json)?;
    Ok(counts(&machine, nodes))
}

/// Whether a line is read as a machine of as many nodes as it begins with.
fn has_its_nodes(alloc: Global, line: &str) -> Result<bool, Fail> {
    let (nodes, text) = line.split_once(' ').unwrap_or((line, ""));
    has_nodes(alloc, text, nodes.parse::<usize>()?)
}

/// Puts the child of this number behind others.
fn put_child(alloc: Global, children: &mut String, number: usize) -> Result<(), AllocError> {
    children.push_str(format!(in alloc; ",\"s{number}\":{{}}")?.as_str())
}

/// A machine of so many nodes, of which the last is this text.
fn wide(alloc: Global, nodes: usize, last: &str) -> Result<String, AllocError> {
    let mut children = String::from_str(alloc, r#""s":{}"#)?;
    for number in 3..nodes {
        put_child(alloc, &mut children, number)?;
    }
    format!(in alloc; "{{\"type\":\"parallel\",\"states\":{{{children},\"last\":{last}}}}}")
}

/// Whether a node more than a machine may have is refused there, by this call.
fn refuses_a_node_too_many(alloc: Global, reader: Reader) -> Result<bool, Fail> {
    let marked = wide(alloc, 4_097, "^{}")?;
    is_answered(alloc, reader, "TooMany", marked.as_str())
}

#[test]
fn machines_with_their_nodes(rt: HostRuntime) -> Result<(), Fail> {
    for line in MACHINES.lines() {
        assert!(rt; has_its_nodes(rt.alloc(), line)?, "{line}");
    }
    Ok(())
}

#[test]
fn as_many_nodes_as_there_may_be(rt: HostRuntime) -> Result<(), Fail> {
    let text = wide(rt.alloc(), 4_096, "{}")?;
    assert!(rt; is_answered(rt.alloc(), Reader::Fields, "", text.as_str())?);
    Ok(())
}

#[test]
fn as_many_nodes_as_there_may_be_are_read(rt: HostRuntime) -> Result<(), Fail> {
    let text = wide(rt.alloc(), 4_096, "{}")?;
    assert!(rt; has_nodes(rt.alloc(), text.as_str(), 4_096)?);
    Ok(())
}

#[test]
fn a_node_too_many(rt: HostRuntime) -> Result<(), Fail> {
    assert!(rt; refuses_a_node_too_many(rt.alloc(), Reader::Fields)?);
    Ok(())
}

#[test]
fn a_node_too_many_is_refused(rt: HostRuntime) -> Result<(), Fail> {
    assert!(rt; refuses_a_node_too_many(rt.alloc(), Reader::Machine)?);
    Ok(())
}
