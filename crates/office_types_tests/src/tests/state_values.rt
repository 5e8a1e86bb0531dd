//! State values of a machine with nodes of each kind, as they follow from the rules.

ghost use Rattle.std.specs.Prelude.{IsTrue};
ghost use Rattle.std.specs.List.Sorted.{IsStrictlyIncreasing};

use node_tree::{Kind, Node, NodeRows, Tree};
use office_types::{state_value, write_value};
use std::alloc::{AllocError, Global};
use xs_data::{Items, Text};
use xs_model::Value;

type Row<'a> = (Option<u32>, Kind, &'a str);

const JOB: [Row; 11] = [
    (None, Kind::Compound { initial: 1 }, "job"),
    (Some(0), Kind::Atomic, "idle"),
    (Some(0), Kind::Parallel, "work"),
    (Some(2), Kind::Compound { initial: 4 }, "light"),
    (Some(3), Kind::Atomic, "red"),
    (Some(3), Kind::Atomic, "green"),
    (Some(2), Kind::Compound { initial: 7 }, "fan"),
    (Some(6), Kind::Final, "slow"),
    (Some(2), Kind::Atomic, "door"),
    (Some(0), Kind::Compound { initial: 10 }, "stopped"),
    (Some(9), Kind::Atomic, "low"),
];

// Active nodes, and the value that they give.
const VALUES: [(&[u32], &str); 5] = [
    (&[], "null"),
    // The value that a machine has which is a leaf.
    (&[1], "{}"),
    (&[0, 1], "\"idle\""),
    (&[0, 9, 10], "{\"stopped\":\"low\"}"),
    (
        &[0, 2, 3, 5, 6, 7, 8],
        "{\"work\":{\"door\":{},\"fan\":\"slow\",\"light\":\"green\"}}",
    ),
];

fn node(alloc: Global, parent: Option<u32>, kind: Kind, key: &str) -> Result<Node, AllocError> {
    Ok(Node {
        parent,
        kind,
        key: Text::from_str(alloc, key)?,
        id: Text::from_str(alloc, key)?,
    })
}

fn rows(alloc: Global) -> Result<Vec<Node>, AllocError> {
    let mut rows = Vec::new(alloc);
    for (parent, kind, key) in JOB.iter() {
        rows.push(node(alloc, *parent, *kind, key)?)?;
    }
    Ok(rows)
}

fn job(alloc: Global) -> Option<Tree> {
    let rows: NodeRows = Items::from_vec(rows(alloc).ok()?);
    if rows.is_empty() || rows.len() > JOB.len() {
        return None;
    }
    Tree::build(alloc, rows).ok()
}

fn is_rising(nodes: &[u32]) -> bool
    ensures { IsTrue result → IsStrictlyIncreasing nodes.now }
{
    for i in 1..nodes.len() {
        if nodes[i - 1] >= nodes[i] {
            return false;
        }
    }
    true
}

fn is_text_of(alloc: Global, value: &Value, text: &str) -> bool {
    match write_value(alloc, value) {
        Ok(found) => found.as_slice() == text.as_bytes(),
        Err(_) => false,
    }
}

fn is_value(alloc: Global, tree: &Tree, active: &[u32], text: &str) -> bool {
    if !is_rising(active) {
        return false;
    }
    let found = state_value(alloc, tree, active);
    match &found {
        Ok(value) => is_text_of(alloc, value, text),
        Err(_) => false,
    }
}

fn is_value_of_job(alloc: Global, active: &[u32], text: &str) -> bool {
    match job(alloc) {
        Some(tree) => is_value(alloc, &tree, active, text),
        None => false,
    }
}

#[test]
fn state_values_by_the_kinds_of_nodes(rt: HostRuntime) {
    for (active, text) in VALUES.iter() {
        assert!(rt; is_value_of_job(rt.alloc(), active, text), "at {text}");
    }
}
