//! The nodes of a machine text in document order.

ghost use Rattle.std.specs.Prelude.{[], None, IfOk, OnOk, length, map};
ghost use Rattle.ordered_json.specs.Words.{member_parts};
ghost use Rattle.machine_json.specs.Nodes.{AddsNodes, AreNodes, AreNodesBelow, node_parts};
ghost use Rattle.machine_json.specs.NodeKinds.{children_of, members_of};

use ordered_json::{Member, OrderedJson};
use std::alloc::{AllocError, Global};

/// The most nodes that a machine may have.
pub const MAX_NODES: usize = 4_096;

/// A node of a machine text.
#[derive(Clone, Copy, Debug)]
pub(crate) struct NodeText<'a> {
    /// The number of its parent: the place of the parent in document order. The root has none.
    pub parent: Option<usize>,
    /// What the node is called among its siblings. The root's is empty.
    pub key: &'a str,
    pub json: &'a OrderedJson,
}

/// The nodes of a machine text in document order.
pub(crate) fn nodes_of(alloc: Global, text: &OrderedJson) -> Result<Vec<NodeText<'_>>, AllocError>
    ensures { IfOk result (λ nodes. AreNodes 0 None [] text.now (map node_parts nodes.items)) }
{
    let mut nodes = Vec::new(alloc);
    add_node(&mut nodes, None, "", text)?;
    Ok(nodes)
}

/// Adds a node, and those below it.
#[cycle(nodes)]
fn add_node<'a>(
    nodes: &mut Vec<NodeText<'a>>,
    parent: Option<usize>,
    key: &'a str,
    json: &'a OrderedJson,
) -> Result<(), AllocError>
    ensures { OnOk result (AddsNodes (map node_parts nodes.old.items) (map node_parts nodes.new.items)
        (AreNodes (length nodes.old.items) parent key.now json.now)) }
{
    let number = nodes.len();
    nodes.push(NodeText { parent, key, json })?;
    match json {
        OrderedJson::Object { members, .. } => add_states(nodes, number, members.as_slice()),
        OrderedJson::Null { .. }
        | OrderedJson::Bool { .. }
        | OrderedJson::Int { .. }
        | OrderedJson::Text { .. }
        | OrderedJson::List { .. } => Ok(()),
    }
}

/// Adds the children that are the members of `states`, and those below them.
#[cycle(nodes)]
fn add_states<'a>(
    nodes: &mut Vec<NodeText<'a>>,
    parent: usize,
    members: &'a [Member],
) -> Result<(), AllocError>
    ensures { OnOk result (AddsNodes (map node_parts nodes.old.items) (map node_parts nodes.new.items)
        (AreNodesBelow (length nodes.old.items) parent (children_of (map member_parts members.now)))) }
{
    for member in members {
        if member.key.as_str() == "states" {
            return add_children(nodes, parent, &member.value);
        }
    }
    Ok(())
}

/// Adds the children that are the members of an object, and those below them.
#[cycle(nodes)]
fn add_children<'a>(
    nodes: &mut Vec<NodeText<'a>>,
    parent: usize,
    states: &'a OrderedJson,
) -> Result<(), AllocError>
    ensures { OnOk result (AddsNodes (map node_parts nodes.old.items) (map node_parts nodes.new.items)
        (AreNodesBelow (length nodes.old.items) parent (members_of states.now))) }
{
    match states {
        OrderedJson::Object { members, .. } => {
            for child in members.as_slice() {
                add_node(nodes, Some(parent), child.key.as_str(), &child.value)?;
            }
            Ok(())
        }
        OrderedJson::Null { .. }
        | OrderedJson::Bool { .. }
        | OrderedJson::Int { .. }
        | OrderedJson::Text { .. }
        | OrderedJson::List { .. } => Ok(()),
    }
}
