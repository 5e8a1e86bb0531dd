//! The second pass over a machine text: ids, texts that lead to nodes, targets that clash.

ghost use Rattle.std.specs.Prelude.{◌≡◌, ◌⊎◌, ◌<◌, ◌↔◌, Some, IfOk, IsTrue, length, map, slice_get};
ghost use Rattle.node_tree.specs.Nodes.{IsOutline};
ghost use Rattle.machine_json.specs.FirstPass.{TellsFirst};
ghost use Rattle.machine_json.specs.Links.{HasBadDefault, HasNodeFault, HasOldId};
ghost use Rattle.machine_json.specs.Nodes.{node_parts};
ghost use Rattle.machine_json.specs.Rows.{id_place, open_rows};
ghost use Rattle.machine_json.specs.SecondPass.{IsBadDefault, IsDefaultFault, IsDoubleId, IsLinkFault, MayBeDefault, node_role};

use crate::fault::MachineFault;
use crate::first::earlier;
use crate::first_pass::members_of;
use crate::kind_word::NodeKind;
use crate::links::{first_link_in, led_to};
use crate::nodes::NodeText;
use crate::role::Role;
use node_tree::Outline;
use ordered_json::{OrderedJson, get};
use std::alloc::{AllocError, Global};

/// The first fault of the second pass, from the rows of the nodes and their texts.
pub(crate) fn first_link_fault(
    alloc: Global,
    outline: &Outline,
    nodes: &[NodeText<'_>],
) -> Result<Option<MachineFault>, AllocError>
    requires { outline.now ≡ open_rows (map node_parts nodes.now) }
    ensures { IfOk result (λ first. TellsFirst first (λ fault.
        IsDoubleId (map node_parts nodes.now) fault
        ⊎ (IsLinkFault (map node_parts nodes.now) fault
        ⊎ IsDefaultFault (map node_parts nodes.now) fault))) }
{
    let mut first = None;
    for n in 0..outline.len() {
        first = earlier(first, first_of_node(alloc, outline, n, &nodes[n as usize])?);
    }
    Ok(first)
}

/// The first fault of one node.
fn first_of_node(
    alloc: Global,
    outline: &Outline,
    n: u32,
    node: &NodeText<'_>,
) -> Result<Option<MachineFault>, AllocError>
    requires outline { IsOutline outline.now }
    requires inside { n < length outline.now }
    ensures { IfOk result
        (λ first. TellsFirst first (HasNodeFault outline.now n (node_parts node.now))) }
{
    let link = first_link_in(alloc, outline, n, node_role(node), node.json)?;
    Ok(earlier(
        double_id(outline, n, node),
        earlier(link, default_fault(outline, n, node)),
    ))
}

/// The role of a node: the root's or another one's.
fn node_role(node: &NodeText<'_>) -> Role
    ensures { result ≡ node_role (node_parts node.now) }
{
    match node.parent {
        Some(_) => Role::State,
        None => Role::Root,
    }
}

/// The fault of a node whose id an earlier one has.
fn double_id(outline: &Outline, n: u32, node: &NodeText<'_>) -> Option<MachineFault>
    requires { n < length outline.now }
    ensures { TellsFirst result (HasOldId outline.now n (node_parts node.now)) }
{
    let first = outline.by_id(outline.node(n).id.as_bytes());
    if first == Some(n) {
        None
    } else {
        Some(MachineFault::DoubleId(id_place(node)))
    }
}

/// Where the id of a node stands: at its value, or at the node for a default id.
fn id_place(node: &NodeText<'_>) -> usize
    ensures { result ≡ id_place (node_parts node.now) }
{
    match get(members_of(node.json), "id") {
        Some(id) => id.place(),
        None => node.json.place(),
    }
}

/// The fault of a history node with a default that it may not have.
fn default_fault(outline: &Outline, n: u32, node: &NodeText<'_>) -> Option<MachineFault>
    requires { n < length outline.now }
    ensures { TellsFirst result (HasBadDefault outline.now n (node_parts node.now)) }
{
    match NodeKind::of(node.json) {
        NodeKind::History => bad_default(outline, n, node.json),
        _ => None,
    }
}

/// The fault of the `target` of a history node that leads to no node, or to none that may be its
/// default.
fn bad_default(outline: &Outline, history: u32, json: &OrderedJson) -> Option<MachineFault>
    requires { history < length outline.now }
    ensures { TellsFirst result (IsBadDefault outline.now history json.now) }
{
    let target = get(members_of(json), "target")?;
    match led_to(outline, history, target) {
        Some(node) if may_be_default(outline, history, node) => None,
        _ => Some(MachineFault::NoTarget(target.place())),
    }
}

/// Whether a node is below the parent of a history node, and is no history node.
fn may_be_default(outline: &Outline, history: u32, node: u32) -> bool
    requires history { history < length outline.now }
    requires node { node < length outline.now }
    ensures { IsTrue result ↔ MayBeDefault outline.now history node }
{
    let is_below = match outline.parent(history) {
        Some(parent) => outline.below(node, parent),
        None => true,
    };
    is_below && !outline.node(node).kind.is_history()
}
