//! The first pass as one call.

ghost use Rattle.std.specs.Prelude.{◌≡◌, ◌≢◌, [], None, IfErr, IfOk, OnOk, map, option_map, slice_get};
ghost use Rattle.ordered_json.specs.Words.{place_of};
ghost use Rattle.machine_json.specs.declared.fault.MachineFault.{MachineFault};
ghost use Rattle.machine_json.specs.FirstFaults.{IsFirst};
ghost use Rattle.machine_json.specs.FirstPass.{TellsFirst};
ghost use Rattle.machine_json.specs.MachineFaults.{machine_fault_number, machine_fault_place};
ghost use Rattle.machine_json.specs.Nodes.{AreNodes, HasFirstPassFault, node_parts};

use crate::fault::MachineFault;
use crate::first::earlier;
use crate::first_pass::first_fault;
use crate::nodes::{MAX_NODES, NodeText, nodes_of};
use crate::role::Role;
use ordered_json::OrderedJson;
use std::alloc::{AllocError, Global};

/// Whether each field, key and value of a machine text may stand where it stands, each compound
/// node has
/// its initial child, and there are not too many nodes. It answers the first fault of these. It
/// looks at
/// each part of the text once or twice, and takes memory for a list of the nodes and for each
/// expression.
pub fn check_fields(alloc: Global, text: &OrderedJson) -> Result<(), MachineFault>
    ensures ok { OnOk result ((fault : MachineFault) → ¬ HasFirstPassFault text.now fault) }
    ensures fault { IfErr result (λ fault. fault ≢ MachineFault.Memory →
        IsFirst machine_fault_place machine_fault_number (HasFirstPassFault text.now) fault) }
{
    let nodes = nodes_of(alloc, text)?;
    match first_of_text(alloc, text, nodes.as_slice())? {
        Some(fault) => Err(fault),
        None => Ok(()),
    }
}

/// The first fault of the first pass.
pub(crate) fn first_of_text(
    alloc: Global,
    text: &OrderedJson,
    nodes: &[NodeText<'_>],
) -> Result<Option<MachineFault>, AllocError>
    requires { AreNodes 0 None [] text.now (map node_parts nodes.now) }
    ensures { IfOk result (λ first. TellsFirst first (HasFirstPassFault text.now)) }
{
    let inner = first_fault(alloc, Role::Root, text)?;
    Ok(earlier(inner, extra_node(nodes)))
}

/// The fault of the node that is one more than a machine may have.
fn extra_node(nodes: &[NodeText<'_>]) -> Option<MachineFault>
    ensures { result ≡ option_map (λ node. MachineFault.TooMany (place_of node.json))
        (slice_get (map node_parts nodes.now) MAX_NODES) }
{
    let extra = nodes.get(MAX_NODES)?;
    Some(MachineFault::TooMany(extra.json.place()))
}
