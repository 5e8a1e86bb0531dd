//! What a machine text without faults says of a node.

ghost use Rattle.std.specs.Prelude.{◌≡◌, ◌<◌, IfOk, Some, length, map, slice_get};
ghost use Rattle.machine_json.specs.Faultless.{AreFaultless};
ghost use Rattle.machine_json.specs.Machines.{MeansNode};
ghost use Rattle.machine_json.specs.Nodes.{NodeParts, node_parts};
ghost use Rattle.machine_json.specs.Rows.{open_rows};

use crate::actions::{actions_under, tags_of};
use crate::delays::delays_of;
use crate::first_pass::members_of;
use crate::invocations::{each_invocation, expr_under};
use crate::machine::UnlinkedNode;
use crate::nodes::NodeText;
use crate::transitions::{always_of, candidates_of, invocation_texts};
use node_tree::Outline;
use std::alloc::{AllocError, Global};

/// What the text says of the node of a number. It looks at each part of the node once, and at its
/// members once for each field; each target costs a look-up for each of its keys.
pub(crate) fn node_meaning(
    alloc: Global,
    outline: &Outline,
    nodes: &[NodeText<'_>],
    n: u32,
) -> Result<UnlinkedNode, AllocError>
    requires outline { outline.now ≡ open_rows (map node_parts nodes.now) }
    requires faultless { AreFaultless (map node_parts nodes.now) }
    requires inside { n < length nodes.now }
    ensures { IfOk result (λ said. (node : NodeParts) → slice_get (map node_parts nodes.now) n ≡ Some node
        → MeansNode (map node_parts nodes.now) n node said) }
{
    let node = &nodes[n as usize];
    let id = outline.node(n).id.as_str();
    let members = members_of(node.json);
    Ok(UnlinkedNode {
        entry: actions_under(alloc, "entry", members)?,
        exit: actions_under(alloc, "exit", members)?,
        transitions: candidates_of(alloc, outline, n, id, node)?,
        always: always_of(alloc, outline, n, node)?,
        after: delays_of(alloc, id, members)?,
        invoke: each_invocation(alloc, id, invocation_texts(members))?,
        output: expr_under(alloc, "output", members)?,
        tags: tags_of(alloc, members)?,
    })
}
