//! A machine text as a whole.

ghost use Rattle.std.specs.Prelude.{◌≡◌, ◌≢◌, ℕ, [], None, Some, IfErr, IfOk, codes, length, map, slice_get};
ghost use Rattle.ordered_json.specs.OwnKeys.{HasOwnKeys};
ghost use Rattle.ordered_json.specs.Words.{get, member_parts};
ghost use Rattle.xs_model.specs.declared.expr.Expr.TheVariants as expression;
ghost use Rattle.machine_json.specs.declared.fault.MachineFault.{MachineFault};
ghost use Rattle.machine_json.specs.declared.machine.UnlinkedNode.{UnlinkedNode};
ghost use Rattle.machine_json.specs.Faultless.{AreFaultless};
ghost use Rattle.machine_json.specs.Machines.{IsAnsweredFault, MeansMachine, MeansNode};
ghost use Rattle.machine_json.specs.Meaning.{MeansExprOr};
ghost use Rattle.machine_json.specs.Nodes.{AreNodes, HasFirstPassFault, NodeParts, node_parts};
ghost use Rattle.machine_json.specs.ReadMachine.{IsReadMachine};
ghost use Rattle.machine_json.specs.Rows.{open_rows};
ghost use Rattle.machine_json.specs.SecondPass.{HasSecondPassFault};

use crate::defaults::tree_of;
use crate::fault::MachineFault;
use crate::fields_check::first_of_text;
use crate::first_pass::members_of;
use crate::invocations::{expr_of, expr_under};
use crate::machine::{Machine, UnlinkedNodes};
use crate::node_meaning::node_meaning;
use crate::nodes::{NodeText, nodes_of};
use crate::rows::{outline_of, root_id};
use crate::second_pass::first_link_fault;
use node_tree::Outline;
use ordered_json::{Member, OrderedJson, get};
use std::alloc::{AllocError, Global};
use xs_data::Items;
use xs_model::Expr;

/// The machine that a text means, or the fault that is answered of it: the first one of the first
/// pass, or of the second pass where the first finds none. The place of the machine is that of the
/// text. Names of the table are left as they are written, each with its place. It looks at each
/// part of the text a few times, and takes memory for the machine, for lists of its nodes and for
/// the tables of an `Outline`; a default id is kept whole, so a key counts once for each node
/// below it.
pub fn read_machine(alloc: Global, text: &OrderedJson) -> Result<Machine, MachineFault>
    ensures ok { IfOk result (λ machine. MeansMachine text.now machine) }
    ensures linkable { HasOwnKeys text.now → IfOk result IsReadMachine }
    ensures fault { IfErr result
        (λ fault. fault ≢ MachineFault.Memory → IsAnsweredFault text.now fault) }
{
    let nodes = nodes_of(alloc, text)?;
    if let Some(fault) = first_of_text(alloc, text, nodes.as_slice())? {
        return Err(fault);
    }
    let outline = outline_of(alloc, nodes.as_slice())?;
    if let Some(fault) = first_link_fault(alloc, &outline, nodes.as_slice())? {
        return Err(fault);
    }
    let machine = machine_of(alloc, text, nodes.as_slice(), outline)?;
    Ok(machine)
}

/// The machine of a text in which neither pass finds a fault.
fn machine_of(
    alloc: Global,
    text: &OrderedJson,
    nodes: &[NodeText<'_>],
    outline: Outline,
) -> Result<Machine, AllocError>
    requires nodes { AreNodes 0 None [] text.now (map node_parts nodes.now) }
    requires first_pass { (fault : MachineFault) → ¬ HasFirstPassFault text.now fault }
    requires second_pass { (fault : MachineFault) → ¬ HasSecondPassFault text.now fault }
    requires outline { outline ≡ open_rows (map node_parts nodes.now) }
    ensures { IfOk result (λ machine. MeansMachine text.now machine) }
{
    let members = members_of(text);
    let said = each_meaning(alloc, &outline, nodes)?;
    Ok(Machine {
        name: root_id(alloc, nodes)?,
        place: text.place(),
        tree: tree_of(alloc, outline, nodes)?,
        context: context_of(alloc, members)?,
        output: expr_under(alloc, "output", members)?,
        nodes: said,
    })
}

/// What the text says of each node.
fn each_meaning(
    alloc: Global,
    outline: &Outline,
    nodes: &[NodeText<'_>],
) -> Result<UnlinkedNodes, AllocError>
    requires outline { outline.now ≡ open_rows (map node_parts nodes.now) }
    requires faultless { AreFaultless (map node_parts nodes.now) }
    ensures count { IfOk result (λ said. length said ≡ length nodes.now) }
    ensures each { IfOk result (λ each. (n : ℕ) (node : NodeParts) (said : UnlinkedNode)
        → slice_get (map node_parts nodes.now) n ≡ Some node → slice_get each n ≡ Some said
        → MeansNode (map node_parts nodes.now) n node said) }
{
    let mut said = Vec::with_capacity(alloc, nodes.len())?;
    for n in 0..outline.len() {
        said.push(node_meaning(alloc, outline, nodes, n)?)?;
    }
    Ok(Items::from_vec(said))
}

/// What an actor's context is at first: the empty map where the text says nothing.
fn context_of(alloc: Global, members: &[Member]) -> Result<Expr, AllocError>
    ensures { IfOk result (λ expr.
        MeansExprOr (expression.Map []) (get (codes "context") (map member_parts members.now)) expr) }
{
    match get(members, "context") {
        Some(json) => expr_of(alloc, json),
        None => Ok(Expr::Map(Items::new(alloc))),
    }
}
