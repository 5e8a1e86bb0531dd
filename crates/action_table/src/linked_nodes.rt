//! What is said of nodes, and machines, with their names linked.

ghost use Rattle.std.specs.Prelude.{◌≡◌, IfOk, Some, map};
ghost use Rattle.std.specs.List.{AllZip};
ghost use Rattle.action_table.specs.DefNames.{defs_held};
ghost use Rattle.action_table.specs.Linking.{IsLinkedMachine, IsLinkedNode, all_there, linked_after, linked_delay, linked_invocation, linked_transition, linked_transitions};

use crate::copies::{copy_targets, copy_text, copy_texts, copy_tree};
use crate::linked_forms::actor_number;
use crate::linked_guards::linked_guard_or;
use crate::linked_uses::linked_actions;
use crate::table::Table;
use guard_eval::{
    Def, Delays, Invocation, Invocations, NodeDef, NodeDefs, Transition, Transitions,
};
use machine_json::{
    Machine, UnlinkedDelay, UnlinkedDelays, UnlinkedInvocation, UnlinkedInvocations, UnlinkedNode,
    UnlinkedTransition, UnlinkedTransitions,
};
use std::alloc::{AllocError, Global};
use std::sync::Arc;
use xs_data::{Items, Text};
use xs_model::{Expr, copy_expr};

/// Machines with their names linked, each at its own place.
pub(crate) fn linked_machines(
    alloc: Global,
    table: &Table,
    machines: &[Machine],
) -> Result<Vec<Arc<Def>>, AllocError>
    ensures { IfOk result
        (λ defs. AllZip (IsLinkedMachine table.now) machines.now (defs_held defs.items)) }
{
    let mut defs = Vec::with_capacity(alloc, machines.len())?;
    for machine in machines {
        let def = linked_machine(alloc, table, machine)?;
        let held = Arc::new(alloc, def)?;
        defs.push(held)?;
    }
    Ok(defs)
}

/// A machine with its names linked. It costs as much as the machine is large, and as the forms of the
/// actions that it uses, as often as it uses them.
fn linked_machine(alloc: Global, table: &Table, machine: &Machine) -> Result<Def, AllocError>
    ensures { IfOk result (λ def. IsLinkedMachine table.now machine.now def) }
{
    let name = machine.name.copy(alloc)?;
    let tree = copy_tree(alloc, &machine.tree)?;
    let context = copy_expr(alloc, &machine.context)?;
    let output = copy_expr(alloc, &machine.output)?;
    let nodes = linked_nodes(alloc, table, machine.nodes.as_slice())?;
    Ok(Def {
        name,
        tree,
        context,
        output,
        nodes,
    })
}

fn linked_nodes(
    alloc: Global,
    table: &Table,
    nodes: &[UnlinkedNode],
) -> Result<NodeDefs, AllocError>
    ensures { IfOk result (λ linked. AllZip (IsLinkedNode table.now) nodes.now linked) }
{
    let mut linked = Vec::with_capacity(alloc, nodes.len())?;
    for node in nodes {
        let one = linked_node(alloc, table, node)?;
        linked.push(one)?;
    }
    Ok(Items::from_vec(linked))
}

fn linked_node(alloc: Global, table: &Table, node: &UnlinkedNode) -> Result<NodeDef, AllocError>
    ensures { IfOk result (λ linked. IsLinkedNode table.now node.now linked) }
{
    let entry = linked_actions(alloc, table, node.entry.as_slice())?;
    let exit = linked_actions(alloc, table, node.exit.as_slice())?;
    let transitions = linked_transitions(alloc, table, &node.transitions)?;
    let always = linked_transitions(alloc, table, &node.always)?;
    let after = linked_delays(alloc, table, &node.after)?;
    let invoke = linked_invocations(alloc, table, &node.invoke)?;
    let output = copy_expr(alloc, &node.output)?;
    let tags = copy_texts(alloc, node.tags.as_slice())?;
    Ok(NodeDef {
        entry,
        exit,
        transitions,
        always,
        after,
        invoke,
        output,
        tags,
    })
}

fn linked_transitions(
    alloc: Global,
    table: &Table,
    transitions: &UnlinkedTransitions,
) -> Result<Transitions, AllocError>
    ensures { IfOk result (λ linked. linked_transitions table.now transitions.now ≡ Some linked) }
{
    let mut linked = Vec::with_capacity(alloc, transitions.len())?;
    for transition in transitions.as_slice() {
        let one = linked_transition(alloc, table, transition)?;
        linked.push(one)?;
    }
    Ok(Items::from_vec(linked))
}

fn linked_transition(
    alloc: Global,
    table: &Table,
    transition: &UnlinkedTransition,
) -> Result<Transition, AllocError>
    ensures { IfOk result (λ linked. linked_transition table.now transition.now ≡ Some linked) }
{
    let guard = linked_guard_or(alloc, table, &transition.guard)?;
    let actions = linked_actions(alloc, table, transition.actions.as_slice())?;
    let descriptor = transition.descriptor.copy(alloc)?;
    let targets = copy_targets(alloc, &transition.targets)?;
    Ok(Transition {
        source: transition.source,
        descriptor,
        targets,
        reenter: transition.reenter,
        guard,
        actions,
    })
}

fn linked_delays(
    alloc: Global,
    table: &Table,
    delays: &UnlinkedDelays,
) -> Result<Delays, AllocError>
    ensures { IfOk result
        (λ linked. all_there (map (linked_after table.now) delays.now) ≡ Some linked) }
{
    let mut linked = Vec::with_capacity(alloc, delays.len())?;
    for after in delays.as_slice() {
        let one = linked_after(alloc, table, after)?;
        linked.push(one)?;
    }
    Ok(Items::from_vec(linked))
}

/// The type of the event after a delay, and how long the delay is.
fn linked_after(
    alloc: Global,
    table: &Table,
    after: &(Text, UnlinkedDelay),
) -> Result<(Text, Expr), AllocError>
    ensures { IfOk result (λ linked. linked_after table.now after.now ≡ Some linked) }
{
    let event = after.0.copy(alloc)?;
    let delay = linked_delay(alloc, table, &after.1)?;
    Ok((event, delay))
}

fn linked_delay(alloc: Global, table: &Table, delay: &UnlinkedDelay) -> Result<Expr, AllocError>
    ensures { IfOk result (λ linked. linked_delay table.now delay.now ≡ Some linked) }
{
    match delay {
        UnlinkedDelay::Milliseconds(milliseconds) => Ok(Expr::Int(*milliseconds)),
        // Each name was looked up before, so that memory alone may be wanting.
        UnlinkedDelay::Named(named) => match table.delays.get(named.name.as_bytes()) {
            Some(held) => copy_expr(alloc, held),
            None => Err(AllocError),
        },
    }
}

fn linked_invocations(
    alloc: Global,
    table: &Table,
    invocations: &UnlinkedInvocations,
) -> Result<Invocations, AllocError>
    ensures { IfOk result
        (λ linked. all_there (map (linked_invocation table.now) invocations.now) ≡ Some linked) }
{
    let mut linked = Vec::with_capacity(alloc, invocations.len())?;
    for invocation in invocations.as_slice() {
        let one = linked_invocation(alloc, table, invocation)?;
        linked.push(one)?;
    }
    Ok(Items::from_vec(linked))
}

fn linked_invocation(
    alloc: Global,
    table: &Table,
    invocation: &UnlinkedInvocation,
) -> Result<Invocation, AllocError>
    ensures { IfOk result (λ linked. linked_invocation table.now invocation.now ≡ Some linked) }
{
    let src = actor_number(table, &invocation.src)?;
    let id = invocation.id.copy(alloc)?;
    let input = copy_expr(alloc, &invocation.input)?;
    let system = copy_text(alloc, &invocation.system)?;
    Ok(Invocation {
        id,
        src,
        input,
        system,
        observed: invocation.observed,
    })
}
