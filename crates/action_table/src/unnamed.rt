//! The first name of the machines for which nothing stands.

ghost use Rattle.std.specs.Prelude.{◌≡◌, is_some, position};
ghost use Rattle.std.specs.List.{flat_map};
ghost use Rattle.std.specs.Str.{bytes_eq};
ghost use Rattle.xs_model.specs.Rising.{get};
ghost use Rattle.action_table.specs.Unnamed.{least_unnamed, place_unless};
ghost use Rattle.action_table.specs.Uses.{uses, uses_of_actions, uses_of_delay, uses_of_guard, uses_of_invocation, uses_of_machine, uses_of_node, uses_of_table, uses_of_transition};

use crate::first::least_of;
use crate::machine_ids::MachineIds;
use crate::table::Table;
use crate::unnamed_forms::unnamed_in_table;
use machine_json::{
    Machine, Named, UnlinkedAction, UnlinkedDelay, UnlinkedGuard, UnlinkedInvocation, UnlinkedNode,
    UnlinkedTransition,
};
use xs_data::Text;
use xs_model::Names;

/// The least place at which machines or the table use a name for which nothing stands. It looks at
/// each name once.
pub(crate) fn first_unnamed(ids: &MachineIds, machines: &[Machine], table: &Table) -> Option<usize>
    ensures { result ≡ least_unnamed ids.now table.now (uses machines.now table.now) }
{
    let first = unnamed_in_machines(ids, table, machines);
    least_of(first, unnamed_in_table(ids, table))
}

/// The place of a name, unless it is one of these.
pub(crate) fn place_unless_held<T>(names: &Names<T>, named: &Named) -> Option<usize>
    ensures { result ≡ place_unless (is_some (get named.now.name names.now)) named.now }
{
    if names.get(named.name.as_bytes()).is_some() {
        return None;
    }
    Some(named.place)
}

/// The place of a name, unless it has a place among these.
pub(crate) fn place_unless_listed<T>(names: &Names<T>, named: &Named) -> Option<usize>
    ensures { result ≡ place_unless
        (is_some (position (λ pair. bytes_eq named.now.name pair.0) names.now)) named.now }
{
    if names.place_of(named.name.as_bytes()).is_some() {
        return None;
    }
    Some(named.place)
}

fn unnamed_in_machines(ids: &MachineIds, table: &Table, machines: &[Machine]) -> Option<usize>
    ensures { result ≡ least_unnamed ids.now table.now (flat_map uses_of_machine machines.now) }
{
    let mut least = None;
    for machine in machines {
        least = least_of(
            least,
            unnamed_in_nodes(ids, table, machine.nodes.as_slice()),
        );
    }
    least
}

fn unnamed_in_nodes(ids: &MachineIds, table: &Table, nodes: &[UnlinkedNode]) -> Option<usize>
    ensures { result ≡ least_unnamed ids.now table.now (flat_map uses_of_node nodes.now) }
{
    let mut least = None;
    for node in nodes {
        least = least_of(least, unnamed_in_node(ids, table, node));
    }
    least
}

fn unnamed_in_node(ids: &MachineIds, table: &Table, node: &UnlinkedNode) -> Option<usize>
    ensures { result ≡ least_unnamed ids.now table.now (uses_of_node node.now) }
{
    let entry = unnamed_in_actions(ids, table, node.entry.as_slice());
    let exit = unnamed_in_actions(ids, table, node.exit.as_slice());
    let transitions = unnamed_in_transitions(ids, table, node.transitions.as_slice());
    let always = unnamed_in_transitions(ids, table, node.always.as_slice());
    let after = unnamed_in_delays(ids, table, node.after.as_slice());
    let invoke = unnamed_in_invocations(ids, table, node.invoke.as_slice());
    let first = least_of(least_of(entry, exit), transitions);
    least_of(least_of(least_of(first, always), after), invoke)
}

fn unnamed_in_actions(ids: &MachineIds, table: &Table, used: &[UnlinkedAction]) -> Option<usize>
    ensures { result ≡ least_unnamed ids.now table.now (uses_of_actions used.now) }
{
    let mut least = None;
    for one in used {
        least = least_of(least, place_unless_held(&table.actions, &one.action));
    }
    least
}

fn unnamed_in_transitions(
    ids: &MachineIds,
    table: &Table,
    transitions: &[UnlinkedTransition],
) -> Option<usize>
    ensures { result
        ≡ least_unnamed ids.now table.now (flat_map uses_of_transition transitions.now) }
{
    let mut least = None;
    for transition in transitions {
        least = least_of(least, unnamed_in_transition(ids, table, transition));
    }
    least
}

fn unnamed_in_transition(
    ids: &MachineIds,
    table: &Table,
    transition: &UnlinkedTransition,
) -> Option<usize>
    ensures { result ≡ least_unnamed ids.now table.now (uses_of_transition transition.now) }
{
    let actions = unnamed_in_actions(ids, table, transition.actions.as_slice());
    match &transition.guard {
        Some(guard) => least_of(unnamed_in_guard(ids, table, guard), actions),
        None => actions,
    }
}

#[cycle(unnamed_guard)]
fn unnamed_in_guard(ids: &MachineIds, table: &Table, guard: &UnlinkedGuard) -> Option<usize>
    ensures { result ≡ least_unnamed ids.now table.now (uses_of_guard guard.now) }
{
    match guard {
        UnlinkedGuard::Test { guard, .. } => place_unless_held(&table.guards, guard),
        UnlinkedGuard::And(parts) => unnamed_in_guards(ids, table, parts.as_slice()),
        UnlinkedGuard::Or(parts) => unnamed_in_guards(ids, table, parts.as_slice()),
        UnlinkedGuard::Not(part) => unnamed_in_guard(ids, table, part.get()),
        UnlinkedGuard::In(_) => None,
    }
}

#[cycle(unnamed_guard)]
fn unnamed_in_guards(ids: &MachineIds, table: &Table, guards: &[UnlinkedGuard]) -> Option<usize>
    ensures { result ≡ least_unnamed ids.now table.now (flat_map uses_of_guard guards.now) }
{
    let mut least = None;
    for guard in guards {
        least = least_of(least, unnamed_in_guard(ids, table, guard));
    }
    least
}

fn unnamed_in_delays(
    ids: &MachineIds,
    table: &Table,
    delays: &[(Text, UnlinkedDelay)],
) -> Option<usize>
    ensures { result ≡ least_unnamed ids.now table.now (flat_map uses_of_delay delays.now) }
{
    let mut least = None;
    for delay in delays {
        least = least_of(least, unnamed_in_delay(ids, table, delay));
    }
    least
}

fn unnamed_in_delay(ids: &MachineIds, table: &Table, delay: &(Text, UnlinkedDelay)) -> Option<usize>
    ensures { result ≡ least_unnamed ids.now table.now (uses_of_delay delay.now) }
{
    match &delay.1 {
        UnlinkedDelay::Milliseconds(_) => None,
        UnlinkedDelay::Named(named) => place_unless_held(&table.delays, named),
    }
}

fn unnamed_in_invocations(
    ids: &MachineIds,
    table: &Table,
    invocations: &[UnlinkedInvocation],
) -> Option<usize>
    ensures { result ≡ least_unnamed ids.now table.now (flat_map uses_of_invocation invocations.now) }
{
    let mut least = None;
    for invocation in invocations {
        least = least_of(least, place_unless_listed(&table.actors, &invocation.src));
    }
    least
}
