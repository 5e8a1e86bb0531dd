//! Steps of whole machines: what is active after each transition.

use super::{
    ATOMIC, PARALLEL, Row, Transition, entries_of, exits_of, goals_of, history_after, set_of,
    tree_of,
};
use node_tree::{Kind, Recorded, Tree};
use std::alloc::Global;
use std::process::Abort;
use std::test::Fail;
use step_sets::{Domain, NodeSet, entry_set, stays};
use xs_data::Items;

/// Two regions, of which the second has a way out of both: 1 is parallel, 2 has 3 and 4, 5 has 6,
/// and 7 stands outside.
const REGIONS: [Row; 8] = [
    (None, Kind::Compound { initial: 1 }),
    (Some(0), PARALLEL),
    (Some(1), Kind::Compound { initial: 3 }),
    (Some(2), ATOMIC),
    (Some(2), ATOMIC),
    (Some(1), Kind::Compound { initial: 6 }),
    (Some(5), ATOMIC),
    (Some(0), ATOMIC),
];

/// A state in a state, with a shallow history node 5 and a deep one 6, and 7 outside.
const NESTED: [Row; 8] = [
    (None, Kind::Compound { initial: 1 }),
    (Some(0), Kind::Compound { initial: 2 }),
    (Some(1), Kind::Compound { initial: 3 }),
    (Some(2), ATOMIC),
    (Some(2), ATOMIC),
    (Some(1), Kind::Shallow { default: None }),
    (Some(1), Kind::Deep { default: None }),
    (Some(0), ATOMIC),
];

/// A shallow history node 4 with the default 3 and a deep one 5 with none; 6 stands outside and is the
/// initial state.
const DEFAULTS: [Row; 7] = [
    (None, Kind::Compound { initial: 6 }),
    (Some(0), Kind::Compound { initial: 2 }),
    (Some(1), ATOMIC),
    (Some(1), ATOMIC),
    (Some(1), Kind::Shallow { default: Some(3) }),
    (Some(1), Kind::Deep { default: None }),
    (Some(0), ATOMIC),
];

/// The active nodes and the recorded history.
#[derive(Drop)]
struct State {
    active: NodeSet,
    history: Recorded,
}

/// A machine that begins.
fn begin(alloc: Global, tree: &Tree) -> Result<State, Fail> {
    Ok(State {
        active: entry_set(alloc, tree, &[], Domain::Whole)?,
        history: Items::new(alloc),
    })
}

/// The active nodes that stay, and those that are entered.
fn next_active(
    rt: &impl Abort,
    alloc: Global,
    tree: &Tree,
    active: &NodeSet,
    exits: &NodeSet,
    entries: &NodeSet,
) -> Result<NodeSet, Fail> {
    let mut nodes = Vec::new(alloc);
    for node in 0..tree.len() {
        if entries.has(node) || (active.has(node) && !exits.has(node)) {
            nodes.push(node)?;
        }
    }
    set_of(rt, alloc, tree, &nodes)
}

/// Takes one transition.
fn take(
    rt: &impl Abort,
    alloc: Global,
    tree: &Tree,
    before: &State,
    transition: Transition,
) -> Result<State, Fail> {
    let active = &before.active;
    let exits = exits_of(rt, alloc, tree, active, transition)?;
    let history = history_after(rt, alloc, tree, active, &exits, &before.history)?;
    let goals = goals_of(rt, alloc, tree, &history, transition.1)?;
    let entries = entries_of(rt, alloc, tree, goals.as_slice(), transition)?;
    Ok(State {
        active: next_active(rt, alloc, tree, active, &exits, &entries)?,
        history,
    })
}

/// Takes the transitions one after the other, and looks at what is active after each.
fn assert_steps(
    rt: &impl Abort,
    alloc: Global,
    rows: &[Row],
    first: &[u32],
    steps: &[(Transition, &[u32])],
) -> Result<(), Fail> {
    let tree = tree_of(rt, alloc, rows)?;
    let mut now = begin(alloc, &tree)?;
    assert_eq!(rt; now.active.as_slice(), first);
    for (transition, want) in steps {
        now = take(rt, alloc, &tree, &now, *transition)?;
        assert_eq!(rt; now.active.as_slice(), *want);
    }
    Ok(())
}

#[test]
fn the_first_of_two_transitions_stays(rt: HostRuntime) -> Result<(), Fail> {
    let alloc = rt.alloc();
    let tree = tree_of(&rt, alloc, &REGIONS)?;
    let begun = begin(alloc, &tree)?;
    // The way out has 3 in its exit set too, so it yields to the transition of 3.
    let exits = [
        exits_of(&rt, alloc, &tree, &begun.active, (3, &[4], false))?,
        exits_of(&rt, alloc, &tree, &begun.active, (6, &[7], false))?,
    ];
    assert_eq!(rt; stays(alloc, &exits)?.as_slice(), [true, false].as_slice());
    Ok(())
}

#[test]
fn a_way_out_is_taken_in_its_turn(rt: HostRuntime) -> Result<(), Fail> {
    // From 4 there is no transition, so the way out goes second.
    let first = [0, 1, 2, 3, 5, 6];
    let steps: [(Transition, &[u32]); 2] = [
        ((3, &[4], false), &[0, 1, 2, 4, 5, 6]),
        ((6, &[7], false), &[0, 7]),
    ];
    assert_steps(&rt, rt.alloc(), &REGIONS, &first, &steps)
}

#[test]
fn history_comes_back(rt: HostRuntime) -> Result<(), Fail> {
    // Out of the state with 4 active in it, the deep node brings 4 back and the shallow one its parent.
    let steps: [(Transition, &[u32]); 5] = [
        ((3, &[4], false), &[0, 1, 2, 4]),
        ((1, &[7], false), &[0, 7]),
        ((7, &[6], false), &[0, 1, 2, 4]),
        ((1, &[7], false), &[0, 7]),
        ((7, &[5], false), &[0, 1, 2, 3]),
    ];
    assert_steps(&rt, rt.alloc(), &NESTED, &[0, 1, 2, 3], &steps)
}

#[test]
fn without_history_the_default_is_entered(rt: HostRuntime) -> Result<(), Fail> {
    // And without a default the parent with its initial child.
    let first = [0, 6];
    let shallow: [(Transition, &[u32]); 1] = [((6, &[4], false), &[0, 1, 3])];
    assert_steps(&rt, rt.alloc(), &DEFAULTS, &first, &shallow)?;
    let deep: [(Transition, &[u32]); 1] = [((6, &[5], false), &[0, 1, 2])];
    assert_steps(&rt, rt.alloc(), &DEFAULTS, &first, &deep)
}
