//! Worked steps as computations of sets, and the calls beside the definitions computed plainly.

ghost use Rattle.std.specs.Prelude.{◌↔◌, ◌<◌, IsTrue, length};
ghost use Rattle.std.specs.List.Sorted.{IsStrictlyIncreasing};
ghost use Rattle.node_tree.specs.Nodes.{AreNodes};
ghost use Rattle.step_sets.specs.Domains.{IsDomainOf};
ghost use Rattle.step_sets.specs.History.{RecordsNodes};

use node_tree::{Kind, Node, NodeRows, Recorded, Targets, Tree};
use std::alloc::Global;
use std::process::Abort;
use std::test::Fail;
use step_sets::{Domain, NodeSet, domain, entry_set, exit_set, goals, record_history};
use xs_data::{Items, Text};

mod agreement;
mod cases;
mod slow;
mod steps;

/// The parent and the kind of a node.
type Row = (Option<u32>, Kind);

/// A transition: its source, its targets, and whether it reenters.
type Transition<'a> = (u32, &'a [u32], bool);

const ATOMIC: Kind = Kind::Atomic;

const PARALLEL: Kind = Kind::Parallel;

fn tree_of(rt: &impl Abort, alloc: Global, rows: &[Row]) -> Result<Tree, Fail> {
    let mut nodes: NodeRows = Items::new(alloc);
    for (i, (parent, kind)) in rows.iter().enumerate() {
        let node = Node {
            parent: *parent,
            kind: *kind,
            key: Text::from_string(format!(in alloc; "{i}")?),
            id: Text::from_string(format!(in alloc; "m.{i}")?),
        };
        nodes.push(node).map_err(|_| "out of memory")?;
    }
    assert!(rt; nodes.len() > 0 && nodes.len() < 4_294_967_296);
    Ok(Tree::build(alloc, nodes)?)
}

fn are_nodes(tree: &Tree, nodes: &[u32]) -> bool
    ensures { IsTrue result ↔ AreNodes tree.now nodes.now }
{
    let count = tree.len();
    nodes.iter().all(|n| *n < count)
}

fn is_record(tree: &Tree, entry: &(u32, Targets)) -> bool
    ensures { IsTrue result ↔ (entry.now.0 < length tree.now) × AreNodes tree.now entry.now.1 }
{
    entry.0 < tree.len() && are_nodes(tree, entry.1.as_slice())
}

fn are_records(tree: &Tree, history: &Recorded) -> bool
    ensures { IsTrue result ↔ RecordsNodes tree.now history.now }
{
    history
        .as_slice()
        .iter()
        .all(|entry| is_record(tree, entry))
}

fn is_rising(nodes: &[u32]) -> bool
    ensures { IsTrue result → IsStrictlyIncreasing nodes.now }
{
    for i in 1..nodes.len() {
        if nodes[i - 1] >= nodes[i] {
            return false;
        }
    }
    true
}

fn set_of(rt: &impl Abort, alloc: Global, tree: &Tree, nodes: &[u32]) -> Result<NodeSet, Fail> {
    assert!(rt; are_nodes(tree, nodes));
    assert!(rt; is_rising(nodes));
    Ok(NodeSet::of(alloc, tree, nodes)?)
}

fn domain_of(rt: &impl Abort, tree: &Tree, transition: Transition) -> Domain
    ensures { IsDomainOf tree.now result }
{
    let (source, targets, reenter) = transition;
    assert!(rt; source < tree.len() && targets.len() > 0);
    assert!(rt; are_nodes(tree, targets));
    domain(tree, source, targets, reenter)
}

fn exits_of(
    rt: &impl Abort,
    alloc: Global,
    tree: &Tree,
    active: &NodeSet,
    transition: Transition,
) -> Result<NodeSet, Fail> {
    let domain = domain_of(rt, tree, transition);
    assert!(rt; are_nodes(tree, active.as_slice()));
    Ok(exit_set(alloc, tree, active, domain)?)
}

fn history_after(
    rt: &impl Abort,
    alloc: Global,
    tree: &Tree,
    active: &NodeSet,
    exits: &NodeSet,
    old: &Recorded,
) -> Result<Recorded, Fail> {
    assert!(rt; are_nodes(tree, active.as_slice()));
    assert!(rt; are_nodes(tree, exits.as_slice()));
    assert!(rt; are_records(tree, old));
    Ok(record_history(alloc, tree, active, exits, old)?)
}

fn goals_of(
    rt: &impl Abort,
    alloc: Global,
    tree: &Tree,
    history: &Recorded,
    targets: &[u32],
) -> Result<Targets, Fail> {
    assert!(rt; are_records(tree, history));
    assert!(rt; are_nodes(tree, targets));
    Ok(goals(alloc, tree, history, targets)?)
}

fn entries_of(
    rt: &impl Abort,
    alloc: Global,
    tree: &Tree,
    goals: &[u32],
    transition: Transition,
) -> Result<NodeSet, Fail> {
    let domain = domain_of(rt, tree, transition);
    assert!(rt; are_nodes(tree, goals));
    Ok(entry_set(alloc, tree, goals, domain)?)
}
