//! The definitions computed plainly, node by node, to compare the calls with.

use super::Row;
use node_tree::{Kind, Recorded};
use std::alloc::{AllocError, Global};
use step_sets::{Domain, NodeSet};

fn parent(rows: &[Row], node: u32) -> Option<u32> {
    rows.get(node as usize).and_then(|row| row.0)
}

fn kind(rows: &[Row], node: u32) -> Kind {
    rows.get(node as usize).map_or(Kind::Atomic, |row| row.1)
}

fn is_history(rows: &[Row], node: u32) -> bool {
    matches!(kind(rows, node), Kind::Shallow { .. } | Kind::Deep { .. })
}

fn is_leaf(rows: &[Row], node: u32) -> bool {
    matches!(kind(rows, node), Kind::Atomic | Kind::Final)
}

/// Climbs from the one node to the other.
fn is_below(rows: &[Row], low: u32, high: u32) -> bool {
    let mut node = low;
    for _ in 0..rows.len() {
        match parent(rows, node) {
            None => return false,
            Some(above) if above == high => return true,
            Some(above) => node = above,
        }
    }
    false
}

fn is_within(rows: &[Row], low: u32, high: u32) -> bool {
    low == high || is_below(rows, low, high)
}

fn has_below(rows: &[Row], nodes: &[u32], high: u32) -> bool {
    nodes.iter().all(|node| is_below(rows, *node, high))
}

/// Of the nodes above the source and all targets the last one, which is the innermost.
fn innermost(rows: &[Row], source: u32, targets: &[u32], count: u32) -> Option<u32> {
    let mut last = None;
    for node in 0..count {
        if is_below(rows, source, node) && has_below(rows, targets, node) {
            last = Some(node);
        }
    }
    last
}

pub(super) fn domain(
    rows: &[Row],
    source: u32,
    targets: &[u32],
    reenter: bool,
    count: u32,
) -> Domain {
    if !reenter && targets.iter().all(|t| is_within(rows, *t, source)) {
        return Domain::Node(source);
    }
    match innermost(rows, source, targets, count) {
        Some(node) => Domain::Node(node),
        None if reenter => Domain::Whole,
        None => Domain::Node(0),
    }
}

fn is_under(rows: &[Row], domain: Domain, node: u32) -> bool {
    match domain {
        Domain::Node(high) => is_below(rows, node, high),
        Domain::Whole => true,
    }
}

pub(super) fn is_exited(rows: &[Row], active: &[u32], domain: Domain, node: u32) -> bool {
    active.contains(&node) && is_under(rows, domain, node)
}

fn leads_to_goal(rows: &[Row], goals: &[u32], node: u32) -> bool {
    goals.iter().any(|goal| is_within(rows, *goal, node))
}

fn has_goal_below(rows: &[Row], goals: &[u32], node: u32) -> bool {
    goals.iter().any(|goal| is_below(rows, *goal, node))
}

/// Whether the parent has the child active in it whenever no goal says otherwise.
fn enters_child(rows: &[Row], goals: &[u32], parent: u32, node: u32) -> bool {
    match kind(rows, parent) {
        Kind::Parallel => true,
        Kind::Compound { initial } => initial == node && !has_goal_below(rows, goals, parent),
        _ => false,
    }
}

/// Whether a node is entered, by going up until a node decides. Each one on the way is entered if its
/// parent is and enters it; the way ends at a node that leads to a goal, at the domain, or in vain.
pub(super) fn is_entered(rows: &[Row], goals: &[u32], domain: Domain, low: u32) -> bool {
    let mut node = low;
    for _ in 0..rows.len() {
        if node == 0 && matches!(domain, Domain::Whole) {
            return true;
        }
        if !is_under(rows, domain, node) || is_history(rows, node) {
            return false;
        }
        if leads_to_goal(rows, goals, node) {
            return true;
        }
        match parent(rows, node) {
            Some(above) if enters_child(rows, goals, above, node) => node = above,
            _ => return false,
        }
        if matches!(domain, Domain::Node(top) if top == node) {
            return true;
        }
    }
    false
}

/// What is recorded for a node, if anything is.
pub(super) fn record_of(history: &Recorded, node: u32) -> Option<&[u32]> {
    for record in history.as_slice() {
        if record.0 == node {
            return Some(record.1.as_slice());
        }
    }
    None
}

pub(super) fn goals(
    alloc: Global,
    rows: &[Row],
    history: &Recorded,
    targets: &[u32],
) -> Result<Vec<u32>, AllocError> {
    let mut goals = Vec::new(alloc);
    for target in targets {
        match (kind(rows, *target), record_of(history, *target)) {
            (Kind::Shallow { .. } | Kind::Deep { .. }, Some([first, rest @ ..])) => {
                goals.push(*first)?;
                goals.extend_from_slice(rest)?;
            }
            _ => goals.push(stand_in(rows, *target))?,
        }
    }
    Ok(goals)
}

/// What a target stands for where nothing is recorded for it.
fn stand_in(rows: &[Row], target: u32) -> u32 {
    match kind(rows, target) {
        Kind::Shallow { default } | Kind::Deep { default } => {
            default.or(parent(rows, target)).unwrap_or(target)
        }
        _ => target,
    }
}

/// Whether a node is a history node whose parent is left.
pub(super) fn is_recorded_now(rows: &[Row], exits: &[u32], node: u32) -> bool {
    match parent(rows, node) {
        Some(above) => is_history(rows, node) && exits.contains(&above),
        None => false,
    }
}

/// Whether a history node remembers an active node.
fn is_remembered(rows: &[Row], history: u32, node: u32) -> bool {
    match (kind(rows, history), parent(rows, history)) {
        (Kind::Shallow { .. }, Some(above)) => parent(rows, node) == Some(above),
        (Kind::Deep { .. }, Some(above)) => is_below(rows, node, above) && is_leaf(rows, node),
        _ => false,
    }
}

/// The active nodes that a history node remembers.
pub(super) fn remembered(
    alloc: Global,
    rows: &[Row],
    active: &[u32],
    history: u32,
) -> Result<Vec<u32>, AllocError> {
    let mut nodes = Vec::new(alloc);
    for node in active {
        if is_remembered(rows, history, *node) {
            nodes.push(*node)?;
        }
    }
    Ok(nodes)
}

fn meets(one: &NodeSet, other: &NodeSet) -> bool {
    one.as_slice().iter().any(|node| other.has(*node))
}

/// Whether an exit set has a node in common with that of one that stays before it.
fn is_preempted(exits: &[NodeSet], stays: &[bool], exit: &NodeSet) -> bool {
    exits
        .iter()
        .zip(stays)
        .any(|(earlier, stays)| *stays && meets(earlier, exit))
}

pub(super) fn stays(alloc: Global, exits: &[NodeSet]) -> Result<Vec<bool>, AllocError> {
    let mut stays = Vec::new(alloc);
    for exit in exits {
        let stays_too = !is_preempted(exits, stays.as_slice(), exit);
        stays.push(stays_too)?;
    }
    Ok(stays)
}
