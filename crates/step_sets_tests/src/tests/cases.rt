//! Small trees, sets and histories that are the same in each run.

use super::{ATOMIC, PARALLEL, Row, set_of};
use node_tree::{Kind, Recorded, Tree};
use std::alloc::Global;
use std::process::Abort;
use std::test::Fail;
use step_sets::NodeSet;
use xs_data::Items;

/// Numbers that are the same in each run.
#[derive(Drop)]
pub(super) struct Numbers(pub(super) u64);

impl Numbers {
    /// A number below `end`, or 0.
    pub(super) fn below(&mut self, end: u32) -> u32 {
        self.0 = self
            .0
            .wrapping_mul(6_364_136_223_846_793_005)
            .wrapping_add(1_442_695_040_888_963_407);
        if end == 0 {
            return 0;
        }
        ((self.0 >> 33) % u64::from(end)) as u32
    }

    pub(super) fn flip(&mut self) -> bool {
        self.below(2) == 1
    }
}

/// A small tree in document order.
pub(super) fn random_rows(alloc: Global, numbers: &mut Numbers) -> Result<Vec<Row>, Fail> {
    let mut rows: Vec<Row> = vec![in alloc; (None, ATOMIC), (Some(0), ATOMIC)]?;
    let mut last: u32 = 1;
    for _ in 0..numbers.below(9) {
        let above = random_ancestor(rows.as_slice(), numbers, last);
        rows.push((Some(above), ATOMIC))?;
        last = last.saturating_add(1);
    }
    let count = last.saturating_add(1);
    for node in 0..count {
        let kind = random_kind(rows.as_slice(), numbers, node, count);
        if let Some(row) = rows.get_mut(node as usize) {
            row.1 = kind;
        }
    }
    Ok(rows)
}

/// The node or one above it.
fn random_ancestor(rows: &[Row], numbers: &mut Numbers, node: u32) -> u32 {
    let mut above = node;
    for _ in 0..rows.len() {
        match rows.get(above as usize) {
            Some((Some(up), _)) if numbers.flip() => above = *up,
            _ => return above,
        }
    }
    above
}

/// A kind that a node with its children may have.
fn random_kind(rows: &[Row], numbers: &mut Numbers, node: u32, count: u32) -> Kind {
    match random_child(rows, numbers, node, count) {
        None => random_leaf(numbers, count),
        Some(_) if numbers.flip() => PARALLEL,
        Some(initial) => Kind::Compound { initial },
    }
}

/// A child of the node, if it has one.
fn random_child(rows: &[Row], numbers: &mut Numbers, node: u32, count: u32) -> Option<u32> {
    let mut chosen = None;
    for child in 0..count {
        let is_child = matches!(rows.get(child as usize), Some((Some(up), _)) if *up == node);
        if is_child && (chosen.is_none() || numbers.flip()) {
            chosen = Some(child);
        }
    }
    chosen
}

/// A kind that a node without children may have.
fn random_leaf(numbers: &mut Numbers, count: u32) -> Kind {
    let default = if numbers.flip() {
        Some(numbers.below(count))
    } else {
        None
    };
    match numbers.below(4) {
        0 => ATOMIC,
        1 => Kind::Final,
        2 => Kind::Shallow { default },
        _ => Kind::Deep { default },
    }
}

/// A node of the tree, or several.
pub(super) fn random_nodes(
    alloc: Global,
    numbers: &mut Numbers,
    count: u32,
) -> Result<Vec<u32>, Fail> {
    let mut nodes = vec![in alloc; numbers.below(count)]?;
    for _ in 0..3 {
        if numbers.flip() {
            nodes.push(numbers.below(count))?;
        }
    }
    Ok(nodes)
}

/// A set that has one of so many nodes.
pub(super) fn random_set(
    rt: &impl Abort,
    alloc: Global,
    tree: &Tree,
    numbers: &mut Numbers,
    one_of: u32,
) -> Result<NodeSet, Fail> {
    let mut nodes = Vec::new(alloc);
    for node in 0..tree.len() {
        if numbers.below(one_of) == 0 {
            nodes.push(node)?;
        }
    }
    set_of(rt, alloc, tree, &nodes)
}

/// A history with records of some nodes, some of them empty.
pub(super) fn random_history(
    rt: &impl Abort,
    alloc: Global,
    tree: &Tree,
    numbers: &mut Numbers,
) -> Result<Recorded, Fail> {
    let mut history = Items::new(alloc);
    for node in 0..tree.len() {
        if numbers.flip() {
            let nodes = random_set(rt, alloc, tree, numbers, 3)?.list(alloc)?;
            history.push((node, nodes)).map_err(|_| "out of memory")?;
        }
    }
    Ok(history)
}
