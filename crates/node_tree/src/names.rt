//! Tables from names to nodes.

ghost use Rattle.std.specs.Prelude.{◌≡◌, ◌&&◌, ◌<◌, ◌^◌, ℕ, Some, None, List, IfOk, OnOk, if◌then◌else◌, is_none, length, slice_index_or};
ghost use Rattle.std.specs.Str.{bytes_eq};
ghost use Rattle.node_tree.specs.Nodes.{ArePlaced, TellsRepeated};
ghost use Rattle.node_tree.specs.Tables.{AreChildren, AreIds, NodesByName, node_named};

use crate::node::Node;
use std::alloc::{AllocError, Global};
use std::collections::BTreeMap;

/// A map from names to nodes.
pub(crate) type NodesByName = BTreeMap<Vec<u8>, u32>;

/// The nodes by their ids, the first of those with one id, and the first row whose id an earlier one
/// has.
pub(crate) fn index_ids(
    alloc: Global,
    nodes: &[Node],
) -> Result<(NodesByName, Option<u32>), AllocError>
    requires few { length nodes.now < 2 ^ 32 }
    ensures ids { IfOk result (λ index. AreIds nodes.now index.0) }
    ensures repeated { IfOk result (λ index. TellsRepeated nodes.now index.1) }
{
    let mut ids = BTreeMap::new(alloc);
    let mut repeated = None;
    for n in 0..nodes.len() as u32 {
        let before = enter(&mut ids, alloc, nodes[n as usize].id.as_bytes(), n)?;
        repeated = repeated.or(before.and(Some(n)));
    }
    Ok((ids, repeated))
}

/// For each node its children by their keys, the first of those with one key.
pub(crate) fn index_children(alloc: Global, nodes: &[Node]) -> Result<Vec<NodesByName>, AllocError>
    requires few { length nodes.now < 2 ^ 32 }
    requires placed { ArePlaced nodes.now (length nodes.now) }
    ensures { IfOk result (λ children. AreChildren nodes.now children.items) }
{
    let mut children = empty_tables(alloc, nodes.len())?;
    for n in 0..nodes.len() as u32 {
        let node = &nodes[n as usize];
        if let Some(parent) = node.parent {
            enter(
                &mut children[parent as usize],
                alloc,
                node.key.as_bytes(),
                n,
            )?;
        }
    }
    Ok(children)
}

/// A number of tables without a name.
fn empty_tables(alloc: Global, count: usize) -> Result<Vec<NodesByName>, AllocError>
    ensures len { IfOk result (λ tables. length tables.items ≡ count) }
    ensures empty { IfOk result (λ tables. (n : ℕ) (d : NodesByName) (name : List ℕ) →
        n < count → node_named (slice_index_or tables.items n d) name ≡ None) }
{
    let mut tables = Vec::with_capacity(alloc, count)?;
    for _ in 0..count {
        tables.push(BTreeMap::new(alloc))?;
    }
    Ok(tables)
}

/// Enters a name for a node, unless it stands for one already, and answers the node that it stood for.
fn enter(
    names: &mut NodesByName,
    alloc: Global,
    name: &[u8],
    n: u32,
) -> Result<Option<u32>, AllocError>
    ensures before { IfOk result (λ before. before ≡ node_named names.old name.now) }
    ensures after { OnOk result ((q : List ℕ) → node_named names.new q ≡
        (if is_none (node_named names.old name.now) && bytes_eq q name.now
        then Some n else node_named names.old q)) }
{
    if let Some(held) = names.get(name) {
        return Ok(Some(*held));
    }
    names.insert(Vec::from_slice(alloc, name)?, n)?;
    Ok(None)
}
