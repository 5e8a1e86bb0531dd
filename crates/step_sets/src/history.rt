//! What a microstep records for history nodes.

ghost use Rattle.std.specs.Prelude.{◌≡◌, ◌↔◌, ◌<◌, ℕ, IfOk, OnOk, IsTrue, length};
ghost use Rattle.std.specs.List.Sorted.{IsStrictlyIncreasing};
ghost use Rattle.node_tree.specs.Nodes.{AreNodes, IsBelow, IsChild};
ghost use Rattle.step_sets.specs.Goals.{record_of};
ghost use Rattle.step_sets.specs.History.{AreRenewed, CanBeRemembered, IsRemembered, RecordsNodes, RecordsHistory, history_nodes};
ghost use Rattle.node_tree.specs.Kinds.{IsHistory};
ghost use Rattle.step_sets.specs.Sets.{IsSetOf};

use crate::children::children;
use crate::nodes::{is_history, is_leaf};
use crate::runs::run_below;
use node_tree::{Kind, NodeSet, Recorded, Targets, Tree};
use std::alloc::{AllocError, Global};
use std::collections::BTreeMap;
use xs_data::Items;

/// What is recorded, by its history nodes.
type Records = BTreeMap<u32, Targets>;

/// The recorded history after these nodes are left, as SCXML's `exitStates` records it: for each
/// history node whose parent is left the active children of that parent, or for a deep one the active
/// leaves below it. Every other record stays. It costs a copy of each record, a look at each child
/// of a node that is left, and for each history node that is recorded a binary search and a look at
/// each active node below its parent.
pub fn record_history(
    alloc: Global,
    tree: &Tree,
    active: &NodeSet,
    exits: &NodeSet,
    old: &Recorded,
) -> Result<Recorded, AllocError>
    requires active { AreNodes tree.now active.now }
    requires exits { AreNodes tree.now exits.now }
    requires old { RecordsNodes tree.now old.now }
    ensures history { IfOk result (λ new. RecordsHistory tree.now
        (record { active = active.now; exits = exits.now; recorded = old.now }) new) }
    ensures of_tree { IfOk result (λ new. RecordsNodes tree.now new) }
{
    let mut records = copies(alloc, tree, old)?;
    for parent in exits.as_slice() {
        record_children(&mut records, alloc, tree, active, *parent)?;
    }
    in_document_order(alloc, records)
}

/// A copy of each record, by its history node.
fn copies(alloc: Global, tree: &Tree, history: &Recorded) -> Result<Records, AllocError>
    requires { RecordsNodes tree.now history.now }
    ensures records { IfOk result
        (λ records. (h : ℕ) → record_of records.entries h ≡ record_of history.now h) }
    ensures of_tree { IfOk result (λ records. RecordsNodes tree.now records.entries) }
{
    let _nodes = tree.len();
    let list = history.as_slice();
    let mut records = BTreeMap::new(alloc);
    for i in (0..list.len()).rev() {
        let record = &list[i];
        let nodes = Vec::from_slice(alloc, record.1.as_slice())?;
        records.insert(record.0, Items::from_vec(nodes))?;
    }
    Ok(records)
}

/// Records what each history node among the children of a node remembers, in the place of what was
/// recorded for it.
fn record_children(
    records: &mut Records,
    alloc: Global,
    tree: &Tree,
    active: &NodeSet,
    parent: u32,
) -> Result<(), AllocError>
    requires active { AreNodes tree.now active.now }
    requires parent { parent < length tree.now }
    requires records { RecordsNodes tree.now records.old.entries }
    ensures records { OnOk result (AreRenewed tree.now active.now
        (λ h. IsHistory tree.now h × IsChild tree.now h parent)
        records.old.entries records.new.entries) }
    ensures of_tree { OnOk result (RecordsNodes tree.now records.new.entries) }
{
    for child in children(alloc, tree, parent)?.as_slice() {
        if is_history(tree, *child) {
            let nodes = remembered(alloc, tree, active, *child, parent)?;
            records.insert(*child, nodes)?;
        }
    }
    Ok(())
}

/// The records in document order.
fn in_document_order(alloc: Global, mut records: Records) -> Result<Recorded, AllocError>
    ensures records { IfOk result (λ list. list ≡ records.entries) }
    ensures rising { IfOk result (λ list. IsStrictlyIncreasing (history_nodes list)) }
{
    let _records = records.len();
    let mut list = Vec::new(alloc);
    while let Some(record) = records.pop_first() {
        list.push(record)?;
    }
    Ok(Items::from_vec(list))
}

/// The active nodes that a history node remembers of its parent. It costs a binary search and a look
/// at each active node below the parent.
fn remembered(
    alloc: Global,
    tree: &Tree,
    active: &NodeSet,
    history: u32,
    parent: u32,
) -> Result<Targets, AllocError>
    requires active { AreNodes tree.now active.now }
    requires parent { parent < length tree.now }
    requires child { IsChild tree.now history parent }
    ensures nodes { IfOk result
        (λ nodes. IsSetOf (IsRemembered tree.now active.now history) nodes) }
    ensures of_tree { IfOk result (λ nodes. AreNodes tree.now nodes) }
{
    let mut nodes = Vec::new(alloc);
    for node in run_below(tree, active.as_slice(), parent) {
        if can_be_remembered(tree, history, parent, *node) {
            nodes.push(*node)?;
        }
    }
    Ok(Items::from_vec(nodes))
}

/// Whether a history node may remember a node below its parent.
fn can_be_remembered(tree: &Tree, history: u32, parent: u32, node: u32) -> bool
    requires history { history < length tree.now }
    requires child { IsChild tree.now history parent }
    requires below { IsBelow tree.now node parent }
    requires node { node < length tree.now }
    ensures { IsTrue result ↔ CanBeRemembered tree.now history node }
{
    match &tree.node(history).kind {
        Kind::Shallow { .. } => is_child(tree, node, parent),
        Kind::Deep { .. } => is_leaf(tree, node),
        Kind::Atomic | Kind::Compound { .. } | Kind::Parallel | Kind::Final => false,
    }
}

/// Whether a node is a child of another one.
fn is_child(tree: &Tree, node: u32, above: u32) -> bool
    requires { node < length tree.now }
    ensures { IsTrue result ↔ IsChild tree.now node above }
{
    tree.parent(node) == Some(above)
}
