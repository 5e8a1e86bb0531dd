//! What is recorded for history nodes when nodes are left.

ghost use Rattle.std.specs.Prelude.{◌≡◌, ℕ, IfOk, OnOk};
ghost use Rattle.std.specs.List.Sorted.{IsStrictlyIncreasing};
ghost use Rattle.std.specs.Option.{option_or};
ghost use Rattle.node_tree.specs.Kinds.{Nodes};
ghost use Rattle.node_tree.specs.Nodes.{AreNodes};
ghost use Rattle.step_sets.specs.Goals.{record_of};
ghost use Rattle.step_sets.specs.History.{RecordsHistory, RecordsNodes, history_nodes};

use node_tree::{NodeSet, Recorded, Targets, Tree};
use std::alloc::{AllocError, Global};
use std::collections::BTreeMap;
use step_sets::record_history;
use xs_data::Items;

/// What is recorded, by its history nodes.
type Records = BTreeMap<u32, Targets>;

/// The recorded history after these nodes are left, by `record_history` of `step_sets`. Where none of
/// them has a history node among its children, that is the history as it was, which is handed on as
/// it lies: it costs a look at those children. Else what is new costs what `record_history` says, and
/// each record, which is moved and never copied, a way into an ordered map and out of it.
pub(crate) fn recorded_after(
    alloc: Global,
    tree: &Tree,
    active: &NodeSet,
    left: &NodeSet,
    old: Recorded,
) -> Result<Recorded, AllocError>
    requires active { AreNodes tree.now active.now }
    requires left { AreNodes tree.now left.now }
    requires in_order { IsStrictlyIncreasing (history_nodes old) }
    requires old { RecordsNodes tree.now old }
    ensures history { IfOk result (RecordsHistory tree.now
        (record { active = active.now; exits = left.now; recorded = old })) }
    ensures of_tree { IfOk result (RecordsNodes tree.now) }
{
    let nothing = Items::new(alloc);
    let new = record_history(alloc, tree, active, left, &nothing)?;
    if new.is_empty() {
        return Ok(old);
    }
    let mut records = BTreeMap::new(alloc);
    put_all(&mut records, old)?;
    put_all(&mut records, new)?;
    in_document_order(alloc, records)
}

/// Puts each record in the place of what is recorded for its history node.
fn put_all(records: &mut Records, history: Recorded) -> Result<(), AllocError>
    ensures records { OnOk result ((h : ℕ) → record_of records.new.entries h
        ≡ option_or (record_of history h) (record_of records.old.entries h)) }
    ensures of_tree { OnOk result ((nodes : Nodes) → RecordsNodes nodes history
        → RecordsNodes nodes records.old.entries → RecordsNodes nodes records.new.entries) }
{
    let mut rest = history.into_vec();
    while let Some(record) = rest.pop() {
        records.insert(record.0, record.1)?;
    }
    Ok(())
}

/// The records in document order.
fn in_document_order(alloc: Global, mut records: Records) -> Result<Recorded, AllocError>
    ensures records { IfOk result (λ list. list ≡ records.entries) }
    ensures rising { IfOk result (λ list. IsStrictlyIncreasing (history_nodes list)) }
{
    let _records = records.len();
    let mut list = Vec::new(alloc);
    while let Some(record) = records.pop_first() {
        list.push(record)?;
    }
    Ok(Items::from_vec(list))
}
