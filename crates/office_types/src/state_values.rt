//! State values of configurations.

ghost use Rattle.std.specs.Prelude.{◌≡◌, ◌<◌, ◌≤◌, ◌∷◌, ◌++◌, [], ℕ, List, Some, IfOk, OnOk, fold, if◌then◌else◌, length, nat_eq, reverse, slice_index_or};
ghost use Rattle.std.specs.List.Sorted.{IsStrictlyIncreasing};
ghost use Rattle.std.specs.Option.{option_eq};
ghost use Rattle.office_types.specs.StateValue.{ActiveNode, state_value, value_by_child, value_by_kind};
ghost use Rattle.office_types.specs.ChildValues.{child_value, last_first, put_entries, with_region};

use node_tree::{Kind, Node, Tree};
use std::alloc::{AllocError, Global};
use std::collections::BTreeMap;
use xs_data::{Items, Text};
use xs_model::{Fields, Value};

/// What the value of a node is made of: of an active child the key, whether it is a leaf, and the
/// value.
#[derive(Debug, Drop)]
struct ChildValue {
    key: Text,
    is_leaf: bool,
    value: Value,
}

/// The active children of a node, the last one first.
type ChildValues = Items<ChildValue>;

/// The state value of the active nodes, XState's `state.value`; null if there is none. It goes over
/// the active nodes once, and looks for the parent of each by halves. What a tree has besides costs
/// nothing.
pub fn state_value(alloc: Global, tree: &Tree, active: &[u32]) -> Result<Value, AllocError>
    requires { IsStrictlyIncreasing active.now }
    ensures { IfOk result (λ value. value ≡ state_value tree.now active.now) }
{
    // For each active node that has no value yet, its children that have one.
    let mut waiting = none_waiting(alloc, active.len())?;
    while let Some(children) = waiting.pop() {
        let n = active[waiting.len()];
        if n < tree.len() {
            let node = tree.node(n);
            let value = value_by_kind(alloc, node.kind, children)?;
            if waiting.is_empty() {
                return Ok(value);
            }
            let child = child_value(alloc, node, value)?;
            wait_for_parent(&mut waiting, active, node.parent, child)?;
        }
    }
    Ok(Value::Null)
}

/// For each of so many nodes no child.
fn none_waiting(alloc: Global, count: usize) -> Result<Vec<ChildValues>, AllocError>
    ensures len { IfOk result (λ waiting. length waiting.items ≡ count) }
    ensures empty { IfOk result (λ waiting. (n : ℕ) → n < count →
        slice_index_or waiting.items n [] ≡ []) }
{
    let mut waiting = Vec::with_capacity(alloc, count)?;
    for _ in 0..count {
        waiting.push(ChildValues::new(alloc))?;
    }
    Ok(waiting)
}

/// What the value of a node's parent needs of the node, which has this value.
fn child_value(alloc: Global, node: &Node, value: Value) -> Result<ChildValue, AllocError>
    ensures { IfOk result
        (λ child. child ≡ child_value (record { node = node.now; value = value })) }
{
    Ok(ChildValue {
        key: node.key.copy(alloc)?,
        is_leaf: node.kind.is_leaf(),
        value,
    })
}

/// Adds a child to those that wait for its parent, if it is among the active nodes that have no
/// value yet.
fn wait_for_parent(
    waiting: &mut Vec<ChildValues>,
    active: &[u32],
    parent: Option<u32>,
    child: ChildValue,
) -> Result<(), AllocError>
    requires in_order { IsStrictlyIncreasing active.now }
    requires within { length waiting.old.items ≤ length active.now }
    ensures len { OnOk result (length waiting.new.items ≡ length waiting.old.items) }
    ensures added { OnOk result ((j : ℕ) → j < length waiting.old.items →
        slice_index_or waiting.new.items j []
        ≡ (if option_eq nat_eq parent (Some (slice_index_or active.now j 0))
        then slice_index_or waiting.old.items j [] ++ child ∷ []
        else slice_index_or waiting.old.items j [])) }
{
    let Some(parent) = parent else {
        return Ok(());
    };
    let Ok(place) = active.binary_search(&parent) else {
        return Ok(());
    };
    if place < waiting.len() {
        let Ok(()) = waiting[place].push(child) else {
            return Err(AllocError);
        };
    }
    Ok(())
}

/// The value of a node of this kind that has these active children.
fn value_by_kind(alloc: Global, kind: Kind, children: ChildValues) -> Result<Value, AllocError>
    ensures { (actives : List ActiveNode) → children ≡ last_first actives →
        IfOk result (λ value. value ≡ value_by_kind kind actives) }
{
    let mut children = children.into_vec();
    match kind {
        Kind::Compound { .. } => match children.pop() {
            Some(child) => value_by_child(alloc, child),
            None => Ok(Value::Map(Fields::new(alloc))),
        },
        Kind::Parallel => {
            let values = regions_by_key(alloc, children)?;
            Ok(Value::Map(fields_by_key(alloc, values)?))
        }
        Kind::Atomic | Kind::Final | Kind::Shallow { .. } | Kind::Deep { .. } => {
            Ok(Value::Map(Fields::new(alloc)))
        }
    }
}

/// What the active child of a compound node makes its value.
fn value_by_child(alloc: Global, child: ChildValue) -> Result<Value, AllocError>
    ensures { (active : ActiveNode) → child ≡ child_value active →
        IfOk result (λ value. value ≡ value_by_child active) }
{
    if child.is_leaf {
        return Ok(Value::Text(child.key));
    }
    let mut fields = Fields::new(alloc);
    let Ok(()) = fields.put(child.key, child.value) else {
        return Err(AllocError);
    };
    Ok(Value::Map(fields))
}

/// The values of regions by their keys; of two with one key the later one counts.
fn regions_by_key(
    alloc: Global,
    mut regions: Vec<ChildValue>,
) -> Result<BTreeMap<String, Value>, AllocError>
    ensures { IfOk result (λ values. put_entries values.entries
        ≡ fold with_region [] (reverse regions.items)) }
{
    let mut values = BTreeMap::new(alloc);
    while let Some(region) = regions.pop() {
        let key = String::from_str(alloc, region.key.as_str())?;
        let Ok(_) = values.insert(key, region.value) else {
            return Err(AllocError);
        };
    }
    Ok(values)
}

/// The members of a map, in the order of their keys, so that each is put behind the last one.
fn fields_by_key(alloc: Global, values: BTreeMap<String, Value>) -> Result<Fields, AllocError>
    ensures { IfOk result (λ fields. fields ≡ put_entries values.entries) }
{
    let mut fields = Fields::new(alloc);
    for (key, value) in values {
        let Ok(()) = fields.put(Text::from_string(key), value) else {
            return Err(AllocError);
        };
    }
    Ok(fields)
}
