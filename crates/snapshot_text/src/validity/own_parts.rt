//! Own parts of machine actors.

ghost use Rattle.std.specs.Prelude.{◌↔◌, All, IfOk, IsTrue};
ghost use Rattle.step_sets.specs.Statechart.{IsStatechart};
ghost use Rattle.office_types.specs.Limits.{is_name};
ghost use Rattle.office_types.specs.OwnParts.{AreChildIds, HasBegun, IsOwnPart, IsUnbegun};

use crate::validity::configurations::is_configuration;
use crate::validity::distinct::are_distinct;
use crate::validity::events::{is_context, is_name};
use crate::validity::histories::is_recorded_history;
use node_tree::Tree;
use office_types::{MAX_NEXT_NUMBER, Own};
use std::alloc::{AllocError, Global};
use xs_data::Text;
use xs_model::Value;

/// Whether an own part is one of a machine with this tree.
pub(crate) fn is_own_part(alloc: Global, tree: &Tree, own: &Own) -> Result<bool, AllocError>
    requires { IsStatechart tree.now }
    ensures { IfOk result (λ valid. IsTrue valid ↔ IsOwnPart tree.now own.now) }
{
    if own.begun {
        has_begun(alloc, tree, own)
    } else {
        Ok(is_unbegun(own))
    }
}

fn is_unbegun(own: &Own) -> bool
    ensures { IsTrue result ↔ IsUnbegun own.now }
{
    !own.begun
        && own.nodes.is_empty()
        && own.history.is_empty()
        && matches!(own.context, Value::Null)
        && own.children.is_empty()
        && own.unnamed == 0
}

fn has_begun(alloc: Global, tree: &Tree, own: &Own) -> Result<bool, AllocError>
    requires { IsStatechart tree.now }
    ensures { IfOk result (λ valid. IsTrue valid ↔ HasBegun tree.now own.now) }
{
    let ids = own.children.as_slice();
    if !are_child_ids(alloc, ids)? {
        return Ok(false);
    }
    let nodes = own.nodes.as_slice();
    if !is_configuration(alloc, tree, nodes)? {
        return Ok(false);
    }
    let history = own.history.as_slice();
    if !is_recorded_history(alloc, tree, history)? {
        return Ok(false);
    }
    Ok(own.begun && own.unnamed <= MAX_NEXT_NUMBER && is_context(&own.context))
}

fn are_child_ids(alloc: Global, ids: &[Text]) -> Result<bool, AllocError>
    ensures { IfOk result (λ valid. IsTrue valid ↔ AreChildIds ids.now) }
{
    if !are_names(ids) {
        return Ok(false);
    }
    let mut names = Vec::with_capacity(alloc, ids.len())?;
    for id in ids {
        names.push(id.as_bytes())?;
    }
    Ok(are_distinct(names))
}

fn are_names(ids: &[Text]) -> bool
    ensures { IsTrue result ↔ All (λ id. IsTrue (is_name id)) ids.now }
{
    ids.iter().all(|id| is_name(id.as_bytes()))
}
