//! The actions of machines with their names linked.

ghost use Rattle.std.specs.Prelude.{◌≡◌, IfOk, Some, map};
ghost use Rattle.action_table.specs.Linking.{all_there, linked_action, linked_actions, linked_use};

use crate::linked_forms::linked_form;
use crate::table::{Table, UnlinkedForm};
use guard_eval::{ActionUse, ActionUses};
use machine_json::UnlinkedAction;
use std::alloc::{AllocError, Global};
use xs_data::Items;
use xs_model::{Value, copy};

/// The uses of several actions, one after the other.
pub(crate) fn linked_actions(
    alloc: Global,
    table: &Table,
    used: &[UnlinkedAction],
) -> Result<ActionUses, AllocError>
    ensures { IfOk result (λ uses. linked_actions table.now used.now ≡ Some uses) }
{
    let mut uses = Vec::with_capacity(alloc, used.len())?;
    for one in used {
        let mut more = linked_action(alloc, table, one)?;
        uses.append(&mut more)?;
    }
    Ok(Items::from_vec(uses))
}

/// The uses of an action: one for each form that the table has under its name.
fn linked_action(
    alloc: Global,
    table: &Table,
    used: &UnlinkedAction,
) -> Result<Vec<ActionUse>, AllocError>
    ensures { IfOk result (λ uses. linked_action table.now used.now ≡ Some uses.items) }
{
    // Each name was looked up before, so that memory alone may be wanting.
    match table.actions.get(used.action.name.as_bytes()) {
        Some(forms) => used_forms(alloc, table, forms.as_slice(), &used.params),
        None => Err(AllocError),
    }
}

/// Forms as they are used with these params.
fn used_forms(
    alloc: Global,
    table: &Table,
    forms: &[UnlinkedForm],
    params: &Value,
) -> Result<Vec<ActionUse>, AllocError>
    ensures { IfOk result
        (λ uses. all_there (map (linked_use table.now params.now) forms.now) ≡ Some uses.items) }
{
    let mut uses = Vec::with_capacity(alloc, forms.len())?;
    for form in forms {
        let one = used_form(alloc, table, form, params)?;
        uses.push(one)?;
    }
    Ok(uses)
}

/// A form as it is used with these params.
fn used_form(
    alloc: Global,
    table: &Table,
    form: &UnlinkedForm,
    params: &Value,
) -> Result<ActionUse, AllocError>
    ensures { IfOk result (λ one. linked_use table.now params.now form.now ≡ Some one) }
{
    let params = copy(alloc, params)?;
    let action = linked_form(alloc, table, form)?;
    Ok(ActionUse { action, params })
}
