//! Actions and their items, from implementations in which no fault was found.

ghost use Rattle.std.specs.Prelude.{◌≡◌, ◌∷◌, [], IfOk, map};
ghost use Rattle.ordered_json.specs.Words.{member_parts};
ghost use Rattle.action_table.specs.Shapes.{members_in};
ghost use Rattle.action_table.specs.declared.role.TableRole.TheVariants as role;
ghost use Rattle.action_table.specs.TableMeaning.{MeanItems, MeansAction, MeansActions, MeansInTurn, MeansItem, items_under};

use crate::forms::form_of_parts;
use crate::parts::{members_of, part_under};
use crate::role::{Shape, TableRole, shape_of};
use crate::table::{UnlinkedForm, UnlinkedForms, UnlinkedItem, UnlinkedItems};
use ordered_json::{Member, OrderedJson};
use std::alloc::{AllocError, Global};
use xs_data::Items;

/// The forms of an action: one, or those of a list.
pub fn forms_of(alloc: Global, json: &OrderedJson) -> Result<UnlinkedForms, AllocError>
    ensures { IfOk result (λ forms. MeansActions json.now forms) }
{
    match json.as_list() {
        Some(items) => each_form(alloc, items),
        None => only_form(alloc, json),
    }
}

/// The form that each item is.
fn each_form(alloc: Global, items: &[OrderedJson]) -> Result<UnlinkedForms, AllocError>
    ensures { IfOk result (λ forms.
        MeansInTurn (λ part. MeansAction (members_in role.Form part)) items.now forms) }
{
    let mut forms = Vec::with_capacity(alloc, items.len())?;
    for item in items {
        let form = form_in(alloc, members_of(item))?;
        forms.push(form)?;
    }
    Ok(Items::from_vec(forms))
}

/// The form that a value is, alone.
fn only_form(alloc: Global, json: &OrderedJson) -> Result<UnlinkedForms, AllocError>
    ensures { IfOk result (λ forms.
        MeansInTurn (λ part. MeansAction (members_in role.Form part)) (json.now ∷ []) forms) }
{
    let mut forms = Vec::with_capacity(alloc, 1)?;
    let form = form_in(alloc, members_of(json))?;
    forms.push(form)?;
    Ok(Items::from_vec(forms))
}

/// The form that the members of an object have.
fn form_in(alloc: Global, members: &[Member]) -> Result<UnlinkedForm, AllocError>
    ensures { IfOk result (λ form. MeansAction (map member_parts members.now) form) }
{
    match shape_of(TableRole::Form, members) {
        Some(Shape::EnqueueActions) => {
            let items = each_under(alloc, members, "enqueueActions")?;
            Ok(UnlinkedForm::EnqueueActions { items })
        }
        Some(shape) => form_of_parts(alloc, shape, members),
        None => Err(AllocError),
    }
}

/// The items of the list under a key.
#[cycle(items)]
fn each_under(alloc: Global, members: &[Member], key: &str) -> Result<UnlinkedItems, AllocError>
    ensures { IfOk result
        (λ items. MeanItems (items_under key.now (map member_parts members.now)) items) }
{
    for member in members {
        if member.key.as_bytes() == key.as_bytes() {
            return match &member.value {
                OrderedJson::List { items, .. } => each_item(alloc, items.as_slice()),
                _ => Ok(Items::new(alloc)),
            };
        }
    }
    Ok(Items::new(alloc))
}

/// The item that each value is.
#[cycle(items)]
fn each_item(alloc: Global, jsons: &[OrderedJson]) -> Result<UnlinkedItems, AllocError>
    ensures { IfOk result (λ items. MeanItems jsons.now items) }
{
    let mut items = Vec::with_capacity(alloc, jsons.len())?;
    for json in jsons {
        let item = item_in(alloc, json)?;
        items.push(item)?;
    }
    Ok(Items::from_vec(items))
}

/// The item that a value is.
#[cycle(items)]
fn item_in(alloc: Global, json: &OrderedJson) -> Result<UnlinkedItem, AllocError>
    ensures { IfOk result (λ item. MeansItem (members_in role.Item json.now) item) }
{
    let OrderedJson::Object { members, .. } = json else {
        return Err(AllocError);
    };
    let members = members.as_slice();
    match shape_of(TableRole::Item, members) {
        Some(Shape::If) => {
            let test = part_under(alloc, "if", members)?;
            let then = each_under(alloc, members, "then")?;
            let otherwise = each_under(alloc, members, "else")?;
            Ok(UnlinkedItem::If {
                test,
                then,
                otherwise,
            })
        }
        Some(shape) => {
            let form = form_of_parts(alloc, shape, members)?;
            Ok(UnlinkedItem::Do(form))
        }
        None => Err(AllocError),
    }
}
