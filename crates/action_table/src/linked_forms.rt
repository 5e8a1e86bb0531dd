//! The forms of the table with the actors that they spawn linked.

ghost use Rattle.std.specs.Prelude.{◌≡◌, IfOk, Some, map, option_map};
ghost use Rattle.xs_model.specs.declared.action.Action.TheVariants as action;
ghost use Rattle.action_table.specs.Linking.{actor_number, all_there, linked_form, linked_item};

use crate::copies::{copy_optional, copy_parts, copy_target};
use crate::table::{Table, UnlinkedForm, UnlinkedItem};
use machine_json::Named;
use std::alloc::{AllocError, Global};
use xs_data::Items;
use xs_model::{Action, ActionItem, ActionItems, Expr, Target, copy_expr};

/// A form with the actor that it spawns linked, at any depth. It costs as much as the form is large.
#[cycle(linked_form)]
pub(crate) fn linked_form(
    alloc: Global,
    table: &Table,
    form: &UnlinkedForm,
) -> Result<Action, AllocError>
    ensures { IfOk result (λ linked. linked_form table.now form.now ≡ Some linked) }
{
    match form {
        UnlinkedForm::Assign { values } => {
            let values = copy_parts(alloc, values)?;
            Ok(Action::Assign { values })
        }
        UnlinkedForm::Raise { event, delay, id } => raise(alloc, event, delay, id),
        UnlinkedForm::SendTo {
            target,
            event,
            delay,
            id,
        } => send_to(alloc, target, event, delay, id),
        UnlinkedForm::Cancel { id } => {
            let id = copy_expr(alloc, id)?;
            Ok(Action::Cancel { id })
        }
        UnlinkedForm::SpawnChild {
            src,
            id,
            input,
            system,
        } => spawn_child(alloc, table, src, id, input, system),
        UnlinkedForm::StopChild { id } => {
            let id = copy_expr(alloc, id)?;
            Ok(Action::StopChild { id })
        }
        UnlinkedForm::EnqueueActions { items } => {
            let items = linked_items(alloc, table, items.as_slice())?;
            Ok(Action::EnqueueActions { items })
        }
    }
}

#[cycle(linked_form)]
fn linked_items(
    alloc: Global,
    table: &Table,
    items: &[UnlinkedItem],
) -> Result<ActionItems, AllocError>
    ensures { IfOk result
        (λ linked. all_there (map (linked_item table.now) items.now) ≡ Some linked) }
{
    let mut linked = Vec::with_capacity(alloc, items.len())?;
    for item in items {
        let one = linked_item(alloc, table, item)?;
        linked.push(one)?;
    }
    Ok(Items::from_vec(linked))
}

#[cycle(linked_form)]
fn linked_item(alloc: Global, table: &Table, item: &UnlinkedItem) -> Result<ActionItem, AllocError>
    ensures { IfOk result (λ linked. linked_item table.now item.now ≡ Some linked) }
{
    match item {
        UnlinkedItem::Do(form) => {
            let form = linked_form(alloc, table, form)?;
            Ok(ActionItem::Do(form))
        }
        UnlinkedItem::If {
            test,
            then,
            otherwise,
        } => {
            let test = copy_expr(alloc, test)?;
            let then = linked_items(alloc, table, then.as_slice())?;
            let otherwise = linked_items(alloc, table, otherwise.as_slice())?;
            Ok(ActionItem::If {
                test,
                then,
                otherwise,
            })
        }
    }
}

/// `raise`.
fn raise(
    alloc: Global,
    event: &Expr,
    delay: &Option<Expr>,
    id: &Option<Expr>,
) -> Result<Action, AllocError>
    ensures { IfOk result (λ made. made ≡ action.Raise event.now delay.now id.now) }
{
    let event = copy_expr(alloc, event)?;
    let delay = copy_optional(alloc, delay)?;
    let id = copy_optional(alloc, id)?;
    Ok(Action::Raise { event, delay, id })
}

/// `sendTo`.
fn send_to(
    alloc: Global,
    target: &Target,
    event: &Expr,
    delay: &Option<Expr>,
    id: &Option<Expr>,
) -> Result<Action, AllocError>
    ensures { IfOk result
        (λ made. made ≡ action.SendTo target.now event.now delay.now id.now) }
{
    let target = copy_target(alloc, target)?;
    let event = copy_expr(alloc, event)?;
    let delay = copy_optional(alloc, delay)?;
    let id = copy_optional(alloc, id)?;
    Ok(Action::SendTo {
        target,
        event,
        delay,
        id,
    })
}

/// `spawnChild`, with the number of the actor in the table.
fn spawn_child(
    alloc: Global,
    table: &Table,
    src: &Named,
    id: &Option<Expr>,
    input: &Option<Expr>,
    system: &Option<Expr>,
) -> Result<Action, AllocError>
    ensures { IfOk result (λ made.
        option_map (λ number. action.SpawnChild number id.now input.now system.now)
        (actor_number table.now src.now.name) ≡ Some made) }
{
    let src = actor_number(table, src)?;
    let id = copy_optional(alloc, id)?;
    let input = copy_optional(alloc, input)?;
    let system = copy_optional(alloc, system)?;
    Ok(Action::SpawnChild {
        src,
        id,
        input,
        system,
    })
}

/// The number of an actor of the table. Each name was looked up before, and a table has no more actors
/// than numbers, so that there is one.
pub(crate) fn actor_number(table: &Table, named: &Named) -> Result<u32, AllocError>
    ensures { IfOk result (λ number. actor_number table.now named.now.name ≡ Some number) }
{
    let Some(place) = table.actors.place_of(named.name.as_bytes()) else {
        return Err(AllocError);
    };
    let Ok(number) = u32::try_from(place) else {
        return Err(AllocError);
    };
    Ok(number)
}
