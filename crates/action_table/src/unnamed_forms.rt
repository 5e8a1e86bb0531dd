//! The first name of the table for which nothing stands.

ghost use Rattle.std.specs.Prelude.{◌≡◌};
ghost use Rattle.std.specs.List.{flat_map};
ghost use Rattle.action_table.specs.Unnamed.{least_unnamed};
ghost use Rattle.action_table.specs.Uses.{uses_of_action_row, uses_of_actor_row, uses_of_form, uses_of_item, uses_of_table, uses_of_table_actor};

use crate::first::least_of;
use crate::machine_ids::MachineIds;
use crate::rows::row_at;
use crate::table::{Table, TableActor, UnlinkedForm, UnlinkedItem};
use crate::unnamed::place_unless_listed;

/// The least place at which the table uses a name for which nothing stands.
pub(crate) fn unnamed_in_table(ids: &MachineIds, table: &Table) -> Option<usize>
    ensures { result ≡ least_unnamed ids.now table.now (uses_of_table table.now) }
{
    let actions = unnamed_in_action_rows(ids, table);
    least_of(actions, unnamed_in_actor_rows(ids, table))
}

fn unnamed_in_action_rows(ids: &MachineIds, table: &Table) -> Option<usize>
    ensures { result
        ≡ least_unnamed ids.now table.now (flat_map uses_of_action_row table.now.actions) }
{
    let mut least = None;
    for place in 0..table.actions.len() {
        let (_, forms) = row_at(&table.actions, place);
        least = least_of(least, unnamed_in_forms(ids, table, forms.as_slice()));
    }
    least
}

fn unnamed_in_actor_rows(ids: &MachineIds, table: &Table) -> Option<usize>
    ensures { result
        ≡ least_unnamed ids.now table.now (flat_map uses_of_actor_row table.now.actors) }
{
    let mut least = None;
    for place in 0..table.actors.len() {
        let (_, actor) = row_at(&table.actors, place);
        least = least_of(least, unnamed_in_actor(ids, table, actor));
    }
    least
}

fn unnamed_in_actor(ids: &MachineIds, table: &Table, actor: &TableActor) -> Option<usize>
    ensures { result ≡ least_unnamed ids.now table.now (uses_of_table_actor actor.now) }
{
    let _named = table.actors.len();
    match actor {
        TableActor::Machine(named) => place_unless_listed(ids, named),
        TableActor::Promise => None,
    }
}

fn unnamed_in_forms(ids: &MachineIds, table: &Table, forms: &[UnlinkedForm]) -> Option<usize>
    ensures { result ≡ least_unnamed ids.now table.now (flat_map uses_of_form forms.now) }
{
    let mut least = None;
    for form in forms {
        least = least_of(least, unnamed_in_form(ids, table, form));
    }
    least
}

#[cycle(unnamed_form)]
fn unnamed_in_form(ids: &MachineIds, table: &Table, form: &UnlinkedForm) -> Option<usize>
    ensures { result ≡ least_unnamed ids.now table.now (uses_of_form form.now) }
{
    match form {
        UnlinkedForm::SpawnChild { src, .. } => place_unless_listed(&table.actors, src),
        UnlinkedForm::EnqueueActions { items } => unnamed_in_items(ids, table, items.as_slice()),
        UnlinkedForm::Assign { .. }
        | UnlinkedForm::Raise { .. }
        | UnlinkedForm::SendTo { .. }
        | UnlinkedForm::Cancel { .. }
        | UnlinkedForm::StopChild { .. } => None,
    }
}

#[cycle(unnamed_form)]
fn unnamed_in_items(ids: &MachineIds, table: &Table, items: &[UnlinkedItem]) -> Option<usize>
    ensures { result ≡ least_unnamed ids.now table.now (flat_map uses_of_item items.now) }
{
    let mut least = None;
    for item in items {
        least = least_of(least, unnamed_in_item(ids, table, item));
    }
    least
}

#[cycle(unnamed_form)]
fn unnamed_in_item(ids: &MachineIds, table: &Table, item: &UnlinkedItem) -> Option<usize>
    ensures { result ≡ least_unnamed ids.now table.now (uses_of_item item.now) }
{
    match item {
        UnlinkedItem::Do(form) => unnamed_in_form(ids, table, form),
        UnlinkedItem::If {
            then,
            otherwise,
            ..
        } => {
            let first = unnamed_in_items(ids, table, then.as_slice());
            least_of(first, unnamed_in_items(ids, table, otherwise.as_slice()))
        }
    }
}
