//! Guards with their names linked.

ghost use Rattle.std.specs.Prelude.{◌≡◌, IfOk, Some, map, option_map};
ghost use Rattle.xs_model.specs.Rising.{get};
ghost use Rattle.guard_eval.specs.declared.guard.GuardUse.TheVariants as guard_use;
ghost use Rattle.action_table.specs.Linking.{all_there, linked_guard, linked_guard_or};

use crate::table::Table;
use guard_eval::{GuardUse, Guards};
use machine_json::{Named, UnlinkedGuard};
use sqlite_items::Boxed;
use std::alloc::{AllocError, Global};
use xs_data::Items;
use xs_model::{Expr, Value, copy, copy_expr};

/// A guard, where there is one, with its names linked. Something stands for each.
pub(crate) fn linked_guard_or(
    alloc: Global,
    table: &Table,
    guard: &Option<UnlinkedGuard>,
) -> Result<Option<GuardUse>, AllocError>
    ensures { IfOk result (λ linked. linked_guard_or table.now guard.now ≡ Some linked) }
{
    match guard {
        Some(unlinked) => Ok(Some(linked_guard(alloc, table, unlinked)?)),
        None => Ok(None),
    }
}

#[cycle(linked_guard)]
fn linked_guard(alloc: Global, table: &Table, guard: &UnlinkedGuard) -> Result<GuardUse, AllocError>
    ensures { IfOk result (λ linked. linked_guard table.now guard.now ≡ Some linked) }
{
    match guard {
        UnlinkedGuard::Test { guard, params } => linked_test(alloc, table, guard, params),
        UnlinkedGuard::And(parts) => {
            let parts = linked_guards(alloc, table, parts.as_slice())?;
            Ok(GuardUse::And(parts))
        }
        UnlinkedGuard::Or(parts) => {
            let parts = linked_guards(alloc, table, parts.as_slice())?;
            Ok(GuardUse::Or(parts))
        }
        UnlinkedGuard::Not(part) => {
            let part = linked_guard(alloc, table, part.get())?;
            Ok(GuardUse::Not(Boxed::new(alloc, part)?))
        }
        UnlinkedGuard::In(node) => Ok(GuardUse::In(*node)),
    }
}

#[cycle(linked_guard)]
fn linked_guards(
    alloc: Global,
    table: &Table,
    guards: &[UnlinkedGuard],
) -> Result<Guards, AllocError>
    ensures { IfOk result
        (λ linked. all_there (map (linked_guard table.now) guards.now) ≡ Some linked) }
{
    let mut linked = Vec::with_capacity(alloc, guards.len())?;
    for guard in guards {
        let one = linked_guard(alloc, table, guard)?;
        linked.push(one)?;
    }
    Ok(Items::from_vec(linked))
}

/// The guard that the table has under a name, as it is used with these params.
fn linked_test(
    alloc: Global,
    table: &Table,
    named: &Named,
    params: &Value,
) -> Result<GuardUse, AllocError>
    ensures { IfOk result (λ linked. option_map (λ expr. guard_use.Test expr params.now)
        (get named.now.name table.now.guards) ≡ Some linked) }
{
    // Each name was looked up before, so that memory alone may be wanting.
    let Some(held) = table.guards.get(named.name.as_bytes()) else {
        return Err(AllocError);
    };
    let expr: Expr = copy_expr(alloc, held)?;
    let params = copy(alloc, params)?;
    Ok(GuardUse::Test { expr, params })
}
