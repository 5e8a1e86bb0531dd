//! Copies of actions.

ghost use Rattle.std.specs.Prelude.{◌≡◌, IfOk};

use crate::action::{Action, ActionItem, ActionItems, Target};
use crate::expr::Expr;
use crate::expr_copies::{copy_expr, copy_parts};
use std::alloc::{AllocError, Global};
use xs_data::Items;

/// An equal action. It costs as much as the action is large, its expressions too.
#[cycle(copy_action)]
pub fn copy_action(alloc: Global, action: &Action) -> Result<Action, AllocError>
    ensures { IfOk result (λ copied. copied ≡ action.now) }
{
    match action {
        Action::Assign { values } => Ok(Action::Assign {
            values: copy_parts(alloc, values)?,
        }),
        Action::Raise { event, delay, id } => copy_raise(alloc, event, delay, id),
        Action::SendTo {
            target,
            event,
            delay,
            id,
        } => copy_send_to(alloc, target, event, delay, id),
        Action::Cancel { id } => Ok(Action::Cancel {
            id: copy_expr(alloc, id)?,
        }),
        Action::SpawnChild {
            src,
            id,
            input,
            system,
        } => copy_spawn_child(alloc, *src, id, input, system),
        Action::StopChild { id } => Ok(Action::StopChild {
            id: copy_expr(alloc, id)?,
        }),
        Action::EnqueueActions { items } => Ok(Action::EnqueueActions {
            items: copy_items(alloc, items)?,
        }),
    }
}

/// Equal items of `enqueueActions`.
#[cycle(copy_action)]
fn copy_items(alloc: Global, items: &ActionItems) -> Result<ActionItems, AllocError>
    ensures { IfOk result (λ copied. copied ≡ items.now) }
{
    let mut copies = Vec::with_capacity(alloc, items.len())?;
    for item in items.as_slice() {
        copies.push(copy_item(alloc, item)?)?;
    }
    Ok(Items::from_vec(copies))
}

#[cycle(copy_action)]
fn copy_item(alloc: Global, item: &ActionItem) -> Result<ActionItem, AllocError>
    ensures { IfOk result (λ copied. copied ≡ item.now) }
{
    match item {
        ActionItem::Do(action) => Ok(ActionItem::Do(copy_action(alloc, action)?)),
        ActionItem::If {
            test,
            then,
            otherwise,
        } => {
            let test = copy_expr(alloc, test)?;
            let then = copy_items(alloc, then)?;
            let otherwise = copy_items(alloc, otherwise)?;
            Ok(ActionItem::If {
                test,
                then,
                otherwise,
            })
        }
    }
}

fn copy_raise(
    alloc: Global,
    event: &Expr,
    delay: &Option<Expr>,
    id: &Option<Expr>,
) -> Result<Action, AllocError>
    ensures { IfOk result (λ copied. copied ≡ Action.Raise event.now delay.now id.now) }
{
    let event = copy_expr(alloc, event)?;
    let (delay, id) = copy_both(alloc, delay, id)?;
    Ok(Action::Raise { event, delay, id })
}

fn copy_send_to(
    alloc: Global,
    target: &Target,
    event: &Expr,
    delay: &Option<Expr>,
    id: &Option<Expr>,
) -> Result<Action, AllocError>
    ensures { IfOk result
        (λ copied. copied ≡ Action.SendTo target.now event.now delay.now id.now) }
{
    let target = copy_target(alloc, target)?;
    let event = copy_expr(alloc, event)?;
    let (delay, id) = copy_both(alloc, delay, id)?;
    Ok(Action::SendTo {
        target,
        event,
        delay,
        id,
    })
}

fn copy_spawn_child(
    alloc: Global,
    src: u32,
    id: &Option<Expr>,
    input: &Option<Expr>,
    system: &Option<Expr>,
) -> Result<Action, AllocError>
    ensures { IfOk result
        (λ copied. copied ≡ Action.SpawnChild src id.now input.now system.now) }
{
    let id = copy_optional(alloc, id)?;
    let (input, system) = copy_both(alloc, input, system)?;
    Ok(Action::SpawnChild {
        src,
        id,
        input,
        system,
    })
}

fn copy_target(alloc: Global, target: &Target) -> Result<Target, AllocError>
    ensures { IfOk result (λ copied. copied ≡ target.now) }
{
    match target {
        Target::Own => Ok(Target::Own),
        Target::Parent => Ok(Target::Parent),
        Target::Child(id) => Ok(Target::Child(copy_expr(alloc, id)?)),
        Target::System(name) => Ok(Target::System(copy_expr(alloc, name)?)),
    }
}

/// A copy of a part that a form may lack.
fn copy_optional(alloc: Global, part: &Option<Expr>) -> Result<Option<Expr>, AllocError>
    ensures { IfOk result (λ copied. copied ≡ part.now) }
{
    match part {
        Some(expr) => Ok(Some(copy_expr(alloc, expr)?)),
        None => Ok(None),
    }
}

/// Copies of two parts that a form may lack.
fn copy_both(
    alloc: Global,
    first: &Option<Expr>,
    second: &Option<Expr>,
) -> Result<(Option<Expr>, Option<Expr>), AllocError>
    ensures { IfOk result (λ copied. copied ≡ (first.now, second.now)) }
{
    let copied = copy_optional(alloc, first)?;
    Ok((copied, copy_optional(alloc, second)?))
}
