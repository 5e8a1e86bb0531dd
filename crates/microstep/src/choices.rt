//! Which actions `enqueueActions` chooses.

ghost use Rattle.std.specs.Prelude.{◌≡◌, ◌≤◌, ℕ, Ok, MatchResult, OnOk, map};
ghost use Rattle.xs_model.specs.Eval.{scope_of};
ghost use Rattle.microstep.specs.Actions as spec;
ghost use Rattle.microstep.specs.Choices.{AreNoDeeper, choice, chosen_after, does, item_depth, items_depth};
ghost use Rattle.microstep.specs.Progressing.{IsNamed};

use crate::micro::StepFault;
use crate::parts::test_in;
use std::alloc::Global;
use xs_model::{Action, ActionItem, ActionItems, Env};

/// Adds the actions that items choose, in order. It costs a look at each item of the branches that
/// are taken, and the evaluation of their tests.
#[cycle(choose)]
pub(crate) fn choose_all<'a>(
    alloc: Global,
    items: &'a ActionItems,
    env: &Env<'_>,
    actions: &mut Vec<&'a Action>,
) -> Result<(), StepFault>
    ensures chosen { MatchResult result
        (λ done. chosen_after (map does actions.old.items)
        (spec.chosen (scope_of env.now) (map choice items.now)) ≡ Ok (map does actions.new.items))
        (λ fault. IsNamed fault (spec.chosen (scope_of env.now) (map choice items.now))) }
    ensures inside { OnOk result ((bound : ℕ) → items_depth items.now ≤ bound
        → AreNoDeeper bound actions.old.items → AreNoDeeper bound actions.new.items) }
{
    for item in items.as_slice() {
        choose(alloc, item, env, actions)?;
    }
    Ok(())
}

/// Adds the actions that an item chooses.
#[cycle(choose)]
fn choose<'a>(
    alloc: Global,
    item: &'a ActionItem,
    env: &Env<'_>,
    actions: &mut Vec<&'a Action>,
) -> Result<(), StepFault>
    ensures chosen { MatchResult result
        (λ done. chosen_after (map does actions.old.items) (choice item.now (scope_of env.now))
        ≡ Ok (map does actions.new.items))
        (λ fault. IsNamed fault (choice item.now (scope_of env.now))) }
    ensures inside { OnOk result ((bound : ℕ) → item_depth item.now ≤ bound
        → AreNoDeeper bound actions.old.items → AreNoDeeper bound actions.new.items) }
{
    match item {
        ActionItem::Do(action) => actions.push(action).map_err(|_| StepFault::Memory),
        ActionItem::If {
            test,
            then,
            otherwise,
        } => {
            if test_in(alloc, test, env)? {
                choose_all(alloc, then, env, actions)
            } else {
                choose_all(alloc, otherwise, env, actions)
            }
        }
    }
}
