//! Where the targets of a transition lead.

ghost use Rattle.std.specs.Prelude.{◌≡◌, ◌<◌, ◌++◌, [], IfOk, OnOk, length, option_to_list, unwrap_or};
ghost use Rattle.node_tree.specs.Nodes.{AreNodes};
ghost use Rattle.step_sets.specs.Goals.{goals_of, goals_at, recorded_or, record_of};
ghost use Rattle.step_sets.specs.History.{RecordsNodes};
ghost use Rattle.node_tree.specs.Kinds.{kind_of};

use node_tree::{Kind, Recorded, Targets, Tree};
use std::alloc::{AllocError, Global};
use xs_data::Items;

/// The goals of a transition with these targets, after SCXML's `getEffectiveTargetStates`: its targets
/// in their order, where a history node stands for the nodes that are recorded for it. If none are, it
/// stands for its default, and without one for its parent. It costs a look through the history for
/// each history node among the targets.
pub fn goals(
    alloc: Global,
    tree: &Tree,
    history: &Recorded,
    targets: &[u32],
) -> Result<Targets, AllocError>
    requires history { RecordsNodes tree.now history.now }
    requires targets { AreNodes tree.now targets.now }
    ensures goals { IfOk result (λ goals. goals ≡ goals_of tree.now history.now targets.now) }
    ensures of_tree { IfOk result (λ goals. AreNodes tree.now goals) }
{
    let _nodes = tree.len();
    let mut goals = Vec::new(alloc);
    for target in targets {
        push_goals(&mut goals, tree, history, *target)?;
    }
    Ok(Items::from_vec(goals))
}

/// Adds the goals that one target stands for.
fn push_goals(
    goals: &mut Vec<u32>,
    tree: &Tree,
    history: &Recorded,
    target: u32,
) -> Result<(), AllocError>
    requires { target < length tree.now }
    ensures { OnOk result (goals.new.items ≡ goals.old.items
        ++ goals_at tree.now history.now (kind_of tree.now target) target) }
{
    let node = tree.node(target);
    match &node.kind {
        Kind::Shallow { default } | Kind::Deep { default } => {
            push_history(
                goals,
                recorded_for(history, target),
                default.or(node.parent),
            )
        }
        Kind::Atomic | Kind::Compound { .. } | Kind::Parallel | Kind::Final => {
            goals.push(target)?;
            Ok(())
        }
    }
}

/// Adds the recorded nodes, or else the other one, if there is one.
fn push_history(
    goals: &mut Vec<u32>,
    recorded: &[u32],
    other: Option<u32>,
) -> Result<(), AllocError>
    ensures { OnOk result
        (goals.new.items ≡ goals.old.items ++ recorded_or recorded.now (option_to_list other)) }
{
    if !recorded.is_empty() {
        return goals.extend_from_slice(recorded);
    }
    if let Some(node) = other {
        goals.push(node)?;
    }
    Ok(())
}

/// The nodes that are recorded for a history node.
pub(crate) fn recorded_for(history: &Recorded, node: u32) -> &[u32]
    ensures { result.now ≡ unwrap_or (record_of history.now node) [] }
{
    for record in history.as_slice() {
        if record.0 == node {
            return record.1.as_slice();
        }
    }
    &[]
}
