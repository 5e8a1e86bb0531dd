//! The done events that the entry of a final node raises.

ghost use Rattle.std.specs.Prelude.{◌≡◌, ◌<◌, ◌↔◌, ℕ, Contains, IsTrue, MatchOption, length};
ghost use Rattle.std.specs.List.Sorted.{IsStrictlyIncreasing};
ghost use Rattle.node_tree.specs.Nodes.{AreNodes};
ghost use Rattle.step_sets.specs.Statechart.{IsStatechart};
ghost use Rattle.office_types.specs.OwnParts.{IsConfiguration};
ghost use Rattle.microstep.specs.Acts.{Act, after_act, after_acts, plain_scope, raise_done};
ghost use Rattle.microstep.specs.Climbing.{EndsKind, IsActiveYet, parallel_done};
ghost use Rattle.microstep.specs.DoneEvents.{AreDoneActs, EndsParent, node_id, output_of};
ghost use Rattle.microstep.specs.Progressing.{Becomes};
ghost use Rattle.microstep.specs.Working.{BecomesBy};

use crate::done::climb;
use crate::made_events::done_state_event;
use crate::micro::StepFault;
use crate::parts::short_in;
use crate::progress::Progress;
use guard_eval::Def;
use node_tree::{Kind, Tree};
use std::alloc::Global;
use xs_data::Text;
use xs_model::{Env, Expr, Value};

/// Raises the done events that the entry of a node brings, where these nodes are entered later.
pub(crate) fn raise_done_events(
    alloc: Global,
    def: &Def,
    event: &Value,
    configuration: &[u32],
    later: &[u32],
    node: u32,
    progress: &mut Progress,
) -> Result<(), StepFault>
    requires statechart { IsStatechart def.now.tree }
    requires configuration { IsConfiguration def.now.tree configuration.now }
    requires later { IsStrictlyIncreasing later.now }
    requires active { Contains configuration.now node }
    ensures { BecomesBy (AreDoneActs def.now (IsActiveYet configuration.now later.now) node)
        event.now result progress.old progress.new }
{
    let _nodes = def.tree.len();
    let Some(parent) = ended_parent(&def.tree, node) else {
        return Ok(());
    };
    let above = climb(alloc, def, configuration, later, parent)?;
    raise_ended(alloc, def, event, node, parent, progress)?;
    raise_all(alloc, def, event, &above, progress)
}

/// The compound parent, other than the root, whose final child a node is.
fn ended_parent(tree: &Tree, node: u32) -> Option<u32>
    requires { node < length tree.now }
    ensures { MatchOption result
        ((parent initial : ℕ) → ¬ EndsParent tree.now node parent initial)
        (λ parent. (initial : ℕ) × EndsParent tree.now node parent initial) }
{
    let parent = tree.parent(node)?;
    if parent != 0 && ends(tree.node(parent).kind, tree.node(node).kind) {
        Some(parent)
    } else {
        None
    }
}

/// Whether a node of this kind ends its parent of that kind.
fn ends(parent: Kind, kind: Kind) -> bool
    ensures { IsTrue result ↔ EndsKind parent kind }
{
    matches!(parent, Kind::Compound { .. }) && matches!(kind, Kind::Final)
}

/// Raises the event that a node is done, with what its final child gives.
fn raise_ended(
    alloc: Global,
    def: &Def,
    event: &Value,
    child: u32,
    parent: u32,
    progress: &mut Progress,
) -> Result<(), StepFault>
    requires { parent < length def.now.tree }
    ensures { Becomes result progress.new (after_act event.now
        (Act.RaiseDone (node_id def.now.tree parent) (output_of def.now child)) progress.old) }
{
    match def.nodes.get(child as usize) {
        Some(said) => raise_of(alloc, def, event, parent, &said.output, progress),
        None => raise_of(alloc, def, event, parent, &Expr::Null, progress),
    }
}

/// Raises the done events of parallel nodes.
fn raise_all(
    alloc: Global,
    def: &Def,
    event: &Value,
    nodes: &[u32],
    progress: &mut Progress,
) -> Result<(), StepFault>
    requires { AreNodes def.now.tree nodes.now }
    ensures { Becomes result progress.new
        (after_acts event.now (parallel_done def.now nodes.now) progress.old) }
{
    for node in nodes {
        raise_of(alloc, def, event, *node, &Expr::Null, progress)?;
    }
    Ok(())
}

/// Raises the event that a node is done, with what the expression gives.
fn raise_of(
    alloc: Global,
    def: &Def,
    event: &Value,
    node: u32,
    output: &Expr,
    progress: &mut Progress,
) -> Result<(), StepFault>
    requires { node < length def.now.tree }
    ensures { Becomes result progress.new (after_act event.now
        (Act.RaiseDone (node_id def.now.tree node) output.now) progress.old) }
{
    let id = &def.tree.node(node).id;
    raise_done(alloc, event, id, output, progress)
}

/// Raises the event that the node with this id is done.
fn raise_done(
    alloc: Global,
    event: &Value,
    id: &Text,
    output: &Expr,
    progress: &mut Progress,
) -> Result<(), StepFault>
    ensures { Becomes result progress.new
        (raise_done (plain_scope event.now progress.old) id.now output.now progress.old) }
{
    let env = Env {
        context: &progress.context,
        event,
        params: &Value::Null,
        input: &Value::Null,
    };
    let value = short_in(alloc, output, &env)?;
    let done = done_state_event(alloc, id, value)?;
    progress.raise(done)
}
