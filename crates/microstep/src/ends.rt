//! What a microstep gives once its acts are done: the next own part, and the end of a machine.

ghost use Rattle.std.specs.Prelude.{◌≡◌, ◌↔◌, Contains, IsTrue, Ok};
ghost use Rattle.std.specs.Option.{option_map_or};
ghost use Rattle.node_tree.specs.Kinds.{kind_of};
ghost use Rattle.step_sets.specs.Statechart.{IsStatechart};
ghost use Rattle.office_types.specs.declared.outcome.Own.{Own};
ghost use Rattle.office_types.specs.OwnParts.{IsConfiguration};
ghost use Rattle.xs_model.specs.declared.expr.Expr.TheVariants as expr;
ghost use Rattle.xs_model.specs.Eval.{scope_of};
ghost use Rattle.microstep.specs.declared.progress.Progress.{Progress};
ghost use Rattle.microstep.specs.DoneEvents.{IsDone, output_of};
ghost use Rattle.microstep.specs.Micro.{Ends, after_end, is_final_below_root, last_final, machine_output, root_done};
ghost use Rattle.microstep.specs.Parts.{short_in};
ghost use Rattle.microstep.specs.Progressing.{Becomes, Gives};
ghost use Rattle.microstep.specs.Taking.{IsAnswered};

use crate::acts::run_last;
use crate::done::is_done;
use crate::made_events::done_state_event;
use crate::micro::{Micro, StepFault};
use crate::moves::Move;
use crate::parts::short_in;
use crate::progress::Progress;
use guard_eval::Def;
use node_tree::{Kind, Tree};
use office_types::Own;
use std::alloc::Global;
use xs_data::Items;
use xs_model::{Env, Expr, Value};

/// What a move gives whose acts are done, for an own part of the machine with this number. Where
/// the root is done, the exit actions of all active nodes run, the output is evaluated, and the
/// raised events are dropped.
pub(crate) fn ended(
    alloc: Global,
    def: &Def,
    event: &Value,
    number: u32,
    made: Move,
    progress: Progress,
) -> Result<Micro, StepFault>
    requires statechart { IsStatechart def.now.tree }
    requires configuration { IsConfiguration def.now.tree made.configuration }
    ensures { (own : Own) → own.def ≡ number
        → IsAnswered (Ends def.now own made event.now (Ok progress)) result }
{
    let mut progress = progress;
    let finished = is_root_done(&def.tree, made.configuration.as_slice());
    if finished {
        finish(
            alloc,
            def,
            event,
            made.configuration.as_slice(),
            &mut progress,
        )?;
    }
    Ok(Micro {
        own: Own {
            def: number,
            begun: true,
            nodes: made.configuration,
            history: made.history,
            context: progress.context,
            children: progress.children,
            unnamed: progress.unnamed,
        },
        raised: progress.raised,
        effects: progress.effects,
        actions: progress.actions,
        finished,
    })
}

/// Whether the root of a legal configuration is done.
fn is_root_done(tree: &Tree, configuration: &[u32]) -> bool
    requires statechart { IsStatechart tree.now }
    requires configuration { IsConfiguration tree.now configuration.now }
    ensures { IsTrue result ↔ IsDone tree.now (Contains configuration.now) 0 }
{
    is_done(tree, configuration, &[], 0)
}

/// Runs the exit actions of all active nodes, evaluates the outputs, and drops the raised events.
fn finish(
    alloc: Global,
    def: &Def,
    event: &Value,
    configuration: &[u32],
    progress: &mut Progress,
) -> Result<(), StepFault>
    ensures { Becomes result progress.new
        (after_end def.now configuration.now event.now progress.old) }
{
    run_last(alloc, def, event, configuration, progress)?;
    let _output = output(alloc, def, configuration, event, &progress.context)?;
    progress.raised = Items::new(alloc);
    Ok(())
}

/// What the machine gives at its end, where these nodes are active.
pub(crate) fn output(
    alloc: Global,
    def: &Def,
    configuration: &[u32],
    event: &Value,
    context: &Value,
) -> Result<Value, StepFault>
    ensures { (progress : Progress) → progress.context ≡ context.now
        → Gives result (machine_output def.now configuration.now event.now progress) }
{
    let done = root_done(alloc, def, configuration, event, context)?;
    let env = Env {
        context,
        event: &done,
        params: &Value::Null,
        input: &Value::Null,
    };
    short_in(alloc, &def.output, &env)
}

/// The event that the root is done, with what its final child gives.
fn root_done(
    alloc: Global,
    def: &Def,
    configuration: &[u32],
    event: &Value,
    context: &Value,
) -> Result<Value, StepFault>
    ensures { (progress : Progress) → progress.context ≡ context.now
        → Gives result (root_done def.now configuration.now event.now progress) }
{
    let _nodes = def.tree.len();
    let env = Env {
        context,
        event,
        params: &Value::Null,
        input: &Value::Null,
    };
    let last = output_at(alloc, def, last_final(&def.tree, configuration), &env)?;
    done_state_event(alloc, &def.tree.node(0).id, last)
}

/// What a final node gives, if there is one: null else.
fn output_at(alloc: Global, def: &Def, node: Option<u32>, env: &Env<'_>) -> Result<Value, StepFault>
    ensures { Gives result
        (short_in (scope_of env.now) (option_map_or (output_of def.now) node expr.Null)) }
{
    let Some(node) = node else {
        return short_in(alloc, &Expr::Null, env);
    };
    match def.nodes.get(node as usize) {
        Some(said) => short_in(alloc, &said.output, env),
        None => short_in(alloc, &Expr::Null, env),
    }
}

/// The active final child of a compound root. It looks at each active node up to it.
fn last_final(tree: &Tree, configuration: &[u32]) -> Option<u32>
    ensures { result ≡ last_final tree.now configuration.now (kind_of tree.now 0) }
{
    let _nodes = tree.len();
    match tree.node(0).kind {
        Kind::Compound { .. } => configuration
            .iter()
            .copied()
            .find(|node| is_final_below_root(tree, *node)),
        Kind::Atomic | Kind::Final | Kind::Parallel | Kind::Shallow { .. } | Kind::Deep { .. } => {
            None
        }
    }
}

/// Whether a node is a final child of the root.
fn is_final_below_root(tree: &Tree, node: u32) -> bool
    ensures { result ≡ is_final_below_root tree.now node }
{
    if node >= tree.len() {
        return false;
    }
    match tree.parent(node) {
        Some(0) => matches!(tree.node(node).kind, Kind::Final),
        _ => false,
    }
}
