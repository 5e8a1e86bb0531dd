//! What the configuration of an actor comes to.

ghost use Rattle.std.specs.Prelude.{◌≡◌, ◌<◌, ℕ, IfOk, IsSomeAnd, MatchOption, filter_map, length};
ghost use Rattle.node_tree.specs.Nodes.{AreNodes};
ghost use Rattle.step_sets.specs.Domains.{IsDomainOf};
ghost use Rattle.step_sets.specs.History.{RecordsNodes};
ghost use Rattle.step_sets.specs.Sets.{IsSetOf};
ghost use Rattle.guard_eval.specs.Definitions.{IsWellFormed};
ghost use Rattle.office_types.specs.OwnParts.{HasBegun};
ghost use Rattle.microstep.specs.Micro.{Enters, IsFirstMove, IsMove, IsMovedByOne, Leaves};
ghost use Rattle.microstep.specs.Progress.{progress_of};
ghost use Rattle.microstep.specs.Selection.{MovesIn, transition_at};
ghost use Rattle.microstep.specs.Taking.{transitions_at};

use crate::micro::Picked;
use crate::node_sets::{union, without};
use crate::places::transition_at;
use crate::progress::Progress;
use crate::recording::recorded_after;
use guard_eval::{Def, Transition};
use node_tree::{NodeSet, Recorded, Targets};
use office_types::Own;
use std::alloc::{AllocError, Global};
use step_sets::{Domain, domain, entry_set, exit_set, goals};
use xs_data::Items;

/// What the configuration of an actor comes to.
#[derive(Debug, Drop)]
pub(crate) struct Move {
    /// The nodes that are left.
    pub left: NodeSet,
    /// What is recorded for history nodes.
    pub history: Recorded,
    /// The nodes that are entered.
    pub entered: NodeSet,
    /// The nodes that are active afterwards, in document order.
    pub configuration: Targets,
}

/// The move that these transitions make, taken together, and what is done so far where nothing is
/// done yet. History is recorded before the nodes are left. It costs what is active, left and
/// entered, and where something is recorded the records too; the own part is used up and not copied.
pub(crate) fn move_of(
    alloc: Global,
    def: &Def,
    own: Own,
    picked: &Picked,
) -> Result<(Move, Progress), AllocError>
    requires well_formed { (actors : ℕ) × IsWellFormed actors def.now }
    requires begun { HasBegun def.now.tree own }
    ensures moves { IfOk result
        (λ made. IsMove def.now own (transitions_at def.now picked.now) made.0) }
    ensures progress { IfOk result (λ made. made.1 ≡ progress_of own) }
{
    let tree = &def.tree;
    let _nodes = tree.len();
    let Own {
        nodes,
        history,
        context,
        children,
        unnamed,
        ..
    } = own;
    let active = NodeSet::from_rising(nodes);
    let places = picked.taken.as_slice();
    let left = left_by_all(alloc, def, &active, picked.eventless, places)?;
    let history = recorded_after(alloc, tree, &active, &left, history)?;
    let entered = entered_by_all(alloc, def, &history, picked.eventless, places)?;
    let kept = without(alloc, active.as_slice(), &left)?;
    let configuration = Items::from_vec(union(alloc, kept, entered.as_slice())?);
    let made = Move {
        left,
        history,
        entered,
        configuration,
    };
    let progress = Progress::new(alloc, context, children, unnamed);
    Ok((made, progress))
}

/// The first move: the root is entered. It costs what is entered.
pub(crate) fn first_move(alloc: Global, def: &Def) -> Result<Move, AllocError>
    ensures { IfOk result (IsFirstMove def.now) }
{
    let entered = entry_set(alloc, &def.tree, &[], Domain::Whole)?;
    let configuration = entered.list(alloc)?;
    Ok(Move {
        left: NodeSet::from_rising(Items::new(alloc)),
        history: Items::new(alloc),
        entered,
        configuration,
    })
}

/// The nodes that the transitions at these places leave.
fn left_by_all(
    alloc: Global,
    def: &Def,
    active: &NodeSet,
    eventless: bool,
    places: &[(u32, usize)],
) -> Result<NodeSet, AllocError>
    requires well_formed { (actors : ℕ) × IsWellFormed actors def.now }
    requires active { AreNodes def.now.tree active.now }
    ensures { IfOk result (IsSetOf (IsMovedByOne (Leaves def.now active.now)
        (filter_map (transition_at def.now eventless) places.now))) }
{
    let mut left = Vec::new(alloc);
    for place in places {
        let more = left_at(alloc, def, active, eventless, *place)?;
        left = union(alloc, left, more.as_slice())?;
    }
    Ok(NodeSet::from_rising(Items::from_vec(left)))
}

/// The nodes that the transition at a place leaves, if there is one.
fn left_at(
    alloc: Global,
    def: &Def,
    active: &NodeSet,
    eventless: bool,
    place: (u32, usize),
) -> Result<NodeSet, AllocError>
    requires well_formed { (actors : ℕ) × IsWellFormed actors def.now }
    requires active { AreNodes def.now.tree active.now }
    ensures { IfOk result (IsSetOf (λ n. IsSomeAnd (transition_at def.now eventless place)
        (λ transition. Leaves def.now active.now transition n))) }
{
    match transition_at(def, eventless, place) {
        Some(transition) => left_by(alloc, def, active, transition),
        None => Ok(NodeSet::from_rising(Items::new(alloc))),
    }
}

/// The nodes that a transition leaves.
fn left_by(
    alloc: Global,
    def: &Def,
    active: &NodeSet,
    transition: &Transition,
) -> Result<NodeSet, AllocError>
    requires source { transition.now.source < length def.now.tree }
    requires targets { AreNodes def.now.tree transition.now.targets }
    requires active { AreNodes def.now.tree active.now }
    ensures { IfOk result (IsSetOf (Leaves def.now active.now transition.now)) }
{
    let _nodes = def.tree.len();
    match domain_of(def, transition) {
        Some(domain) => exit_set(alloc, &def.tree, active, domain),
        None => Ok(NodeSet::from_rising(Items::new(alloc))),
    }
}

/// The nodes that the transitions at these places enter, where this history is recorded.
fn entered_by_all(
    alloc: Global,
    def: &Def,
    history: &Recorded,
    eventless: bool,
    places: &[(u32, usize)],
) -> Result<NodeSet, AllocError>
    requires well_formed { (actors : ℕ) × IsWellFormed actors def.now }
    requires history { RecordsNodes def.now.tree history.now }
    ensures { IfOk result (IsSetOf (IsMovedByOne (Enters def.now history.now)
        (filter_map (transition_at def.now eventless) places.now))) }
{
    let mut entered = Vec::new(alloc);
    for place in places {
        let more = entered_at(alloc, def, history, eventless, *place)?;
        entered = union(alloc, entered, more.as_slice())?;
    }
    Ok(NodeSet::from_rising(Items::from_vec(entered)))
}

/// The nodes that the transition at a place enters, if there is one.
fn entered_at(
    alloc: Global,
    def: &Def,
    history: &Recorded,
    eventless: bool,
    place: (u32, usize),
) -> Result<NodeSet, AllocError>
    requires well_formed { (actors : ℕ) × IsWellFormed actors def.now }
    requires history { RecordsNodes def.now.tree history.now }
    ensures { IfOk result (IsSetOf (λ n. IsSomeAnd (transition_at def.now eventless place)
        (λ transition. Enters def.now history.now transition n))) }
{
    match transition_at(def, eventless, place) {
        Some(transition) => entered_by(alloc, def, history, transition),
        None => Ok(NodeSet::from_rising(Items::new(alloc))),
    }
}

/// The nodes that a transition enters, where this history is recorded.
fn entered_by(
    alloc: Global,
    def: &Def,
    history: &Recorded,
    transition: &Transition,
) -> Result<NodeSet, AllocError>
    requires source { transition.now.source < length def.now.tree }
    requires targets { AreNodes def.now.tree transition.now.targets }
    requires history { RecordsNodes def.now.tree history.now }
    ensures { IfOk result (IsSetOf (Enters def.now history.now transition.now)) }
{
    let _nodes = def.tree.len();
    let Some(domain) = domain_of(def, transition) else {
        return Ok(NodeSet::from_rising(Items::new(alloc)));
    };
    let goals = goals(alloc, &def.tree, history, transition.targets.as_slice())?;
    entry_set(alloc, &def.tree, goals.as_slice(), domain)
}

/// The domain of a transition. Without targets it has none.
fn domain_of(def: &Def, transition: &Transition) -> Option<Domain>
    requires source { transition.now.source < length def.now.tree }
    requires targets { AreNodes def.now.tree transition.now.targets }
    ensures { MatchOption result (length transition.now.targets ≡ 0)
        (λ domain. MovesIn def.now transition.now domain × IsDomainOf def.now.tree domain) }
{
    let targets = transition.targets.as_slice();
    if targets.is_empty() {
        return None;
    }
    Some(domain(&def.tree, transition.source, targets, transition.reenter))
}
