//! Laws of the definitions that the contracts cite, as contracts of calls that change nothing.

ghost use Rattle.guard_eval.specs.Laws.{WellFormedIsStatechart, WellFormedNamesItsNodes};

use crate::def::Def;

/// What a well-formed definition's transitions, initial children, history defaults and guards name
/// as nodes are nodes of its tree.
pub fn well_formed_names_its_nodes(def: &Def)
    ensures { WellFormedNamesItsNodes def.now }
{
    let _count = def.tree.len();
}

/// The tree of a well-formed definition is a statechart, as the laws of the sets of a step ask.
pub fn well_formed_is_statechart()
    ensures { WellFormedIsStatechart }
{}
