//! What follows from the definitions of the sets: the contract of each function is a law, and its body
//! does nothing.

ghost use Rattle.step_sets.specs.Laws.{FirstIsLegal, HistoryStaysFit, NextIsLegal, PreemptionKeepsApart, RecordsHoldChildrenOrLeaves};
ghost use Rattle.step_sets.specs.Statechart.{IsStatechart};

use node_tree::Tree;

/// Two transitions that stay leave no node in common, and one that is dropped leaves a node that one
/// that stays before it leaves.
pub fn preemption_keeps_apart()
    ensures { PreemptionKeepsApart }
{}

/// What is recorded for a shallow history node is children of its parent, and for a deep one leaves
/// below its parent.
pub fn records_hold_children_or_leaves(tree: &Tree)
    ensures { RecordsHoldChildrenOrLeaves tree.now }
{
    let _ = tree;
}

/// A recorded history that fits legal configurations stays so when nodes of one are left.
pub fn history_stays_fit(tree: &Tree)
    ensures { HistoryStaysFit tree.now }
{
    let _ = tree;
}

/// What the root enters when a machine begins is a legal configuration.
pub fn first_configuration_is_legal(tree: &Tree)
    requires { IsStatechart tree.now }
    ensures { FirstIsLegal tree.now }
{
    let _nodes = tree.len();
}

/// From a legal configuration, transitions that leave no node in common lead to a legal one.
pub fn next_configuration_is_legal(tree: &Tree)
    requires { IsStatechart tree.now }
    ensures { NextIsLegal tree.now }
{
    let _nodes = tree.len();
}
