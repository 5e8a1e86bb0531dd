//! The exit set of a transition.

ghost use Rattle.std.specs.Prelude.{IfOk};
ghost use Rattle.node_tree.specs.Nodes.{AreNodes};
ghost use Rattle.step_sets.specs.Domains.{IsDomainOf};
ghost use Rattle.step_sets.specs.Exits.{IsExited};
ghost use Rattle.step_sets.specs.Sets.{IsSetOf};

use crate::Domain;
use crate::runs::run_below;
use node_tree::{NodeSet, Tree};
use std::alloc::{AllocError, Global};
use xs_data::Items;

/// The exit set of a transition with this domain, after SCXML's `computeExitSet`: the active nodes
/// below the domain, or all active nodes for the whole tree. It costs a binary search and a look at
/// each node that it gives.
pub fn exit_set(
    alloc: Global,
    tree: &Tree,
    active: &NodeSet,
    domain: Domain,
) -> Result<NodeSet, AllocError>
    requires active { AreNodes tree.now active.now }
    requires domain { IsDomainOf tree.now domain }
    ensures exits { IfOk result (λ exits. IsSetOf (IsExited tree.now active.now domain) exits) }
    ensures of_tree { IfOk result (λ exits. AreNodes tree.now exits) }
{
    let exits = Vec::from_slice(alloc, exits_in(tree, active, domain))?;
    Ok(NodeSet::from_rising(Items::from_vec(exits)))
}

/// Lends the active nodes that are left.
fn exits_in<'a>(tree: &Tree, active: &'a NodeSet, domain: Domain) -> &'a [u32]
    requires active { AreNodes tree.now active.now }
    requires domain { IsDomainOf tree.now domain }
    ensures { IsSetOf (IsExited tree.now active.now domain) result.now }
{
    match domain {
        Domain::Node(high) => run_below(tree, active.as_slice(), high),
        Domain::Whole => active.as_slice(),
    }
}
