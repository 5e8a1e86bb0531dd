//! The defaults of history nodes, from a machine text without faults.

ghost use Rattle.std.specs.Prelude.{◌≡◌, ◌<◌, ℕ, Some, IfOk, IfSome, length, map, slice_get, slice_set};
ghost use Rattle.node_tree.specs.declared.node.Node.{Node};
ghost use Rattle.node_tree.specs.Nodes.{HaveNewIds};
ghost use Rattle.machine_json.specs.Machines.{IsTreeOf, named_default, row_with_default};
ghost use Rattle.machine_json.specs.Nodes.{NodeParts, node_parts};
ghost use Rattle.machine_json.specs.Rows.{open_rows};

use crate::first_pass::members_of;
use crate::links::led_to;
use crate::nodes::NodeText;
use node_tree::{Outline, Tree};
use ordered_json::get;
use std::alloc::{AllocError, Global};

/// The tree of an outline in which each history node has the default that its text names. Where
/// the texts lead is looked up before the first default is set.
pub(crate) fn tree_of(
    alloc: Global,
    mut outline: Outline,
    nodes: &[NodeText<'_>],
) -> Result<Tree, AllocError>
    requires rows { outline ≡ open_rows (map node_parts nodes.now) }
    requires ids { HaveNewIds outline }
    ensures { IfOk result (λ tree. IsTreeOf (map node_parts nodes.now) tree) }
{
    let defaults = named_defaults(alloc, &outline, nodes)?;
    for n in 0..outline.len() {
        set_named(&mut outline, n, defaults[n as usize]);
    }
    Ok(outline.into_tree())
}

/// For each node the default that its text names.
fn named_defaults(
    alloc: Global,
    outline: &Outline,
    nodes: &[NodeText<'_>],
) -> Result<Vec<Option<u32>>, AllocError>
    requires { length outline.now ≡ length nodes.now }
    ensures count { IfOk result (λ defaults. length defaults.items ≡ length nodes.now) }
    ensures each { IfOk result (λ defaults. (n : ℕ) (node : NodeParts)
        → slice_get (map node_parts nodes.now) n ≡ Some node
        → slice_get defaults.items n ≡ Some (named_default outline.now n node)) }
    ensures inside { IfOk result (λ defaults. (n d : ℕ)
        → slice_get defaults.items n ≡ Some (Some d) → d < length outline.now) }
{
    let mut defaults: Vec<Option<u32>> = Vec::with_capacity(alloc, nodes.len())?;
    for n in 0..outline.len() {
        defaults.push(named_default(outline, n, &nodes[n as usize]))?;
    }
    Ok(defaults)
}

/// The default that the text of a node names.
fn named_default(outline: &Outline, n: u32, node: &NodeText<'_>) -> Option<u32>
    requires { n < length outline.now }
    ensures default { result ≡ named_default outline.now n (node_parts node.now) }
    ensures inside { IfSome result (λ d. d < length outline.now) }
{
    let target = get(members_of(node.json), "target")?;
    match led_to(outline, n, target) {
        Some(default) => Some(default),
        None => Some(0),
    }
}

/// Gives a history node the default that is named, where one is.
fn set_named(outline: &mut Outline, n: u32, named: Option<u32>)
    requires node { n < length outline.old }
    requires named { IfSome named (λ d. d < length outline.old) }
    ensures { (row : Node) → slice_get outline.old n ≡ Some row
        → outline.new ≡ slice_set outline.old n (row_with_default named row) }
{
    if let Some(default) = named {
        if outline.node(n).kind.is_history() {
            outline.set_default(n, default);
        }
    }
}
