//! The rows of the tree that the nodes of a text are, with the look-ups of an outline.

ghost use Rattle.std.specs.Prelude.{◌≡◌, ◌<◌, ◌^◌, ◌++◌, ◌&&◌, ℕ, Some, IfOk, IfSome, is_none, length, map, option_copied, slice_get, unwrap_or, if◌then◌else◌};
ghost use Rattle.std.specs.Str.{bytes_eq};
ghost use Rattle.machine_json.specs.NodeKinds.{node_kind};
ghost use Rattle.machine_json.specs.Nodes.{AreFaultlessAtFirst, NodeParts, node_parts};
ghost use Rattle.machine_json.specs.Rows.{HaveEarlierParents, given_id, initial_child, initial_key, is_deep, kind_with_initial, open_rows, path_below, root_id};

use crate::first_pass::members_of;
use crate::kind_word::NodeKind;
use crate::nodes::NodeText;
use node_tree::{Kind, Node, NodeRows, Outline, OutlineFault};
use ordered_json::get_text;
use std::alloc::{AllocError, Global};
use xs_data::{Items, Text};

/// The outline of the nodes, in which the defaults of history nodes are open. Each default id is
/// kept whole, and so is each path while the rows are made: a key counts once for each node below
/// it. Beside that it costs what `Outline::build` does.
pub(crate) fn outline_of(alloc: Global, nodes: &[NodeText<'_>]) -> Result<Outline, AllocError>
    requires { AreFaultlessAtFirst (map node_parts nodes.now) }
    ensures { IfOk result (λ outline. outline ≡ open_rows (map node_parts nodes.now)) }
{
    let rows = open_rows(alloc, nodes)?;
    match Outline::build(alloc, rows) {
        Ok(outline) => Ok(outline),
        Err(OutlineFault::Memory) => Err(AllocError),
        Err(OutlineFault::NoNode(_)) => unreachable!(),
    }
}

/// The rows of the nodes. It looks at the members of a node once for each of its children.
fn open_rows(alloc: Global, nodes: &[NodeText<'_>]) -> Result<NodeRows, AllocError>
    requires { HaveEarlierParents (map node_parts nodes.now) }
    ensures { IfOk result (λ rows. rows ≡ open_rows (map node_parts nodes.now)) }
{
    let initials = initial_children(alloc, nodes)?;
    let root = root_id(alloc, nodes)?;
    let mut paths: Vec<Text> = Vec::with_capacity(alloc, nodes.len())?;
    let mut rows = Vec::with_capacity(alloc, nodes.len())?;
    for n in 0..nodes.len() {
        let node = &nodes[n];
        let path = path_below(alloc, &paths, node)?;
        rows.push(Node {
            parent: number_of(node.parent),
            kind: row_kind(node, initials[n].unwrap_or(0)),
            key: Text::from_str(alloc, node.key)?,
            id: node_id(alloc, &root, &path, node)?,
        })?;
        paths.push(path)?;
    }
    Ok(Items::from_vec(rows))
}

/// The number of a parent in the 32 bits of a tree.
fn number_of(parent: Option<usize>) -> Option<u32>
    requires { IfSome parent (λ n. n < 2 ^ 32) }
    ensures { result ≡ parent }
{
    match parent {
        Some(n) => Some(n as u32),
        None => None,
    }
}

// ---- ids

/// The id that the text gives a node.
fn given_id<'a>(node: &NodeText<'a>) -> Option<&'a Text>
    ensures { option_copied result ≡ given_id (node_parts node.now) }
{
    get_text(members_of(node.json), "id")
}

/// The id of the root.
pub(crate) fn root_id(alloc: Global, nodes: &[NodeText<'_>]) -> Result<Text, AllocError>
    ensures { IfOk result (λ id. id ≡ root_id (map node_parts nodes.now)) }
{
    let Some(root) = nodes.first() else {
        return Ok(Text::new(alloc));
    };
    match given_id(root) {
        Some(id) => id.copy(alloc),
        None => Text::from_str(alloc, "(machine)"),
    }
}

/// The id of a node: the one that the text gives, or that of the root and the path behind it.
fn node_id(alloc: Global, root: &Text, path: &Text, node: &NodeText<'_>) -> Result<Text, AllocError>
    ensures { IfOk result
        (λ id. id ≡ unwrap_or (given_id (node_parts node.now)) (root.now ++ path.now)) }
{
    match given_id(node) {
        Some(id) => id.copy(alloc),
        None => {
            let mut id = String::from_str(alloc, root.as_str())?;
            id.push_str(path.as_str())?;
            Ok(Text::from_string(id))
        }
    }
}

/// A dot and a key behind the path of the parent; nothing for the root.
fn path_below(alloc: Global, before: &[Text], node: &NodeText<'_>) -> Result<Text, AllocError>
    requires { IfSome node.now.parent (λ parent. parent < length before.now) }
    ensures { IfOk result (λ path. path ≡ path_below before.now (node_parts node.now)) }
{
    let Some(parent) = node.parent else {
        return Ok(Text::new(alloc));
    };
    let mut path = String::from_str(alloc, before[parent].as_str())?;
    path.push_str(".")?;
    path.push_str(node.key)?;
    Ok(Text::from_string(path))
}

// ---- kinds

/// The kind of a node in the tree, from the number of its initial child, without the default of a
/// history node.
fn row_kind(node: &NodeText<'_>, initial: u32) -> Kind
    ensures { result ≡
        kind_with_initial initial (node_parts node.now) (node_kind node.now.json.now) }
{
    match NodeKind::of(node.json) {
        NodeKind::Atomic => Kind::Atomic,
        NodeKind::Compound => Kind::Compound { initial },
        NodeKind::Parallel => Kind::Parallel,
        NodeKind::Final => Kind::Final,
        NodeKind::History if is_deep(node) => Kind::Deep { default: None },
        NodeKind::History => Kind::Shallow { default: None },
    }
}

/// Whether a history node is deep.
fn is_deep(node: &NodeText<'_>) -> bool
    ensures { result ≡ is_deep (node_parts node.now) }
{
    match get_text(members_of(node.json), "history") {
        Some(text) => text.as_str() == "deep",
        None => false,
    }
}

/// For each node the number of the child that its text names as the initial one.
fn initial_children(alloc: Global, nodes: &[NodeText<'_>]) -> Result<Vec<Option<u32>>, AllocError>
    requires { HaveEarlierParents (map node_parts nodes.now) }
    ensures each { IfOk result (λ found. (n : ℕ) (node : NodeParts)
        → slice_get (map node_parts nodes.now) n ≡ Some node
        → slice_get found.items n ≡ Some (initial_child (map node_parts nodes.now) n node)) }
    ensures count { IfOk result (λ found. length found.items ≡ length nodes.now) }
{
    let mut found: Vec<Option<u32>> = vec![in alloc; None; nodes.len()]?;
    for n in 0..nodes.len() {
        let node = &nodes[n];
        if let Some(parent) = node.parent {
            let wanted = initial_key(&nodes[parent]);
            found[parent] = or_child(found[parent], wanted, node.key, n as u32);
        }
    }
    Ok(found)
}

/// The child found before, or else this one if it has the key that is wanted.
fn or_child(found: Option<u32>, wanted: &str, key: &str, n: u32) -> Option<u32>
    ensures { result ≡
        (if is_none found && bytes_eq key.now wanted.now then Some n else found) }
{
    match found {
        Some(child) => Some(child),
        None if key == wanted => Some(n),
        None => None,
    }
}

/// The key that the text says of the initial child of a node.
fn initial_key<'a>(node: &NodeText<'a>) -> &'a str
    ensures { result.now ≡ initial_key (node_parts node.now) }
{
    match get_text(members_of(node.json), "initial") {
        Some(text) => text.as_str(),
        None => "",
    }
}
