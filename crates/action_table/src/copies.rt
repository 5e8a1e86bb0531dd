//! Copies of the parts of machines and actions.

ghost use Rattle.std.specs.Prelude.{◌≡◌, IfOk};

use node_tree::{Node, Targets, Tree};
use std::alloc::{AllocError, Global};
use xs_data::{Items, Text};
use xs_model::{Expr, Parts, Target, copy_expr};

/// Equal parts, each under its key.
pub(crate) fn copy_parts(alloc: Global, parts: &Parts) -> Result<Parts, AllocError>
    ensures { IfOk result (λ copied. copied ≡ parts.now) }
{
    let mut copies = Vec::with_capacity(alloc, parts.len())?;
    for (key, part) in parts.as_slice() {
        copies.push((key.copy(alloc)?, copy_expr(alloc, part)?))?;
    }
    Ok(Items::from_vec(copies))
}

/// An equal expression, where there is one.
pub(crate) fn copy_optional(alloc: Global, part: &Option<Expr>) -> Result<Option<Expr>, AllocError>
    ensures { IfOk result (λ copied. copied ≡ part.now) }
{
    match part {
        Some(expr) => Ok(Some(copy_expr(alloc, expr)?)),
        None => Ok(None),
    }
}

/// An equal target of a sent event.
pub(crate) fn copy_target(alloc: Global, target: &Target) -> Result<Target, AllocError>
    ensures { IfOk result (λ copied. copied ≡ target.now) }
{
    match target {
        Target::Own => Ok(Target::Own),
        Target::Parent => Ok(Target::Parent),
        Target::Child(id) => Ok(Target::Child(copy_expr(alloc, id)?)),
        Target::System(name) => Ok(Target::System(copy_expr(alloc, name)?)),
    }
}

/// An equal text, where there is one.
pub(crate) fn copy_text(alloc: Global, text: &Option<Text>) -> Result<Option<Text>, AllocError>
    ensures { IfOk result (λ copied. copied ≡ text.now) }
{
    match text {
        Some(name) => Ok(Some(name.copy(alloc)?)),
        None => Ok(None),
    }
}

/// Equal texts.
pub(crate) fn copy_texts(alloc: Global, texts: &[Text]) -> Result<Items<Text>, AllocError>
    ensures { IfOk result (λ copied. copied ≡ texts.now) }
{
    let mut copies = Vec::with_capacity(alloc, texts.len())?;
    for text in texts {
        copies.push(text.copy(alloc)?)?;
    }
    Ok(Items::from_vec(copies))
}

/// The same nodes.
pub(crate) fn copy_targets(alloc: Global, targets: &Targets) -> Result<Targets, AllocError>
    ensures { IfOk result (λ copied. copied ≡ targets.now) }
{
    Ok(Items::from_vec(Vec::from_slice(alloc, targets.as_slice())?))
}

/// An equal tree. It costs as much as the building of it.
pub(crate) fn copy_tree(alloc: Global, tree: &Tree) -> Result<Tree, AllocError>
    ensures { IfOk result (λ copied. copied ≡ tree.now) }
{
    let mut rows = Vec::with_capacity(alloc, tree.len() as usize)?;
    for n in 0..tree.len() {
        rows.push(copy_node(alloc, tree.node(n))?)?;
    }
    // The rows of a tree are one, so that memory alone may be wanting.
    match Tree::build(alloc, Items::from_vec(rows)) {
        Ok(copied) => Ok(copied),
        Err(_) => Err(AllocError),
    }
}

/// An equal row.
fn copy_node(alloc: Global, node: &Node) -> Result<Node, AllocError>
    ensures { IfOk result (λ copied. copied ≡ node.now) }
{
    Ok(Node {
        parent: node.parent,
        kind: node.kind,
        key: node.key.copy(alloc)?,
        id: node.id.copy(alloc)?,
    })
}
