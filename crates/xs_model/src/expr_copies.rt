//! Copies of expressions.

ghost use Rattle.std.specs.Prelude.{◌≡◌, IfOk};

use crate::copies::copy;
use crate::expr::{Expr, Exprs, Parts};
use sqlite_items::Boxed;
use std::alloc::{AllocError, Global};
use xs_data::Items;

/// An equal expression. It costs as much as the expression is large, its literals too.
#[cycle(copy_expr)]
pub fn copy_expr(alloc: Global, expr: &Expr) -> Result<Expr, AllocError>
    ensures { IfOk result (λ copied. copied ≡ expr.now) }
{
    match expr {
        Expr::Null => Ok(Expr::Null),
        Expr::Bool(truth) => Ok(Expr::Bool(*truth)),
        Expr::Int(number) => Ok(Expr::Int(*number)),
        Expr::Text(text) => Ok(Expr::Text(text.copy(alloc)?)),
        Expr::List(parts) => Ok(Expr::List(copy_exprs(alloc, parts)?)),
        Expr::Map(parts) => Ok(Expr::Map(copy_parts(alloc, parts)?)),
        Expr::Path(root, path) => Ok(Expr::Path(*root, path.copy(alloc)?)),
        Expr::OrElse(a, b) => {
            let first = copy_operand(alloc, a)?;
            Ok(Expr::OrElse(first, copy_operand(alloc, b)?))
        }
        Expr::Unary(op, a) => Ok(Expr::Unary(*op, copy_operand(alloc, a)?)),
        Expr::Binary(op, a, b) => {
            let first = copy_operand(alloc, a)?;
            Ok(Expr::Binary(*op, first, copy_operand(alloc, b)?))
        }
        Expr::Connect(op, a, b) => {
            let first = copy_operand(alloc, a)?;
            Ok(Expr::Connect(*op, first, copy_operand(alloc, b)?))
        }
        Expr::If(c, a, b) => {
            let test = copy_operand(alloc, c)?;
            let first = copy_operand(alloc, a)?;
            Ok(Expr::If(test, first, copy_operand(alloc, b)?))
        }
        Expr::Lit(value) => Ok(Expr::Lit(copy(alloc, value)?)),
    }
}

/// An equal operand, in a box of its own.
#[cycle(copy_expr)]
fn copy_operand(alloc: Global, operand: &Boxed<Expr>) -> Result<Boxed<Expr>, AllocError>
    ensures { IfOk result (λ copied. copied ≡ operand.now) }
{
    Boxed::new(alloc, copy_expr(alloc, operand.get())?)
}

/// Equal parts of a list.
#[cycle(copy_expr)]
fn copy_exprs(alloc: Global, parts: &Exprs) -> Result<Exprs, AllocError>
    ensures { IfOk result (λ copied. copied ≡ parts.now) }
{
    let mut copies = Vec::with_capacity(alloc, parts.len())?;
    for part in parts.as_slice() {
        copies.push(copy_expr(alloc, part)?)?;
    }
    Ok(Items::from_vec(copies))
}

/// Equal parts of a map.
#[cycle(copy_expr)]
pub(crate) fn copy_parts(alloc: Global, parts: &Parts) -> Result<Parts, AllocError>
    ensures { IfOk result (λ copied. copied ≡ parts.now) }
{
    let mut copies = Vec::with_capacity(alloc, parts.len())?;
    for (key, part) in parts.as_slice() {
        copies.push((key.copy(alloc)?, copy_expr(alloc, part)?))?;
    }
    Ok(Items::from_vec(copies))
}
