// Copies of trees.
ghost use Rattle.std.specs.Prelude.{◌≡◌, IfOk, map};
ghost use Rattle.formula_tree.specs.View.{tree_of};

use crate::{Expr, ExprList};
use lics_text::Memory;
use std::alloc::Global;

/// An equal tree.
#[cycle(copy)]
pub fn copy_expr(alloc: Global, expr: &Expr) -> Result<Expr, Memory>
    ensures { IfOk result (λ e. tree_of e ≡ tree_of expr.now) }
{
    match expr {
        Expr::Num(value) => Ok(Expr::Num(*value)),
        Expr::Str(text) => Ok(Expr::Str(text.copy()?)),
        Expr::Cell(place) => Ok(Expr::Cell(*place)),
        Expr::Span(first, last) => Ok(Expr::Span(*first, *last)),
        Expr::Group(inner) => Ok(Expr::Group(copy_box(alloc, inner)?)),
        Expr::Neg(inner) => Ok(Expr::Neg(copy_box(alloc, inner)?)),
        Expr::Not(inner) => Ok(Expr::Not(copy_box(alloc, inner)?)),
        Expr::Binary(op, left, right) => {
            let left = copy_box(alloc, left)?;
            let right = copy_box(alloc, right)?;
            Ok(Expr::Binary(*op, left, right))
        }
        Expr::Call(function, args) => {
            let items = copy_all(alloc, &args.items)?;
            Ok(Expr::Call(*function, ExprList { items }))
        }
    }
}

// An equal tree behind a box of its own.
#[cycle(copy)]
fn copy_box(alloc: Global, expr: &Expr) -> Result<Box<Expr>, Memory>
    ensures { IfOk result (λ e. tree_of e.value ≡ tree_of expr.now) }
{
    let copied = copy_expr(alloc, expr)?;
    let boxed = Box::new(alloc, copied)?;
    Ok(boxed)
}

// Equal trees in the same order; where memory runs out, the copies that were made are dropped.
#[cycle(copy)]
fn copy_all(alloc: Global, args: &[Expr]) -> Result<Vec<Expr>, Memory>
    ensures { IfOk result (λ v. map tree_of v.items ≡ map tree_of args.now) }
{
    let mut copies = Vec::new(alloc);
    for arg in args {
        let copied = copy_expr(alloc, arg)?;
        copies.push(copied)?;
    }
    Ok(copies)
}
