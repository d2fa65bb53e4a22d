// The shape of a whole tree, seen without recursion, since a tree that is refused may be deep.
ghost use Rattle.std.specs.Prelude.{◌≡◌, ◌++◌, ◌∷◌, [], true, IfOk, OnOk, map};
ghost use Rattle.formula_tree.specs.inner.Nodes.{parts};
ghost use Rattle.formula_tree.specs.Ranges.{is_ranged};
ghost use Rattle.formula_tree.specs.Shape.{every, has_shape};
ghost use Rattle.formula_tree.specs.View.{tree_of};

use crate::Expr;
use crate::ranges::is_ranged;
use crate::shape::{is_fine, node_size};
use lics_text::Memory;
use std::alloc::Global;

/// The most bytes of code of a formula (worksheet file format).
const MOST_CODE: usize = 65_520;

/// Whether each node of a tree is fine, and all of them take few enough bytes of code.
pub fn has_shape(alloc: Global, expr: &Expr) -> Result<bool, Memory>
    ensures shape { IfOk result (λ b. b ≡ has_shape (tree_of expr.now)) }
    ensures ranges { IfOk result (λ b. b ≡ true → every is_ranged (tree_of expr.now) ≡ true) }
{
    let mut stack: Vec<&Expr> = Vec::new(alloc);
    let mut code = 1;
    put(&mut stack, expr)?;
    while let Some(next) = stack.pop() {
        is_ranged(next);
        code += node_size(next);
        if !is_fine(next) || code > MOST_CODE {
            return Ok(false);
        }
        spread(&mut stack, next)?;
    }
    Ok(true)
}

// Puts the parts of a tree on the stack.
fn spread<'a>(stack: &mut Vec<&'a Expr>, expr: &'a Expr) -> Result<(), Memory>
    ensures { OnOk result (map (λ e. tree_of e.now) stack.new.items
        ≡ map (λ e. tree_of e.now) stack.old.items ++ parts (tree_of expr.now)) }
{
    match expr {
        Expr::Group(inner) | Expr::Neg(inner) | Expr::Not(inner) => put(stack, inner),
        Expr::Binary(_, left, right) => {
            put(stack, left)?;
            put(stack, right)
        }
        Expr::Num(_) | Expr::Str(_) | Expr::Cell(_) | Expr::Span(_, _) => Ok(()),
        Expr::Call(_, args) => {
            for arg in &args.items {
                put(stack, arg)?;
            }
            Ok(())
        }
    }
}

// Puts a tree on the stack, to be the next that is seen.
fn put<'a>(stack: &mut Vec<&'a Expr>, expr: &'a Expr) -> Result<(), Memory>
    ensures { OnOk result (map (λ e. tree_of e.now) stack.new.items
        ≡ map (λ e. tree_of e.now) stack.old.items ++ tree_of expr.now ∷ []) }
{
    stack.push(expr)?;
    Ok(())
}
