// References that lead elsewhere.
ghost use Rattle.std.specs.Prelude.{◌≡◌, true, map, Some, IfOk};
ghost use Rattle.std.specs.List.{list_all};
ghost use Rattle.formula_tree.specs.Ranges.{is_ranged};
ghost use Rattle.formula_tree.specs.Redirected.{cell_or_error, error_call, redirected, span_or_error};
ghost use Rattle.formula_tree.specs.Shape.{every};
ghost use Rattle.formula_tree.specs.View.{tree_of, trees_in};

use crate::copies::copy_expr;
use crate::ranges::reference_is_ranged;
use crate::{Expr, ExprList, Function};
use grid_address::Ref;
use lics_text::Memory;
use std::alloc::Global;
use std::mem;
use std::rc::Rc;

/// What references become.
pub trait Redirect {
    ghost use Rattle.std.specs.Prelude.{Option};
    ghost use Rattle.grid_address.specs.Axes.{Reference};

    ghost new_reference: { Self → Reference → Option Reference };

    /// The reference in the place of an old one; none where its cell is lost.
    fn redirect(&self, reference: Ref) -> Option<Ref>
        ensures { result ≡ new_reference self.now reference };
}

// The call of @ERR. It takes no memory.
fn error_call(alloc: Global) -> Expr
    ensures tree { tree_of result ≡ error_call }
    ensures ranged { every is_ranged (tree_of result) ≡ true }
{
    Expr::Call(Function::Err, ExprList::new(alloc))
}

// A reference to a cell redirected.
fn redirected_cell<R: Redirect>(alloc: Global, reference: Ref, by: &R) -> Expr
    ensures tree { tree_of result ≡ cell_or_error (R.new_reference by.now reference) }
    ensures ranged { every is_ranged (tree_of result) ≡ true }
{
    match by.redirect(reference) {
        Some(reference) => {
            reference_is_ranged(reference);
            Expr::Cell(reference)
        }
        None => error_call(alloc),
    }
}

// A span redirected corner by corner.
fn redirected_span<R: Redirect>(alloc: Global, first: Ref, last: Ref, by: &R) -> Expr
    ensures tree { tree_of result ≡ span_or_error (R.new_reference by.now first) (R.new_reference by.now last) }
    ensures ranged { every is_ranged (tree_of result) ≡ true }
{
    let Some(first) = by.redirect(first) else {
        return error_call(alloc);
    };
    let Some(last) = by.redirect(last) else {
        return error_call(alloc);
    };
    reference_is_ranged(first);
    reference_is_ranged(last);
    Expr::Span(first, last)
}

/// Redirects each reference of a tree.
#[cycle(redirect_tree)]
pub fn redirect_tree<R: Redirect>(alloc: Global, expr: &mut Expr, by: &R)
    ensures tree { tree_of expr.new ≡ redirected (R.new_reference by.now) (tree_of expr.old) }
    ensures ranged { every is_ranged (tree_of expr.old) ≡ true → every is_ranged (tree_of expr.new) ≡ true }
{
    match expr {
        Expr::Num(_) | Expr::Str(_) => {}
        Expr::Cell(reference) => {
            let reference = *reference;
            *expr = redirected_cell(alloc, reference, by);
        }
        Expr::Span(first, last) => {
            let first = *first;
            let last = *last;
            *expr = redirected_span(alloc, first, last, by);
        }
        Expr::Group(inner) => redirect_tree(alloc, inner, by),
        Expr::Neg(inner) => redirect_tree(alloc, inner, by),
        Expr::Not(inner) => redirect_tree(alloc, inner, by),
        Expr::Binary(_, left, right) => {
            redirect_tree(alloc, left, by);
            redirect_tree(alloc, right, by);
        }
        Expr::Call(function, args) => {
            let function = *function;
            let mut args = mem::replace(args, ExprList::new(alloc));
            redirect_all(alloc, &mut args, by);
            *expr = Expr::Call(function, args);
        }
    }
}

// Redirects each reference in the arguments of a call, which stay in their order.
#[cycle(redirect_tree)]
fn redirect_all<R: Redirect>(alloc: Global, args: &mut ExprList, by: &R)
    ensures trees { trees_in args.new
        ≡ map (λ e. redirected (R.new_reference by.now) (tree_of e)) args.old.items.items }
    ensures ranged { list_all (λ e. every is_ranged (tree_of e)) args.old.items.items ≡ true
        → list_all (λ e. every is_ranged (tree_of e)) args.new.items.items ≡ true }
{
    for i in 0..args.items.len() {
        redirect_tree(alloc, &mut args.items[i], by);
    }
}

/// A redirected copy of a tree.
pub fn redirected_copy<R: Redirect>(alloc: Global, expr: &Expr, by: &R) -> Result<Rc<Expr>, Memory>
    ensures tree { IfOk result (λ e. tree_of e.value ≡ redirected (R.new_reference by.now) (tree_of expr.now)) }
    ensures ranged { IfOk result (λ e. every is_ranged (tree_of expr.now) ≡ true
        → every is_ranged (tree_of e.value) ≡ true) }
{
    let mut copy = copy_expr(alloc, expr)?;
    redirect_tree(alloc, &mut copy, by);
    let shared = Rc::new(alloc, copy)?;
    Ok(shared)
}

// Whether a reference stays as it is.
fn stays<R: Redirect>(reference: Ref, by: &R) -> bool
    ensures { result ≡ true → R.new_reference by.now reference ≡ Some reference }
{
    match by.redirect(reference) {
        Some(new) => new == reference,
        None => false,
    }
}

/// Whether each reference of a tree stays as it is.
#[cycle(keeps_references)]
pub fn keeps_references<R: Redirect>(expr: &Expr, by: &R) -> bool
    ensures { result ≡ true → redirected (R.new_reference by.now) (tree_of expr.now) ≡ tree_of expr.now }
{
    match expr {
        Expr::Num(_) | Expr::Str(_) => true,
        Expr::Cell(reference) => stays(*reference, by),
        Expr::Span(first, last) => stays(*first, by) && stays(*last, by),
        Expr::Group(inner) | Expr::Neg(inner) | Expr::Not(inner) => keeps_references(inner, by),
        Expr::Binary(_, left, right) => keeps_references(left, by) && keeps_references(right, by),
        Expr::Call(_, args) => all_keep(&args.items, by),
    }
}

// Whether each reference in the arguments of a call stays as it is.
#[cycle(keeps_references)]
fn all_keep<R: Redirect>(args: &[Expr], by: &R) -> bool
    ensures { result ≡ true
        → map (λ e. redirected (R.new_reference by.now) (tree_of e)) args.now ≡ map tree_of args.now }
{
    for arg in args {
        if !keeps_references(arg, by) {
            return false;
        }
    }
    true
}
