// What a formula reads.
ghost use Rattle.std.specs.Prelude.{◌≡◌, ◌++◌, ◌∷◌, [], OnOk, flat_map};
ghost use Rattle.std.specs.List.{list_any};
ghost use Rattle.formula_tree.specs.Spans.{is_volatile, spans_of};
ghost use Rattle.formula_tree.specs.View.{tree_of};

use crate::Expr;
use crate::table::is_volatile_function;
use grid_address::{Cell, Span};
use lics_text::Memory;

/// Adds the spans that a tree reads at a cell, from left to right.
#[cycle(collect)]
pub fn collect(expr: &Expr, at: Cell, into: &mut Vec<Span>) -> Result<(), Memory>
    ensures { OnOk result (into.new.items ≡ into.old.items ++ spans_of (tree_of expr.now) at) }
{
    match expr {
        Expr::Num(_) | Expr::Str(_) => Ok(()),
        Expr::Cell(place) => {
            let cell = place.resolve(at);
            into.push(Span::of(cell, cell))?;
            Ok(())
        }
        Expr::Span(first, last) => {
            into.push(Span::of(first.resolve(at), last.resolve(at)))?;
            Ok(())
        }
        Expr::Group(inner) | Expr::Neg(inner) | Expr::Not(inner) => collect(inner, at, into),
        Expr::Binary(_, left, right) => {
            collect(left, at, into)?;
            collect(right, at, into)
        }
        Expr::Call(_, args) => collect_all(&args.items, at, into),
    }
}

// Adds the spans that the arguments of a call read, the first argument's first.
#[cycle(collect)]
fn collect_all(args: &[Expr], at: Cell, into: &mut Vec<Span>) -> Result<(), Memory>
    ensures { OnOk result (into.new.items ≡ into.old.items ++ flat_map (λ e. spans_of (tree_of e) at) args.now) }
{
    for arg in args {
        collect(arg, at, into)?;
    }
    Ok(())
}

/// Whether a function whose value changes by itself is called.
#[cycle(is_volatile)]
pub fn is_volatile(expr: &Expr) -> bool
    ensures { result ≡ is_volatile (tree_of expr.now) }
{
    match expr {
        Expr::Num(_) | Expr::Str(_) | Expr::Cell(_) | Expr::Span(_, _) => false,
        Expr::Group(inner) | Expr::Neg(inner) | Expr::Not(inner) => is_volatile(inner),
        Expr::Binary(_, left, right) => is_volatile(left) || is_volatile(right),
        Expr::Call(function, args) => is_volatile_function(*function) || any_volatile(&args.items),
    }
}

// Whether an argument calls a function whose value changes by itself.
#[cycle(is_volatile)]
fn any_volatile(args: &[Expr]) -> bool
    ensures { result ≡ list_any (λ e. is_volatile (tree_of e)) args.now }
{
    for arg in args {
        if is_volatile(arg) {
            return true;
        }
    }
    false
}
