// The numbers of formulas that are made of numbers alone. No value is copied on the way to them.
ghost use Rattle.std.specs.Prelude.{◌≡◌, map, IfSome};
ghost use Rattle.formula_tree.specs.View.{listed, tree_of};
ghost use Rattle.formula_tree.specs.declared.function.Function.TheVariants as function;
ghost use Rattle.formula_parts.specs.inner.Kept.{IsKept};
ghost use Rattle.formula_parts.specs.inner.Numbers.{ranged, IsCallNumber, IsNumber};
ghost use Rattle.formula_parts.specs.Outlook.{Outlook, Sight};
ghost use Rattle.formula_parts.specs.Parts.{arguments_by, Database};

use crate::kept::Kept;
use crate::look::Look;
use crate::lookups::{place_in, range_of};
use crate::meaning::operand_of;
use fixed_value::Fixed;
use formula_tree::{Expr, Function};
use grid_address::{Cell, Span};
use value_functions::binary_numbers;

// The number of a part that is one, or of the cell that it names. It spares most operators a call for each side.
#[inline(always)]
fn number_at<K: Look>(expr: &Expr, at: Cell, look: &K) -> Option<Fixed>
    ensures { IfSome result (IsNumber (tree_of expr.now) at (K.sight look.now)) }
{
    match expr {
        Expr::Num(number) => Some(*number),
        Expr::Cell(reference) => look.number(reference.resolve(at)),
        Expr::Str(_) | Expr::Span(_, _) | Expr::Group(_) | Expr::Neg(_) => None,
        Expr::Not(_) | Expr::Binary(_, _, _) | Expr::Call(_, _) => None,
    }
}

// The range that is the only argument of a function.
fn only_range(exprs: &[Expr], at: Cell) -> Option<Span>
    ensures { let ts = listed (map tree_of exprs.now) in
        IfSome result (λ s. (d : Database) (w : Outlook) → arguments_by d ts at w ≡ ranged s) }
{
    match exprs {
        [Expr::Span(first, last)] => Some(Span::of(first.resolve(at), last.resolve(at))),
        _ => None,
    }
}

// VLOOKUP of a number, or of a cell with one, in a range.
fn looked_up<K: Look>(exprs: &[Expr], at: Cell, look: &K, kept: &mut Kept) -> Option<Fixed>
    requires { IsKept kept.old (K.sight look.now).values }
    ensures number { let ts = listed (map tree_of exprs.now) in
        IfSome result (IsCallNumber function.VLookup ts at (K.sight look.now)) }
    ensures kept { IsKept kept.new (K.sight look.now).values }
{
    match exprs {
        [x, range, number] => {
            let span = range_of(operand_of(range, at))?;
            let x = number_at(x, at, look)?;
            let number = number_at(number, at, look)?;
            let place = place_in(number, span.width())?;
            kept.lookup_number(span, place, x, look)
        }
        _ => None,
    }
}

// The number of a function of a list over a single range, or of a lookup; none for any other function.
fn call_number<K: Look>(
    function: Function,
    exprs: &[Expr],
    at: Cell,
    look: &K,
    kept: &mut Kept,
) -> Option<Fixed>
    requires { IsKept kept.old (K.sight look.now).values }
    ensures number { let ts = listed (map tree_of exprs.now) in
        IfSome result (IsCallNumber function ts at (K.sight look.now)) }
    ensures kept { IsKept kept.new (K.sight look.now).values }
{
    match function {
        Function::Sum | Function::Avg | Function::Count | Function::Min | Function::Max => {
            kept.range_number(function, only_range(exprs, at)?, look)
        }
        Function::VLookup => looked_up(exprs, at, look, kept),
        _ => None,
    }
}

/// The number of an operator between two parts that are numbers, or cells with one, as most formulas are; none for any
/// other part.
#[inline(always)]
pub fn plain_number<K: Look>(expr: &Expr, at: Cell, look: &K) -> Option<Fixed>
    ensures { IfSome result (IsNumber (tree_of expr.now) at (K.sight look.now)) }
{
    match expr {
        Expr::Binary(op, left, right) => {
            let x = number_at(left, at, look)?;
            let y = number_at(right, at, look)?;
            binary_numbers(*op, x, y)
        }
        Expr::Num(_) | Expr::Cell(_) | Expr::Str(_) | Expr::Span(_, _) => None,
        Expr::Group(_) | Expr::Neg(_) | Expr::Not(_) | Expr::Call(_, _) => None,
    }
}

/// The number of a part that is made of numbers, by those of its parts; none where it has none, or where one of them
/// is found otherwise. It spares time alone, and so does what is kept.
pub fn number_within<K: Look>(expr: &Expr, at: Cell, look: &K, kept: &mut Kept) -> Option<Fixed>
    requires { IsKept kept.old (K.sight look.now).values }
    ensures number { IfSome result (IsNumber (tree_of expr.now) at (K.sight look.now)) }
    ensures kept { IsKept kept.new (K.sight look.now).values }
{
    match expr {
        Expr::Group(inner) => number_within(inner, at, look, kept),
        Expr::Neg(inner) => {
            let number = number_within(inner, at, look, kept)?;
            Some(number.neg())
        }
        Expr::Binary(op, left, right) => {
            if let Some(number) = plain_number(expr, at, look) {
                return Some(number);
            }
            let x = number_within(left, at, look, kept)?;
            let y = number_within(right, at, look, kept)?;
            binary_numbers(*op, x, y)
        }
        Expr::Call(function, exprs) => call_number(*function, exprs.items(), at, look, kept),
        Expr::Num(_) | Expr::Cell(_) | Expr::Str(_) | Expr::Span(_, _) | Expr::Not(_) => {
            number_at(expr, at, look)
        }
    }
}

/// The number of a part that is made of numbers; none where it has none, or where one of its parts is found otherwise.
/// It spares time alone, and so does what is kept.
#[inline(always)]
pub fn number_of<K: Look>(expr: &Expr, at: Cell, look: &K, kept: &mut Kept) -> Option<Fixed>
    requires { IsKept kept.old (K.sight look.now).values }
    ensures number { IfSome result (IsNumber (tree_of expr.now) at (K.sight look.now)) }
    ensures kept { IsKept kept.new (K.sight look.now).values }
{
    match plain_number(expr, at, look) {
        Some(number) => Some(number),
        None => number_within(expr, at, look, kept),
    }
}
