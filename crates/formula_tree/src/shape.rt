// The shape of a tree's nodes.
ghost use Rattle.std.specs.Prelude.{◌≡◌, ◌≤◌, nat_le};
ghost use Rattle.formula_tree.specs.Shape.{has_no_quote, is_bracketed, is_counted, is_fine, is_plain, is_short, level, lowest, node_size, not_negative, top};
ghost use Rattle.formula_tree.specs.View.{tree_of};

use crate::table::{call_size, takes};
use crate::{Expr, Op};
use fixed_value::Fixed;
use lics_text::Text;

/// How tightly an operator binds: 7 binds most tightly. A minus in front binds with 6, and #NOT# with 2.
pub fn level(op: Op) -> u8
    ensures { result ≡ level op }
{
    match op {
        Op::Pow => 7,
        Op::Mul | Op::Div => 5,
        Op::Add | Op::Sub => 4,
        Op::Eq | Op::Ne | Op::Lt | Op::Gt | Op::Le | Op::Ge => 3,
        Op::And | Op::Or | Op::Join => 1,
    }
}

/// The level of the operator at the top, or 8.
pub fn top(expr: &Expr) -> u8
    ensures { result ≡ top (tree_of expr.now) }
{
    match expr {
        Expr::Binary(op, _, _) => level(*op),
        Expr::Num(_) | Expr::Str(_) | Expr::Cell(_) | Expr::Span(_, _) => 8,
        Expr::Group(_) | Expr::Neg(_) | Expr::Not(_) | Expr::Call(_, _) => 8,
    }
}

// Whether no operator takes what an operator beside it should have.
fn is_bracketed(expr: &Expr) -> bool
    ensures { result ≡ is_bracketed (tree_of expr.now) }
{
    match expr {
        Expr::Neg(inner) => top(inner) > 6,
        Expr::Not(inner) => top(inner) > 2,
        Expr::Binary(op, left, right) => is_right_edge(left, level(*op)) && top(right) > level(*op),
        Expr::Num(_) | Expr::Str(_) | Expr::Cell(_) | Expr::Span(_, _) => true,
        Expr::Group(_) | Expr::Call(_, _) => true,
    }
}

// Whether no operator on the right edge of a tree binds less tightly.
fn is_right_edge(expr: &Expr, least: u8) -> bool
    requires { least ≤ 8 }
    ensures { result ≡ nat_le least (lowest (tree_of expr.now)) }
{
    let mut edge = expr;
    loop {
        edge = match edge {
            Expr::Neg(inner) => {
                if least > 6 {
                    return false;
                }
                inner
            }
            Expr::Not(inner) => {
                if least > 2 {
                    return false;
                }
                inner
            }
            Expr::Binary(op, _, right) => {
                if least > level(*op) {
                    return false;
                }
                right
            }
            Expr::Num(_) | Expr::Str(_) | Expr::Cell(_) | Expr::Span(_, _) => return true,
            Expr::Group(_) | Expr::Call(_, _) => return true,
        };
    }
}

// Whether a call has a number of arguments that its function takes.
fn is_counted(expr: &Expr) -> bool
    ensures { result ≡ is_counted (tree_of expr.now) }
{
    match expr {
        Expr::Call(function, args) => takes(*function, args.items().len()),
        Expr::Num(_) | Expr::Str(_) | Expr::Cell(_) | Expr::Span(_, _) => true,
        Expr::Group(_) | Expr::Neg(_) | Expr::Not(_) | Expr::Binary(_, _, _) => true,
    }
}

// Whether a number needs no minus: a minus is an operator of the tree, and no part of a number.
fn is_not_negative(number: Fixed) -> bool
    ensures { result ≡ not_negative number }
{
    number.millionths() >= 0
}

// Whether a text can stand between two quotes as it is.
fn has_no_quote(text: &Text) -> bool
    ensures { result ≡ has_no_quote text.now }
{
    !text.bytes().contains(&b'"')
}

// Whether a number isn't negative, and a text holds no quote.
fn is_plain(expr: &Expr) -> bool
    ensures { result ≡ is_plain (tree_of expr.now) }
{
    match expr {
        Expr::Num(number) => is_not_negative(*number),
        Expr::Str(text) => has_no_quote(text),
        Expr::Cell(_) | Expr::Span(_, _) | Expr::Group(_) | Expr::Neg(_) => true,
        Expr::Not(_) | Expr::Binary(_, _, _) | Expr::Call(_, _) => true,
    }
}

/// Whether a node is fine with what stands beside it.
pub fn is_fine(expr: &Expr) -> bool
    ensures { result ≡ is_fine (tree_of expr.now) }
{
    is_bracketed(expr) && is_counted(expr) && is_plain(expr)
}

// A whole number of at most 32767.
fn is_short(number: Fixed) -> bool
    ensures { result ≡ is_short number }
{
    let size = number.millionths().unsigned_abs();
    size % 1_000_000 == 0 && size <= 32_767_000_000
}

/// What a node takes of the code of a formula, in bytes.
pub fn node_size(expr: &Expr) -> usize
    ensures size { result ≡ node_size (tree_of expr.now) }
    ensures bound { result ≤ 300 }
{
    match expr {
        Expr::Num(number) => { if is_short(*number) { 3 } else { 9 } }
        Expr::Str(text) => text.bytes().len() + 2,
        Expr::Cell(_) => 5,
        Expr::Span(_, _) => 9,
        Expr::Group(_) | Expr::Neg(_) | Expr::Not(_) | Expr::Binary(_, _, _) => 1,
        Expr::Call(function, _) => call_size(*function),
    }
}
