// Codes written from trees.
ghost use Rattle.std.specs.Int.{to_le_bytes, w16};
ghost use Rattle.std.specs.Prelude.{◌≡◌, ◌≤◌, ◌<◌, ◌/◌, ◌++◌, ◌∷◌, [], OnOk, nat_abs, pos, true, false, flat_map};
ghost use Rattle.grid_address.specs.Axes.{number_of};
ghost use Rattle.grid_address.specs.Place.{Place};
ghost use Rattle.std.specs.List.{list_all};
ghost use Rattle.formula_tree.specs.Shape.{every, is_counted, is_short};
ghost use Rattle.formula_tree.specs.View.{tree_of};
ghost use Rattle.wk1_formula.specs.Codes.{operator, postfix, range, reference};
ghost use Rattle.wk1_formula.specs.Doubles.{bits_of};
ghost use Rattle.wk1_formula.specs.inner.Steps.{code_over};
ghost use Rattle.wk1_formula.specs.Opcodes as opcodes;
ghost use Rattle.wk1_formula.specs.Written.{bytes_of, code_of, coordinate, function_bytes, number_bytes, reference_bytes, spelled};

use crate::bytes::{put, put_short};
use crate::item::One;
use crate::kind::op_code;
use crate::{function_codes, opcodes};
use fixed_value::{Fixed, to_double_bits};
use formula_tree::{Expr, Formula, Function, Op, call_size};
use grid_address::{Axis, COLUMNS, Cell, ROWS, Ref};
use lics_text::{Memory, Text};

/// The bits of a double that stand for ERR.
pub const ERR_BITS: u64 = 0x7FF0_0000_0000_0000;

/// The bits of a double that stand for NA.
pub const NA_BITS: u64 = 0xFFF0_0000_0000_0000;

/// The bits of the nearest double, ties to even.
pub fn double_bits(value: Fixed) -> u64
    ensures { result ≡ bits_of value }
{
    let _size = value.millionths();
    to_double_bits(value)
}

/// The room in bytes that a code is given at first: few codes take more.
const CODE_ROOM: usize = 32;

// A whole number of at most 32767.
fn is_short(number: Fixed) -> bool
    ensures { result ≡ is_short number }
{
    let size = number.millionths().unsigned_abs();
    size % 1_000_000 == 0 && size <= 32_767_000_000
}

// Adds a byte.
fn put_byte(byte: u8, into: &mut Vec<u8>) -> Result<(), Memory>
    ensures { OnOk result (into.new.items ≡ into.old.items ++ byte ∷ []) }
{
    into.push(byte)?;
    Ok(())
}

// The whole part of a short number.
fn short_size(number: Fixed) -> u16
    requires { is_short number ≡ true }
    ensures { result ≡ nat_abs number / 1000000 }
{
    (number.millionths().unsigned_abs() / 1_000_000) as u16
}

// Adds a number, in two bytes where they hold it.
fn put_number(number: Fixed, into: &mut Vec<u8>) -> Result<(), Memory>
    ensures { OnOk result (into.new.items ≡ into.old.items ++ number_bytes number) }
{
    if is_short(number) {
        put_byte(opcodes::SHORT, into)?;
        put_short(short_size(number), into)
    } else {
        put_byte(opcodes::DOUBLE, into)?;
        put(&double_bits(number).to_le_bytes(), into)
    }
}

// Adds a text and its 00.
fn put_text(text: &Text, into: &mut Vec<u8>) -> Result<(), Memory>
    ensures { OnOk result (into.new.items ≡ into.old.items ++ opcodes.TEXT ∷ (text.now ++ 0 ∷ [])) }
{
    put_byte(opcodes::TEXT, into)?;
    put(text.bytes(), into)?;
    put_byte(0x00, into)
}

// A coordinate as two bytes hold it.
fn coordinate(axis: Axis, own: u16, count: u16) -> u16
    requires own_in { own < count }
    requires count_in { count ≤ ROWS }
    requires axis_in { number_of axis < count }
    ensures { result ≡ coordinate axis own count }
{
    match axis {
        Axis::Fixed(number) => number,
        Axis::Offset(offset) => 32768 + ((own + offset) % count + 16384 - own) % 16384,
    }
}

// The bytes of a reference, the column first.
fn placed(reference: Ref, at: Cell) -> [u8; 4]
    ensures { result ≡ reference_bytes reference at }
{
    let [left, right] = coordinate(reference.col, u16::from(at.col), COLUMNS).to_le_bytes();
    let [low, high] = coordinate(reference.row, at.row, ROWS).to_le_bytes();
    [left, right, low, high]
}

// A function's code, and the count of its arguments where it is free.
fn put_function(function: Function, count: u8, into: &mut Vec<u8>) -> Result<(), Memory>
    ensures { OnOk result (into.new.items ≡ into.old.items ++ function_bytes function count) }
{
    let code = function_codes::code_of(function);
    if call_size(function) == 2 {
        put(&[code, count], into)
    } else {
        put_byte(code, into)
    }
}

// Adds a reference's code.
fn put_cell(place: Ref, at: Cell, into: &mut Vec<u8>) -> Result<(), Memory>
    ensures { OnOk result (into.new.items ≡ into.old.items ++ bytes_of at (reference place)) }
{
    let [left, right, low, high] = placed(place, at);
    put(&[opcodes::REFERENCE, left, right, low, high], into)
}

// Adds a range's code.
fn put_span(first: Ref, last: Ref, at: Cell, into: &mut Vec<u8>) -> Result<(), Memory>
    ensures { OnOk result (into.new.items ≡ into.old.items ++ bytes_of at (range first last)) }
{
    let [left, right, low, high] = placed(first, at);
    let [last_left, last_right, last_low, last_high] = placed(last, at);
    put(
        &[
            opcodes::RANGE,
            left,
            right,
            low,
            high,
            last_left,
            last_right,
            last_low,
            last_high,
        ],
        into,
    )
}

// Adds the codes of two references with an operator between them, all at once.
#[inline(always)]
fn put_cells(op: Op, left: Ref, right: Ref, at: Cell, into: &mut Vec<u8>) -> Result<(), Memory>
    ensures { OnOk result (into.new.items
        ≡ into.old.items ++ spelled at (reference left ∷ reference right ∷ operator op ∷ [])) }
{
    let [left_col, left_col_high, left_row, left_row_high] = placed(left, at);
    let [right_col, right_col_high, right_row, right_row_high] = placed(right, at);
    put(
        &[
            opcodes::REFERENCE,
            left_col,
            left_col_high,
            left_row,
            left_row_high,
            opcodes::REFERENCE,
            right_col,
            right_col_high,
            right_row,
            right_row_high,
            op_code(op),
        ],
        into,
    )
}

// The code of what stands over one operand.
fn over_code(one: One) -> u8
    ensures { (at : Place) → bytes_of at (code_over one) ≡ result ∷ [] }
{
    match one {
        One::Group => opcodes::BRACKETS,
        One::Neg => opcodes::MINUS,
        One::Not => opcodes::NOT,
    }
}

/// Adds the codes of a tree that stands in a cell.
#[cycle(put_tree)]
fn put_tree(expr: &Expr, at: Cell, into: &mut Vec<u8>) -> Result<(), Memory>
    requires { every is_counted (tree_of expr.now) ≡ true }
    ensures { OnOk result (into.new.items ≡ into.old.items ++ spelled at (postfix (tree_of expr.now))) }
{
    match expr {
        Expr::Num(value) => put_number(*value, into),
        Expr::Str(text) => put_text(text, into),
        Expr::Cell(place) => put_cell(*place, at, into),
        Expr::Span(first, last) => put_span(*first, *last, at, into),
        Expr::Group(inner) => put_over(One::Group, inner, at, into),
        Expr::Neg(inner) => put_over(One::Neg, inner, at, into),
        Expr::Not(inner) => put_over(One::Not, inner, at, into),
        Expr::Binary(op, left, right) => put_between(*op, left, right, at, into),
        Expr::Call(function, args) => {
            put_trees(args.items(), at, into)?;
            put_function(*function, args.items().len() as u8, into)
        }
    }
}

// Adds the codes of a tree with a bracket, a minus or a NOT over it.
#[cycle(put_tree)]
fn put_over(one: One, inner: &Expr, at: Cell, into: &mut Vec<u8>) -> Result<(), Memory>
    requires { every is_counted (tree_of inner.now) ≡ true }
    ensures { OnOk result (into.new.items
        ≡ into.old.items ++ spelled at (postfix (tree_of inner.now) ++ code_over one ∷ [])) }
{
    put_tree(inner, at, into)?;
    put_byte(over_code(one), into)
}

// Adds the codes of two trees with an operator between them. Those of two references, which most are, come without a
// call.
#[cycle(put_tree)]
#[inline(always)]
fn put_between(
    op: Op,
    left: &Expr,
    right: &Expr,
    at: Cell,
    into: &mut Vec<u8>,
) -> Result<(), Memory>
    requires left_counted { every is_counted (tree_of left.now) ≡ true }
    requires right_counted { every is_counted (tree_of right.now) ≡ true }
    ensures { OnOk result (into.new.items ≡ into.old.items
        ++ spelled at (postfix (tree_of left.now) ++ (postfix (tree_of right.now) ++ operator op ∷ []))) }
{
    match (left, right) {
        (Expr::Cell(first), Expr::Cell(second)) => put_cells(op, *first, *second, at, into),
        _ => {
            put_operand(left, at, into)?;
            put_operand(right, at, into)?;
            put_byte(op_code(op), into)
        }
    }
}

// Adds the codes of a tree as `put_tree` does, and those of a reference, which most are, without a call.
#[cycle(put_tree)]
#[inline(always)]
fn put_operand(expr: &Expr, at: Cell, into: &mut Vec<u8>) -> Result<(), Memory>
    requires { every is_counted (tree_of expr.now) ≡ true }
    ensures { OnOk result (into.new.items ≡ into.old.items ++ spelled at (postfix (tree_of expr.now))) }
{
    match expr {
        Expr::Cell(place) => put_cell(*place, at, into),
        _ => put_tree(expr, at, into),
    }
}

// Adds the codes of arguments.
#[cycle(put_tree)]
fn put_trees(args: &[Expr], at: Cell, into: &mut Vec<u8>) -> Result<(), Memory>
    requires { list_all (λ e. every is_counted (tree_of e)) args.now ≡ true }
    ensures { OnOk result (into.new.items
        ≡ into.old.items ++ flat_map (λ e. spelled at (postfix (tree_of e))) args.now) }
{
    for arg in args {
        put_tree(arg, at, into)?;
    }
    Ok(())
}

// Adds the codes of a formula's tree as `put_tree` does, and those of two operands without its call.
#[inline(always)]
fn put_whole(expr: &Expr, at: Cell, into: &mut Vec<u8>) -> Result<(), Memory>
    requires { every is_counted (tree_of expr.now) ≡ true }
    ensures { OnOk result (into.new.items ≡ into.old.items ++ spelled at (postfix (tree_of expr.now))) }
{
    match expr {
        Expr::Binary(op, left, right) => put_between(*op, left, right, at, into),
        whole => put_tree(whole, at, into),
    }
}

/// Adds the code of a formula that stands in a cell. After `Memory` a part of it may have been added.
#[inline(always)]
pub fn write_code(formula: &Formula, at: Cell, into: &mut Vec<u8>) -> Result<(), Memory>
    ensures { OnOk result (into.new.items ≡ into.old.items ++ code_of formula.now at) }
{
    into.reserve(CODE_ROOM)?;
    put_whole(formula.expr(), at, into)?;
    put_byte(opcodes::FINISH, into)
}
