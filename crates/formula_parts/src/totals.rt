// What lists of items come to, without a list of them.
ghost use Rattle.std.specs.Prelude.{◌≡◌, ◌<◌, ◌≤◌, ◌+◌, ◌-◌, ◌++◌, ◌∷◌, ◌||◌, [], nat_abs, pos, if◌then◌else◌, IfSome, List, true};
ghost use Rattle.fixed_value.specs.Numbers.{within};
ghost use Rattle.grid_address.specs.Place.{height_of, width_of};
ghost use Rattle.formula_tree.specs.Seen.{seen_value};
ghost use Rattle.formula_tree.specs.declared.value.Value.TheVariants as value;
ghost use Rattle.formula_parts.specs.declared.items.Item.{Item};
ghost use Rattle.formula_parts.specs.declared.items.Item.TheVariants as item;
ghost use Rattle.formula_parts.specs.Lists.{in_range, is_err, is_na, items_in, list_value, size_of};
ghost use Rattle.formula_parts.specs.Outlook.{row_cells, Sight};
ghost use Rattle.formula_parts.specs.inner.Totals.{row_by, so_far, value_by, IsHeld, IsTotal};

use crate::items::{Item, larger, smaller};
use crate::look::Look;
use crate::lookups::cell_at;
use fixed_value::{Fixed, MAX_SIZE};
use formula_tree::{Function, Value, ValueRef};
use grid_address::{Cell, Span};
use value_functions::{answer, counted, divided, stop};

/// How many rows a sheet tells of together whether they are used.
const BAND: u16 = 256;

/// So many cells, and eight for each number, are looked at in a band. Past that a range is gone over by the cells that
/// aren't blank, which are few.
const MOST_BLANK: usize = 1_024;

/// So few rows are added where the total stands.
const FEW: u16 = 4;

/// What a list of items comes to.
#[derive(Clone, Copy)]
pub struct Total {
    count: usize,
    sum: i128,
    least: Option<Fixed>,
    greatest: Option<Fixed>,
    has_err: bool,
    has_na: bool,
}

/// The total of no item.
pub fn nothing() -> Total
    ensures { IsTotal result [] }
{
    Total {
        count: 0,
        sum: 0,
        least: None,
        greatest: None,
        has_err: false,
        has_na: false,
    }
}

// What is added of an item: its number, and whether it is ERR or NA.
#[derive(Clone, Copy)]
struct Addend {
    size: Fixed,
    is_err: bool,
    is_na: bool,
}

// An item as it is added.
fn as_addend(item: Item) -> Addend
    ensures size { result.size ≡ size_of item }
    ensures err { result.is_err ≡ is_err item }
    ensures na { result.is_na ≡ is_na item }
{
    match item {
        Item::Is(size) => Addend {
            size,
            is_err: false,
            is_na: false,
        },
        Item::Err => Addend {
            size: Fixed::ZERO,
            is_err: true,
            is_na: false,
        },
        Item::Na => Addend {
            size: Fixed::ZERO,
            is_err: false,
            is_na: true,
        },
    }
}

// Whether one of two is so.
fn either(one: bool, other: bool) -> bool
    ensures { result ≡ (one || other) }
{
    one || other
}

/// Adds an item; false where the count or the sum has no room, which a sheet can't come to.
pub fn add_item(total: &mut Total, item: Item) -> bool
    ensures { result ≡ true → (l : List Item) → IsTotal total.old l → IsTotal total.new (l ++ item ∷ []) }
{
    let addend = as_addend(item);
    let size = addend.size;
    let Some(count) = total.count.checked_add(1) else {
        return false;
    };
    let Some(sum) = total.sum.checked_add(i128::from(size.millionths())) else {
        return false;
    };
    let least = smaller(total.least, Item::Is(size));
    let greatest = larger(total.greatest, Item::Is(size));
    let has_err = either(total.has_err, addend.is_err);
    let has_na = either(total.has_na, addend.is_na);
    total.count = count;
    total.sum = sum;
    total.least = least;
    total.greatest = greatest;
    total.has_err = has_err;
    total.has_na = has_na;
    true
}

// Adds a cell; false where it is ERR or NA, or where there is no room.
fn add_value(total: &mut Total, value: &ValueRef<'_>) -> bool
    ensures { result ≡ true → (l : List Item) → IsTotal total.old l →
        IsTotal total.new (l ++ in_range (seen_value value.now)) }
{
    match value {
        ValueRef::Blank => true,
        ValueRef::Num(number) => add_item(total, Item::Is(*number)),
        ValueRef::Str(_) => add_item(total, Item::Is(Fixed::ZERO)),
        ValueRef::Err | ValueRef::Na => false,
    }
}

// Adds a cell that is no number; false where it is ERR or NA, or where there is no room.
#[inline(never)]
fn add_other<K: Look>(total: &mut Total, cell: Cell, look: &K) -> bool
    ensures { let value = (K.sight look.now).values cell in
        result ≡ true → (l : List Item) → IsTotal total.old l → IsTotal total.new (l ++ in_range value) }
{
    add_value(total, &look.value(cell))
}

// Adds a cell, which mostly is a number; false where it is ERR or NA, or where there is no room.
#[inline(always)]
fn add_cell<K: Look>(total: &mut Total, cell: Cell, look: &K) -> bool
    ensures { let value = (K.sight look.now).values cell in
        result ≡ true → (l : List Item) → IsTotal total.old l → IsTotal total.new (l ++ in_range value) }
{
    match look.number(cell) {
        Some(number) => add_item(total, Item::Is(number)),
        None => add_other(total, cell, look),
    }
}

// Adds the cells of a row of a range.
#[inline(always)]
fn add_row<K: Look>(total: &mut Total, span: Span, row: u16, look: &K) -> bool
    requires { row < height_of span }
    ensures { let cells = row_cells (span.first.row + row) span.first.col (width_of span) in
        result ≡ true → (l : List Item) → IsTotal total.old l →
        IsTotal total.new (l ++ items_in (K.sight look.now).values cells) }
{
    for col in 0..span.width() {
        if !add_cell(total, cell_at(span, row, col), look) {
            return false;
        }
    }
    true
}

// Whether so many rows of a band hold far fewer numbers than cells.
#[inline(always)]
fn is_sparse(rows: u16, width: u16, count: usize) -> bool {
    let cells = usize::from(rows) * usize::from(width);
    cells.saturating_sub(MOST_BLANK) / 8 > count
}

// A total on the way, with a sum of its own for the numbers that came last: so few have one of 64 bits.
#[derive(Clone, Copy)]
struct Held {
    total: Total,
    apart: i64,
}

// Adds a number; false where there is no room.
#[inline(always)]
fn add_number(held: &mut Held, number: Fixed) -> bool
    ensures { result ≡ true → (l : List Item) → IsHeld held.old l → IsHeld held.new (l ++ item.Is number ∷ []) }
{
    let Some(count) = held.total.count.checked_add(1) else {
        return false;
    };
    let Some(sum) = held.apart.checked_add(number.millionths()) else {
        return false;
    };
    let least = smaller(held.total.least, Item::Is(number));
    let greatest = larger(held.total.greatest, Item::Is(number));
    held.total.count = count;
    held.total.least = least;
    held.total.greatest = greatest;
    held.apart = sum;
    true
}

// Whether a cell that is no number is a label, which counts as 0, or else blank; none where it is ERR or NA.
#[inline(never)]
fn is_label<K: Look>(cell: Cell, look: &K) -> Option<bool>
    ensures { let value = (K.sight look.now).values cell in
        IfSome result (λ b. in_range value ≡ if b then item.Is (pos 0) ∷ [] else []) }
{
    match look.value(cell) {
        ValueRef::Blank => Some(false),
        ValueRef::Str(_) => Some(true),
        ValueRef::Num(_) | ValueRef::Err | ValueRef::Na => None,
    }
}

// Adds a cell to what is held; false where it is ERR or NA, or where there is no room.
#[inline(always)]
fn hold_cell<K: Look>(held: &mut Held, cell: Cell, look: &K) -> bool
    ensures { let value = (K.sight look.now).values cell in
        result ≡ true → (l : List Item) → IsHeld held.old l → IsHeld held.new (l ++ in_range value) }
{
    match look.number(cell) {
        Some(number) => add_number(held, number),
        None => match is_label(cell, look) {
            Some(true) => add_number(held, Fixed::ZERO),
            Some(false) => true,
            None => false,
        },
    }
}

// Gives back what is held, both sums in one; false where there is no room.
#[inline(always)]
fn give_back(total: &mut Total, held: Held) -> bool
    ensures { result ≡ true → (l : List Item) → IsHeld held l → IsTotal total.new l }
{
    let Some(sum) = held.total.sum.checked_add(i128::from(held.apart)) else {
        return false;
    };
    *total = held.total;
    total.sum = sum;
    true
}

// Adds the cells of a narrow range from a row on up to another, however few of them are filled. What is changed by each
// of them is held here, out of the way of all else.
#[inline(never)]
fn add_narrow<K: Look>(total: &mut Total, span: Span, from: u16, to: u16, look: &K) -> bool
    requires rows { from ≤ to }
    requires inside { to ≤ height_of span }
    ensures { let so_far = so_far (K.sight look.now).values span in
        result ≡ true → IsTotal total.old (so_far from) → IsTotal total.new (so_far to) }
{
    let width = span.width();
    let mut held = Held {
        total: *total,
        apart: 0,
    };
    let mut row = from;
    let mut col = 0;
    while row < to {
        if !hold_cell(&mut held, cell_at(span, row, col), look) {
            return false;
        }
        col += 1;
        if col == width {
            col = 0;
            row += 1;
        }
    }
    give_back(total, held)
}

// Adds the cells of a range from a row on up to another; false also where few of them are filled. A narrow range's
// cells of a band may all be blank.
fn add_rows<K: Look>(total: &mut Total, span: Span, from: u16, to: u16, look: &K) -> bool
    requires rows { from ≤ to }
    requires inside { to ≤ height_of span }
    ensures { let so_far = so_far (K.sight look.now).values span in
        result ≡ true → IsTotal total.old (so_far from) → IsTotal total.new (so_far to) }
{
    let is_narrow = usize::from(span.width()) <= MOST_BLANK / usize::from(BAND);
    if is_narrow && to - from > FEW {
        return add_narrow(total, span, from, to, look);
    }
    for row in from..to {
        if !is_narrow && is_sparse(row - from, span.width(), total.count)
            || !add_row(total, span, row, look)
        {
            return false;
        }
    }
    true
}

/// The row behind the last of the band in which a row lies, or behind the last of the range.
pub fn band_end(span: Span, row: u16) -> u16
    requires { row < height_of span }
    ensures behind { row < result }
    ensures inside { result ≤ height_of span }
{
    let rest = BAND - (span.first.row + row) % BAND;
    if rest < span.height() - row {
        row + rest
    } else {
        span.height()
    }
}

/// Some rows of a range, of which there is one at least.
pub fn rows_of(span: Span, from: u16, to: u16) -> Span
    requires rows { from < to }
    requires inside { to ≤ height_of span }
    ensures first { result.first ≡ record { row = span.first.row + from; col = span.first.col } }
    ensures last { result.last ≡ record { row = span.first.row + (to - 1); col = span.last.col } }
{
    let first = Cell {
        row: span.first.row + from,
        col: span.first.col,
    };
    let last = Cell {
        row: span.first.row + (to - 1),
        col: span.last.col,
    };
    Span { first, last }
}

/// Adds the cells of a range from a row on, unused bands being passed over; false where one is ERR or NA, where there
/// is no room, or where few of many are filled.
pub fn add_rest<K: Look>(total: &mut Total, span: Span, from: u16, look: &K) -> bool
    requires { from ≤ height_of span }
    ensures { let so_far = so_far (K.sight look.now).values span in
        result ≡ true → IsTotal total.old (so_far from) → IsTotal total.new (so_far (height_of span)) }
{
    let height = span.height();
    let mut row = from;
    while row < height {
        let end = band_end(span, row);
        if !look.is_unused(rows_of(span, row, end)) && !add_rows(total, span, row, end, look) {
            return false;
        }
        row = end;
    }
    true
}

// A sum in 64 bits.
fn narrow(total: i128) -> i64
    requires { nat_abs total ≤ 999999999999999 }
    ensures { result ≡ total }
{
    total as i64
}

// The number of so many millionths, and none past the size.
fn number_of(total: i128) -> Option<Fixed>
    ensures { result ≡ within total }
{
    if total.unsigned_abs() <= u128::from(MAX_SIZE) {
        Fixed::of(narrow(total))
    } else {
        None
    }
}

// SUM, AVG, COUNT, MIN and MAX of numbers by their total; AVG is SUM divided by COUNT.
fn row_by(function: Function, total: &Total) -> Value
    ensures { result ≡ row_by function total.now }
{
    match function {
        Function::Sum => answer(number_of(total.sum)),
        Function::Avg => divided(&answer(number_of(total.sum)), &counted(total.count)),
        Function::Count => counted(total.count),
        Function::Min => answer(total.least),
        _ => answer(total.greatest),
    }
}

// A function of a list, by what its total tells.
fn value_by(function: Function, total: &Total) -> Value
    ensures { result ≡ value_by function total.now }
{
    match stop(total.has_err, total.has_na) {
        Some(stopped) => stopped,
        None => row_by(function, total),
    }
}

/// A function of a list, by its total.
pub fn value_for(function: Function, total: &Total) -> Value
    ensures { (l : List Item) → IsTotal total.now l → result ≡ list_value function l }
{
    value_by(function, total)
}

/// A function of a list, by its total; none where that is no number.
pub fn number_for(function: Function, total: &Total) -> Option<Fixed>
    ensures { IfSome result (λ n. (l : List Item) → IsTotal total.now l → list_value function l ≡ value.Num n) }
{
    match value_for(function, total) {
        Value::Num(number) => Some(number),
        Value::Blank | Value::Str(_) | Value::Err | Value::Na => None,
    }
}
