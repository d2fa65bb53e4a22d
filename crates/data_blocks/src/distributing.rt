// How many values lie in each bin.
ghost use Rattle.std.specs.Prelude.{◌≡◌, ◌⊎◌, ◌+◌, ◌<◌, ◌≤◌, ◌++◌, ◌∷◌, [], ℤ, Option, Ok, Err, IfOk, IfErr, OnOk, not, false};
ghost use Rattle.std.specs.Int.RustNames.{int_lt};
ghost use Rattle.std.specs.List.{count_by};
ghost use Rattle.std.specs.List.Sorted.{IsPermutation, IsSorted};
ghost use Rattle.std.specs.Ordering.{int_cmp};
ghost use Rattle.grid_address.specs.Place.{height_of};
ghost use Rattle.formula_tree.specs.Seen.{seen_value};
ghost use Rattle.value_functions.specs.Values.{counted};
ghost use Rattle.formula_parts.specs.Outlook.{filled, Sight};
ghost use Rattle.block_writes.specs.Writing.{as_content, at, written};
ghost use Rattle.data_blocks.specs.Distribution.{bin_of, distributed, distribution, has_no_room, is_above, is_in_bin, number_of, numbers_in};

use crate::BlockFault;
use crate::rows::row_cell;
use block_writes::{content_of_value, written};
use fixed_value::Fixed;
use formula_parts::Look;
use formula_tree::ValueRef;
use grid_address::{Cell, LAST_COLUMN, LAST_ROW, Span};
use lics_text::Memory;
use sheet_store::{SheetFault, Write, Writes};
use std::alloc::Global;
use value_functions::counted;

// A value that is a number counts.
fn put_number(numbers: &mut Vec<i64>, value: &ValueRef<'_>) -> Result<(), Memory>
    ensures { OnOk result (numbers.new.items ≡ numbers.old.items ++ number_of (seen_value value.now)) }
{
    match value {
        ValueRef::Num(number) => numbers.push(number.millionths())?,
        ValueRef::Blank | ValueRef::Str(_) | ValueRef::Err | ValueRef::Na => {}
    }
    Ok(())
}

// The numbers among the values of a span, in millionths.
fn numbers_in<K: Look>(alloc: Global, span: Span, look: &K) -> Result<Vec<i64>, Memory>
    ensures { let values = (K.sight look.now).values in
        IfOk result (λ v. v.items ≡ numbers_in values (filled values span)) }
{
    let cells = look.filled(span)?;
    let mut numbers = Vec::new(alloc);
    for place in 0..cells.len() {
        if let Some(cell) = cells.get(place) {
            put_number(&mut numbers, &look.value(*cell))?;
        }
    }
    Ok(numbers)
}

// A bin that is no number counts as 0.
fn bin_of(value: &ValueRef<'_>) -> Fixed
    ensures { result ≡ bin_of (seen_value value.now) }
{
    match value {
        ValueRef::Num(number) => *number,
        ValueRef::Blank | ValueRef::Str(_) | ValueRef::Err | ValueRef::Na => Fixed::ZERO,
    }
}

// The same numbers, ascending.
fn ascending<K: Look>(alloc: Global, span: Span, look: &K) -> Result<Vec<i64>, Memory>
    ensures same { let values = (K.sight look.now).values in
        IfOk result (λ v. IsPermutation (numbers_in values (filled values span)) v.items) }
    ensures ascends { IfOk result (λ v. IsSorted int_cmp v.items) }
{
    let mut numbers = numbers_in(alloc, span, look)?;
    numbers.sort_unstable();
    Ok(numbers)
}

// How many of ascending numbers are at most a bin.
fn up_to(numbers: &[i64], bin: Fixed) -> usize
    requires { IsSorted int_cmp numbers.now }
    ensures { result ≡ count_by (λ x. not (int_lt bin x)) numbers.now }
{
    let most = bin.millionths();
    numbers.partition_point(|number| !(most < *number))
}

// How many of ascending numbers are at most the bin before, if there is one.
fn up_to_before(numbers: &[i64], before: Option<Fixed>) -> usize
    requires { IsSorted int_cmp numbers.now }
    ensures { result ≡ count_by (λ x. not (is_above before x)) numbers.now }
{
    match before {
        Some(before) => up_to(numbers, before),
        None => 0,
    }
}

// How many of ascending numbers are at most a bin and above the bin before. Where the bins don't ascend there is none.
fn share(numbers: &[i64], before: Option<Fixed>, bin: Fixed) -> usize
    requires { IsSorted int_cmp numbers.now }
    ensures { result ≡ count_by (is_in_bin before bin) numbers.now }
{
    up_to(numbers, bin).saturating_sub(up_to_before(numbers, before))
}

// How many of ascending numbers are above the last bin.
fn share_above(numbers: &[i64], before: Option<Fixed>) -> usize
    requires { IsSorted int_cmp numbers.now }
    ensures { result ≡ count_by (is_above before) numbers.now }
{
    numbers.len().saturating_sub(up_to_before(numbers, before))
}

// A count for a cell that keeps its format.
fn count_written(alloc: Global, cell: Cell, count: usize) -> Result<Write, Memory>
    ensures { IfOk result (λ w. w ≡ written cell (as_content (counted count))) }
{
    let content = content_of_value(alloc, &counted(count))?;
    Ok(written(cell, content))
}

// Whether the last column or the last row leaves no room for the counts.
fn has_no_room(bins: Span) -> bool
    ensures { result ≡ has_no_room bins }
{
    bins.first.col == LAST_COLUMN || bins.last.row == LAST_ROW
}

// The cell beside a bin or one row further, its row counted from the first.
fn count_cell(bins: Span, row: u16) -> Cell
    requires row { row ≤ height_of bins }
    requires room { has_no_room bins ≡ false }
    ensures { result ≡ at (bins.first.row + row) (bins.first.col + 1) }
{
    Cell {
        row: bins.first.row + row,
        col: bins.first.col + 1,
    }
}

// The counts beside bins, where there is room for them.
fn distributed<K: Look>(alloc: Global, values: Span, bins: Span, look: &K) -> Result<Writes, Memory>
    requires { has_no_room bins ≡ false }
    ensures { IfOk result (λ w. w ≡ distributed (K.sight look.now) values bins) }
{
    let numbers = ascending(alloc, values, look)?;
    let numbers = numbers.as_slice();
    let mut writes = Writes::new(alloc);
    let mut before = None;
    let height = bins.height();
    for row in 0..height {
        let bin = bin_of(&look.value(row_cell(bins, row)));
        let count = share(numbers, before, bin);
        writes.push(count_written(alloc, count_cell(bins, row), count)?)?;
        before = Some(bin);
    }
    let count = share_above(numbers, before);
    writes.push(count_written(alloc, count_cell(bins, height), count)?)?;
    Ok(writes)
}

/// How many of the values are at most each bin and above the bin before, one column to the right of the bins, and one
/// row further how many are above the last. The bins are the first column of `bins`, and one that is no number counts
/// as 0. `Sheet(OutOfSheet(bins))` comes exactly where a count would leave the sheet. (Release 2 manual; that bins
/// which don't ascend are taken literally is this project's own choice.)
pub fn distribution<K: Look>(
    alloc: Global,
    values: Span,
    bins: Span,
    look: &K,
) -> Result<Writes, BlockFault>
    ensures found { IfOk result (λ w. distribution (K.sight look.now) values bins ≡ Ok w) }
    ensures fault { let answer = distribution (K.sight look.now) values bins in
        IfErr result (λ f. (f ≡ BlockFault.Memory) ⊎ (answer ≡ Err f)) }
{
    if has_no_room(bins) {
        return Err(BlockFault::Sheet(SheetFault::OutOfSheet(bins)));
    }
    match distributed(alloc, values, bins, look) {
        Ok(writes) => Ok(writes),
        Err(Memory) => Err(BlockFault::Memory),
    }
}
