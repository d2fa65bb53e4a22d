// The rows of a span in the order of their keys.
ghost use Rattle.std.specs.Prelude.{◌≡◌, OnOk, IfOk, IfErr, map};
ghost use Rattle.std.specs.List.Sorted.{IsPermutation, IsSortedBy, IsStableBy};
ghost use Rattle.std.specs.Ordering.{is_lt, ordering_reverse};
ghost use Rattle.grid_address.specs.Place.{Place};
ghost use Rattle.formula_parts.specs.Outlook.{Sight};
ghost use Rattle.block_writes.specs.Writing.{down, rows_of};
ghost use Rattle.data_blocks.specs.Sorting.{order_by_key, order_of_rows, rows_sorted, turned, IsSort};

use crate::rows::row_cell;
use crate::{BlockFault, SortKey, order_of_values};
use block_writes::rows_copied;
use formula_parts::Look;
use grid_address::{Cell, Span};
use lics_text::Memory;
use sheet_store::Writes;
use std::alloc::Global;
use std::cmp::Ordering;

// An order, turned where the key descends.
fn turned(descending: bool, order: Ordering) -> Ordering
    ensures { result ≡ turned descending order }
{
    if descending { order.reverse() } else { order }
}

// Two rows, given by a cell of each, by a key.
fn order_by_key<K: Look>(look: &K, key: SortKey, a: Cell, b: Cell) -> Ordering
    ensures { result ≡ order_by_key (K.sight look.now).values key a.row b.row }
{
    let a = look.value(Cell {
        row: a.row,
        col: key.col,
    });
    let b = look.value(Cell {
        row: b.row,
        col: key.col,
    });
    turned(key.descending, order_of_values(&a, &b))
}

// Two rows by several keys, of which the first counts most.
fn order_of_rows<K: Look>(look: &K, keys: &[SortKey], a: Cell, b: Cell) -> Ordering
    ensures { result ≡ order_of_rows (K.sight look.now).values keys.now a.row b.row }
{
    for key in keys {
        match order_by_key(look, *key, a, b) {
            Ordering::Less => return Ordering::Less,
            Ordering::Equal => {}
            Ordering::Greater => return Ordering::Greater,
        }
    }
    Ordering::Equal
}

// Puts rows, given by a cell of each, in order. Rows that tie stay as they stood.
fn sort_cells<K: Look>(cells: &mut Vec<Cell>, look: &K, keys: &[SortKey]) -> Result<(), Memory>
    ensures same { IsPermutation cells.old.items cells.new.items }
    ensures ordered { let order = order_of_rows (K.sight look.now).values keys.now in
        OnOk result (IsSortedBy (λ (p : Place) (q : Place). is_lt (order p.row q.row)) cells.new.items) }
    ensures stable { let order = order_of_rows (K.sight look.now).values keys.now in
        IsStableBy (λ (p : Place) (q : Place). is_lt (order p.row q.row)) cells.old.items cells.new.items }
{
    cells.sort_by(|a, b| order_of_rows(look, keys, *a, *b))?;
    Ok(())
}

// The first cells of the rows of a span, in order.
fn row_cells(alloc: Global, span: Span) -> Result<Vec<Cell>, Memory>
    ensures { IfOk result (λ v. v.items ≡ down span.first.col (rows_of span)) }
{
    let mut cells = Vec::new(alloc);
    let height = span.height();
    for row in 0..height {
        cells.push(row_cell(span, row))?;
    }
    Ok(cells)
}

// The first cells of the rows of a span, in the order of their keys.
fn sorted_cells<K: Look>(
    alloc: Global,
    span: Span,
    keys: &[SortKey],
    look: &K,
) -> Result<Vec<Cell>, Memory>
    ensures same { IfOk result (λ v. IsPermutation (down span.first.col (rows_of span)) v.items) }
    ensures ordered { let order = order_of_rows (K.sight look.now).values keys.now in
        IfOk result (λ v. IsSortedBy (λ (p : Place) (q : Place). is_lt (order p.row q.row)) v.items) }
    ensures stable { let order = order_of_rows (K.sight look.now).values keys.now in
        let first = down span.first.col (rows_of span) in
        IfOk result (λ v. IsStableBy (λ (p : Place) (q : Place). is_lt (order p.row q.row)) first v.items) }
{
    let mut cells = row_cells(alloc, span)?;
    sort_cells(&mut cells, look, keys)?;
    Ok(cells)
}

// The rows of a span, as copies in the order of their keys.
fn rows_sorted<K: Look>(
    alloc: Global,
    span: Span,
    keys: &[SortKey],
    look: &K,
) -> Result<Writes, Memory>
    ensures { IfOk result (λ w. IsSort (K.sight look.now) span keys.now w) }
{
    let cells = sorted_cells(alloc, span, keys, look)?;
    let writes = rows_copied(alloc, look, span, cells.as_slice())?;
    Ok(writes)
}

/// The rows of a span as copies in the order of their keys, of which the first counts most. Each cell of the span is
/// written, also where its row keeps its place. Rows that tie stay as they stood, under a descending key too. Want of
/// memory is the only fault. (Release 2 manual; the order of values is this project's own choice.)
pub fn sort_rows<K: Look>(
    alloc: Global,
    span: Span,
    keys: &[SortKey],
    look: &K,
) -> Result<Writes, BlockFault>
    ensures sorted { IfOk result (λ w. IsSort (K.sight look.now) span keys.now w) }
    ensures rows { IfOk result (λ w. w ≡ rows_sorted (K.sight look.now) span keys.now) }
    ensures fault { IfErr result (λ f. f ≡ BlockFault.Memory) }
{
    match rows_sorted(alloc, span, keys, look) {
        Ok(writes) => Ok(writes),
        Err(Memory) => Err(BlockFault::Memory),
    }
}
