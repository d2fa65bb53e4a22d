// For each cell the formulas that read it by itself, and not in a wider span.
ghost use Rattle.std.specs.Prelude.{◌≡◌, ◌≤◌, length, true, OnOk};
ghost use Rattle.std.specs.FinMap as map;
ghost use Rattle.cell_maps.specs.Sets.{has};
ghost use Rattle.grid_address.specs.Place.{place_cmp, same_place, Place};
ghost use Rattle.depend_graph.specs.inner.Banks.{is_one};
ghost use Rattle.depend_graph.specs.inner.Lists.{cells_in, list_at, AreKept, IsListed};

use cell_maps::CellMap;
use grid_address::{Cell, Span};
use lics_text::Memory;
use std::alloc::Global;

/// The formulas that read a cell, among others that once did: what was put in stays there. The first that came takes no
/// memory of its own, and the others stand in row order.
#[derive(Drop)]
pub struct Readers {
    pub first: Cell,
    pub more: Vec<Cell>,
}

/// The readers of each cell.
pub type Lists = CellMap<Readers>;

/// Whether a span is one cell.
pub fn is_one(span: Span) -> bool
    ensures { result ≡ is_one span }
{
    span.first == span.last
}

// Whether a cell comes before another in row order.
fn comes_before(a: Cell, b: Cell) -> bool {
    a.row < b.row || a.row == b.row && a.col < b.col
}

// Where a cell stands in a list in row order, or is to be put.
fn place_for(list: &[Cell], cell: Cell) -> usize
    ensures { result ≤ length list.now }
{
    let mut first = 0;
    let mut behind = list.len();
    'halves: while first < behind {
        let middle = first + (behind - first) / 2;
        if comes_before(list[middle], cell) {
            first = middle + 1;
        } else {
            behind = middle;
        }
    }
    first
}

// Puts a cell into a list, unless it is there.
fn put(list: &mut Vec<Cell>, cell: Cell) -> Result<(), Memory>
    ensures kept { (d : Place) → has same_place list.old.items d ≡ true → has same_place list.new.items d ≡ true }
    ensures here { OnOk result (has same_place list.new.items cell ≡ true) }
{
    let at = place_for(list.as_slice(), cell);
    if at < list.len() && list[at] == cell {
        return Ok(());
    }
    list.insert(at, cell)?;
    Ok(())
}

// Puts a cell among readers, unless it is there.
fn put_reader(readers: &mut Readers, cell: Cell) -> Result<(), Memory>
    ensures kept { (d : Place) → has same_place (cells_in readers.old) d ≡ true →
        has same_place (cells_in readers.new) d ≡ true }
    ensures here { OnOk result (has same_place (cells_in readers.new) cell ≡ true) }
{
    if readers.first == cell {
        return Ok(());
    }
    put(&mut readers.more, cell)?;
    Ok(())
}

// Puts a formula into the list of a cell.
fn add(lists: &mut Lists, alloc: Global, cell: Cell, formula: Cell) -> Result<(), Memory>
    ensures kept { AreKept lists.old lists.new }
    ensures here { OnOk result (has same_place (list_at lists.new cell) formula ≡ true) }
{
    match lists.get_mut(cell) {
        Some(readers) => put_reader(readers, formula),
        None => {
            let readers = Readers {
                first: formula,
                more: Vec::new(alloc),
            };
            lists.insert(cell, readers)?;
            Ok(())
        }
    }
}

// Puts a formula into the list of the cell that a span is, if it is one.
fn add_span(lists: &mut Lists, alloc: Global, span: Span, formula: Cell) -> Result<(), Memory>
    ensures kept { AreKept lists.old lists.new }
    ensures here { OnOk result (is_one span ≡ true → has same_place (list_at lists.new span.first) formula ≡ true) }
{
    if is_one(span) {
        add(lists, alloc, span.first, formula)?;
    }
    Ok(())
}

/// Puts a formula into the list of each cell that one of the spans is. What stood in lists still does, also where there
/// is no memory.
pub fn add_all(
    lists: &mut Lists,
    alloc: Global,
    spans: &[Span],
    formula: Cell,
) -> Result<(), Memory>
    ensures kept { AreKept lists.old lists.new }
    ensures listed { OnOk result (IsListed lists.new formula spans.now) }
{
    for span in spans {
        add_span(lists, alloc, *span, formula)?;
    }
    Ok(())
}
