// Functions of lists over arguments and records, added up item by item.
ghost use Rattle.std.specs.Prelude.{◌≡◌, ◌++◌, ◌∷◌, [], IfOk, OnOk, List};
ghost use Rattle.formula_tree.specs.Seen.{seen_value};
ghost use Rattle.formula_parts.specs.declared.items.Item.{Item};
ghost use Rattle.formula_parts.specs.Lists.{in_range, items_by, items_in, items_of, list_value};
ghost use Rattle.formula_parts.specs.Outlook.{cells_of, filled, Sight};
ghost use Rattle.formula_parts.specs.inner.Totals.{IsTotal};

use crate::argument::{Argument, Operand};
use crate::items::{Item, alone, scalar};
use crate::look::Look;
use crate::totals::{Total, add_item, band_end, nothing, rows_of, value_for};
use fixed_value::Fixed;
use formula_tree::{Function, Value, ValueRef};
use grid_address::{Cell, Span};
use lics_text::Memory;

// Adds an item, where there is room for one more.
fn put_item(total: &mut Total, item: Item) -> Result<(), Memory>
    ensures { OnOk result ((l : List Item) → IsTotal total.old l → IsTotal total.new (l ++ item ∷ [])) }
{
    if add_item(total, item) {
        Ok(())
    } else {
        Err(Memory)
    }
}

// Adds a cell of a range: a blank one is passed over, and a label counts as 0.
fn put_value(total: &mut Total, value: &ValueRef<'_>) -> Result<(), Memory>
    ensures { OnOk result ((l : List Item) → IsTotal total.old l →
        IsTotal total.new (l ++ in_range (seen_value value.now))) }
{
    match value {
        ValueRef::Blank => Ok(()),
        ValueRef::Num(number) => put_item(total, Item::Is(*number)),
        ValueRef::Str(_) => put_item(total, Item::Is(Fixed::ZERO)),
        ValueRef::Err => put_item(total, Item::Err),
        ValueRef::Na => put_item(total, Item::Na),
    }
}

// Adds cells of a range.
fn put_cells<K: Look>(total: &mut Total, cells: &[Cell], look: &K) -> Result<(), Memory>
    ensures { OnOk result ((l : List Item) → IsTotal total.old l →
        IsTotal total.new (l ++ items_in (K.sight look.now).values cells.now)) }
{
    for cell in cells {
        put_value(total, &look.value(*cell))?;
    }
    Ok(())
}

// Adds the cells of some rows.
fn put_rows<K: Look>(total: &mut Total, rows: Span, look: &K) -> Result<(), Memory>
    ensures { OnOk result ((l : List Item) → IsTotal total.old l →
        IsTotal total.new (l ++ items_in (K.sight look.now).values (cells_of rows))) }
{
    if look.is_unused(rows) {
        return Ok(());
    }
    let cells = look.filled(rows)?;
    put_cells(total, cells.as_slice(), look)?;
    Ok(())
}

// Adds the cells of a range, band by band, so that the list of those that aren't blank stays short.
fn put_range<K: Look>(total: &mut Total, span: Span, look: &K) -> Result<(), Memory>
    ensures { let values = (K.sight look.now).values in
        OnOk result ((l : List Item) → IsTotal total.old l →
        IsTotal total.new (l ++ items_in values (filled values span))) }
{
    let height = span.height();
    let mut row = 0;
    while row < height {
        let end = band_end(span, row);
        put_rows(total, rows_of(span, row, end), look)?;
        row = end;
    }
    Ok(())
}

// Adds the items of an argument.
fn put_argument<K: Look>(total: &mut Total, argument: &Argument, look: &K) -> Result<(), Memory>
    ensures { let values = (K.sight look.now).values in let a = argument.now in
        OnOk result ((l : List Item) → IsTotal total.old l →
        IsTotal total.new (l ++ items_by values a.operand a.value)) }
{
    match argument.operand {
        Operand::Other => put_item(total, scalar(&argument.value)),
        Operand::Cell(cell) => put_item(total, alone(&look.value(cell))),
        Operand::Span(span) => put_range(total, span, look),
    }
}

// The total of the arguments, the cells of a range in row order.
fn total_of<K: Look>(arguments: &[Argument], look: &K) -> Result<Total, Memory>
    ensures { IfOk result (λ t. IsTotal t (items_of (K.sight look.now).values arguments.now)) }
{
    let mut total = nothing();
    for argument in arguments {
        put_argument(&mut total, argument, look)?;
    }
    Ok(total)
}

/// A list function over its arguments. It takes no more memory for more cells.
pub fn listed<K: Look>(
    function: Function,
    arguments: &[Argument],
    look: &K,
) -> Result<Value, Memory>
    ensures { let items = items_of (K.sight look.now).values arguments.now in
        IfOk result (λ v. v ≡ list_value function items) }
{
    let total = total_of(arguments, look)?;
    Ok(value_for(function, &total))
}

/// The total of items.
pub fn total_in(items: &[Item]) -> Result<Total, Memory>
    ensures { IfOk result (λ t. IsTotal t items.now) }
{
    let mut total = nothing();
    for item in items {
        put_item(&mut total, *item)?;
    }
    Ok(total)
}
