// Recalculation of a span.
ghost use Rattle.std.specs.Prelude.{◌≡◌, length, IfOk, OnOk, true};
ghost use Rattle.std.specs.List.{filter};
ghost use Rattle.grid_address.specs.Place.{same_place, Place};
ghost use Rattle.cell_maps.specs.Sets.{has};
ghost use Rattle.sheet_store.specs.Grid.{formulas_within};
ghost use Rattle.recalculation.specs.Context.{seen_context};
ghost use Rattle.recalculation.specs.Passes.{pass, raised_by, IsSound, SameContents, SameOutside};
ghost use Rattle.recalculation.specs.Spans.{span_order};

use crate::columns::by_columns;
use crate::context::ContextRef;
use crate::evaluate::pass_over;
use crate::reads::add_kept;
use cell_maps::CellSet;
use formula_eval::Means;
use grid_address::{Cell, Span};
use lics_text::Memory;
use sheet_store::Store;

// The dirty formulas of a span, by row and then by column.
fn dirty_within(store: &Store, dirty: &CellSet, span: Span) -> Result<Vec<Cell>, Memory>
    ensures { IfOk result (λ l. l.items ≡ filter (has same_place dirty.now.keys) (formulas_within store.now span)) }
{
    let cells = store.formulas_in(span)?;
    let mut list = Vec::new(store.alloc());
    add_kept(&mut list, dirty, cells.as_slice())?;
    Ok(list)
}

// The dirty formulas of a span, in the order of their evaluation.
fn dirty_ordered(
    store: &Store,
    dirty: &CellSet,
    span: Span,
    is_by_column: bool,
) -> Result<Vec<Cell>, Memory>
    ensures list { IfOk result
        (λ l. l.items ≡ filter (has same_place dirty.now.keys) (span_order is_by_column span store.now)) }
    ensures length { IfOk result
        (λ l. length l.items ≡ length (filter (has same_place dirty.now.keys) (formulas_within store.now span))) }
{
    let cells = dirty_within(store, dirty, span)?;
    if !is_by_column {
        return Ok(cells);
    }
    let list = by_columns(store.alloc(), cells.as_slice())?;
    Ok(list)
}

/// Evaluates the dirty formulas of a span once, and leaves the values that one pass along all its formulas leaves, by
/// row and then by column, or by column and then by row; no other cell changes. The tally rises by the number of these
/// dirty formulas, which stay dirty. Where there is no memory, contents and formats are as before, and what held of the
/// dirty formulas still holds.
pub fn recalc_span<E: Means>(
    store: &mut Store,
    dirty: &CellSet,
    span: Span,
    is_by_column: bool,
    context: &ContextRef<'_>,
    tally: &mut E,
) -> Result<(), Memory>
    requires { IsSound E.meaning (seen_context context.now) store.old (has same_place dirty.now.keys) }
    ensures values { OnOk result (store.new ≡ pass E.meaning (seen_context context.now)
        (span_order is_by_column span store.old) store.old) }
    ensures sound { IsSound E.meaning (seen_context context.now) store.new (has same_place dirty.now.keys) }
    ensures contents { SameContents store.old store.new }
    ensures outside { SameOutside (has same_place (formulas_within store.old span)) store.old store.new }
    ensures count { let within = filter (has same_place dirty.now.keys) (formulas_within store.old span) in
        OnOk result (E.count tally.new ≡ raised_by (length within) (E.count tally.old)) }
{
    let cells = dirty_ordered(store, dirty, span, is_by_column)?;
    pass_over(store, cells.as_slice(), context, tally)?;
    Ok(())
}
