// Table 1: one input is tried.
ghost use Rattle.std.specs.Prelude.{◌≡◌, ◌≤◌, ◌++◌, ◌∷◌, [], map, IfOk, IfErr, OnOk, None, true};
ghost use Rattle.block_writes.specs.Writing.{at, rows_below};
ghost use Rattle.data_blocks.specs.Benches.{takes, values_on, HasTaken, HoldsOld, IsFaultOf, IsSameBench, IsTable};
ghost use Rattle.data_blocks.specs.inner.Failing.{HasFailed};
ghost use Rattle.data_blocks.specs.Tables.{answer_written, row_answers, shape_fault, scenarios_one, Trial, Scenario};

use crate::table::OneInput;
use crate::table_cells::{
    cell_across, cell_down, columns_behind, is_no_table, push_answer, rows_below, values_down,
};
use crate::{Bench, BlockFault};
use formula_tree::Value;
use grid_address::{Cell, Span};
use lics_text::Memory;
use sheet_store::Writes;
use std::alloc::Global;

/// Why a span is no table with this input cell: `NoTable` exactly where it has one row or one column, then
/// `InputInTable` exactly where the cell lies in it. (This project's own choice.)
pub fn shape_one(span: Span, input: Cell) -> Option<BlockFault>
    ensures { result ≡ shape_fault span (input ∷ []) }
{
    if is_no_table(span) {
        return Some(BlockFault::NoTable);
    }
    if span.contains(input) {
        return Some(BlockFault::InputInTable(input));
    }
    None
}

// Adds the answers of the formulas in the first row, for the cells of another row below them.
fn push_row<B: Bench>(
    alloc: Global,
    span: Span,
    row: u16,
    bench: &B,
    writes: &mut Writes,
) -> Result<(), Memory>
    requires { row ≤ span.last.row }
    ensures { let values = values_on (B.shows bench.now) in
        OnOk result (writes.new ≡ writes.old ++ map (answer_written values) (row_answers span row)) }
{
    let count = columns_behind(span);
    for place in 0..count {
        let from = cell_across(span, place);
        let to = Cell { row, col: from.col };
        push_answer(alloc, from, to, bench, writes)?;
    }
    Ok(())
}

// Tries an input, and adds the answers of its row.
fn try_row<B: Bench>(
    table: &OneInput,
    row: u16,
    value: &Value,
    bench: &mut B,
    writes: &mut Writes,
) -> Result<(), BlockFault>
    requires row { row ≤ table.now.span.last.row }
    requires input { takes (B.shows bench.old) table.now.input ≡ true }
    ensures taken { let trial : Trial = record { cell = table.now.input; value = value.now } in
        let turn : Scenario = record { trials = trial ∷ []; answers = row_answers table.now.span row } in
        OnOk result (HasTaken B.shows B.tries (turn ∷ []) bench.old writes.old bench.new writes.new) }
    ensures same { IsSameBench (B.shows bench.old) (B.shows bench.new) }
    ensures fault { IfErr result (λ f. HasFailed (B.shows bench.old) (table.now.input ∷ []) f) }
{
    bench.try_input(table.input, value)?;
    push_row(table.alloc, table.span, row, bench, writes)?;
    Ok(())
}

// Tries the input of each row in turn, and adds its answers.
fn try_rows<B: Bench>(
    table: &OneInput,
    values: &[Value],
    bench: &mut B,
    writes: &mut Writes,
) -> Result<(), BlockFault>
    requires input { takes (B.shows bench.old) table.now.input ≡ true }
    requires values { let before = values_on (B.shows bench.old) in
        values.now ≡ map (λ row. before (at row table.now.span.first.col)) (rows_below table.now.span) }
    ensures taken { let scenarios = scenarios_one table.now.span table.now.input (values_on (B.shows bench.old)) in
        OnOk result (HasTaken B.shows B.tries scenarios bench.old writes.old bench.new writes.new) }
    ensures same { IsSameBench (B.shows bench.old) (B.shows bench.new) }
    ensures fault { IfErr result (λ f. HasFailed (B.shows bench.old) (table.now.input ∷ []) f) }
{
    let count = rows_below(table.span);
    for place in 0..count {
        let row = cell_down(table.span, place).row;
        try_row(table, row, &values[usize::from(place)], bench, writes)?;
    }
    Ok(())
}

/// What table 1 writes: the first column below the top row holds the inputs and the top row from the second column the
/// formulas. Each input is tried in the input cell, and each cell of its row then takes the answer of the formula at
/// its top, a text as a label with `'`, ERR as `@ERR` and NA as `@NA`; a blank answer makes the cell blank. Inputs are
/// read before the first is tried. In the end the bench gives the old contents back.
///
/// `NoTable` comes exactly where the span has one row or one column, then `InputInTable` exactly where the input cell
/// lies in it, then `Sheet(Protected)` where the bench holds the input cell protected, and otherwise no fault but
/// `Memory`. After each fault but that the bench's cells hold their old contents. (Release 2 manual; the order of the
/// faults is this project's own choice.)
pub fn table_one<B: Bench>(
    alloc: Global,
    span: Span,
    input: Cell,
    bench: &mut B,
) -> Result<Writes, BlockFault>
    requires input { takes (B.shows bench.old) input ≡ true }
    requires old { HoldsOld (B.shows bench.old) }
    ensures table { let scenarios = scenarios_one span input (values_on (B.shows bench.old)) in
        IfOk result (λ w. IsTable B.shows B.tries B.gives_back scenarios bench.old bench.new w) }
    ensures shape { OnOk result (shape_fault span (input ∷ []) ≡ None) }
    ensures contents { OnOk result ((B.shows bench.new).contents ≡ (B.shows bench.old).contents) }
    ensures fault { IfErr result (λ f. IsFaultOf span (input ∷ []) (B.shows bench.old) (B.shows bench.new) f) }
    ensures same { IsSameBench (B.shows bench.old) (B.shows bench.new) }
{
    if let Some(fault) = shape_one(span, input) {
        return Err(fault);
    }
    let values = values_down(alloc, span, bench)?;
    let mut writes = Writes::new(alloc);
    let table = OneInput { alloc, span, input };
    let tried = try_rows(&table, values.as_slice(), bench, &mut writes);
    bench.give_back()?;
    tried?;
    Ok(writes)
}
