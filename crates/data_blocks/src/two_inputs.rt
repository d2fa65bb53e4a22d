// Table 2: two inputs are tried.
ghost use Rattle.std.specs.Prelude.{◌≡◌, ◌≤◌, ◌∷◌, [], map, IfOk, IfErr, OnOk, None, true};
ghost use Rattle.grid_address.specs.Place.{Place};
ghost use Rattle.block_writes.specs.Writing.{at, rows_below};
ghost use Rattle.data_blocks.specs.Benches.{takes, values_on, HasTaken, HoldsOld, IsFaultOf, IsSameBench, IsTable};
ghost use Rattle.data_blocks.specs.inner.Failing.{HasFailed};
ghost use Rattle.data_blocks.specs.Tables.{columns_behind, row_scenarios, shape_fault, scenarios_two, Answer, Trial, Scenario};

use crate::table::TwoInputs;
use crate::table_cells::{
    cell_across, cell_down, columns_behind, is_no_table, push_answer, rows_below, values_across,
    values_down,
};
use crate::{Bench, BlockFault};
use formula_tree::Value;
use grid_address::{Cell, Span};
use lics_text::Memory;
use sheet_store::Writes;
use std::alloc::Global;

/// Why a span is no table with these input cells: `NoTable` exactly where it has one row or one column, then
/// `InputInTable` with the first of them that lies in it. (This project's own choice.)
pub fn shape_two(span: Span, down: Cell, across: Cell) -> Option<BlockFault>
    ensures { result ≡ shape_fault span (down ∷ across ∷ []) }
{
    if is_no_table(span) {
        return Some(BlockFault::NoTable);
    }
    if span.contains(down) {
        return Some(BlockFault::InputInTable(down));
    }
    if span.contains(across) {
        return Some(BlockFault::InputInTable(across));
    }
    None
}

// Tries an input of each kind, and adds the answer of the corner for a cell.
fn try_cell<B: Bench>(
    table: &TwoInputs,
    to: Cell,
    first: &Value,
    second: &Value,
    bench: &mut B,
    writes: &mut Writes,
) -> Result<(), BlockFault>
    requires down { takes (B.shows bench.old) table.now.down ≡ true }
    requires across { takes (B.shows bench.old) table.now.across ≡ true }
    ensures taken { let one : Trial = record { cell = table.now.down; value = first.now } in
        let two : Trial = record { cell = table.now.across; value = second.now } in
        let answer : Answer = record { from = table.now.span.first; to = to } in
        let turn : Scenario = record { trials = one ∷ two ∷ []; answers = answer ∷ [] } in
        OnOk result (HasTaken B.shows B.tries (turn ∷ []) bench.old writes.old bench.new writes.new) }
    ensures same { IsSameBench (B.shows bench.old) (B.shows bench.new) }
    ensures fault { IfErr result (λ f. HasFailed (B.shows bench.old) (table.now.down ∷ table.now.across ∷ []) f) }
{
    bench.try_input(table.down, first)?;
    bench.try_input(table.across, second)?;
    push_answer(table.alloc, table.span.first, to, bench, writes)?;
    Ok(())
}

// Tries the inputs of the cells of a row in turn, and adds their answers.
fn try_row<B: Bench>(
    table: &TwoInputs,
    row: u16,
    first: &Value,
    seconds: &[Value],
    bench: &mut B,
    writes: &mut Writes,
) -> Result<(), BlockFault>
    ghost values: { Place → Value }
    requires row { row ≤ table.now.span.last.row }
    requires down { takes (B.shows bench.old) table.now.down ≡ true }
    requires across { takes (B.shows bench.old) table.now.across ≡ true }
    requires first { first.now ≡ values (at row table.now.span.first.col) }
    requires seconds { let span = table.now.span in
        seconds.now ≡ map (λ col. values (at span.first.row col)) (columns_behind span) }
    ensures taken { let scenarios = row_scenarios table.now.span table.now.down table.now.across values row in
        OnOk result (HasTaken B.shows B.tries scenarios bench.old writes.old bench.new writes.new) }
    ensures same { IsSameBench (B.shows bench.old) (B.shows bench.new) }
    ensures fault { IfErr result (λ f. HasFailed (B.shows bench.old) (table.now.down ∷ table.now.across ∷ []) f) }
{
    table.span.last.is_on_sheet();
    let count = columns_behind(table.span);
    for place in 0..count {
        let col = cell_across(table.span, place).col;
        let second = &seconds[usize::from(place)];
        try_cell(table, Cell { row, col }, first, second, bench, writes)?;
    }
    Ok(())
}

// Tries the inputs of all cells in turn, row by row, and adds their answers.
fn try_rows<B: Bench>(
    table: &TwoInputs,
    firsts: &[Value],
    seconds: &[Value],
    bench: &mut B,
    writes: &mut Writes,
) -> Result<(), BlockFault>
    ghost values: { Place → Value }
    requires down { takes (B.shows bench.old) table.now.down ≡ true }
    requires across { takes (B.shows bench.old) table.now.across ≡ true }
    requires firsts { let span = table.now.span in
        firsts.now ≡ map (λ row. values (at row span.first.col)) (rows_below span) }
    requires seconds { let span = table.now.span in
        seconds.now ≡ map (λ col. values (at span.first.row col)) (columns_behind span) }
    ensures taken { let scenarios = scenarios_two table.now.span table.now.down table.now.across values in
        OnOk result (HasTaken B.shows B.tries scenarios bench.old writes.old bench.new writes.new) }
    ensures same { IsSameBench (B.shows bench.old) (B.shows bench.new) }
    ensures fault { IfErr result (λ f. HasFailed (B.shows bench.old) (table.now.down ∷ table.now.across ∷ []) f) }
{
    let count = rows_below(table.span);
    for place in 0..count {
        let row = cell_down(table.span, place).row;
        try_row(
            table,
            row,
            &firsts[usize::from(place)],
            seconds,
            bench,
            writes,
        )?;
    }
    Ok(())
}

/// What table 2 writes: the corner holds the formula, the first column the inputs of the first input cell and the top
/// row those of the second. For each cell, row by row, both inputs are tried, and the cell takes the answer of the
/// corner as `table_one` writes it. Inputs are read before the first is tried. In the end the bench gives the old
/// contents back. The faults are those of `table_one`, of which each names the first input cell in the order given.
/// (Release 2 manual; the order of the work and of the faults is this project's own choice.)
pub fn table_two<B: Bench>(
    alloc: Global,
    span: Span,
    down: Cell,
    across: Cell,
    bench: &mut B,
) -> Result<Writes, BlockFault>
    requires down { takes (B.shows bench.old) down ≡ true }
    requires across { takes (B.shows bench.old) across ≡ true }
    requires old { HoldsOld (B.shows bench.old) }
    ensures table { let scenarios = scenarios_two span down across (values_on (B.shows bench.old)) in
        IfOk result (λ w. IsTable B.shows B.tries B.gives_back scenarios bench.old bench.new w) }
    ensures shape { OnOk result (shape_fault span (down ∷ across ∷ []) ≡ None) }
    ensures contents { OnOk result ((B.shows bench.new).contents ≡ (B.shows bench.old).contents) }
    ensures fault { IfErr result (λ f. IsFaultOf span (down ∷ across ∷ []) (B.shows bench.old) (B.shows bench.new) f) }
    ensures same { IsSameBench (B.shows bench.old) (B.shows bench.new) }
{
    if let Some(fault) = shape_two(span, down, across) {
        return Err(fault);
    }
    let firsts = values_down(alloc, span, bench)?;
    let seconds = values_across(alloc, span, bench)?;
    let mut writes = Writes::new(alloc);
    let table = TwoInputs {
        alloc,
        span,
        down,
        across,
    };
    let tried = try_rows(
        &table,
        firsts.as_slice(),
        seconds.as_slice(),
        bench,
        &mut writes,
    );
    bench.give_back()?;
    tried?;
    Ok(writes)
}
