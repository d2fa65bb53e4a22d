// A table is made on a worksheet.
ghost use Rattle.std.specs.Prelude.{◌≡◌, IfOk, OnOk};
ghost use Rattle.command_desk.specs.Acting.{HasActedBy};
ghost use Rattle.commands_data.specs.TableCommands.{changed_cells, made, refusal_by, refused_by, tabled_by};
ghost use Rattle.commands_data.specs.Trying.{table_one, table_two};
ghost use Rattle.work_sheet.specs.Did.{Did};
ghost use Rattle.work_sheet.specs.Seen.{of_worksheet};

use crate::bench::TableBench;
use crate::faults::block_error;
use crate::protection::protected_of_table;
use crate::trying::{contents_of, write_out};
use command_desk::{CommandEnd, LastTable};
use data_blocks::{BlockFault, shape_one, shape_two, table_one, table_two};
use desk_errors::CommandError;
use formula_eval::Tally;
use formula_parts::Scene;
use grid_address::{Cell, Span};
use lics_text::Memory;
use work_sheet::Worksheet;

// Why a table is refused: by its shape, or by a protected cell of those that it writes.
fn refusal(
    shape: Option<BlockFault>,
    sheet: &Worksheet,
    span: Span,
    inputs: &[Cell],
) -> Result<Option<CommandError>, Memory>
    ensures { IfOk result
        (λ told. told ≡ refusal_by shape (changed_cells span inputs.now) (of_worksheet sheet.now)) }
{
    match shape {
        Some(fault) => {
            let error = block_error(fault)?;
            Ok(Some(error))
        }
        None => match protected_of_table(sheet, span, inputs) {
            Some(cell) => Ok(Some(CommandError::Protected(cell))),
            None => Ok(None),
        },
    }
}

// Why a table is refused: there is none, or it is by its shape or a protected cell.
fn refused(table: &LastTable, sheet: &Worksheet) -> Result<Option<CommandError>, Memory>
    ensures { IfOk result (λ told. told ≡ refused_by table.now (of_worksheet sheet.now)) }
{
    match table {
        LastTable::Nothing => Ok(Some(CommandError::InvalidTable)),
        LastTable::One(span, input) => {
            refusal(shape_one(*span, *input), sheet, *span, &[*input])
        }
        LastTable::Two(span, down, across) => {
            let shape = shape_two(*span, *down, *across);
            refusal(shape, sheet, *span, &[*down, *across])
        }
    }
}

// Makes table 1 over a span, which nothing refuses.
fn make_one(
    span: Span,
    input: Cell,
    sheet: &mut Worksheet,
    scene: &Scene,
    tally: &mut Tally,
) -> Result<(), Memory>
    ensures { let done = table_one scene.entry.now span input (of_worksheet sheet.old) in
        OnOk result (Did done sheet.old sheet.new tally.old.count tally.new.count) }
{
    let alloc = sheet.alloc();
    let kept = contents_of(sheet, &[input])?;
    let mut bench = TableBench {
        sheet: &mut *sheet,
        tally: &mut *tally,
        scene: *scene,
        kept: &kept,
    };
    match table_one(alloc, span, input, &mut bench) {
        Ok(writes) => write_out(&writes, sheet, scene, tally),
        Err(_) => Err(Memory),
    }
}

// Makes table 2 over a span, which nothing refuses.
fn make_two(
    span: Span,
    down: Cell,
    across: Cell,
    sheet: &mut Worksheet,
    scene: &Scene,
    tally: &mut Tally,
) -> Result<(), Memory>
    ensures { let done = table_two scene.entry.now span down across (of_worksheet sheet.old) in
        OnOk result (Did done sheet.old sheet.new tally.old.count tally.new.count) }
{
    let alloc = sheet.alloc();
    let kept = contents_of(sheet, &[down, across])?;
    let mut bench = TableBench {
        sheet: &mut *sheet,
        tally: &mut *tally,
        scene: *scene,
        kept: &kept,
    };
    match table_two(alloc, span, down, across, &mut bench) {
        Ok(writes) => write_out(&writes, sheet, scene, tally),
        Err(_) => Err(Memory),
    }
}

// Makes a table that nothing refuses.
fn make_table(
    table: &LastTable,
    sheet: &mut Worksheet,
    scene: &Scene,
    tally: &mut Tally,
) -> Result<(), Memory>
    ensures { let done = tabled_by table.now scene.entry.now (of_worksheet sheet.old) in
        OnOk result (Did done sheet.old sheet.new tally.old.count tally.new.count) }
{
    match table {
        LastTable::Nothing => Ok(()),
        LastTable::One(span, input) => make_one(*span, *input, sheet, scene, tally),
        LastTable::Two(span, down, across) => make_two(*span, *down, *across, sheet, scene, tally),
    }
}

/// Makes a table, or refuses it.
pub fn make(
    table: &LastTable,
    sheet: &mut Worksheet,
    scene: &Scene,
    tally: &mut Tally,
) -> Result<CommandEnd, Memory>
    ensures { IfOk result (λ end. HasActedBy (made table.now scene.entry.now)
        end sheet.old sheet.new tally.old.count tally.new.count) }
{
    if let Some(error) = refused(table, sheet)? {
        return Ok(CommandEnd::Refused(error));
    }
    make_table(table, sheet, scene, tally)?;
    Ok(CommandEnd::Finished)
}
