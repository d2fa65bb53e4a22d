// What a word does to the sheet.
ghost use Rattle.std.specs.Prelude.{◌≡◌, IfOk, None, OnOk};
ghost use Rattle.formula_eval.specs.Mean.{mean};
ghost use Rattle.macro_engine.specs.RowSpans.{ChangesRows};
ghost use Rattle.macro_words.specs.declared.running.Change.TheVariants as change;
ghost use Rattle.work_sheet.specs.Did.{Did};
ghost use Rattle.work_sheet.specs.Doing.{settled};
ghost use Rattle.work_sheet.specs.Seen.{of_worksheet};
ghost use Rattle.macro_engine.specs.inner.Carried.{HasCarried, HasSettled, WasRefused};

use crate::row_span::{RowSpan, rows_behind};
use crate::sweeping::sweep_span;
use formula_eval::Tally;
use formula_parts::Scene;
use grid_address::{Cell, Span};
use lics_text::Memory;
use macro_words::Change;
use sheet_store::{SheetFault, Writes};
use work_sheet::Worksheet;

// In Automatic mode all is recalculated.
fn settle(sheet: &mut Worksheet, scene: &Scene, tally: &mut Tally) -> Result<(), Memory>
    ensures { let done = settled mean scene.entry.now (of_worksheet sheet.old) in
        OnOk result (Did done sheet.old sheet.new tally.old.count tally.new.count) }
{
    if sheet.settings().automatic {
        sheet.calc(scene, tally)?;
    }
    Ok(())
}

// An edit that was refused met a protected cell, where there was memory.
fn refused(fault: SheetFault) -> Result<Option<Cell>, Memory>
    ensures { IfOk result (λ cell. WasRefused fault cell) }
{
    match fault {
        SheetFault::Protected(cell) => Ok(Some(cell)),
        SheetFault::PushedOff(_) => Err(Memory),
        SheetFault::OutOfSheet(_) => Err(Memory),
        SheetFault::Memory => Err(Memory),
    }
}

// What comes of an edit, by its answer: where it was made, a recalculation follows in Automatic mode.
fn settled(
    answer: Result<(), SheetFault>,
    sheet: &mut Worksheet,
    scene: &Scene,
    tally: &mut Tally,
) -> Result<Option<Cell>, Memory>
    ensures { IfOk result
        (λ cell. HasSettled answer scene.entry.now cell sheet.old sheet.new tally.old.count tally.new.count) }
{
    match answer {
        Ok(()) => {
            settle(sheet, scene, tally)?;
            Ok(None)
        }
        Err(fault) => refused(fault),
    }
}

// Contents are written. The rows become those that are changed, where they are told.
#[inline(always)]
fn write(
    writes: &Writes,
    sheet: &mut Worksheet,
    scene: &Scene,
    tally: &mut Tally,
    rows: &mut Option<RowSpan>,
) -> Result<Option<Cell>, Memory>
    ensures carried { IfOk result (λ cell. HasCarried (change.Write writes.now) scene.entry.now cell
        sheet.old sheet.new tally.old.count tally.new.count) }
    ensures rows { IfOk result (λ cell. ChangesRows rows.new (of_worksheet sheet.old) (of_worksheet sheet.new)) }
{
    let answer = sheet.write(writes);
    *rows = rows_behind(writes, sheet);
    settled(answer, sheet, scene, tally)
}

// A span is erased.
fn erase(
    span: Span,
    sheet: &mut Worksheet,
    scene: &Scene,
    tally: &mut Tally,
) -> Result<Option<Cell>, Memory>
    ensures { IfOk result (λ cell. HasCarried (change.Erase span) scene.entry.now cell
        sheet.old sheet.new tally.old.count tally.new.count) }
{
    let answer = sheet.erase(span);
    settled(answer, sheet, scene, tally)
}

/// Changes the sheet as a word asks; in Automatic mode a recalculation follows a change of contents. Where cells that
/// are to be written are protected, nothing is changed, and the first of them in row order is the answer. The rows,
/// none before, become those that are changed, where they are told.
#[inline(always)]
pub fn carry_out(
    change: &Change,
    sheet: &mut Worksheet,
    scene: &Scene,
    tally: &mut Tally,
    rows: &mut Option<RowSpan>,
) -> Result<Option<Cell>, Memory>
    requires { rows.old ≡ None }
    ensures carried { IfOk result (λ cell. HasCarried change.now scene.entry.now cell
        sheet.old sheet.new tally.old.count tally.new.count) }
    ensures rows { IfOk result (λ cell. ChangesRows rows.new (of_worksheet sheet.old) (of_worksheet sheet.new)) }
{
    match change {
        Change::Nothing => Ok(None),
        Change::Write(writes) => write(writes, sheet, scene, tally, rows),
        Change::Erase(span) => erase(*span, sheet, scene, tally),
        Change::Recalculate(sweep) => {
            sweep_span(sweep, sheet, scene, tally)?;
            Ok(None)
        }
    }
}
