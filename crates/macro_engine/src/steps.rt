// One step of a macro that runs.
ghost use Rattle.std.specs.Prelude.{◌≡◌, false, true, IfOk, IfSome, None, Some};
ghost use Rattle.macro_engine.specs.Changes.{outlook_in};
ghost use Rattle.macro_engine.specs.Keys as keys;
ghost use Rattle.macro_engine.specs.RowSpans.{ChangesRows};
ghost use Rattle.macro_engine.specs.Steps as spec;
ghost use Rattle.macro_engine.specs.Steps.{HasStepped};
ghost use Rattle.macro_engine.specs.inner.Outcomes.{left_running, rows_in};
ghost use Rattle.macro_engine.specs.declared.steps.StepEnd.TheVariants as end;
ghost use Rattle.macro_text.specs.Texts.{macro_text};
ghost use Rattle.macro_text.specs.Units.{command_of};
ghost use Rattle.macro_text.specs.declared.unit.Unit.TheVariants as units;
ghost use Rattle.macro_words.specs.Moves as moving;
ghost use Rattle.work_sheet.specs.Seen.{of_worksheet};

use crate::changes::carry_out;
use crate::row_span::RowSpan;
use formula_eval::Tally;
use formula_parts::Scene;
use grid_address::Cell;
use key_words::Key;
use lics_text::{Memory, Text};
use macro_text::{KeptWords, MacroFault, Spot, Unit, next_unit};
use macro_words::{
    Change, Deed, FileDeed, Move, Row, Running, Source, Waiting, key_row, return_row, row,
};
use std::mem;
use work_sheet::Worksheet;

/// What a step of a macro comes to.
#[derive(Drop)]
pub enum StepEnd {
    /// A key is typed, as by hand.
    Types(Key),
    /// A word was carried out that changes no cell, the macro went to the cell below, or it ended: the sheet is as it
    /// was.
    Moves,
    /// A word was carried out that changes cells or recalculates them.
    Works,
    /// A word was carried out, and this text is shown in the mode's place, or with an empty one the mode again.
    Indicates(Text),
    /// A word asks for this of a text file, and the sheet is as it was.
    Files(FileDeed),
    /// The macro stopped with a fault of the word in this cell.
    Faulty(MacroFault, Cell),
    /// This cell was to be written and is protected.
    Refused(Cell),
}

impl StepEnd {
    /// Whether the step surely left the sheet as it was.
    pub fn leaves_sheet(&self) -> bool
        ensures { result ≡ spec.leaves_sheet self.now }
    {
        match self {
            StepEnd::Types(_) | StepEnd::Moves | StepEnd::Faulty(_, _) | StepEnd::Refused(_) =>
                true,
            StepEnd::Works | StepEnd::Indicates(_) | StepEnd::Files(_) => false,
        }
    }
}

/// What a step came to, whether the macro goes on, and the rows that it may have changed, where it tells them.
#[derive(Drop)]
pub struct Outcome {
    pub end: StepEnd,
    pub goes_on: bool,
    pub rows: Option<RowSpan>,
}

/// The rows that a step tells, which it may have changed.
pub fn rows_in(outcome: &Result<Outcome, Memory>) -> Option<RowSpan>
    ensures { result ≡ rows_in outcome.now }
{
    match outcome {
        Ok(outcome) => outcome.rows,
        Err(_) => None,
    }
}

// A step came to this, and the macro goes on.
fn going_on(end: StepEnd) -> Outcome
    ensures { result ≡ record { end = end; goes_on = true; rows = None } }
{
    Outcome {
        end,
        goes_on: true,
        rows: None,
    }
}

// A fault of the word in this cell stops the macro.
fn faulty(fault: MacroFault, cell: Cell) -> Outcome
    ensures { result ≡ record { end = end.Faulty fault cell; goes_on = false; rows = None } }
{
    Outcome {
        end: StepEnd::Faulty(fault, cell),
        goes_on: false,
        rows: None,
    }
}

// Moves the macro; the answer tells whether it goes on.
fn moved(running: &mut Running, after: Move) -> Result<bool, Memory>
    ensures { IfOk result (λ goes_on. left_running goes_on (Some running.new) ≡ moving.moved after running.old) }
{
    if running.make(after)? {
        Ok(true)
    } else {
        Ok(false)
    }
}

// What a word comes to that changes this of the sheet.
fn worked(change: &Change) -> StepEnd
    ensures { result ≡ spec.worked change.now }
{
    match change {
        Change::Nothing => StepEnd::Moves,
        Change::Write(_) | Change::Erase(_) | Change::Recalculate(_) => StepEnd::Works,
    }
}

// What a word comes to that was carried out and told these rows, and whether the macro goes on, which it moves.
#[inline(always)]
fn done(
    running: &mut Running,
    change: &Change,
    after: Move,
    rows: Option<RowSpan>,
) -> Result<Outcome, Memory>
    ensures step { IfOk result (λ x. (x.end ≡ spec.ended change.now after)
        × (left_running x.goes_on (Some running.new) ≡ moving.moved after running.old)) }
    ensures rows { IfOk result (λ x. x.rows ≡ rows) }
{
    match after {
        Move::Indicate(text) => Ok(Outcome {
            end: StepEnd::Indicates(text),
            goes_on: true,
            rows,
        }),
        Move::Files(deed) => Ok(Outcome {
            end: StepEnd::Files(deed),
            goes_on: true,
            rows,
        }),
        _ => {
            let goes_on = moved(running, after)?;
            Ok(Outcome {
                end: worked(change),
                goes_on,
                rows,
            })
        }
    }
}

/// A deed of a macro that runs: what it comes to, and whether the macro goes on, which it moves.
pub fn deed_stepped(
    running: &mut Running,
    deed: Deed,
    sheet: &mut Worksheet,
    scene: &Scene,
    tally: &mut Tally,
) -> Result<Outcome, Memory>
    ensures step { let step = spec.deed_step scene.entry.now running.old deed (of_worksheet sheet.old) in
        IfOk result (λ x. HasStepped step x.end (left_running x.goes_on (Some running.new))
        sheet.old sheet.new tally.old.count tally.new.count) }
    ensures rows { IfOk result (λ x. ChangesRows x.rows (of_worksheet sheet.old) (of_worksheet sheet.new)) }
{
    let Deed { change, after } = deed;
    let mut rows = None;
    let refused = carry_out(&change, sheet, scene, tally, &mut rows)?;
    match refused {
        Some(cell) => {
            drop(change);
            drop(after);
            Ok(going_on(StepEnd::Refused(cell)))
        }
        None => {
            let stepped = done(running, &change, after, rows);
            drop(change);
            stepped
        }
    }
}

// The row of the word in a cell.
fn row_stepped(
    running: &mut Running,
    cell: Cell,
    row: Row,
    sheet: &mut Worksheet,
    scene: &Scene,
    tally: &mut Tally,
) -> Result<Outcome, Memory>
    ensures step { let step = spec.row_step scene.entry.now running.old cell row (of_worksheet sheet.old) in
        IfOk result (λ x. HasStepped step x.end (left_running x.goes_on (Some running.new))
        sheet.old sheet.new tally.old.count tally.new.count) }
    ensures rows { IfOk result (λ x. ChangesRows x.rows (of_worksheet sheet.old) (of_worksheet sheet.new)) }
{
    match row {
        Ok(deed) => deed_stepped(running, deed, sheet, scene, tally),
        Err(fault) => Ok(faulty(fault, cell)),
    }
}

// The cell in which a macro is read.
fn cell_of(running: &Running) -> Cell
    ensures { result ≡ spec.cell_of running.now }
{
    running.position.spot.cell
}

// What words read.
fn source<'a>(sheet: &'a Worksheet, scene: &'a Scene) -> Source<'a, Worksheet>
    ensures look { result.look.now ≡ sheet.now }
    ensures scene { result.scene.now ≡ scene.entry.now }
    ensures global { result.global.0 ≡ sheet.now.settings.format }
{
    Source {
        alloc: sheet.alloc(),
        look: sheet,
        scene,
        global: sheet.settings().format,
    }
}

// The command, or the call, whose word stands at a place. The macro stands behind it already.
fn command_stepped(
    running: &mut Running,
    at: &Spot,
    kept: &KeptWords,
    sheet: &mut Worksheet,
    scene: &Scene,
    tally: &mut Tally,
) -> Result<Outcome, Memory>
    requires { let s = of_worksheet sheet.old in
        macro_text (outlook_in scene.now s).sight at.now.cell ≡ Some kept.now }
    ensures step { let s = of_worksheet sheet.old in
        let step = spec.unit_step scene.entry.now running.old (units.Command at.now) s in
        IfOk result (λ x. HasStepped step x.end (left_running x.goes_on (Some running.new))
        sheet.old sheet.new tally.old.count tally.new.count) }
    ensures rows { IfOk result (λ x. ChangesRows x.rows (of_worksheet sheet.old) (of_worksheet sheet.new)) }
{
    let from = source(sheet, scene);
    let row = row(&from, running, kept, at)?;
    row_stepped(running, at.cell, row, sheet, scene, tally)
}

// The return to the caller, or the macro's end.
fn return_stepped(
    running: &mut Running,
    sheet: &mut Worksheet,
    scene: &Scene,
    tally: &mut Tally,
) -> Result<Outcome, Memory>
    ensures step { let step = spec.unit_step scene.entry.now running.old units.Return (of_worksheet sheet.old) in
        IfOk result (λ x. HasStepped step x.end (left_running x.goes_on (Some running.new))
        sheet.old sheet.new tally.old.count tally.new.count) }
    ensures rows { IfOk result (λ x. ChangesRows x.rows (of_worksheet sheet.old) (of_worksheet sheet.new)) }
{
    let cell = cell_of(running);
    let from = source(sheet, scene);
    let row = return_row(&from, running)?;
    row_stepped(running, cell, row, sheet, scene, tally)
}

// A unit of the macro, which stands behind it already.
fn unit_stepped(
    running: &mut Running,
    unit: &Unit,
    kept: &KeptWords,
    sheet: &mut Worksheet,
    scene: &Scene,
    tally: &mut Tally,
) -> Result<Outcome, Memory>
    requires { let sight = (outlook_in scene.now (of_worksheet sheet.old)).sight in
        IfSome (command_of unit.now) (λ at. macro_text sight at.cell ≡ Some kept.now) }
    ensures step { let step = spec.unit_step scene.entry.now running.old unit.now (of_worksheet sheet.old) in
        IfOk result (λ x. HasStepped step x.end (left_running x.goes_on (Some running.new))
        sheet.old sheet.new tally.old.count tally.new.count) }
    ensures rows { IfOk result (λ x. ChangesRows x.rows (of_worksheet sheet.old) (of_worksheet sheet.new)) }
{
    match unit {
        Unit::Key(key) => Ok(going_on(StepEnd::Types(*key))),
        Unit::Command(at) => command_stepped(running, at, kept, sheet, scene, tally),
        Unit::Down => Ok(going_on(StepEnd::Moves)),
        Unit::Return => return_stepped(running, sheet, scene, tally),
        Unit::Fault(fault) => Ok(faulty(*fault, cell_of(running))),
    }
}

/// One step of a macro that runs, which it moves: what it comes to, and whether the macro goes on.
#[tactic(auto, unfolding(crate::specs::Steps::macro_step))]
pub fn stepped(
    running: &mut Running,
    kept: &mut KeptWords,
    sheet: &mut Worksheet,
    scene: &Scene,
    tally: &mut Tally,
) -> Result<Outcome, Memory>
    ensures step { let step = spec.macro_step scene.entry.now (Some running.old) (of_worksheet sheet.old) in
        IfOk result (λ x. HasStepped step x.end (left_running x.goes_on (Some running.new))
        sheet.old sheet.new tally.old.count tally.new.count) }
    ensures rows { IfOk result (λ x. ChangesRows x.rows (of_worksheet sheet.old) (of_worksheet sheet.new)) }
{
    let (unit, position) = next_unit(sheet.alloc(), sheet, scene, kept, &running.position)?;
    running.position = position;
    unit_stepped(running, &unit, kept, sheet, scene, tally)
}

/// A key that a macro takes which waits, which it moves: what it comes to, and whether the macro goes on.
#[tactic(auto, unfolding(crate::specs::Keys::key_step))]
pub fn key_stepped(
    running: &mut Running,
    key: Key,
    sheet: &mut Worksheet,
    scene: &Scene,
    tally: &mut Tally,
) -> Result<Outcome, Memory>
    ensures { let step = keys.key_step scene.entry.now key (Some running.old) (of_worksheet sheet.old) in
        IfOk result (λ x. HasStepped step x.end (left_running x.goes_on (Some running.new))
        sheet.old sheet.new tally.old.count tally.new.count) }
{
    let waiting = mem::replace(&mut running.waiting, Waiting::Nothing);
    let cell = cell_of(running);
    let from = source(sheet, scene);
    let row = key_row(&from, running, waiting, key)?;
    row_stepped(running, cell, row, sheet, scene, tally)
}
