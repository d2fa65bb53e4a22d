// Errors that a macro catches.
ghost use Rattle.std.specs.Prelude.{◌≡◌, IfOk, None, OnOk, Some};
ghost use Rattle.lics_text.specs.Bytes.{IsText};
ghost use Rattle.macro_text.specs.Units.{at_spot, start_of};
ghost use Rattle.macro_engine.specs.Catching as spec;
ghost use Rattle.macro_words.specs.declared.waiting.Waiting.TheVariants as waiting;
ghost use Rattle.macro_engine.specs.Catching.{HasCaught};
ghost use Rattle.work_sheet.specs.Did.{Did};
ghost use Rattle.work_sheet.specs.Seen.{of_worksheet};

use crate::changes::carry_out;
use block_writes::written;
use formula_eval::Tally;
use formula_parts::Scene;
use formula_tree::Content;
use grid_address::Cell;
use lics_text::{LabelPrefix, Memory, Text};
use macro_text::Position;
use macro_words::{Change, Frames, Running, Switches, Waiting, start_of};
use sheet_store::Writes;
use work_sheet::Worksheet;

// The message is put into a cell, unless that is protected.
fn put_message(
    message: &[u8],
    cell: Cell,
    sheet: &mut Worksheet,
    scene: &Scene,
    tally: &mut Tally,
) -> Result<(), Memory>
    requires { IsText message.now }
    ensures { let done = spec.told scene.entry.now message.now (Some cell) (of_worksheet sheet.old) in
        OnOk result (Did done sheet.old sheet.new tally.old.count tally.new.count) }
{
    let alloc = sheet.alloc();
    let text = Text::copy_of(alloc, message)?;
    let mut writes = Writes::new(alloc);
    writes.push(written(cell, Content::Label(LabelPrefix::Left, text)))?;
    let change = Change::Write(writes);
    let mut rows = None;
    let refused = carry_out(&change, sheet, scene, tally, &mut rows)?;
    drop(change);
    let _ = refused;
    Ok(())
}

// The message is put into its cell, where one was given.
fn tell(
    message: &[u8],
    cell: Option<Cell>,
    sheet: &mut Worksheet,
    scene: &Scene,
    tally: &mut Tally,
) -> Result<(), Memory>
    requires { IsText message.now }
    ensures { let done = spec.told scene.entry.now message.now cell (of_worksheet sheet.old) in
        OnOk result (Did done sheet.old sheet.new tally.old.count tally.new.count) }
{
    match cell {
        Some(cell) => put_message(message, cell, sheet, scene, tally),
        None => Ok(()),
    }
}

// The macro goes on at its place for errors, in its calls and loops, waits for nothing, and has no such place any more.
fn gone_on(frames: Frames, switches: Switches, place: Cell) -> Running
    ensures { result ≡ record {
      position = at_spot (start_of place);
      frames = frames;
      handler = None;
      waiting = waiting.Nothing;
      switches = switches;
    } }
{
    let spot = start_of(place);
    Running {
        position: Position { spot, typed: 0 },
        frames,
        handler: None,
        waiting: Waiting::Nothing,
        switches,
    }
}

/// The macro behind an error with this message, if it goes on.
pub fn caught(
    running: Running,
    message: &[u8],
    sheet: &mut Worksheet,
    scene: &Scene,
    tally: &mut Tally,
) -> Result<Option<Running>, Memory>
    requires { IsText message.now }
    ensures { let caught = spec.caught scene.entry.now message.now (Some running) (of_worksheet sheet.old) in
        IfOk result (λ r. HasCaught caught r sheet.old sheet.new tally.old.count tally.new.count) }
{
    let Running {
        position: _,
        frames,
        handler,
        waiting,
        switches,
    } = running;
    drop(waiting);
    let Some(handler) = handler else {
        drop(frames);
        return Ok(None);
    };
    tell(message, handler.message, sheet, scene, tally)?;
    Ok(Some(gone_on(frames, switches, handler.place)))
}
