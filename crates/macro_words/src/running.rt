// A macro that runs, and what a word does.

use crate::{FileDeed, Frames, Loop, Switches, Waiting};
use fixed_value::Fixed;
use formula_tree::Formula;
use grid_address::{Cell, Span};
use lics_text::Text;
use macro_text::{MacroFault, Position, Spot};
use sheet_store::Writes;

/// Where a macro goes on after an error, and the cell that takes its message.
#[derive(Clone, Copy)]
pub struct Handler {
    pub place: Cell,
    pub message: Option<Cell>,
}

/// A macro that runs: where it goes on, the calls and loops that it is in, what it does after an error, what it waits
/// for, and what it has switched on.
#[derive(Drop)]
pub struct Running {
    pub position: Position,
    pub frames: Frames,
    pub handler: Option<Handler>,
    pub waiting: Waiting,
    pub switches: Switches,
}

/// How a word moves the macro, which stands behind the word already. Where it goes to a place, it waits for nothing.
#[derive(Drop)]
pub enum Move {
    /// It goes on where it stands.
    Stay,
    /// It goes to a place.
    Go(Spot),
    /// It calls the routine at the second place; the word stands at the first.
    Call(Spot, Spot),
    /// It begins a loop, and calls its routine.
    Begin(Loop),
    /// It leaves the innermost call or loop for a place.
    Leave(Spot),
    /// It forgets its calls and loops.
    Forget,
    /// It stops.
    Stop,
    /// It takes another place for errors.
    Handle(Handler),
    /// It waits where it stands.
    Wait(Waiting),
    /// It stays at the word of this place while @NOW is less than this number.
    Pause(Spot, Fixed),
    /// It switches.
    Switch(Switches),
    /// It shows a text in the mode's place, or with an empty one the mode again.
    Indicate(Text),
    /// It stays until this is done of a text file.
    Files(FileDeed),
}

/// What a word does to the sheet.
#[derive(Drop)]
pub enum Change {
    Nothing,
    /// It writes contents; in Automatic mode a recalculation follows.
    Write(Writes),
    /// It erases a span; in Automatic mode a recalculation follows.
    Erase(Span),
    /// It recalculates the formulas of a span alone.
    Recalculate(Sweep),
}

/// A recalculation of a span: row by row or column by column, 1 to 50 times, but no more once the condition, which is a
/// formula that stands in a cell, is a number other than 0.
#[derive(Drop)]
pub struct Sweep {
    pub span: Span,
    pub by_columns: bool,
    pub until: Option<Formula>,
    pub at: Cell,
    pub most: u8,
}

/// What a word does: to the sheet, and to the macro where no cell that is to be written is protected.
#[derive(Drop)]
pub struct Deed {
    pub change: Change,
    pub after: Move,
}

/// What a word does, or why it is a fault, which changes nothing.
pub type Row = Result<Deed, MacroFault>;
