// The engine.
ghost use Rattle.std.specs.Prelude.{◌≡◌, is_some, option_copied, IfOk, None, OnErr, OnOk, Some};
ghost use Rattle.lics_text.specs.Bytes.{IsText};
ghost use Rattle.macro_engine.specs.Catching as catching;
ghost use Rattle.macro_engine.specs.Catching.{HasCaught};
ghost use Rattle.macro_engine.specs.Keys as keys;
ghost use Rattle.macro_engine.specs.RowSpans.{ChangesRows};
ghost use Rattle.macro_engine.specs.Steps as spec;
ghost use Rattle.macro_engine.specs.Steps.{HasStepped};
ghost use Rattle.macro_engine.specs.inner.Outcomes.{end_in, left_by};
ghost use Rattle.macro_words.specs.Moves.{begun_at};
ghost use Rattle.work_sheet.specs.Seen.{of_worksheet};

use crate::catching::caught;
use crate::row_span::RowSpan;
use crate::steps::{Outcome, StepEnd, deed_stepped, key_stepped, rows_in, stepped};
use formula_eval::Tally;
use formula_parts::Scene;
use grid_address::Cell;
use key_words::{Key, Letter};
use lics_text::Memory;
use macro_text::{KeptWords, named_span};
use macro_words::{Deed, Running, Waiting};
use range_names::Names;
use std::alloc::Global;
use std::marker::Model;
use work_sheet::Worksheet;

/// The cell at which the macro of a letter begins: the first cell of the name that is a backslash and the letter
/// (Release 2 manual). None where there is no such name.
pub fn macro_named(names: &Names, letter: Letter) -> Option<Cell>
    ensures { result ≡ spec.macro_named names.now letter }
{
    match named_span(names, &[b'\\', letter.get()]) {
        Some(span) => Some(span.first),
        None => None,
    }
}

// Whether a key is waited for.
fn is_for_key(waiting: &Waiting) -> bool
    ensures { result ≡ keys.is_for_key waiting.now }
{
    match waiting {
        Waiting::Nothing | Waiting::Time(_) => false,
        Waiting::OneKey(_) | Waiting::Line(_) | Waiting::Item(_) | Waiting::Enter => true,
    }
}

// Whether a key is the macro's own, by what it waits for.
fn is_own(key: &Key, waiting: &Waiting) -> bool
    ensures { result ≡ keys.is_own key.now waiting.now }
{
    match waiting {
        Waiting::Nothing | Waiting::Time(_) => false,
        Waiting::OneKey(_) | Waiting::Line(_) | Waiting::Item(_) => true,
        Waiting::Enter => matches!(key, Key::Enter | Key::Undo),
    }
}

/// The engine: the macro that runs, if one does, and words that were read from a text.
#[derive(Drop)]
pub struct Engine {
    alloc: Global,
    running: Option<Running>,
    kept: KeptWords,
}

impl Model for Engine {
    ghost use Rattle.std.specs.Prelude.{Option};
    ghost use Rattle.macro_words.specs.declared.running.Running.{Running};

    ghost Value = { Option Running };

    ghost view = { λ e. e.running };
}

impl Engine {
    /// No macro runs.
    pub fn new(alloc: Global) -> Engine
        ensures { result ≡ None }
    {
        Engine {
            alloc,
            running: None,
            kept: KeptWords::new(alloc),
        }
    }

    /// Whether a macro runs.
    pub fn is_running(&self) -> bool
        ensures { result ≡ is_some self.now }
    {
        self.running.is_some()
    }

    /// The macro that runs, if one does.
    pub fn running(&self) -> Option<&Running>
        ensures { option_copied result ≡ self.now }
    {
        self.running.as_ref()
    }

    /// Begins a macro at a cell, in no call and no loop, and with no place for errors.
    pub fn start(&mut self, cell: Cell)
        ensures { self.new ≡ Some (begun_at cell) }
    {
        self.running = Some(Running::begun_at(self.alloc, cell));
    }

    /// Stops the macro: its calls, its loops and its place for errors are forgotten.
    pub fn stop(&mut self)
        ensures { self.new ≡ None }
    {
        self.running = None;
    }

    /// Stops the macro, unless it has switched BREAK off.
    pub fn break_off(&mut self)
        ensures { self.new ≡ keys.broken_off self.old }
    {
        let stops = match &self.running {
            Some(running) => running.switches.breaks,
            None => false,
        };
        if stops {
            self.stop();
        }
    }

    /// Whether a macro runs that waits for a key.
    pub fn awaits_key(&self) -> bool
        ensures { result ≡ keys.awaits_key self.now }
    {
        match &self.running {
            Some(running) => is_for_key(&running.waiting),
            None => false,
        }
    }

    /// Whether a macro runs that takes the key itself: while `?` hands the keys on, Enter and UNDO alone.
    pub fn takes_key(&self, key: &Key) -> bool
        ensures { result ≡ keys.takes_key key.now self.now }
    {
        match &self.running {
            Some(running) => is_own(key, &running.waiting),
            None => false,
        }
    }

    /// Whether a macro runs that has a place for errors.
    pub fn handles_errors(&self) -> bool
        ensures { result ≡ catching.handles_errors self.now }
    {
        match &self.running {
            Some(running) => running.handler.is_some(),
            None => false,
        }
    }

    // What a step came to; the macro stops behind it, unless it goes on. After `Memory` no macro runs. What most steps
    // of a loop come to is made anew, in place of a copy of all that an end may carry.
    #[inline(always)]
    fn stand_behind(&mut self, outcome: Result<Outcome, Memory>) -> Result<StepEnd, Memory>
        ensures end { result ≡ end_in outcome }
        ensures running { self.new ≡ left_by outcome self.old }
    {
        match outcome {
            Ok(
                Outcome {
                    end: StepEnd::Works,
                    goes_on: true,
                    ..
                },
            ) => Ok(StepEnd::Works),
            Ok(
                Outcome {
                    end: StepEnd::Moves,
                    goes_on: true,
                    ..
                },
            ) => Ok(StepEnd::Moves),
            Ok(
                Outcome {
                    end: StepEnd::Types(key),
                    goes_on: true,
                    ..
                },
            ) => Ok(StepEnd::Types(key)),
            Ok(Outcome { end, goes_on, .. }) => {
                if !goes_on {
                    self.stop();
                }
                Ok(end)
            }
            Err(Memory) => {
                self.stop();
                Err(Memory)
            }
        }
    }

    /// One step of the macro that runs: its next unit, by the text as it now stands, is carried out. A key is typed by
    /// the caller, as by hand. In Automatic mode a recalculation follows a word that writes cells. A fault stops the
    /// macro and leaves the sheet as it was; its cell is that of the word at fault. Where a cell that is to be written
    /// is protected, the word writes nothing, and the macro stands behind it in its calls and loops; the cell is the
    /// first such one in row order. Where no macro runs, nothing is done. After `Memory` no macro runs, and the sheet
    /// is open but for what it keeps. The rows become those of which alone cells may have changed, where a step tells
    /// them. (Release 2 manual for the words; that the text is read anew at each step, the faults and their order are
    /// this project's choice.)
    #[tactic(auto, unfolding(crate::specs::Steps::macro_step))]
    pub fn step(
        &mut self,
        sheet: &mut Worksheet,
        scene: &Scene,
        tally: &mut Tally,
        rows: &mut Option<RowSpan>,
    ) -> Result<StepEnd, Memory>
        ensures step { let step = spec.macro_step scene.entry.now self.old (of_worksheet sheet.old) in IfOk result
            (λ end. HasStepped step end self.new sheet.old sheet.new tally.old.count tally.new.count) }
        ensures rows { ChangesRows rows.new (of_worksheet sheet.old) (of_worksheet sheet.new) }
        ensures memory { OnErr result (self.new ≡ None) }
    {
        *rows = None;
        let Some(running) = &mut self.running else {
            return Ok(StepEnd::Works);
        };
        let outcome = stepped(running, &mut self.kept, sheet, scene, tally);
        *rows = rows_in(&outcome);
        self.stand_behind(outcome)
    }

    /// A key that the macro takes which waits for one, by the sheet as it now stands: a row of the words that wait.
    /// In Automatic mode a recalculation follows where it writes a cell; a protected one is refused, and the macro
    /// then waits for nothing. A fault's cell is that of the word that waited. After `Memory` no macro runs, and the
    /// sheet is open but for what it keeps.
    #[tactic(auto, unfolding(crate::specs::Keys::key_step))]
    pub fn answer(
        &mut self,
        key: Key,
        sheet: &mut Worksheet,
        scene: &Scene,
        tally: &mut Tally,
    ) -> Result<StepEnd, Memory>
        ensures step { let step = keys.key_step scene.entry.now key self.old (of_worksheet sheet.old) in IfOk result
            (λ end. HasStepped step end self.new sheet.old sheet.new tally.old.count tally.new.count) }
        ensures memory { OnErr result (self.new ≡ None) }
    {
        let Some(running) = &mut self.running else {
            return Ok(StepEnd::Works);
        };
        let outcome = key_stepped(running, key, sheet, scene, tally);
        self.stand_behind(outcome)
    }

    /// The macro that runs does a deed, behind a step that asked for something of a text file: in Automatic mode a
    /// recalculation follows where it writes cells. Where one of them is protected, it writes nothing, and the macro
    /// stays; the cell is the first such one in row order. Where no macro runs, nothing is done. After `Memory` no
    /// macro runs, and the sheet is open but for what it keeps.
    #[tactic(auto, unfolding(crate::specs::Steps::carried_step))]
    pub fn carry(
        &mut self,
        deed: Deed,
        sheet: &mut Worksheet,
        scene: &Scene,
        tally: &mut Tally,
    ) -> Result<StepEnd, Memory>
        ensures step { let step = spec.carried_step scene.entry.now deed self.old (of_worksheet sheet.old) in
            IfOk result (λ end. HasStepped step end self.new sheet.old sheet.new tally.old.count tally.new.count) }
        ensures memory { OnErr result (self.new ≡ None) }
    {
        let Some(running) = &mut self.running else {
            drop(deed);
            return Ok(StepEnd::Works);
        };
        let outcome = deed_stepped(running, deed, sheet, scene, tally);
        self.stand_behind(outcome)
    }

    /// Meets an error with this message. Where the macro has a place for errors, it goes on there, in its calls and
    /// loops, and has that place no more; the message is put into the cell that was given for it, as a label with `'`,
    /// unless that cell is protected, and in Automatic mode a recalculation follows. Without a place for errors the
    /// macro stops, and the sheet stays. After `Memory` no macro runs, and the sheet is open but for what it keeps.
    /// (Release 2 manual for ONERROR; that a protected cell is passed over is this project's choice.)
    pub fn catch_error(
        &mut self,
        message: &[u8],
        sheet: &mut Worksheet,
        scene: &Scene,
        tally: &mut Tally,
    ) -> Result<(), Memory>
        requires { IsText message.now }
        ensures caught { let caught = catching.caught scene.entry.now message.now self.old (of_worksheet sheet.old) in
            OnOk result (HasCaught caught self.new sheet.old sheet.new tally.old.count tally.new.count) }
        ensures memory { OnErr result (self.new ≡ None) }
    {
        let Some(running) = self.running.take() else {
            return Ok(());
        };
        self.running = caught(running, message, sheet, scene, tally)?;
        Ok(())
    }
}
