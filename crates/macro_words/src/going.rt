// How a macro moves.
ghost use Rattle.std.specs.Prelude.{◌≡◌, IfOk, OnOk, Some, None, true, false};
ghost use Rattle.macro_words.specs.Moves as spec;
ghost use Rattle.macro_words.specs.declared.frames.Frame.TheVariants as frame;
ghost use Rattle.macro_words.specs.declared.waiting.Waiting.TheVariants as waiting;
ghost use Rattle.macro_text.specs.Units.{at_spot, start_of};

use crate::{Frame, Frames, Loop, Move, Running, Switches, Waiting};
use fixed_value::Fixed;
use grid_address::Cell;
use lics_text::Memory;
use macro_text::{Position, Spot};
use std::alloc::Global;

// At a place, with nothing typed.
fn at_spot(spot: Spot) -> Position
    ensures { result ≡ at_spot spot }
{
    Position { spot, typed: 0 }
}

/// The beginning of a cell's text.
pub fn start_of(cell: Cell) -> Spot
    ensures { result ≡ start_of cell }
{
    Spot { cell, offset: 0 }
}

/// All is on.
pub const ALL_ON: Switches = Switches {
    panel: true,
    windows: true,
    breaks: true,
};

impl Running {
    /// A macro that begins at a cell, in no call and no loop, with no place for errors, and with all on.
    pub fn begun_at(alloc: Global, cell: Cell) -> Running
        ensures { result ≡ spec.begun_at cell }
    {
        Running {
            position: at_spot(start_of(cell)),
            frames: Frames::new(alloc),
            handler: None,
            waiting: Waiting::Nothing,
            switches: ALL_ON,
        }
    }

    // It goes on at a place, and waits for nothing.
    fn go(&mut self, spot: Spot)
        ensures { self.new ≡ spec.going spot self.old }
    {
        self.position = at_spot(spot);
        self.waiting = Waiting::Nothing;
    }

    // It leaves the innermost call or loop for a place.
    fn leave(&mut self, spot: Spot)
        ensures { self.new ≡ spec.going spot (record self.old { frames = spec.outer self.old.frames }) }
    {
        self.frames.leave();
        self.go(spot);
    }

    // It stays at a word until a time.
    fn pause(&mut self, spot: Spot, number: Fixed)
        ensures { self.new ≡ record self.old { position = at_spot spot; waiting = waiting.Time number } }
    {
        self.position = at_spot(spot);
        self.waiting = Waiting::Time(number);
    }

    // One frame more, and it goes on at a place.
    fn enter(&mut self, frame: Frame, spot: Spot) -> Result<(), Memory>
        ensures { OnOk result (self.new ≡ spec.entering frame spot self.old) }
    {
        self.frames.push(frame)?;
        self.go(spot);
        Ok(())
    }

    // It calls a routine, and is to come back to where it stands.
    fn call(&mut self, word: Spot, spot: Spot) -> Result<(), Memory>
        ensures { OnOk result (self.new ≡ spec.entering (frame.Call word self.old.position.spot) spot self.old) }
    {
        let behind = self.position.spot;
        self.enter(Frame::Call(word, behind), spot)
    }

    // It begins a loop.
    fn begin(&mut self, begun: Loop) -> Result<(), Memory>
        ensures { OnOk result (self.new ≡ spec.entering (frame.Loop begun) (start_of begun.routine) self.old) }
    {
        let routine = start_of(begun.routine);
        self.enter(Frame::Loop(begun), routine)
    }

    /// Moves the macro. The answer tells whether it goes on. Where there is no memory the macro is open.
    pub fn make(&mut self, after: Move) -> Result<bool, Memory>
        ensures goes { IfOk result (λ b. b ≡ true → spec.moved after self.old ≡ Some self.new) }
        ensures stops { IfOk result (λ b. b ≡ false → spec.moved after self.old ≡ None) }
    {
        match after {
            Move::Stay | Move::Indicate(_) | Move::Files(_) => Ok(true),
            Move::Stop => Ok(false),
            Move::Go(spot) => {
                self.go(spot);
                Ok(true)
            }
            Move::Call(word, spot) => {
                self.call(word, spot)?;
                Ok(true)
            }
            Move::Begin(begun) => {
                self.begin(begun)?;
                Ok(true)
            }
            Move::Leave(spot) => {
                self.leave(spot);
                Ok(true)
            }
            Move::Forget => {
                self.frames.clear();
                Ok(true)
            }
            Move::Handle(handler) => {
                self.handler = Some(handler);
                Ok(true)
            }
            Move::Wait(waiting) => {
                self.waiting = waiting;
                Ok(true)
            }
            Move::Pause(spot, number) => {
                self.pause(spot, number);
                Ok(true)
            }
            Move::Switch(switches) => {
                self.switches = switches;
                Ok(true)
            }
        }
    }
}
