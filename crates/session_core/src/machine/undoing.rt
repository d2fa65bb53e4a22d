// What a step keeps for undo, and how the last command is taken back.
ghost use Rattle.std.specs.Prelude.{◌≡◌, IfOk, IsOk, OnErr, OnOk, false};
ghost use Rattle.commands_file.specs.Calls.{shelf_view};
ghost use Rattle.session_core.specs.Carrying.{undone};
ghost use Rattle.session_core.specs.Keeping.{begun_for, command_ended, is_at_end, with_begun, TellsChange};
ghost use Rattle.session_core.specs.Machine.{sheet_of, wants_key};
ghost use Rattle.session_core.specs.inner.Leading.{BreaksOver, HasDone, LeadsBy};
ghost use Rattle.session_core.specs.inner.Touches.{HasTouched};
ghost use Rattle.session_core.specs.Moving.{IsMoved, OnlyMoves, OnlyMovesBy};
ghost use Rattle.session_core.specs.Step.{event_taken, is_key};

use super::{Machine, UNTOUCHED, WORKED};
use crate::event::Event;
use crate::touched::Taken;
use desk_errors::CommandError;
use lics_text::Memory;
use outside_world::Shelf;
use serial_date::Moment;
use session_rooms::Turn;

impl Machine {
    // The last command is taken back; where none is kept, that is an error, and inside a macro the key is passed over.
    pub(super) fn undo(&mut self, now: &Moment) -> Result<Taken, Memory>
        ensures undone { IfOk result (λ t. LeadsBy undone now.now t.ends self.old self.new) }
        ensures touched { IfOk result (λ t. HasTouched t.touched self.old.state self.new.state) }
    {
        if self.engine.is_running() {
            return Ok(UNTOUCHED);
        }
        if self.desk.sheet.undo()? {
            return Ok(WORKED);
        }
        let scene = self.scene(now);
        self.fail(CommandError::NothingToUndo, &scene)?;
        Ok(WORKED)
    }

    // A command is begun with the sheet as it stands, where none is.
    fn begin_command(&mut self) -> Result<(), Memory>
        ensures state { OnOk result (self.new.state ≡ with_begun self.old.state) }
        ensures work { OnOk result (self.new.work ≡ self.old.work) }
    {
        if self.desk.sheet.has_begun() {
            return Ok(());
        }
        self.desk.sheet.begin()
    }

    // A command is begun where what a key came to can change the sheet. Else nothing is done, and it takes no memory.
    pub(super) fn begin_for(&mut self, turn: &Turn) -> Result<(), Memory>
        ensures state { OnOk result (self.new.state ≡ begun_for turn.now self.old.state) }
        ensures work { OnOk result (self.new.work ≡ self.old.work) }
        ensures moves { OnlyMoves turn.now self.old.state.running → IsOk result }
    {
        match turn {
            Turn::Become(_) | Turn::Move(_) | Turn::Mark | Turn::Undo | Turn::Fail(_) => Ok(()),
            Turn::Finish(_, _) | Turn::Ask(_) | Turn::Act(_) | Turn::Recalculate | Turn::Start(_) =>
                self.begin_command(),
        }
    }

    // Whether a command that was begun is at its end.
    fn is_at_end(&self) -> bool
        ensures { result ≡ is_at_end self.now.state }
    {
        self.is_at_rest() && self.desk.sheet.has_begun()
    }

    // Where a command is at its end, it is kept if it changed the sheet, which the answer tells; where none is, it
    // takes no memory.
    fn end_command(&mut self) -> Result<bool, Memory>
        ensures tells { IfOk result (λ changed. TellsChange changed self.old.state) }
        ensures state { IfOk result (λ changed. self.new.state ≡ command_ended changed self.old.state) }
        ensures work { OnOk result (self.new.work ≡ self.old.work) }
        ensures sure { is_at_end self.old.state ≡ false → IsOk result }
    {
        if self.is_at_end() {
            self.desk.sheet.end()
        } else {
            Ok(false)
        }
    }

    /// Takes an event, before the screen follows it, and where a command is then at its end, it is kept if it changed
    /// the sheet.
    pub fn do_event<S: Shelf>(
        &mut self,
        event: Event,
        now: &Moment,
        shelf: &mut S,
    ) -> Result<Taken, Memory>
        requires { is_key event ≡ wants_key self.old.state }
        ensures ok { IfOk result (λ t. HasDone event now.now t.ends self.old self.new
            (shelf_view (S.holds shelf.old) (S.faults shelf.old))
            (shelf_view (S.holds shelf.new) (S.faults shelf.new))) }
        ensures memory { OnErr result (BreaksOver (event_taken event) now.now self.old.state
            (shelf_view (S.holds shelf.old) (S.faults shelf.old))
            (shelf_view (S.holds shelf.new) (S.faults shelf.new))) }
        ensures moves { OnlyMovesBy event self.old.state → IsOk result }
        ensures stays { OnlyMovesBy event self.old.state → IfOk result (λ t. t.ends ≡ false) }
        ensures sheet { OnlyMovesBy event self.old.state →
            IsMoved (sheet_of self.old.state) (sheet_of self.new.state) }
        ensures touched { IfOk result (λ t. HasTouched t.touched self.old.state self.new.state) }
    {
        let taken = self.take_event(event, now, shelf)?;
        self.end_command()?;
        Ok(taken)
    }
}
