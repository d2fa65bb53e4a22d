// The session's machine: where what a key comes to is carried out.
ghost use Rattle.std.specs.Prelude.{◌≡◌, true, false, IfOk, IsOk, None, OnErr, OnOk};
ghost use Rattle.command_desk.specs.Desks.{of_desk};
ghost use Rattle.commands_file.specs.Calls.{shelf_view};
ghost use Rattle.entry_line.specs.Line.{placed};
ghost use Rattle.macro_engine.specs.Keys.{broken_off};
ghost use Rattle.session_core.specs.Carrying.{acted, asked, carried, entered, failed, faulting, finished, going, left_by};
ghost use Rattle.session_core.specs.Carrying.{is_pointer_protected, looking, recalculated, started, told};
ghost use Rattle.session_core.specs.inner.Settling.{settling, writing};
ghost use Rattle.sheet_undo.specs.Histories.{no_history};
ghost use Rattle.session_core.specs.Machine.{afresh, begun_with, in_room, pointer_of, pointing_at, scene_at, sheet_of};
ghost use Rattle.session_core.specs.Machine.{wants_key, with_macro};
ghost use Rattle.session_core.specs.inner.Leading.{BreaksOver, Leads, LeadsBy, LeadsOver};
ghost use Rattle.session_core.specs.Moving.{IsMoved, OnlyMoves, OnlyMovesBy, OnlyMovesByKey};
ghost use Rattle.session_core.specs.Moving.{OnlyMovesByPress, OnlyMovesGiven};
ghost use Rattle.session_core.specs.Step.{by_waiting_macro, come_to, event_taken, given, is_key};
ghost use Rattle.session_core.specs.Step.{loaded, pressed_key, by_key};
ghost use Rattle.session_core.specs.inner.Touches.{touches_row, HasTouched, Settles};
ghost use Rattle.work_sheet.specs.Did.{work_of};

mod following;
mod painting;
mod refusing;
mod text_files;
mod typing;
mod undoing;

use crate::acting::act;
use crate::entering::{Meant, meaning_of};
use crate::event::Event;
use crate::faults::fault_message;
use crate::frozen::Frozen;
use crate::pressing::{is_line_typed, light_turn_of};
use crate::refusal::Refusal;
use crate::rows::{ROWS, insert_cells, insert_row};
use crate::touched::{Taken, Touched};
use cell_pointer::{Way, moved};
use command_desk::{CommandEnd, Desk, settle};
use commands_file::{Looked, look};
use desk_errors::CommandError;
use entry_line::EntryLine;
use formula_eval::Tally;
use formula_parts::{Look, Scene};
use formula_tree::Content;
use grid_address::Cell;
use key_words::{Key, Letter};
use lics_text::{Line, Memory, Text};
use macro_engine::{Engine, StepEnd, macro_named};
use macro_text::MacroFault;
use menu_tree::{Action, back};
use outside_world::Shelf;
use recalculation::recalculation_is_cut;
use room_keys::menu::menu_or_ready;
use room_keys::prompt::{WhatFollows, opening};
use screen_layout::columns_shown;
use screen_show::LineSet;
use serial_date::Moment;
use session_rooms::{AnsweredCommand, Answering, PromptRoom, Room, Turn, TypingMode, TypingRoom};
use sheet_store::{Settings, SheetFault};
use std::marker::Model;
use text_channel::Channel;

const HOME: Cell = Cell { row: 0, col: 0 };

/// The desk with the worksheet and its pointer, the cell at the top left of the screen, what the session is doing, and
/// what the last step refused and its moment.
#[derive(Drop)]
pub struct Machine {
    desk: Desk,
    tally: Tally,
    corner: Cell,
    room: Room,
    end: bool,
    engine: Engine,
    channel: Channel,
    indicate: Line,
    frozen: Frozen,
    refusal: Refusal,
    moment: Moment,
}

impl Model for Machine {
    ghost use Rattle.formula_tree.specs.contracts.formula.Formula as formula;
    ghost use Rattle.std.specs.Coded.{codes};
    ghost use Rattle.std.specs.FinMap as map;
    ghost use Rattle.session_core.specs.inner.Leading.{Worked};
    ghost use Rattle.command_desk.specs.Desks.{of_desk};

    ghost Value = { Worked };

    ghost coded = { Prim.hlevel (codes, map.code, formula.the_row.coded) };

    ghost view = { λ a. record {
      state = record {
        desk = of_desk a.desk;
        corner = a.corner;
        room = a.room;
        end = a.end;
        running = a.engine;
        channel = a.channel;
        indicate = a.indicate;
        frozen = a.frozen;
        refusal = a.refusal;
        history = a.desk.sheet.history;
        day = a.moment.day;
        second = a.moment.second;
      };
      work = record { dirty = a.desk.sheet.dirty; count = a.tally.count };
    } };
}

// Nothing of the sheet was touched.
const UNTOUCHED: Taken = Taken {
    touched: Touched::Nothing,
    ends: false,
};

// The pointer moved.
const MOVED: Taken = Taken {
    touched: Touched::Pointer,
    ends: false,
};

// Anything of the sheet may have been touched.
const WORKED: Taken = Taken {
    touched: Touched::Anything,
    ends: false,
};

impl Machine {
    /// The machine of a session that begins with a desk whose sheet keeps no states.
    pub fn new(desk: Desk) -> Machine
        requires { desk.sheet.history ≡ no_history }
        ensures state { result.state ≡ begun_with (of_desk desk) }
        ensures work { result.work ≡ work_of desk.sheet 0 }
    {
        let engine = Engine::new(desk.sheet.alloc());
        Machine {
            desk,
            tally: Tally::new(),
            corner: HOME,
            room: Room::Ready,
            end: false,
            engine,
            channel: Channel::new(),
            indicate: Line::new(),
            frozen: Frozen::none(),
            refusal: Refusal::Nothing,
            moment: Moment::unknown(),
        }
    }

    /// Whether the next step takes a key: no macro runs, or the one that runs waits for a key.
    pub fn wants_key(&self) -> bool
        ensures { result ≡ wants_key self.now.state }
    {
        !self.engine.is_running() || self.engine.awaits_key()
    }

    /// The worksheet, and what commands keep beside it.
    pub fn desk(&self) -> &Desk
        ensures { of_desk result.now ≡ self.now.state.desk }
    {
        &self.desk
    }

    /// How many formulas were evaluated; the count stays at the last u64.
    pub fn evaluations(&self) -> u64
        ensures { result ≡ self.now.work.count }
    {
        self.tally.count()
    }

    // The pointer's cell.
    fn pointer(&self) -> Cell
        ensures { result ≡ pointer_of self.now.state }
    {
        self.desk.sheet.settings().pointer
    }

    // The row at the top of the screen.
    fn top_row(&self) -> u16
        ensures { result ≡ self.now.state.corner.row }
    {
        self.corner.row
    }

    // What formulas look at beside the sheet.
    fn scene(&self, now: &Moment) -> Scene
        ensures { result ≡ scene_at self.now.state now.now }
    {
        Scene {
            cursor: self.pointer(),
            now: *now,
        }
    }

    // The session does something else.
    fn enter_room(&mut self, room: Room)
        ensures state { self.new.state ≡ in_room room self.old.state }
        ensures work { self.new.work ≡ self.old.work }
        ensures sheet { IsMoved (sheet_of self.old.state) (sheet_of self.new.state) }
    {
        self.room = room;
    }

    // END waits for a moving key.
    fn mark(&mut self)
        ensures state { self.new.state ≡ record self.old.state { end = true } }
        ensures work { self.new.work ≡ self.old.work }
        ensures sheet { IsMoved (sheet_of self.old.state) (sheet_of self.new.state) }
    {
        self.end = true;
    }

    // Puts the pointer into a cell.
    fn point_at(&mut self, pointer: Cell)
        ensures state { self.new.state ≡ pointing_at pointer self.old.state }
        ensures work { self.new.work ≡ self.old.work }
        ensures sheet { IsMoved (sheet_of self.old.state) (sheet_of self.new.state) }
    {
        let settings = *self.desk.sheet.settings();
        self.desk.sheet.set_settings(Settings {
            pointer,
            ..settings
        });
    }

    // The pointer goes a way.
    fn go(&mut self, way: Way)
        ensures state { self.new.state ≡ going way self.old.state }
        ensures work { self.new.work ≡ self.old.work }
        ensures sheet { IsMoved (sheet_of self.old.state) (sheet_of self.new.state) }
    {
        let shown = columns_shown(&self.desk.sheet, self.corner.col);
        let to = moved(way, shown, self.desk.sheet.cells(), self.pointer());
        self.point_at(to);
    }

    // A message is told in ERROR, and a macro that runs stops.
    fn tell(&mut self, message: Line)
        ensures state { self.new.state ≡ told message self.old.state }
        ensures work { self.new.work ≡ self.old.work }
        ensures sheet { IsMoved (sheet_of self.old.state) (sheet_of self.new.state) }
    {
        self.engine.stop();
        self.enter_room(Room::Failed(message));
    }

    // A macro that runs goes on at its place for errors; without one it stops, and the error is told, which touches
    // nothing of the sheet. It takes memory in a macro alone.
    #[tactic(auto, unfolding(crate::specs::Carrying::failed), using(crate::proofs::Failing::failed_untold))]
    fn fail(&mut self, error: CommandError, scene: &Scene) -> Result<Touched, Memory>
        ensures failed { OnOk result (Leads (failed error scene.entry.now self.old.state) false self.old self.new) }
        ensures sure { self.old.state.running ≡ None → IsOk result }
        ensures sheet { self.old.state.running ≡ None → IsMoved (sheet_of self.old.state) (sheet_of self.new.state) }
        ensures touched { IfOk result (λ t. HasTouched t self.old.state self.new.state) }
    {
        if !self.engine.handles_errors() {
            self.tell(error.message());
            return Ok(Touched::Nothing);
        }
        self.enter_room(Room::Ready);
        let message = error.message();
        self.engine.catch_error(
            message.bytes(),
            &mut self.desk.sheet,
            scene,
            &mut self.tally,
        )?;
        Ok(Touched::Anything)
    }

    // A command goes back to its menu or to READY, ends the run, or fails; whether the run ends.
    fn leave(&mut self, end: CommandEnd, action: Action, scene: &Scene) -> Result<bool, Memory>
        ensures { IfOk result
            (λ ends. Leads (left_by end action scene.entry.now self.old.state) ends self.old self.new) }
    {
        match end {
            CommandEnd::Finished => {
                self.enter_room(menu_or_ready(back(action)));
                Ok(false)
            }
            CommandEnd::Quits => Ok(true),
            CommandEnd::Refused(error) => {
                self.fail(error, scene)?;
                Ok(false)
            }
        }
    }

    // A command is carried out, and the session goes on as it ended; whether the run ends.
    fn act<S: Shelf>(
        &mut self,
        command: AnsweredCommand,
        now: &Moment,
        shelf: &mut S,
    ) -> Result<bool, Memory>
        ensures acted { IfOk result (λ ends. LeadsOver (λ replies. acted command replies.act) now.now ends
            self.old self.new
            (shelf_view (S.holds shelf.old) (S.faults shelf.old))
            (shelf_view (S.holds shelf.new) (S.faults shelf.new))) }
        ensures memory { OnErr result (BreaksOver (λ replies. acted command replies.act) now.now self.old.state
            (shelf_view (S.holds shelf.old) (S.faults shelf.old))
            (shelf_view (S.holds shelf.new) (S.faults shelf.new))) }
    {
        let scene = self.scene(now);
        let end = act(&command, &mut self.desk, shelf, &scene, &mut self.tally)?;
        self.leave(end, command.action, &scene)
    }

    // The shelf is asked whether the file is there that a command may replace; whether the run ends.
    fn look<S: Shelf>(
        &mut self,
        command: AnsweredCommand,
        now: &Moment,
        shelf: &mut S,
    ) -> Result<bool, Memory>
        ensures looked { IfOk result (λ ends. LeadsOver (looking command) now.now ends self.old self.new
            (shelf_view (S.holds shelf.old) (S.faults shelf.old))
            (shelf_view (S.holds shelf.new) (S.faults shelf.new))) }
        ensures memory { OnErr result (BreaksOver (looking command) now.now self.old.state
            (shelf_view (S.holds shelf.old) (S.faults shelf.old))
            (shelf_view (S.holds shelf.new) (S.faults shelf.new))) }
    {
        match look(command.action, &command.answers, shelf)? {
            Looked::There(true) => {
                let answering = Answering::Choosing(0);
                self.enter_room(Room::Asking(PromptRoom { command, answering }));
                Ok(false)
            }
            Looked::There(false) => self.act(command, now, shelf),
            Looked::Unknown(error) => {
                let scene = self.scene(now);
                self.fail(error, &scene)?;
                Ok(false)
            }
        }
    }

    // A command's next prompt follows, or it is carried out; whether the run ends.
    fn ask<S: Shelf>(
        &mut self,
        command: AnsweredCommand,
        now: &Moment,
        shelf: &mut S,
    ) -> Result<bool, Memory>
        ensures asked { IfOk result (λ ends. LeadsOver (asked command) now.now ends self.old self.new
            (shelf_view (S.holds shelf.old) (S.faults shelf.old))
            (shelf_view (S.holds shelf.new) (S.faults shelf.new))) }
        ensures memory { OnErr result (BreaksOver (asked command) now.now self.old.state
            (shelf_view (S.holds shelf.old) (S.faults shelf.old))
            (shelf_view (S.holds shelf.new) (S.faults shelf.new))) }
    {
        match opening(&command, self.pointer(), &self.desk.file_name) {
            WhatFollows::Asks(answering) => {
                self.enter_room(Room::Asking(PromptRoom { command, answering }));
                Ok(false)
            }
            WhatFollows::Looks => self.look(command, now, shelf),
            WhatFollows::Acts => self.act(command, now, shelf),
        }
    }

    // A line with a fault is refused, and edited with the cursor at the fault or at its end.
    fn refuse_at(&mut self, at: usize, mut line: EntryLine)
        ensures state { self.new.state ≡ faulting (placed line at) self.old.state }
        ensures work { self.new.work ≡ self.old.work }
    {
        self.refusal = Refusal::Line;
        line.set_cursor(at.min(line.text().len()));
        self.enter_room(Room::Typing(TypingRoom {
            mode: TypingMode::Edit,
            line,
        }));
    }

    // All is recalculated.
    fn calculate(&mut self, now: &Moment) -> Result<(), Memory>
        ensures { OnOk result (LeadsBy recalculated now.now false self.old self.new) }
    {
        let scene = self.scene(now);
        self.desk.sheet.calc(&scene, &mut self.tally)?;
        Ok(())
    }

    // What is touched behind a write into a cell of a row, where a recalculation then follows by itself: the cells of
    // that row and of the dirty formulas. More of these than rows that are shown mostly lie in all: none is looked at.
    fn touched_behind(&self, row: u16) -> Touched
        ensures row { touches_row result self.now.state.corner.row row ≡ true }
        ensures settles { Settles result self.now.state.corner.row (sheet_of self.now.state) }
    {
        let sheet = &self.desk.sheet;
        if !sheet.settings().automatic || sheet.dirty_count() > usize::from(ROWS) {
            return Touched::Anything;
        }
        // Both are called for their clauses.
        sheet.is_kept();
        recalculation_is_cut::<Tally>();
        let first = self.corner.row;
        let mut lines = LineSet::none();
        insert_row(row, first, &mut lines);
        insert_cells(sheet.dirty_cells(), first, &mut lines);
        Touched::Rows(lines)
    }

    // In Automatic mode all is recalculated.
    fn settle(&mut self, now: &Moment) -> Result<(), Memory>
        ensures { OnOk result (LeadsBy settling now.now false self.old self.new) }
    {
        let scene = self.scene(now);
        settle(&mut self.desk.sheet, &scene, &mut self.tally)
    }

    // Whether the pointer's cell is protected.
    fn is_protected(&self) -> bool
        ensures { result ≡ is_pointer_protected self.now.state }
    {
        self.desk.sheet.settings().protection
            && self.desk.sheet.format(self.pointer()).is_protected()
    }

    // Writes a content into the pointer's cell, which isn't protected.
    fn write(&mut self, content: Content, now: &Moment) -> Result<(), Memory>
        requires { is_pointer_protected self.old.state ≡ false }
        ensures { OnOk result (LeadsBy (writing content) now.now false self.old self.new) }
    {
        let scene = self.scene(now);
        match self
            .desk
            .sheet
            .enter_line(scene.cursor, content, &scene, &mut self.tally)
        {
            Ok(()) => {}
            Err(SheetFault::Memory) => return Err(Memory),
            Err(_) => unreachable!(),
        }
        Ok(())
    }

    // Enters a content into the pointer's cell, and then the pointer moves.
    fn enter(&mut self, content: Content, way: Way, now: &Moment) -> Result<Touched, Memory>
        ensures entered { OnOk result (LeadsBy (entered content way) now.now false self.old self.new) }
        ensures touched { IfOk result (λ t. HasTouched t self.old.state self.new.state) }
    {
        if self.is_protected() {
            let scene = self.scene(now);
            return self.fail(CommandError::Protected(scene.cursor), &scene);
        }
        let row = self.pointer().row;
        self.write(content, now)?;
        let touched = self.touched_behind(row);
        self.settle(now)?;
        self.go(way);
        Ok(touched)
    }

    // Enters what a line means into the pointer's cell; a fault goes to EDIT.
    fn finish(&mut self, way: Way, line: EntryLine, now: &Moment) -> Result<Touched, Memory>
        ensures finished { OnOk result (LeadsBy (finished way line) now.now false self.old self.new) }
        ensures touched { IfOk result (λ t. HasTouched t self.old.state self.new.state) }
    {
        match meaning_of(line.text(), &self.desk.sheet, self.pointer())? {
            Meant::Means(content) => self.enter(content, way, now),
            Meant::Faulty(at) => {
                self.refuse_at(at, line);
                Ok(Touched::Nothing)
            }
        }
    }

    // The macro of a letter starts; inside a macro the key is passed over.
    fn start(&mut self, letter: Letter)
        ensures state { self.new.state ≡ started letter self.old.state }
        ensures work { self.new.work ≡ self.old.work }
    {
        if self.engine.is_running() {
            return;
        }
        match macro_named(self.desk.sheet.names(), letter) {
            Some(cell) => self.engine.start(cell),
            None => self.tell(fault_message(MacroFault::NoSuchMacro, self.pointer())),
        }
    }

    // What a key came to is carried out.
    fn carry<S: Shelf>(&mut self, turn: Turn, now: &Moment, shelf: &mut S) -> Result<Taken, Memory>
        ensures ok { IfOk result (λ t. LeadsOver (carried turn) now.now t.ends self.old self.new
            (shelf_view (S.holds shelf.old) (S.faults shelf.old))
            (shelf_view (S.holds shelf.new) (S.faults shelf.new))) }
        ensures memory { OnErr result (BreaksOver (carried turn) now.now self.old.state
            (shelf_view (S.holds shelf.old) (S.faults shelf.old))
            (shelf_view (S.holds shelf.new) (S.faults shelf.new))) }
        ensures moves { OnlyMoves turn self.old.state.running → IsOk result }
        ensures stays { OnlyMoves turn self.old.state.running → IfOk result (λ t. t.ends ≡ false) }
        ensures sheet { OnlyMoves turn self.old.state.running →
            IsMoved (sheet_of self.old.state) (sheet_of self.new.state) }
        ensures touched { IfOk result (λ t. HasTouched t.touched self.old.state self.new.state) }
    {
        match turn {
            Turn::Become(room) => {
                self.enter_room(room);
                Ok(UNTOUCHED)
            }
            Turn::Move(way) => {
                self.go(way);
                Ok(MOVED)
            }
            Turn::Mark => {
                self.mark();
                Ok(UNTOUCHED)
            }
            Turn::Finish(way, line) => {
                let touched = self.finish(way, line, now)?;
                Ok(Taken { touched, ..WORKED })
            }
            Turn::Ask(command) => {
                let ends = self.ask(command, now, shelf)?;
                Ok(Taken { ends, ..WORKED })
            }
            Turn::Act(command) => {
                let ends = self.act(command, now, shelf)?;
                Ok(Taken { ends, ..WORKED })
            }
            Turn::Recalculate => {
                self.calculate(now)?;
                Ok(WORKED)
            }
            Turn::Start(letter) => {
                self.start(letter);
                Ok(WORKED)
            }
            Turn::Undo => self.undo(now),
            Turn::Fail(error) => {
                let scene = self.scene(now);
                let touched = self.fail(error, &scene)?;
                Ok(Taken { touched, ..WORKED })
            }
        }
    }

    /// Takes a key, pressed or typed by a macro, before the screen follows it. A key that only moves the pointer, types
    /// or is passed over takes no memory, leaves all of the sheet but the pointer, and doesn't end the run.
    pub fn take<S: Shelf>(&mut self, key: Key, now: &Moment, shelf: &mut S) -> Result<Taken, Memory>
        ensures ok { IfOk result (λ t. LeadsOver (by_key key) now.now t.ends self.old self.new
            (shelf_view (S.holds shelf.old) (S.faults shelf.old))
            (shelf_view (S.holds shelf.new) (S.faults shelf.new))) }
        ensures memory { OnErr result (BreaksOver (by_key key) now.now self.old.state
            (shelf_view (S.holds shelf.old) (S.faults shelf.old))
            (shelf_view (S.holds shelf.new) (S.faults shelf.new))) }
        ensures moves { OnlyMovesByKey key self.old.state → IsOk result }
        ensures stays { OnlyMovesByKey key self.old.state → IfOk result (λ t. t.ends ≡ false) }
        ensures sheet { OnlyMovesByKey key self.old.state →
            IsMoved (sheet_of self.old.state) (sheet_of self.new.state) }
        ensures touched { IfOk result (λ t. HasTouched t.touched self.old.state self.new.state) }
    {
        match key {
            Key::Byte(byte) if is_line_typed(&self.room) => {
                self.type_byte(byte);
                Ok(UNTOUCHED)
            }
            _ => match light_turn_of(key, &self.room, self.end) {
                Some(turn) => {
                    let touched = self.take_lightly(&key, turn);
                    Ok(Taken {
                        touched,
                        ..UNTOUCHED
                    })
                }
                None => self.take_turn(key, now, shelf),
            },
        }
    }

    // A text stands in the mode's place.
    fn show_in_place(&mut self, text: &Text)
        ensures state { self.new.state ≡ record self.old.state { indicate = text.now } }
        ensures work { self.new.work ≡ self.old.work }
    {
        let mut line = Line::new();
        line.put_all(text.bytes());
        self.indicate = line;
    }

    // What follows behind a macro's step, by what it came to: a typed key is taken, and mostly nothing follows.
    #[inline(always)]
    fn come_to<S: Shelf>(
        &mut self,
        end: StepEnd,
        now: &Moment,
        shelf: &mut S,
    ) -> Result<Taken, Memory>
        ensures ok { IfOk result (λ t. LeadsOver (come_to end) now.now t.ends self.old self.new
            (shelf_view (S.holds shelf.old) (S.faults shelf.old))
            (shelf_view (S.holds shelf.new) (S.faults shelf.new))) }
        ensures memory { OnErr result (BreaksOver (come_to end) now.now self.old.state
            (shelf_view (S.holds shelf.old) (S.faults shelf.old))
            (shelf_view (S.holds shelf.new) (S.faults shelf.new))) }
        ensures touched { IfOk result (λ t. HasTouched t.touched self.old.state self.new.state) }
    {
        match end {
            StepEnd::Moves => Ok(UNTOUCHED),
            StepEnd::Works => Ok(UNTOUCHED),
            StepEnd::Types(typed) => self.take(typed, now, shelf),
            other => self.come_to_other(other, now, shelf),
        }
    }

    // The same behind any step: a typed key is taken, a fault ends the macro, and a protected cell is an error.
    #[inline(never)]
    fn come_to_other<S: Shelf>(
        &mut self,
        other: StepEnd,
        now: &Moment,
        shelf: &mut S,
    ) -> Result<Taken, Memory>
        ensures ok { IfOk result (λ t. LeadsOver (come_to other) now.now t.ends self.old self.new
            (shelf_view (S.holds shelf.old) (S.faults shelf.old))
            (shelf_view (S.holds shelf.new) (S.faults shelf.new))) }
        ensures memory { OnErr result (BreaksOver (come_to other) now.now self.old.state
            (shelf_view (S.holds shelf.old) (S.faults shelf.old))
            (shelf_view (S.holds shelf.new) (S.faults shelf.new))) }
        ensures touched { IfOk result (λ t. HasTouched t.touched self.old.state self.new.state) }
    {
        match other {
            StepEnd::Types(key) => self.take(key, now, shelf),
            StepEnd::Moves => Ok(UNTOUCHED),
            StepEnd::Works => Ok(UNTOUCHED),
            StepEnd::Indicates(text) => {
                self.show_in_place(&text);
                Ok(UNTOUCHED)
            }
            StepEnd::Files(deed) => self.do_on_file(deed, now, shelf),
            StepEnd::Faulty(fault, cell) => {
                self.tell(fault_message(fault, cell));
                Ok(UNTOUCHED)
            }
            StepEnd::Refused(cell) => {
                let scene = self.scene(now);
                let touched = self.fail(CommandError::Protected(cell), &scene)?;
                Ok(Taken {
                    touched,
                    ..UNTOUCHED
                })
            }
        }
    }

    /// The macro that runs makes its next step, before the screen follows it.
    pub fn run_on<S: Shelf>(&mut self, now: &Moment, shelf: &mut S) -> Result<Taken, Memory>
        ensures ok { IfOk result (λ t. LeadsOver (event_taken Event.Unit) now.now t.ends self.old self.new
            (shelf_view (S.holds shelf.old) (S.faults shelf.old))
            (shelf_view (S.holds shelf.new) (S.faults shelf.new))) }
        ensures memory { OnErr result (BreaksOver (event_taken Event.Unit) now.now self.old.state
            (shelf_view (S.holds shelf.old) (S.faults shelf.old))
            (shelf_view (S.holds shelf.new) (S.faults shelf.new))) }
        ensures touched { IfOk result (λ t. HasTouched t.touched self.old.state self.new.state) }
    {
        let scene = self.scene(now);
        let first = self.top_row();
        let mut rows = None;
        let end = self
            .engine
            .step(&mut self.desk.sheet, &scene, &mut self.tally, &mut rows)?;
        let step = Touched::by_step(end.leaves_sheet(), rows, first);
        let taken = self.come_to(end, now, shelf)?;
        Ok(taken.behind(step))
    }

    // The macro that waits takes a key; what the session is doing stays.
    fn answer<S: Shelf>(&mut self, key: Key, now: &Moment, shelf: &mut S) -> Result<Taken, Memory>
        ensures ok { IfOk result (λ t. LeadsOver (by_waiting_macro key) now.now t.ends self.old self.new
            (shelf_view (S.holds shelf.old) (S.faults shelf.old))
            (shelf_view (S.holds shelf.new) (S.faults shelf.new))) }
        ensures memory { OnErr result (BreaksOver (by_waiting_macro key) now.now self.old.state
            (shelf_view (S.holds shelf.old) (S.faults shelf.old))
            (shelf_view (S.holds shelf.new) (S.faults shelf.new))) }
        ensures touched { IfOk result (λ t. HasTouched t.touched self.old.state self.new.state) }
    {
        let scene = self.scene(now);
        let first = self.top_row();
        self.end = false;
        let end = self
            .engine
            .answer(key, &mut self.desk.sheet, &scene, &mut self.tally)?;
        let step = Touched::by_step(end.leaves_sheet(), None, first);
        let taken = self.come_to(end, now, shelf)?;
        Ok(taken.behind(step))
    }

    // BREAK stops the macro that runs, unless it has switched BREAK off.
    fn break_off(&mut self)
        ensures state { self.new.state ≡ with_macro (broken_off self.old.state.running) self.old.state }
        ensures work { self.new.work ≡ self.old.work }
    {
        self.engine.break_off();
    }

    // BREAK, which drops what is being typed.
    fn press_break<S: Shelf>(&mut self, now: &Moment, shelf: &mut S) -> Result<Taken, Memory>
        ensures ok { IfOk result (λ t. LeadsOver (pressed_key Key.Break) now.now t.ends self.old self.new
            (shelf_view (S.holds shelf.old) (S.faults shelf.old))
            (shelf_view (S.holds shelf.new) (S.faults shelf.new))) }
        ensures memory { OnErr result (BreaksOver (pressed_key Key.Break) now.now self.old.state
            (shelf_view (S.holds shelf.old) (S.faults shelf.old))
            (shelf_view (S.holds shelf.new) (S.faults shelf.new))) }
        ensures moves { IsOk result }
        ensures stays { IfOk result (λ t. t.ends ≡ false) }
        ensures sheet { IsMoved (sheet_of self.old.state) (sheet_of self.new.state) }
        ensures touched { IfOk result (λ t. HasTouched t.touched self.old.state self.new.state) }
    {
        self.break_off();
        self.take(Key::Break, now, shelf)
    }

    // A key is the macro's, where that waits for it, or else the session's.
    fn give<S: Shelf>(&mut self, key: Key, now: &Moment, shelf: &mut S) -> Result<Taken, Memory>
        ensures ok { IfOk result (λ t. LeadsOver (given key) now.now t.ends self.old self.new
            (shelf_view (S.holds shelf.old) (S.faults shelf.old))
            (shelf_view (S.holds shelf.new) (S.faults shelf.new))) }
        ensures memory { OnErr result (BreaksOver (given key) now.now self.old.state
            (shelf_view (S.holds shelf.old) (S.faults shelf.old))
            (shelf_view (S.holds shelf.new) (S.faults shelf.new))) }
        ensures moves { OnlyMovesGiven key self.old.state → IsOk result }
        ensures stays { OnlyMovesGiven key self.old.state → IfOk result (λ t. t.ends ≡ false) }
        ensures sheet { OnlyMovesGiven key self.old.state →
            IsMoved (sheet_of self.old.state) (sheet_of self.new.state) }
        ensures touched { IfOk result (λ t. HasTouched t.touched self.old.state self.new.state) }
    {
        if self.engine.takes_key(&key) {
            self.answer(key, now, shelf)
        } else {
            self.take(key, now, shelf)
        }
    }

    // A key is pressed; BREAK stops a macro that hasn't switched it off.
    fn press<S: Shelf>(&mut self, key: Key, now: &Moment, shelf: &mut S) -> Result<Taken, Memory>
        ensures ok { IfOk result (λ t. LeadsOver (pressed_key key) now.now t.ends self.old self.new
            (shelf_view (S.holds shelf.old) (S.faults shelf.old))
            (shelf_view (S.holds shelf.new) (S.faults shelf.new))) }
        ensures memory { OnErr result (BreaksOver (pressed_key key) now.now self.old.state
            (shelf_view (S.holds shelf.old) (S.faults shelf.old))
            (shelf_view (S.holds shelf.new) (S.faults shelf.new))) }
        ensures moves { OnlyMovesByPress key self.old.state → IsOk result }
        ensures stays { OnlyMovesByPress key self.old.state → IfOk result (λ t. t.ends ≡ false) }
        ensures sheet { OnlyMovesByPress key self.old.state →
            IsMoved (sheet_of self.old.state) (sheet_of self.new.state) }
        ensures touched { IfOk result (λ t. HasTouched t.touched self.old.state self.new.state) }
    {
        match key {
            Key::Break => self.press_break(now, shelf),
            _ => self.give(key, now, shelf),
        }
    }

    /// Takes an event, before the screen follows it: a key, or the next unit of the macro that runs.
    pub fn take_event<S: Shelf>(
        &mut self,
        event: Event,
        now: &Moment,
        shelf: &mut S,
    ) -> Result<Taken, Memory>
        requires { is_key event ≡ wants_key self.old.state }
        ensures ok { IfOk result (λ t. LeadsOver (event_taken event) now.now t.ends self.old self.new
            (shelf_view (S.holds shelf.old) (S.faults shelf.old))
            (shelf_view (S.holds shelf.new) (S.faults shelf.new))) }
        ensures memory { OnErr result (BreaksOver (event_taken event) now.now self.old.state
            (shelf_view (S.holds shelf.old) (S.faults shelf.old))
            (shelf_view (S.holds shelf.new) (S.faults shelf.new))) }
        ensures moves { OnlyMovesBy event self.old.state → IsOk result }
        ensures stays { OnlyMovesBy event self.old.state → IfOk result (λ t. t.ends ≡ false) }
        ensures sheet { OnlyMovesBy event self.old.state →
            IsMoved (sheet_of self.old.state) (sheet_of self.new.state) }
        ensures touched { IfOk result (λ t. HasTouched t.touched self.old.state self.new.state) }
    {
        match event {
            Event::Key(key) => self.press(key, now, shelf),
            Event::Unit => self.run_on(now, shelf),
        }
    }

    /// Recalculates the sheet before the first step, at this moment.
    pub fn load(&mut self, now: &Moment) -> Result<(), Memory>
        ensures { OnOk result (LeadsBy (λ scene s. loaded now.now s) now.now false self.old self.new) }
    {
        self.calculate(now)?;
        self.moment = *now;
        Ok(())
    }

    /// A step begins: nothing is refused yet.
    pub fn begin(&mut self)
        ensures state { self.new.state ≡ afresh self.old.state }
        ensures work { self.new.work ≡ self.old.work }
    {
        self.refusal = Refusal::Nothing;
    }
}
