// How a key is taken.
ghost use Rattle.std.specs.Prelude.{◌≡◌, false, IfOk, IsOk, OnErr};
ghost use Rattle.commands_file.specs.Calls.{shelf_view};
ghost use Rattle.session_core.specs.Machine.{sheet_of};
ghost use Rattle.session_core.specs.inner.Leading.{BreaksOver, LeadsOver};
ghost use Rattle.session_core.specs.Moving.{IsMoved, OnlyMovesByKey};
ghost use Rattle.session_core.specs.Step.{by_key};
ghost use Rattle.session_core.specs.inner.LightTurns.{behind_key, lightly};
ghost use Rattle.session_core.specs.inner.Touches.{HasTouched};
ghost use Rattle.session_core.specs.inner.Typing.{typed_on};

use super::Machine;
use crate::pressing::{turn_of, type_byte};
use crate::refusal::{Refusal, key_refused};
use crate::touched::{Taken, Touched};
use key_words::Key;
use lics_text::{Memory, TextByte};
use outside_world::Shelf;
use room_keys::LightTurn;
use serial_date::Moment;
use session_rooms::Room;
use std::mem;

impl Machine {
    /// A byte goes into the line that is typed.
    pub(super) fn type_byte(&mut self, byte: TextByte)
        ensures state { self.new.state ≡ typed_on byte self.old.state }
        ensures work { self.new.work ≡ self.old.work }
        ensures sheet { IsMoved (sheet_of self.old.state) (sheet_of self.new.state) }
    {
        type_byte(byte, &mut self.room);
        self.end = false;
        self.refusal = Refusal::Nothing;
    }

    // READY or a menu follows, or the pointer moves in READY; what is touched of the sheet.
    fn carry_lightly(&mut self, turn: LightTurn) -> Touched
        ensures state { self.new.state ≡ lightly turn self.old.state }
        ensures work { self.new.work ≡ self.old.work }
        ensures sheet { IsMoved (sheet_of self.old.state) (sheet_of self.new.state) }
        ensures touched { HasTouched result self.old.state self.new.state }
    {
        match turn {
            LightTurn::Ready => {
                self.enter_room(Room::Ready);
                Touched::Nothing
            }
            LightTurn::Menu(room) => {
                self.enter_room(Room::Menu(room));
                Touched::Nothing
            }
            LightTurn::Move(way) => {
                self.enter_room(Room::Ready);
                self.go(way);
                Touched::Pointer
            }
        }
    }

    /// Takes a key that begins no line and no command, by the turn that it comes to.
    pub(super) fn take_lightly(&mut self, key: &Key, turn: LightTurn) -> Touched
        ensures state { self.new.state ≡ lightly turn (behind_key key.now self.old.state) }
        ensures work { self.new.work ≡ self.old.work }
        ensures sheet { IsMoved (sheet_of self.old.state) (sheet_of self.new.state) }
        ensures touched { HasTouched result self.old.state self.new.state }
    {
        self.refusal = key_refused(key, &self.room);
        self.end = false;
        self.carry_lightly(turn)
    }

    /// Takes a key as a turn of what the session is doing.
    pub(super) fn take_turn<S: Shelf>(
        &mut self,
        key: Key,
        now: &Moment,
        shelf: &mut S,
    ) -> Result<Taken, Memory>
        ensures ok { IfOk result (λ t. LeadsOver (by_key key) now.now t.ends self.old self.new
            (shelf_view (S.holds shelf.old) (S.faults shelf.old))
            (shelf_view (S.holds shelf.new) (S.faults shelf.new))) }
        ensures memory { OnErr result (BreaksOver (by_key key) now.now self.old.state
            (shelf_view (S.holds shelf.old) (S.faults shelf.old))
            (shelf_view (S.holds shelf.new) (S.faults shelf.new))) }
        ensures moves { OnlyMovesByKey key self.old.state → IsOk result }
        ensures stays { OnlyMovesByKey key self.old.state → IfOk result (λ t. t.ends ≡ false) }
        ensures sheet { OnlyMovesByKey key self.old.state →
            IsMoved (sheet_of self.old.state) (sheet_of self.new.state) }
        ensures touched { IfOk result (λ t. HasTouched t.touched self.old.state self.new.state) }
    {
        let end = self.end;
        let room = mem::replace(&mut self.room, Room::Ready);
        self.end = false;
        self.refusal = key_refused(&key, &room);
        let turn = turn_of(key, room, end, &self.desk)?;
        self.begin_for(&turn)?;
        self.carry(turn, now, shelf)
    }
}
