// A session, step by step.
ghost use Rattle.std.specs.Prelude.{◌≡◌, ◌≤◌, ℕ, [], IfNone, IfSome, OnErr, OnOk, Some, false, is_some, length, replicate, slice_get, true};
ghost use Rattle.std.specs.Option.{unwrap_or};
ghost use Rattle.command_desk.specs.Desks.{of_desk};
ghost use Rattle.commands_file.specs.Calls.{shelf_view};
ghost use Rattle.screen_show.specs.Changes.{Unchanged};
ghost use Rattle.screen_show.specs.Screen.{IsPrinted};
ghost use Rattle.session_core.specs.Machine.{begun, sheet_of, wants_key, Follows};
ghost use Rattle.session_core.specs.Moving.{IsMoved, OnlyMovesBy};
ghost use Rattle.session_core.specs.Refusing.{joined};
ghost use Rattle.session_core.specs.Screen.{screen};
ghost use Rattle.session_core.specs.Standing.{is_at_rest, left_in, refused};
ghost use Rattle.session_core.specs.Step.{is_key, loaded, HasBrokenStep, HasTakenStep};
ghost use Rattle.session_core.specs.inner.Glances.{glance_of, IsKept};
ghost use Rattle.sheet_undo.specs.Histories.{no_history};
ghost use Rattle.work_sheet.specs.Did.{work_of};

use crate::glance::{Glance, changed_lines};
use crate::machine::Machine;
use crate::refusal::RefusedText;
use crate::touched::Touched;
use crate::{Event, Stepped};
use command_desk::Desk;
use lics_text::MAX_LEN;
use outside_world::{Memory, Shelf};
use screen_show::{LineSet, Screen};
use serial_date::Moment;
use std::marker::Model;

/// A session: the worksheet, the pointer, and what is being typed, pointed at or asked for. It keeps no screen: who
/// shows one has it painted, where a step may have changed it.
#[derive(Drop)]
pub struct Session {
    machine: Machine,
    // Whether memory ran out in a step. A spent session makes no step.
    spent: bool,
}

impl Model for Session {
    ghost use Rattle.formula_tree.specs.contracts.formula.Formula as formula;
    ghost use Rattle.std.specs.Coded.{codes};
    ghost use Rattle.std.specs.FinMap as map;
    ghost use Rattle.session_core.specs.Machine.{SessionView};

    ghost Value = { SessionView };

    ghost coded = { Prim.hlevel (codes, map.code, formula.the_row.coded) };

    ghost view = { λ a. record { state = a.machine.state; work = a.machine.work; spent = a.spent } };
}

// What the lines hang on before a step; nothing where all lines are told in any case.
fn glance_before(machine: &Machine, lines: &LineSet) -> Option<Glance>
    ensures { IfSome result (λ g. g ≡ glance_of machine.now.state) }
{
    if lines.holds_all() {
        return None;
    }
    Some(machine.glance())
}

// The lines that may be others behind a step: all of them where what they hung on before it isn't known.
fn lines_behind(
    before: Option<Glance>,
    freezes: bool,
    touched: Touched,
    machine: &Machine,
) -> LineSet
    ensures unknown { IfNone before (result ≡ replicate 25 true) }
    ensures all { freezes ≡ true → result ≡ replicate 25 true }
    ensures kept { IfSome before (λ g. freezes ≡ false → (n : ℕ) → slice_get result n ≡ Some false →
        IsKept touched g (glance_of machine.now.state) n) }
{
    match before {
        Some(before) => changed_lines(freezes, touched, &before, &machine.glance()),
        None => LineSet::all(),
    }
}

impl Session {
    /// A session that begins with a desk whose sheet keeps no states, in READY, with A1 at the top left of its screen.
    pub fn new(desk: Desk) -> Session
        requires { desk.sheet.history ≡ no_history }
        ensures { result ≡ begun (of_desk desk) (work_of desk.sheet 0) }
    {
        Session {
            machine: Machine::new(desk),
            spent: false,
        }
    }

    /// Recalculates the sheet before the first step, in both modes. After `Memory` the session is spent.
    pub fn load(&mut self, now: &Moment) -> Result<(), Memory>
        requires fresh { self.old.spent ≡ false }
        ensures loaded { OnOk result (Follows (loaded now.now self.old.state) self.old self.new) }
        ensures memory { OnErr result (self.new.spent ≡ true) }
    {
        match self.machine.load(now) {
            Ok(()) => Ok(()),
            Err(Memory) => {
                self.spent = true;
                Err(Memory)
            }
        }
    }

    /// Whether the next step takes a key: no macro runs, or the one that runs waits for a key.
    pub fn wants_key(&self) -> bool
        ensures { result ≡ wants_key self.now.state }
    {
        self.machine.wants_key()
    }

    /// How many formulas were evaluated; the count stays at the last u64. Only dirty formulas are: those that were
    /// written since the last recalculation or reach a written cell, and those that are volatile or in a circle, or
    /// reach one that is.
    pub fn evaluations(&self) -> u64
        ensures { result ≡ self.now.work.count }
    {
        self.machine.evaluations()
    }

    /// The worksheet, and what commands keep beside it.
    pub fn desk(&self) -> &Desk
        ensures { of_desk result.now ≡ self.now.state.desk }
    {
        self.machine.desk()
    }

    /// One step: a key exactly where the session wants one, and else the next unit of the macro that runs. `Quit` comes
    /// exactly where the menu's Quit was confirmed (Release 2 manual). After `Memory` the session is spent. A step that
    /// only moves the pointer, types, or is passed over, where no command is begun, takes no memory and leaves all of
    /// the sheet but the pointer.
    /// The shelf is called where a command of files has all its answers, or a report is printed, and once before, where
    /// a command may replace a file; a macro's words on text files call it too. Where memory runs out, the shelf is
    /// left by those of the step's calls that were answered, and by a `put` that wasn't, if one was begun: no other
    /// file has changed, and none where the step makes no call. The set becomes the lines in which the screen may
    /// differ from the one before; one that holds all lines stays, and which of them do isn't found out.
    pub fn step<S: Shelf>(
        &mut self,
        event: Event,
        now: &Moment,
        shelf: &mut S,
        changed: &mut LineSet,
    ) -> Stepped
        requires fresh { self.old.spent ≡ false }
        requires key { is_key event ≡ wants_key self.old.state }
        ensures more { result ≡ Stepped.More → HasTakenStep event now.now false self.old self.new
            (shelf_view (S.holds shelf.old) (S.faults shelf.old))
            (shelf_view (S.holds shelf.new) (S.faults shelf.new)) }
        ensures quit { result ≡ Stepped.Quit → HasTakenStep event now.now true self.old self.new
            (shelf_view (S.holds shelf.old) (S.faults shelf.old))
            (shelf_view (S.holds shelf.new) (S.faults shelf.new)) }
        ensures memory { result ≡ Stepped.Memory → self.new.spent ≡ true }
        ensures broken { result ≡ Stepped.Memory → HasBrokenStep event now.now self.old.state
            (shelf_view (S.holds shelf.old) (S.faults shelf.old))
            (shelf_view (S.holds shelf.new) (S.faults shelf.new)) }
        ensures moves { OnlyMovesBy event self.old.state → result ≡ Stepped.More }
        ensures sheet { OnlyMovesBy event self.old.state → IsMoved (sheet_of self.old.state) (sheet_of self.new.state) }
        ensures lines { self.new.spent ≡ false → Unchanged changed.new (screen self.old.state) (screen self.new.state) }
    {
        let before = glance_before(&self.machine, changed);
        self.machine.begin();
        match self.machine.do_event(event, now, shelf) {
            Ok(taken) => {
                let stepped = Stepped::of(taken.ends);
                let freezes = self.machine.follow(now);
                *changed = lines_behind(before, freezes, taken.touched, &self.machine);
                stepped
            }
            Err(Memory) => {
                self.spent = true;
                Stepped::Memory
            }
        }
    }

    /// Whether the last step refused something: it told an error, its finished line has a fault, or a letter took no
    /// item of a menu or of a choice.
    pub fn has_refused(&self) -> bool
        ensures { result ≡ is_some (refused self.now.state) }
    {
        self.machine.has_refused()
    }

    /// What the last step refused, as it is told: the error's message, the line with the place of its fault, or the
    /// letter; nothing where it refused nothing (this project's choice).
    pub fn refusal(&self) -> RefusedText<'_>
        ensures joined { joined result ≡ unwrap_or (refused self.now.state) [] }
        ensures short { length result.front ≤ 40 }
        ensures fits { length result.text.now ≤ MAX_LEN }
    {
        self.machine.refusal()
    }

    /// Whether nothing is left undone: the session is in READY, and no macro is at work.
    pub fn is_at_rest(&self) -> bool
        ensures { result ≡ is_at_rest self.now.state }
    {
        self.machine.is_at_rest()
    }

    /// The mode that the session is left in, or CMD where that is READY.
    pub fn left_in(&self) -> &'static [u8]
        ensures text { result.now ≡ left_in self.now.state }
        ensures short { length result.now ≤ 5 }
    {
        self.machine.left_in()
    }

    /// Paints the lines of a set over a screen that has the others in common with the session's, which it becomes.
    pub fn paint_lines(&self, lines: &LineSet, shown: &mut Screen)
        requires { Unchanged lines.now shown.old (screen self.now.state) }
        ensures { shown.new ≡ screen self.now.state }
    {
        self.machine.paint_lines(lines, shown);
    }

    /// No byte of the session's screen is below 32. It does nothing, and is called for its clause.
    pub fn is_printed(&self)
        ensures { IsPrinted (screen self.now.state) }
    {
        self.machine.is_printed();
    }
}
