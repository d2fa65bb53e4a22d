// How what is shown follows a step.
ghost use Rattle.std.specs.Prelude.{◌≡◌};
ghost use Rattle.session_core.specs.Frozen.{lacks, switches_of};
ghost use Rattle.session_core.specs.Step.{framed, frozen_as_shown};

use super::Machine;
use macro_words::{ALL_ON, Switches};
use screen_layout::corner_for;
use serial_date::Moment;

impl Machine {
    // What the macro that runs has switched on.
    fn switches(&self) -> Switches
        ensures { result ≡ switches_of self.now.state.running }
    {
        match self.engine.running() {
            Some(running) => running.switches,
            None => ALL_ON,
        }
    }

    // What is switched off stands still as it is shown, unless it does already; whether an area does newly.
    fn freeze(&mut self) -> bool
        ensures state { self.new.state ≡ frozen_as_shown self.old.state }
        ensures work { self.new.work ≡ self.old.work }
        ensures newly { result ≡ lacks (switches_of self.old.state.running) self.old.state.frozen }
    {
        let switches = self.switches();
        if !self.frozen.lacks(switches) {
            self.frozen.let_go(switches);
            return false;
        }
        let shown = self.paint();
        self.frozen.follow(switches, &shown);
        true
    }

    /// The screen follows the pointer, at this moment; what is switched off stands still as it is shown before that.
    /// Whether an area does newly.
    pub fn follow(&mut self, now: &Moment) -> bool
        ensures state { self.new.state ≡ framed now.now self.old.state }
        ensures work { self.new.work ≡ self.old.work }
        ensures newly { result ≡ lacks (switches_of self.old.state.running) self.old.state.frozen }
    {
        let is_new = self.freeze();
        self.corner = corner_for(&self.desk.sheet, self.corner);
        self.moment = *now;
        is_new
    }
}
