// What of the screen stands still.
ghost use Rattle.std.specs.Prelude.{◌≡◌, false, option_copied, List, ℕ};
ghost use Rattle.screen_show.specs.Screen.{IsPrinted};
ghost use Rattle.session_core.specs.Machine.{unfrozen};
ghost use Rattle.session_core.specs.Frozen as spec;
ghost use Rattle.session_core.specs.inner.Still.{ArePrinted, still_of};

use crate::glance::Still;
use macro_words::Switches;
use screen_show::Screen;
use std::marker::Model;

/// The screens whose lines stand still, where a macro has switched the panel or the windows off: lines 0 to 2 of the
/// one, and lines 3 to 23 of the other.
#[derive(Drop)]
pub struct Frozen {
    panel: Option<Screen>,
    windows: Option<Screen>,
}

impl Model for Frozen {
    ghost use Rattle.session_core.specs.Machine.{FrozenAreas};
    ghost use Rattle.session_core.specs.inner.Still.{ArePrinted};

    ghost Value = { FrozenAreas };

    ghost view = { λ f. record { panel = f.panel; windows = f.windows } };

    ghost invariant = { λ f. ArePrinted f.panel × ArePrinted f.windows };
}

// Whether an area is switched off, and isn't held yet.
fn lacks_area(on: bool, held: &Option<Screen>) -> bool
    ensures { result ≡ spec.lacks_area on held.now }
{
    !on && held.is_none()
}

// An area that is on isn't held. A screen is large, and is let go only where there is one.
#[tactic(auto, using(crate::proofs::Still::hold_gone, crate::proofs::Still::hold_none, crate::proofs::Still::let_stay))]
fn let_go(on: bool, held: &mut Option<Screen>)
    requires { spec.lacks_area on held.old ≡ false }
    ensures held { (before : List (List ℕ)) → held.new ≡ spec.frozen_by on before held.old }
    ensures printed { ArePrinted held.old → ArePrinted held.new }
{
    let is_held = held.is_some();
    if on {
        if is_held {
            *held = None;
        }
    }
}

// An area that is switched off is held as this screen shows it, unless it is held already; one that is on isn't held.
#[tactic(auto, using(crate::proofs::Still::hold_gone, crate::proofs::Still::hold_none, crate::proofs::Still::hold_taken, crate::proofs::Still::hold_kept))]
fn hold(on: bool, before: &Screen, held: &mut Option<Screen>)
    ensures { held.new ≡ spec.frozen_by on before.now held.old }
{
    let is_held = held.is_some();
    if on {
        if is_held {
            *held = None;
        }
    } else if !is_held {
        *held = Some(*before);
    }
}

impl Frozen {
    /// Nothing stands still.
    pub fn none() -> Frozen
        ensures { result ≡ unfrozen }
    {
        Frozen {
            panel: None,
            windows: None,
        }
    }

    /// Which areas stand still.
    pub fn still(&self) -> Still
        ensures { result ≡ still_of self.now }
    {
        Still {
            panel: self.panel.is_some(),
            windows: self.windows.is_some(),
        }
    }

    /// The screen as which a line stands still, if it does.
    pub fn held_at(&self, line: u8) -> Option<&Screen>
        ensures { option_copied result ≡ spec.held_at self.now line }
    {
        if line < 3 {
            self.panel.as_ref()
        } else if line < 24 {
            self.windows.as_ref()
        } else {
            None
        }
    }

    /// No byte of what is held is below a space. It does nothing, and is called for its clause.
    pub fn is_printed(&self)
        ensures { ArePrinted self.now.panel × ArePrinted self.now.windows }
    {
        let _panel = &self.panel;
    }

    /// Whether an area is switched off that doesn't stand still yet.
    pub fn lacks(&self, switches: Switches) -> bool
        ensures { result ≡ spec.lacks switches self.now }
    {
        lacks_area(switches.panel, &self.panel) || lacks_area(switches.windows, &self.windows)
    }

    /// What is switched off stands still already; what is on doesn't any more.
    pub fn let_go(&mut self, switches: Switches)
        requires { spec.lacks switches self.old ≡ false }
        ensures { (before : List (List ℕ)) → self.new ≡ spec.frozen_after before switches self.old }
    {
        let_go(switches.panel, &mut self.panel);
        let_go(switches.windows, &mut self.windows);
    }

    /// What is switched off stands still as this screen shows it, unless it does already; what is on doesn't.
    pub fn follow(&mut self, switches: Switches, before: &Screen)
        requires { IsPrinted before.now }
        ensures { self.new ≡ spec.frozen_after before.now switches self.old }
    {
        hold(switches.panel, before, &mut self.panel);
        hold(switches.windows, before, &mut self.windows);
    }
}
