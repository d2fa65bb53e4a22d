// Words on the text file that macros read and write.
ghost use Rattle.std.specs.Prelude.{◌≡◌, false, IfOk, OnErr, OnOk};
ghost use Rattle.commands_file.specs.Calls.{shelf_view};
ghost use Rattle.session_core.specs.inner.Leading.{BreaksOver, Leads, LeadsOver};
ghost use Rattle.session_core.specs.Step.{by_file, by_word, protected_target, served_as};
ghost use Rattle.session_core.specs.inner.Touches.{HasTouched};

use crate::machine::{Machine, UNTOUCHED, WORKED};
use crate::touched::Taken;
use desk_errors::CommandError;
use file_words::{serve, target_of};
use formula_parts::{Look, Scene};
use grid_address::Cell;
use lics_text::Memory;
use macro_words::{Deed, FileDeed};
use outside_world::Shelf;
use serial_date::Moment;

impl Machine {
    // The cell that a word would write, where it is protected.
    fn protected_target(&self, target: Option<Cell>) -> Option<Cell>
        ensures { result ≡ protected_target target self.now.state }
    {
        let sheet = &self.desk.sheet;
        match target {
            Some(cell) => {
                if sheet.settings().protection && sheet.format(cell).is_protected() {
                    Some(cell)
                } else {
                    None
                }
            }
            None => None,
        }
    }

    // The macro does what its word came to; where the shelf failed, that is an error.
    fn do_served(&mut self, deed: Option<Deed>, scene: &Scene) -> Result<(), Memory>
        ensures { OnOk result (Leads (served_as deed scene.entry.now self.old.state) false self.old self.new) }
    {
        match deed {
            Some(deed) => {
                self.engine
                    .carry(deed, &mut self.desk.sheet, scene, &mut self.tally)?;
                Ok(())
            }
            None => {
                self.fail(CommandError::DiskError, scene)?;
                Ok(())
            }
        }
    }

    // A word is carried out over the text file that is attached and the shelf.
    fn serve<S: Shelf>(&mut self, deed: FileDeed, now: &Moment, shelf: &mut S) -> Result<(), Memory>
        ensures ok { OnOk result (LeadsOver (by_word deed) now.now false self.old self.new
            (shelf_view (S.holds shelf.old) (S.faults shelf.old))
            (shelf_view (S.holds shelf.new) (S.faults shelf.new))) }
        ensures memory { OnErr result (BreaksOver (by_word deed) now.now self.old.state
            (shelf_view (S.holds shelf.old) (S.faults shelf.old))
            (shelf_view (S.holds shelf.new) (S.faults shelf.new))) }
    {
        let scene = self.scene(now);
        let alloc = self.desk.sheet.alloc();
        let served = serve(alloc, deed, &mut self.channel, shelf)?;
        self.do_served(served, &scene)
    }

    /// A word on a text file. Where the cell is protected that it would write, that is an error before anything is
    /// done.
    pub fn do_on_file<S: Shelf>(
        &mut self,
        deed: FileDeed,
        now: &Moment,
        shelf: &mut S,
    ) -> Result<Taken, Memory>
        ensures ok { IfOk result (λ t. LeadsOver (by_file deed) now.now t.ends self.old self.new
            (shelf_view (S.holds shelf.old) (S.faults shelf.old))
            (shelf_view (S.holds shelf.new) (S.faults shelf.new))) }
        ensures memory { OnErr result (BreaksOver (by_file deed) now.now self.old.state
            (shelf_view (S.holds shelf.old) (S.faults shelf.old))
            (shelf_view (S.holds shelf.new) (S.faults shelf.new))) }
        ensures touched { IfOk result (λ t. HasTouched t.touched self.old.state self.new.state) }
    {
        match self.protected_target(target_of(&deed.word)) {
            Some(cell) => {
                let scene = self.scene(now);
                let touched = self.fail(CommandError::Protected(cell), &scene)?;
                Ok(Taken {
                    touched,
                    ..UNTOUCHED
                })
            }
            None => {
                self.serve(deed, now, shelf)?;
                Ok(WORKED)
            }
        }
    }
}
