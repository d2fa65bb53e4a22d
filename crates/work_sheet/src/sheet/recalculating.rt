// How a sheet is recalculated.
ghost use Rattle.std.specs.Prelude.{◌≡◌, OnErr, OnOk};
ghost use Rattle.recalculation.specs.Passes.{IsPlain, IsRight, SameContents};
ghost use Rattle.sheet_store.specs.declared.order.Order.TheVariants as orders;
ghost use Rattle.work_sheet.specs.Did.{Did};
ghost use Rattle.work_sheet.specs.Doing.{context_in, recalculated};
ghost use Rattle.work_sheet.specs.Seen.{of_worksheet};
ghost use Rattle.work_sheet.specs.Spans.{span_recalculated};

use super::WorksheetOf;
use formula_eval::Means;
use formula_parts::Scene;
use grid_address::Span;
use lics_text::Memory;
use recalculation::{ContextRef, recalc, recalc_span};

impl<E: Means> WorksheetOf<E> {
    /// Recalculates in the order of the settings, with as many passes. In the natural order, where no formula is
    /// volatile and none reaches itself, the value of each is then its meaning.
    pub fn calc(&mut self, scene: &Scene, tally: &mut E) -> Result<(), Memory>
        ensures did { OnOk result
            (Did (recalculated E.meaning scene.entry.now (of_worksheet self.old)) self.old self.new (E.count tally.old)
            (E.count tally.new)) }
        ensures right { OnOk result
            (self.old.settings.order ≡ orders.Natural → IsPlain self.old.grid →
            IsRight E.meaning (context_in scene.entry.now (of_worksheet self.old)) self.new.grid) }
        ensures contents { SameContents self.old.grid self.new.grid }
        ensures err { OnErr result (self.new ≡ record self.old { grid = self.new.grid }) }
    {
        let settings = self.settings;
        self.past.note_set(&self.store, &self.dirty)?;
        let context = ContextRef {
            names: &self.names,
            settings: &settings,
            scene,
        };
        let circ = recalc(
            &mut self.store,
            &self.graph,
            &mut self.dirty,
            &context,
            tally,
        )?;
        let _ = self.dirty.len();
        self.circular = circ.0;
        self.stale = false;
        Ok(())
    }

    /// Evaluates each formula of a span once over the values as they then stand, by column and then by row or by row
    /// and then by column. Formulas that aren't dirty have their meaning already, so only the dirty ones are evaluated;
    /// these stay dirty, and the circle and the mark of a change stay. (Release 2 manual for the two orders.)
    pub fn recalc_span(
        &mut self,
        span: Span,
        by_columns: bool,
        scene: &Scene,
        tally: &mut E,
    ) -> Result<(), Memory>
        ensures did { OnOk result
            (Did (span_recalculated E.meaning scene.entry.now span by_columns (of_worksheet self.old)) self.old self.new
            (E.count tally.old) (E.count tally.new)) }
        ensures contents { SameContents self.old.grid self.new.grid }
        ensures err { OnErr result (self.new ≡ record self.old { grid = self.new.grid }) }
    {
        let settings = self.settings;
        let formulas = self.store.formulas_in(span)?;
        self.past.note(&self.store, formulas.as_slice())?;
        let context = ContextRef {
            names: &self.names,
            settings: &settings,
            scene,
        };
        recalc_span(
            &mut self.store,
            &self.dirty,
            span,
            by_columns,
            &context,
            tally,
        )?;
        Ok(())
    }
}
