// The recalculation of a span by a word, pass after pass.
ghost use Rattle.std.specs.Prelude.{◌≡◌, IfOk, OnOk};
ghost use Rattle.macro_engine.specs.Changes as spec;
ghost use Rattle.work_sheet.specs.Did.{Did};
ghost use Rattle.work_sheet.specs.Seen.{of_worksheet};

use formula_eval::{Tally, glance};
use formula_parts::Scene;
use lics_text::Memory;
use macro_words::{Sweep, is_true};
use work_sheet::Worksheet;

// Whether the condition is a number other than 0. It is glanced at, and no evaluation is counted.
fn is_met(sweep: &Sweep, sheet: &Worksheet, scene: &Scene) -> Result<bool, Memory>
    ensures { IfOk result (λ b. b ≡ spec.is_met scene.entry.now sweep.now (of_worksheet sheet.now)) }
{
    match &sweep.until {
        None => Ok(false),
        Some(formula) => {
            let value = glance(formula, sweep.at, sheet, scene)?;
            Ok(is_true(&value))
        }
    }
}

/// Makes the passes over a span: as many as there may be, or up to the first one after which the condition is met.
pub fn sweep_span(
    sweep: &Sweep,
    sheet: &mut Worksheet,
    scene: &Scene,
    tally: &mut Tally,
) -> Result<(), Memory>
    ensures { let done = spec.swept_within sweep.now.most scene.entry.now sweep.now (of_worksheet sheet.old) in
        OnOk result (Did done sheet.old sheet.new tally.old.count tally.new.count) }
{
    for pass in 0..sweep.most {
        let _ = pass;
        sheet.recalc_span(sweep.span, sweep.by_columns, scene, tally)?;
        if is_met(sweep, sheet, scene)? {
            return Ok(());
        }
    }
    Ok(())
}
