// The recalculation behind an edit.
ghost use Rattle.std.specs.Prelude.{◌≡◌, OnOk};
ghost use Rattle.formula_eval.specs.Mean.{mean};
ghost use Rattle.work_sheet.specs.Did.{Did};
ghost use Rattle.work_sheet.specs.Doing.{settled};
ghost use Rattle.work_sheet.specs.Seen.{of_worksheet};

use formula_eval::Tally;
use formula_parts::Scene;
use lics_text::Memory;
use work_sheet::Worksheet;

/// In Automatic mode all is recalculated (Release 2 manual).
pub fn settle(sheet: &mut Worksheet, scene: &Scene, tally: &mut Tally) -> Result<(), Memory>
    ensures { let done = settled mean scene.entry.now (of_worksheet sheet.old) in
        OnOk result (Did done sheet.old sheet.new tally.old.count tally.new.count) }
{
    if sheet.settings().automatic {
        sheet.calc(scene, tally)?;
    }
    Ok(())
}
