// The work of recalculation.
ghost use Rattle.std.specs.Prelude.{ℕ, List};
ghost use Rattle.work_sheet.specs.Did.{Did};
ghost use Rattle.work_sheet.specs.Doing.{and_then, Done, Happened};
ghost use Rattle.work_sheet.specs.Seen.{of_worksheet, Sheet};
ghost use Rattle.work_sheet.specs.Sheets.{Worksheet};
ghost use Rattle.work_sheet.specs.Work.{HasWorked, IsSameWork, Work};

/// What happened in a sheet leaves no more than one set of dirty formulas, and one count of evaluations.
pub fn what_happened_tells_the_work()
    ensures { (log : List Happened) (a b c d : Work) →
        IsSameWork a b → HasWorked log a c → HasWorked log b d → IsSameWork c d }
{}

/// What was done to a sheet, and then an act on what it became, is the one and then the other.
pub fn what_was_done_is_composed()
    ensures { (d : Done) (act : Sheet → Done) (a b c : Worksheet) (m n o : ℕ) →
        Did d a b m n → Did (act (of_worksheet b)) b c n o → Did (and_then d act) a c m o }
{}

/// Whatever happened in a sheet leaves some dirty formulas, and some count of evaluations.
pub fn what_happened_has_its_work()
    ensures { (log : List Happened) (w : Work) → (v : Work) × HasWorked log w v }
{}
