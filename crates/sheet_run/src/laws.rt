// What the definition of a run tells.
ghost use Rattle.std.specs.Prelude.{◌≡◌, ◌≤◌, ℕ, length, List, []};
ghost use Rattle.serial_date.specs.declared.moment.Moment.{Moment};
ghost use Rattle.session_core.specs.Machine.{State};
ghost use Rattle.session_core.specs.Undoing.{Rests};
ghost use Rattle.sheet_run.specs.Outcome.{AreAlike, HaveOneOutcome, WentWell};
ghost use Rattle.sheet_run.specs.Run.{Step};
ghost use Rattle.sheet_run.specs.Status.{IsRun, Surroundings};
ghost use Rattle.sheet_run.specs.Undoing.{after_all, AreCommands, AreUndos, GiveBack};

/// Words, keys, files and readings leave one outcome: two runs over the same words, in which no call failed and memory
/// lasted, that begin alike end alike, with one status and one count of evaluations. Alike means that the keys, the
/// clock and the shelf tell all of their content, and the same, and that the displays and the notes tell the same: so
/// they showed the same screens, left the same files and the same notes, and took the same bytes and readings. The
/// limit of steps is one of the words. There are such runs: one without words and keys, at any reading, is one. Nothing
/// is done here: the contract says it.
pub fn a_run_has_one_outcome()
    ensures one { (words : List (List ℕ)) (a b c d : Surroundings) (m n : ℕ) (one : IsRun words a c m)
        (other : IsRun words b d n) → AreAlike a b → WentWell a c m → WentWell b d n → HaveOneOutcome one other }
    ensures such { (first : Moment) → (before : Surroundings) × (now : Surroundings) × IsRun [] before now 0
        × AreAlike before before × WentWell before now 0 }
{}

/// As many UNDO steps as commands that changed the sheet, at most 20 of them from READY outside a macro on, give the
/// whole sheet back: its cells and values, names, columns, settings, pointer and marks. What commands keep beside the
/// sheet stays, and so do the files. A command begins and ends in READY outside a macro, and its steps are any that a
/// run may make: one in which memory ran out is none of them. Nothing is done here: the contract says it.
pub fn as_many_undos_give_the_sheet_back()
    ensures { (s : State) (commands : List (List Step)) (undos : List Step) → Rests s → AreCommands s commands →
        length commands ≤ 20 → AreUndos undos → length undos ≡ length commands →
        GiveBack s (after_all s commands) undos }
{}
