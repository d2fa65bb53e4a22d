// What undo gives back.
ghost use Rattle.std.specs.Prelude.{◌≡◌, ◌≤◌, ◌∷◌, length, List};
ghost use Rattle.sheet_undo.specs.Histories.{all_kept, undone, Sheet};

/// As many undos as states were kept, at most 20 of them, make the sheet the first of these. Nothing is done here: the
/// contract says it.
pub fn as_many_undos_give_the_first_state()
    ensures { (s : Sheet) (ss kept : List Sheet) (now : Sheet) → length (s ∷ ss) ≤ 20 →
        undone (length (s ∷ ss)) (all_kept (s ∷ ss) kept) now ≡ s }
{}
