// What the definition of calls tells.
ghost use Rattle.std.specs.Prelude.{◌≡◌};
ghost use Rattle.commands_file.specs.Alike.{HoldAlike};
ghost use Rattle.commands_file.specs.Calls.{failed, IsTold, Reply, ShelfCall, ShelfView};

/// A call that doesn't fail has one answer, by the files that the shelf holds, and leaves the same files. Nothing is
/// done here: the contract says it.
pub fn a_call_has_one_answer()
    ensures { (call : ShelfCall) (one other : Reply) (a b c d : ShelfView) → HoldAlike a b → (one ≡ failed → ⊥) →
        (other ≡ failed → ⊥) → IsTold call one a.told c.told → IsTold call other b.told d.told →
        (one ≡ other) × HoldAlike c d }
{}
