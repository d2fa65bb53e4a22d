// What gives formulas their values.
ghost use Rattle.std.specs.Prelude.{◌≡◌, ℕ, ◌+◌, ◌-◌, ◌^◌, min, IfOk, IfSome, false};
ghost use Rattle.grid_address.specs.Place.{Place};
ghost use Rattle.formula_tree.specs.Spans.{is_volatile};
ghost use Rattle.formula_tree.specs.Tree.{Tree};
ghost use Rattle.formula_tree.specs.declared.value.Value.{Value};
ghost use Rattle.formula_tree.specs.declared.value.Value.TheVariants as value;
ghost use Rattle.formula_parts.specs.inner.Kept.{IsKept};
ghost use Rattle.formula_eval.specs.inner.Laws.{never_blank, reads_alone};
ghost use Rattle.formula_eval.specs.Mean.{mean, Reads};
ghost use Rattle.formula_parts.specs.Outlook.{Outlook};
ghost use Rattle.formula_parts.specs.declared.look.Scene.{Scene};
ghost use Rattle.formula_parts.specs.Scenes.{outlook_of};

use crate::meaning::{Tally, evaluate, number};
use fixed_value::Fixed;
use formula_parts::{Kept, Look, Scene};
use formula_tree::{Formula, Value};
use grid_address::Cell;
use lics_text::Memory;

/// What a sheet evaluates with: it gives each formula its meaning, and counts how often it did. Its meaning is never
/// blank, and what a formula means that isn't volatile hangs on the values of the cells alone that the formula reads.
pub trait Means {
    ghost meaning: { Tree → Place → Outlook → Value };

    ghost count: { Self → ℕ };

    /// The number that a formula means in every scene, where it is made of numbers or cells with one; none where it is
    /// found otherwise. It isn't counted.
    fn number<K: Look>(&self, formula: &Formula, at: Cell, look: &K) -> Option<Fixed>
        ensures { IfSome result
            (λ n. (s : Scene) → meaning formula.now at (outlook_of (K.sight look.now) s) ≡ value.Num n) };

    /// Counts an evaluation: the count rises by one, or stays at the last u64.
    fn rise(&mut self)
        ensures { count self.new ≡ min (count self.old + 1) (2 ^ 64 - 1) };

    /// The meaning of a formula that stands in a cell, with what was kept of the values as they stand. The count rises
    /// by one, or stays at the last u64.
    fn evaluate<K: Look>(
        &mut self,
        formula: &Formula,
        at: Cell,
        look: &K,
        scene: &Scene,
        kept: &mut Kept,
    ) -> Result<Value, Memory>
        requires { IsKept kept.old (K.sight look.now).values }
        ensures value { IfOk result (λ v. v ≡ meaning formula.now at (outlook_of (K.sight look.now) scene.entry.now)) }
        ensures counted { count self.new ≡ min (count self.old + 1) (2 ^ 64 - 1) }
        ensures kept { IsKept kept.new (K.sight look.now).values };

    ghost never_blank: { (t : Tree) (at : Place) (w : Outlook) → meaning t at w ≡ value.Blank → ⊥ };

    ghost reads_alone: { (t : Tree) (at : Place) (w u : Outlook) → is_volatile t ≡ false
        → ((c : Place) → Reads t at c → w.sight.values c ≡ u.sight.values c) → meaning t at w ≡ meaning t at u };
}

impl Means for Tally {
    ghost meaning = { mean };

    ghost count = { λ t. t.count };

    ghost never_blank = { never_blank };

    ghost reads_alone = { reads_alone };

    #[inline(always)]
    fn number<K: Look>(&self, formula: &Formula, at: Cell, look: &K) -> Option<Fixed> {
        number(formula, at, look)
    }

    #[inline(always)]
    fn rise(&mut self) {
        self.count_one();
    }

    #[inline(always)]
    fn evaluate<K: Look>(
        &mut self,
        formula: &Formula,
        at: Cell,
        look: &K,
        scene: &Scene,
        kept: &mut Kept,
    ) -> Result<Value, Memory> {
        evaluate(formula, at, look, scene, self, kept)
    }
}
