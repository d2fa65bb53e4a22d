// Laws of recalculation. Each function does nothing, and stands for its clause.
ghost use Rattle.recalculation.specs.Context.{Context};
ghost use Rattle.recalculation.specs.InOrder.{AnyOrderServes};
ghost use Rattle.recalculation.specs.Passes.{EditKeepsSound, RecalculationIsCut};

use formula_eval::Means;

/// All passes over all formulas are one pass over the dirty ones, and the further ones over those that stay dirty.
pub fn recalculation_is_cut<E: Means>()
    ensures { (x : Context) → RecalculationIsCut E.meaning x }
{}

/// An edit that makes dirty the formulas which it writes and all that reach them keeps what holds of the dirty ones.
pub fn edit_keeps_sound<E: Means>()
    ensures { (x : Context) → EditKeepsSound E.meaning x }
{}

/// One pass over the dirty formulas in any order in which each comes after all of them that it reads is one pass over
/// all in their natural order, and no circle is told.
pub fn any_order_serves<E: Means>()
    ensures { (x : Context) → AnyOrderServes E.meaning x }
{}
