// From a formula to its value.
ghost use Rattle.std.specs.Prelude.{◌≡◌, ◌+◌, ◌-◌, ◌^◌, min, IfOk, IfSome};
ghost use Rattle.formula_tree.specs.declared.value.Value.TheVariants as value;
ghost use Rattle.formula_parts.specs.declared.look.Scene.{Scene};
ghost use Rattle.formula_parts.specs.inner.Kept.{IsKept};
ghost use Rattle.formula_eval.specs.Mean.{mean};
ghost use Rattle.formula_parts.specs.Parts.{filled_in};
ghost use Rattle.formula_parts.specs.Outlook.{Sight};
ghost use Rattle.formula_parts.specs.Scenes.{outlook_of};
ghost use Rattle.formula_parts.specs.Standpoints.{outlook_from};

use fixed_value::Fixed;
use formula_parts::{
    Kept, Look, Scene, Standpoint, composed, filled_in, number_within, plain_number, value_of,
};
use formula_tree::{Formula, Value};
use grid_address::Cell;
use lics_text::Memory;
use record_match::Recorded;

/// A count of evaluations. It stays at the last number that it can hold.
#[derive(Clone, Copy, Drop)]
pub struct Tally {
    count: u64,
}

impl Tally {
    /// No evaluation.
    pub fn new() -> Tally
        ensures { result.count ≡ 0 }
    {
        Tally { count: 0 }
    }

    /// How many evaluations were counted.
    pub fn count(&self) -> u64
        ensures { result ≡ self.now.count }
    {
        self.count
    }

    // Counts an evaluation.
    #[inline(always)]
    pub(crate) fn count_one(&mut self)
        ensures { self.new.count ≡ min (self.old.count + 1) (2 ^ 64 - 1) }
    {
        self.count = self.count.saturating_add(1);
    }
}

/// The value of a formula that stands in a cell, by what it looks at; it isn't counted.
#[tactic(auto, unfolding(crate::specs::Mean::mean))]
pub fn glance<K: Look>(
    formula: &Formula,
    at: Cell,
    look: &K,
    scene: &Scene,
) -> Result<Value, Memory>
    ensures { IfOk result (λ v. v ≡ mean formula.now at (outlook_of (K.sight look.now) scene.entry.now)) }
{
    let from = Standpoint {
        alloc: formula.alloc(),
        at,
        look,
        scene,
    };
    let value = composed(&from, &Recorded, formula.expr())?;
    Ok(filled_in(value))
}

// The value of a formula that may not be made of numbers alone. A call of its own, since it takes much of the stack.
#[inline(never)]
#[tactic(auto, unfolding(crate::specs::Mean::mean))]
fn other_value<K: Look>(formula: &Formula, from: &Standpoint<'_, K>) -> Result<Value, Memory>
    ensures { IfOk result (λ v. v ≡ mean formula.now from.now.at (outlook_from K.Look from.now)) }
{
    let value = value_of(from, &Recorded, formula.expr())?;
    Ok(filled_in(value))
}

/// The number of a formula that is an operator between two parts that are numbers, or cells with one; none for any
/// other formula.
#[inline(always)]
#[tactic(auto, unfolding(crate::specs::Mean::mean))]
pub fn number<K: Look>(formula: &Formula, at: Cell, look: &K) -> Option<Fixed>
    ensures { IfSome result
        (λ n. (s : Scene) → mean formula.now at (outlook_of (K.sight look.now) s) ≡ value.Num n) }
{
    plain_number(formula.expr(), at, look)
}

/// The value of a formula that stands in a cell, by what it looks at and what was kept of that. The tally rises by one,
/// or stays at its last. A formula of numbers alone is evaluated without the stack that others take.
#[inline(always)]
#[tactic(auto, unfolding(crate::specs::Mean::mean))]
pub fn evaluate<K: Look>(
    formula: &Formula,
    at: Cell,
    look: &K,
    scene: &Scene,
    tally: &mut Tally,
    kept: &mut Kept,
) -> Result<Value, Memory>
    requires { IsKept kept.old (K.sight look.now).values }
    ensures value { IfOk result (λ v. v ≡ mean formula.now at (outlook_of (K.sight look.now) scene.entry.now)) }
    ensures counted { tally.new.count ≡ min (tally.old.count + 1) (2 ^ 64 - 1) }
    ensures kept { IsKept kept.new (K.sight look.now).values }
{
    tally.count_one();
    match number_within(formula.expr(), at, look, kept) {
        Some(number) => Ok(Value::Num(number)),
        None => {
            let from = Standpoint {
                alloc: formula.alloc(),
                at,
                look,
                scene,
            };
            other_value(formula, &from)
        }
    }
}
