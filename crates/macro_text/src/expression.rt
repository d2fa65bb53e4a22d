// Arguments that are expressions.
ghost use Rattle.std.specs.Prelude.{◌≡◌, ◌≤◌, IfOk, IfSome};
ghost use Rattle.at_functions.specs.Numbers as numbers;
ghost use Rattle.formula_parts.specs.Scenes.{outlook_of};
ghost use Rattle.macro_text.specs.Arguments as spec;
ghost use Rattle.macro_text.specs.Read.{IsRead};

use at_functions::whole;
use fixed_value::Fixed;
use formula_eval::glance;
use formula_parts::{Look, Scene};
use formula_text::{ParseFault, read};
use formula_tree::{Formula, Value};
use grid_address::Cell;
use lics_text::Memory;
use std::alloc::Global;

/// The formula that a text spells where it stands in a cell; none where it spells none.
pub fn formula_in<K: Look>(
    alloc: Global,
    text: &[u8],
    at: Cell,
    look: &K,
    scene: &Scene,
) -> Result<Option<Formula>, Memory>
    ensures { let outlook = outlook_of (K.sight look.now) scene.entry.now in
        IfOk result (λ f. f ≡ spec.formula_in outlook at text.now) }
{
    match read(alloc, text, at, look.names()) {
        Ok(formula) => Ok(Some(formula)),
        Err(ParseFault::Memory) => Err(Memory),
        Err(_) => Ok(None),
    }
}

/// The value of an expression that stands in a cell; none where the text is no formula. No evaluation is counted.
pub fn expression_value<K: Look>(
    alloc: Global,
    text: &[u8],
    at: Cell,
    look: &K,
    scene: &Scene,
) -> Result<Option<Value>, Memory>
    ensures { let outlook = outlook_of (K.sight look.now) scene.entry.now in
        IfOk result (λ v. v ≡ spec.expression_value outlook at text.now) }
{
    match formula_in(alloc, text, at, look, scene)? {
        Some(formula) => Ok(Some(glance(&formula, at, look, scene)?)),
        None => Ok(None),
    }
}

/// The same, where the text's formula may have been read already.
pub fn read_value<K: Look>(
    alloc: Global,
    text: &[u8],
    formula: Option<&Formula>,
    at: Cell,
    look: &K,
    scene: &Scene,
) -> Result<Option<Value>, Memory>
    requires { IfSome formula (λ f. IsRead at text.now f.now) }
    ensures { let outlook = outlook_of (K.sight look.now) scene.entry.now in
        IfOk result (λ v. v ≡ spec.expression_value outlook at text.now) }
{
    match formula {
        Some(formula) => Ok(Some(glance(formula, at, look, scene)?)),
        None => expression_value(alloc, text, at, look, scene),
    }
}

// The number that a value is.
fn number_or_none(value: &Option<Value>) -> Option<Fixed>
    ensures { result ≡ spec.number_or_none value.now }
{
    match value {
        Some(Value::Num(number)) => Some(*number),
        Some(Value::Blank) => None,
        Some(Value::Str(_)) => None,
        Some(Value::Err) => None,
        Some(Value::Na) => None,
        None => None,
    }
}

/// The number that an expression in a cell has as its value; none where it is no formula, or its value no number.
pub fn number_of<K: Look>(
    alloc: Global,
    text: &[u8],
    at: Cell,
    look: &K,
    scene: &Scene,
) -> Result<Option<Fixed>, Memory>
    ensures { let outlook = outlook_of (K.sight look.now) scene.entry.now in
        IfOk result (λ n. n ≡ spec.number_of outlook at text.now) }
{
    let value = expression_value(alloc, text, at, look, scene)?;
    Ok(number_or_none(&value))
}

/// How often a number tells: cut toward zero, and none below that.
pub fn count_of(number: Fixed) -> Option<u32>
    ensures count { result ≡ numbers.count_of number }
    ensures most { IfSome result (λ n. n ≤ 999999999) }
{
    let number = whole(number);
    if number < 0 {
        None
    } else {
        Some(number as u32)
    }
}
