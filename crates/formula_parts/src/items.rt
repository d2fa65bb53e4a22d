// Items of lists.
ghost use Rattle.std.specs.Prelude.{◌≡◌, ◌++◌, OnOk};
ghost use Rattle.std.specs.Int.RustNames.{int_lt};
ghost use Rattle.formula_tree.specs.Seen.{seen_value};
ghost use Rattle.formula_parts.specs.Lists.{alone, in_range, larger, scalar, size_of, smaller};

use fixed_value::Fixed;
use formula_tree::{Value, ValueRef};
use lics_text::Memory;

/// An item of a list: a number, ERR or NA.
#[derive(Clone, Copy)]
pub enum Item {
    Err,
    Na,
    Is(Fixed),
}

/// A cell that is given alone: a blank one and a label count as 0.
pub fn alone(value: &ValueRef<'_>) -> Item
    ensures { result ≡ alone (seen_value value.now) }
{
    match value {
        ValueRef::Num(number) => Item::Is(*number),
        ValueRef::Blank | ValueRef::Str(_) => Item::Is(Fixed::ZERO),
        ValueRef::Err => Item::Err,
        ValueRef::Na => Item::Na,
    }
}

/// Any other value: a text is ERR.
pub fn scalar(value: &Value) -> Item
    ensures { result ≡ scalar value.now }
{
    match value {
        Value::Num(number) => Item::Is(*number),
        Value::Blank => Item::Is(Fixed::ZERO),
        Value::Str(_) | Value::Err => Item::Err,
        Value::Na => Item::Na,
    }
}

/// A cell of a range: a blank one is passed over, and a label counts as 0.
pub fn put_cell(items: &mut Vec<Item>, value: &ValueRef<'_>) -> Result<(), Memory>
    ensures { OnOk result (items.new.items ≡ items.old.items ++ in_range (seen_value value.now)) }
{
    match value {
        ValueRef::Blank => {}
        ValueRef::Num(number) => items.push(Item::Is(*number))?,
        ValueRef::Str(_) => items.push(Item::Is(Fixed::ZERO))?,
        ValueRef::Err => items.push(Item::Err)?,
        ValueRef::Na => items.push(Item::Na)?,
    }
    Ok(())
}

// The number of an item, and 0 where it is none.
fn size_of(item: Item) -> Fixed
    ensures { result ≡ size_of item }
{
    match item {
        Item::Is(number) => number,
        Item::Err | Item::Na => Fixed::ZERO,
    }
}

// Whether a number is less than another.
fn is_less(x: Fixed, y: Fixed) -> bool
    ensures { result ≡ int_lt x y }
{
    x.millionths() < y.millionths()
}

/// The less of the least number so far and of one more.
pub fn smaller(least: Option<Fixed>, item: Item) -> Option<Fixed>
    ensures { result ≡ smaller least item }
{
    match least {
        None => Some(size_of(item)),
        Some(number) => {
            let size = size_of(item);
            if is_less(size, number) {
                Some(size)
            } else {
                Some(number)
            }
        }
    }
}

/// The larger of the greatest number so far and of one more.
pub fn larger(greatest: Option<Fixed>, item: Item) -> Option<Fixed>
    ensures { result ≡ larger greatest item }
{
    match greatest {
        None => Some(size_of(item)),
        Some(number) => {
            let size = size_of(item);
            if is_less(number, size) {
                Some(size)
            } else {
                Some(number)
            }
        }
    }
}
