// The stack of trees after each code.
ghost use Rattle.std.specs.Int.RustNames.{int_lt};
ghost use Rattle.std.specs.Prelude.{◌≡◌, ◌≤◌, ◌<◌, ◌+◌, ◌++◌, ◌∷◌, [], IfOk, IfSome, IfNone, None, Some, true, false, length, pos, nat_abs, reverse, List};
ghost use Rattle.formula_tree.specs.Shape.{is_short, node_size};
ghost use Rattle.formula_tree.specs.Table.{counts_of, takes};
ghost use Rattle.formula_tree.specs.Tree.{binary, call, no_trees, num, str, Tree};
ghost use Rattle.wk1_formula.specs.Codes as codes;
ghost use Rattle.wk1_formula.specs.inner.Items.{built, AreItems, IsItem};
ghost use Rattle.wk1_formula.specs.Reading.{is_formula_text};
ghost use Rattle.wk1_formula.specs.Stack.{left_operand, number_tree, right_operand};
ghost use Rattle.wk1_formula.specs.inner.Steps.{code_over, held, is_sound, HasStepped};
ghost use Rattle.wk1_formula.specs.inner.Views.{seen_code};

use crate::front::Code;
use crate::gather::{called, gather, nothing, take_last};
use crate::item::{Item, One, between, front_operand, leaf, left_operand, over, right_operand};
use fixed_value::Fixed;
use formula_tree::{Expr, ExprList, Function, Op};
use lics_text::{Memory, Text};
use std::alloc::Global;

// Whether a number is below 0.
fn is_negative(number: Fixed) -> bool
    ensures { result ≡ int_lt number (pos 0) }
{
    number.millionths() < 0
}

// Whether a number is a whole one whose size is at most 32767.
fn is_short(number: Fixed) -> bool
    ensures { result ≡ is_short number }
{
    let size = number.millionths().unsigned_abs();
    size % 1_000_000 == 0 && size <= 32_767_000_000
}

// What a number takes of a code.
fn number_size(number: Fixed) -> u32
    ensures size { result ≡ node_size (num number) }
    ensures most { result ≤ 300 }
{
    if is_short(number) { 3 } else { 9 }
}

// The item of a number that isn't negative.
fn plain_number(size: Fixed, number: Fixed) -> Item
    requires { size ≡ pos (nat_abs number) }
    ensures { IsItem result (num (pos (nat_abs number))) }
{
    leaf(Expr::Num(size), number_size(size))
}

// A negative number is a minus in front of its size.
#[tactic(auto, using(crate::proofs::Bracketed::minus_tree, crate::proofs::Bracketed::plain_tree))]
fn number_item(alloc: Global, number: Fixed) -> Result<Item, Memory>
    ensures { IfOk result (λ i. IsItem i (number_tree number)) }
{
    let item = plain_number(number.abs(), number);
    if is_negative(number) {
        over(alloc, One::Neg, item)
    } else {
        Ok(item)
    }
}

// The item of a call without arguments.
fn bare_call(alloc: Global, function: Function) -> Item
    requires { takes (counts_of function) 0 ≡ true }
    ensures { IsItem result (call function no_trees) }
{
    called(function, nothing(alloc))
}

// Goes on with one item more.
fn go_on(stack: &mut Vec<Item>, item: Item) -> Result<bool, Memory>
    ensures { IfOk result (λ went. (went ≡ true) × (reverse stack.new.items ≡ item ∷ reverse stack.old.items)) }
{
    stack.push(item)?;
    Ok(true)
}

// Takes the last item.
pub fn pop(stack: &mut Vec<Item>) -> Option<Item>
    ensures some { IfSome result (λ i. reverse stack.old.items ≡ i ∷ reverse stack.new.items) }
    ensures none { IfNone result (reverse stack.old.items ≡ []) }
{
    stack.pop()
}

// An operand with the bracket that it needs.
fn hold(alloc: Global, one: One, item: Item) -> Result<Item, Memory>
    ensures { IfOk result (λ i. (t : Tree) → IsItem item t → IsItem i (held one t)) }
{
    match one {
        One::Group => Ok(item),
        One::Neg => front_operand(alloc, item, 6),
        One::Not => front_operand(alloc, item, 2),
    }
}

// A bracket, a minus or a NOT over an operand with the bracket that it needs.
fn held_over(alloc: Global, one: One, item: Item) -> Result<Item, Memory>
    ensures { IfOk result (λ i. (t : Tree) → IsItem item t → IsItem i (built one (held one t))) }
{
    let item = hold(alloc, one, item)?;
    over(alloc, one, item)
}

// An operator between two operands with the brackets that they need.
fn held_between(alloc: Global, op: Op, left: Item, right: Item) -> Result<Item, Memory>
    ensures { IfOk result (λ i. (a b : Tree) → IsItem left a → IsItem right b
        → IsItem i (binary op (left_operand op a) (right_operand op b))) }
{
    let left = left_operand(alloc, op, left)?;
    let right = right_operand(alloc, op, right)?;
    between(alloc, op, left, right)
}

// Goes on with a bracket, a minus or a NOT.
fn over_one(alloc: Global, stack: &mut Vec<Item>, one: One) -> Result<bool, Memory>
    ensures { IfOk result (λ went. (ts : List Tree) → AreItems (reverse stack.old.items) ts
        → HasStepped (code_over one) went (reverse stack.new.items) ts) }
{
    match pop(stack) {
        Some(item) => {
            let item = held_over(alloc, one, item)?;
            go_on(stack, item)
        }
        None => Ok(false),
    }
}

// Goes on with an operator.
fn over_two(alloc: Global, stack: &mut Vec<Item>, op: Op) -> Result<bool, Memory>
    ensures { IfOk result (λ went. (ts : List Tree) → AreItems (reverse stack.old.items) ts
        → HasStepped (codes.operator op) went (reverse stack.new.items) ts) }
{
    match pop(stack) {
        Some(right) => match pop(stack) {
            Some(left) => {
                let item = held_between(alloc, op, left, right)?;
                go_on(stack, item)
            }
            None => Ok(false),
        },
        None => Ok(false),
    }
}

// Goes on with a function.
fn call(alloc: Global, stack: &mut Vec<Item>, function: Function, count: u8) -> Result<bool, Memory>
    requires { takes (counts_of function) count ≡ true }
    ensures { IfOk result (λ went. (ts : List Tree) → AreItems (reverse stack.old.items) ts
        → HasStepped (codes.function function count) went (reverse stack.new.items) ts) }
{
    if stack.len() < usize::from(count) {
        return Ok(false);
    }
    let args = take_last(alloc, stack, count)?;
    let gathered = gather(alloc, args)?;
    go_on(stack, called(function, gathered))
}

// Goes on with a plus, which is left out of the tree.
fn over_plus(stack: &[Item]) -> bool
    ensures { (ts : List Tree) → AreItems (reverse stack.now) ts → HasStepped codes.plus result (reverse stack.now) ts }
{
    stack.len() > 0
}

// The item of a text, which holds no quote.
fn text_item(text: Text) -> Item
    requires { is_formula_text text ≡ true }
    ensures { IsItem result (str text) }
{
    let size = text.bytes().len() as u32 + 2;
    leaf(Expr::Str(text), size)
}

/// Goes on with a code; false where operands are lacking.
pub fn step(alloc: Global, stack: &mut Vec<Item>, code: Code) -> Result<bool, Memory>
    requires { is_sound (seen_code code) ≡ true }
    ensures { IfOk result (λ went. (ts : List Tree) → AreItems (reverse stack.old.items) ts
        → HasStepped (seen_code code) went (reverse stack.new.items) ts) }
{
    match code {
        Code::Number(number) => {
            let item = number_item(alloc, number)?;
            go_on(stack, item)
        }
        Code::Error => go_on(stack, bare_call(alloc, Function::Err)),
        Code::Missing => go_on(stack, bare_call(alloc, Function::Na)),
        Code::Reference(reference) => go_on(stack, leaf(Expr::Cell(reference), 5)),
        Code::Range(first, last) => go_on(stack, leaf(Expr::Span(first, last), 9)),
        Code::Text(text) => go_on(stack, text_item(text)),
        Code::Brackets => over_one(alloc, stack, One::Group),
        Code::Minus => over_one(alloc, stack, One::Neg),
        Code::Plus => Ok(over_plus(stack.as_slice())),
        Code::Negation => over_one(alloc, stack, One::Not),
        Code::Operator(op) => over_two(alloc, stack, op),
        Code::Function(function, count) => call(alloc, stack, function, count),
    }
}
