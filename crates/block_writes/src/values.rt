// Values as contents.
ghost use Rattle.std.specs.Prelude.{◌≡◌, IfOk, Ok};
ghost use Rattle.formula_tree.specs.Formulas.{formula_of};
ghost use Rattle.formula_tree.specs.Seen.{seen_value};
ghost use Rattle.formula_tree.specs.Tree.{call, no_trees};
ghost use Rattle.formula_tree.specs.View.{tree_of};
ghost use Rattle.formula_parts.specs.Outlook.{Sight};
ghost use Rattle.block_writes.specs.Writing.{as_content, value_copied};

use formula_parts::Look;
use formula_tree::{Content, Expr, ExprList, Formula, Function, Value, ValueRef};
use grid_address::Cell;
use lics_text::{LabelPrefix, Memory};
use sheet_store::Write;
use std::alloc::Global;

// The call of a function without arguments.
fn call_of(alloc: Global, function: Function) -> Expr
    ensures { tree_of result ≡ call function no_trees }
{
    Expr::Call(function, ExprList::new(alloc))
}

// The formula that is the call of a function without arguments.
fn formula_of_call(alloc: Global, function: Function) -> Result<Formula, Memory>
    requires { formula_of (call function no_trees) ≡ Ok (call function no_trees) }
    ensures { IfOk result (λ f. f ≡ call function no_trees) }
{
    match Formula::of(alloc, call_of(alloc, function)) {
        Ok(formula) => Ok(formula),
        Err(_) => Err(Memory),
    }
}

/// A value as a content: a text is a label with `'`, ERR is `@ERR` and NA is `@NA`. (Release 2 manual for Range Value
/// and the data commands; how ERR and NA are written is this project's own choice.)
pub fn content_of(alloc: Global, value: &ValueRef<'_>) -> Result<Content, Memory>
    ensures { IfOk result (λ c. c ≡ as_content (seen_value value.now)) }
{
    match value {
        ValueRef::Blank => Ok(Content::Blank),
        ValueRef::Num(number) => Ok(Content::Number(*number)),
        ValueRef::Str(text) => Ok(Content::Label(LabelPrefix::Left, text.copy()?)),
        ValueRef::Err => Ok(Content::Formula(formula_of_call(alloc, Function::Err)?)),
        ValueRef::Na => Ok(Content::Formula(formula_of_call(alloc, Function::Na)?)),
    }
}

/// The same of a value that is at hand itself.
pub fn content_of_value(alloc: Global, value: &Value) -> Result<Content, Memory>
    ensures { IfOk result (λ c. c ≡ as_content value.now) }
{
    match value {
        Value::Blank => Ok(Content::Blank),
        Value::Num(number) => Ok(Content::Number(*number)),
        Value::Str(text) => Ok(Content::Label(LabelPrefix::Left, text.copy()?)),
        Value::Err => Ok(Content::Formula(formula_of_call(alloc, Function::Err)?)),
        Value::Na => Ok(Content::Formula(formula_of_call(alloc, Function::Na)?)),
    }
}

/// The value and the format of one cell, for another.
pub fn value_copied<K: Look>(alloc: Global, look: &K, from: Cell, to: Cell) -> Result<Write, Memory>
    ensures { IfOk result (λ w. w ≡ value_copied (K.sight look.now) from to) }
{
    let content = content_of(alloc, &look.value(from))?;
    Ok(Write {
        cell: to,
        content,
        format: Some(look.format(from)),
    })
}
