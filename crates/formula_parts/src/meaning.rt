// What the parts of a formula are worth.
ghost use Rattle.std.specs.Prelude.{◌≡◌, IfOk};
ghost use Rattle.formula_tree.specs.View.{tree_of};
ghost use Rattle.formula_parts.specs.Lists.{items_of, list_value};
ghost use Rattle.formula_parts.specs.Calls.{chosen};
ghost use Rattle.formula_parts.specs.Parts.{call_value, filled_in, mean_within, operand_of};
ghost use Rattle.value_functions.specs.Operators.{binary_value, denied, negated};
ghost use Rattle.formula_parts.specs.Outlook.{Sight};
ghost use Rattle.formula_parts.specs.Scenes.{outlook_of};
ghost use Rattle.formula_parts.specs.Standpoints.{arguments_from, outlook_from, value_from};
ghost use Rattle.formula_tree.specs.declared.value.Value.TheVariants as value;

use crate::argument::{Argument, Operand};
use crate::calls::{called, choice};
use crate::databases::{Databases, Refused};
use crate::kept::Kept;
use crate::lists::listed;
use crate::look::{Look, Scene};
use crate::numbers::number_of;
use crate::standpoint::Standpoint;
use fixed_value::Fixed;
use formula_tree::{Expr, Formula, Function, Op, Value};
use grid_address::{Cell, Span};
use lics_text::{Memory, Text};
use value_functions::{binary, denied, negated};

/// What an argument is as a range.
pub fn operand_of(expr: &Expr, at: Cell) -> Operand
    ensures { result ≡ operand_of (tree_of expr.now) at }
{
    match expr {
        Expr::Cell(reference) => Operand::Cell(reference.resolve(at)),
        Expr::Span(first, last) => Operand::Span(Span::of(first.resolve(at), last.resolve(at))),
        Expr::Num(_) | Expr::Str(_) | Expr::Group(_) | Expr::Neg(_) => Operand::Other,
        Expr::Not(_) | Expr::Binary(_, _, _) | Expr::Call(_, _) => Operand::Other,
    }
}

// The arguments of a function.
#[cycle(value)]
fn arguments_of<K: Look, D: Databases>(
    from: &Standpoint<'_, K>,
    databases: &D,
    exprs: &[Expr],
) -> Result<Vec<Argument>, Memory>
    ensures { IfOk result (λ v. v.items ≡ arguments_from K.Look from.now D.answers exprs.now) }
{
    let mut arguments = Vec::new(from.alloc);
    for expr in exprs {
        let value = composed(from, databases, expr)?;
        let operand = operand_of(expr, from.at);
        arguments.push(Argument { value, operand })?;
    }
    Ok(arguments)
}

// The value of CHOOSE or IF.
#[cycle(value)]
fn chosen<K: Look, D: Databases>(
    from: &Standpoint<'_, K>,
    databases: &D,
    function: Function,
    exprs: &[Expr],
) -> Result<Value, Memory>
    ensures { IfOk result (λ v. v ≡ chosen function (arguments_from K.Look from.now D.answers exprs.now)) }
{
    if exprs.len() == 0 {
        return Ok(Value::Err);
    }
    let first = composed(from, databases, &exprs[0])?;
    match choice(function, exprs.len(), &first) {
        Ok(place) => {
            if place < exprs.len() {
                composed(from, databases, &exprs[place])
            } else {
                Ok(Value::Err)
            }
        }
        Err(value) => Ok(value),
    }
}

// The value of a function of a list.
#[cycle(value)]
fn listed_value<K: Look, D: Databases>(
    from: &Standpoint<'_, K>,
    databases: &D,
    function: Function,
    exprs: &[Expr],
) -> Result<Value, Memory>
    ensures { let arguments = arguments_from K.Look from.now D.answers exprs.now in
        let items = items_of (K.sight from.now.look.now).values arguments in
        IfOk result (λ v. v ≡ list_value function items) }
{
    let arguments = arguments_of(from, databases, exprs)?;
    listed(function, arguments.as_slice(), from.look)
}

// The value of a function of arguments.
#[cycle(value)]
fn call_value<K: Look, D: Databases>(
    from: &Standpoint<'_, K>,
    databases: &D,
    function: Function,
    exprs: &[Expr],
) -> Result<Value, Memory>
    ensures { let w = outlook_from K.Look from.now in
        let arguments = arguments_from K.Look from.now D.answers exprs.now in
        IfOk result (λ v. v ≡ call_value D.answers function w arguments) }
{
    match function {
        Function::Choose | Function::If => chosen(from, databases, function, exprs),
        Function::Sum | Function::Avg | Function::Count | Function::Min | Function::Max => {
            listed_value(from, databases, function, exprs)
        }
        Function::DSum | Function::DAvg | Function::DCount | Function::DMin | Function::DMax => {
            let arguments = arguments_of(from, databases, exprs)?;
            let given = arguments.as_slice();
            databases.value(from, function, given)
        }
        _ => {
            let arguments = arguments_of(from, databases, exprs)?;
            let given = arguments.as_slice();
            called(from, function, given)
        }
    }
}

// A text as a value.
fn text_value(text: &Text) -> Result<Value, Memory>
    ensures { IfOk result (λ v. v ≡ value.Str text.now) }
{
    Ok(Value::Str(text.copy()?))
}

// The value of two parts with an operator between them.
#[cycle(value)]
fn binary_value<K: Look, D: Databases>(
    from: &Standpoint<'_, K>,
    databases: &D,
    op: Op,
    left: &Expr,
    right: &Expr,
) -> Result<Value, Memory>
    ensures { let a = value_from K.Look from.now D.answers left.now in
        let b = value_from K.Look from.now D.answers right.now in IfOk result (λ v. v ≡ binary_value op a b) }
{
    let left = value_of(from, databases, left)?;
    let right = value_of(from, databases, right)?;
    binary(from.alloc, op, &left, &right)
}

/// The value of a part, which may be blank.
#[cycle(value)]
pub fn value_of<K: Look, D: Databases>(
    from: &Standpoint<'_, K>,
    databases: &D,
    expr: &Expr,
) -> Result<Value, Memory>
    ensures { IfOk result (λ v. v ≡ value_from K.Look from.now D.answers expr.now) }
{
    match expr {
        Expr::Num(number) => Ok(Value::Num(*number)),
        Expr::Str(text) => text_value(text),
        Expr::Cell(reference) => from.look.value(reference.resolve(from.at)).copy(),
        Expr::Span(_, _) => Ok(Value::Err),
        Expr::Group(inner) => value_of(from, databases, inner),
        Expr::Neg(inner) => {
            let value = value_of(from, databases, inner)?;
            Ok(negated(&value))
        }
        Expr::Not(inner) => {
            let value = value_of(from, databases, inner)?;
            Ok(denied(&value))
        }
        Expr::Binary(op, left, right) => binary_value(from, databases, *op, left, right),
        Expr::Call(function, exprs) => call_value(from, databases, *function, exprs.items()),
    }
}

/// The value of a part, found by numbers alone where it is made of them.
#[cycle(value)]
pub fn composed<K: Look, D: Databases>(
    from: &Standpoint<'_, K>,
    databases: &D,
    expr: &Expr,
) -> Result<Value, Memory>
    ensures { IfOk result (λ v. v ≡ value_from K.Look from.now D.answers expr.now) }
{
    let mut kept = Kept::new();
    match number_of(expr, from.at, from.look, &mut kept) {
        Some(number) => Ok(Value::Num(number)),
        None => value_of(from, databases, expr),
    }
}

/// At the top a blank value is 0.
pub fn filled_in(value: Value) -> Value
    ensures { result ≡ filled_in value }
{
    match value {
        Value::Blank => Value::Num(Fixed::ZERO),
        filled => filled,
    }
}

/// The value of a formula that stands in a cell of a criterion, by what it looks at; its functions of records are ERR.
#[tactic(auto, unfolding(crate::specs::Parts::mean_within))]
pub fn glance_within<K: Look>(
    formula: &Formula,
    at: Cell,
    look: &K,
    scene: &Scene,
) -> Result<Value, Memory>
    ensures { IfOk result (λ v. v ≡ mean_within formula.now at (outlook_of (K.sight look.now) scene.entry.now)) }
{
    let from = Standpoint {
        alloc: formula.alloc(),
        at,
        look,
        scene,
    };
    let value = composed(&from, &Refused, formula.expr())?;
    Ok(filled_in(value))
}
