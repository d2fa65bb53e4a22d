// From the parts of a text to its tree.
ghost use Rattle.std.specs.Prelude.{◌≡◌, ◌<◌, ◌≤◌, ◌++◌, ◌∷◌, ◌⊎◌, IfOk, IfErr, OnOk, [], length, true, Err};
ghost use Rattle.formula_tree.specs.Shape.{every};
ghost use Rattle.formula_tree.specs.Tree.{binary, str};
ghost use Rattle.formula_tree.specs.View.{tree_of, trees_in};
ghost use Rattle.formula_text.specs.Accepts.{operand_first};
ghost use Rattle.formula_text.specs.inner.Levels.{next_level};
ghost use Rattle.formula_text.specs.inner.Reads.{is_called, IsCallFault, IsFault, IsSignedFault, Reads, ReadsCall, ReadsOperand, ReadsSigned};
ghost use Rattle.formula_text.specs.Texts.{ArePartsOf};

use crate::ParseFault;
use crate::lexeme::{Lexeme, LexemeKind};
use crate::rows::{behind_comma, behind_last, closing, ended, missing, opening, operator, others};
use formula_tree::{Expr, ExprList, Function, Op, level};
use lics_text::{MAX_LEN, Text};
use std::alloc::Global;

// The innermost open bracket: a plain one or none, or a function's with so many complete arguments.
#[derive(Clone, Copy)]
pub enum Bracket {
    Plain,
    Call(Function, usize),
}

// A tree on the heap.
fn boxed(alloc: Global, expr: Expr) -> Result<Box<Expr>, ParseFault>
    ensures ok { IfOk result (λ b. b.value ≡ expr) }
    ensures err { IfErr result (λ f. f ≡ ParseFault.Memory) }
{
    match Box::new(alloc, expr) {
        Ok(boxed) => Ok(boxed),
        Err(_) => Err(ParseFault::Memory),
    }
}

// Two trees with an operator between them.
fn binary(alloc: Global, op: Op, left: Expr, right: Expr) -> Result<Expr, ParseFault>
    ensures ok { IfOk result (λ e. tree_of e ≡ binary op (tree_of left) (tree_of right)) }
    ensures err { IfErr result (λ f. f ≡ ParseFault.Memory) }
{
    let left = boxed(alloc, left)?;
    let right = boxed(alloc, right)?;
    Ok(Expr::Binary(op, left, right))
}

// A copy of a text that was read.
fn copy_of(text: &Text) -> Result<Expr, ParseFault>
    ensures ok { IfOk result (λ e. tree_of e ≡ str text.now) }
    ensures err { IfErr result (λ f. f ≡ ParseFault.Memory) }
{
    match text.copy() {
        Ok(text) => Ok(Expr::Str(text)),
        Err(_) => Err(ParseFault::Memory),
    }
}

// Adds an argument.
fn add(arguments: &mut ExprList, argument: Expr) -> Result<(), ParseFault>
    ensures ok { OnOk result (trees_in arguments.new ≡ trees_in arguments.old ++ tree_of argument ∷ []) }
    ensures err { IfErr result (λ f. f ≡ ParseFault.Memory) }
{
    match arguments.push(argument) {
        Ok(()) => Ok(()),
        Err(_) => Err(ParseFault::Memory),
    }
}

// A tree whose operators outside brackets bind at least so tightly, and the parts after it.
#[cycle(parse)]
fn expression(
    alloc: Global,
    lexemes: &[Lexeme],
    least: u8,
    inside: Bracket,
) -> Result<(Expr, &[Lexeme]), ParseFault>
    requires low { 0 < least }
    requires high { least ≤ 8 }
    requires short { length lexemes.now ≤ MAX_LEN }
    ensures ok { IfOk result (λ r. Reads lexemes.now least (tree_of r.0) r.1.now) }
    ensures err { IfErr result (λ f. IsFault lexemes.now inside f) }
{
    let (mut left, mut rest) = operand(alloc, lexemes, inside)?;
    while let Some(op) = operator(rest) {
        if level(op) < least {
            break;
        }
        let (right, after) = expression(alloc, others(rest), level(op) + 1, inside)?;
        left = binary(alloc, op, left, right)?;
        rest = after;
    }
    Ok((left, rest))
}

// The operand behind an operator in front.
#[cycle(parse)]
fn signed(
    alloc: Global,
    op: Op,
    at: usize,
    lexemes: &[Lexeme],
    inside: Bracket,
) -> Result<(Expr, &[Lexeme]), ParseFault>
    requires short { length lexemes.now ≤ MAX_LEN }
    ensures ok { IfOk result (λ r. ReadsSigned op at lexemes.now (tree_of r.0) r.1.now) }
    ensures err { IfErr result (λ f. IsSignedFault op at lexemes.now inside f) }
{
    match op {
        Op::Add => operand(alloc, lexemes, inside),
        Op::Sub => {
            let (inner, after) = expression(alloc, lexemes, 7, inside)?;
            Ok((Expr::Neg(boxed(alloc, inner)?), after))
        }
        Op::Pow | Op::Mul | Op::Div | Op::Eq | Op::Ne | Op::Lt => Err(ParseFault::Unexpected(at)),
        Op::Gt | Op::Le | Op::Ge | Op::And | Op::Or | Op::Join => Err(ParseFault::Unexpected(at)),
    }
}

// A function with its arguments, from its opening bracket on.
#[cycle(parse)]
fn call(
    alloc: Global,
    function: Function,
    lexemes: &[Lexeme],
) -> Result<(Expr, &[Lexeme]), ParseFault>
    requires short { length lexemes.now ≤ MAX_LEN }
    ensures ok { IfOk result (λ r. ReadsCall lexemes.now function (tree_of r.0) r.1.now) }
    ensures err { IfErr result (λ f. IsCallFault lexemes.now function f) }
{
    let mut arguments = ExprList::new(alloc);
    let behind = opening(lexemes, function)?;
    let (first, mut rest) = expression(alloc, behind, 1, Bracket::Call(function, 0))?;
    add(&mut arguments, first)?;
    let mut count = 0;
    while let Some(next) = behind_comma(rest) {
        count += 1;
        let (argument, after) = expression(alloc, next, 1, Bracket::Call(function, count))?;
        add(&mut arguments, argument)?;
        rest = after;
    }
    let rest = behind_last(rest, function, count)?;
    Ok((Expr::Call(function, arguments), rest))
}

// One operand, and the parts after it.
#[cycle(parse)]
fn operand(
    alloc: Global,
    lexemes: &[Lexeme],
    inside: Bracket,
) -> Result<(Expr, &[Lexeme]), ParseFault>
    requires short { length lexemes.now ≤ MAX_LEN }
    ensures ok { IfOk result (λ r. ReadsOperand lexemes.now (tree_of r.0) r.1.now) }
    ensures err { IfErr result (λ f. IsFault lexemes.now inside f) }
{
    let Some((first, rest)) = lexemes.split_first() else {
        return Err(ParseFault::Ended);
    };
    match &first.kind {
        LexemeKind::Num(value) => Ok((Expr::Num(*value), rest)),
        LexemeKind::Str(text) => Ok((copy_of(text)?, rest)),
        LexemeKind::Cell(one) => Ok((Expr::Cell(*one), rest)),
        LexemeKind::Span(one, other) => Ok((Expr::Span(*one, *other), rest)),
        LexemeKind::Constant(function) => Ok((Expr::Call(*function, ExprList::new(alloc)), rest)),
        LexemeKind::Function(function) => call(alloc, *function, rest),
        LexemeKind::Infix(op) => signed(alloc, *op, first.at, rest, inside),
        LexemeKind::Not => {
            let (inner, after) = expression(alloc, rest, 3, inside)?;
            Ok((Expr::Not(boxed(alloc, inner)?), after))
        }
        LexemeKind::Open => {
            let (inner, after) = expression(alloc, rest, 1, Bracket::Plain)?;
            let after = closing(after)?;
            Ok((Expr::Group(boxed(alloc, inner)?), after))
        }
        LexemeKind::Close => Err(missing(first.at, inside)),
        LexemeKind::Comma => Err(ParseFault::Unexpected(first.at)),
        LexemeKind::Unclosed => Err(ParseFault::Ended),
        LexemeKind::Bad(fault) => Err(*fault),
    }
}

// The tree that the parts spell, or the first fault.
pub fn tree(alloc: Global, lexemes: &[Lexeme]) -> Result<Expr, ParseFault>
    requires { length lexemes.now ≤ MAX_LEN }
    ensures found { IfOk result (λ e. ArePartsOf lexemes.now (tree_of e)) }
    ensures called { IfOk result (λ e. every is_called (tree_of e) ≡ true) }
    ensures fault { IfErr result (λ f. (f ≡ ParseFault.Memory) ⊎ (operand_first lexemes.now [] ≡ Err f)) }
{
    let (expr, rest) = expression(alloc, lexemes, 1, Bracket::Plain)?;
    ended(rest)?;
    Ok(expr)
}
