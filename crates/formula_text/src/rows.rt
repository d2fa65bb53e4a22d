// What follows an operand or stands before one, part by part.
ghost use Rattle.std.specs.Prelude.{◌≡◌, ◌<◌, ◌+◌, drop, length, IfOk, IfErr, IfSome, IfNone, [], ◌∷◌, false, Ok, Err};
ghost use Rattle.formula_text.specs.Accepts.{after, bracket_first, missing, operator_first};
ghost use Rattle.formula_text.specs.inner.Levels.{next_level, operator_of, refusal};
ghost use Rattle.formula_text.specs.inner.Reads.{comma_first, Closes, Completes, Continues, NoOperator, Opens};
ghost use Rattle.formula_text.specs.declared.parse.Bracket.TheVariants.{Call};

use crate::ParseFault;
use crate::lexeme::{Lexeme, LexemeKind};
use crate::parse::Bracket;
use formula_tree::{Function, Op, takes};
use lics_text::MAX_LEN;

// The operator that stands first, if one does.
pub fn operator(lexemes: &[Lexeme]) -> Option<Op>
    ensures { result ≡ operator_of lexemes.now }
{
    let (first, _) = lexemes.split_first()?;
    match &first.kind {
        LexemeKind::Infix(op) => Some(*op),
        LexemeKind::Num(_) | LexemeKind::Str(_) | LexemeKind::Cell(_) | LexemeKind::Span(_, _) =>
            None,
        LexemeKind::Constant(_) | LexemeKind::Function(_) | LexemeKind::Not | LexemeKind::Open =>
            None,
        LexemeKind::Close | LexemeKind::Comma | LexemeKind::Unclosed | LexemeKind::Bad(_) => None,
    }
}

// All parts but the first.
pub fn others(lexemes: &[Lexeme]) -> &[Lexeme]
    ensures { result.now ≡ drop 1 lexemes.now }
{
    match lexemes.split_first() {
        Some((_, rest)) => rest,
        None => lexemes,
    }
}

// Why no operand is there at a closing bracket.
pub fn missing(at: usize, inside: Bracket) -> ParseFault
    ensures { result ≡ missing at inside }
{
    match inside {
        Bracket::Plain => ParseFault::Unexpected(at),
        Bracket::Call(function, count) => {
            if takes(function, count) {
                ParseFault::Unexpected(at)
            } else {
                ParseFault::ArgCount(at)
            }
        }
    }
}

// Why a part is refused that isn't wanted here: by its own fault, or as one that isn't expected.
fn refusal(part: &Lexeme) -> ParseFault
    ensures { result ≡ refusal part.now.kind part.now.at }
{
    match &part.kind {
        LexemeKind::Bad(fault) => *fault,
        LexemeKind::Num(_)
        | LexemeKind::Str(_)
        | LexemeKind::Cell(_)
        | LexemeKind::Span(_, _)
        | LexemeKind::Constant(_) => { ParseFault::Unexpected(part.at) }
        LexemeKind::Function(_)
        | LexemeKind::Infix(_)
        | LexemeKind::Not
        | LexemeKind::Open
        | LexemeKind::Close => { ParseFault::Unexpected(part.at) }
        LexemeKind::Comma | LexemeKind::Unclosed => ParseFault::Unexpected(part.at),
    }
}

// What follows the bracket that opens a function's arguments.
pub fn opening(lexemes: &[Lexeme], function: Function) -> Result<&[Lexeme], ParseFault>
    ensures ok { IfOk result (λ rest. Opens lexemes.now function rest.now) }
    ensures err { IfErr result (λ f. (bs : _) → bracket_first lexemes.now function bs ≡ Err f) }
{
    let Some((first, rest)) = lexemes.split_first() else {
        return Err(ParseFault::Ended);
    };
    match &first.kind {
        LexemeKind::Open => Ok(rest),
        LexemeKind::Num(_) | LexemeKind::Str(_) | LexemeKind::Cell(_) | LexemeKind::Span(_, _) =>
            Err(refusal(first)),
        LexemeKind::Constant(_) | LexemeKind::Function(_) | LexemeKind::Not | LexemeKind::Close =>
            Err(refusal(first)),
        LexemeKind::Infix(_) | LexemeKind::Comma | LexemeKind::Unclosed | LexemeKind::Bad(_) => Err(
            refusal(first),
        ),
    }
}

// What follows the bracket that closes one around an operand.
pub fn closing(lexemes: &[Lexeme]) -> Result<&[Lexeme], ParseFault>
    requires { next_level lexemes.now ≡ 0 }
    ensures ok { IfOk result (λ rest. Closes lexemes.now rest.now) }
    ensures err { IfErr result (λ f. NoOperator lexemes.now f) }
{
    let Some((first, rest)) = lexemes.split_first() else {
        return Err(ParseFault::Ended);
    };
    match &first.kind {
        LexemeKind::Close => Ok(rest),
        LexemeKind::Num(_) | LexemeKind::Str(_) | LexemeKind::Cell(_) | LexemeKind::Span(_, _) =>
            Err(refusal(first)),
        LexemeKind::Constant(_) | LexemeKind::Function(_) | LexemeKind::Not | LexemeKind::Open =>
            Err(refusal(first)),
        LexemeKind::Infix(_) | LexemeKind::Comma | LexemeKind::Unclosed | LexemeKind::Bad(_) => Err(
            refusal(first),
        ),
    }
}

// What follows the comma behind an argument, if one stands there.
pub fn behind_comma(lexemes: &[Lexeme]) -> Option<&[Lexeme]>
    ensures some { IfSome result (λ rest. Continues lexemes.now rest.now) }
    ensures none { IfNone result (comma_first lexemes.now ≡ false) }
{
    let (first, rest) = lexemes.split_first()?;
    match &first.kind {
        LexemeKind::Comma => Some(rest),
        LexemeKind::Num(_) | LexemeKind::Str(_) | LexemeKind::Cell(_) | LexemeKind::Span(_, _) =>
            None,
        LexemeKind::Constant(_)
        | LexemeKind::Function(_)
        | LexemeKind::Infix(_)
        | LexemeKind::Not => None,
        LexemeKind::Open | LexemeKind::Close | LexemeKind::Unclosed | LexemeKind::Bad(_) => None,
    }
}

// What follows the last argument, which stands behind so many.
pub fn behind_last(
    lexemes: &[Lexeme],
    function: Function,
    count: usize,
) -> Result<&[Lexeme], ParseFault>
    requires level { next_level lexemes.now ≡ 0 }
    requires comma { comma_first lexemes.now ≡ false }
    requires few { count < MAX_LEN }
    ensures ok { IfOk result (λ rest. Completes lexemes.now function count rest.now) }
    ensures err { IfErr result (λ f. (bs : _) → operator_first lexemes.now (Call function count ∷ bs) ≡ Err f) }
{
    let Some((first, rest)) = lexemes.split_first() else {
        return Err(ParseFault::Ended);
    };
    match &first.kind {
        LexemeKind::Close => {
            if takes(function, count + 1) {
                Ok(rest)
            } else {
                Err(ParseFault::ArgCount(first.at))
            }
        }
        LexemeKind::Num(_) | LexemeKind::Str(_) | LexemeKind::Cell(_) | LexemeKind::Span(_, _) =>
            Err(refusal(first)),
        LexemeKind::Constant(_)
        | LexemeKind::Function(_)
        | LexemeKind::Infix(_)
        | LexemeKind::Not => Err(refusal(first)),
        LexemeKind::Open | LexemeKind::Comma | LexemeKind::Unclosed | LexemeKind::Bad(_) => Err(
            refusal(first),
        ),
    }
}

// That no part is left.
pub fn ended(lexemes: &[Lexeme]) -> Result<(), ParseFault>
    requires { next_level lexemes.now ≡ 0 }
    ensures ok { IfOk result (λ _. operator_first lexemes.now [] ≡ Ok []) }
    ensures err { IfErr result (λ f. operator_first lexemes.now [] ≡ Err f) }
{
    let Some((first, _)) = lexemes.split_first() else {
        return Ok(());
    };
    Err(refusal(first))
}
