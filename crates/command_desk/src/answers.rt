// What the answers of a command mean.
ghost use Rattle.std.specs.Prelude.{◌≡◌, ◌≤◌, IfOk, slice_get};
ghost use Rattle.menu_tree.specs.Tree.{prompts};
ghost use Rattle.command_desk.specs.Answered.{cell_at, decimal_at, line_at, order_at, span_at, whole_at, whole_by, IsWithin};

use desk_answers::{decimal_answer, order_answer, span_answer, whole_answer};
use desk_errors::CommandError;
use fixed_value::Fixed;
use grid_address::{Cell, Span};
use menu_tree::{Action, Ask, prompts};
use range_names::Names;
use session_rooms::Answers;

/// The answer at a place, counted from 0; the empty line where it wasn't given.
pub fn line_at(answers: &Answers, place: usize) -> &[u8]
    ensures { result.now ≡ line_at answers.now place }
{
    match answers.get(place) {
        Some(answer) => answer.bytes(),
        None => b"",
    }
}

/// The span that the answer at a place is, with the errors of `span_answer`.
pub fn span_at(names: &Names, answers: &Answers, place: usize) -> Result<Span, CommandError>
    ensures { result ≡ span_at names.now answers.now place }
{
    span_answer(names, line_at(answers, place), place)
}

/// The first cell of the span that the answer at a place is, with the errors of `span_answer`.
pub fn cell_at(names: &Names, answers: &Answers, place: usize) -> Result<Cell, CommandError>
    ensures { result ≡ cell_at names.now answers.now place }
{
    let span = span_at(names, answers, place)?;
    Ok(span.first)
}

/// The number that the answer at a place is, with the error of `decimal_answer`.
pub fn decimal_at(answers: &Answers, place: usize) -> Result<Fixed, CommandError>
    ensures { result ≡ decimal_at answers.now place }
{
    decimal_answer(line_at(answers, place), place)
}

/// Whether the answer at a place asks for a descending sort, with the error of `order_answer`.
pub fn order_at(answers: &Answers, place: usize) -> Result<bool, CommandError>
    ensures { result ≡ order_at answers.now place }
{
    order_answer(line_at(answers, place), place)
}

// A whole number within the bounds of its prompt.
fn whole_by(ask: Option<Ask>, line: &[u8], place: usize) -> Result<u8, CommandError>
    ensures whole { result ≡ whole_by ask line.now place }
    ensures within { IfOk result (λ n. IsWithin ask n) }
{
    match ask {
        Some(Ask::Whole(low, high)) => whole_answer(low, high, line, place),
        _ => Err(CommandError::InvalidNumber(place)),
    }
}

/// The whole number that the answer at a place is, within the bounds of its prompt. `InvalidNumber` comes exactly where
/// it is none, and where the prompt asks for none.
pub fn whole_at(action: Action, answers: &Answers, place: usize) -> Result<u8, CommandError>
    ensures whole { result ≡ whole_at action answers.now place }
    ensures within { IfOk result (λ n. IsWithin (slice_get (prompts action) place) n) }
{
    whole_by(
        prompts(action).get(place).copied(),
        line_at(answers, place),
        place,
    )
}
