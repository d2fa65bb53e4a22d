// The formats and the protection marks of the cells of a span.
ghost use Rattle.std.specs.Prelude.{ℕ, ◌≡◌, ◌≤◌, IfOk, Some, slice_get};
ghost use Rattle.command_desk.specs.Acting.{HasActed};
ghost use Rattle.command_desk.specs.Formats.{HasDecimals};
ghost use Rattle.commands_range.specs.Commands.{decimals_of, formatted, marked};
ghost use Rattle.menu_tree.specs.Tree.{prompts};
ghost use Rattle.menu_tree.specs.declared.menu.Action.TheVariants as actions;
ghost use Rattle.menu_tree.specs.declared.menu.Ask.TheVariants as asks;
ghost use Rattle.work_sheet.specs.Seen.{of_worksheet};

use command_desk::{CommandEnd, FormatChoice, span_at, whole_at};
use desk_errors::CommandError;
use lics_text::Memory;
use menu_tree::{Action, RangeAction};
use session_rooms::Answers;
use work_sheet::Worksheet;

/// The decimals that the first answer is, for an action that asks for them, with the errors of `whole_at`.
pub fn decimals_of(action: RangeAction, answers: &Answers) -> Result<u8, CommandError>
    requires { slice_get (prompts (actions.Range action)) 0 ≡ Some (asks.Whole 0 15) }
    ensures decimals { result ≡ decimals_of answers.now action }
    ensures few { IfOk result (λ n. n ≤ 15) }
{
    whole_at(Action::Range(action), answers, 0)
}

/// Gives the cells of the span that the answer at a place is a format; their protection marks stay. It is refused by
/// the errors of `span_at` alone.
pub fn formatted(
    format: FormatChoice,
    place: usize,
    answers: &Answers,
    sheet: &mut Worksheet,
) -> Result<CommandEnd, Memory>
    requires { HasDecimals format }
    ensures { IfOk result (λ end. (n : ℕ) → HasActed (formatted answers.now (of_worksheet sheet.old) format place)
        end sheet.old sheet.new n n) }
{
    match span_at(sheet.names(), answers, place) {
        Ok(span) => {
            sheet.set_format(span, format.code())?;
            Ok(CommandEnd::Finished)
        }
        Err(error) => Ok(CommandEnd::Refused(error)),
    }
}

/// Sets the protection marks of the cells of the span that the first answer is, or takes them away; their formats stay.
/// It is refused by the errors of `span_at` alone.
pub fn marked(
    protected: bool,
    answers: &Answers,
    sheet: &mut Worksheet,
) -> Result<CommandEnd, Memory>
    ensures { IfOk result (λ end. (n : ℕ) → HasActed (marked answers.now (of_worksheet sheet.old) protected)
        end sheet.old sheet.new n n) }
{
    match span_at(sheet.names(), answers, 0) {
        Ok(span) => {
            sheet.set_protected(span, protected)?;
            Ok(CommandEnd::Finished)
        }
        Err(error) => Ok(CommandEnd::Refused(error)),
    }
}
