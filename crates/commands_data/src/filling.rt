// Fills.
ghost use Rattle.std.specs.Prelude.{◌≡◌, IfOk};
ghost use Rattle.command_desk.specs.Acting.{HasActedBy};
ghost use Rattle.commands_data.specs.Answers.{filling_at};
ghost use Rattle.commands_data.specs.Commands.{filled, filled_by};

use crate::faults::make_block;
use command_desk::{CommandEnd, decimal_at, span_at};
use desk_errors::CommandError;
use fixed_value::Fixed;
use formula_eval::Tally;
use formula_parts::Scene;
use grid_address::Span;
use lics_text::Memory;
use range_names::Names;
use session_rooms::Answers;
use work_sheet::Worksheet;

/// What a fill is asked for: its span, and the numbers from a start by a step up to a stop.
#[derive(Clone, Copy)]
pub struct Filling {
    pub span: Span,
    pub start: Fixed,
    pub step: Fixed,
    pub stop: Fixed,
}

// What the answers of a fill are, or the error of the first that is none.
fn filling_at(names: &Names, answers: &Answers) -> Result<Filling, CommandError>
    ensures { result ≡ filling_at names.now answers.now }
{
    let span = span_at(names, answers, 0)?;
    let start = decimal_at(answers, 1)?;
    let step = decimal_at(answers, 2)?;
    let stop = decimal_at(answers, 3)?;
    Ok(Filling {
        span,
        start,
        step,
        stop,
    })
}

// Numbers are written by steps.
fn fill_by(
    filling: Filling,
    sheet: &mut Worksheet,
    scene: &Scene,
    tally: &mut Tally,
) -> Result<CommandEnd, Memory>
    ensures { IfOk result (λ end. HasActedBy (filled_by filling scene.entry.now)
        end sheet.old sheet.new tally.old.count tally.new.count) }
{
    let answer = data_blocks::fill(
        sheet.alloc(),
        filling.span,
        filling.start,
        filling.step,
        filling.stop,
    );
    make_block(answer, sheet, scene, tally)
}

/// Fills the span that the first answer is with the numbers from the second one on, by the third, up to the fourth. It
/// is refused by the errors of `span_at` and `decimal_at`, the first answer first; by `ZeroStep`; and by `Protected`.
pub fn fill(
    answers: &Answers,
    sheet: &mut Worksheet,
    scene: &Scene,
    tally: &mut Tally,
) -> Result<CommandEnd, Memory>
    ensures { IfOk result (λ end. HasActedBy (filled answers.now scene.entry.now)
        end sheet.old sheet.new tally.old.count tally.new.count) }
{
    match filling_at(sheet.names(), answers) {
        Ok(filling) => fill_by(filling, sheet, scene, tally),
        Err(error) => Ok(CommandEnd::Refused(error)),
    }
}
