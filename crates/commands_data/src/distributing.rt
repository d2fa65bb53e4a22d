// Distributions.
ghost use Rattle.std.specs.Prelude.{IfOk};
ghost use Rattle.command_desk.specs.Acting.{HasActedBy};
ghost use Rattle.commands_data.specs.Commands.{distributed, distributed_in};

use crate::faults::make_block;
use command_desk::{CommandEnd, span_at};
use formula_eval::Tally;
use formula_parts::Scene;
use grid_address::Span;
use lics_text::Memory;
use session_rooms::Answers;
use work_sheet::Worksheet;

// How many of the values lie in each bin is written beside the bins.
fn distribute_in(
    values: Span,
    bins: Span,
    sheet: &mut Worksheet,
    scene: &Scene,
    tally: &mut Tally,
) -> Result<CommandEnd, Memory>
    ensures { IfOk result (λ end. HasActedBy (distributed_in values bins scene.entry.now)
        end sheet.old sheet.new tally.old.count tally.new.count) }
{
    let answer = data_blocks::distribution(sheet.alloc(), values, bins, sheet);
    make_block(answer, sheet, scene, tally)
}

/// Counts the values of the span that the first answer is in the bins that the second one is. It is refused by the
/// errors of `span_at` for the first answer and then for the second, by `OutOfSheet` with the bins, and by `Protected`.
pub fn distribute(
    answers: &Answers,
    sheet: &mut Worksheet,
    scene: &Scene,
    tally: &mut Tally,
) -> Result<CommandEnd, Memory>
    ensures { IfOk result (λ end. HasActedBy (distributed answers.now scene.entry.now)
        end sheet.old sheet.new tally.old.count tally.new.count) }
{
    match span_at(sheet.names(), answers, 0) {
        Ok(values) => match span_at(sheet.names(), answers, 1) {
            Ok(bins) => distribute_in(values, bins, sheet, scene, tally),
            Err(error) => Ok(CommandEnd::Refused(error)),
        },
        Err(error) => Ok(CommandEnd::Refused(error)),
    }
}
