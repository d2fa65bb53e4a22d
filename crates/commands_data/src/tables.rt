// Tables as commands on a desk.
ghost use Rattle.std.specs.Prelude.{IfOk, ℕ};
ghost use Rattle.command_desk.specs.Acting.{HasActedOn};
ghost use Rattle.command_desk.specs.Desks.{of_desk};
ghost use Rattle.commands_data.specs.TableCommands.{forgotten, made_on, repeated, table_one, table_two};

use crate::making::make;
use command_desk::{CommandEnd, Desk, LastTable, cell_at, span_at};
use formula_eval::Tally;
use formula_parts::Scene;
use lics_text::Memory;
use session_rooms::Answers;

// Makes a table on a desk; one that was made is the last one.
fn make_on(
    table: LastTable,
    desk: &mut Desk,
    scene: &Scene,
    tally: &mut Tally,
) -> Result<CommandEnd, Memory>
    ensures { IfOk result (λ end. HasActedOn (made_on table scene.entry.now (of_desk desk.old))
        end desk.old desk.new tally.old.count tally.new.count) }
{
    let end = make(&table, &mut desk.sheet, scene, tally)?;
    if let CommandEnd::Finished = end {
        desk.ranges.last_table = table;
    }
    Ok(end)
}

/// Carries out Data > Table > 1: the first answer is the span, whose first column below its top row holds the inputs
/// and whose top row from the second column on the formulas, and the second answer is the cell that takes the inputs.
///
/// Each input is entered into that cell as the table writes it, and all is recalculated in either mode; each cell
/// beside it then takes the value of the formula at its top. Inputs are read before the first is entered. Once all is
/// gathered, the cell gets its content back, a formula as a new formula, and all is recalculated; then the answers are
/// written, a text as a label with `'`, ERR as `@ERR` and NA as `@NA`, where a blank one makes its cell blank, and all
/// is recalculated once more (Release 2 manual; the order of the work is this project's own choice). The cells keep
/// their formats. A table that was made is the last one, which the key TABLE makes again.
///
/// It is refused by the first of these, and then leaves the desk as it was, without a recalculation: `InvalidAddress`
/// or `NameNotFound` for the span, then for the cell; `InvalidTable`, where the span has one row or one column;
/// `InputInTable`, where the cell lies in the span; `Protected` with the first protected one of the cells that are
/// written, where protection is on: the cell that takes the inputs, and then those that take answers, in row order.
///
/// Where there is no memory, the cell that takes the inputs may hold one of them, and the sheet keeps what it keeps.
pub fn table_one(
    answers: &Answers,
    desk: &mut Desk,
    scene: &Scene,
    tally: &mut Tally,
) -> Result<CommandEnd, Memory>
    ensures { IfOk result (λ end. HasActedOn (table_one answers.now scene.entry.now (of_desk desk.old))
        end desk.old desk.new tally.old.count tally.new.count) }
{
    match span_at(desk.sheet.names(), answers, 0) {
        Ok(span) => match cell_at(desk.sheet.names(), answers, 1) {
            Ok(input) => make_on(LastTable::One(span, input), desk, scene, tally),
            Err(error) => Ok(CommandEnd::Refused(error)),
        },
        Err(error) => Ok(CommandEnd::Refused(error)),
    }
}

/// Carries out Data > Table > 2: the first answer is the span, whose corner holds the formula, whose first column holds
/// the inputs of the cell that the second answer is, and whose top row those of the cell that the third one is.
///
/// For each other cell of the span, row by row, both inputs are entered, the first column's before the top row's, each
/// with a recalculation, and the cell takes the value of the corner. Beside that it is as table 1: of its two input
/// cells `InputInTable` and `Protected` name the one that is given first.
pub fn table_two(
    answers: &Answers,
    desk: &mut Desk,
    scene: &Scene,
    tally: &mut Tally,
) -> Result<CommandEnd, Memory>
    ensures { IfOk result (λ end. HasActedOn (table_two answers.now scene.entry.now (of_desk desk.old))
        end desk.old desk.new tally.old.count tally.new.count) }
{
    match span_at(desk.sheet.names(), answers, 0) {
        Ok(span) => match cell_at(desk.sheet.names(), answers, 1) {
            Ok(down) => match cell_at(desk.sheet.names(), answers, 2) {
                Ok(across) => make_on(LastTable::Two(span, down, across), desk, scene, tally),
                Err(error) => Ok(CommandEnd::Refused(error)),
            },
            Err(error) => Ok(CommandEnd::Refused(error)),
        },
        Err(error) => Ok(CommandEnd::Refused(error)),
    }
}

/// Carries out the key TABLE: the last table is made again, over the cells that its span and its input cells then are,
/// whatever the names are now (Release 2 manual). It is refused as a new table is, and by `InvalidTable` where there is
/// none.
pub fn repeat_table(desk: &mut Desk, scene: &Scene, tally: &mut Tally) -> Result<CommandEnd, Memory>
    ensures { IfOk result (λ end. HasActedOn (repeated scene.entry.now (of_desk desk.old))
        end desk.old desk.new tally.old.count tally.new.count) }
{
    make_on(desk.ranges.last_table, desk, scene, tally)
}

/// Carries out Data > Table > Reset: no table is the last one (Release 2 manual). Nothing else changes.
pub fn forget_table(desk: &mut Desk) -> CommandEnd
    ensures { (n : ℕ) → HasActedOn (forgotten (of_desk desk.old)) result desk.old desk.new n n }
{
    desk.ranges.last_table = LastTable::Nothing;
    CommandEnd::Finished
}
