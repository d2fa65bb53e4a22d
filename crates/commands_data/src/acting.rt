// Which command below Data is carried out.
ghost use Rattle.std.specs.Prelude.{IfOk};
ghost use Rattle.command_desk.specs.Acting.{HasActedOn};
ghost use Rattle.command_desk.specs.Desks.{of_desk};
ghost use Rattle.commands_data.specs.Commands.{act};

use crate::distributing::distribute;
use crate::filling::fill;
use crate::keeping::{KeySetting, RangeSetting, forget_query, forget_sort, keep_key, keep_range};
use crate::querying::make_query_of;
use crate::sorting::sort;
use crate::tables::{forget_table, repeat_table, table_one, table_two};
use command_desk::{CommandEnd, Desk, LastQuery};
use formula_eval::Tally;
use formula_parts::Scene;
use lics_text::Memory;
use menu_tree::DataAction;
use session_rooms::Answers;

/// Carries out a command below Data with its answers (Release 2 manual).
///
/// - Fill writes numbers into the span that the first answer is, column by column, from the second answer on by the
///   third, before the first that is past the fourth or beyond the size of a number.
/// - Distribution counts the values of the span that the first answer is in the bins of the first column of the second,
///   and writes the counts beside the bins, and one row further those above the last.
/// - Data-Range, Primary-Key, Secondary-Key, Input, Criterion and Output keep what they are answered; a key is a cell's
///   column, and its order A or D in either case. The Reset of a sort forgets its range and keys, that of a query its
///   ranges; neither forgets which query was the last. No edit of the sheet changes what is kept.
/// - Go puts the rows of the range in the order of the keys.
/// - Extract writes the records that match into the output, Unique those of them that differ, and Delete takes them out
///   of the input. The query that was carried out is the last one.
/// - Table 1, Table 2, their Reset and the key TABLE are those of `tables`, which tells what refuses them.
///
/// In Automatic mode a recalculation follows each that writes, and tables recalculate in either mode; where there is no
/// memory for it, the writes stand.
///
/// A command is refused by the first of these, and then leaves the desk as it was: the errors of its answers, the first
/// answer first; `QueryRangeMissing`, where a range that the query needs isn't kept, or its input has one row or a cell
/// in its first row that is no label; `SortMissing`, where there is no range or no first key; `KeyOutside`, where a
/// key's column isn't in the range; `ZeroStep`; `FieldNotFound` with the first header of the criterion, and then of the
/// output, that names no field; `OutputFull` with how many rows would be written; `OutOfSheet` with the bins, where a
/// count would leave the sheet; `Protected` with the first cell in row order that would be written and is protected,
/// where protection is on. (The order of the refusals is this project's choice.)
pub fn act(
    action: DataAction,
    answers: &Answers,
    desk: &mut Desk,
    scene: &Scene,
    tally: &mut Tally,
) -> Result<CommandEnd, Memory>
    ensures { IfOk result (λ end. HasActedOn (act action answers.now scene.entry.now (of_desk desk.old))
        end desk.old desk.new tally.old.count tally.new.count) }
{
    match action {
        DataAction::Fill => fill(answers, &mut desk.sheet, scene, tally),
        DataAction::Distribution => distribute(answers, &mut desk.sheet, scene, tally),
        DataAction::DataRange => Ok(keep_range(RangeSetting::Sort, answers, desk)),
        DataAction::PrimaryKey => Ok(keep_key(KeySetting::Primary, answers, desk)),
        DataAction::SecondaryKey => Ok(keep_key(KeySetting::Secondary, answers, desk)),
        DataAction::SortReset => Ok(forget_sort(desk)),
        DataAction::SortGo => sort(&desk.ranges, &mut desk.sheet, scene, tally),
        DataAction::Input => Ok(keep_range(RangeSetting::Input, answers, desk)),
        DataAction::Criterion => Ok(keep_range(RangeSetting::Criterion, answers, desk)),
        DataAction::Output => Ok(keep_range(RangeSetting::Output, answers, desk)),
        DataAction::Extract => make_query_of(LastQuery::Extract, desk, scene, tally),
        DataAction::Unique => make_query_of(LastQuery::Unique, desk, scene, tally),
        DataAction::QueryReset => Ok(forget_query(desk)),
        DataAction::DeleteRecords => make_query_of(LastQuery::Delete, desk, scene, tally),
        DataAction::TableOne => table_one(answers, desk, scene, tally),
        DataAction::TableTwo => table_two(answers, desk, scene, tally),
        DataAction::TableReset => Ok(forget_table(desk)),
        DataAction::RepeatTable => repeat_table(desk, scene, tally),
    }
}
