// The settings that are kept for sorts and queries.
ghost use Rattle.std.specs.Prelude.{◌≡◌, ℕ};
ghost use Rattle.command_desk.specs.Acting.{HasActedOn};
ghost use Rattle.command_desk.specs.Desks.{of_desk};
ghost use Rattle.commands_data.specs.Answers.{key_at};
ghost use Rattle.commands_data.specs.Commands.{key_kept, range_kept};
ghost use Rattle.commands_data.specs.Kept.{kept, with_key, with_range, without_query, without_sort};

use command_desk::{CommandEnd, Desk, DeskRanges, SortKey, cell_at, order_at, span_at};
use desk_errors::CommandError;
use grid_address::Span;
use range_names::Names;
use session_rooms::Answers;

/// Which range is kept: that of a sort, or one of a query's.
#[derive(Clone, Copy)]
pub enum RangeSetting {
    Sort,
    Input,
    Criterion,
    Output,
}

/// Which of a sort's keys is kept.
#[derive(Clone, Copy)]
pub enum KeySetting {
    Primary,
    Secondary,
}

// Keeps a range.
fn put_range(kind: RangeSetting, span: Span, ranges: &mut DeskRanges)
    ensures { ranges.new ≡ with_range kind span ranges.old }
{
    match kind {
        RangeSetting::Sort => ranges.sort = Some(span),
        RangeSetting::Input => ranges.input = Some(span),
        RangeSetting::Criterion => ranges.criterion = Some(span),
        RangeSetting::Output => ranges.output = Some(span),
    }
}

// Keeps a key.
fn put_key(kind: KeySetting, key: SortKey, ranges: &mut DeskRanges)
    ensures { ranges.new ≡ with_key kind key ranges.old }
{
    match kind {
        KeySetting::Primary => ranges.primary = Some(key),
        KeySetting::Secondary => ranges.secondary = Some(key),
    }
}

// The key that the answers are, or the error of the first that is none.
fn key_at(names: &Names, answers: &Answers) -> Result<SortKey, CommandError>
    ensures { result ≡ key_at names.now answers.now }
{
    let cell = cell_at(names, answers, 0)?;
    let descending = order_at(answers, 1)?;
    Ok(SortKey {
        col: cell.col,
        descending,
    })
}

/// Keeps the span that the answer is. It is refused by the errors of `span_at` alone.
pub fn keep_range(kind: RangeSetting, answers: &Answers, desk: &mut Desk) -> CommandEnd
    ensures { (n : ℕ) → HasActedOn (range_kept kind answers.now (of_desk desk.old)) result desk.old desk.new n n }
{
    match span_at(desk.sheet.names(), answers, 0) {
        Ok(span) => {
            put_range(kind, span, &mut desk.ranges);
            CommandEnd::Finished
        }
        Err(error) => CommandEnd::Refused(error),
    }
}

/// Keeps the key that the answers are: the column of the cell that the first one is, in the order of the second. It is
/// refused by the errors of `cell_at` and then of `order_at`.
pub fn keep_key(kind: KeySetting, answers: &Answers, desk: &mut Desk) -> CommandEnd
    ensures { (n : ℕ) → HasActedOn (key_kept kind answers.now (of_desk desk.old)) result desk.old desk.new n n }
{
    match key_at(desk.sheet.names(), answers) {
        Ok(key) => {
            put_key(kind, key, &mut desk.ranges);
            CommandEnd::Finished
        }
        Err(error) => CommandEnd::Refused(error),
    }
}

/// Forgets the range and the keys of sorts.
pub fn forget_sort(desk: &mut Desk) -> CommandEnd
    ensures { (n : ℕ) → HasActedOn (kept without_sort (of_desk desk.old)) result desk.old desk.new n n }
{
    desk.ranges.sort = None;
    desk.ranges.primary = None;
    desk.ranges.secondary = None;
    CommandEnd::Finished
}

/// Forgets the ranges of queries; the last query stays.
pub fn forget_query(desk: &mut Desk) -> CommandEnd
    ensures { (n : ℕ) → HasActedOn (kept without_query (of_desk desk.old)) result desk.old desk.new n n }
{
    desk.ranges.input = None;
    desk.ranges.criterion = None;
    desk.ranges.output = None;
    CommandEnd::Finished
}
