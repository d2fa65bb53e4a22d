// Sorts.
ghost use Rattle.std.specs.Prelude.{◌≡◌, IfOk};
ghost use Rattle.command_desk.specs.Acting.{HasActedBy};
ghost use Rattle.commands_data.specs.Commands.{is_outside, keys_of, sorted, sorted_by};
ghost use Rattle.std.specs.List.{list_any};

use crate::faults::make_block;
use command_desk::{CommandEnd, DeskRanges, SortKey};
use data_blocks::sort_rows;
use desk_errors::CommandError;
use formula_eval::Tally;
use formula_parts::Scene;
use grid_address::Span;
use lics_text::Memory;
use work_sheet::Worksheet;

// Whether a key's column isn't in a range.
fn is_outside(range: Span, key: SortKey) -> bool
    ensures { result ≡ is_outside range key }
{
    key.col < range.first.col || range.last.col < key.col
}

// Whether the column of one of these keys isn't in a range.
fn any_outside(range: Span, keys: &[SortKey]) -> bool
    ensures { result ≡ list_any (is_outside range) keys.now }
{
    for key in keys {
        if is_outside(range, *key) {
            return true;
        }
    }
    false
}

// The rows of a range are put in the order of keys whose columns lie in it.
fn sort_by(
    range: Span,
    keys: &[SortKey],
    sheet: &mut Worksheet,
    scene: &Scene,
    tally: &mut Tally,
) -> Result<CommandEnd, Memory>
    ensures { IfOk result (λ end. HasActedBy (sorted_by range keys.now scene.entry.now)
        end sheet.old sheet.new tally.old.count tally.new.count) }
{
    if any_outside(range, keys) {
        return Ok(CommandEnd::Refused(CommandError::KeyOutside));
    }
    let answer = sort_rows(sheet.alloc(), range, keys, sheet);
    make_block(answer, sheet, scene, tally)
}

// The rows of a range are put in the order of a key, and of a second where there is one.
fn sort_by_keys(
    range: Span,
    first: SortKey,
    second: Option<SortKey>,
    sheet: &mut Worksheet,
    scene: &Scene,
    tally: &mut Tally,
) -> Result<CommandEnd, Memory>
    ensures { IfOk result (λ end. HasActedBy (sorted_by range (keys_of first second) scene.entry.now)
        end sheet.old sheet.new tally.old.count tally.new.count) }
{
    match second {
        Some(second) => sort_by(range, &[first, second], sheet, scene, tally),
        None => sort_by(range, &[first], sheet, scene, tally),
    }
}

/// Sorts the kept range by the kept keys. It is refused by `SortMissing`, where there is no range or no first key; by
/// `KeyOutside`, where a key's column isn't in the range; and by `Protected`.
pub fn sort(
    ranges: &DeskRanges,
    sheet: &mut Worksheet,
    scene: &Scene,
    tally: &mut Tally,
) -> Result<CommandEnd, Memory>
    ensures { IfOk result (λ end. HasActedBy (sorted ranges.now scene.entry.now)
        end sheet.old sheet.new tally.old.count tally.new.count) }
{
    match (ranges.sort, ranges.primary) {
        (Some(range), Some(first)) => {
            sort_by_keys(range, first, ranges.secondary, sheet, scene, tally)
        }
        _ => Ok(CommandEnd::Refused(CommandError::SortMissing)),
    }
}
