// Queries.
ghost use Rattle.std.specs.Prelude.{◌≡◌, IfOk};
ghost use Rattle.command_desk.specs.Acting.{HasActedBy, HasActedOn};
ghost use Rattle.command_desk.specs.Desks.{of_desk};
ghost use Rattle.commands_data.specs.Commands.{deleted, deleted_from, extracted, extracted_into, queried, query_made};
ghost use Rattle.commands_data.specs.Kept.{if_finished};

use crate::faults::make_query;
use command_desk::{CommandEnd, Desk, DeskRanges, LastQuery};
use data_query::{Extraction, Query};
use desk_errors::CommandError;
use formula_eval::Tally;
use formula_parts::Scene;
use lics_text::Memory;
use work_sheet::Worksheet;

// The records that match, or those of them that differ, are written into the output.
fn extract_into(
    extraction: &Extraction,
    sheet: &mut Worksheet,
    scene: &Scene,
    tally: &mut Tally,
) -> Result<CommandEnd, Memory>
    ensures { let query = extraction.now.query in let output = extraction.now.output in
        let acts = extracted_into extraction.now.unique query.input query.criterion output scene.entry.now in
        IfOk result (λ end. HasActedBy acts end sheet.old sheet.new tally.old.count tally.new.count) }
{
    let answer = data_query::extract(sheet.alloc(), extraction, sheet, scene);
    make_query(answer, sheet, scene, tally)
}

// The records that match are taken out of the input.
fn delete_from(
    query: &Query,
    sheet: &mut Worksheet,
    scene: &Scene,
    tally: &mut Tally,
) -> Result<CommandEnd, Memory>
    ensures { IfOk result (λ end. HasActedBy (deleted_from query.now.input query.now.criterion scene.entry.now)
        end sheet.old sheet.new tally.old.count tally.new.count) }
{
    let answer = data_query::deletion(sheet.alloc(), query, sheet, scene);
    make_query(answer, sheet, scene, tally)
}

// Extract or Unique over the kept ranges.
fn extract(
    unique: bool,
    ranges: &DeskRanges,
    sheet: &mut Worksheet,
    scene: &Scene,
    tally: &mut Tally,
) -> Result<CommandEnd, Memory>
    ensures { let acts = extracted unique ranges.now.input ranges.now.criterion ranges.now.output scene.entry.now in
        IfOk result (λ end. HasActedBy acts end sheet.old sheet.new tally.old.count tally.new.count) }
{
    match (ranges.input, ranges.criterion, ranges.output) {
        (Some(input), Some(criterion), Some(output)) => {
            let query = Query { input, criterion };
            let extraction = Extraction {
                query,
                output,
                unique,
            };
            extract_into(&extraction, sheet, scene, tally)
        }
        _ => Ok(CommandEnd::Refused(CommandError::QueryRangeMissing)),
    }
}

// Delete over the kept ranges.
fn delete(
    ranges: &DeskRanges,
    sheet: &mut Worksheet,
    scene: &Scene,
    tally: &mut Tally,
) -> Result<CommandEnd, Memory>
    ensures { let acts = deleted ranges.now.input ranges.now.criterion scene.entry.now in
        IfOk result (λ end. HasActedBy acts end sheet.old sheet.new tally.old.count tally.new.count) }
{
    match (ranges.input, ranges.criterion) {
        (Some(input), Some(criterion)) => {
            delete_from(&Query { input, criterion }, sheet, scene, tally)
        }
        _ => Ok(CommandEnd::Refused(CommandError::QueryRangeMissing)),
    }
}

// A query over the kept ranges.
fn query(
    kind: LastQuery,
    ranges: &DeskRanges,
    sheet: &mut Worksheet,
    scene: &Scene,
    tally: &mut Tally,
) -> Result<CommandEnd, Memory>
    ensures { IfOk result (λ end. HasActedBy (queried kind ranges.now scene.entry.now)
        end sheet.old sheet.new tally.old.count tally.new.count) }
{
    match kind {
        LastQuery::Nothing => Ok(CommandEnd::Refused(CommandError::QueryRangeMissing)),
        LastQuery::Extract => extract(false, ranges, sheet, scene, tally),
        LastQuery::Unique => extract(true, ranges, sheet, scene, tally),
        LastQuery::Delete => delete(ranges, sheet, scene, tally),
    }
}

// A query that was carried out is the last one.
fn remember(kind: LastQuery, end: &CommandEnd, ranges: &mut DeskRanges)
    ensures { ranges.new ≡ if_finished end.now (λ r. record r { last_query = kind }) ranges.old }
{
    if let CommandEnd::Finished = end {
        ranges.last_query = kind;
    }
}

/// Makes a query over the kept ranges, and keeps it as the last one where it is carried out. It is refused by
/// `QueryRangeMissing`, where a range that it needs isn't kept, or the input has one row or a cell in its first row
/// that is no label; by `FieldNotFound` with the first header that names no field; by `OutputFull` with how many rows
/// would be written; and by `Protected`.
pub fn make_query_of(
    kind: LastQuery,
    desk: &mut Desk,
    scene: &Scene,
    tally: &mut Tally,
) -> Result<CommandEnd, Memory>
    ensures { IfOk result (λ end. HasActedOn (query_made kind scene.entry.now (of_desk desk.old))
        end desk.old desk.new tally.old.count tally.new.count) }
{
    let end = query(kind, &desk.ranges, &mut desk.sheet, scene, tally)?;
    remember(kind, &end, &mut desk.ranges);
    Ok(end)
}
