// When a record matches a criterion.
ghost use Rattle.std.specs.Prelude.{◌≡◌, ◌≤◌, IfOk};
ghost use Rattle.record_match.specs.Criteria.{matching};
ghost use Rattle.formula_parts.specs.Outlook.{Sight};
ghost use Rattle.formula_parts.specs.Scenes.{outlook_of};

use crate::criteria::{fields_of, record_matches};
use crate::fields::has_fields;
use crate::headers::missing;
use crate::query::Query;
use formula_parts::{Look, Scene};
use grid_address::Cell;
use lics_text::Memory;
use std::alloc::Global;

/// Whether a record matches: it does or doesn't, the first row of the input names no fields, or a header of the
/// criterion above a number or a label names none of them (the first such header).
#[derive(Clone, Copy)]
pub enum Match {
    Yes,
    No,
    NoFieldRow,
    FieldAbsent(Cell),
}

/// Whether the record in a row of the input matches the criterion: all conditions of some row of the criterion hold of
/// it. The first row of the input is no record. `NoFieldRow` comes exactly where the input has one row or its first
/// row holds a cell that is no label, and else `FieldAbsent` exactly where a header above a number or a label names no
/// field, with the first such header. Want of memory is the only fault. (Release 2 manual; the order of the two, and
/// that the first of two equal names counts, are this project's own choice.)
pub fn matches<K: Look>(
    alloc: Global,
    query: &Query,
    row: u16,
    look: &K,
    scene: &Scene,
) -> Result<Match, Memory>
    requires first { query.now.input.first.row ≤ row }
    requires last { row ≤ query.now.input.last.row }
    ensures { let w = outlook_of (K.sight look.now) scene.entry.now in
        IfOk result (λ m. m ≡ matching w query.now.input query.now.criterion row) }
{
    if !has_fields(look, query.input) {
        return Ok(Match::NoFieldRow);
    }
    if let Some(col) = missing(look, query.input, query.criterion) {
        let row = query.criterion.first.row;
        return Ok(Match::FieldAbsent(Cell { row, col }));
    }
    if row == query.input.first.row {
        return Ok(Match::No);
    }
    query.input.last.is_on_sheet();
    let fields = fields_of(alloc, look, query.input, query.criterion)?;
    let found = record_matches(look, scene, query, fields.as_slice(), row)?;
    if found { Ok(Match::Yes) } else { Ok(Match::No) }
}
