// Which records match a criterion.
ghost use Rattle.std.specs.Prelude.{◌≡◌, ◌<◌, ◌≤◌, IfOk};
ghost use Rattle.grid_address.specs.Lines.{last_row, rows_down};
ghost use Rattle.formula_tree.specs.Seen.{seen_content, seen_value};
ghost use Rattle.record_match.specs.Criteria.{condition_holds, content_holds, fields_of, record_matches, row_holds, value_of_field};
ghost use Rattle.formula_parts.specs.Outlook.{Sight};
ghost use Rattle.formula_parts.specs.Scenes.{outlook_of};

use crate::fields::field_named;
use crate::query::Query;
use formula_parts::{Look, Scene, glance_within};
use formula_tree::{ContentRef, ValueRef};
use grid_address::{Cell, Span, column_at, count_below, header, row_below, rows_behind, rows_down};
use lics_text::Memory;
use std::alloc::Global;
use value_functions::{equals_number, fits, is_true};

/// Whether a condition holds of the value of a field: a blank one does, a number of an equal number, a label of what
/// fits it, and a formula where its value at `place` is a number other than 0; a function of records in it is ERR.
/// (Release 2 manual; the last is this project's own choice.)
pub fn content_holds<K: Look>(
    content: &ContentRef<'_>,
    place: Cell,
    value: &ValueRef<'_>,
    look: &K,
    scene: &Scene,
) -> Result<bool, Memory>
    ensures { let w = outlook_of (K.sight look.now) scene.entry.now in
        IfOk result (λ b. b ≡ content_holds w (seen_content content.now) place (seen_value value.now)) }
{
    match content {
        ContentRef::Blank => Ok(true),
        ContentRef::Number(number) => Ok(equals_number(*number, value)),
        ContentRef::Label(_, pattern) => Ok(fits(*pattern, value)),
        ContentRef::Formula(formula) => {
            let value = glance_within(formula, place, look, scene)?;
            Ok(is_true(&value))
        }
    }
}

/// The field that each header of a criterion names.
pub fn fields_of<K: Look>(
    alloc: Global,
    look: &K,
    input: Span,
    criterion: Span,
) -> Result<Vec<Option<u8>>, Memory>
    ensures { IfOk result (λ v. v.items ≡ fields_of (K.sight look.now) input criterion) }
{
    let mut fields = Vec::new(alloc);
    for col in 0..criterion.width() {
        fields.push(field_named(look, input, header(criterion, col)))?;
    }
    Ok(fields)
}

// Whether the condition in a cell, if there is one, holds of the field of a record so many rows below the first.
fn holds<K: Look>(
    look: &K,
    scene: &Scene,
    cell: Cell,
    field: Option<u8>,
    row: u16,
    count: u16,
) -> Result<bool, Memory>
    requires row { row ≤ last_row }
    requires count { count ≤ last_row }
    ensures { let w = outlook_of (K.sight look.now) scene.entry.now in let field = value_of_field w.sight field row in
        IfOk result (λ b. b ≡ condition_holds w (w.sight.contents cell) (rows_down count cell) field) }
{
    let Some(content) = look.content(cell) else {
        return Ok(true);
    };
    let place = rows_down(count, cell);
    match field {
        Some(col) => {
            let value = look.value(Cell { row, col });
            content_holds(&content, place, &value, look, scene)
        },
        None => content_holds(&content, place, &ValueRef::Blank, look, scene),
    }
}

// Whether all conditions of a criterion row hold of a record.
fn row_holds<K: Look>(
    look: &K,
    scene: &Scene,
    query: &Query,
    fields: &[Option<u8>],
    row: u16,
    conditions: u16,
) -> Result<bool, Memory>
    requires fields { fields.now ≡ fields_of (K.sight look.now) query.now.input query.now.criterion }
    requires record { query.now.input.first.row < row }
    requires row { row ≤ last_row }
    requires conditions { conditions ≤ last_row }
    ensures { let w = outlook_of (K.sight look.now) scene.entry.now in
        IfOk result (λ b. b ≡ row_holds w query.now.input query.now.criterion row conditions) }
{
    let count = rows_behind(query.input, row);
    for col in 0..query.criterion.width() {
        let cell = Cell {
            row: conditions,
            col: column_at(query.criterion, col),
        };
        let held = holds(look, scene, cell, fields[usize::from(col)], row, count)?;
        if !held {
            return Ok(false);
        }
    }
    Ok(true)
}

/// Whether a record matches some row of a criterion, whose headers name these fields.
pub fn record_matches<K: Look>(
    look: &K,
    scene: &Scene,
    query: &Query,
    fields: &[Option<u8>],
    row: u16,
) -> Result<bool, Memory>
    requires fields { fields.now ≡ fields_of (K.sight look.now) query.now.input query.now.criterion }
    requires record { query.now.input.first.row < row }
    requires row { row ≤ last_row }
    ensures { let w = outlook_of (K.sight look.now) scene.entry.now in
        IfOk result (λ b. b ≡ record_matches w query.now.input query.now.criterion row) }
{
    for place in 0..count_below(query.criterion) {
        let conditions = row_below(query.criterion, place);
        let found = row_holds(look, scene, query, fields, row, conditions)?;
        if found {
            return Ok(true);
        }
    }
    Ok(false)
}
