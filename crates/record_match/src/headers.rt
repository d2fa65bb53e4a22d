// Headers of a criterion that name no field.
ghost use Rattle.std.specs.Prelude.{◌≡◌, ◌<◌, ◌+◌};
ghost use Rattle.std.specs.List.{list_any};
ghost use Rattle.grid_address.specs.Place.{width_of};
ghost use Rattle.grid_address.specs.Lines.{at, rows_below};
ghost use Rattle.record_match.specs.Criteria.{asks_field, is_missing, missing};
ghost use Rattle.formula_parts.specs.Outlook.{Sight};

use crate::fields::is_no_field;
use formula_parts::Look;
use formula_tree::ContentRef;
use grid_address::{Cell, Span, column_at, count_below, header, row_below};

// Whether a cell is a condition that speaks of its field: a number or a label.
fn asks_field<K: Look>(look: &K, cell: Cell) -> bool
    ensures { result ≡ asks_field ((K.sight look.now).contents cell) }
{
    match look.content(cell) {
        Some(ContentRef::Number(_) | ContentRef::Label(_, _)) => true,
        Some(ContentRef::Blank | ContentRef::Formula(_)) | None => false,
    }
}

// Whether a condition below the header of a column speaks of its field.
fn is_asked_below<K: Look>(look: &K, criterion: Span, col: u8) -> bool
    ensures { let contents = (K.sight look.now).contents in
        result ≡ list_any (λ row. asks_field (contents (at row col))) (rows_below criterion) }
{
    for place in 0..count_below(criterion) {
        let row = row_below(criterion, place);
        if asks_field(look, Cell { row, col }) {
            return true;
        }
    }
    false
}

// Whether a header names no field, and a condition below it speaks of one.
fn is_missing<K: Look>(look: &K, input: Span, criterion: Span, col: u16) -> bool
    requires { col < width_of criterion }
    ensures { result ≡ is_missing (K.sight look.now) input criterion (criterion.first.col + col) }
{
    let name = header(criterion, col);
    is_no_field(look, input, name) && is_asked_below(look, criterion, column_at(criterion, col))
}

/// The column of the first header that names no field, above a condition that speaks of one.
pub fn missing<K: Look>(look: &K, input: Span, criterion: Span) -> Option<u8>
    ensures { result ≡ missing (K.sight look.now) input criterion }
{
    for col in 0..criterion.width() {
        if is_missing(look, input, criterion, col) {
            return Some(column_at(criterion, col));
        }
    }
    None
}
