// The fields of a range of records, which its first row names.
ghost use Rattle.std.specs.Prelude.{◌≡◌, IfSome, IfNone, Some, None};
ghost use Rattle.std.specs.List.{list_all};
ghost use Rattle.grid_address.specs.Lines.{at, columns_of};
ghost use Rattle.record_match.specs.Fields.{field_named, has_fields, is_label_at, is_no_field, label_in, same_label};
ghost use Rattle.formula_parts.specs.Outlook.{Sight};
ghost use Rattle.lics_text.specs.Seen.{seen_text};

use formula_parts::Look;
use formula_tree::ContentRef;
use grid_address::{Cell, Span, column_at, header};
use lics_text::TextRef;

// The text of a label in a cell.
fn label_at<K: Look>(look: &K, cell: Cell) -> Option<TextRef<'_>>
    ensures some { IfSome result (λ t. label_in ((K.sight look.now).contents cell) ≡ Some (seen_text t)) }
    ensures none { IfNone result (label_in ((K.sight look.now).contents cell) ≡ None) }
{
    match look.content(cell) {
        Some(ContentRef::Label(_, text)) => Some(text),
        Some(ContentRef::Blank | ContentRef::Number(_) | ContentRef::Formula(_)) | None => None,
    }
}

/// Whether a cell holds a label.
pub fn is_label_at<K: Look>(look: &K, cell: Cell) -> bool
    ensures { result ≡ is_label_at (K.sight look.now) cell }
{
    match label_at(look, cell) {
        Some(_) => true,
        None => false,
    }
}

// Whether two cells hold labels that are equal, letters folded.
fn same_label<K: Look>(look: &K, a: Cell, b: Cell) -> bool
    ensures { let contents = (K.sight look.now).contents in
        result ≡ same_label (label_in (contents a)) (label_in (contents b)) }
{
    match label_at(look, a) {
        Some(text) => match label_at(look, b) {
            Some(other) => text.fold_cmp(other).is_eq(),
            None => false,
        },
        None => false,
    }
}

// Whether the first row of a span is all labels.
fn is_row_of_labels<K: Look>(look: &K, input: Span) -> bool
    ensures { let sight = K.sight look.now in
        result ≡ list_all (λ col. is_label_at sight (at input.first.row col)) (columns_of input) }
{
    for col in 0..input.width() {
        if !is_label_at(look, header(input, col)) {
            return false;
        }
    }
    true
}

/// Whether there are records, and the first row names their fields by labels.
pub fn has_fields<K: Look>(look: &K, input: Span) -> bool
    ensures { result ≡ has_fields (K.sight look.now) input }
{
    input.first.row < input.last.row && is_row_of_labels(look, input)
}

/// The column of the first field that a header names.
pub fn field_named<K: Look>(look: &K, input: Span, name: Cell) -> Option<u8>
    ensures { result ≡ field_named (K.sight look.now) input name }
{
    for col in 0..input.width() {
        if same_label(look, name, header(input, col)) {
            return Some(column_at(input, col));
        }
    }
    None
}

/// Whether a header names no field.
pub fn is_no_field<K: Look>(look: &K, input: Span, name: Cell) -> bool
    ensures { result ≡ is_no_field (K.sight look.now) input name }
{
    match field_named(look, input, name) {
        Some(_) => false,
        None => true,
    }
}
