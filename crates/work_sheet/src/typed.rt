// What a cell holds, as it would be typed.
ghost use Rattle.std.specs.Prelude.{◌≡◌, ◌≤◌, ◌∷◌, [], length, nat_le, take};
ghost use Rattle.lics_text.specs.Prefixes.{prefix_byte};
ghost use Rattle.fixed_value.specs.Written.{short};
ghost use Rattle.work_sheet.specs.Typed.{typed, typed_content};
ghost use Rattle.lics_text.specs.Seen.{seen_text};

use fixed_value::{Fixed, write_short};
use formula_text::print;
use formula_tree::ContentRef;
use grid_address::Cell;
use lics_text::{LabelPrefix, Line, MAX_LEN, TextRef};
use range_names::Names;
use sheet_store::{CellState, Store};

// As many bytes of a label have room beside its prefix.
const MOST_OF_LABEL: usize = 239;

// A number with the places that it needs, which is never longer than a line.
fn put_number(number: Fixed, into: &mut Line) -> bool
    requires { into.old ≡ [] }
    ensures line { into.new ≡ take MAX_LEN (short number 6) }
    ensures whole { result ≡ nat_le (length (short number 6)) MAX_LEN }
{
    let digits = write_short(number, 6);
    into.put_all(digits.bytes());
    true
}

// A label's prefix and its text; of a text of 240 bytes the last one has no room.
fn put_label(prefix: LabelPrefix, text: TextRef<'_>, into: &mut Line) -> bool
    requires { into.old ≡ [] }
    ensures line { into.new ≡ take MAX_LEN (prefix_byte prefix ∷ seen_text text.entry) }
    ensures whole { result ≡ nat_le (length (prefix_byte prefix ∷ seen_text text.entry)) MAX_LEN }
{
    let bytes = text.bytes();
    let room = MOST_OF_LABEL.min(bytes.len());
    let _ = into.put(prefix.byte());
    into.put_all(&bytes[..room]);
    bytes.len() <= MOST_OF_LABEL
}

// A state's content as it would be typed.
fn put_content(state: &CellState, cell: Cell, names: &Names, into: &mut Line) -> bool
    requires { into.old ≡ [] }
    ensures line { into.new ≡ take MAX_LEN (typed_content names.now cell state.now.content) }
    ensures whole { result ≡ nat_le (length (typed_content names.now cell state.now.content)) MAX_LEN }
{
    match state.content() {
        ContentRef::Blank => true,
        ContentRef::Number(number) => put_number(number, into),
        ContentRef::Label(prefix, text) => put_label(prefix, text, into),
        ContentRef::Formula(formula) => print(formula, cell, names, into),
    }
}

// The first 240 bytes of what a cell holds; the answer tells whether that is all.
pub fn text_of(store: &Store, names: &Names, cell: Cell, into: &mut Line) -> bool
    requires { into.old ≡ [] }
    ensures line { into.new ≡ take MAX_LEN (typed names.now store.now cell) }
    ensures whole { result ≡ nat_le (length (typed names.now store.now cell)) MAX_LEN }
{
    match store.get(cell) {
        Some(state) => put_content(state, cell, names, into),
        None => true,
    }
}
