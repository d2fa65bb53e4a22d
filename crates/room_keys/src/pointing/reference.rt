// A pointed reference as text.
ghost use Rattle.std.specs.Prelude.{◌≡◌, ◌≤◌, ◌+◌, ◌++◌, length};
ghost use Rattle.std.specs.List.{All};
ghost use Rattle.lics_text.specs.Ascii as ascii;
ghost use Rattle.room_keys.specs.pointing.Pointing.{answer_text, fixes_column, fixes_row, reference_by, reference_text};
ghost use Rattle.room_keys.specs.pointing.Pointing.{sign_if, signed_address};

use grid_address::{Cell, column_text, row_text};
use lics_text::ByteList;
use session_rooms::{Pointed, Signs};

/// A reference as it is put into a line: at most two addresses of 8 bytes, with two dots between them.
pub type ReferenceText = ByteList<18>;

// A $ stands before the column.
fn fixes_column(signs: Signs) -> bool
    ensures { result ≡ fixes_column signs }
{
    match signs {
        Signs::Both | Signs::Column => true,
        Signs::None | Signs::Row => false,
    }
}

// A $ stands before the row.
fn fixes_row(signs: Signs) -> bool
    ensures { result ≡ fixes_row signs }
{
    match signs {
        Signs::Both | Signs::Row => true,
        Signs::None | Signs::Column => false,
    }
}

// The sign, or nothing.
fn sign_if(fixed: bool) -> &'static [u8]
    ensures sign { result.now ≡ sign_if fixed }
    ensures short { length result.now ≤ 1 }
{
    if fixed { b"$" } else { b"" }
}

// Adds an address with its signs, 2 to 8 bytes.
fn put_address(text: &mut ReferenceText, signs: Signs, cell: Cell)
    requires { length text.old ≤ 10 }
    ensures text { text.new ≡ text.old ++ signed_address signs cell }
    ensures length { length text.new ≤ length text.old + 8 }
{
    cell.is_on_sheet();
    text.put_all(sign_if(fixes_column(signs)));
    text.put_all(column_text(cell.col).bytes());
    text.put_all(sign_if(fixes_row(signs)));
    text.put_all(row_text(cell.row).bytes());
}

// The corner, or the anchor and the corner with two dots between them.
fn reference_by(signs: Signs, anchor: Option<Cell>, corner: Cell) -> ReferenceText
    ensures { result ≡ reference_by signs anchor corner }
{
    let mut text = ReferenceText::new();
    if let Some(cell) = anchor {
        put_address(&mut text, signs, cell);
        text.put_all(b"..");
    }
    put_address(&mut text, signs, corner);
    text
}

/// The reference as it is put into a line: the corner, or the anchor and the corner with two dots between them, each
/// with its `$` signs.
#[tactic(auto, using(crate::proofs::Printable::reference_prints))]
pub fn reference_text(pointed: &Pointed) -> ReferenceText
    ensures text { result ≡ reference_text pointed.now }
    ensures bytes { All (λ b. ascii.space ≤ b) (reference_text pointed.now) }
{
    reference_by(pointed.signs, pointed.anchor, pointed.corner)
}

/// The span as an answer has it: the same without signs.
#[tactic(auto, using(crate::proofs::Printable::reference_prints))]
pub fn answer_text(pointed: &Pointed) -> ReferenceText
    ensures text { result ≡ answer_text pointed.now }
    ensures bytes { All (λ b. ascii.space ≤ b) (answer_text pointed.now) }
{
    reference_by(Signs::None, pointed.anchor, pointed.corner)
}
