// What a cell shows in a width that is given.
ghost use Rattle.std.specs.Prelude.{◌≡◌, ◌≤◌, [], length, map, IfOk};
ghost use Rattle.macro_words.specs.Shown as spec;
ghost use Rattle.shown_cells.specs.Cells.{padded, shown_byte};
ghost use Rattle.shown_cells.specs.Parts.{fitting_text, shown_text};

use formula_parts::Look;
use grid_address::{Cell, Format};
use lics_text::{Line, MAX_LEN, Memory, Text};
use shown_cells::{Fitting, Shown, format_in, put_blanks, put_fitting, shown_byte, shown_content};
use std::alloc::Global;

// What a cell shows in a format: nothing where nothing is kept of it.
fn cell_in<'a, K: Look>(look: &'a K, cell: Cell, format: Format, width: u8) -> Shown<'a>
    ensures { let sight = K.sight look.now in shown_text result width
        ≡ spec.held_text sight.names cell (sight.contents cell) (sight.values cell) format.0 width }
{
    match look.content(cell) {
        None => Shown::RunsOn(b""),
        Some(content) => {
            let value = look.value(cell);
            shown_content(&content, &value, look.names(), cell, format, width)
        }
    }
}

// Puts a text that is cut or filled with blanks.
#[tactic(auto, using(crate::proofs::Showing::text_padded))]
fn put_padded(text: &[u8], width: u8, into: &mut Line)
    requires width { width ≤ MAX_LEN }
    requires empty { into.old ≡ [] }
    ensures { into.new ≡ padded width text.now }
{
    let width = usize::from(width);
    let shown = width.min(text.len());
    into.put_all(&text[..shown]);
    put_blanks(width - shown, into);
}

// Puts what fits a width, filled with blanks.
fn put_filled(fitting: &Fitting, width: u8, into: &mut Line)
    requires width { width ≤ MAX_LEN }
    requires empty { into.old ≡ [] }
    ensures { into.new ≡ padded width (fitting_text fitting.now width) }
{
    let mut text = Line::new();
    put_fitting(fitting, width, &mut text);
    put_padded(text.bytes(), width, into);
}

// Puts what a cell shows, cut or filled with blanks.
fn put_shown(shown: &Shown, width: u8, into: &mut Line)
    requires width { width ≤ MAX_LEN }
    requires empty { into.old ≡ [] }
    ensures { into.new ≡ padded width (shown_text shown.now width) }
{
    match shown {
        Shown::RunsOn(text) => put_padded(text, width, into),
        Shown::Fits(fitting) => put_filled(fitting, width, into),
    }
}

// The text of bytes as they are shown.
fn as_shown(alloc: Global, bytes: &[u8]) -> Result<Text, Memory>
    requires { length bytes.now ≤ MAX_LEN }
    ensures { IfOk result (λ t. t ≡ map shown_byte bytes.now) }
{
    let mut line = Line::new();
    for at in 0..bytes.len() {
        line.put_all(&[shown_byte(bytes[at])]);
    }
    Text::copy_of(alloc, line.bytes())
}

/// What a cell shows in a width of at most 240 and by a format byte, in whose place the sheet's stands where it is the
/// default one: bytes other than 32 to 126 as a question mark.
pub fn shown_cell<K: Look>(
    alloc: Global,
    look: &K,
    global: Format,
    cell: Cell,
    width: u8,
    own: Format,
) -> Result<Text, Memory>
    requires { width ≤ MAX_LEN }
    ensures { IfOk result (λ t. t ≡ spec.shown_cell (K.sight look.now) global.0 cell width own.0) }
{
    let shown = cell_in(look, cell, format_in(global, own), width);
    let mut line = Line::new();
    put_shown(&shown, width, &mut line);
    as_shown(alloc, line.bytes())
}
