// What fits a column.
ghost use Rattle.std.specs.Prelude.{◌≡◌, ◌≤◌, ◌++◌, ◌+◌, [], length, take, Some};
ghost use Rattle.cell_format.specs.Numbers.{placed, spaces, stars};
ghost use Rattle.formula_text.specs.Printed.{printed};
ghost use Rattle.shown_cells.specs.Parts.{fitting_text};

use cell_format::{show_label, show_number};
use fixed_value::Fixed;
use formula_text::print;
use formula_tree::Formula;
use grid_address::{Cell, Format};
use lics_text::{LabelPrefix, Line, MAX_LEN};
use range_names::Names;
use sheet_store::MOST_WIDTH;

const BLANKS: [u8; MAX_LEN] = [b' '; MAX_LEN];

const STARS: [u8; MAX_LEN] = [b'*'; MAX_LEN];

/// What is shown within a column's width, so that nothing runs on.
#[derive(Clone, Copy)]
pub enum Fitting<'a> {
    /// A number in a format.
    Number(Fixed, Format),
    /// A label that isn't longer than the width, or is repeated.
    Label(LabelPrefix, &'a [u8]),
    /// The value ERR.
    Err,
    /// The value NA.
    Na,
    /// A formula as it is printed in its cell with these names, cut at the width.
    Printed(&'a Formula, Cell, &'a Names),
}

/// Adds blanks to a line, for which there must be room.
#[tactic(auto, using(crate::proofs::Words::blanks_front))]
pub fn put_blanks(count: usize, into: &mut Line)
    requires { length into.old + count ≤ MAX_LEN }
    ensures { into.new ≡ into.old ++ spaces count }
{
    into.put_all(&BLANKS[..count]);
}

// Adds stars to a line, for which there must be room.
#[tactic(auto, using(crate::proofs::Words::stars_front))]
fn put_stars(count: usize, into: &mut Line)
    requires { length into.old + count ≤ MAX_LEN }
    ensures { into.new ≡ into.old ++ stars count }
{
    into.put_all(&STARS[..count]);
}

// Puts a word that ends one byte before the right edge, or stars.
#[tactic(auto, using(crate::proofs::Words::right_word))]
fn put_word(word: &[u8], width: u8, into: &mut Line)
    requires width { width ≤ MOST_WIDTH }
    requires empty { into.old ≡ [] }
    ensures text { into.new ≡ placed (Some word.now) width }
    ensures size { length into.new ≤ width }
{
    let width = usize::from(width);
    if word.len() < width {
        put_blanks(width - 1 - word.len(), into);
        into.put_all(word);
        into.put_all(b" ");
    } else {
        put_stars(width, into);
    }
}

// Puts a formula as it is printed, cut at the width.
fn put_printed(formula: &Formula, cell: Cell, names: &Names, width: u8, into: &mut Line)
    requires width { width ≤ MOST_WIDTH }
    requires empty { into.old ≡ [] }
    ensures text { into.new ≡ take width (printed names.now cell formula.now) }
    ensures size { length into.new ≤ width }
{
    let mut text = Line::new();
    let _ = print(formula, cell, names, &mut text);
    let bytes = text.bytes();
    into.put_all(&bytes[..usize::from(width).min(bytes.len())]);
}

/// Puts what fits a column of that width into an empty line.
pub fn put_fitting(shown: &Fitting, width: u8, into: &mut Line)
    requires width { width ≤ MOST_WIDTH }
    requires empty { into.old ≡ [] }
    ensures text { into.new ≡ fitting_text shown.now width }
    ensures size { length into.new ≤ width }
{
    match shown {
        Fitting::Number(number, format) => show_number(*number, *format, width, into),
        Fitting::Label(prefix, text) => show_label(*prefix, text, width, into),
        Fitting::Err => put_word(b"ERR", width, into),
        Fitting::Na => put_word(b"NA", width, into),
        Fitting::Printed(formula, cell, names) => put_printed(formula, *cell, names, width, into),
    }
}
