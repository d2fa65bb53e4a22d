// The columns of a report.
ghost use Rattle.std.specs.Prelude.{◌≡◌, ◌≤◌, ◌∷◌, length, take, drop};
ghost use Rattle.print_report.specs.Bands.{bands, columns_of, wide, width_in};
ghost use Rattle.print_report.specs.Jobs.{sheet_of};

use crate::PrintedSheet;
use grid_address::Span;
use lics_text::ByteList;
use sheet_store::MOST_WIDTH;

/// Columns, from left to right.
pub type Columns = ByteList<256>;

/// A column's width: its own or the sheet's.
pub fn width_in(sheet: &PrintedSheet, col: u8) -> u8
    ensures width { result ≡ width_in (sheet_of sheet.now) col }
    ensures most { result ≤ MOST_WIDTH }
{
    let settings = *sheet.settings;
    settings.are_within();
    match sheet.store.width(col) {
        Some(width) => width,
        None => settings.width,
    }
}

/// The columns of the range, without the hidden ones.
pub fn columns_of(sheet: &PrintedSheet, range: Span) -> Columns
    ensures { result ≡ columns_of (sheet_of sheet.now) range }
{
    let mut columns = Columns::new();
    for col in u16::from(range.first.col)..u16::from(range.last.col) + 1 {
        let col = col as u8;
        if sheet.store.is_hidden(col) {
            continue;
        }
        columns.put_all(&[col]);
    }
    columns
}

/// How many of the columns the first band has, at least one.
pub fn band_len(sheet: &PrintedSheet, width: u8, columns: &[u8]) -> usize
    requires { 1 ≤ length columns.now }
    ensures bands { bands (sheet_of sheet.now) width columns.now
        ≡ take result columns.now ∷ bands (sheet_of sheet.now) width (drop result columns.now) }
    ensures some { 1 ≤ result }
    ensures within { result ≤ length columns.now }
    ensures wide { wide (sheet_of sheet.now) (take result columns.now) ≤ 255 }
{
    let mut room = width.saturating_sub(width_in(sheet, columns[0]));
    let mut at = 1;
    while at < columns.len() {
        let column = width_in(sheet, columns[at]);
        if column > room {
            return at;
        }
        room -= column;
        at += 1;
    }
    at
}
