// The lines on columns.
ghost use Rattle.std.specs.Prelude.{◌≡◌, ◌<◌, ◌++◌, ◌∷◌, [], OnOk};
ghost use Rattle.sheet_listing.specs.Lines.{line};
ghost use Rattle.sheet_listing.specs.Listed.{column_line, column_lines, hidden_word};

use crate::lines::put_line;
use grid_address::{column_text, decimal_text};
use lics_text::Memory;
use sheet_store::Store;

// The word of a hidden column.
fn hidden_word(hidden: bool) -> &'static [u8]
    ensures { result.now ≡ hidden_word hidden }
{
    if hidden { b"Hidden" } else { b"" }
}

// Adds the line on a column, where something is its own.
fn put_column(col: u8, width: Option<u8>, hidden: bool, into: &mut Vec<u8>) -> Result<(), Memory>
    ensures { OnOk result (into.new.items ≡ into.old.items ++ column_line col width hidden) }
{
    let letters = column_text(col);
    match width {
        Some(width) => {
            let digits = decimal_text(u64::from(width));
            let word = hidden_word(hidden);
            put_line(b"column", &[letters.bytes(), digits.bytes(), word], into)
        }
        None if hidden => put_line(b"column", &[letters.bytes(), b"", hidden_word(true)], into),
        None => Ok(()),
    }
}

/// Adds the lines on columns that have a width of their own or are hidden, in their order.
pub fn put_columns(store: &Store, into: &mut Vec<u8>) -> Result<(), Memory>
    ensures { OnOk result (into.new.items ≡ into.old.items ++ column_lines store.now) }
{
    for col in 0..256usize {
        let at = col as u8;
        put_column(at, store.width(at), store.is_hidden(at), into)?;
    }
    Ok(())
}
