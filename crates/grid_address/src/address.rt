// How addresses are written: A1 to IV8192.
ghost use Rattle.std.specs.Prelude.{◌≡◌, ◌≤◌, ◌<◌, ◌+◌, ◌++◌, [], length};
ghost use Rattle.grid_address.specs.Address.{address_of, column_name, decimal};

use crate::decimal::decimal_text;
use crate::{Cell, ROWS};
use lics_text::ByteList;

/// A short text, as an address or a piece of one: at most 6 bytes.
pub type AddressText = ByteList<6>;

// Adds the letters of a column.
fn push_column(text: &mut AddressText, col: u8)
    requires { text.old ≡ [] }
    ensures { text.new ≡ column_name col }
{
    if col >= 26 {
        text.put_all(&[b'A' - 1 + col / 26]);
    }
    text.put_all(&[b'A' + col % 26]);
}

// Adds a row's number, counted from 1.
#[tactic(auto, using(crate::proofs::Decimals::row_digits))]
fn push_row(text: &mut AddressText, row: u16)
    requires row_in { row < ROWS }
    requires room { length text.old ≤ 2 }
    ensures { text.new ≡ text.old ++ decimal (row + 1) }
{
    let number = decimal_text(u64::from(row) + 1);
    text.put_all(number.bytes());
}

/// A column's letters, A to IV.
#[tactic(auto, using(crate::proofs::Decimals::column_letters))]
pub fn column_text(col: u8) -> AddressText
    ensures value { result ≡ column_name col }
    ensures letters { length result ≤ 2 }
{
    let mut text = AddressText::new();
    push_column(&mut text, col);
    text
}

/// A row's number, 1 to 8192 for the rows 0 to 8191.
#[tactic(auto, using(crate::proofs::Decimals::row_digits))]
pub fn row_text(row: u16) -> AddressText
    requires { row < ROWS }
    ensures value { result ≡ decimal (row + 1) }
    ensures digits { length result ≤ 4 }
{
    let mut text = AddressText::new();
    push_row(&mut text, row);
    text
}

/// A cell's address, A1 to IV8192.
#[tactic(auto, using(crate::proofs::Decimals::row_digits, crate::proofs::Decimals::column_letters))]
pub fn cell_text(cell: Cell) -> AddressText
    ensures { result ≡ address_of cell }
{
    let mut text = AddressText::new();
    push_column(&mut text, cell.col);
    push_row(&mut text, cell.row);
    text
}
