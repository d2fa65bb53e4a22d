// Format indicators.
ghost use Rattle.std.specs.Prelude.{◌≡◌, ◌≤◌, ◌<◌, ◌∷◌, ◌++◌, [], length};
ghost use Rattle.cell_format.specs.Indicator.{date_digit, indicated, indicator_of, lettered};
ghost use Rattle.cell_format.specs.Format.{HasFewPlaces};

use crate::{DateForm, Shape, shape_of};
use grid_address::{AddressText, Format, decimal_text};

// A letter with its decimals, in brackets.
fn lettered(letter: u8, places: u8) -> AddressText
    requires { places < 16 }
    ensures { result ≡ lettered letter places }
{
    let digits = decimal_text(u64::from(places));
    let mut text = AddressText::new();
    text.put_all(&[b'(', letter]);
    text.put_all(digits.bytes());
    text.put_all(b")");
    text
}

// The digit of a date's format.
fn date_digit(form: DateForm) -> u8
    ensures { result ≡ date_digit form }
{
    match form {
        DateForm::DayMonthYear => b'1',
        DateForm::DayMonth => b'2',
        DateForm::MonthYear => b'3',
    }
}

// An indicator of these bytes.
fn plain(bytes: &[u8]) -> AddressText
    requires { length bytes.now ≤ 6 }
    ensures { result ≡ bytes.now }
{
    let mut text = AddressText::new();
    text.put_all(bytes);
    text
}

/// The indicator of a format, in its brackets: (F2) and its like, and nothing for the default format.
pub fn indicator(format: Format) -> AddressText
    ensures { result ≡ indicator_of format.0 }
{
    match shape_of(format) {
        Shape::Fixed(places) => lettered(b'F', places),
        Shape::Scientific(places) => lettered(b'S', places),
        Shape::Currency(places) => lettered(b'C', places),
        Shape::Percent(places) => lettered(b'P', places),
        Shape::Comma(places) => lettered(b',', places),
        Shape::Bar => plain(b"(+)"),
        Shape::General => plain(b"(G)"),
        Shape::Date(form) => plain(&[b'(', b'D', date_digit(form), b')']),
        Shape::Text => plain(b"(T)"),
        Shape::Hidden => plain(b"(H)"),
        Shape::Default => plain(b""),
        Shape::Unnamed => plain(b"(?)"),
    }
}
