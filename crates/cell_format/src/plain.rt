// Numbers that go into their cell at once.
ghost use Rattle.std.specs.Prelude.{◌≡◌, ◌-◌, length, true, false, ℕ, ℤ};
ghost use Rattle.cell_format.specs.Format.{shape_of, HasFewPlaces};
ghost use Rattle.cell_format.specs.Numbers.{fitting, number_text, shown_number, spaces};

use crate::{Shape, shape_of};
use fixed_value::{Fixed, put_exact};
use grid_address::Format;

// Whether it shows numbers with as many decimals as fit.
fn is_general(shape: Shape) -> bool
    ensures { result ≡ true → (v : ℤ) (room : ℕ) → number_text shape v room ≡ fitting 6 v room }
{
    match shape {
        Shape::Fixed(_)
        | Shape::Currency(_)
        | Shape::Percent(_)
        | Shape::Comma(_)
        | Shape::Date(_)
        | Shape::Hidden => false,
        Shape::Scientific(_)
        | Shape::Bar
        | Shape::General
        | Shape::Text
        | Shape::Default
        | Shape::Unnamed => true,
    }
}

// Whether a format shows numbers with as many decimals as fit. The usual format is looked at first, for speed.
fn shows_decimals_that_fit(format: Format) -> bool
    ensures { result ≡ true → (v : ℤ) (room : ℕ) → number_text (shape_of format.0) v room ≡ fitting 6 v room }
{
    format.is_shown_as(Format::GENERAL) || is_general(shape_of(format))
}

/// Puts a number into a blank cell, where its format shows as many decimals as fit and those that it has do fit.
/// Whether it did; where it didn't, the cell is as it was, and `show_number` tells what it shows.
pub fn put_plain(value: Fixed, format: Format, cell: &mut [u8]) -> bool
    requires { cell.old ≡ spaces (length cell.old) }
    ensures shown { result ≡ true → cell.new ≡ shown_number value format.0 (length cell.old) }
    ensures same { result ≡ false → cell.new ≡ cell.old }
    ensures size { length cell.new ≡ length cell.old }
{
    let width = cell.len();
    if width == 0 || !shows_decimals_that_fit(format) {
        return false;
    }
    put_exact(value, cell, width - 1)
}
