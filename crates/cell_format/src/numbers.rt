// Numbers as they are shown.
ghost use Rattle.std.specs.Int.RustNames.{int_lt};
ghost use Rattle.std.specs.Prelude.{◌≡◌, ◌≤◌, ◌<◌, ◌+◌, ◌-◌, ◌*◌, ◌++◌, ◌∷◌, ◌&&◌, ◌==◌, not, [], length, Some, ℕ};
ghost use Rattle.lics_text.specs.Ascii as ascii;
ghost use Rattle.cell_format.specs.Format.{shape_of, HasFewPlaces};
ghost use Rattle.cell_format.specs.Numbers.{at_right, bracketed, dated, fitting, grouped, number_text, placed, shown_number, size_text};
ghost use Rattle.fixed_value.specs.Written.{hundredfold, scaled, written};
ghost use Rattle.serial_date.specs.Calendar.{date_of};
ghost use Rattle.serial_date.specs.Fractions.{whole_day};

use crate::dates::day_text;
use crate::push::{fill, push, put_spaces};
use crate::{DateForm, Shape, shape_of};
use fixed_value::{
    Fixed, digits_len, front_len, rounds_to_zero, whole_len, write_decimal, write_exact,
    write_fitting, write_hundredfold, write_short,
};
use grid_address::Format;
use lics_text::{Line, MAX_LEN};

// A line of these bytes.
fn line_of(bytes: &[u8]) -> Line
    requires { length bytes.now ≤ MAX_LEN }
    ensures { result ≡ bytes.now }
{
    let mut line = Line::new();
    line.put_all(bytes);
    line
}

// Adds digits in groups of three.
fn push_grouped(into: &mut Line, digits: &[u8])
    requires { length into.old + 2 * length digits.now ≤ MAX_LEN }
    ensures lines { into.new ≡ into.old ++ grouped digits.now }
    ensures size { length into.new ≤ length into.old + 2 * length digits.now }
{
    for at in 0..digits.len() {
        push(into, digits[at]);
        let behind = digits.len() - 1 - at;
        if behind > 0 && behind % 3 == 0 {
            push(into, b',');
        }
    }
}

// Adds the size of a number, its whole digits in groups of three.
fn push_size(into: &mut Line, value: Fixed, places: u8)
    requires places { places ≤ 15 }
    requires room { length into.old ≤ 100 }
    ensures text { into.new ≡ into.old ++ size_text value places }
    ensures size { length into.new ≤ length into.old + 96 }
{
    let digits = write_decimal(value.abs(), places);
    let bytes = digits.bytes();
    let len = digits_len(bytes);
    push_grouped(into, &bytes[..len]);
    into.put_all(&bytes[len..]);
}

// A number in groups of three behind a mark, in brackets where it is below zero.
fn grouped_text(value: Fixed, places: u8, mark: &[u8]) -> Line
    requires places { places ≤ 15 }
    requires mark { length mark.now ≤ 1 }
    ensures { result ≡ bracketed value places (mark.now ++ size_text value places) }
{
    let is_bracketed = value.millionths() < 0 && !rounds_to_zero(value, places);
    let mut text = Line::new();
    if is_bracketed {
        push(&mut text, b'(');
    }
    text.put_all(mark);
    push_size(&mut text, value, places);
    if is_bracketed {
        push(&mut text, b')');
    }
    text
}

// A hundred times the number and the percent sign.
fn percent_text(value: Fixed, places: u8) -> Line
    requires { places ≤ 15 }
    ensures { result ≡ hundredfold value places ++ ascii.percent ∷ [] }
{
    let digits = write_hundredfold(value, places);
    let mut text = line_of(digits.bytes());
    push(&mut text, b'%');
    text
}

// The most places, up to six, for which there may be room beside the point and what stands in front of it.
fn most_places(value: Fixed, front: u8, room: usize) -> u8
    requires { (places : ℕ) → 0 < places → front + 1 + places ≤ length (written value places) }
    ensures few { result ≤ 6 }
    ensures most { (places : ℕ) → result < places → places ≤ 6 → room < length (written value places) }
{
    room.saturating_sub(usize::from(front) + 1).min(6) as u8
}

/// Adds a number in a cell of that width, by the format byte. A number that is too long is shown as stars;
/// default, text and formats that the file format doesn't name are shown as general.
pub fn show_number(value: Fixed, format: Format, width: u8, into: &mut Line)
    requires { length into.old + width ≤ MAX_LEN }
    ensures text { into.new ≡ into.old ++ shown_number value format.0 width }
    ensures size { length into.new ≡ length into.old + width }
{
    put_number(value, format, usize::from(width), into);
}

// Adds a number by its format.
#[tactic(auto, unfolding(crate::specs::Numbers::shown_number))]
fn put_number(value: Fixed, format: Format, width: usize, into: &mut Line)
    requires { length into.old + width ≤ MAX_LEN }
    ensures { into.new ≡ into.old ++ shown_number value format.0 width }
{
    match shape_of(format) {
        Shape::Fixed(places) => put_decimal(value, places, width, into),
        Shape::Currency(places) => put_grouped(value, places, b"$", width, into),
        Shape::Comma(places) => put_grouped(value, places, b"", width, into),
        Shape::Percent(places) => put_percent(value, places, width, into),
        Shape::Date(form) => put_day(form, value, width, into),
        Shape::Hidden => put_right(b"", width, into),
        Shape::Scientific(_)
        | Shape::Bar
        | Shape::General
        | Shape::Text
        | Shape::Default
        | Shape::Unnamed => put_general(value, width, into),
    }
}

// Adds a number with so many decimals, or stars.
#[inline(never)]
fn put_decimal(value: Fixed, places: u8, width: usize, into: &mut Line)
    requires places { places ≤ 15 }
    requires room { length into.old + width ≤ MAX_LEN }
    ensures { into.new ≡ into.old ++ placed (Some (written value places)) width }
{
    put_right(write_decimal(value, places).bytes(), width, into);
}

// Adds a number in groups of three behind a mark, or stars.
fn put_grouped(value: Fixed, places: u8, mark: &[u8], width: usize, into: &mut Line)
    requires places { places ≤ 15 }
    requires mark { length mark.now ≤ 1 }
    requires room { length into.old + width ≤ MAX_LEN }
    ensures { into.new ≡ into.old ++ placed (Some (bracketed value places (mark.now ++ size_text value places))) width }
{
    put_right(grouped_text(value, places, mark).bytes(), width, into);
}

// Adds a hundred times the number and the percent sign, or stars.
#[inline(never)]
fn put_percent(value: Fixed, places: u8, width: usize, into: &mut Line)
    requires places { places ≤ 15 }
    requires room { length into.old + width ≤ MAX_LEN }
    ensures { into.new ≡ into.old ++ placed (Some (hundredfold value places ++ ascii.percent ∷ [])) width }
{
    put_right(percent_text(value, places).bytes(), width, into);
}

// Adds a day, or stars.
#[inline(never)]
fn put_day(form: DateForm, value: Fixed, width: usize, into: &mut Line)
    requires { length into.old + width ≤ MAX_LEN }
    ensures { into.new ≡ into.old ++ placed (dated form (date_of (whole_day value))) width }
{
    match day_text(form, value) {
        Some(text) => put_right(text.bytes(), width, into),
        None => fill(into, b'*', width),
    }
}

// Adds a number with as many decimals as fit, at most six, or stars.
fn put_general(value: Fixed, width: usize, into: &mut Line)
    requires { length into.old + width ≤ MAX_LEN }
    ensures { into.new ≡ into.old ++ placed (fitting 6 value (width - 1)) width }
{
    let room = width.saturating_sub(1);
    let whole = whole_len(value);
    match write_exact(value, whole, room) {
        Some(text) => put_right(text.bytes(), width, into),
        None => put_rounded(
            value,
            most_places(value, front_len(value, whole), room),
            width,
            into,
        ),
    }
}

// Adds a number with as many decimals as fit, at most so many, or stars.
fn put_rounded(value: Fixed, most: u8, width: usize, into: &mut Line)
    requires most { most ≤ 6 }
    requires room { length into.old + width ≤ MAX_LEN }
    ensures { into.new ≡ into.old ++ placed (fitting most value (width - 1)) width }
{
    match write_fitting(value, most, width.saturating_sub(1)) {
        Some(text) => put_right(text.bytes(), width, into),
        None => put_fewer(value, most.saturating_sub(1), width, into),
    }
}

// Adds a number with as many decimals as fit, at most so many, or stars, where one decimal more was too many: that is
// rare, so it tries the written text first and then writes the short one.
#[cold]
fn put_fewer(value: Fixed, most: u8, width: usize, into: &mut Line)
    requires most { most ≤ 6 }
    requires room { length into.old + width ≤ MAX_LEN }
    ensures { into.new ≡ into.old ++ placed (fitting most value (width - 1)) width }
{
    let room = width.saturating_sub(1);
    for less in 0..most + 1 {
        let places = most - less;
        if write_decimal(value, places).bytes().len() <= room {
            return put_right(write_short(value, places).bytes(), width, into);
        }
    }
    fill(into, b'*', width);
}

// Adds a text that ends one byte before the right edge, or stars.
fn put_right(text: &[u8], width: usize, into: &mut Line)
    requires { length into.old + width ≤ MAX_LEN }
    ensures { into.new ≡ into.old ++ placed (Some text.now) width }
{
    if text.len() < width {
        put_spaces(into, width - 1 - text.len());
        into.put_all(text);
        push(into, b' ');
    } else {
        fill(into, b'*', width);
    }
}
