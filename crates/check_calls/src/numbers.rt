// Numbers of one kind as cells show them, for bench/digits.
ghost use Rattle.std.specs.Prelude.{◌≤◌};

use cell_format::show_number;
use fixed_value::Fixed;
use grid_address::Format;
use lics_text::Line;

// How many numbers are shown.
const CELLS: u32 = 10_000;

// The width of their cells.
const WIDTH: u8 = 9;

// Two decimals, without separators.
const TWO_DECIMALS: Format = Format(0x02);

/// Numbers in steps of one, and how they are shown.
#[derive(Clone, Copy)]
pub struct NumberKind {
    millionths: i64,
    format: Format,
    width: u8,
}

/// The numbers that a word names. With `hidden` nothing is written: that is the work around a number.
pub fn kind_of(word: &str) -> Option<NumberKind> {
    let (millionths, format, width) = match word {
        "tenths" => (37_100_000, Format::GENERAL, WIDTH),
        "whole" => (0, Format::GENERAL, WIDTH),
        "rounded" => (37_123_457, Format::GENERAL, WIDTH),
        "fixed" => (37_100_000, TWO_DECIMALS, WIDTH),
        "hidden" => (37_100_000, Format::HIDDEN, 0),
        _ => return None,
    };
    Some(NumberKind {
        millionths,
        format,
        width,
    })
}

// The last byte of a number in its cell, in front of the space there, or 0 where there is none.
fn last_byte(value: Fixed, format: Format, width: u8) -> u64
    requires { width ≤ 9 }
{
    let mut line = Line::new();
    show_number(value, format, width, &mut line);
    match line.bytes().get(usize::from(width.saturating_sub(2))) {
        Some(byte) => u64::from(*byte),
        None => 0,
    }
}

/// The sum of the last bytes of 10,000 numbers in their cells.
pub fn shown_sum(kind: NumberKind) -> u64 {
    let mut sum: u64 = 0;
    let mut millionths = kind.millionths;
    let width = kind.width.min(WIDTH);
    for _ in 0..CELLS {
        let value = Fixed::of(millionths).unwrap_or(Fixed::ZERO);
        sum = sum.wrapping_add(last_byte(value, kind.format, width));
        millionths = millionths.wrapping_add(1_000_000);
    }
    sum
}
