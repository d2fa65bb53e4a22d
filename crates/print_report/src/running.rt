// The lines at the head and the foot of each page.
ghost use Rattle.std.specs.Prelude.{◌≡◌, ◌≤◌, ◌<◌, ◌+◌, ◌*◌, ◌++◌, ◌==◌, [], length, pos, position, take, IfSome, OnOk};
ghost use Rattle.std.specs.Option.{ForSome};
ghost use Rattle.cell_format.specs.Numbers.{shown_number};
ghost use Rattle.grid_address.specs.Formats.{date_format};
ghost use Rattle.print_report.specs.Lines.{line};
ghost use Rattle.print_report.specs.Running.{bar_in, before_bar, behind_bar, day_text, filled, laid, left_laid, middle_laid, overlaid, part, right_laid, running};

use crate::lines::put_line;
use cell_format::show_number;
use fixed_value::Fixed;
use grid_address::{Format, decimal_text};
use lics_text::{ByteList, Line, Memory};
use outside_world::ByteBuffer;

// A part of a line.
type Part = ByteList<255>;

// The place of the first `|`.
fn bar_in(text: &[u8]) -> Option<usize>
    ensures bar { result ≡ bar_in text.now }
    ensures within { IfSome result (λ at. at < length text.now) }
{
    text.iter().position(|byte| *byte == b'|')
}

// What stands before the first `|`, or all.
fn before_bar(text: &[u8]) -> &[u8]
    ensures { result.now ≡ before_bar text.now }
{
    match bar_in(text) {
        Some(at) => text.split_at(at).0,
        None => text,
    }
}

// What stands behind the first `|`, or nothing.
fn behind_bar(text: &[u8]) -> &[u8]
    ensures { result.now ≡ behind_bar text.now }
{
    match bar_in(text) {
        Some(at) => text.split_at(at + 1).1,
        None => b"",
    }
}

// A day in ten bytes, of which the last is a blank.
fn shown_day(day: u32) -> Line
    requires { day ≤ 73050 }
    ensures text { result ≡ shown_number (pos (day * 1000000)) date_format 10 }
    ensures size { length result ≡ 10 }
{
    let Some(value) = Fixed::of(i64::from(day) * 1_000_000) else {
        unreachable!();
    };
    let mut text = Line::new();
    show_number(value, Format::DATE, 10, &mut text);
    text
}

// A day as 01-Jun-87, and nothing where there is none.
fn day_text(day: Option<u32>) -> Line
    requires { ForSome day (λ d. d ≤ 73050) }
    ensures { result ≡ day_text day }
{
    let mut text = Line::new();
    if let Some(day) = day {
        text.put_all(shown_day(day).bytes().split_at(9).0);
    }
    text
}

// Adds what there is room for in so many bytes.
fn add(part: &mut Part, width: usize, bytes: &[u8])
    requires room { length part.old ≤ width }
    requires most { width ≤ 255 }
    ensures { part.new ≡ take width (part.old ++ bytes.now) }
{
    let room = width - part.bytes().len();
    part.put_all(bytes.split_at(room.min(bytes.len())).0);
}

// Adds a byte, or what it stands for.
fn add_filled(part: &mut Part, width: usize, number: u64, day: Option<u32>, byte: u8)
    requires room { length part.old ≤ width }
    requires most { width ≤ 255 }
    requires day { ForSome day (λ d. d ≤ 73050) }
    ensures { part.new ≡ take width (part.old ++ filled number day byte) }
{
    match byte {
        b'#' => add(part, width, decimal_text(number).bytes()),
        b'@' => add(part, width, day_text(day).bytes()),
        _ => add(part, width, &[byte]),
    }
}

// A part with the page's number and the day, cut at the width.
fn part_of(width: usize, number: u64, day: Option<u32>, text: &[u8]) -> Part
    requires most { width ≤ 255 }
    requires day { ForSome day (λ d. d ≤ 73050) }
    ensures part { result ≡ part width number day text.now }
    ensures size { length result ≤ width }
{
    let mut part = Part::new();
    for at in 0..text.len() {
        add_filled(&mut part, width, number, day, text[at]);
    }
    part
}

// Lays a text over a line.
fn lay(over: &mut [u8], at: usize, text: &[u8])
    requires { at + length text.now ≤ length over.old }
    ensures { over.new ≡ laid at text.now over.old }
{
    over[at..at + text.len()].copy_from_slice(text);
}

// Lays a part over a line at its left.
fn lay_left(over: &mut [u8], number: u64, day: Option<u32>, text: &[u8])
    requires most { length over.old ≤ 255 }
    requires day { ForSome day (λ d. d ≤ 73050) }
    ensures { over.new ≡ left_laid number day text.now over.old }
{
    let part = part_of(over.len(), number, day, text);
    lay(over, 0, part.bytes());
}

// Lays a part over the middle of a line.
fn lay_middle(over: &mut [u8], number: u64, day: Option<u32>, text: &[u8])
    requires most { length over.old ≤ 255 }
    requires day { ForSome day (λ d. d ≤ 73050) }
    ensures { over.new ≡ middle_laid number day text.now over.old }
{
    let part = part_of(over.len(), number, day, text);
    let free = over.len() - part.bytes().len();
    lay(over, free / 2, part.bytes());
}

// Lays a part over a line at its right.
fn lay_right(over: &mut [u8], number: u64, day: Option<u32>, text: &[u8])
    requires most { length over.old ≤ 255 }
    requires day { ForSome day (λ d. d ≤ 73050) }
    ensures { over.new ≡ right_laid number day text.now over.old }
{
    let part = part_of(over.len(), number, day, text);
    let free = over.len() - part.bytes().len();
    lay(over, free, part.bytes());
}

// Lays the three parts of a text over a line, from left to right.
fn lay_all(over: &mut [u8], number: u64, day: Option<u32>, text: &[u8])
    requires most { length over.old ≤ 255 }
    requires day { ForSome day (λ d. d ≤ 73050) }
    ensures { over.new ≡ overlaid number day text.now over.old }
{
    let rest = behind_bar(text);
    lay_left(over, number, day, before_bar(text));
    lay_middle(over, number, day, before_bar(rest));
    lay_right(over, number, day, behind_bar(rest));
}

/// Adds the line of a page's head or foot.
pub fn put_running(
    out: &mut ByteBuffer,
    left: u8,
    width: u8,
    number: u64,
    day: Option<u32>,
    text: &[u8],
) -> Result<(), Memory>
    requires { ForSome day (λ d. d ≤ 73050) }
    ensures { OnOk result (out.new ≡ out.old ++ line left (running width number day text.now)) }
{
    let mut bytes = [b' '; 255];
    let over = &mut bytes[..usize::from(width)];
    lay_all(over, number, day, text);
    put_line(out, left, over)
}
