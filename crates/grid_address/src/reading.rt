// Addresses read byte by byte.
ghost use Rattle.std.specs.Char.{to_ascii_uppercase};
ghost use Rattle.std.specs.Prelude.{◌≡◌, ◌≤◌, drop, length, IfOk, IfErr, Some, None};
ghost use Rattle.grid_address.specs.Progress.{address_in, count_dots, first_digit, next_of, read_by, whole_cell};
ghost use Rattle.grid_address.specs.inner.Progress.{IsFront, IsRowOfSheet};
ghost use Rattle.grid_address.specs.Reading.{IsAddress, IsSpan, SpellsCell, SpellsSpan, StopsAt};
ghost use Rattle.grid_address.specs.declared.reading.Progress.TheVariants.{Letter, Row};

use crate::{COLUMNS, Cell, ROWS, Span};

/// The bytes are no address, or no span: `at` is the first byte that can't go on, or the number of bytes where they end
/// too early.
#[derive(Clone, Copy)]
pub struct NotAnAddress {
    pub at: usize,
}

// How far an address is read.
#[derive(Clone, Copy)]
enum Progress {
    Nothing,
    Letter(u8),
    Column(u8),
    Row(u8, u16),
}

// After a column: the first digit of a row's number.
fn after_column(col: u8, byte: u8) -> Option<Progress>
    ensures { result ≡ first_digit col byte }
{
    if byte >= b'1' && byte <= b'9' {
        Some(Progress::Row(col, u16::from(byte - b'0')))
    } else {
        None
    }
}

// After one letter: a second, or a digit.
fn after_letter(col: u8, byte: u8) -> Option<Progress>
    ensures { result ≡ next_of (Letter col) byte }
{
    let capital = byte.to_ascii_uppercase();
    if capital >= b'A' && capital <= b'Z' {
        let column = (u16::from(col) + 1) * 26 + u16::from(capital - b'A');
        if column < COLUMNS {
            Some(Progress::Column(column as u8))
        } else {
            None
        }
    } else {
        after_column(col, byte)
    }
}

// After digits: one more, up to the row 8192.
fn after_digits(col: u8, number: u16, byte: u8) -> Option<Progress>
    ensures { result ≡ next_of (Row col number) byte }
{
    if byte >= b'0' && byte <= b'9' {
        let more = u32::from(number) * 10 + u32::from(byte - b'0');
        if more <= ROWS as u32 {
            return Some(Progress::Row(col, more as u16));
        }
    }
    None
}

// Reads on by one byte; none where no address goes on with it.
fn after(progress: Progress, byte: u8) -> Option<Progress>
    ensures { result ≡ next_of progress byte }
{
    match progress {
        Progress::Nothing => {
            let capital = byte.to_ascii_uppercase();
            if capital >= b'A' && capital <= b'Z' {
                Some(Progress::Letter(capital - b'A'))
            } else {
                None
            }
        }
        Progress::Letter(col) => after_letter(col, byte),
        Progress::Column(col) => after_column(col, byte),
        Progress::Row(col, number) => after_digits(col, number, byte),
    }
}

// How far an address is read from the front of the bytes, and where it ends: at the first byte that can't go
// on, or behind the last byte.
#[derive(Clone, Copy)]
struct Front {
    progress: Progress,
    end: usize,
}

// Reads as long as an address can go on.
fn read_front(bytes: &[u8]) -> Front
    ensures front { IsFront bytes.now result.progress result.end }
    ensures reads { address_in bytes.now ≡ read_by result.progress (drop result.end bytes.now) }
{
    let mut progress = Progress::Nothing;
    for at in 0..bytes.len() {
        match after(progress, bytes[at]) {
            Some(next) => progress = next,
            None => return Front { progress, end: at },
        }
    }
    Front {
        progress,
        end: bytes.len(),
    }
}

// The cell that was read whole.
fn cell_of(front: &Front) -> Option<Cell>
    requires { IsRowOfSheet front.now.progress }
    ensures { result ≡ whole_cell front.now.progress }
{
    match front.progress {
        Progress::Row(col, number) => Some(Cell {
            row: number - 1,
            col,
        }),
        Progress::Nothing => None,
        Progress::Letter(_) => None,
        Progress::Column(_) => None,
    }
}

/// How many dots stand in front, of those that part two cells: none, one or two.
pub fn count_dots(bytes: &[u8]) -> usize
    ensures count { result ≡ count_dots bytes.now }
    ensures within { result ≤ length bytes.now }
{
    if bytes.len() == 0 || bytes[0] != b'.' {
        0
    } else if 1 < bytes.len() && bytes[1] == b'.' {
        2
    } else {
        1
    }
}

// How many points stand at a place.
fn dots_at(bytes: &[u8], at: usize) -> usize
    requires { at ≤ length bytes.now }
    ensures { result ≡ count_dots (drop at bytes.now) }
{
    count_dots(&bytes[at..])
}

/// Reads the address of a cell: a column, A to IV in letters of either case, and a row, 1 to 8192 without a
/// leading zero.
pub fn read_cell(bytes: &[u8]) -> Result<Cell, NotAnAddress>
    ensures ok { IfOk result (λ c. SpellsCell bytes.now c) }
    ensures err { IfErr result (λ e. StopsAt IsAddress bytes.now e.at) }
    ensures read { IfOk result (λ c. address_in bytes.now ≡ Some c) }
    ensures none { IfErr result (λ _. address_in bytes.now ≡ None) }
{
    let front = read_front(bytes);
    match cell_of(&front) {
        Some(cell) => {
            if front.end == bytes.len() {
                Ok(cell)
            } else {
                Err(NotAnAddress { at: front.end })
            }
        }
        None => Err(NotAnAddress { at: front.end }),
    }
}

/// Reads a span: the address of one cell, which is a span of its own, or of two corners in any order, with one
/// or two dots between them.
pub fn read_span(bytes: &[u8]) -> Result<Span, NotAnAddress>
    ensures ok { IfOk result (λ s. SpellsSpan bytes.now s) }
    ensures err { IfErr result (λ e. StopsAt IsSpan bytes.now e.at) }
{
    let front = read_front(bytes);
    let Some(one) = cell_of(&front) else {
        return Err(NotAnAddress { at: front.end });
    };
    if front.end == bytes.len() {
        return Ok(Span::of(one, one));
    }
    let dots = dots_at(bytes, front.end);
    if dots == 0 {
        return Err(NotAnAddress { at: front.end });
    }
    let from = front.end + dots;
    match read_cell(&bytes[from..]) {
        Ok(other) => Ok(Span::of(one, other)),
        Err(fault) => Err(NotAnAddress {
            at: from + fault.at,
        }),
    }
}
