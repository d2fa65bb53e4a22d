// Lookups in ranges.
ghost use Rattle.std.specs.Prelude.{◌≡◌, ◌<◌, ◌≤◌, ◌+◌, not, IfOk, Some, None, position};
ghost use Rattle.std.specs.Int.RustNames.{int_lt};
ghost use Rattle.std.specs.List.{prefix_len};
ghost use Rattle.std.specs.Option.{ForSome};
ghost use Rattle.grid_address.specs.Place.{height_of, width_of};
ghost use Rattle.formula_tree.specs.Seen.{seen_value};
ghost use Rattle.formula_parts.specs.Lookups.{by_number, by_text, cell_or_name, depth_of, extent_value, firsts, index_value, is_label, line_cell, lines_of, looked_up, lookup_value, passes, place_in, pointed_value, range_of, spelled_cell};
ghost use Rattle.formula_parts.specs.Outlook.{Sight};

use crate::argument::Operand;
use crate::look::Look;
use at_functions::whole;
use fixed_value::Fixed;
use formula_tree::{Function, Value, ValueRef};
use grid_address::{Cell, Span, read_cell};
use lics_text::{Memory, Text, TextRef};
use range_names::Names;
use std::cmp::Ordering;
use value_functions::{counted, number_in, stop_one, stop_two, text_in};

/// The most lines that a range has, and the most cells of a line.
const MOST_LINES: u16 = 8_192;

/// An argument as a range; a cell is a range of one cell.
pub fn range_of(operand: Operand) -> Option<Span>
    ensures { result ≡ range_of operand }
{
    match operand {
        Operand::Other => None,
        Operand::Cell(cell) => Some(Span::of(cell, cell)),
        Operand::Span(span) => Some(span),
    }
}

/// COLS and ROWS.
pub fn extent_value(function: Function, span: Span) -> Value
    ensures { result ≡ extent_value function span }
{
    match function {
        Function::Cols => counted(usize::from(span.width())),
        _ => counted(usize::from(span.height())),
    }
}

// A range is looked through by lines: its rows, or across its columns.
fn lines_of(across: bool, span: Span) -> u16
    ensures lines { result ≡ lines_of across span }
    ensures bound { result ≤ MOST_LINES }
{
    if across { span.width() } else { span.height() }
}

// How many cells a line has.
fn depth_of(across: bool, span: Span) -> u16
    ensures depth { result ≡ depth_of across span }
    ensures bound { result ≤ MOST_LINES }
{
    if across { span.height() } else { span.width() }
}

/// A cell by its row and its column in a range, counted from its first.
pub fn cell_at(span: Span, row: u16, col: u16) -> Cell
    requires row { row < height_of span }
    requires col { col < width_of span }
    ensures row { result.row ≡ span.first.row + row }
    ensures col { result.col ≡ span.first.col + col }
{
    Cell {
        row: span.first.row + row,
        col: (u16::from(span.first.col) + col) as u8,
    }
}

// A cell of a line.
fn line_cell(across: bool, span: Span, line: u16, place: u16) -> Cell
    requires line { line < lines_of across span }
    requires place { place < depth_of across span }
    ensures { result ≡ line_cell across span line place }
{
    if across {
        cell_at(span, place, line)
    } else {
        cell_at(span, line, place)
    }
}

// Whether a number is no greater than another.
fn is_at_most(x: Fixed, y: Fixed) -> bool
    ensures { result ≡ not (int_lt y x) }
{
    !(y.millionths() < x.millionths())
}

// Whether the lookup of a number goes on past a value.
fn passes(x: Fixed, value: &ValueRef<'_>) -> bool
    ensures { result ≡ passes x (seen_value value.now) }
{
    match value {
        ValueRef::Num(y) => is_at_most(*y, x),
        ValueRef::Blank | ValueRef::Str(_) => is_at_most(Fixed::ZERO, x),
        ValueRef::Err | ValueRef::Na => false,
    }
}

/// The same of a cell's value.
#[inline(always)]
pub fn passes_at<K: Look>(x: Fixed, look: &K, cell: Cell) -> bool
    ensures { result ≡ passes x ((K.sight look.now).values cell) }
{
    match look.number(cell) {
        Some(number) => is_at_most(number, x),
        None => passes(x, &look.value(cell)),
    }
}

// Whether a value is that label, letters of either case being the same.
fn is_label(text: &Text, value: &ValueRef<'_>) -> bool
    ensures { result ≡ is_label text.now (seen_value value.now) }
{
    match value {
        ValueRef::Str(label) => label.fold_cmp(TextRef::Text(text)) == Ordering::Equal,
        ValueRef::Blank | ValueRef::Num(_) | ValueRef::Err | ValueRef::Na => false,
    }
}

// How many lines are passed.
fn passed<K: Look>(across: bool, span: Span, x: Fixed, look: &K) -> u16
    requires { 0 < depth_of across span }
    ensures passed { let lines = firsts (K.sight look.now).values across span 0 (lines_of across span) in
        result ≡ prefix_len (passes x) lines }
    ensures within { result ≤ lines_of across span }
{
    let lines = lines_of(across, span);
    let mut line = 0;
    while line < lines {
        if !passes_at(x, look, line_cell(across, span, line, 0)) {
            return line;
        }
        line += 1;
    }
    lines
}

// The first line with the label.
fn first_line<K: Look>(across: bool, span: Span, text: &Text, look: &K) -> Option<u16>
    requires { 0 < depth_of across span }
    ensures place { let lines = firsts (K.sight look.now).values across span 0 (lines_of across span) in
        result ≡ position (is_label text.now) lines }
    ensures within { ForSome result (λ n. n < lines_of across span) }
{
    let lines = lines_of(across, span);
    let mut line = 0;
    while line < lines {
        if is_label(text, &look.value(line_cell(across, span, line, 0))) {
            return Some(line);
        }
        line += 1;
    }
    None
}

// The lookup of a number: the cell at a place of the last line that was passed.
fn by_number<K: Look>(
    across: bool,
    span: Span,
    place: u16,
    x: Fixed,
    look: &K,
) -> Result<Value, Memory>
    requires { place < depth_of across span }
    ensures { IfOk result (λ v. v ≡ by_number (K.sight look.now).values across span place x) }
{
    let passed = passed(across, span, x, look);
    if passed == 0 {
        Ok(Value::Err)
    } else {
        look.value(line_cell(across, span, passed - 1, place))
            .copy()
    }
}

// The lookup of a label: the cell at a place of its line, or for the first place the line's number.
fn by_text<K: Look>(
    across: bool,
    span: Span,
    place: u16,
    text: &Text,
    look: &K,
) -> Result<Value, Memory>
    requires { place < depth_of across span }
    ensures { IfOk result (λ v. v ≡ by_text (K.sight look.now).values across span place text.now) }
{
    match first_line(across, span, text, look) {
        Some(line) => {
            if place == 0 {
                Ok(counted(usize::from(line)))
            } else {
                look.value(line_cell(across, span, line, place)).copy()
            }
        }
        None => Ok(Value::Err),
    }
}

// The lookup of any value.
fn looked_up<K: Look>(
    across: bool,
    span: Span,
    place: u16,
    x: &Value,
    look: &K,
) -> Result<Value, Memory>
    requires { place < depth_of across span }
    ensures { IfOk result (λ v. v ≡ looked_up (K.sight look.now).values across span place x.now) }
{
    match x {
        Value::Str(text) => by_text(across, span, place, text, look),
        Value::Num(number) => by_number(across, span, place, *number, look),
        Value::Blank => by_number(across, span, place, Fixed::ZERO, look),
        Value::Err | Value::Na => Ok(Value::Err),
    }
}

/// A place among so many, cut toward zero.
pub fn place_in(number: Fixed, count: u16) -> Option<u16>
    ensures place { result ≡ place_in number count }
    ensures within { ForSome result (λ k. k < count) }
{
    let number = whole(number);
    if number < 0 || number >= i64::from(count) {
        None
    } else {
        Some(number as u16)
    }
}

/// VLOOKUP, and HLOOKUP across.
pub fn lookup_value<K: Look>(
    across: bool,
    x: &Value,
    range: Operand,
    number: &Value,
    look: &K,
) -> Result<Value, Memory>
    ensures { IfOk result (λ v. v ≡ lookup_value (K.sight look.now).values across x.now range number.now) }
{
    let Some(span) = range_of(range) else {
        return Ok(Value::Err);
    };
    if let Some(stopped) = stop_two(x, number) {
        return Ok(stopped);
    }
    let Some(number) = number_in(number) else {
        return Ok(Value::Err);
    };
    match place_in(number, depth_of(across, span)) {
        Some(place) => looked_up(across, span, place, x, look),
        None => Ok(Value::Err),
    }
}

/// INDEX.
pub fn index_value<K: Look>(
    range: Operand,
    col: &Value,
    row: &Value,
    look: &K,
) -> Result<Value, Memory>
    ensures { IfOk result (λ v. v ≡ index_value (K.sight look.now).values range col.now row.now) }
{
    let Some(span) = range_of(range) else {
        return Ok(Value::Err);
    };
    if let Some(stopped) = stop_two(col, row) {
        return Ok(stopped);
    }
    let Some(col) = number_in(col) else {
        return Ok(Value::Err);
    };
    let Some(row) = number_in(row) else {
        return Ok(Value::Err);
    };
    let Some(col) = place_in(col, span.width()) else {
        return Ok(Value::Err);
    };
    let Some(row) = place_in(row, span.height()) else {
        return Ok(Value::Err);
    };
    look.value(line_cell(false, span, row, col)).copy()
}

// The first cell of a name.
fn named_cell(names: &Names, name: &[u8]) -> Option<Cell>
    ensures { result ≡ cell_or_name names.now name.now None }
{
    match names.find(name) {
        Some(span) => Some(span.first),
        None => None,
    }
}

// The cell, or the first cell of the name, that a text spells.
fn spelled_cell(names: &Names, text: &[u8]) -> Option<Cell>
    ensures { result ≡ spelled_cell names.now text.now }
{
    match read_cell(text) {
        Ok(cell) => Some(cell),
        Err(_) => named_cell(names, text),
    }
}

/// The value where a text points to.
pub fn pointed_value<K: Look>(a: &Value, look: &K) -> Result<Value, Memory>
    ensures { IfOk result (λ v. v ≡ pointed_value (K.sight look.now).values (K.sight look.now).names a.now) }
{
    if let Some(stopped) = stop_one(a) {
        return Ok(stopped);
    }
    let Some(text) = text_in(a) else {
        return Ok(Value::Err);
    };
    match spelled_cell(look.names(), text.bytes()) {
        Some(cell) => look.value(cell).copy(),
        None => Ok(Value::Err),
    }
}
