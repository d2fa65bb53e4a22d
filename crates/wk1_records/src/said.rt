// What a record says.
ghost use Rattle.std.specs.Int.{from_le_bytes, w64};
ghost use Rattle.std.specs.Prelude.{◌≡◌, ◌≤◌, ◌<◌, ◌+◌, ◌==◌, not, IfSome, IfNone, IfOk, Ok, Err, Some, true, false, List, ℕ, length, drop, get_or, nat_le, take};
ghost use Rattle.std.specs.List.{list_all};
ghost use Rattle.fixed_value.specs.Doubles.{double_of};
ghost use Rattle.formula_tree.specs.declared.value.Content.TheVariants as content;
ghost use Rattle.formula_tree.specs.declared.value.Value.TheVariants as value;
ghost use Rattle.formula_tree.specs.Ranges.{is_text};
ghost use Rattle.formula_tree.specs.Tree.{call, no_trees};
ghost use Rattle.wk1_formula.specs.Stack.{tree_in};
ghost use Rattle.wk1_formula.specs.Reading.{before_zero, short_at, short_value};
ghost use Rattle.lics_text.specs.Ascii as ascii;
ghost use Rattle.lics_text.specs.Prefixes.{prefix_of};
ghost use Rattle.sheet_store.specs.Choices.{is_global_prefix};
ghost use Rattle.wk1_records.specs.Answers.{Gives};
ghost use Rattle.wk1_records.specs.Meanings.{byte_at, cell_of, code_in, double_at, formula_state, constant, global_prefix, is_inside, is_span, number_state, stored_value, is_width, label_of, label_state, numbered, place_at, pointer_of, state_of, text_entry, width_entry, window_entry};
ghost use Rattle.wk1_records.specs.declared.entry.Entry.TheVariants as entry;
ghost use Rattle.wk1_records.specs.declared.fault.Wk1Fault.TheVariants as fault;

use crate::lengths::{CODE, CODE_LENGTH, HEAD};
use crate::{Entry, INTEGER_LENGTH, NUMBER_LENGTH, ReadCodes, Wk1Fault};
use fixed_value::{DoubleRead, Fixed, from_double_bits};
use formula_tree::{Expr, ExprList, Formula, Function, Value};
use grid_address::{COLUMNS, Cell, Format, ROWS, Span};
use lics_text::{LabelPrefix, MAX_LEN, Memory, Text};
use sheet_store::{CellState, MOST_WIDTH};
use std::alloc::Global;
use wk1_formula::{CodeFault, bytes_from, first_long, short_at, short_value};

/// The width of the columns where a file tells none.
const DEFAULT_WIDTH: u8 = 9;

// The place at an offset, where it is in the sheet.
pub fn cell_at(body: &[u8], at: usize) -> Option<Cell>
    requires { at + 4 ≤ length body.now }
    ensures some { IfSome result (λ c. (is_inside (place_at at body.now) ≡ true) × (c ≡ place_at at body.now)) }
    ensures none { IfNone result (is_inside (place_at at body.now) ≡ false) }
{
    let col = short_at(body, at);
    let row = short_at(body, at + 2);
    if row < ROWS && col < COLUMNS {
        Some(Cell {
            row,
            col: col as u8,
        })
    } else {
        None
    }
}

// Whether a label prefix may be a sheet's.
fn is_global(prefix: LabelPrefix) -> bool
    ensures { result ≡ is_global_prefix prefix }
{
    match prefix {
        LabelPrefix::Left | LabelPrefix::Right | LabelPrefix::Center => true,
        LabelPrefix::Repeat | LabelPrefix::Unprinted => false,
    }
}

// The global label prefix of a byte, which is ' where the byte is none.
pub fn prefix_of(byte: u8) -> LabelPrefix
    ensures { result ≡ global_prefix (prefix_of byte) }
{
    match LabelPrefix::of(byte) {
        Some(prefix) => {
            if is_global(prefix) {
                prefix
            } else {
                LabelPrefix::Left
            }
        }
        None => LabelPrefix::Left,
    }
}

// Whether a number is a width of 1 to 240.
fn is_width(number: u16) -> bool
    ensures { result ≡ is_width number }
{
    1 <= number && number <= MOST_WIDTH as u16
}

// The pointer, which is A1 where it is outside the sheet.
fn pointer_at(body: &[u8]) -> Cell
    requires { 4 ≤ length body.now }
    ensures { result ≡ pointer_of (place_at 0 body.now) }
{
    match cell_at(body, 0) {
        Some(cell) => cell,
        None => Cell { row: 0, col: 0 },
    }
}

// What the record of the pointer, the global format and the global width says.
pub fn window(body: &[u8]) -> Entry
    requires { 8 ≤ length body.now }
    ensures { result ≡ window_entry body.now }
{
    let pointer = pointer_at(body);
    let width = short_at(body, 6);
    if is_width(width) {
        Entry::Window(pointer, Format(body[4]), width as u8)
    } else {
        Entry::Window(pointer, Format(body[4]), DEFAULT_WIDTH)
    }
}

// What the record of a column's own width says.
pub fn column_width(body: &[u8]) -> Entry
    requires { 3 ≤ length body.now }
    ensures { result ≡ width_entry body.now }
{
    let col = short_at(body, 0);
    if col < COLUMNS && is_width(u16::from(body[2])) {
        Entry::Width(col as u8, body[2])
    } else {
        Entry::Nothing
    }
}

// The format byte of a head.
fn format_in(body: &[u8]) -> Format
    requires { 1 ≤ length body.now }
    ensures { result ≡ record { 0 = byte_at 0 body.now } }
{
    Format(body[0])
}

/// What the record of a blank cell says.
pub fn blank_in(body: &[u8], cell: Cell) -> Entry
    requires length { HEAD ≤ length body.now }
    requires cell { cell ≡ cell_of body.now }
    ensures { result ≡ entry.State (cell_of body.now) (state_of body.now content.Blank value.Blank) }
{
    Entry::State(cell, CellState::blank(format_in(body)))
}

/// What the record of a whole number says.
#[inline(always)]
pub fn integer_in(body: &[u8], cell: Cell) -> Entry
    requires length { INTEGER_LENGTH ≤ length body.now }
    requires cell { cell ≡ cell_of body.now }
    ensures { result ≡ entry.State (cell_of body.now) (numbered body.now (short_value (short_at HEAD body.now))) }
{
    let number = short_value(short_at(body, HEAD));
    Entry::State(cell, CellState::number(number, format_in(body)))
}

// Whether no byte is below 32. Each is looked at, so that many are at once.
#[inline(never)]
fn are_all_words(bytes: &[u8]) -> bool
    ensures { result ≡ true → (k : ℕ) → k < length bytes.now → 32 ≤ get_or bytes.now k 0 }
{
    let mut least = 255;
    for at in 0..bytes.len() {
        least = bytes[at].min(least);
    }
    least >= b' '
}

// The same of fewer than eight bytes, one by one.
#[inline(always)]
fn are_few_words(bytes: &[u8]) -> bool
    requires { length bytes.now < 8 }
    ensures { result ≡ true → (k : ℕ) → k < length bytes.now → 32 ≤ get_or bytes.now k 0 }
{
    for at in 0..bytes.len() {
        if bytes[at] < b' ' {
            return false;
        }
    }
    true
}

// The same of so many bytes and up to twice as many, by the first ones and the last ones, which may overlap.
#[inline(always)]
fn are_words_at_ends<const N: usize>(bytes: &[u8]) -> bool
    requires more { N ≤ length bytes.now }
    requires few { length bytes.now ≤ N + N }
    ensures { result ≡ true → (k : ℕ) → k < length bytes.now → 32 ≤ get_or bytes.now k 0 }
{
    let last = bytes.len() - N;
    let mut least = 255;
    for at in 0..N {
        least = bytes[at].min(bytes[last + at]).min(least);
    }
    least >= b' '
}

// Whether no byte is below 32, by a few steps for the lengths that labels mostly have.
#[inline(always)]
fn are_words(bytes: &[u8]) -> bool
    ensures { result ≡ true → (k : ℕ) → k < length bytes.now → 32 ≤ get_or bytes.now k 0 }
{
    if bytes.len() < 8 {
        return are_few_words(bytes);
    }
    if bytes.len() <= 16 {
        return are_words_at_ends::<8>(bytes);
    }
    if bytes.len() <= 32 {
        return are_words_at_ends::<16>(bytes);
    }
    are_all_words(bytes)
}

// The bytes before the last, where that is 00 and none of them is below 32.
#[inline(always)]
fn words_before_last(bytes: &[u8]) -> Option<&[u8]>
    ensures some { IfSome result (λ t. before_zero bytes.now ≡ Some t.now) }
    ensures words { IfSome result (λ t. list_all (λ b. nat_le ascii.space b) t.now ≡ true) }
{
    if bytes.len() == 0 {
        return None;
    }
    let last = bytes.len() - 1;
    let front = &bytes[..last];
    if are_words(front) {
        if bytes[last] == 0 {
            return Some(front);
        }
    }
    None
}

// The bytes before the first 00, where none of them is below 32. Where there is no 00, or one before it is below 32,
// there is none, and neither a text nor a label. Nearly always that 00 is the last byte.
#[inline(always)]
fn words(bytes: &[u8]) -> Option<&[u8]>
    ensures none { IfNone result ((n : ℕ) (body : List ℕ) →
        (text_entry n body (before_zero bytes.now) ≡ Err (fault.BadText n))
        × (label_state n body (before_zero bytes.now) ≡ Err (fault.BadText n))) }
    ensures some { IfSome result (λ t. before_zero bytes.now ≡ Some t.now) }
    ensures words { IfSome result (λ t. list_all (λ b. nat_le ascii.space b) t.now ≡ true) }
{
    match words_before_last(bytes) {
        Some(front) => Some(front),
        None => words_by_byte(bytes),
    }
}

// The same byte by byte.
#[inline(never)]
fn words_by_byte(bytes: &[u8]) -> Option<&[u8]>
    ensures some { IfSome result (λ t. before_zero bytes.now ≡ Some t.now) }
    ensures words { IfSome result (λ t. list_all (λ b. nat_le ascii.space b) t.now ≡ true) }
    ensures none { IfNone result ((n : ℕ) (body : List ℕ) →
        (text_entry n body (before_zero bytes.now) ≡ Err (fault.BadText n))
        × (label_state n body (before_zero bytes.now) ≡ Err (fault.BadText n))) }
{
    for at in 0..bytes.len() {
        if bytes[at] < b' ' {
            if bytes[at] == 0 {
                return Some(&bytes[..at]);
            }
            return None;
        }
    }
    None
}

// Whether bytes of which none is below 32 are as few as those of a text.
fn is_short(bytes: &[u8]) -> bool
    requires { list_all (λ b. nat_le ascii.space b) bytes.now ≡ true }
    ensures { result ≡ is_text bytes.now }
{
    bytes.len() <= MAX_LEN
}

// What the record of a text says that is a formula's value.
pub fn text_in(alloc: Global, body: &[u8], number: u32, cell: Cell) -> Result<Entry, Wk1Fault>
    requires length { HEAD ≤ length body.now }
    requires cell { cell ≡ cell_of body.now }
    ensures { Gives result (text_entry number body.now (before_zero (drop HEAD body.now))) }
{
    let Some(bytes) = words(bytes_from(body, HEAD)) else {
        return Err(Wk1Fault::BadText(number));
    };
    if !is_short(bytes) {
        return Err(Wk1Fault::BadText(number));
    }
    match Text::copy_of(alloc, bytes) {
        Ok(text) => Ok(Entry::Text(cell, text)),
        Err(Memory) => Err(Wk1Fault::Memory),
    }
}

// A label's prefix, and how many bytes it takes.
fn label_prefix(bytes: &[u8]) -> (LabelPrefix, usize)
    ensures prefix { result.0 ≡ (label_of bytes.now).0 }
    ensures within { result.1 ≤ length bytes.now }
    ensures rest { drop result.1 bytes.now ≡ (label_of bytes.now).1 }
{
    if bytes.len() == 0 {
        return (LabelPrefix::Left, 0);
    }
    match LabelPrefix::of(bytes[0]) {
        Some(prefix) => (prefix, 1),
        None => (LabelPrefix::Left, 0),
    }
}

// A label's prefix and its text, of bytes of which none is below 32.
fn behind_prefix(bytes: &[u8]) -> (LabelPrefix, &[u8])
    requires { list_all (λ b. nat_le ascii.space b) bytes.now ≡ true }
    ensures prefix { result.0 ≡ (label_of bytes.now).0 }
    ensures rest { result.1.now ≡ (label_of bytes.now).1 }
    ensures words { list_all (λ b. nat_le ascii.space b) result.1.now ≡ true }
{
    let (prefix, count) = label_prefix(bytes);
    (prefix, bytes_from(bytes, count))
}

// The state of a label, of bytes that are a text's.
#[inline(always)]
fn label_of(
    alloc: Global,
    body: &[u8],
    prefix: LabelPrefix,
    bytes: &[u8],
) -> Result<CellState, Memory>
    requires length { 1 ≤ length body.now }
    requires text { is_text bytes.now ≡ true }
    ensures { IfOk result (λ s. s ≡ state_of body.now (content.Label prefix bytes.now) (value.Str bytes.now)) }
{
    CellState::label(alloc, prefix, bytes, format_in(body))
}

// What the record of a label says.
#[inline(always)]
pub fn label_in(alloc: Global, body: &[u8], number: u32, cell: Cell) -> Result<Entry, Wk1Fault>
    requires length { HEAD ≤ length body.now }
    requires cell { cell ≡ cell_of body.now }
    ensures { Gives result (label_state number body.now (before_zero (drop HEAD body.now))) }
{
    let Some(bytes) = words(bytes_from(body, HEAD)) else {
        return Err(Wk1Fault::BadText(number));
    };
    let (prefix, text) = behind_prefix(bytes);
    if !is_short(text) {
        return Err(Wk1Fault::BadText(number));
    }
    match label_of(alloc, body, prefix, text) {
        Ok(state) => Ok(Entry::State(cell, state)),
        Err(Memory) => Err(Wk1Fault::Memory),
    }
}

// The eight bytes behind a head, as a double.
fn double_in(body: &[u8]) -> DoubleRead
    requires { NUMBER_LENGTH ≤ length body.now }
    ensures { result ≡ double_at HEAD body.now }
{
    from_double_bits(first_long(bytes_from(body, HEAD)))
}

// The value that stands with a formula.
fn stored_value(read: DoubleRead) -> Value
    ensures { result ≡ stored_value read }
{
    match read {
        DoubleRead::Num(number) => Value::Num(number),
        DoubleRead::Err => Value::Err,
        DoubleRead::Na => Value::Na,
        DoubleRead::TooLarge => Value::Err,
    }
}

// The bytes of a formula's code.
fn code_in(body: &[u8]) -> &[u8]
    requires { CODE + short_at CODE_LENGTH body.now ≤ length body.now }
    ensures code { result.now ≡ code_in body.now }
    ensures size { length result.now ≤ 65535 }
{
    let size = usize::from(short_at(body, CODE_LENGTH));
    &bytes_from(body, CODE)[..size]
}

// What the record of a formula says, whose code has a tree.
#[inline(always)]
fn computed_in(body: &[u8], cell: Cell, formula: Formula) -> Result<Entry, Wk1Fault>
    requires length { NUMBER_LENGTH ≤ length body.now }
    requires cell { cell ≡ cell_of body.now }
    ensures { Gives result (Ok (entry.Formula (cell_of body.now)
        (state_of body.now (content.Formula formula) (stored_value (double_at HEAD body.now))))) }
{
    let value = stored_value(double_in(body));
    match CellState::formula(formula, value, format_in(body)) {
        Ok(state) => Ok(Entry::Formula(cell, state)),
        Err(Memory) => Err(Wk1Fault::Memory),
    }
}

// What the record of a formula says.
#[inline(always)]
pub fn formula_in(
    codes: &mut ReadCodes,
    body: &[u8],
    number: u32,
    cell: Cell,
) -> Result<Entry, Wk1Fault>
    requires length { CODE + short_at CODE_LENGTH body.now ≤ length body.now }
    requires cell { cell ≡ cell_of body.now }
    ensures { Gives result (formula_state number body.now (tree_in (code_in body.now))) }
{
    match codes.read(code_in(body)) {
        Ok(formula) => computed_in(body, cell, formula),
        Err(CodeFault::Bad(at)) => Err(Wk1Fault::BadCode(number, at)),
        Err(CodeFault::Outside(function)) => Err(Wk1Fault::FunctionOutside(number, function)),
        Err(CodeFault::TooLarge) => Err(Wk1Fault::NumberTooLarge(number)),
        Err(CodeFault::TooDeep) => Err(Wk1Fault::TooDeep(number)),
        Err(CodeFault::Memory) => Err(Wk1Fault::Memory),
    }
}

// The span at two places, where both are in the sheet and in order.
pub fn span_at(body: &[u8]) -> Option<Span>
    requires { 24 ≤ length body.now }
    ensures some { IfSome result (λ s. (is_span (place_at 16 body.now) (place_at 20 body.now) ≡ true)
        × (s ≡ record { first = place_at 16 body.now; last = place_at 20 body.now })) }
    ensures none { IfNone result (is_span (place_at 16 body.now) (place_at 20 body.now) ≡ false) }
{
    let Some(first) = cell_at(body, 16) else {
        return None;
    };
    let Some(last) = cell_at(body, 20) else {
        return None;
    };
    if first.row <= last.row && first.col <= last.col {
        Some(Span { first, last })
    } else {
        None
    }
}

// The formula of a call without arguments.
fn constant(alloc: Global, function: Function) -> Result<Formula, Memory>
    ensures { IfOk result (λ f. f ≡ call function no_trees) }
{
    let expr = Expr::Call(function, ExprList::new(alloc));
    match Formula::of(alloc, expr) {
        Ok(formula) => Ok(formula),
        Err(_) => Err(Memory),
    }
}

// The cell of a number that is ERR or NA.
fn constant_in(
    alloc: Global,
    body: &[u8],
    cell: Cell,
    function: Function,
    value: Value,
) -> Result<Entry, Wk1Fault>
    requires length { NUMBER_LENGTH ≤ length body.now }
    requires cell { cell ≡ cell_of body.now }
    ensures { Gives result (Ok (entry.State (cell_of body.now) (state_of body.now (constant function) value))) }
{
    let Ok(formula) = constant(alloc, function) else {
        return Err(Wk1Fault::Memory);
    };
    match CellState::formula(formula, value, format_in(body)) {
        Ok(state) => Ok(Entry::State(cell, state)),
        Err(Memory) => Err(Wk1Fault::Memory),
    }
}

// What the record of a number says.
#[inline(always)]
pub fn number_in(alloc: Global, body: &[u8], number: u32, cell: Cell) -> Result<Entry, Wk1Fault>
    requires length { NUMBER_LENGTH ≤ length body.now }
    requires cell { cell ≡ cell_of body.now }
    ensures { Gives result (number_state number body.now (double_at HEAD body.now)) }
{
    match double_in(body) {
        DoubleRead::Num(read) => Ok(Entry::State(cell, CellState::number(read, format_in(body)))),
        DoubleRead::Err => constant_in(alloc, body, cell, Function::Err, Value::Err),
        DoubleRead::Na => constant_in(alloc, body, cell, Function::Na, Value::Na),
        DoubleRead::TooLarge => Err(Wk1Fault::NumberTooLarge(number)),
    }
}
