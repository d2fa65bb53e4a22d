// The records of a cell.
ghost use Rattle.std.specs.Int.RustNames.{int_lt};
ghost use Rattle.std.specs.Int.{to_le_bytes, w16, w64};
ghost use Rattle.std.specs.Prelude.{◌≡◌, ◌≤◌, ◌<◌, ◌+◌, ◌++◌, ◌∷◌, [], OnOk, pos, true, length, flat_map, nat_abs};
ghost use Rattle.std.specs.FinMap as finite;
ghost use Rattle.std.specs.List.{AllByRecursion};
ghost use Rattle.lics_text.specs.Prefixes.{prefix_byte};
ghost use Rattle.formula_tree.specs.Ranges.{is_text};
ghost use Rattle.wk1_file.specs.Said.{IsContent, IsValue};
ghost use Rattle.formula_tree.specs.Shape.{IsFormula};
ghost use Rattle.wk1_formula.specs.Doubles.{bits_of};
ghost use Rattle.wk1_formula.specs.Written.{code_of};
ghost use Rattle.wk1_records.specs.Records.{piece_bytes, pieces_bytes};
ghost use Rattle.wk1_records.specs.declared.kind.RecordKind.TheVariants as kind;
ghost use Rattle.wk1_records.specs.Bodies.{head, made};
ghost use Rattle.wk1_records.specs.Kinds.{number_of};
ghost use Rattle.wk1_file.specs.Saved.{cell_pieces, content_pieces, formula_piece, text_pieces, integer_bytes, is_integer, number_piece, value_bits};
ghost use Rattle.lics_text.specs.Seen.{seen_text};

use fixed_value::Fixed;
use formula_tree::{ContentRef, Formula, ValueRef};
use grid_address::Cell;
use lics_text::{LabelPrefix, Memory, TextRef};
use sheet_store::{CellState, Store};
use std::alloc::Global;
use wk1_formula::{ERR_BITS, NA_BITS, double_bits, put, write_code};
use wk1_records::{
    BLANK_LENGTH, FORMULA_LENGTH, INTEGER_LENGTH, LABEL_LENGTH, NUMBER_LENGTH, RecordKind,
    STR_LENGTH, beginning,
};

/// Adds the record of a blank cell.
pub fn put_blank(cell: Cell, state: &CellState, into: &mut Vec<u8>) -> Result<(), Memory>
    ensures { OnOk result (into.new.items ≡ into.old.items ++ piece_bytes (made kind.Blank (head cell state.now))) }
{
    put(
        &beginning(RecordKind::Blank, BLANK_LENGTH, cell, state),
        into,
    )
}

// What stands before a label's text: what its record begins with, and its prefix.
fn before_label(cell: Cell, state: &CellState, prefix: LabelPrefix, size: u16) -> [u8; 10]
    ensures { result ≡ to_le_bytes w16 (number_of kind.Label)
        ++ (to_le_bytes w16 size ++ (head cell state.now ++ prefix_byte prefix ∷ [])) }
{
    let [a, b, c, d, e, f, g, h, i] = beginning(RecordKind::Label, size, cell, state);
    [a, b, c, d, e, f, g, h, i, prefix.byte()]
}

// Adds a text and the 00 behind it. Texts of up to three bytes are put without a call that copies.
#[inline(always)]
fn put_ended(bytes: &[u8], into: &mut Vec<u8>) -> Result<(), Memory>
    ensures { OnOk result (into.new.items ≡ into.old.items ++ (bytes.now ++ 0 ∷ [])) }
{
    let size = bytes.len();
    if size == 1 {
        put(&[bytes[0], 0], into)
    } else if size == 2 {
        put(&[bytes[0], bytes[1], 0], into)
    } else if size == 3 {
        put(&[bytes[0], bytes[1], bytes[2], 0], into)
    } else {
        put(bytes, into)?;
        put(&[0], into)
    }
}

/// Adds the record of a label.
pub fn put_label(
    cell: Cell,
    state: &CellState,
    prefix: LabelPrefix,
    text: TextRef<'_>,
    into: &mut Vec<u8>,
) -> Result<(), Memory>
    ensures { let body = head cell state.now ++ prefix_byte prefix ∷ (seen_text text.entry ++ 0 ∷ []) in
        OnOk result (into.new.items ≡ into.old.items ++ piece_bytes (made kind.Label body)) }
{
    let bytes = text.bytes();
    let size = bytes.len() as u16;
    put(
        &before_label(cell, state, prefix, LABEL_LENGTH + size),
        into,
    )?;
    put_ended(bytes, into)
}

/// Adds the record of a text that is a formula's value.
pub fn put_text(
    cell: Cell,
    state: &CellState,
    text: TextRef<'_>,
    into: &mut Vec<u8>,
) -> Result<(), Memory>
    ensures { OnOk result (into.new.items
        ≡ into.old.items ++ piece_bytes (made kind.Str (head cell state.now ++ (seen_text text.entry ++ 0 ∷ [])))) }
{
    let bytes = text.bytes();
    let size = bytes.len() as u16;
    put(
        &beginning(RecordKind::Str, STR_LENGTH + size, cell, state),
        into,
    )?;
    put_ended(bytes, into)
}

// The bits of a value that is a text, which stands in a record of its own (as 1-2-3 saves it).
const TEXT_BITS: u64 = 0x7FF0_FFFF_FFFF_FFFF;

// The bits of a formula's value.
fn value_bits(state: &CellState) -> u64
    ensures { result ≡ value_bits state.now.value }
{
    match state.value() {
        ValueRef::Blank => 0,
        ValueRef::Num(number) => double_bits(number),
        ValueRef::Str(_) => TEXT_BITS,
        ValueRef::Err => ERR_BITS,
        ValueRef::Na => NA_BITS,
    }
}

// What stands between the place of a formula and its code: its value, and the length of the code.
fn before_code(bits: u64, size: u16) -> [u8; 10]
    ensures { result ≡ to_le_bytes w64 bits ++ to_le_bytes w16 size }
{
    let [a, b, c, d, e, f, g, h] = bits.to_le_bytes();
    let [low, high] = size.to_le_bytes();
    [a, b, c, d, e, f, g, h, low, high]
}

// What stands before a formula's code in its record.
fn formula_front(cell: Cell, state: &CellState, size: u16) -> [u8; 19]
    requires { size ≤ 65520 }
    ensures { result ≡ to_le_bytes w16 (number_of kind.Formula) ++ (to_le_bytes w16 (FORMULA_LENGTH + size)
        ++ (head cell state.now ++ (to_le_bytes w64 (value_bits state.now.value) ++ to_le_bytes w16 size))) }
{
    let [a, b, c, d, e, f, g, h, i] = beginning(
        RecordKind::Formula,
        FORMULA_LENGTH + size,
        cell,
        state,
    );
    let [j, k, l, m, n, o, p, q, r, s] = before_code(value_bits(state), size);
    [a, b, c, d, e, f, g, h, i, j, k, l, m, n, o, p, q, r, s]
}

// A formula's code alone.
fn code_alone(formula: &Formula, cell: Cell, code: &mut Vec<u8>) -> Result<(), Memory>
    ensures code { OnOk result (code.new.items ≡ code_of formula.now cell) }
    ensures size { length (code_of formula.now cell) ≤ 65520 }
{
    let _ = formula.expr();
    code.clear();
    write_code(formula, cell, code)
}

// Adds the record of a formula that has this code.
fn put_code(cell: Cell, state: &CellState, code: &[u8], into: &mut Vec<u8>) -> Result<(), Memory>
    requires { length code.now ≤ 65520 }
    ensures { OnOk result (into.new.items ≡ into.old.items ++ piece_bytes (formula_piece cell state.now code.now)) }
{
    put(&formula_front(cell, state, code.len() as u16), into)?;
    put(code, into)
}

// A whole number of -32768 to 32767.
fn is_integer(number: Fixed) -> bool
    ensures { result ≡ is_integer number }
{
    let millionths = number.millionths();
    let size = millionths.unsigned_abs();
    size % 1_000_000 == 0 && (size <= 32_767_000_000 || (millionths < 0 && size == 32_768_000_000))
}

// The two bytes of a whole number, in two's complement.
fn whole_of(number: Fixed) -> u16
    requires { is_integer number ≡ true }
    ensures { to_le_bytes w16 result ≡ integer_bytes number }
{
    let millionths = number.millionths();
    let whole = millionths.unsigned_abs() / 1_000_000;
    if millionths < 0 {
        (65_536 - whole) as u16
    } else {
        whole as u16
    }
}

// The record of a whole number of two bytes.
fn integer_record(cell: Cell, state: &CellState, number: Fixed) -> [u8; 11]
    requires { is_integer number ≡ true }
    ensures { result ≡ piece_bytes (made kind.Integer (head cell state.now ++ integer_bytes number)) }
{
    let [a, b, c, d, e, f, g, h, i] = beginning(RecordKind::Integer, INTEGER_LENGTH, cell, state);
    let [low, high] = whole_of(number).to_le_bytes();
    [a, b, c, d, e, f, g, h, i, low, high]
}

// Adds the record of a whole number of two bytes.
fn put_integer(
    cell: Cell,
    state: &CellState,
    number: Fixed,
    into: &mut Vec<u8>,
) -> Result<(), Memory>
    requires { is_integer number ≡ true }
    ensures { OnOk result (into.new.items
        ≡ into.old.items ++ piece_bytes (made kind.Integer (head cell state.now ++ integer_bytes number))) }
{
    put(&integer_record(cell, state, number), into)
}

// The record of a number as a double.
fn double_record(cell: Cell, state: &CellState, number: Fixed) -> [u8; 17]
    ensures { result ≡ piece_bytes (made kind.Number (head cell state.now ++ to_le_bytes w64 (bits_of number))) }
{
    let [a, b, c, d, e, f, g, h, i] = beginning(RecordKind::Number, NUMBER_LENGTH, cell, state);
    let [j, k, l, m, n, o, p, q] = double_bits(number).to_le_bytes();
    [a, b, c, d, e, f, g, h, i, j, k, l, m, n, o, p, q]
}

// Adds the record of a number as a double.
fn put_double(
    cell: Cell,
    state: &CellState,
    number: Fixed,
    into: &mut Vec<u8>,
) -> Result<(), Memory>
    ensures { OnOk result (into.new.items
        ≡ into.old.items ++ piece_bytes (made kind.Number (head cell state.now ++ to_le_bytes w64 (bits_of number)))) }
{
    put(&double_record(cell, state, number), into)
}

/// Adds the record of a number: INTEGER where two bytes hold it.
pub fn put_number(
    cell: Cell,
    state: &CellState,
    number: Fixed,
    into: &mut Vec<u8>,
) -> Result<(), Memory>
    ensures { OnOk result (into.new.items ≡ into.old.items ++ piece_bytes (number_piece cell state.now number)) }
{
    if is_integer(number) {
        put_integer(cell, state, number, into)
    } else {
        put_double(cell, state, number, into)
    }
}

// Adds the text that is a formula's value, where it is one.
fn put_value(cell: Cell, state: &CellState, into: &mut Vec<u8>) -> Result<(), Memory>
    ensures { OnOk result (into.new.items
        ≡ into.old.items ++ pieces_bytes (text_pieces cell state.now state.now.value)) }
{
    match state.value() {
        ValueRef::Str(text) => put_text(cell, state, text, into),
        ValueRef::Blank | ValueRef::Num(_) | ValueRef::Err | ValueRef::Na => Ok(()),
    }
}

// Adds the records of a formula and of its value. It is a function of its own, so that the other cells' code is short.
#[inline(never)]
fn put_formula(
    cell: Cell,
    state: &CellState,
    formula: &Formula,
    code: &mut Vec<u8>,
    into: &mut Vec<u8>,
) -> Result<(), Memory>
    ensures { OnOk result (into.new.items ≡ into.old.items
        ++ pieces_bytes (formula_piece cell state.now (code_of formula.now cell)
        ∷ text_pieces cell state.now state.now.value)) }
{
    code_alone(formula, cell, code)?;
    put_code(cell, state, code.as_slice(), into)?;
    put_value(cell, state, into)
}

/// Adds the records of a cell.
pub fn put_cell(
    cell: Cell,
    state: &CellState,
    code: &mut Vec<u8>,
    into: &mut Vec<u8>,
) -> Result<(), Memory>
    ensures { OnOk result (into.new.items
        ≡ into.old.items ++ pieces_bytes (content_pieces cell state.now state.now.content)) }
{
    match state.content() {
        ContentRef::Blank => put_blank(cell, state, into),
        ContentRef::Number(number) => put_number(cell, state, number, into),
        ContentRef::Label(prefix, text) => put_label(cell, state, prefix, text, into),
        ContentRef::Formula(formula) => put_formula(cell, state, formula, code, into),
    }
}

// A number is below 1,000,000,000 in size. Nothing is done: the contract says it.
fn number_is_sized(number: Fixed)
    ensures { nat_abs number ≤ 999999999999999 }
{
    let _ = number.millionths();
}

// A text has at most 240 bytes, each at least 32. Nothing is done: the contract says it.
#[tactic(auto, using(formula_tree::proofs::Ranged::as_text))]
fn text_is_short(text: TextRef<'_>)
    ensures { is_text (seen_text text.entry) ≡ true }
{
    let _ = text.bytes();
}

// What a cell's content keeps by its type. Nothing is done: the contract says it.
fn is_content(state: &CellState)
    ensures { IsContent state.now.content }
{
    match state.content() {
        ContentRef::Blank => {}
        ContentRef::Number(number) => number_is_sized(number),
        ContentRef::Label(_, text) => text_is_short(text),
        ContentRef::Formula(formula) => {
            let _ = formula.expr();
        }
    }
}

// What a cell's value keeps by its type. Nothing is done: the contract says it.
fn is_value(state: &CellState)
    ensures { IsValue state.now.value }
{
    match state.value() {
        ValueRef::Num(number) => number_is_sized(number),
        ValueRef::Str(text) => text_is_short(text),
        ValueRef::Blank | ValueRef::Err | ValueRef::Na => {}
    }
}

/// Adds the records of the cells, in row order.
pub fn put_cells(alloc: Global, store: &Store, into: &mut Vec<u8>) -> Result<(), Memory>
    ensures bytes { OnOk result (into.new.items
        ≡ into.old.items ++ pieces_bytes (flat_map cell_pieces (finite.entries store.now.cells))) }
    ensures ranged { OnOk result (AllByRecursion (λ e. IsContent e.1.content × IsValue e.1.value)
        (finite.entries store.now.cells)) }
{
    let mut code = Vec::new(alloc);
    let mut entries = store.entries();
    while let Some(entry) = entries.next() {
        is_content(entry.1);
        is_value(entry.1);
        put_cell(entry.0, entry.1, &mut code, into)?;
    }
    Ok(())
}
