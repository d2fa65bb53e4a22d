// Whether two stores hold the same cells.
ghost use Rattle.std.specs.Bool.{Decides};
ghost use Rattle.std.specs.Prelude.{◌≡◌, ◌&&◌, [], bytes_eq, nat_eq, IfOk, OnOk};
ghost use Rattle.lics_text.specs.Prefixes.{prefix_byte};
ghost use Rattle.grid_address.specs.Place.{same_place};
ghost use Rattle.formula_tree.specs.Values.{same_value};
ghost use Rattle.sheet_undo.specs.inner.Same.{entry, same_content, same_entry, same_state, IsWritten};
ghost use Rattle.wk1_formula.specs.Written.{code_of};
ghost use Rattle.lics_text.specs.Seen.{seen_text};

use formula_tree::{ContentRef, Formula, ValueRef};
use grid_address::Cell;
use lics_text::{LabelPrefix, Memory, TextRef};
use sheet_store::{CellState, Entries, Store};
use std::alloc::Global;
use wk1_formula::write_code;

// Whether two texts are one.
fn is_same_text(one: TextRef<'_>, other: TextRef<'_>) -> bool
    ensures { result ≡ bytes_eq (seen_text one.entry) (seen_text other.entry) }
{
    one.bytes() == other.bytes()
}

// Whether two labels are one.
fn is_same_label(
    prefix: LabelPrefix,
    one: TextRef<'_>,
    mark: LabelPrefix,
    other: TextRef<'_>,
) -> bool
    ensures { result
        ≡ (nat_eq (prefix_byte prefix) (prefix_byte mark) && bytes_eq (seen_text one.entry) (seen_text other.entry)) }
{
    prefix.byte() == mark.byte() && is_same_text(one, other)
}

// Whether two cells' values are one.
fn is_same_value(one: &CellState, other: &CellState) -> bool
    ensures { result ≡ same_value one.now.value other.now.value }
{
    match one.value() {
        ValueRef::Blank => match other.value() {
            ValueRef::Blank => true,
            ValueRef::Num(_) | ValueRef::Str(_) | ValueRef::Err | ValueRef::Na => false,
        },
        ValueRef::Num(number) => match other.value() {
            ValueRef::Num(value) => number == value,
            ValueRef::Blank | ValueRef::Str(_) | ValueRef::Err | ValueRef::Na => false,
        },
        ValueRef::Str(text) => match other.value() {
            ValueRef::Str(value) => is_same_text(text, value),
            ValueRef::Blank | ValueRef::Num(_) | ValueRef::Err | ValueRef::Na => false,
        },
        ValueRef::Err => match other.value() {
            ValueRef::Err => true,
            ValueRef::Blank | ValueRef::Num(_) | ValueRef::Str(_) | ValueRef::Na => false,
        },
        ValueRef::Na => match other.value() {
            ValueRef::Na => true,
            ValueRef::Blank | ValueRef::Num(_) | ValueRef::Str(_) | ValueRef::Err => false,
        },
    }
}

// Room for the codes of two formulas that are compared.
#[derive(Drop)]
pub struct TwoCodes {
    left: Vec<u8>,
    right: Vec<u8>,
}

impl TwoCodes {
    // No codes. They take no memory.
    pub fn new(alloc: Global) -> TwoCodes {
        TwoCodes {
            left: Vec::new(alloc),
            right: Vec::new(alloc),
        }
    }
}

// Adds the code of a formula in a worksheet file, in place of what was there.
fn put_code(formula: &Formula, at: Cell, into: &mut Vec<u8>) -> Result<(), Memory>
    ensures { OnOk result (into.new.items ≡ code_of formula.now at) }
{
    into.clear();
    write_code(formula, at, into)
}

// Whether two formulas of a cell have the same code in a worksheet file.
fn is_same_formula(
    one: &Formula,
    other: &Formula,
    at: Cell,
    codes: &mut TwoCodes,
) -> Result<bool, Memory>
    ensures { IfOk result (λ same. same ≡ bytes_eq (code_of one.now at) (code_of other.now at)) }
{
    if one.is_known_as(other) {
        return Ok(true);
    }
    put_code(one, at, &mut codes.left)?;
    put_code(other, at, &mut codes.right)?;
    Ok(codes.left.as_slice() == codes.right.as_slice())
}

// Whether two states of a cell have one content.
fn is_same_content(
    one: &CellState,
    other: &CellState,
    at: Cell,
    codes: &mut TwoCodes,
) -> Result<bool, Memory>
    ensures { IfOk result (λ same. same ≡ same_content at one.now.content other.now.content) }
{
    match one.content() {
        ContentRef::Blank => match other.content() {
            ContentRef::Blank => Ok(true),
            ContentRef::Number(_) | ContentRef::Label(_, _) | ContentRef::Formula(_) => Ok(false),
        },
        ContentRef::Number(number) => match other.content() {
            ContentRef::Number(value) => Ok(number == value),
            ContentRef::Blank | ContentRef::Label(_, _) | ContentRef::Formula(_) => Ok(false),
        },
        ContentRef::Label(prefix, text) => match other.content() {
            ContentRef::Label(mark, label) => Ok(is_same_label(prefix, text, mark, label)),
            ContentRef::Blank | ContentRef::Number(_) | ContentRef::Formula(_) => Ok(false),
        },
        ContentRef::Formula(formula) => match other.content() {
            ContentRef::Formula(tree) => is_same_formula(formula, tree, at, codes),
            ContentRef::Blank | ContentRef::Number(_) | ContentRef::Label(_, _) => Ok(false),
        },
    }
}

// What a formula's tree keeps. Nothing is done: the contract says it.
fn is_written(state: &CellState)
    ensures { IsWritten state.now.content }
{
    match state.content() {
        ContentRef::Blank | ContentRef::Number(_) | ContentRef::Label(_, _) => {}
        ContentRef::Formula(formula) => {
            let _ = formula.expr();
        }
    }
}

// Whether two values and formats are one.
fn is_same_rest(one: &CellState, other: &CellState) -> bool
    ensures { result ≡ (same_value one.now.value other.now.value && nat_eq one.now.format.0 other.now.format.0) }
{
    is_same_value(one, other) && one.format() == other.format()
}

// Whether two states of a cell are one.
fn is_same_state(
    one: &CellState,
    other: &CellState,
    at: Cell,
    codes: &mut TwoCodes,
) -> Result<bool, Memory>
    ensures { IfOk result (λ same. same ≡ same_state at one.now other.now) }
{
    if is_same_content(one, other, at, codes)? {
        Ok(is_same_rest(one, other))
    } else {
        Ok(false)
    }
}

// Whether two cells are one.
fn is_same_cell(cell: Cell, other: Cell) -> bool
    ensures { result ≡ same_place cell other }
{
    cell == other
}

// Whether two cells with their states are one.
pub fn is_same_entry(
    cell: Cell,
    one: &CellState,
    place: Cell,
    other: &CellState,
    codes: &mut TwoCodes,
) -> Result<bool, Memory>
    ensures { IfOk result (λ same. Decides same (entry cell one.now ≡ entry place other.now)) }
{
    cell.is_on_sheet();
    is_written(one);
    is_written(other);
    if is_same_cell(cell, place) {
        is_same_state(one, other, cell, codes)
    } else {
        Ok(false)
    }
}

// Whether no cell is left.
fn is_over(left: &mut Entries<'_>) -> bool
    ensures { Decides result (left.old ≡ []) }
{
    left.next().is_none()
}

// Whether two stores hold the same cells.
pub fn are_same_cells(one: &Store, other: &Store) -> Result<bool, Memory>
    ensures { IfOk result (λ same. Decides same (one.now.cells ≡ other.now.cells)) }
{
    let mut codes = TwoCodes::new(one.alloc());
    let mut left = one.entries();
    let mut right = other.entries();
    while let Some(entry) = left.next() {
        let Some(facing) = right.next() else {
            return Ok(false);
        };
        if !is_same_entry(entry.0, entry.1, facing.0, facing.1, &mut codes)? {
            return Ok(false);
        }
    }
    Ok(is_over(&mut right))
}
