// The lines on cells.
ghost use Rattle.std.specs.Prelude.{◌≡◌, ◌<◌, ◌++◌, ◌∷◌, [], OnOk, OnErr};
ghost use Rattle.lics_text.specs.Ascii as ascii;
ghost use Rattle.lics_text.specs.Prefixes.{prefix_byte};
ghost use Rattle.sheet_listing.specs.Lines.{line};
ghost use Rattle.sheet_listing.specs.Listed.{cell_line, cell_lines, content_text, saved_text, unprotected_mark, value_text};
ghost use Rattle.sheet_listing.specs.Waiting.{added, HasFailed, IsFront};
ghost use Rattle.lics_text.specs.Seen.{seen_text};

use crate::lines::put_line;
use crate::writing::{WriteFault, write_blocks};
use cell_format::indicator;
use fixed_value::write_short;
use formula_text::print_whole;
use formula_tree::{ContentRef, ValueRef};
use grid_address::{Cell, cell_text};
use lics_text::{LabelPrefix, Memory, TextRef};
use outside_world::Notes;
use range_names::Names;
use sheet_store::{CellState, Store};
use std::alloc::Global;

// Puts a text in the place of what was there.
fn set_text(bytes: &[u8], into: &mut Vec<u8>) -> Result<(), Memory>
    ensures { OnOk result (into.new.items ≡ bytes.now) }
{
    into.clear();
    into.extend_from_slice(bytes)?;
    Ok(())
}

// Puts a label with its prefix in the place of what was there.
fn set_label(prefix: LabelPrefix, text: TextRef<'_>, into: &mut Vec<u8>) -> Result<(), Memory>
    ensures { OnOk result (into.new.items ≡ prefix_byte prefix ∷ seen_text text.entry) }
{
    set_text(&[prefix.byte()], into)?;
    into.extend_from_slice(text.bytes())?;
    Ok(())
}

// Puts a text between quotes in the place of what was there.
fn set_quoted(text: TextRef<'_>, into: &mut Vec<u8>) -> Result<(), Memory>
    ensures { OnOk result (into.new.items ≡ ascii.quote ∷ (seen_text text.entry ++ ascii.quote ∷ [])) }
{
    set_text(b"\"", into)?;
    into.extend_from_slice(text.bytes())?;
    into.extend_from_slice(b"\"")?;
    Ok(())
}

// Puts what a cell holds, as it would be typed, in the place of what was there.
fn set_content(
    alloc: Global,
    cell: Cell,
    state: &CellState,
    names: &Names,
    into: &mut Vec<u8>,
) -> Result<(), Memory>
    ensures { OnOk result (into.new.items ≡ content_text names.now cell state.now.content) }
{
    match state.content() {
        ContentRef::Blank => set_text(b"", into),
        ContentRef::Number(number) => set_text(write_short(number, 6).bytes(), into),
        ContentRef::Label(prefix, text) => set_label(prefix, text, into),
        ContentRef::Formula(formula) => print_whole(alloc, formula, cell, names, into),
    }
}

// Puts a value in the place of what was there.
fn set_value(state: &CellState, into: &mut Vec<u8>) -> Result<(), Memory>
    ensures { OnOk result (into.new.items ≡ value_text state.now.value) }
{
    match state.value() {
        ValueRef::Blank => set_text(b"", into),
        ValueRef::Num(number) => set_text(write_short(number, 6).bytes(), into),
        ValueRef::Str(text) => set_quoted(text, into),
        ValueRef::Err => set_text(b"ERR", into),
        ValueRef::Na => set_text(b"NA", into),
    }
}

// Puts the saved value of a formula, and nothing for another content, in the place of what was there.
fn set_saved(state: &CellState, into: &mut Vec<u8>) -> Result<(), Memory>
    ensures { OnOk result (into.new.items ≡ saved_text state.now.content state.now.value) }
{
    match state.content() {
        ContentRef::Blank | ContentRef::Number(_) | ContentRef::Label(_, _) => set_text(b"", into),
        ContentRef::Formula(_) => set_value(state, into),
    }
}

// The mark of a cell that isn't protected.
fn unprotected_mark(protected: bool) -> &'static [u8]
    ensures { result.now ≡ unprotected_mark protected }
{
    if protected { b"" } else { b"U" }
}

// The texts of one cell, in whose memory those of the next one stand.
#[derive(Drop)]
struct CellTexts {
    alloc: Global,
    content: Vec<u8>,
    saved: Vec<u8>,
}

// Adds a line of an address and four texts.
fn put_texts<'a>(
    address: &[u8],
    content: &'a [u8],
    saved: &'a [u8],
    format: &'a [u8],
    mark: &'a [u8],
    into: &mut Vec<u8>,
) -> Result<(), Memory>
    ensures { OnOk result (into.new.items
        ≡ into.old.items ++ line address.now (content.now ∷ saved.now ∷ format.now ∷ mark.now ∷ [])) }
{
    put_line(address, &[content, saved, format, mark], into)
}

// Adds the line on a cell.
fn put_cell(
    cell: Cell,
    state: &CellState,
    names: &Names,
    texts: &mut CellTexts,
    into: &mut Vec<u8>,
) -> Result<(), Memory>
    ensures { OnOk result (into.new.items ≡ into.old.items ++ cell_line names.now (cell, state.now)) }
{
    cell.is_on_sheet();
    set_content(texts.alloc, cell, state, names, &mut texts.content)?;
    set_saved(state, &mut texts.saved)?;
    let address = cell_text(cell);
    let format = indicator(state.format());
    let mark = unprotected_mark(state.format().is_protected());
    put_texts(
        address.bytes(),
        texts.content.as_slice(),
        texts.saved.as_slice(),
        format.bytes(),
        mark,
        into,
    )
}

// Adds the line on a cell, and writes those that wait where they are a block.
fn list_cell<N: Notes>(
    cell: Cell,
    state: &CellState,
    names: &Names,
    texts: &mut CellTexts,
    waiting: &mut Vec<u8>,
    lines: &mut N,
) -> Result<(), WriteFault>
    ensures ok { OnOk result (added (N.written lines.new) waiting.new.items
        ≡ added (N.written lines.old) (waiting.old.items ++ cell_line names.now (cell, state.now))) }
    ensures err { OnErr result (IsFront (N.written lines.new)
        (added (N.written lines.old) (waiting.old.items ++ cell_line names.now (cell, state.now)))) }
    ensures cause { HasFailed (N.faults lines.old) (N.faults lines.new) result }
{
    match put_cell(cell, state, names, texts, waiting) {
        Ok(()) => write_blocks(waiting, lines),
        Err(Memory) => Err(WriteFault::Memory),
    }
}

/// Writes the lines on cells, in row order; the last ones may be left waiting.
pub fn list_cells<N: Notes>(
    alloc: Global,
    store: &Store,
    names: &Names,
    waiting: &mut Vec<u8>,
    lines: &mut N,
) -> Result<(), WriteFault>
    ensures ok { OnOk result (added (N.written lines.new) waiting.new.items
        ≡ added (N.written lines.old) (waiting.old.items ++ cell_lines names.now store.now)) }
    ensures err { OnErr result (IsFront (N.written lines.new)
        (added (N.written lines.old) (waiting.old.items ++ cell_lines names.now store.now))) }
    ensures cause { HasFailed (N.faults lines.old) (N.faults lines.new) result }
{
    let mut texts = CellTexts {
        alloc,
        content: Vec::new(alloc),
        saved: Vec::new(alloc),
    };
    let mut entries = store.entries();
    while let Some(entry) = entries.next() {
        list_cell(entry.0, entry.1, names, &mut texts, waiting, lines)?;
    }
    Ok(())
}
