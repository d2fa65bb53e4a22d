// What a record says, put into the sheet.
ghost use Rattle.std.specs.Prelude.{◌≡◌, ◌≤◌, true, None, Some, OnOk, length, Result, IfOk, IfErr, Ok, Err, ◌⊎◌};
ghost use Rattle.sheet_store.specs.Choices.{is_global_prefix, Choices};
ghost use Rattle.std.specs.FinMap as finite;
ghost use Rattle.grid_address.specs.Place.{same_place, Place};
ghost use Rattle.range_names.specs.Names.{key_of};
ghost use Rattle.sheet_store.specs.Grid.{put_state, set_width_of, HasFormula, IsSound};
ghost use Rattle.wk1_file.specs.Sheets.{texted, with_entry, Progress};
ghost use Rattle.wk1_file.specs.inner.Takes.{as_progress, IsEntry, IsMinded};
ghost use Rattle.wk1_records.specs.declared.entry.Entry.TheVariants as entry;

use formula_tree::Value;
use grid_address::{Cell, Format, Span};
use lics_text::{LabelPrefix, Memory, Text};
use sheet_store::{CellState, MOST_WIDTH, Order, SavedSheet, Settings};
use wk1_records::Entry;

// The settings with another recalculation.
fn automatic(sheet: &mut SavedSheet, automatic: bool)
    ensures { sheet.new ≡ record sheet.old { settings = record sheet.old.settings { automatic = automatic } } }
{
    sheet.settings = Settings {
        automatic,
        ..sheet.settings
    };
}

// The settings with another order.
fn order(sheet: &mut SavedSheet, order: Order)
    ensures { sheet.new ≡ record sheet.old { settings = record sheet.old.settings { order = order } } }
{
    sheet.settings = Settings {
        order,
        ..sheet.settings
    };
}

// The settings with another number of passes.
fn passes(sheet: &mut SavedSheet, passes: u8)
    requires { (1 ≤ passes) × (passes ≤ 50) }
    ensures { sheet.new ≡ record sheet.old { settings = record sheet.old.settings { passes = passes } } }
{
    sheet.settings = Settings {
        passes,
        ..sheet.settings
    };
}

// The settings with another label prefix.
fn prefix(sheet: &mut SavedSheet, prefix: LabelPrefix)
    requires { is_global_prefix prefix ≡ true }
    ensures { sheet.new ≡ record sheet.old { settings = record sheet.old.settings { prefix = prefix } } }
{
    sheet.settings = Settings {
        prefix,
        ..sheet.settings
    };
}

// The settings with protection on or off.
fn protection(sheet: &mut SavedSheet, protection: bool)
    ensures { sheet.new ≡ record sheet.old { settings = record sheet.old.settings { protection = protection } } }
{
    sheet.settings = Settings {
        protection,
        ..sheet.settings
    };
}

// The settings with another pointer, format and width.
fn window(sheet: &mut SavedSheet, pointer: Cell, format: Format, width: u8)
    requires { (1 ≤ width) × (width ≤ MOST_WIDTH) }
    ensures { sheet.new ≡ record sheet.old {
      settings = record sheet.old.settings { pointer = pointer; format = format.0; width = width };
    } }
{
    sheet.settings = Settings {
        pointer,
        format,
        width,
        ..sheet.settings
    };
}

// A cell with another state.
#[inline(always)]
fn state(sheet: &mut SavedSheet, cell: Cell, state: CellState) -> Result<(), Memory>
    requires { IsSound state }
    ensures { OnOk result (sheet.new ≡ record sheet.old { store = put_state sheet.old.store cell state }) }
{
    sheet.store.put(cell, state)
}

// A column with a width of its own.
fn width(sheet: &mut SavedSheet, col: u8, width: u8)
    requires { (1 ≤ width) × (width ≤ MOST_WIDTH) }
    ensures { sheet.new ≡ record sheet.old { store = set_width_of sheet.old.store col (Some width) } }
{
    sheet.store.set_width(col, Some(width));
}

// Whether two cells are one.
fn is_same(a: Cell, b: Cell) -> bool
    ensures { result ≡ same_place a b }
{
    a == b
}

// A text is the value of the formula that stands just before, if it is for that cell.
#[tactic(auto, using(grid_address::proofs::Places::same_place_is))]
fn text(sheet: &mut SavedSheet, formula: Option<Cell>, cell: Cell, text: Text)
    requires { (p : Place) → formula ≡ Some p → HasFormula sheet.old.store p }
    ensures { sheet.new ≡ record sheet.old { store = texted formula cell text sheet.old.store } }
{
    match formula {
        Some(other) => {
            if is_same(other, cell) {
                sheet.store.set_value(other, Value::Str(text));
            }
        }
        None => {}
    }
}

// The names with one more.
fn name(sheet: &mut SavedSheet, name: &[u8], span: Span) -> Result<(), Memory>
    ensures { OnOk result (sheet.new
        ≡ record sheet.old { names = finite.insert sheet.old.names (key_of name.now) span }) }
{
    match sheet.names.create(name, span) {
        Ok(()) => Ok(()),
        Err(_) => Err(Memory),
    }
}

// The columns that are hidden.
fn hidden(sheet: &mut SavedSheet, bits: &[bool; 256])
    ensures { sheet.new ≡ record sheet.old { store = record sheet.old.store { hidden = bits.now } } }
{
    sheet.store.are_columns();
    for at in 0..256usize {
        sheet.store.set_hidden(at as u8, bits[at]);
    }
}

/// A sheet while it is read, and the cell whose formula the record just before gave.
#[derive(Drop)]
pub struct Loading {
    pub sheet: SavedSheet,
    pub formula: Option<Cell>,
}

/// Puts what a record says into the sheet.
#[inline(always)]
pub fn take(loading: &mut Loading, entry: Entry) -> Result<(), Memory>
    requires entry { IsEntry entry }
    requires minded { IsMinded (as_progress loading.old) }
    ensures { OnOk result (as_progress loading.new ≡ with_entry (as_progress loading.old) entry) }
{
    let formula = loading.formula;
    loading.formula = None;
    match entry {
        Entry::Nothing => {}
        Entry::Automatic(on) => automatic(&mut loading.sheet, on),
        Entry::Order(kind) => order(&mut loading.sheet, kind),
        Entry::Window(pointer, format, width) => {
            window(&mut loading.sheet, pointer, format, width)
        }
        Entry::Width(col, own) => width(&mut loading.sheet, col, own),
        Entry::Hidden(bits) => hidden(&mut loading.sheet, bits.marks()),
        Entry::Name(bytes, span) => name(&mut loading.sheet, bytes.bytes(), span)?,
        Entry::State(cell, said) => state(&mut loading.sheet, cell, said)?,
        Entry::Formula(cell, said) => {
            loading.formula = Some(cell);
            state(&mut loading.sheet, cell, said)?
        }
        Entry::Text(cell, said) => text(&mut loading.sheet, formula, cell, said),
        Entry::Protection(on) => protection(&mut loading.sheet, on),
        Entry::Prefix(byte) => prefix(&mut loading.sheet, byte),
        Entry::Passes(count) => passes(&mut loading.sheet, count),
    }
    Ok(())
}
