// What a cell shows.
ghost use Rattle.std.specs.Prelude.{◌≡◌, option_copied, option_map};
ghost use Rattle.formula_text.specs.Printed.{printed};
ghost use Rattle.formula_tree.specs.Seen.{seen_content, seen_value};
ghost use Rattle.shown_cells.specs.Cells as spec;
ghost use Rattle.shown_cells.specs.Parts.{shown_text};

use crate::fitting::Fitting;
use formula_tree::{ContentRef, Formula, ValueRef};
use grid_address::{Cell, Format};
use lics_text::LabelPrefix;
use range_names::Names;
use sheet_store::CellState;

/// What a cell shows from its left edge on.
#[derive(Clone, Copy)]
pub enum Shown<'a> {
    /// A text at the left, of which the column shows what fits; the rest runs on over blank cells to the right.
    RunsOn(&'a [u8]),
    /// What is shown within the column.
    Fits(Fitting<'a>),
}

// Whether a label goes on through its cell.
fn is_repeated(prefix: LabelPrefix) -> bool
    ensures { result ≡ spec.is_repeated prefix }
{
    match prefix {
        LabelPrefix::Repeat => true,
        LabelPrefix::Left | LabelPrefix::Right | LabelPrefix::Center => false,
        LabelPrefix::Unprinted => false,
    }
}

// What a label shows: one that is longer than its cell runs on, unless it is repeated.
fn label_in<'a>(prefix: LabelPrefix, text: &'a [u8], width: u8) -> Shown<'a>
    ensures { shown_text result width ≡ spec.label_text prefix text.now width }
{
    if !is_repeated(prefix) && text.len() > usize::from(width) {
        Shown::RunsOn(text)
    } else {
        Shown::Fits(Fitting::Label(prefix, text))
    }
}

// What a value shows.
fn value_in<'a>(value: &ValueRef<'a>, format: Format, width: u8) -> Shown<'a>
    ensures { shown_text result width ≡ spec.value_text (seen_value value.now) format.0 width }
{
    match value {
        ValueRef::Blank => Shown::RunsOn(b""),
        ValueRef::Str(text) => label_in(LabelPrefix::Left, text.bytes(), width),
        ValueRef::Num(number) => Shown::Fits(Fitting::Number(*number, format)),
        ValueRef::Err => Shown::Fits(Fitting::Err),
        ValueRef::Na => Shown::Fits(Fitting::Na),
    }
}

/// What a content and its value show in a width from 0 to 255, in the format that stands for the cell. A blank content
/// shows nothing, and so does any content in the format Hidden; a formula shows its value, and in the format Text
/// itself, as it is printed with the sheet's names. (Release 2 manual.)
#[inline(always)]
pub fn shown_content<'a>(
    content: &ContentRef<'a>,
    value: &ValueRef<'a>,
    names: &'a Names,
    cell: Cell,
    format: Format,
    width: u8,
) -> Shown<'a>
    ensures { shown_text result width
        ≡ spec.visible_text names.now cell (seen_content content.now) (seen_value value.now) format.0 width }
{
    if format.is_shown_as(Format::HIDDEN) {
        return Shown::RunsOn(b"");
    }
    match content {
        ContentRef::Blank => Shown::RunsOn(b""),
        ContentRef::Number(_) => value_in(value, format, width),
        ContentRef::Label(prefix, text) => label_in(*prefix, text.bytes(), width),
        ContentRef::Formula(formula) => {
            let is_text = format.is_shown_as(Format::TEXT);
            if is_text {
                Shown::Fits(Fitting::Printed(formula, cell, names))
            } else {
                value_in(value, format, width)
            }
        }
    }
}

/// The format that stands for a cell: its own, or the sheet's in its place where it is the default one. (Release 2
/// manual.)
pub fn format_in(global: Format, own: Format) -> Format
    ensures { result.0 ≡ spec.format_in global.0 own.0 }
{
    if own.is_shown_as(Format::DEFAULT) {
        global
    } else {
        own
    }
}

/// What a cell shows in a column's width, by what is kept of it, the sheet's names and the format that stands in for
/// the default one. None comes exactly where it is blank: a text from the left may run on over it. A formula's value is
/// looked at where it is shown alone.
#[inline(always)]
pub fn shown_in<'a>(
    state: Option<&'a CellState>,
    names: &'a Names,
    global: Format,
    cell: Cell,
    width: u8,
) -> Option<Shown<'a>>
    ensures { option_map (λ shown. shown_text shown width) result
        ≡ spec.state_text names.now global.0 cell (option_copied state.entry) width }
{
    let state = state?;
    let content = state.content();
    let format = format_in(global, state.format());
    match content {
        ContentRef::Blank => None,
        ContentRef::Formula(formula) => {
            let is_hidden = format.is_shown_as(Format::HIDDEN);
            if is_hidden {
                return Some(Shown::RunsOn(b""));
            }
            if format.is_shown_as(Format::TEXT) {
                return Some(Shown::Fits(Fitting::Printed(formula, cell, names)));
            }
            Some(value_in(&state.value(), format, width))
        }
        ContentRef::Label(prefix, text) => {
            let is_hidden = format.is_shown_as(Format::HIDDEN);
            if is_hidden {
                return Some(Shown::RunsOn(b""));
            }
            Some(label_in(prefix, text.bytes(), width))
        }
        ContentRef::Number(_) => {
            let shown = shown_content(&content, &state.value(), names, cell, format, width);
            Some(shown)
        }
    }
}

/// A byte as it is shown: those from 32 to 126 as they are, and each other one as a question mark. (This project's
/// choice.)
pub fn shown_byte(byte: u8) -> u8
    ensures { result ≡ spec.shown_byte byte }
{
    if b' ' <= byte && byte <= b'~' {
        byte
    } else {
        b'?'
    }
}
