// What a finished line means.
ghost use Rattle.std.specs.Prelude.{◌≡◌, IfOk};
ghost use Rattle.formula_text.specs.Reading.{reading};
ghost use Rattle.lics_text.specs.Bytes.{IsText};
ghost use Rattle.session_core.specs.Entering.{fault_place, formula_meant, meaning_of, value_in};
ghost use Rattle.work_sheet.specs.Lines.{label_content};
ghost use Rattle.work_sheet.specs.Seen.{of_worksheet};

use fixed_value::{Decimal, read_decimal};
use formula_text::{ParseFault, read};
use formula_tree::Content;
use grid_address::Cell;
use lics_text::{LabelPrefix, Memory, Text};
use session_rooms::begins_value;
use std::alloc::Global;
use work_sheet::Worksheet;

/// What a finished line means: a content, or a fault at a byte of the line, or at its end.
#[derive(Drop)]
pub enum Meant {
    Means(Content),
    Faulty(usize),
}

// The place of a fault; the end where the text ends too early or is too long.
fn fault_place(fault: ParseFault, line: &[u8]) -> usize
    ensures { result ≡ fault_place fault line.now }
{
    match fault {
        ParseFault::Unexpected(at) => at,
        ParseFault::UnknownFunction(at) => at,
        ParseFault::FunctionOutside(at) => at,
        ParseFault::ArgCount(at) => at,
        ParseFault::BadNumber(at) => at,
        ParseFault::UnknownName(at) => at,
        ParseFault::Ended => line.len(),
        ParseFault::TooLong => line.len(),
        ParseFault::Memory => line.len(),
    }
}

// A formula, or the place of its fault.
fn formula_of(line: &[u8], sheet: &Worksheet, cell: Cell) -> Result<Meant, Memory>
    ensures { IfOk result (λ m. m ≡ formula_meant (reading sheet.now.names cell line.now) line.now) }
{
    match read(sheet.alloc(), line, cell, sheet.names()) {
        Ok(formula) => Ok(Meant::Means(Content::Formula(formula))),
        Err(ParseFault::Memory) => Err(Memory),
        Err(fault) => Ok(Meant::Faulty(fault_place(fault, line))),
    }
}

// A decimal is a number, one that is too large is a fault, and any other value is read as a formula.
fn value_of(line: &[u8], sheet: &Worksheet, cell: Cell) -> Result<Meant, Memory>
    ensures { IfOk result (λ m. m ≡ value_in line.now (of_worksheet sheet.now) cell) }
{
    match read_decimal(line) {
        Decimal::Num(number) => Ok(Meant::Means(Content::Number(number))),
        Decimal::TooLarge => Ok(Meant::Faulty(0)),
        Decimal::NotNumber => formula_of(line, sheet, cell),
    }
}

// A label in the memory of the sheet.
fn label(prefix: LabelPrefix, bytes: &[u8], alloc: Global) -> Result<Content, Memory>
    requires { IsText bytes.now }
    ensures { IfOk result (λ x. x ≡ Content.Label prefix bytes.now) }
{
    let text = Text::copy_of(alloc, bytes)?;
    Ok(Content::Label(prefix, text))
}

// A label begins with its prefix, or takes the sheet's.
#[tactic(auto, using(crate::proofs::Prefixed::behind_prefix))]
fn label_of(line: &[u8], sheet: &Worksheet) -> Result<Content, Memory>
    requires { IsText line.now }
    ensures { IfOk result (λ x. x ≡ label_content sheet.now.settings.prefix line.now) }
{
    let prefix = sheet.settings().prefix;
    if line.is_empty() {
        return label(prefix, line, sheet.alloc());
    }
    match LabelPrefix::of(line[0]) {
        Some(own) => label(own, &line[1..], sheet.alloc()),
        None => label(prefix, line, sheet.alloc()),
    }
}

/// What a line means in a cell of a sheet: a value where its first byte begins one, and else a label, which begins with
/// its prefix or takes the sheet's (Release 2 manual).
pub(crate) fn meaning_of(line: &[u8], sheet: &Worksheet, cell: Cell) -> Result<Meant, Memory>
    requires { IsText line.now }
    ensures { IfOk result (λ m. m ≡ meaning_of line.now (of_worksheet sheet.now) cell) }
{
    if !line.is_empty() && begins_value(line[0]) {
        value_of(line, sheet, cell)
    } else {
        Ok(Meant::Means(label_of(line, sheet)?))
    }
}
