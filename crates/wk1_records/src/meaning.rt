// What a record says, or why it is faulty.
ghost use Rattle.std.specs.Prelude.{◌≡◌, ◌≤◌, ◌<◌, ◌+◌, not, nat_lt, true, false, length};
ghost use Rattle.wk1_formula.specs.Reading.{short_at};
ghost use Rattle.wk1_records.specs.Answers.{Gives};
ghost use Rattle.wk1_records.specs.Kinds.{has_head, least_length};
ghost use Rattle.wk1_records.specs.Meanings.{cell_of, is_inside, meaning_by, said};

use crate::lengths::{CODE, CODE_LENGTH, HEAD};
use crate::name_said::{hidden_in, name_in};
use crate::order::order_of;
use crate::said::{
    blank_in, cell_at, column_width, formula_in, integer_in, label_in, number_in, prefix_of,
    text_in, window,
};
use crate::{Entry, INTEGER_LENGTH, NUMBER_LENGTH, ReadCodes, RecordKind, Wk1Fault};
use grid_address::Cell;
use std::alloc::Global;
use wk1_formula::short_at;

// Whether a body begins with a format byte and a cell.
#[inline(always)]
fn has_head(kind: RecordKind) -> bool
    ensures { result ≡ has_head kind }
{
    match kind {
        RecordKind::Blank
        | RecordKind::Integer
        | RecordKind::Number
        | RecordKind::Label
        | RecordKind::Formula
        | RecordKind::Str => { true }
        _ => false,
    }
}

// Whether the body of a formula is long enough for the code that it states.
fn has_code(body: &[u8]) -> bool
    ensures { result ≡ not (nat_lt (length body.now) (CODE + short_at CODE_LENGTH body.now)) }
{
    body.len() >= CODE && body.len() - CODE >= usize::from(short_at(body, CODE_LENGTH))
}

// Whether a body has the least length of its type.
#[inline(always)]
fn is_long(kind: RecordKind, body: &[u8]) -> bool
    ensures { result ≡ not (nat_lt (length body.now) (least_length kind body.now)) }
{
    match kind {
        RecordKind::Eof | RecordKind::Other => true,
        RecordKind::CalcMode
        | RecordKind::CalcOrder
        | RecordKind::CalcCount
        | RecordKind::Protection
        | RecordKind::LabelFormat => body.len() >= 1,
        RecordKind::Bof => body.len() >= 2,
        RecordKind::ColumnWidth => body.len() >= 3,
        RecordKind::Blank | RecordKind::Label | RecordKind::Str => body.len() >= HEAD,
        RecordKind::Integer => body.len() >= INTEGER_LENGTH as usize,
        RecordKind::Range | RecordKind::Window => body.len() >= 8,
        RecordKind::Number => body.len() >= NUMBER_LENGTH as usize,
        RecordKind::Formula => has_code(body),
        RecordKind::Name => body.len() >= 24,
        RecordKind::HiddenColumns => body.len() >= 32,
    }
}

// What a record without a head says.
fn plain(alloc: Global, number: u32, kind: RecordKind, body: &[u8]) -> Result<Entry, Wk1Fault>
    requires long { nat_lt (length body.now) (least_length kind body.now) ≡ false }
    requires plain { has_head kind ≡ false }
    ensures { Gives result (said number body.now kind) }
{
    match kind {
        RecordKind::CalcMode => Ok(Entry::Automatic(body[0] != 0)),
        RecordKind::CalcOrder => Ok(Entry::Order(order_of(body[0]))),
        RecordKind::Window => Ok(window(body)),
        RecordKind::ColumnWidth => Ok(column_width(body)),
        RecordKind::Name => name_in(body, number),
        RecordKind::Protection => Ok(Entry::Protection(body[0] != 0)),
        RecordKind::LabelFormat => Ok(Entry::Prefix(prefix_of(body[0]))),
        RecordKind::CalcCount => Ok(Entry::Passes(body[0].max(1).min(50))),
        RecordKind::HiddenColumns => hidden_in(alloc, body),
        _ => Ok(Entry::Nothing),
    }
}

// What a record with a head says.
#[inline(always)]
fn headed(
    alloc: Global,
    codes: &mut ReadCodes,
    number: u32,
    kind: RecordKind,
    body: &[u8],
    cell: Cell,
) -> Result<Entry, Wk1Fault>
    requires long { nat_lt (length body.now) (least_length kind body.now) ≡ false }
    requires headed { has_head kind ≡ true }
    requires cell { cell ≡ cell_of body.now }
    ensures { Gives result (said number body.now kind) }
{
    match kind {
        RecordKind::Blank => Ok(blank_in(body, cell)),
        RecordKind::Integer => Ok(integer_in(body, cell)),
        RecordKind::Number => number_in(alloc, body, number, cell),
        RecordKind::Label => label_in(alloc, body, number, cell),
        RecordKind::Formula => formula_in(codes, body, number, cell),
        RecordKind::Str => text_in(alloc, body, number, cell),
        _ => Ok(Entry::Nothing),
    }
}

/// What a record says, or why it is faulty: a body that is too short comes first, then a cell outside the sheet. A
/// formula shares the tree of one with the same code that was read lately.
#[inline(always)]
pub fn entry_of(
    alloc: Global,
    codes: &mut ReadCodes,
    number: u32,
    kind: RecordKind,
    body: &[u8],
) -> Result<Entry, Wk1Fault>
    ensures { Gives result (meaning_by number body.now kind) }
{
    if !is_long(kind, body) {
        return Err(Wk1Fault::BadLength(number));
    }
    if !has_head(kind) {
        return plain(alloc, number, kind, body);
    }
    match cell_at(body, 1) {
        Some(cell) => headed(alloc, codes, number, kind, body, cell),
        None => Err(Wk1Fault::CellOutside(number)),
    }
}
