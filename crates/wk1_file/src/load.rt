// Worksheet files read.
ghost use Rattle.std.specs.Prelude.{◌≡◌, ◌≤◌, ◌<◌, ◌+◌, ◌++◌, ◌⊎◌, Ok, Err, OnOk, IfErr, length, drop};
ghost use Rattle.wk1_file.specs.Files.{has_bof, IsFile};
ghost use Rattle.wk1_records.specs.Kinds.{kind_of};
ghost use Rattle.wk1_records.specs.Meanings.{meaning_by};
ghost use Rattle.wk1_file.specs.Sheets.{start};
ghost use Rattle.wk1_file.specs.inner.Takes.{as_progress, IsMinded, IsTaken, Makes};
ghost use Rattle.wk1_records.specs.declared.fault.Wk1Fault.TheVariants as fault;

use crate::take::{Loading, take};
use lics_text::Memory;
use range_names::Names;
use sheet_store::{SavedSheet, Settings, Store};
use std::alloc::Global;
use wk1_formula::{bytes_from, short_at};
use wk1_records::{
    BOF, EOF, FORMULA, INTEGER, LABEL, NUMBER, ReadCodes, RecordKind, Wk1Fault, entry_of,
    front_piece, kind_of,
};

/// The most bytes of a file (this project's choice).
const MOST_BYTES: usize = 67_108_864;

/// How many cells a sheet has.
pub const MOST_CELLS: usize = 2_097_152;

/// The number that the file of the first release whose files are read begins with.
const FIRST_RELEASE: u16 = 0x0404;

/// The number of the last such release, which is Release 2.
const LAST_RELEASE: u16 = 0x0406;

/// The type and the length of a BOF, and the three releases whose files are read (worksheet file format).
fn has_bof(bytes: &[u8]) -> bool
    ensures { result ≡ has_bof bytes.now }
{
    bytes.len() >= 6
        && short_at(bytes, 0) == BOF
        && short_at(bytes, 2) >= 2
        && short_at(bytes, 4) >= FIRST_RELEASE
        && short_at(bytes, 4) <= LAST_RELEASE
}

// A fresh sheet.
fn fresh(alloc: Global) -> Loading
    ensures { as_progress result ≡ start }
{
    Loading {
        sheet: SavedSheet {
            store: Store::new(alloc),
            names: Names::new(alloc),
            settings: Settings::fresh(),
        },
        formula: None,
    }
}

// Takes what one more record says. It stands within the code around it, which knows the kind, so that little of it is
// asked again.
#[inline(always)]
fn take_record(
    alloc: Global,
    codes: &mut ReadCodes,
    loading: &mut Loading,
    number: u32,
    kind: RecordKind,
    body: &[u8],
) -> Result<(), Wk1Fault>
    requires { IsMinded (as_progress loading.old) }
    ensures taken { OnOk result (IsTaken number body.now kind (as_progress loading.old) (as_progress loading.new)) }
    ensures minded { OnOk result (IsMinded (as_progress loading.new)) }
    ensures fault { IfErr result (λ f. (f ≡ fault.Memory) ⊎ (meaning_by number body.now kind ≡ Err f)) }
{
    match entry_of(alloc, codes, number, kind, body) {
        Ok(entry) => match take(loading, entry) {
            Ok(()) => Ok(()),
            Err(Memory) => Err(Wk1Fault::Memory),
        },
        Err(fault) => Err(fault),
    }
}

// Takes one more record of a kind that few records have. It is a function of its own, so that the code around it is
// short.
#[inline(never)]
fn take_other(
    alloc: Global,
    codes: &mut ReadCodes,
    loading: &mut Loading,
    body: &[u8],
    number: u32,
    kind: u16,
) -> Result<(), Wk1Fault>
    requires { IsMinded (as_progress loading.old) }
    ensures minded { OnOk result (IsMinded (as_progress loading.new)) }
    ensures taken { OnOk result
        (IsTaken number body.now (kind_of kind) (as_progress loading.old) (as_progress loading.new)) }
    ensures fault { IfErr result (λ f. (f ≡ fault.Memory) ⊎ (meaning_by number body.now (kind_of kind) ≡ Err f)) }
{
    take_record(alloc, codes, loading, number, kind_of(kind), body)
}

// Takes one more record: each kind of nearly all cells by code of its own.
#[inline(always)]
#[tactic(auto, unfolding(wk1_records::specs::Kinds::kind_of))]
fn take_by_kind(
    kind: u16,
    number: u32,
    body: &[u8],
    loading: &mut Loading,
    codes: &mut ReadCodes,
    alloc: Global,
) -> Result<(), Wk1Fault>
    requires { IsMinded (as_progress loading.old) }
    ensures fault { IfErr result (λ f. (f ≡ fault.Memory) ⊎ (meaning_by number body.now (kind_of kind) ≡ Err f)) }
    ensures minded { OnOk result (IsMinded (as_progress loading.new)) }
    ensures taken { OnOk result
        (IsTaken number body.now (kind_of kind) (as_progress loading.old) (as_progress loading.new)) }
{
    if kind == LABEL {
        take_record(alloc, codes, loading, number, RecordKind::Label, body)
    } else if kind == INTEGER {
        take_record(alloc, codes, loading, number, RecordKind::Integer, body)
    } else if kind == NUMBER {
        take_record(alloc, codes, loading, number, RecordKind::Number, body)
    } else if kind == FORMULA {
        take_record(alloc, codes, loading, number, RecordKind::Formula, body)
    } else {
        take_other(alloc, codes, loading, body, number, kind)
    }
}

// The fewest bytes that the record of a cell takes: its type, its length, its format byte and its place.
const LEAST_CELL: usize = 9;

// Makes room for as many cells as so many bytes may hold, so that nothing grows while they are read. A want of memory
// isn't told: then the cells find theirs one by one.
fn make_room(bytes: usize, store: &mut Store)
    ensures { store.new ≡ store.old }
{
    let _ = store.reserve((bytes / LEAST_CELL).min(MOST_CELLS));
}

// The sheet of the records, or their first fault.
fn read_records(alloc: Global, bytes: &[u8]) -> Result<SavedSheet, Wk1Fault>
    requires { length bytes.now ≤ MOST_BYTES }
    ensures { (result ≡ Err fault.Memory) ⊎ Makes bytes.now result }
{
    let mut loading = fresh(alloc);
    make_room(bytes.len(), &mut loading.sheet.store);
    let mut codes = ReadCodes::new(alloc);
    let mut at = 0;
    let mut number: u32 = 0;
    while let Some((kind, body)) = front_piece(bytes_from(bytes, at)) {
        if kind == EOF {
            return Ok(loading.sheet);
        }
        match take_by_kind(kind, number, body, &mut loading, &mut codes, alloc) {
            Ok(()) => {}
            Err(fault) => return Err(fault),
        }
        at += 4 + body.len();
        number += 1;
    }
    Err(Wk1Fault::Truncated(at as u32))
}

/// The sheet that the bytes of a worksheet file mean, or the first fault in file order; a file that is too large comes
/// before all others, and then one that begins with no BOF. It passes over the bytes once.
pub fn read(alloc: Global, bytes: &[u8]) -> Result<SavedSheet, Wk1Fault>
    ensures { (result ≡ Err fault.Memory) ⊎ IsFile bytes.now result }
{
    if bytes.len() > MOST_BYTES {
        return Err(Wk1Fault::FileTooLarge);
    }
    if !has_bof(bytes) {
        return Err(Wk1Fault::NoBof);
    }
    read_records(alloc, bytes)
}
