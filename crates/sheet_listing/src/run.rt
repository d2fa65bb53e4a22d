// The listing of a worksheet file from its bytes.
ghost use Rattle.std.specs.Prelude.{ℕ, List, Option, ◌≡◌, ◌≤◌, ◌<◌, ◌++◌, ◌∷◌, [], IfOk, IfErr, OnOk, length, option_map};
ghost use Rattle.sheet_listing.specs.Ending.{ending_note, note, outside, status_of, word_note, EndsSo, IsNoted, Reads, Runs};
ghost use Rattle.sheet_listing.specs.inner.Reading.{HasListed, HasListedSheet, HasReadFailed, IsPut, IsSplit, TookOne};
ghost use Rattle.sheet_listing.specs.declared.run.ReadFault.TheVariants as fault;

use crate::sheet::list_sheet;
use crate::writing::WriteFault;
use file_faults::fault_line;
use lics_text::{Line, Memory};
use outside_world::{Keys, Notes};
use sheet_store::SavedSheet;
use std::alloc::Global;
use wk1_file::{Wk1Fault, read};

/// How many bytes are read at most: one more than a worksheet file may have.
const MOST_READ: usize = 67_108_865;

const NAME: &[u8] = b"1-2-3-list: ";

const BAD_WORD: u8 = 1;

const FAULTY: u8 = 2;

const NOT_READ: u8 = 5;

const NOT_WRITTEN: u8 = 7;

const MEMORY: u8 = 9;

/// How a listing ends: all lines are written, the bytes are no worksheet, a read or a write failed, or memory ran out.
#[derive(Clone, Copy)]
pub enum Ending {
    Written,
    Faulty(Wk1Fault),
    NotRead,
    NotWritten,
    NoMemory,
}

// Why bytes aren't read.
#[derive(Clone, Copy)]
pub enum ReadFault {
    Failed,
    Memory,
}

// Puts a byte behind those that were read.
fn keep_byte(byte: u8, bytes: &mut Vec<u8>) -> Result<(), ReadFault>
    ensures kept { OnOk result (bytes.new.items ≡ bytes.old.items ++ byte ∷ []) }
    ensures memory { IfErr result (λ f. f ≡ fault.Memory) }
{
    match bytes.push(byte) {
        Ok(()) => Ok(()),
        Err(_) => Err(ReadFault::Memory),
    }
}

// Takes the next byte to those that were read; whether there was one.
fn take_byte<K: Keys>(file: &mut K, bytes: &mut Vec<u8>) -> Result<bool, ReadFault>
    ensures split { OnOk result ((all : Option (List ℕ)) → IsSplit all bytes.old.items (K.left file.old)
        → IsSplit all bytes.new.items (K.left file.new)) }
    ensures took { IfOk result (λ took. TookOne (K.left file.new) bytes.old.items bytes.new.items took) }
    ensures cause { IfErr result (λ f. HasReadFailed (K.faults file.old) (K.faults file.new) f) }
    ensures fine { OnOk result (K.faults file.new ≡ K.faults file.old) }
{
    match file.next() {
        Ok(Some(byte)) => {
            keep_byte(byte, bytes)?;
            Ok(true)
        }
        Ok(None) => Ok(false),
        Err(_) => Err(ReadFault::Failed),
    }
}

// Reads the bytes, up to the most.
fn read_bytes<K: Keys>(alloc: Global, file: &mut K) -> Result<Vec<u8>, ReadFault>
    ensures bytes { IfOk result (λ bytes. Reads (K.left file.old) bytes.items (K.left file.new)) }
    ensures cause { IfErr result (λ f. HasReadFailed (K.faults file.old) (K.faults file.new) f) }
{
    let mut bytes = Vec::new(alloc);
    while bytes.len() < MOST_READ {
        let took = take_byte(file, &mut bytes)?;
        if !took {
            return Ok(bytes);
        }
    }
    Ok(bytes)
}

// Lists a sheet.
fn list_saved<L: Notes>(alloc: Global, sheet: &SavedSheet, lines: &mut L) -> Ending
    ensures { HasListedSheet sheet.now
        (L.written lines.old) (L.written lines.new) (L.faults lines.old) (L.faults lines.new) result }
{
    match list_sheet(alloc, sheet, lines) {
        Ok(()) => Ending::Written,
        Err(WriteFault::Failed) => Ending::NotWritten,
        Err(WriteFault::Memory) => Ending::NoMemory,
    }
}

// Lists the sheet that the bytes are, if they are one.
fn list_bytes<L: Notes>(alloc: Global, bytes: &[u8], lines: &mut L) -> Ending
    ensures { HasListed bytes.now
        (L.written lines.old) (L.written lines.new) (L.faults lines.old) (L.faults lines.new) result }
{
    match read(alloc, bytes) {
        Ok(sheet) => list_saved(alloc, &sheet, lines),
        Err(Wk1Fault::Memory) => Ending::NoMemory,
        Err(fault) => Ending::Faulty(fault),
    }
}

// Reads the bytes and lists them.
fn list_file<K: Keys, L: Notes>(alloc: Global, file: &mut K, lines: &mut L) -> Ending
    ensures { EndsSo (outside (K.left file.old) (K.faults file.old) (L.written lines.old) (L.faults lines.old))
        (outside (K.left file.new) (K.faults file.new) (L.written lines.new) (L.faults lines.new)) result }
{
    match read_bytes(alloc, file) {
        Ok(bytes) => list_bytes(alloc, bytes.as_slice(), lines),
        Err(ReadFault::Failed) => Ending::NotRead,
        Err(ReadFault::Memory) => Ending::NoMemory,
    }
}

// The status of an ending.
fn status_of(ending: Ending) -> u8
    ensures { result ≡ status_of ending }
{
    match ending {
        Ending::Written => 0,
        Ending::Faulty(_) => FAULTY,
        Ending::NotRead => NOT_READ,
        Ending::NotWritten => NOT_WRITTEN,
        Ending::NoMemory => MEMORY,
    }
}

// A note of few bytes.
fn note_of(text: &[u8]) -> Line
    requires { length text.now ≤ 120 }
    ensures { result ≡ note text.now }
{
    let mut line = Line::new();
    line.put_all(NAME);
    line.put_all(text);
    line.put_all(b"\n");
    line
}

// The note on an ending.
fn ending_note(ending: Ending) -> Line
    ensures { result ≡ ending_note ending }
{
    match ending {
        Ending::Written => Line::new(),
        Ending::Faulty(fault) => note_of(fault_line(fault).bytes()),
        Ending::NotRead => note_of(b"input failed"),
        Ending::NotWritten => note_of(b"output failed"),
        Ending::NoMemory => note_of(b"memory full"),
    }
}

// Writes a part of a note; whether that is done.
fn write_part<N: Notes>(text: &[u8], notes: &mut N) -> bool
    ensures { IsPut text.now
        (N.written notes.old) (N.written notes.new) (N.faults notes.old) (N.faults notes.new) result }
{
    match notes.write(text) {
        Ok(()) => true,
        Err(_) => false,
    }
}

// Writes a note. Where that fails, the status is the same.
fn tell<N: Notes>(text: &[u8], notes: &mut N)
    ensures { IsNoted text.now (N.written notes.old) (N.written notes.new) (N.faults notes.old) (N.faults notes.new) }
{
    let _ = write_part(text, notes);
}

// Tells a word that is refused, in as many writes as the note has parts; none comes behind one that fails.
fn tell_word<N: Notes>(word: &[u8], notes: &mut N)
    ensures { IsNoted (word_note word.now)
        (N.written notes.old) (N.written notes.new) (N.faults notes.old) (N.faults notes.new) }
{
    let begun = write_part(b"1-2-3-list: bad word: ", notes);
    if !begun {
        return;
    }
    let named = write_part(word, notes);
    if !named {
        return;
    }
    tell(b"\n", notes);
}

/// Reads the bytes of a worksheet file, at most 67,108,865 of them, writes the lines of its sheet, and answers the
/// status: 0; 2 where the bytes are no worksheet, whose fault is noted; 5 where a read failed; 7 where a write of lines
/// failed; 9 where memory ran out, and where one of the last two comes, the lines that were written are the first ones.
/// A word of the command line is refused by name, with status 1 before anything is read. A note that can't be written
/// changes no status. (This project's choice.)
pub fn list<K: Keys, L: Notes, N: Notes>(
    alloc: Global,
    word: Option<&[u8]>,
    file: &mut K,
    lines: &mut L,
    notes: &mut N,
) -> u8
    ensures { Runs (option_map (λ w. w.now) word.entry)
        (outside (K.left file.old) (K.faults file.old) (L.written lines.old) (L.faults lines.old))
        (outside (K.left file.new) (K.faults file.new) (L.written lines.new) (L.faults lines.new))
        (N.written notes.old) (N.written notes.new) (N.faults notes.old) (N.faults notes.new) result }
{
    match word {
        Some(word) => {
            tell_word(word, notes);
            BAD_WORD
        }
        None => {
            let ending = list_file(alloc, file, lines);
            let note = ending_note(ending);
            tell(note.bytes(), notes);
            status_of(ending)
        }
    }
}
