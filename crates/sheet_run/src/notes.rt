// The notes that a run writes.
ghost use Rattle.std.specs.Prelude.{◌≡◌, ◌≤◌, ◌<◌, ◌++◌, ◌∷◌, [], codes, length, option_map, IfOk};
ghost use Rattle.std.specs.Option.{unwrap_or};
ghost use Rattle.grid_address.specs.Address.{decimal};
ghost use Rattle.sheet_run.specs.Notes.{count_note, display_note, display_status, ending_note, ending_status};
ghost use Rattle.sheet_run.specs.Notes.{file_note, file_status, memory_note, reason};
ghost use Rattle.sheet_run.specs.Notes.{generated_notes, row_count_note, rows_notes, session_notes};
ghost use Rattle.sheet_run.specs.Notes.{count_of, refused_note, stop_note, sum_note, told_value};
ghost use Rattle.session_core.specs.Standing.{left_in, refused};
ghost use Rattle.sheet_run.specs.Options.{limit_of};
ghost use Rattle.formula_tree.specs.Seen.{seen_value};
ghost use Rattle.sheet_run.specs.Notes.{LeavesSession, Tells, Tried};
ghost use Rattle.sheet_run.specs.inner.Telling.{HasWritten, ToldRefused};

use crate::drive::Ending;
use crate::opening::NotRead;
use crate::options::{Options, Start};
use file_faults::{fault_line, plain_line};
use fixed_value::write_short;
use formula_tree::ValueRef;
use grid_address::{Cell, decimal_text};
use lics_text::{ByteList, Line, MAX_LEN};
use outside_world::{Failed, FileName, Memory, Notes};
use session_core::Session;
use std::alloc::Global;
use work_sheet::Worksheet;

const MEMORY_NOTE: &[u8] = b"1-2-3: memory full\n";

const DISPLAY_FAILED: u8 = 7;

const NOTES_FAILED: u8 = 8;

/// The status where memory ran out.
pub const MEMORY: u8 = 9;

const REFUSED: u8 = 1;

const FILE_NOT_READ: u8 = 2;

const DISK_FAILED: u8 = 6;

// The column of the sums of a generated sheet.
const SUM_COLUMN: u8 = 2;

// A line on a sum has at most so many bytes: a text is one of 240.
const MAX_SUM_LINE: usize = 280;

// The status where a step of a strict run refused something, or something is left undone.
const STOPPED_STRICTLY: u8 = 10;

// A line on where a strict run stopped has at most so many bytes: what is refused is a line of 240.
const MAX_STOP_LINE: usize = 360;

// A line with a number in it.
fn number_line(front: &[u8], number: u64, back: &[u8]) -> Line
    requires front_fits { length front.now ≤ 40 }
    requires back_fits { length back.now ≤ 20 }
    ensures { result ≡ (front.now ++ decimal number) ++ back.now }
{
    let digits = decimal_text(number);
    let mut line = Line::new();
    line.put_all(front);
    line.put_all(digits.bytes());
    line.put_all(back);
    line
}

// Writes a text.
fn write<N: Notes>(notes: &mut N, bytes: &[u8]) -> Result<(), Failed>
    ensures { HasWritten bytes.now
        (N.written notes.old) (N.written notes.new) (N.faults notes.old) (N.faults notes.new) result }
{
    notes.write(bytes)
}

/// Tells that memory ran out. Where that can't be written, the status is the same.
pub fn tell_memory<N: Notes>(notes: &mut N) -> u8
    ensures tried { Tried memory_note
        (N.written notes.old) (N.written notes.new) (N.faults notes.old) (N.faults notes.new) }
    ensures status { result ≡ 9 }
{
    let _ = write(notes, MEMORY_NOTE);
    MEMORY
}

// The line on a refused word.
fn refused_line(alloc: Global, word: &[u8]) -> Result<Vec<u8>, Memory>
    ensures { IfOk result (λ v. v.items ≡ refused_note word.now) }
{
    let mut line = Vec::new(alloc);
    line.extend_from_slice(b"1-2-3: bad word: ")?;
    line.extend_from_slice(word)?;
    line.extend_from_slice(b"\n")?;
    Ok(line)
}

/// Tells that a word is refused, and answers the status. Want of memory is told where there is no room
/// for the line.
pub fn tell_refused<N: Notes>(alloc: Global, word: &[u8], notes: &mut N) -> u8
    ensures { ToldRefused word.now
        (N.written notes.old) (N.written notes.new) (N.faults notes.old) (N.faults notes.new) result }
{
    match refused_line(alloc, word) {
        Ok(line) => tell_line(notes, REFUSED, &line),
        Err(_) => tell_memory(notes),
    }
}

// Why a start file isn't read.
fn reason(why: NotRead) -> Line
    ensures line { result ≡ reason why }
    ensures short { length result ≤ 120 }
{
    match why {
        NotRead::NoSuchFile => plain_line(b"no such file"),
        NotRead::Faulty(fault) => fault_line(fault),
        NotRead::DiskError => plain_line(b"disk error"),
    }
}

// The line on a start file that isn't read.
fn file_line(name: &FileName, why: NotRead) -> Line
    ensures { result ≡ file_note name.now why }
{
    let reason = reason(why);
    let mut line = plain_line(b"1-2-3: ");
    line.put_all(name.bytes());
    line.put_all(b": ");
    line.put_all(reason.bytes());
    line.put_all(b"\n");
    line
}

// The status where a start file isn't read.
fn file_status(why: NotRead) -> u8
    ensures { result ≡ file_status why }
{
    match why {
        NotRead::NoSuchFile | NotRead::Faulty(_) => FILE_NOT_READ,
        NotRead::DiskError => DISK_FAILED,
    }
}

/// Tells that the start file isn't read, and answers the status.
pub fn tell_unread<N: Notes>(notes: &mut N, name: &FileName, why: NotRead) -> u8
    ensures { Tells (file_note name.now why) (file_status why)
        (N.written notes.old) (N.written notes.new) (N.faults notes.old) (N.faults notes.new) result }
{
    let line = file_line(name, why);
    tell_line(notes, file_status(why), line.bytes())
}

// Writes a line, and answers the status that was found, or that of a failed write.
fn tell_line<N: Notes>(notes: &mut N, found: u8, line: &[u8]) -> u8
    ensures { Tells line.now found
        (N.written notes.old) (N.written notes.new) (N.faults notes.old) (N.faults notes.new) result }
{
    match write(notes, line) {
        Ok(()) => found,
        Err(_) => NOTES_FAILED,
    }
}

// Tells whether a display failed, where nothing else is found.
fn tell_display<N: Notes>(notes: &mut N, moved: bool) -> u8
    ensures { Tells (display_note moved) (display_status moved) (N.written notes.old) (N.written notes.new)
        (N.faults notes.old) (N.faults notes.new) result }
{
    if moved {
        tell_line(notes, DISPLAY_FAILED, b"1-2-3: display failed\n")
    } else {
        0
    }
}

// The line on where a strict run stopped, behind so many steps and bytes, and why, in two parts.
fn stop_line(steps: u32, at: u64, front: &[u8], why: &[u8]) -> ByteList<MAX_STOP_LINE>
    requires front_fits { length front.now ≤ 40 }
    requires why_fits { length why.now ≤ MAX_LEN }
    ensures { result ≡ stop_note steps at (front.now ++ why.now) }
{
    let mut line = ByteList::new();
    line.put_all(b"1-2-3: step ");
    line.put_all(decimal_text(u64::from(steps)).bytes());
    line.put_all(b" at byte ");
    line.put_all(decimal_text(at).bytes());
    line.put_all(b": ");
    line.put_all(front);
    line.put_all(why);
    line.put_all(b"\n");
    line
}

// Tells what a step of a strict run refused.
fn tell_refusal<N: Notes>(notes: &mut N, steps: u32, at: u64, session: &Session) -> u8
    ensures { Tells (stop_note steps at (unwrap_or (refused session.now.state) [])) 10
        (N.written notes.old) (N.written notes.new) (N.faults notes.old) (N.faults notes.new) result }
{
    let told = session.refusal();
    let line = stop_line(steps, at, told.front.bytes(), told.text);
    tell_line(notes, STOPPED_STRICTLY, line.bytes())
}

// Tells where the keys of a strict run left the session.
fn tell_undone<N: Notes>(notes: &mut N, steps: u32, at: u64, session: &Session) -> u8
    ensures { Tells (stop_note steps at (codes "ended in " ++ left_in session.now.state)) 10
        (N.written notes.old) (N.written notes.new) (N.faults notes.old) (N.faults notes.new) result }
{
    let line = stop_line(steps, at, b"ended in ", session.left_in());
    tell_line(notes, STOPPED_STRICTLY, line.bytes())
}

// Tells of an ending that leaves a session.
fn tell_ending<N: Notes>(
    notes: &mut N,
    limit: u32,
    session: &Session,
    moved: bool,
    ending: Ending,
) -> u8
    requires { LeavesSession ending }
    ensures { Tells (ending_note limit session.now.state moved ending) (ending_status moved ending)
        (N.written notes.old) (N.written notes.new) (N.faults notes.old) (N.faults notes.new) result }
{
    match ending {
        Ending::KeysEnded | Ending::Quit => tell_display(notes, moved),
        Ending::Undone(steps, at) => tell_undone(notes, steps, at, session),
        Ending::Refused(steps, at) => tell_refusal(notes, steps, at, session),
        Ending::BadWord(at) => {
            let line = number_line(b"1-2-3: bad key word at byte ", at, b"\n");
            tell_line(notes, 4, line.bytes())
        }
        Ending::KeysFailed => tell_line(notes, 5, b"1-2-3: keys failed\n"),
        Ending::Stopped => {
            let line = number_line(b"1-2-3: stopped after ", limit as u64, b" steps\n");
            tell_line(notes, 3, line.bytes())
        }
        Ending::NoMemory => unreachable!(),
    }
}

// Adds a value as a note tells it.
fn put_value(line: &mut ByteList<MAX_SUM_LINE>, value: &Option<ValueRef<'_>>)
    requires { length line.old ≤ 30 }
    ensures line { line.new ≡ line.old ++ told_value (option_map seen_value value.now) }
    ensures short { length line.new ≤ 270 }
{
    match value {
        None => line.put_all(b""),
        Some(ValueRef::Blank) => line.put_all(b""),
        Some(ValueRef::Num(number)) => line.put_all(write_short(*number, 6).bytes()),
        Some(ValueRef::Str(text)) => line.put_all(text.bytes()),
        Some(ValueRef::Err) => line.put_all(b"ERR"),
        Some(ValueRef::Na) => line.put_all(b"NA"),
    }
}

// A line with a number in it and a value behind that.
fn value_line(front: &[u8], number: u64, value: &Option<ValueRef<'_>>) -> ByteList<MAX_SUM_LINE>
    requires { length front.now ≤ 8 }
    ensures { result ≡ (((front.now ++ decimal number) ++ 32 ∷ [])
        ++ told_value (option_map seen_value value.now)) ++ 10 ∷ [] }
{
    let digits = decimal_text(number);
    let mut line = ByteList::new();
    line.put_all(front);
    line.put_all(digits.bytes());
    line.put_all(b" ");
    put_value(&mut line, value);
    line.put_all(b"\n");
    line
}

// Tells how many rows a generated sheet has.
fn tell_row_count<N: Notes>(notes: &mut N, rows: u16) -> Result<(), Failed>
    ensures { HasWritten (row_count_note rows)
        (N.written notes.old) (N.written notes.new) (N.faults notes.old) (N.faults notes.new) result }
{
    let line = number_line(b"1-2-3: rows ", u64::from(rows), b"\n");
    write(notes, line.bytes())
}

// Tells the sum of all rows.
fn tell_sum<N: Notes>(notes: &mut N, rows: u16, sheet: &Worksheet) -> Result<(), Failed>
    requires some { 1 ≤ rows }
    requires most { rows ≤ 8000 }
    ensures { HasWritten (sum_note rows sheet.now.grid)
        (N.written notes.old) (N.written notes.new) (N.faults notes.old) (N.faults notes.new) result }
{
    let cell = Cell {
        row: rows - 1,
        col: SUM_COLUMN,
    };
    let value = sheet.value_of(cell);
    let line = value_line(b"1-2-3: C", u64::from(rows), &value);
    write(notes, line.bytes())
}

// Tells the rows of a generated sheet, and then the sum of all of them.
fn tell_generated<N: Notes>(notes: &mut N, rows: u16, sheet: &Worksheet) -> Result<(), Failed>
    requires some { 1 ≤ rows }
    requires most { rows ≤ 8000 }
    ensures { HasWritten (generated_notes rows sheet.now.grid)
        (N.written notes.old) (N.written notes.new) (N.faults notes.old) (N.faults notes.new) result }
{
    tell_row_count(notes, rows)?;
    tell_sum(notes, rows, sheet)
}

// Tells of the sheet, where it was generated.
fn tell_rows<N: Notes>(notes: &mut N, start: &Start, session: &Session) -> Result<(), Failed>
    ensures { HasWritten (rows_notes start.now session.now.state)
        (N.written notes.old) (N.written notes.new) (N.faults notes.old) (N.faults notes.new) result }
{
    match start {
        Start::Fresh => Ok(()),
        Start::File(_) => Ok(()),
        Start::Rows(rows) => tell_generated(notes, rows.rows(), &session.desk().sheet),
    }
}

// Tells the count, where it is asked for.
fn tell_count<N: Notes>(notes: &mut N, options: &Options, session: &Session) -> Result<(), Failed>
    ensures { HasWritten (count_note (count_of options.now session.now.work))
        (N.written notes.old) (N.written notes.new) (N.faults notes.old) (N.faults notes.new) result }
{
    if options.count {
        let line = number_line(b"1-2-3: evaluations ", session.evaluations(), b"\n");
        write(notes, line.bytes())
    } else {
        Ok(())
    }
}

// Tells of the session what the words ask for.
fn tell_session<N: Notes>(notes: &mut N, options: &Options, session: &Session) -> Result<(), Failed>
    ensures { HasWritten (session_notes options.now session.now.state session.now.work)
        (N.written notes.old) (N.written notes.new) (N.faults notes.old) (N.faults notes.new) result }
{
    tell_rows(notes, &options.start, session)?;
    tell_count(notes, options, session)
}

/// Tells of a generated sheet, the count, where it is asked for, and the ending, and answers the status. After a failed
/// write nothing more is written.
pub fn tell<N: Notes>(
    notes: &mut N,
    options: &Options,
    session: &Session,
    moved: bool,
    ending: Ending,
) -> u8
    requires { LeavesSession ending }
    ensures { Tells (session_notes options.now session.now.state session.now.work
        ++ ending_note (limit_of options.now) session.now.state moved ending) (ending_status moved ending)
        (N.written notes.old) (N.written notes.new) (N.faults notes.old) (N.faults notes.new) result }
{
    match tell_session(notes, options, session) {
        Ok(()) => tell_ending(notes, options.limit(), session, moved, ending),
        Err(_) => NOTES_FAILED,
    }
}
