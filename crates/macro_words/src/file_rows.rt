// Words on text files.
ghost use Rattle.std.specs.Prelude.{◌≡◌, IfOk};
ghost use Rattle.macro_words.specs.Sources.{outlook_from};
ghost use Rattle.macro_words.specs.Rows as spec;
ghost use Rattle.macro_words.specs.declared.files.FileWord.TheVariants as asked;

use crate::asking::text_given;
use crate::rows::{bad, below, moves};
use crate::writing::{count_given, within};
use crate::{FileDeed, FileWord, Move, Row, Source};
use formula_parts::Look;
use lics_text::{MAX_LEN, Memory};
use macro_text::{Spot, TextList, place_of};
use outside_world::{Ext, FileName};
use text_channel::Access;

// The text file that a text names, with `.TXT` where it has no extension.
fn text_file(text: &[u8]) -> Option<FileName>
    ensures { result ≡ spec.text_file text.now }
{
    match FileName::with(text, Ext::Txt) {
        Some(name) => Some(name),
        None => FileName::with(text, Ext::Prn),
    }
}

// What R, W or M tells, in either case.
fn access_of(text: &[u8]) -> Option<Access>
    ensures { result ≡ spec.access_of text.now }
{
    if text.eq_ignore_ascii_case(b"R") {
        Some(Access::Read)
    } else if text.eq_ignore_ascii_case(b"W") {
        Some(Access::Write)
    } else if text.eq_ignore_ascii_case(b"M") {
        Some(Access::Modify)
    } else {
        None
    }
}

/// Where what is asked for was done, the macro goes on in the cell below its word.
pub fn asks(at: &Spot, word: FileWord) -> Row
    ensures { result ≡ spec.asks at.now word }
{
    moves(Move::Files(FileDeed {
        word,
        done: below(1, at.cell),
    }))
}

/// OPEN.
pub fn open_row<K: Look>(from: &Source<'_, K>, at: &Spot, args: &TextList) -> Result<Row, Memory>
    ensures { IfOk result (λ r. r ≡ spec.open_row (outlook_from K.Look from.now) at.now args.now) }
{
    let Some(text) = text_given(from, at.cell, args.get(0))? else {
        return Ok(bad());
    };
    let Some(name) = text_file(text.bytes()) else {
        return Ok(bad());
    };
    match access_of(args.get(1)) {
        Some(access) => Ok(asks(at, FileWord::Open(name, access))),
        None => Ok(bad()),
    }
}

/// READ.
pub fn read_row<K: Look>(from: &Source<'_, K>, at: &Spot, args: &TextList) -> Result<Row, Memory>
    ensures { IfOk result (λ r. r ≡ spec.read_row (outlook_from K.Look from.now) at.now args.now) }
{
    let count = count_given(from, at.cell, args.get(0))?;
    let Some(count) = within(0, MAX_LEN as u8, count) else {
        return Ok(bad());
    };
    match place_of(from.look.names(), args.get(1)) {
        Some(cell) => Ok(asks(at, FileWord::Read(count, cell))),
        None => Ok(bad()),
    }
}

/// READLN.
pub fn read_line_row<K: Look>(from: &Source<'_, K>, at: &Spot, args: &TextList) -> Row
    ensures { result ≡ spec.on_place (outlook_from K.Look from.now) (spec.arg args.now 0)
        (λ c. spec.asks at.now (asked.ReadLine c)) }
{
    match place_of(from.look.names(), args.get(0)) {
        Some(cell) => asks(at, FileWord::ReadLine(cell)),
        None => bad(),
    }
}

/// WRITE.
pub fn write_row<K: Look>(from: &Source<'_, K>, at: &Spot, args: &TextList) -> Result<Row, Memory>
    ensures { let outlook = outlook_from K.Look from.now in
        IfOk result (λ r. r ≡ spec.on_text outlook at.now.cell (spec.arg args.now 0)
        (λ t. spec.asks at.now (asked.Write t))) }
{
    match text_given(from, at.cell, args.get(0))? {
        Some(text) => Ok(asks(at, FileWord::Write(text))),
        None => Ok(bad()),
    }
}

/// WRITELN.
pub fn write_line_row<K: Look>(
    from: &Source<'_, K>,
    at: &Spot,
    args: &TextList,
) -> Result<Row, Memory>
    ensures { let outlook = outlook_from K.Look from.now in
        IfOk result (λ r. r ≡ spec.on_text outlook at.now.cell (spec.arg args.now 0)
        (λ t. spec.asks at.now (asked.WriteLine t))) }
{
    match text_given(from, at.cell, args.get(0))? {
        Some(text) => Ok(asks(at, FileWord::WriteLine(text))),
        None => Ok(bad()),
    }
}

/// FILESIZE.
pub fn size_row<K: Look>(from: &Source<'_, K>, at: &Spot, args: &TextList) -> Row
    ensures { result ≡ spec.on_place (outlook_from K.Look from.now) (spec.arg args.now 0)
        (λ c. spec.asks at.now (asked.Size c)) }
{
    match place_of(from.look.names(), args.get(0)) {
        Some(cell) => asks(at, FileWord::Size(cell)),
        None => bad(),
    }
}

/// GETPOS.
pub fn position_row<K: Look>(from: &Source<'_, K>, at: &Spot, args: &TextList) -> Row
    ensures { result ≡ spec.on_place (outlook_from K.Look from.now) (spec.arg args.now 0)
        (λ c. spec.asks at.now (asked.Position c)) }
{
    match place_of(from.look.names(), args.get(0)) {
        Some(cell) => asks(at, FileWord::Position(cell)),
        None => bad(),
    }
}

/// SETPOS.
pub fn set_position_row<K: Look>(
    from: &Source<'_, K>,
    at: &Spot,
    args: &TextList,
) -> Result<Row, Memory>
    ensures { let outlook = outlook_from K.Look from.now in
        IfOk result (λ r. r ≡ spec.on_count outlook at.now.cell (spec.arg args.now 0)
        (λ n. spec.asks at.now (asked.SetPosition n))) }
{
    match count_given(from, at.cell, args.get(0))? {
        Some(place) => Ok(asks(at, FileWord::SetPosition(place))),
        None => Ok(bad()),
    }
}
