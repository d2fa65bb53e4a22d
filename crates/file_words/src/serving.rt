// Words carried out over the text file that is attached and the shelf.
ghost use Rattle.std.specs.Prelude.{◌≡◌, ◌++◌, min, Some, IfOk, OnErr, OnOk};
ghost use Rattle.commands_file.specs.Calls.{failed, shelf_view};
ghost use Rattle.file_words.specs.Serving as spec;
ghost use Rattle.file_words.specs.Serving.{HasBrokenWord, WasServed};
ghost use Rattle.lics_text.specs.Limits.{MAX_LEN};
ghost use Rattle.macro_words.specs.declared.files.FileWord.TheVariants as word;
ghost use Rattle.text_channel.specs.Channels.{can_write, left_after, stood, written};
ghost use Rattle.text_channel.specs.Lines.{next_bytes, next_line};

use crate::deeds::{goes_on, puts_number, puts_text};
use grid_address::Cell;
use lics_text::{ByteList, Memory, Text};
use macro_text::Spot;
use macro_words::{Deed, FileDeed, FileWord};
use outside_world::{FileName, Shelf};
use std::alloc::Global;
use text_channel::{Access, Channel, ChannelFault};

/// The cell that a word writes, if it writes one.
pub fn target_of(word: &FileWord) -> Option<Cell>
    ensures { result ≡ spec.target_of word.now }
{
    match word {
        FileWord::Read(_, cell) | FileWord::ReadLine(cell) => Some(*cell),
        FileWord::Size(cell) | FileWord::Position(cell) => Some(*cell),
        FileWord::Open(_, _) | FileWord::Close => None,
        FileWord::Write(_) | FileWord::WriteLine(_) | FileWord::SetPosition(_) => None,
    }
}

// A file is attached.
fn open<S: Shelf>(
    alloc: Global,
    name: FileName,
    access: Access,
    done: Spot,
    channel: &mut Channel,
    shelf: &mut S,
) -> Result<Option<Deed>, Memory>
    ensures served { let serves = spec.served (word.Open name access) done in
        IfOk result (λ deed. WasServed serves deed channel.old channel.new
        (shelf_view (S.holds shelf.old) (S.faults shelf.old)) (shelf_view (S.holds shelf.new) (S.faults shelf.new))) }
    ensures memory { OnErr result (HasBrokenWord (spec.served (word.Open name access) done) channel.old
        (shelf_view (S.holds shelf.old) (S.faults shelf.old)) (shelf_view (S.holds shelf.new) (S.faults shelf.new))) }
{
    match channel.attach(alloc, name, access, shelf) {
        Ok(is_done) => Ok(Some(goes_on(done, is_done))),
        Err(ChannelFault::Failed) => Ok(None),
        Err(ChannelFault::Memory) => Err(Memory),
    }
}

// The file that is attached is finished.
fn close<S: Shelf>(done: Spot, channel: &mut Channel, shelf: &mut S) -> Result<Option<Deed>, Memory>
    ensures served { let serves = spec.served word.Close done in
        IfOk result (λ deed. WasServed serves deed channel.old channel.new
        (shelf_view (S.holds shelf.old) (S.faults shelf.old)) (shelf_view (S.holds shelf.new) (S.faults shelf.new))) }
    ensures memory { OnErr result (HasBrokenWord (spec.served word.Close done) channel.old
        (shelf_view (S.holds shelf.old) (S.faults shelf.old)) (shelf_view (S.holds shelf.new) (S.faults shelf.new))) }
{
    match channel.finish(shelf) {
        Ok(is_done) => Ok(Some(goes_on(done, is_done))),
        Err(ChannelFault::Failed) => Ok(None),
        Err(ChannelFault::Memory) => Err(Memory),
    }
}

// The most bytes that READ takes.
const MOST_READ: u8 = 240;

// The next bytes are put into a cell.
fn read(
    alloc: Global,
    count: u8,
    cell: Cell,
    done: Spot,
    channel: &mut Channel,
) -> Result<Deed, Memory>
    ensures deed { IfOk result (λ deed.
        Some deed ≡ (spec.reads (next_bytes (min count MAX_LEN)) cell done channel.old).deed) }
    ensures channel { OnOk result (channel.new ≡ left_after (next_bytes (min count MAX_LEN)) channel.old) }
{
    let text = channel.read(alloc, count.min(MOST_READ))?;
    puts_text(alloc, done, cell, text)
}

// The next line is put into a cell.
fn read_line(alloc: Global, cell: Cell, done: Spot, channel: &mut Channel) -> Result<Deed, Memory>
    ensures deed { IfOk result (λ deed. Some deed ≡ (spec.reads next_line cell done channel.old).deed) }
    ensures channel { OnOk result (channel.new ≡ left_after next_line channel.old) }
{
    let text = channel.read_line(alloc)?;
    puts_text(alloc, done, cell, text)
}

// Bytes are written.
fn write(bytes: &[u8], done: Spot, channel: &mut Channel) -> Result<Deed, Memory>
    ensures deed { IfOk result (λ deed. deed ≡ spec.goes_on done (can_write bytes.now channel.old)) }
    ensures channel { OnOk result (channel.new ≡ written bytes.now channel.old) }
{
    let is_done = channel.write(bytes)?;
    Ok(goes_on(done, is_done))
}

// How a line ends that is written.
const LINE_END: &[u8] = b"\r\n";

// The most bytes of a line with its end.
const MOST_WRITTEN: usize = 242;

// A text is written with the end of its line.
fn write_line(text: &Text, done: Spot, channel: &mut Channel) -> Result<Deed, Memory>
    ensures deed { let bytes = text.now ++ spec.line_end in
        IfOk result (λ deed. deed ≡ spec.goes_on done (can_write bytes channel.old)) }
    ensures channel { OnOk result (channel.new ≡ written (text.now ++ spec.line_end) channel.old) }
{
    let mut line = ByteList::<MOST_WRITTEN>::new();
    line.put_all(text.bytes());
    line.put_all(LINE_END);
    write(line.bytes(), done, channel)
}

// The position is set.
fn set_position(place: u32, done: Spot, channel: &mut Channel) -> Deed
    ensures deed { Some result ≡ (spec.served (word.SetPosition place) done failed failed channel.old).deed }
    ensures channel { channel.new ≡ stood place channel.old }
{
    let is_done = channel.set_position(place);
    goes_on(done, is_done)
}

/// Carries a word out over the text file that is attached and the shelf: what it then does to the sheet and the macro.
/// None comes exactly where the shelf failed. OPEN puts the file that it finishes and then asks for its own, CLOSE puts
/// its file, and no other call is made; a file that was only read isn't put. What isn't done, or given, leaves the
/// macro where it stands: nothing is attached, the access doesn't allow it, nothing is left to read, or the file would
/// be too long. After `Memory` no file but the one that OPEN or CLOSE was putting has changed, and by any other word
/// none. (Release 2 manual for the words; what goes on where is this project's choice.)
pub fn serve<S: Shelf>(
    alloc: Global,
    deed: FileDeed,
    channel: &mut Channel,
    shelf: &mut S,
) -> Result<Option<Deed>, Memory>
    ensures served { IfOk result (λ done. WasServed (spec.served_word deed) done channel.old channel.new
        (shelf_view (S.holds shelf.old) (S.faults shelf.old)) (shelf_view (S.holds shelf.new) (S.faults shelf.new))) }
    ensures memory { OnErr result (HasBrokenWord (spec.served_word deed) channel.old
        (shelf_view (S.holds shelf.old) (S.faults shelf.old)) (shelf_view (S.holds shelf.new) (S.faults shelf.new))) }
{
    let FileDeed { word, done } = deed;
    match word {
        FileWord::Open(name, access) => open(alloc, name, access, done, channel, shelf),
        FileWord::Close => close(done, channel, shelf),
        FileWord::Read(count, cell) => Ok(Some(read(alloc, count, cell, done, channel)?)),
        FileWord::ReadLine(cell) => Ok(Some(read_line(alloc, cell, done, channel)?)),
        FileWord::Write(text) => Ok(Some(write(text.bytes(), done, channel)?)),
        FileWord::WriteLine(text) => Ok(Some(write_line(&text, done, channel)?)),
        FileWord::Size(cell) => Ok(Some(puts_number(alloc, done, cell, channel.size())?)),
        FileWord::Position(cell) => Ok(Some(puts_number(alloc, done, cell, channel.position())?)),
        FileWord::SetPosition(place) => Ok(Some(set_position(place, done, channel))),
    }
}
