// A line that is edited.
ghost use Rattle.std.specs.Prelude.{◌≡◌, ◌≤◌, ◌<◌, ◌+◌, ◌-◌, ◌++◌, ◌∷◌, [], length, min, take, drop};
ghost use Rattle.lics_text.specs.Bytes.{IsText};
ghost use Rattle.entry_line.specs.Line.{after, deleted, event, inserted, nothing, placed, taken_back, typed};

use crate::LineEvent;
use key_words::Key;
use lics_text::{Line, MAX_LEN, TextByte};
use std::marker::Model;

/// A line of at most 240 bytes, each 32 to 255, with a cursor that stands before a byte or at the end (Release 2
/// manual, EDIT mode). It takes no memory.
#[derive(Drop)]
pub struct EntryLine {
    line: Line,
    cursor: usize,
}

impl Model for EntryLine {
    ghost use Rattle.std.specs.Prelude.{◌≤◌, length};
    ghost use Rattle.lics_text.specs.Bytes.{IsText};
    ghost use Rattle.entry_line.specs.Line.{Entry};

    ghost Value = { Entry };

    ghost view = { λ l. record { text = l.line; cursor = l.cursor } };

    ghost invariant = { λ l. IsText l.line × (l.cursor ≤ length l.line) };
}

// The bytes from a place on are taken out as far as another, and others come in.
fn spliced(bytes: &[u8], from: usize, inside: &[u8], to: usize) -> Line
    requires order { (from ≤ to) × (to ≤ length bytes.now) }
    requires room { from + length inside.now + (length bytes.now - to) ≤ MAX_LEN }
    ensures { result ≡ take from bytes.now ++ (inside.now ++ drop to bytes.now) }
{
    let mut line = Line::new();
    line.put_all(&bytes[..from]);
    line.put_all(inside);
    line.put_all(&bytes[to..]);
    line
}

impl EntryLine {
    /// A line with a text, and the cursor at its end. The text has at most 240 bytes, each 32 to 255.
    pub fn new(text: &[u8]) -> EntryLine
        requires short { length text.now ≤ MAX_LEN }
        requires bytes { IsText text.now }
        ensures text { result.text ≡ text.now }
        ensures cursor { result.cursor ≡ length text.now }
    {
        let mut line = Line::new();
        line.put_all(text);
        EntryLine {
            line,
            cursor: text.len(),
        }
    }

    /// The text.
    pub fn text(&self) -> &[u8]
        ensures text { result.now ≡ self.now.text }
        ensures bytes { IsText self.now.text }
        ensures short { length self.now.text ≤ MAX_LEN }
    {
        self.line.bytes()
    }

    /// How many bytes stand before the cursor.
    pub fn cursor(&self) -> usize
        ensures cursor { result ≡ self.now.cursor }
        ensures within { self.now.cursor ≤ length self.now.text }
    {
        self.cursor
    }

    /// Puts the cursor behind so many bytes, at most all.
    pub fn set_cursor(&mut self, at: usize)
        requires { at ≤ length self.old.text }
        ensures { self.new ≡ record self.old { cursor = at } }
    {
        self.cursor = at;
    }

    /// What a key does in EDIT: LEFT and RIGHT move the cursor by one, BIGLEFT and BIGRIGHT by five, HOME and END to
    /// the ends. A byte comes in at the cursor; DEL takes out the byte behind it, and BS the one before it. ESC empties
    /// the line. Enter, UP, DOWN, PGUP and PGDN finish it, and every other key does nothing (Release 2 manual; what ESC
    /// does on an empty line is this project's choice).
    pub fn key(&mut self, key: Key) -> LineEvent
        ensures line { self.new ≡ after key self.old }
        ensures event { result ≡ event key self.old }
    {
        let cursor = self.cursor;
        let end = self.text().len();
        match key {
            Key::Byte(byte) => self.put(byte),
            Key::Left => self.place(cursor.saturating_sub(1)),
            Key::Right => self.place(cursor.saturating_add(1)),
            Key::BigLeft => self.place(cursor.saturating_sub(5)),
            Key::BigRight => self.place(cursor.saturating_add(5)),
            Key::Home => self.place(0),
            Key::End => self.place(end),
            Key::Del => self.delete(),
            Key::Bs => self.take_back(),
            Key::Esc => self.escape(),
            Key::Enter | Key::Up | Key::Down | Key::PgUp | Key::PgDn => LineEvent::Finished,
            Key::Edit | Key::Name | Key::Abs | Key::Goto | Key::Window => LineEvent::Going,
            Key::Query | Key::Table | Key::Calc | Key::Graph => LineEvent::Going,
            Key::Break | Key::Undo | Key::Alt(_) => LineEvent::Going,
        }
    }

    // Puts the cursor to a place, or to the end where that is nearer.
    fn place(&mut self, place: usize) -> LineEvent
        ensures line { self.new ≡ placed self.old place }
        ensures event { result ≡ LineEvent.Going }
    {
        self.cursor = place.min(self.line.bytes().len());
        LineEvent::Going
    }

    // Bytes are taken out and others come in, behind which the cursor then stands.
    fn splice(&mut self, from: usize, inside: &[u8], to: usize)
        requires order { (from ≤ to) × (to ≤ length self.old.text) }
        requires room { from + length inside.now + (length self.old.text - to) ≤ MAX_LEN }
        requires bytes { IsText inside.now }
        ensures text { self.new.text ≡ take from self.old.text ++ (inside.now ++ drop to self.old.text) }
        ensures cursor { self.new.cursor ≡ from + length inside.now }
    {
        self.line = spliced(self.line.bytes(), from, inside, to);
        self.cursor = from + inside.len();
    }

    // Puts a byte in at the cursor, where there is room.
    fn put(&mut self, byte: TextByte) -> LineEvent
        ensures line { self.new ≡ typed self.old byte }
        ensures event { result ≡ event (Key.Byte byte) self.old }
    {
        if self.line.bytes().len() < MAX_LEN {
            self.splice(self.cursor, &[byte.get()], self.cursor);
            LineEvent::Going
        } else {
            LineEvent::LineFull
        }
    }

    // Takes out the byte behind the cursor.
    fn delete(&mut self) -> LineEvent
        ensures line { self.new ≡ deleted self.old }
        ensures event { result ≡ LineEvent.Going }
    {
        let cursor = self.cursor;
        if cursor < self.line.bytes().len() {
            self.splice(cursor, b"", cursor + 1);
        }
        LineEvent::Going
    }

    // Takes out the byte before the cursor.
    fn take_back(&mut self) -> LineEvent
        ensures line { self.new ≡ taken_back self.old }
        ensures event { result ≡ LineEvent.Going }
    {
        let cursor = self.cursor;
        if cursor > 0 {
            self.splice(cursor - 1, b"", cursor);
        }
        LineEvent::Going
    }

    // Empties the line.
    fn escape(&mut self) -> LineEvent
        ensures line { self.new ≡ nothing }
        ensures event { result ≡ event Key.Esc self.old }
    {
        let event = if self.line.bytes().len() > 0 {
            LineEvent::Going
        } else {
            LineEvent::GivenUp
        };
        self.line = Line::new();
        self.cursor = 0;
        event
    }
}
