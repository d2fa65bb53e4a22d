// Keys, notes and a display in memory, and what the lines ask of them.

use crate::stop::Stop;
use crate::words::Words;
use outside_world::{Failed, Keys, ListKeys, ListNotes, Notes};
use screen_show::{Display, DisplayKind, Recorder};
use std::alloc::Global;
use std::io::Write;
use std::mem::replace;

// The most that there is room for.
const MOST_ROOM: u64 = 100;

/// Keys, notes and a display.
#[derive(Drop)]
pub struct OutsideDesk {
    keys: ListKeys,
    notes: ListNotes,
    display: Recorder,
}

// What a call that writes or shows answers.
fn told(call: Result<(), Failed>) -> &'static [u8] {
    if call.is_ok() { b"yes\n" } else { b"failed\n" }
}

// A room.
fn room_in(words: &mut Words) -> usize {
    words.number().min(MOST_ROOM) as usize
}

impl OutsideDesk {
    /// No keys, and no room.
    pub fn new(alloc: Global) -> Result<OutsideDesk, Stop> {
        Ok(OutsideDesk {
            keys: ListKeys::new(Vec::new(alloc), Vec::new(alloc)),
            notes: ListNotes::new(alloc, 0, Vec::new(alloc))?,
            display: Recorder::new(alloc, DisplayKind::Pages, 0, Vec::new(alloc))?,
        })
    }

    // Takes new keys.
    fn take_keys(&mut self, alloc: Global, words: &mut Words) -> Result<(), Stop> {
        let bytes = words.bytes(alloc)?;
        let keys = ListKeys::new(bytes, words.two_numbers(alloc)?);
        drop(replace(&mut self.keys, keys));
        Ok(())
    }

    // Takes new notes.
    fn take_notes(&mut self, alloc: Global, words: &mut Words) -> Result<(), Stop> {
        let room = room_in(words);
        let notes = ListNotes::new(alloc, room, words.two_numbers(alloc)?)?;
        drop(replace(&mut self.notes, notes));
        Ok(())
    }

    // Takes a new display.
    fn take_display(&mut self, alloc: Global, words: &mut Words) -> Result<(), Stop> {
        let room = room_in(words);
        let failing = words.two_numbers(alloc)?;
        let display = Recorder::new(alloc, DisplayKind::Pages, room, failing)?;
        drop(replace(&mut self.display, display));
        Ok(())
    }

    // The next key.
    fn key(&mut self, answer: &mut Vec<u8>) -> Result<(), Stop> {
        match self.keys.next() {
            Ok(Some(byte)) => writeln!(answer, "{byte}")?,
            Ok(None) => answer.extend_from_slice(b"none\n")?,
            Err(_) => answer.extend_from_slice(b"failed\n")?,
        }
        Ok(())
    }

    // Writes a note.
    fn note(&mut self, alloc: Global, words: &mut Words) -> Result<&'static [u8], Stop> {
        let bytes = words.bytes(alloc)?;
        Ok(told(self.notes.write(bytes.as_slice())))
    }

    // Makes a call that writes or shows.
    fn call(
        &mut self,
        alloc: Global,
        name: &[u8],
        words: &mut Words,
    ) -> Result<&'static [u8], Stop> {
        match name {
            b"note" => self.note(alloc, words),
            b"put" => Ok(told(self.display.put(0, 0, b"A"))),
            b"done" => Ok(told(self.display.done())),
            b"close" => Ok(told(self.display.close())),
            _ => Err(Stop::Line),
        }
    }

    /// Answers a line.
    pub fn answer(&mut self, alloc: Global, line: &[u8], answer: &mut Vec<u8>) -> Result<(), Stop> {
        let mut words = Words::of(line);
        match words.next() {
            b"keys" => self.take_keys(alloc, &mut words),
            b"notes" => self.take_notes(alloc, &mut words),
            b"display" => self.take_display(alloc, &mut words),
            b"key" => self.key(answer),
            name => {
                let said = self.call(alloc, name, &mut words)?;
                Ok(answer.extend_from_slice(said)?)
            }
        }
    }
}
