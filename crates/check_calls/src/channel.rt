// A shelf, a channel over it, and what the lines ask of them.

use crate::stop::Stop;
use crate::words::{Words, write_bytes};
use lics_text::{Memory, Text};
use outside_world::{ByteBuffer, Ext, FileName, MapShelf, Shelf, ShelfFault};
use std::alloc::Global;
use std::io::{Error, Write};
use std::mem::replace;
use text_channel::{Access, Channel, ChannelFault};

// The most bytes of one read.
const MOST_READ: u64 = 240;

// The farthest position that a call can name.
const FARTHEST: u64 = 4_294_967_295;

/// What is answered to a line.
#[derive(Drop)]
pub enum Answer {
    Done(bool),
    Number(Option<u32>),
    Text(Option<Text>),
    File(Option<ByteBuffer>),
    Failed,
}

impl Answer {
    /// Writes an answer.
    pub fn write<W: Write>(&self, out: &mut W) -> Result<(), Error> {
        match self {
            Answer::Done(true) => out.write_all(b"yes"),
            Answer::Done(false) => out.write_all(b"no"),
            Answer::Number(Some(number)) => write!(out, "{number}"),
            Answer::Text(Some(text)) => write_bytes(text.bytes(), out),
            Answer::File(Some(file)) => write_bytes(file.bytes(), out),
            Answer::Number(None) | Answer::Text(None) | Answer::File(None) => {
                out.write_all(b"none")
            }
            Answer::Failed => out.write_all(b"failed"),
        }
    }

    // The answer of a call that may fail.
    fn of(call: Result<bool, ChannelFault>) -> Result<Answer, Stop> {
        match call {
            Ok(done) => Ok(Answer::Done(done)),
            Err(ChannelFault::Failed) => Ok(Answer::Failed),
            Err(ChannelFault::Memory) => Err(Stop::Memory),
        }
    }
}

// The name of a text file.
fn name_in(words: &mut Words) -> Result<FileName, Stop> {
    match FileName::with(words.next(), Ext::Txt) {
        Some(name) => Ok(name),
        None => Err(Stop::Line),
    }
}

// What may be done with a file.
fn access_of(word: &[u8]) -> Access {
    match word {
        b"R" => Access::Read,
        b"W" => Access::Write,
        _ => Access::Modify,
    }
}

// Bytes in hexadecimal digits.
fn bytes_in(alloc: Global, words: &mut Words) -> Result<ByteBuffer, Stop> {
    let bytes = words.bytes(alloc)?;
    Ok(ByteBuffer::from_slice(alloc, bytes.as_slice())?)
}

// A byte that is doubled so many times, with some bytes behind.
fn doubled(alloc: Global, words: &mut Words) -> Result<ByteBuffer, Stop> {
    let count = words.number();
    let more = bytes_in(alloc, words)?;
    let mut list = ByteBuffer::from_slice(alloc, b"x")?;
    for _ in 0..count {
        let copy = list.copy()?;
        list.put_at(list.len(), copy.bytes())?;
    }
    list.put_at(list.len(), more.bytes())?;
    Ok(list)
}

/// A shelf and a channel.
#[derive(Drop)]
pub struct ChannelDesk {
    channel: Channel,
    shelf: MapShelf,
}

impl ChannelDesk {
    /// An empty shelf, of which these calls fail, and nothing attached.
    pub fn new(failing: Vec<u64>) -> ChannelDesk {
        ChannelDesk {
            channel: Channel::new(),
            shelf: MapShelf::new(failing),
        }
    }

    // Begins anew, on a shelf of which these calls fail.
    fn restart(&mut self, failing: Vec<u64>) -> Result<Answer, Stop> {
        drop(replace(self, ChannelDesk::new(failing)));
        Ok(Answer::Done(true))
    }

    // Puts a file on the shelf.
    fn put(&mut self, name: FileName, file: ByteBuffer) -> Result<Answer, Stop> {
        self.shelf.add(name, file)?;
        Ok(Answer::Done(true))
    }

    // Attaches a file.
    fn attach(&mut self, alloc: Global, words: &mut Words) -> Result<Answer, Stop> {
        let name = name_in(words)?;
        let access = access_of(words.next());
        Answer::of(self.channel.attach(alloc, name, access, &mut self.shelf))
    }

    // What the shelf holds under a name.
    fn held(&mut self, words: &mut Words) -> Result<Answer, Stop> {
        let name = name_in(words)?;
        match self.shelf.get(&name) {
            Ok(file) => Ok(Answer::File(file)),
            Err(ShelfFault::Failed) => Ok(Answer::Failed),
            Err(ShelfFault::Memory) => Err(Stop::Memory),
        }
    }

    // Reads so many bytes.
    fn read(&mut self, alloc: Global, words: &mut Words) -> Result<Answer, Stop> {
        let count = words.number().min(MOST_READ) as u8;
        Ok(Answer::Text(self.channel.read(alloc, count)?))
    }

    // Writes bytes.
    fn write(&mut self, alloc: Global, words: &mut Words) -> Result<Answer, Stop> {
        let list = bytes_in(alloc, words)?;
        Ok(Answer::Done(self.channel.write(list.bytes())?))
    }

    // Sets the position.
    fn set_position(&mut self, words: &mut Words) -> Result<Answer, Stop> {
        let at = words.number().min(FARTHEST) as u32;
        Ok(Answer::Done(self.channel.set_position(at)))
    }

    // Makes the call of a line.
    fn call(&mut self, alloc: Global, words: &mut Words) -> Result<Answer, Stop> {
        match words.next() {
            b"n" => self.restart(words.two_numbers(alloc)?),
            b"p" => {
                let name = name_in(words)?;
                self.put(name, bytes_in(alloc, words)?)
            }
            b"d" => {
                let name = name_in(words)?;
                self.put(name, doubled(alloc, words)?)
            }
            b"a" => self.attach(alloc, words),
            b"f" => Answer::of(self.channel.finish(&mut self.shelf)),
            b"r" => self.read(alloc, words),
            b"l" => Ok(Answer::Text(self.channel.read_line(alloc)?)),
            b"w" => self.write(alloc, words),
            b"s" => Ok(Answer::Number(self.channel.size())),
            b"c" => Ok(Answer::Number(self.channel.position())),
            b"t" => self.set_position(words),
            b"g" => self.held(words),
            _ => Err(Stop::Line),
        }
    }

    /// Answers a line.
    pub fn answer(&mut self, alloc: Global, line: &[u8], answer: &mut Vec<u8>) -> Result<(), Stop> {
        self.call(alloc, &mut Words::of(line))?.write(answer)?;
        answer.push(b'\n')?;
        Ok(())
    }
}
