// The words of a line.

use crate::stop::Stop;
use grid_address::{Span, read_span};
use lics_text::Text;
use sheet_store::SavedSheet;
use std::alloc::Global;
use std::io::{Error, Write};
use wk1_file::read;

// The value of a hexadecimal digit.
fn digit(byte: u8) -> Result<u8, Stop> {
    match byte {
        b'0'..=b'9' => Ok(byte - b'0'),
        b'a'..=b'f' => Ok(byte - b'a' + 10),
        _ => Err(Stop::Line),
    }
}

// What decimal digits stand for, or the largest number.
fn number_of(digits: &[u8]) -> u64 {
    let mut number: u64 = 0;
    for byte in digits {
        number = number
            .saturating_mul(10)
            .saturating_add(u64::from(byte.wrapping_sub(b'0')));
    }
    number
}

// The bytes of pairs of hexadecimal digits; `-` stands for none.
fn bytes_of(alloc: Global, digits: &[u8]) -> Result<Vec<u8>, Stop> {
    let mut bytes = Vec::new(alloc);
    if digits == b"-".as_slice() {
        return Ok(bytes);
    }
    let mut rest = digits;
    while let [high, low, behind @ ..] = rest {
        bytes.push(digit(*high)?.wrapping_mul(16).wrapping_add(digit(*low)?))?;
        rest = behind;
    }
    Ok(bytes)
}

/// Writes bytes in hexadecimal digits, behind `=`.
pub fn write_bytes<W: Write>(bytes: &[u8], out: &mut W) -> Result<(), Error> {
    out.write_all(b"=")?;
    for byte in bytes {
        write!(out, "{byte:02x}")?;
    }
    Ok(())
}

/// The sum of bytes in which each place counts.
pub fn sum_of(bytes: &[u8]) -> u64 {
    let mut sum: u64 = 14_695_981_039_346_656_037;
    for byte in bytes {
        sum = (sum ^ u64::from(*byte)).wrapping_mul(1_099_511_628_211);
    }
    sum
}

/// The worksheet of a file, by its bytes. `Stop::Line` is a file that tells none.
pub fn worksheet_of(alloc: Global, digits: &[u8]) -> Result<SavedSheet, Stop> {
    let file = bytes_of(alloc, digits)?;
    match read(alloc, file.as_slice()) {
        Ok(saved) => Ok(saved),
        Err(_) => Err(Stop::Line),
    }
}

/// What is left of a line.
#[derive(Clone, Copy)]
pub struct Words<'a> {
    rest: &'a [u8],
}

impl<'a> Words<'a> {
    /// All of a line.
    pub fn of(line: &'a [u8]) -> Words<'a> {
        Words { rest: line }
    }

    /// The next word, which ends before a blank.
    pub fn next(&mut self) -> &'a [u8] {
        let line = self.rest;
        for at in 0..line.len() {
            if line[at] == b' ' {
                self.rest = &line[at + 1..];
                return &line[..at];
            }
        }
        self.rest = &line[line.len()..];
        line
    }

    /// The next word as a whole number, or the largest one.
    pub fn number(&mut self) -> u64 {
        number_of(self.next())
    }

    /// The next word as a number below 256.
    pub fn byte(&mut self) -> Result<u8, Stop> {
        match u8::try_from(self.number()) {
            Ok(byte) => Ok(byte),
            Err(_) => Err(Stop::Line),
        }
    }

    /// The next word as a span or an address.
    pub fn span(&mut self) -> Result<Span, Stop> {
        match read_span(self.next()) {
            Ok(span) => Ok(span),
            Err(_) => Err(Stop::Line),
        }
    }

    /// The bytes of the next word's digits.
    pub fn bytes(&mut self, alloc: Global) -> Result<Vec<u8>, Stop> {
        bytes_of(alloc, self.next())
    }

    /// The next two words as numbers; 0 where there is none.
    pub fn two_numbers(&mut self, alloc: Global) -> Result<Vec<u64>, Stop> {
        let first = self.number();
        let second = self.number();
        Ok([first, second].to_vec(alloc)?)
    }

    /// The next word as a text, by its bytes.
    pub fn text(&mut self, alloc: Global) -> Result<Text, Stop> {
        let bytes = self.bytes(alloc)?;
        match Text::from_bytes(alloc, bytes.as_slice()) {
            Ok(text) => Ok(text),
            Err(_) => Err(Stop::Line),
        }
    }
}
