// What the record of a name says, and that of hidden columns.
ghost use Rattle.std.specs.Prelude.{◌≡◌, ◌≤◌, ◌<◌, None, Ok, length, take};
ghost use Rattle.range_names.specs.Names.{fault_of};
ghost use Rattle.wk1_formula.specs.Reading.{before_zero};
ghost use Rattle.wk1_records.specs.Answers.{Gives};
ghost use Rattle.wk1_records.specs.Meanings.{bit_at, bits_in, if_name, name_entry};
ghost use Rattle.wk1_records.specs.declared.entry.Entry.TheVariants as entry;

use crate::said::span_at;
use crate::{ColumnMarks, Entry, Wk1Fault};
use grid_address::COLUMNS;
use lics_text::{ByteList, Memory};
use range_names::fault_of;
use std::alloc::Global;
use wk1_formula::before_zero;

// The bytes of the name.
fn first_bytes(body: &[u8]) -> &[u8]
    requires { 24 ≤ length body.now }
    ensures { result.now ≡ take 16 body.now }
{
    &body[..16]
}

// The bytes of a name as a list.
fn listed(name: &[u8]) -> ByteList<15>
    requires { length name.now ≤ 15 }
    ensures { result ≡ name.now }
{
    let mut list = ByteList::new();
    list.put_all(name);
    list
}

// The name and the span, of bytes before a zero.
fn named(body: &[u8], number: u32, name: &[u8]) -> Result<Entry, Wk1Fault>
    requires { 24 ≤ length body.now }
    ensures { Gives result (if_name number body.now name.now (fault_of name.now)) }
{
    match fault_of(name) {
        Some(_) => Err(Wk1Fault::BadName(number)),
        None => match span_at(body) {
            Some(span) => Ok(Entry::Name(listed(name), span)),
            None => Err(Wk1Fault::BadSpan(number)),
        },
    }
}

/// What the record of a name says: its name ends before the first 00 of 16 bytes.
pub fn name_in(body: &[u8], number: u32) -> Result<Entry, Wk1Fault>
    requires { 24 ≤ length body.now }
    ensures { Gives result (name_entry number body.now (before_zero (take 16 body.now))) }
{
    match before_zero(first_bytes(body)) {
        Some(name) => named(body, number, name),
        None => Err(Wk1Fault::BadName(number)),
    }
}

// The bit of a column.
fn bit_at(body: &[u8], col: usize) -> bool
    requires length { 32 ≤ length body.now }
    requires col { col < COLUMNS }
    ensures { result ≡ bit_at body.now col }
{
    (body[col / 8] >> (col % 8)) % 2 == 1
}

// Sets the mark of each column.
fn put_bits(body: &[u8], bits: &mut [bool; 256])
    requires { 32 ≤ length body.now }
    ensures { bits.new ≡ bits_in body.now }
{
    for col in 0..256usize {
        bits[col] = bit_at(body, col);
    }
}

// Which columns are hidden: each bit of 32 bytes is a column, the lowest first.
fn bits_in(body: &[u8]) -> [bool; 256]
    requires { 32 ≤ length body.now }
    ensures { result ≡ bits_in body.now }
{
    let mut bits = [false; 256];
    put_bits(body, &mut bits);
    bits
}

/// What the record of the hidden columns says.
pub fn hidden_in(alloc: Global, body: &[u8]) -> Result<Entry, Wk1Fault>
    requires { 32 ≤ length body.now }
    ensures { Gives result (Ok (entry.Hidden (bits_in body.now))) }
{
    match ColumnMarks::of(alloc, bits_in(body)) {
        Ok(marks) => Ok(Entry::Hidden(marks)),
        Err(Memory) => Err(Wk1Fault::Memory),
    }
}
