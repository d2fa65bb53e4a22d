// Numbers and parts of bytes.
ghost use Rattle.std.specs.Int.{from_le_bytes, to_le_bytes, w16, w64};
ghost use Rattle.std.specs.Prelude.{◌≡◌, ◌≤◌, ◌+◌, ◌++◌, OnOk, drop, take, length};
ghost use Rattle.wk1_formula.specs.Reading.{short_at};

use lics_text::Memory;

/// The number in the two bytes at a place, low byte first.
pub fn short_at(bytes: &[u8], at: usize) -> u16
    requires { at + 2 ≤ length bytes.now }
    ensures { result ≡ short_at at bytes.now }
{
    u16::from_le_bytes([bytes[at], bytes[at + 1]])
}

/// The number in the eight bytes at the front, low byte first.
pub fn first_long(bytes: &[u8]) -> u64
    requires { 8 ≤ length bytes.now }
    ensures { result ≡ from_le_bytes w64 (take 8 bytes.now) }
{
    u64::from_le_bytes([
        bytes[0], bytes[1], bytes[2], bytes[3], bytes[4], bytes[5], bytes[6], bytes[7],
    ])
}

/// The bytes from a place on.
pub fn bytes_from(bytes: &[u8], at: usize) -> &[u8]
    requires { at ≤ length bytes.now }
    ensures rest { result.now ≡ drop at bytes.now }
    ensures size { length result.now + at ≡ length bytes.now }
{
    &bytes[at..]
}

/// Adds bytes.
#[inline(always)]
pub fn put(bytes: &[u8], into: &mut Vec<u8>) -> Result<(), Memory>
    ensures { OnOk result (into.new.items ≡ into.old.items ++ bytes.now) }
{
    into.extend_from_slice(bytes)?;
    Ok(())
}

/// Adds a number of two bytes, low byte first.
#[inline(always)]
pub fn put_short(number: u16, into: &mut Vec<u8>) -> Result<(), Memory>
    ensures { OnOk result (into.new.items ≡ into.old.items ++ to_le_bytes w16 number) }
{
    put(&number.to_le_bytes(), into)
}
