ghost use Rattle.std.specs.Prelude.{◌≡◌, ◌≤◌, ◌+◌, ◌∷◌, ◌++◌, [], length, take, drop, slice_get, option_copied, OnOk, OnErr, IfOk};

use lics_text::Memory;
use std::alloc::Global;
use std::marker::Model;

/// A list of bytes, of any length and value.
#[derive(Drop)]
pub struct ByteBuffer {
    bytes: Vec<u8>,
}

impl Model for ByteBuffer {
    ghost use Rattle.std.specs.Prelude.{ℕ, List};

    ghost Value = { List ℕ };

    ghost view = { λ a. a.bytes.items };
}

impl ByteBuffer {
    /// The empty list.
    pub fn new(alloc: Global) -> ByteBuffer
        ensures { result ≡ [] }
    {
        ByteBuffer {
            bytes: Vec::new(alloc),
        }
    }

    /// A list of these bytes.
    pub fn from_slice(alloc: Global, bytes: &[u8]) -> Result<ByteBuffer, Memory>
        ensures { IfOk result (λ list. list ≡ bytes.now) }
    {
        let bytes = Vec::from_slice(alloc, bytes)?;
        Ok(ByteBuffer { bytes })
    }

    // A list of the bytes of a vector.
    pub(crate) fn of_vec(bytes: Vec<u8>) -> ByteBuffer
        ensures { result ≡ bytes.items }
    {
        ByteBuffer { bytes }
    }

    /// Adds a byte at the end. After want of memory the list is as it was.
    pub fn push(&mut self, byte: u8) -> Result<(), Memory>
        ensures ok { OnOk result (self.new ≡ self.old ++ byte ∷ []) }
        ensures err { OnErr result (self.new ≡ self.old) }
    {
        self.bytes.push(byte)?;
        Ok(())
    }

    /// Puts bytes at a place, over the old ones there and past their end. After want of memory the list is as it was.
    pub fn put_at(&mut self, at: usize, bytes: &[u8]) -> Result<(), Memory>
        requires { at ≤ length self.old }
        ensures ok { OnOk result (self.new ≡ take at self.old ++ bytes.now ++ drop (at + length bytes.now) self.old) }
        ensures err { OnErr result (self.new ≡ self.old) }
    {
        let over = bytes.len().min(self.bytes.len() - at);
        self.bytes.extend_from_slice(&bytes[over..])?;
        let all = self.bytes.as_mut_slice();
        all[at..at + over].copy_from_slice(&bytes[..over]);
        Ok(())
    }

    /// How many bytes there are.
    pub fn len(&self) -> usize
        ensures { result ≡ length self.now }
    {
        self.bytes.len()
    }

    /// The byte at a place, and none exactly past the end.
    pub fn get(&self, place: usize) -> Option<&u8>
        ensures { option_copied result ≡ slice_get self.now place }
    {
        self.bytes.get(place)
    }

    /// The bytes.
    pub fn bytes(&self) -> &[u8]
        ensures { result.now ≡ self.now }
    {
        self.bytes.as_slice()
    }

    /// An equal list.
    pub fn copy(&self) -> Result<ByteBuffer, Memory>
        ensures { IfOk result (λ list. list ≡ self.now) }
    {
        let bytes = self.bytes.clone()?;
        Ok(ByteBuffer { bytes })
    }
}
