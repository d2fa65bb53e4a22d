// Lists of few bytes, which take no memory.
ghost use Rattle.std.specs.Prelude.{◌≡◌, ◌≤◌, ◌+◌, ◌++◌, [], length, nat_lt};
ghost use Rattle.lics_text.specs.ByteLists.{with_byte};

use std::marker::Model;

/// A list of at most so many bytes, of any value.
#[derive(Drop)]
pub struct ByteList<const N: usize> {
    bytes: [u8; N],
    len: usize,
}

impl<const N: usize> Model for ByteList<N> {
    ghost use Rattle.std.specs.Prelude.{ℕ, List, take, ◌≤◌};

    ghost Value = { List ℕ };

    ghost view = { λ a. take a.len a.bytes };

    ghost invariant = { λ a. a.len ≤ N };
}

impl<const N: usize> ByteList<N> {
    /// The empty list.
    pub fn new() -> ByteList<N>
        ensures { result ≡ [] }
    {
        ByteList {
            bytes: [0; N],
            len: 0,
        }
    }

    /// Adds a byte at the end. It answers false, and leaves the list as it was, exactly where the list is full.
    pub fn put(&mut self, byte: u8) -> bool
        ensures put { result ≡ nat_lt (length self.old) N }
        ensures list { self.new ≡ with_byte N self.old byte }
    {
        if self.len < N {
            self.bytes[self.len] = byte;
            self.len += 1;
            true
        } else {
            false
        }
    }

    /// Adds bytes, for which there must be room.
    pub fn put_all(&mut self, bytes: &[u8])
        requires { length self.old + length bytes.now ≤ N }
        ensures { self.new ≡ self.old ++ bytes.now }
    {
        let end = self.len + bytes.len();
        let all = &mut self.bytes[..];
        all[self.len..end].copy_from_slice(bytes);
        self.len = end;
    }

    /// The bytes.
    pub fn bytes(&self) -> &[u8]
        ensures bytes { result.now ≡ self.now }
        ensures length { length result.now ≤ N }
    {
        &self.bytes[..self.len]
    }
}
