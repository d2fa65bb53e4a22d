// A few bytes that stand side by side with their number, in so many bytes and one.
ghost use Rattle.std.specs.Prelude.{◌≡◌, ◌≤◌, ◌+◌, ◌++◌, [], length};

use crate::MAX_LEN;
use std::marker::Model;

/// A list of at most so many bytes, of any value, with its length in one byte.
#[derive(Drop)]
pub struct Room<const N: usize> {
    len: u8,
    bytes: [u8; N],
}

impl<const N: usize> Model for Room<N> {
    ghost use Rattle.std.specs.Prelude.{ℕ, List, take, ◌≤◌};

    ghost Value = { List ℕ };

    ghost view = { λ a. take a.len a.bytes };

    ghost invariant = { λ a. a.len ≤ N };
}

impl<const N: usize> Room<N> {
    /// The empty list.
    #[inline(always)]
    pub fn new() -> Room<N>
        ensures { result ≡ [] }
    {
        Room {
            len: 0,
            bytes: [0; N],
        }
    }

    /// The list of 12 to 24 bytes, for which there must be room: their first and their last twelve, which may overlap,
    /// so that it takes no call.
    #[inline(always)]
    pub fn of_some(bytes: &[u8]) -> Room<N>
        requires some { 12 ≤ length bytes.now }
        requires few { length bytes.now ≤ 24 }
        requires fits { length bytes.now ≤ N }
        ensures { result ≡ bytes.now }
    {
        let mut room = Room::new();
        let end = bytes.len();
        let all = &mut room.bytes[..];
        all[..12].copy_from_slice(&bytes[..12]);
        all[end - 12..end].copy_from_slice(&bytes[end - 12..]);
        room.len = end as u8;
        room
    }

    /// Adds bytes, for which there must be room.
    #[inline(always)]
    pub fn put_all(&mut self, bytes: &[u8])
        requires fits { length self.old + length bytes.now ≤ N }
        requires few { length self.old + length bytes.now ≤ MAX_LEN }
        ensures { self.new ≡ self.old ++ bytes.now }
    {
        let start = usize::from(self.len);
        let end = start + bytes.len();
        let all = &mut self.bytes[..];
        all[start..end].copy_from_slice(bytes);
        self.len = end as u8;
    }

    /// The bytes.
    #[inline(always)]
    pub fn bytes(&self) -> &[u8]
        ensures { result.now ≡ self.now }
    {
        &self.bytes[..usize::from(self.len)]
    }
}
