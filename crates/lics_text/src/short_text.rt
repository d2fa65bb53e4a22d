// A text of few bytes in as many.
ghost use Rattle.std.specs.Prelude.{◌≡◌, ◌≤◌, ◌++◌, drop, length, IfOk};

use crate::{Memory, Text};
use std::alloc::Global;
use std::marker::Model;

// So many bytes, which are filled from the front.
#[derive(Drop)]
struct Filled<const N: usize> {
    bytes: [u8; N],
}

impl<const N: usize> Filled<N> {
    // Puts bytes in place of the first ones.
    #[inline(always)]
    fn put_front(&mut self, bytes: &[u8])
        requires { length bytes.now ≤ N }
        ensures { self.new.bytes ≡ bytes.now ++ drop (length bytes.now) self.old.bytes }
    {
        let all = &mut self.bytes[..];
        all[0..bytes.len()].copy_from_slice(bytes);
    }
}

/// A text of at most 13 bytes, in 13 bytes: where it has fewer, the last one tells how many, which is less than any
/// byte of a text.
#[derive(Drop)]
pub struct ShortText {
    alloc: Global,
    bytes: [u8; 13],
}

impl Model for ShortText {
    ghost use Rattle.std.specs.Prelude.{List, ℕ, ◌≤◌, take};
    ghost use Rattle.lics_text.specs.Bytes.{IsText};
    ghost use Rattle.lics_text.specs.inner.Short.{short_len};

    ghost Value = { List ℕ };

    ghost view = { λ t. take (short_len t.bytes) t.bytes };

    ghost invariant = { λ t. (short_len t.bytes ≤ 13) × IsText (take (short_len t.bytes) t.bytes) };
}

impl ShortText {
    ghost use Rattle.lics_text.specs.Bytes.{IsText};

    /// The text of at most 13 bytes that are a text's.
    #[inline(always)]
    pub fn of(alloc: Global, bytes: &[u8]) -> ShortText
        requires text { IsText bytes.now }
        requires few { length bytes.now ≤ 13 }
        ensures { result ≡ bytes.now }
    {
        let mut room = Filled { bytes: [0; 13] };
        room.bytes[12] = bytes.len() as u8;
        room.put_front(bytes);
        ShortText {
            alloc,
            bytes: room.bytes,
        }
    }

    /// The bytes: at most 13, each at least 32.
    #[inline(always)]
    pub fn bytes(&self) -> &[u8]
        ensures value { result.now ≡ self.now }
        ensures text { IsText self.now }
    {
        let last = self.bytes[12];
        let len = if last < b' ' { usize::from(last) } else { 13 };
        &self.bytes[..len]
    }

    /// An equal text.
    pub fn copy(&self) -> Result<Text, Memory>
        ensures { IfOk result (λ t. t ≡ self.now) }
    {
        Text::copy_of(self.alloc, self.bytes())
    }
}
