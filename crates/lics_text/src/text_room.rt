// A text that stands in room of a fixed size.
ghost use Rattle.std.specs.Prelude.{◌≡◌, ◌≤◌, length, IfOk};

use crate::room::Room;
use crate::{Memory, Text};
use std::alloc::Global;
use std::marker::Model;

/// A text of at most so many bytes, up to 240, which stand side by side with their number: it takes so many bytes and
/// one.
#[derive(Drop)]
pub struct TextRoom<const N: usize> {
    alloc: Global,
    room: Room<N>,
}

impl<const N: usize> Model for TextRoom<N> {
    ghost use Rattle.std.specs.Prelude.{List, ℕ};
    ghost use Rattle.lics_text.specs.Bytes.{IsText};

    ghost Value = { List ℕ };

    ghost view = { λ t. t.room };

    ghost invariant = { λ t. IsText t.room };
}

impl<const N: usize> TextRoom<N> {
    ghost use Rattle.lics_text.specs.Bytes.{IsText};

    /// The text of bytes that are a text's, for which there must be room.
    #[inline(always)]
    pub fn of(alloc: Global, bytes: &[u8]) -> TextRoom<N>
        requires text { IsText bytes.now }
        requires fits { length bytes.now ≤ N }
        ensures { result ≡ bytes.now }
    {
        let mut room = Room::new();
        room.put_all(bytes);
        TextRoom { alloc, room }
    }

    /// The same of 12 to 24 bytes, in a block of its own.
    #[inline(always)]
    pub fn small_block(alloc: Global, bytes: &[u8]) -> Result<Box<TextRoom<N>>, Memory>
        requires text { IsText bytes.now }
        requires some { 12 ≤ length bytes.now }
        requires few { length bytes.now ≤ 24 }
        requires fits { length bytes.now ≤ N }
        ensures { IfOk result (λ b. b.value ≡ bytes.now) }
    {
        let room = Room::of_some(bytes);
        let block = Box::new(alloc, TextRoom { alloc, room })?;
        Ok(block)
    }

    /// The same in a block of its own.
    pub fn block(alloc: Global, bytes: &[u8]) -> Result<Box<TextRoom<N>>, Memory>
        requires text { IsText bytes.now }
        requires fits { length bytes.now ≤ N }
        ensures { IfOk result (λ b. b.value ≡ bytes.now) }
    {
        let block = Box::new(alloc, TextRoom::of(alloc, bytes))?;
        Ok(block)
    }

    /// The bytes: at most 240, each at least 32.
    #[inline(always)]
    pub fn bytes(&self) -> &[u8]
        ensures value { result.now ≡ self.now }
        ensures text { IsText self.now }
    {
        self.room.bytes()
    }

    /// An equal text.
    pub fn copy(&self) -> Result<Text, Memory>
        ensures { IfOk result (λ t. t ≡ self.now) }
    {
        Text::copy_of(self.alloc, self.bytes())
    }
}
