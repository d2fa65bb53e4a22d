// Texts that are looked at where they stand.
ghost use Rattle.std.specs.Char.{to_ascii_uppercase};
ghost use Rattle.std.specs.Cmp.Lexicographic.{slice_cmp};
ghost use Rattle.std.specs.Ordering.{nat_cmp};
ghost use Rattle.std.specs.Prelude.{◌≡◌, IfOk, map};
ghost use Rattle.lics_text.specs.Bytes.{IsText};
ghost use Rattle.lics_text.specs.Seen.{seen_text};

use crate::text::fold_cmp;
use crate::{MAX_LEN, Memory, ShortText, Text, TextRoom};
use std::cmp::Ordering;

/// A text that is looked at, however it is kept.
#[derive(Clone, Copy)]
pub enum TextRef<'a> {
    Text(&'a Text),
    In13(&'a ShortText),
    In22(&'a TextRoom<22>),
    In55(&'a TextRoom<55>),
    In119(&'a TextRoom<119>),
    In183(&'a TextRoom<183>),
    In240(&'a TextRoom<MAX_LEN>),
}

impl<'a> TextRef<'a> {
    /// The bytes: at most 240, each at least 32.
    #[inline(always)]
    pub fn bytes(self) -> &'a [u8]
        ensures value { result.now ≡ seen_text self.entry }
        ensures text { IsText (seen_text self.entry) }
    {
        match self {
            TextRef::Text(text) => text.bytes(),
            TextRef::In13(text) => text.bytes(),
            TextRef::In22(room) => room.bytes(),
            TextRef::In55(room) => room.bytes(),
            TextRef::In119(room) => room.bytes(),
            TextRef::In183(room) => room.bytes(),
            TextRef::In240(room) => room.bytes(),
        }
    }

    /// An equal text, in memory of its own.
    pub fn copy(self) -> Result<Text, Memory>
        ensures { IfOk result (λ t. t ≡ seen_text self.entry) }
    {
        match self {
            TextRef::Text(text) => text.copy(),
            TextRef::In13(text) => text.copy(),
            TextRef::In22(room) => room.copy(),
            TextRef::In55(room) => room.copy(),
            TextRef::In119(room) => room.copy(),
            TextRef::In183(room) => room.copy(),
            TextRef::In240(room) => room.copy(),
        }
    }

    /// The order of two texts by their bytes, letters folded onto capitals.
    pub fn fold_cmp(self, other: TextRef<'_>) -> Ordering
        ensures { let fold = map to_ascii_uppercase in
            result ≡ slice_cmp nat_cmp (fold (seen_text self.entry)) (fold (seen_text other.entry)) }
    {
        fold_cmp(self.bytes(), other.bytes())
    }
}
