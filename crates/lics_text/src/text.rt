ghost use Rattle.std.specs.Char.{to_ascii_lowercase, to_ascii_uppercase};
ghost use Rattle.std.specs.Prelude.{◌≡◌, ◌≤◌, ◌<◌, ◌++◌, ◌∷◌, [], length, map, IfOk, OnErr, IfSome, IfNone, position, nat_lt};
ghost use Rattle.std.specs.Ordering.{nat_cmp};
ghost use Rattle.std.specs.Cmp.Lexicographic.{slice_cmp};
ghost use Rattle.lics_text.specs.Ascii as ascii;
ghost use Rattle.lics_text.specs.Answer.{Gives};
ghost use Rattle.lics_text.specs.Texts.{text_of, pushed_text, proper_of, trimmed, IsFirstPlace, IsNoPlace};

use crate::cases::{lower_all, make_proper, raise_all};
use crate::held::Held;
use crate::places::first_place;
use crate::trim::{single_spaced, without_front};
use crate::{Line, MAX_LEN, Memory, TextFault};
use std::alloc::Global;
use std::cmp::Ordering;
use std::marker::Model;

/// A text: at most 240 bytes, each 32 to 255. It takes 24 bytes, in which up to 22 stand, and a block of its own for
/// more.
#[derive(Drop)]
pub struct Text {
    alloc: Global,
    held: Held,
}

impl Model for Text {
    ghost use Rattle.std.specs.Prelude.{List, ℕ};
    ghost use Rattle.lics_text.specs.Bytes.{IsText};
    ghost use Rattle.lics_text.specs.inner.Held.{held_bytes};

    ghost Value = { List ℕ };

    ghost view = { λ t. held_bytes t.held };

    ghost invariant = { λ t. IsText (held_bytes t.held) };
}

impl Text {
    ghost use Rattle.lics_text.specs.Bytes.{IsText};

    /// The text of the bytes. `TooLong` comes exactly past 240 bytes; otherwise `BadByte` names the
    /// first byte below 32.
    pub fn from_bytes(alloc: Global, bytes: &[u8]) -> Result<Text, TextFault>
        ensures { Gives (λ t. t) result (text_of bytes.now) }
    {
        if bytes.len() > MAX_LEN {
            return Err(TextFault::TooLong);
        }
        if let Some(at) = first_bad(bytes) {
            return Err(TextFault::BadByte(at));
        }
        match Text::copy_of(alloc, bytes) {
            Ok(text) => Ok(text),
            Err(Memory) => Err(TextFault::Memory),
        }
    }

    /// The text of bytes that are a text's.
    pub fn copy_of(alloc: Global, bytes: &[u8]) -> Result<Text, Memory>
        requires { IsText bytes.now }
        ensures { IfOk result (λ t. t ≡ bytes.now) }
    {
        let held = Held::of(alloc, bytes)?;
        Ok(Text { alloc, held })
    }

    /// Another text, of bytes that are a text's, in the memory that this one is in.
    pub fn like(&self, bytes: &[u8]) -> Result<Text, Memory>
        requires { IsText bytes.now }
        ensures { IfOk result (λ t. t ≡ bytes.now) }
    {
        Text::copy_of(self.alloc, bytes)
    }

    /// Appends a byte. `TooLong` comes exactly at 240 bytes; otherwise `BadByte` carries the text's
    /// length. The text is unchanged after a fault.
    pub fn push(&mut self, byte: u8) -> Result<(), TextFault>
        ensures answer { Gives (λ _. self.new) result (pushed_text self.old byte) }
        ensures kept { OnErr result (self.new ≡ self.old) }
    {
        if self.bytes().len() >= MAX_LEN {
            return Err(TextFault::TooLong);
        }
        if byte < b' ' {
            return Err(TextFault::BadByte(self.bytes().len()));
        }
        match self.with(byte) {
            Ok(text) => {
                *self = text;
                Ok(())
            }
            Err(Memory) => Err(TextFault::Memory),
        }
    }

    // The text with one more byte.
    fn with(&self, byte: u8) -> Result<Text, Memory>
        requires room { length self.now < MAX_LEN }
        requires good { ascii.space ≤ byte }
        ensures { IfOk result (λ t. t ≡ self.now ++ byte ∷ []) }
    {
        let mut line = Line::new();
        line.put_all(self.bytes());
        line.put(byte);
        self.like(line.bytes())
    }

    /// The bytes: at most 240, each at least 32.
    #[inline(always)]
    pub fn bytes(&self) -> &[u8]
        ensures value { result.now ≡ self.now }
        ensures text { IsText self.now }
    {
        self.held.bytes()
    }

    /// An equal text.
    pub fn copy(&self) -> Result<Text, Memory>
        ensures { IfOk result (λ t. t ≡ self.now) }
    {
        self.like(self.bytes())
    }

    /// The order of two texts by their bytes, letters folded onto capitals.
    pub fn fold_cmp(&self, other: &Text) -> Ordering
        ensures { result ≡ slice_cmp nat_cmp (map to_ascii_uppercase self.now) (map to_ascii_uppercase other.now) }
    {
        fold_cmp(self.bytes(), other.bytes())
    }

    /// The text with its small letters raised.
    pub fn upper(&self) -> Result<Text, Memory>
        ensures { IfOk result (λ t. t ≡ map to_ascii_uppercase self.now) }
    {
        let mut bytes = Vec::from_slice(self.alloc, self.bytes())?;
        raise_all(&mut bytes);
        self.like(bytes.as_slice())
    }

    /// The text with its capitals lowered.
    pub fn lower(&self) -> Result<Text, Memory>
        ensures { IfOk result (λ t. t ≡ map to_ascii_lowercase self.now) }
    {
        let mut bytes = Vec::from_slice(self.alloc, self.bytes())?;
        lower_all(&mut bytes);
        self.like(bytes.as_slice())
    }

    /// The text with each letter raised that follows no letter, and the other letters lowered.
    pub fn proper(&self) -> Result<Text, Memory>
        ensures { IfOk result (λ t. t ≡ proper_of self.now) }
    {
        let mut bytes = Vec::from_slice(self.alloc, self.bytes())?;
        make_proper(&mut bytes);
        self.like(bytes.as_slice())
    }

    /// The bytes of the text without spaces at its ends, and with one space between words.
    pub fn trimmed(&self) -> Line
        ensures value { result ≡ trimmed self.now }
        ensures text { IsText result }
    {
        single_spaced(without_front(self.bytes()))
    }

    /// The text without spaces at its ends, and with one space between words.
    pub fn trim(&self) -> Result<Text, Memory>
        ensures { IfOk result (λ t. t ≡ trimmed self.now) }
    {
        let line = self.trimmed();
        self.like(line.bytes())
    }

    /// The first place, from `from` on, at which the bytes of `what` stand in the text, case told apart.
    /// Nothing stands at each place up to the length.
    pub fn find(&self, what: &Text, from: usize) -> Option<usize>
        ensures some { IfSome result (λ at. IsFirstPlace what.now self.now from at) }
        ensures none { IfNone result (IsNoPlace what.now self.now from) }
        ensures text { IsText self.now }
    {
        first_place(what.bytes(), self.bytes(), from)
    }
}

// The order of two lists of bytes in which a small letter counts as its capital.
pub(crate) fn fold_cmp(a: &[u8], b: &[u8]) -> Ordering
    ensures { result ≡ slice_cmp nat_cmp (map to_ascii_uppercase a.now) (map to_ascii_uppercase b.now) }
{
    let mut at = 0;
    while at < a.len() && at < b.len() {
        let order = a[at].to_ascii_uppercase().cmp(&b[at].to_ascii_uppercase());
        if order != Ordering::Equal {
            return order;
        }
        at += 1;
    }
    a.len().cmp(&b.len())
}

// The place of the first byte below 32.
fn first_bad(bytes: &[u8]) -> Option<usize>
    ensures { result ≡ position (λ b. nat_lt b ascii.space) bytes.now }
{
    bytes.iter().position(|b| *b < b' ')
}
