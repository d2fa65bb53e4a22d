// Reads key notation, a byte at a time.
ghost use Rattle.std.specs.Prelude.{◌≡◌, ◌<◌, ◌+◌, ◌↔◌, ℕ, List, [], Some, None, false, true};
ghost use Rattle.key_words.specs.declared.key.Key.{Key};
ghost use Rattle.key_words.specs.declared.reader.Fed.TheVariants as Fed;
ghost use Rattle.key_words.specs.Notation.{IsNoText, SpellsWords};
ghost use Rattle.key_words.specs.Reading.{Feeds, HasRead};

use crate::Key;
use crate::begun::{Begun, Next};

/// What a byte came to.
#[derive(Clone, Copy)]
pub enum Fed {
    /// A word has ended: a key, to be taken so many times, 1 to 9999.
    Key(Key, u16),
    /// The byte stands inside a word, or it is a carriage return or a line feed between words.
    More,
    /// No text of the notation goes on with a byte that was fed, before which so many were fed.
    Bad(u64),
}

/// A reader of key notation, which is fed a byte at a time (Release 2 manual for the names in braces; Break, Undo,
/// Alt with its letter and the three marks in braces are this project's choice).
#[derive(Drop)]
pub struct KeyReader {
    begun: Begun,
    taken: u64,
    bad: Option<u64>,
}

impl KeyReader {
    /// A reader that was fed nothing.
    pub fn new() -> KeyReader
        ensures { HasRead [] [] result }
    {
        KeyReader {
            begun: Begun::Nothing,
            taken: 0,
            bad: None,
        }
    }

    /// Takes a byte. After a bad one each byte gets the same answer. Fewer than 18,446,744,073,709,551,615 bytes, the
    /// last u64, may have been fed before.
    pub fn feed(&mut self, byte: u8) -> Fed
        requires room { self.old.taken < 18446744073709551615 }
        ensures taken { self.new.taken ≡ self.old.taken + 1 }
        ensures fed { (bytes : List ℕ) (keys : List (Key × ℕ)) →
            HasRead bytes keys self.old → Feeds bytes keys byte result self.new }
        ensures again { (at : ℕ) → self.old.bad ≡ Some at → (result ≡ Fed.Bad at) × (self.new.bad ≡ Some at) }
        ensures bad { (at : ℕ) → result ≡ Fed.Bad at → self.new.bad ≡ Some at }
    {
        let before = self.taken;
        self.taken = before + 1;
        if let Some(at) = self.bad {
            return Fed::Bad(at);
        }
        match self.begun.after(byte) {
            Next::Going(begun) => {
                self.begun = begun;
                Fed::More
            }
            Next::Ended(key, times) => {
                self.begun = Begun::Nothing;
                Fed::Key(key, times)
            }
            Next::Refused => {
                self.bad = Some(before);
                Fed::Bad(before)
            }
        }
    }

    /// How many bytes were fed.
    pub fn taken(&self) -> u64
        ensures { result ≡ self.now.taken }
    {
        self.taken
    }

    /// Whether all bytes that were fed are words, which is so between words.
    pub fn at_rest(&self) -> bool
        ensures whole { (bytes : List ℕ) (keys : List (Key × ℕ)) →
            HasRead bytes keys self.now → result ≡ true → SpellsWords bytes keys }
        ensures inside { (bytes : List ℕ) (keys : List (Key × ℕ)) →
            HasRead bytes keys self.now → result ≡ false → IsNoText bytes }
        ensures bad { (at : ℕ) → self.now.bad ≡ Some at → result ≡ false }
    {
        match self.begun {
            Begun::Nothing => self.bad.is_none(),
            _ => false,
        }
    }
}

/// A list of bytes spells at most one list of keys.
pub fn notation_reads_one_way()
    ensures { (bytes : List ℕ) (keys others : List (Key × ℕ)) →
        SpellsWords bytes keys → SpellsWords bytes others → keys ≡ others }
{}
