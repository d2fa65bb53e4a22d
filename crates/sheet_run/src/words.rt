ghost use Rattle.std.specs.Prelude.{◌≡◌, ◌++◌, ◌∷◌, [], OnOk, OnErr, length, IfSome, IfNone, ◌≤◌, ◌<◌, slice_get, Some};

use outside_world::Memory;
use std::alloc::Global;
use std::marker::Model;

// A word of the command line.
#[derive(Drop)]
struct Word {
    bytes: Vec<u8>,
}

impl Model for Word {
    ghost use Rattle.std.specs.Prelude.{ℕ, List};

    ghost Value = { List ℕ };

    ghost view = { λ a. a.bytes.items };
}

impl Word {
    // The word's bytes.
    fn bytes(&self) -> &[u8]
        ensures { result.now ≡ self.now }
    {
        &self.bytes
    }
}

/// The words of the command line, each a list of bytes.
#[derive(Drop)]
pub struct Words {
    alloc: Global,
    words: Vec<Word>,
}

impl Model for Words {
    ghost use Rattle.std.specs.Prelude.{ℕ, List};

    ghost Value = { List (List ℕ) };

    ghost view = { λ a. a.words.items };
}

impl Words {
    /// No words.
    pub fn new(alloc: Global) -> Words
        ensures { result ≡ [] }
    {
        Words {
            alloc,
            words: Vec::new(alloc),
        }
    }

    /// Adds a word at the end. The words are unchanged where memory runs out.
    pub fn push(&mut self, word: &[u8]) -> Result<(), Memory>
        ensures ok { OnOk result (self.new ≡ self.old ++ word.now ∷ []) }
        ensures err { OnErr result (self.new ≡ self.old) }
    {
        let bytes = word.to_vec(self.alloc)?;
        self.words.push(Word { bytes })?;
        Ok(())
    }

    /// How many words there are.
    pub fn len(&self) -> usize
        ensures { result ≡ length self.now }
    {
        self.words.len()
    }

    /// The word at a place, counted from 0, and none exactly past the end.
    pub fn get(&self, place: usize) -> Option<&[u8]>
        ensures none { IfNone result (length self.now ≤ place) }
        ensures some { IfSome result (λ word. (place < length self.now) × (slice_get self.now place ≡ Some word.now)) }
    {
        match self.words.get(place) {
            Some(word) => Some(word.bytes()),
            None => None,
        }
    }
}
