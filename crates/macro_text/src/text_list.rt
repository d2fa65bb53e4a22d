// Lists of texts.
ghost use Rattle.std.specs.Prelude.{◌≡◌, ◌++◌, ◌∷◌, [], length, get_or, OnOk, OnErr};
ghost use Rattle.lics_text.specs.Bytes.{IsText};

use lics_text::{Memory, Text};
use std::alloc::Global;
use std::marker::Model;

/// A list of texts.
#[derive(Drop)]
pub struct TextList {
    items: Vec<Text>,
}

impl Model for TextList {
    ghost use Rattle.std.specs.Prelude.{ℕ, List};

    ghost Value = { List (List ℕ) };

    ghost view = { λ l. l.items.items };
}

impl TextList {
    /// The empty list.
    pub fn new(alloc: Global) -> TextList
        ensures { result ≡ [] }
    {
        TextList {
            items: Vec::new(alloc),
        }
    }

    /// Adds a text at the end. The list is unchanged where there is no memory.
    pub fn push(&mut self, text: Text) -> Result<(), Memory>
        ensures ok { OnOk result (self.new ≡ self.old ++ text ∷ []) }
        ensures err { OnErr result (self.new ≡ self.old) }
    {
        self.items.push(text)?;
        Ok(())
    }

    /// How many there are.
    pub fn len(&self) -> usize
        ensures { result ≡ length self.now }
    {
        self.items.len()
    }

    /// The texts.
    pub fn items(&self) -> &[Text]
        ensures { result.now ≡ self.now }
    {
        self.items.as_slice()
    }

    /// The bytes of the text at a place, counted from 0, and no bytes past the end.
    pub fn get(&self, place: usize) -> &[u8]
        ensures bytes { result.now ≡ get_or self.now place [] }
        ensures text { IsText result.now }
    {
        if place < self.items.len() {
            self.items[place].bytes()
        } else {
            &[]
        }
    }
}
