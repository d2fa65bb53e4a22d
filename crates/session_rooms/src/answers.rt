// A command, and the answers that it was given.
ghost use Rattle.std.specs.Prelude.{◌≡◌, ◌++◌, ◌∷◌, [], length, slice_get, option_copied, OnErr, OnOk};

use lics_text::{Memory, Text};
use menu_tree::Action;
use std::alloc::Global;
use std::marker::Model;

/// The answers to a command's prompts, in their order, without those to the choices of replacing and confirming.
#[derive(Drop)]
pub struct Answers {
    lines: Vec<Text>,
}

impl Model for Answers {
    ghost use Rattle.std.specs.Prelude.{ℕ, List};

    ghost Value = { List (List ℕ) };

    ghost view = { λ a. a.lines.items };
}

impl Answers {
    /// No answer yet. It takes no memory.
    pub fn new(alloc: Global) -> Answers
        ensures { result ≡ [] }
    {
        Answers {
            lines: Vec::new(alloc),
        }
    }

    /// Adds the next answer. The answers are unchanged where there is no memory.
    pub fn push(&mut self, answer: Text) -> Result<(), Memory>
        ensures ok { OnOk result (self.new ≡ self.old ++ answer ∷ []) }
        ensures err { OnErr result (self.new ≡ self.old) }
    {
        self.lines.push(answer)?;
        Ok(())
    }

    /// How many there are.
    pub fn len(&self) -> usize
        ensures { result ≡ length self.now }
    {
        self.lines.len()
    }

    /// The answer at a place, counted from 0; none exactly past the last.
    pub fn get(&self, place: usize) -> Option<&Text>
        ensures { option_copied result ≡ slice_get self.now place }
    {
        self.lines.get(place)
    }
}

/// A command, and the answers that it was given so far.
#[derive(Drop)]
pub struct AnsweredCommand {
    pub action: Action,
    pub answers: Answers,
}
