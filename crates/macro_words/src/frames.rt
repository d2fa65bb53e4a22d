// What a macro goes back to.
ghost use Rattle.std.specs.Prelude.{◌≡◌, ◌++◌, ◌∷◌, ◌-◌, [], length, take, slice_get, OnOk, OnErr};

use fixed_value::Fixed;
use grid_address::Cell;
use lics_text::Memory;
use macro_text::Spot;
use std::alloc::Global;
use std::marker::Model;

/// A loop that FOR began: the place behind its word, the cell that counts, the cell whose routine it calls, and the
/// number that the count may not be past, with the step.
#[derive(Clone, Copy)]
pub struct Loop {
    pub behind: Spot,
    pub counter: Cell,
    pub routine: Cell,
    pub bound: Fixed,
    pub step: Fixed,
}

/// What a return goes back to.
#[derive(Clone, Copy)]
pub enum Frame {
    /// A call: the place of its word, and the place to go on at.
    Call(Spot, Spot),
    /// A loop.
    Loop(Loop),
}

/// The calls and loops that a macro is in, the innermost last.
#[derive(Drop)]
pub struct Frames {
    items: Vec<Frame>,
}

impl Model for Frames {
    ghost use Rattle.std.specs.Prelude.{List};
    ghost use Rattle.macro_words.specs.declared.frames.Frame.{Frame};

    ghost Value = { List Frame };

    ghost view = { λ f. f.items.items };
}

impl Frames {
    /// None.
    pub fn new(alloc: Global) -> Frames
        ensures { result ≡ [] }
    {
        Frames {
            items: Vec::new(alloc),
        }
    }

    /// How many there are.
    pub fn len(&self) -> usize
        ensures { result ≡ length self.now }
    {
        self.items.len()
    }

    /// The frames, the innermost last.
    pub fn items(&self) -> &[Frame]
        ensures { result.now ≡ self.now }
    {
        self.items.as_slice()
    }

    /// The innermost one.
    pub fn innermost(&self) -> Option<Frame>
        ensures { result ≡ slice_get self.now (length self.now - 1) }
    {
        let len = self.items.len();
        if len == 0 {
            return None;
        }
        Some(self.items[len - 1])
    }

    /// One more, inside the others. They are unchanged where there is no memory.
    pub fn push(&mut self, frame: Frame) -> Result<(), Memory>
        ensures ok { OnOk result (self.new ≡ self.old ++ frame ∷ []) }
        ensures err { OnErr result (self.new ≡ self.old) }
    {
        self.items.push(frame)?;
        Ok(())
    }

    /// The innermost one goes, where there is one.
    pub fn leave(&mut self)
        ensures { self.new ≡ take (length self.old - 1) self.old }
    {
        let _ = self.items.pop();
    }

    /// All go.
    pub fn clear(&mut self)
        ensures { self.new ≡ [] }
    {
        self.items.clear();
    }
}
