// What a macro waits for.
ghost use Rattle.std.specs.Prelude.{◌≡◌, IfOk};
ghost use Rattle.entry_line.specs.Line.{after};

use entry_line::EntryLine;
use fixed_value::Fixed;
use grid_address::Cell;
use key_words::Key;
use lics_text::{Memory, Text};
use macro_text::Spot;
use std::alloc::Global;
use std::marker::Model;

/// What a line that a macro asks for is put into its cell as.
#[derive(Clone, Copy)]
pub enum Wanted {
    /// A label, with `'`.
    Label,
    /// Its value, where that is a number, and else `@ERR`.
    Number,
}

/// A line that a macro asks for: its prompt, what was typed so far, and the cell that takes it.
#[derive(Drop)]
pub struct Question {
    pub prompt: Text,
    pub line: EntryLine,
    pub target: Cell,
    pub wanted: Wanted,
}

/// A question on the heap, so that a macro that asks for no line takes little room.
#[derive(Drop)]
pub struct KeptQuestion {
    inner: Box<Question>,
}

impl Model for KeptQuestion {
    ghost use Rattle.macro_words.specs.declared.waiting.Question.{Question};

    ghost Value = { Question };

    ghost view = { λ q. q.inner.value };
}

impl KeptQuestion {
    /// Puts a question on the heap.
    pub fn new(alloc: Global, question: Question) -> Result<KeptQuestion, Memory>
        ensures { IfOk result (λ q. q ≡ question) }
    {
        let inner = Box::new(alloc, question)?;
        Ok(KeptQuestion { inner })
    }

    /// The question.
    pub fn question(&self) -> &Question
        ensures { result.now ≡ self.now }
    {
        &self.inner
    }

    /// A key is typed into its line, as in EDIT.
    pub fn press(&mut self, key: Key)
        ensures { self.new ≡ record self.old { line = after key self.old.line } }
    {
        let _ = self.inner.line.key(key);
    }
}

/// A menu whose items are labels side by side in cells: the first of them, how many there are, which one is
/// highlighted, and the place of the word where the choice is called.
#[derive(Clone, Copy)]
pub struct MacroMenu {
    pub first: Cell,
    pub count: usize,
    pub highlight: usize,
    pub caller: Option<Spot>,
}

/// What a macro waits for, behind its word.
#[derive(Drop)]
pub enum Waiting {
    /// For nothing.
    Nothing,
    /// That @NOW is no less than this number. The macro stands at its word, whose steps do nothing until then.
    Time(Fixed),
    /// For a key, which is put into this cell.
    OneKey(Cell),
    /// For a line.
    Line(KeptQuestion),
    /// For the choice of an item.
    Item(MacroMenu),
    /// For Enter; the session takes any other key.
    Enter,
}

/// What a macro has switched on: the panel and the windows are shown as they now are, and BREAK stops it.
#[derive(Clone, Copy)]
pub struct Switches {
    pub panel: bool,
    pub windows: bool,
    pub breaks: bool,
}
