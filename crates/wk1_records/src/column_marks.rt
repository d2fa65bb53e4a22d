// A mark for each column.
ghost use Rattle.std.specs.Prelude.{◌≡◌, IfOk};

use lics_text::Memory;
use std::alloc::Global;
use std::marker::Model;

/// Whether each of the 256 columns is hidden. It takes 8 bytes, and memory of its own for the marks.
#[derive(Drop)]
pub struct ColumnMarks {
    marks: Box<[bool; 256]>,
}

impl Model for ColumnMarks {
    ghost use Rattle.std.specs.Prelude.{Bool, List};

    ghost Value = { List Bool };

    ghost view = { λ m. m.marks.value };
}

impl ColumnMarks {
    /// These marks.
    pub fn of(alloc: Global, marks: [bool; 256]) -> Result<ColumnMarks, Memory>
        ensures { IfOk result (λ m. m ≡ marks) }
    {
        let marks = Box::new(alloc, marks)?;
        Ok(ColumnMarks { marks })
    }

    /// The marks.
    pub fn marks(&self) -> &[bool; 256]
        ensures { result.now ≡ self.now }
    {
        &self.marks
    }
}
