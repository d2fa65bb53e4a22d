// What words ask for of the text file that macros read and write.

use grid_address::Cell;
use lics_text::Text;
use macro_text::Spot;
use outside_world::FileName;
use text_channel::Access;

/// What a word asks for of a text file, with its arguments.
#[derive(Drop)]
pub enum FileWord {
    /// A file is attached, behind the finishing of the one that is.
    Open(FileName, Access),
    /// The file that is attached is finished.
    Close,
    /// So many bytes, at most 240, are put as a label into a cell.
    Read(u8, Cell),
    /// The next line is put as a label into a cell.
    ReadLine(Cell),
    /// A text is written.
    Write(Text),
    /// A text is written, and the end of its line.
    WriteLine(Text),
    /// The number of the file's bytes is put into a cell.
    Size(Cell),
    /// The position in the file is put into a cell.
    Position(Cell),
    /// The position is set.
    SetPosition(u32),
}

/// What a word asks for, and where the macro goes on where that was done; else it goes on where it stands.
#[derive(Drop)]
pub struct FileDeed {
    pub word: FileWord,
    pub done: Spot,
}
