ghost use Rattle.std.specs.Prelude.{◌≡◌, ◌≤◌, ◌+◌, ℕ, List, Option, Some, None, IfSome, IfNone, OnOk, OnErr};
ghost use Rattle.std.specs.FinMap as map;
ghost use Rattle.outside_world.specs.Shelf.{file_in, has_file, HasCause, HasPut, HasRead, HasRemoved};

use crate::{ByteBuffer, FileName, ShelfFault};

/// Where files lie: by what it holds, where it tells it, and by the count of its faults, which never falls.
/// What it tells is its files and the answers of its calls. A call that doesn't answer `Memory` adds its answer;
/// `Failed` comes only where the count of faults rose in that call.
pub trait Shelf {
    ghost use Rattle.outside_world.specs.Shelf.{OnShelf};

    ghost holds: { Self → Option OnShelf };

    ghost faults: { Self → ℕ };

    /// Whether there is such a file. No file is changed.
    fn has(&mut self, name: &FileName) -> Result<bool, ShelfFault>
        ensures held { HasRead (has_file name.now) name.now (holds self.old) (holds self.new) result }
        ensures cause { HasCause (faults self.old) (faults self.new) result };

    /// The bytes of a file, and none exactly where there is no such file. No file is changed.
    fn get(&mut self, name: &FileName) -> Result<Option<ByteBuffer>, ShelfFault>
        ensures held { HasRead (file_in name.now) name.now (holds self.old) (holds self.new) result }
        ensures cause { HasCause (faults self.old) (faults self.new) result };

    /// Writes a file, in the place of one of that name. A put that fails leaves that name's file open, and all
    /// others unchanged.
    fn put(&mut self, name: &FileName, bytes: &ByteBuffer) -> Result<(), ShelfFault>
        ensures held { HasPut name.now bytes.now (holds self.old) (holds self.new) result }
        ensures cause { HasCause (faults self.old) (faults self.new) result };

    /// Takes a file away, and answers false exactly where there is no such file. One that fails changes no file.
    fn remove(&mut self, name: &FileName) -> Result<bool, ShelfFault>
        ensures held { HasRemoved name.now (holds self.old) (holds self.new) result }
        ensures cause { HasCause (faults self.old) (faults self.new) result };
}
