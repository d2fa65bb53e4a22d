// Writing lines that wait.
ghost use Rattle.std.specs.Prelude.{◌≡◌, ◌++◌, [], OnOk, OnErr};
ghost use Rattle.sheet_listing.specs.Waiting.{added, HasFailed, IsFront};

use outside_world::Notes;

// How many bytes wait at least before they are written.
const BLOCK: usize = 65_536;

/// Why a sheet isn't listed to its end.
#[derive(Clone, Copy)]
pub enum WriteFault {
    /// A write failed.
    Failed,
    Memory,
}

/// Writes the lines that wait.
pub fn write_waiting<N: Notes>(waiting: &mut Vec<u8>, lines: &mut N) -> Result<(), WriteFault>
    ensures ok { OnOk result
        (added (N.written lines.new) waiting.new.items ≡ added (N.written lines.old) waiting.old.items) }
    ensures all { OnOk result (waiting.new.items ≡ []) }
    ensures err { OnErr result (IsFront (N.written lines.new) (added (N.written lines.old) waiting.old.items)) }
    ensures cause { HasFailed (N.faults lines.old) (N.faults lines.new) result }
{
    match lines.write(waiting.as_slice()) {
        Ok(()) => {
            waiting.clear();
            Ok(())
        }
        Err(_) => Err(WriteFault::Failed),
    }
}

/// Writes the lines that wait, where they are a block.
pub fn write_blocks<N: Notes>(waiting: &mut Vec<u8>, lines: &mut N) -> Result<(), WriteFault>
    ensures ok { OnOk result
        (added (N.written lines.new) waiting.new.items ≡ added (N.written lines.old) waiting.old.items) }
    ensures err { OnErr result (IsFront (N.written lines.new) (added (N.written lines.old) waiting.old.items)) }
    ensures cause { HasFailed (N.faults lines.old) (N.faults lines.new) result }
{
    if waiting.len() >= BLOCK {
        write_waiting(waiting, lines)
    } else {
        Ok(())
    }
}
