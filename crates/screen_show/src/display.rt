ghost use Rattle.std.specs.Prelude.{◌≡◌, ◌≤◌, ◌+◌, Some, None, MatchOption, length};
ghost use Rattle.outside_world.specs.Causes.{HasCause};
ghost use Rattle.screen_show.specs.Display.{Puts, Finishes, Closes, TellsSoundly};

use crate::Recorder;
use outside_world::Failed;

/// The kinds of display.
#[derive(Clone, Copy, PartialEq, Eq)]
pub enum DisplayKind {
    /// Each frame is a page of lines.
    Pages,
    /// Each frame is its changes, as sequences of a terminal.
    Ansi,
    /// The last frame alone, as a page.
    Last,
}

/// A display, by what is seen of it: its kind, which never changes, its content, where it tells it, and
/// its count of faults, which never falls. A call answers `Failed` only where that count rose in it; it
/// has then added no frame, and the screen is open.
pub trait Display: Drop {
    ghost use Rattle.screen_show.specs.Display.{View};
    ghost use Rattle.screen_show.specs.Recorder.{recorded};

    ghost seen: { Self → View };

    /// The kind.
    fn kind(&self) -> DisplayKind
        ensures kind { result ≡ (seen self.now).kind }
        ensures sound { TellsSoundly (seen self.now).told };

    /// The recorder that this display is, and none exactly where it doesn't tell its content.
    fn recorder(&self) -> Option<&Recorder>
        ensures { MatchOption result ((seen self.now).told ≡ None)
            (λ r. (seen self.now).told ≡ Some (recorded r.now)) };

    /// Puts bytes into a line, from a column on.
    fn put(&mut self, row: u8, col: u8, bytes: &[u8]) -> Result<(), Failed>
        requires row_in { row ≤ 24 }
        requires col_in { col + length bytes.now ≤ 80 }
        ensures shown { Puts row col bytes.now (seen self.old).told (seen self.new).told result }
        ensures kind { (seen self.new).kind ≡ (seen self.old).kind }
        ensures cause { HasCause (seen self.old).faults (seen self.new).faults result };

    /// Ends a frame: what is shown now is the next frame.
    fn done(&mut self) -> Result<(), Failed>
        ensures shown { Finishes (seen self.old).told (seen self.new).told result }
        ensures kind { (seen self.new).kind ≡ (seen self.old).kind }
        ensures cause { HasCause (seen self.old).faults (seen self.new).faults result };

    /// Ends the display.
    fn close(&mut self) -> Result<(), Failed>
        ensures shown { Closes (seen self.old).told (seen self.new).told result }
        ensures kind { (seen self.new).kind ≡ (seen self.old).kind }
        ensures cause { HasCause (seen self.old).faults (seen self.new).faults result };
}
