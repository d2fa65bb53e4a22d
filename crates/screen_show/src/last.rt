ghost use Rattle.std.specs.Prelude.{◌≡◌, None, Some};
ghost use Rattle.screen_show.specs.Changes.{FrameUnchanged};
ghost use Rattle.screen_show.specs.declared.display.DisplayKind.TheVariants.{Last};

use crate::page::write_page;
use crate::{Display, DisplayKind, LineSet, Recorder, Screen};
use outside_world::Failed;
use std::io::Write;

/// A display that writes its last frame as a page when it is closed, and nothing where it had no frame.
/// It tells nothing of what is shown.
#[derive(Drop)]
pub struct LastDisplay<W: Write + Drop> {
    writer: W,
    screen: Screen,
    frame: Option<Screen>,
    // The lines that were put since the frame was ended.
    changed: LineSet,
    faults: u64,
    ghost others: { FrameUnchanged changed frame screen },
}

impl<W: Write + Drop> LastDisplay<W> {
    /// A display on this writer.
    pub fn new(writer: W) -> LastDisplay<W> {
        LastDisplay {
            writer,
            screen: Screen::empty(),
            frame: None,
            changed: LineSet::none(),
            faults: 0,
        }
    }
}

// The last frame becomes the screen, from which it differs in these lines alone.
fn take_frame(frame: &mut Option<Screen>, screen: &Screen, changed: &LineSet)
    requires { FrameUnchanged changed.now frame.old screen.now }
    ensures { frame.new ≡ Some screen.now }
{
    match frame {
        Some(frame) => frame.copy_lines(screen, changed),
        None => *frame = Some(*screen),
    }
}

impl<W: Write + Drop> Display for LastDisplay<W> {
    ghost seen = { λ d. record { kind = Last; told = None; faults = d.faults } };

    fn kind(&self) -> DisplayKind {
        DisplayKind::Last
    }

    fn recorder(&self) -> Option<&Recorder> {
        None
    }

    fn put(&mut self, row: u8, col: u8, bytes: &[u8]) -> Result<(), Failed> {
        self.screen.put(row, col, bytes);
        self.changed.insert(row);
        Ok(())
    }

    fn done(&mut self) -> Result<(), Failed> {
        take_frame(&mut self.frame, &self.screen, &self.changed);
        self.changed = LineSet::none();
        Ok(())
    }

    fn close(&mut self) -> Result<(), Failed> {
        let written = match &self.frame {
            Some(frame) => write_page(&mut self.writer, frame),
            None => Ok(()),
        };
        if written.is_err() {
            self.faults = self.faults.saturating_add(1);
        }
        written
    }
}
