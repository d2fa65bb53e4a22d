// A panel whose lines stand elsewhere.
ghost use Rattle.std.specs.Prelude.{◌≡◌, []};
ghost use Rattle.session_rooms.specs.Panels.{line_panel};
ghost use Rattle.screen_layout.specs.Views.{viewed};

use session_rooms::{Mode, Panel};

/// A panel whose lines stand elsewhere, as where they are typed.
#[derive(Clone, Copy)]
pub struct PanelView<'a> {
    pub mode: Mode,
    pub prompt: &'a [u8],
    pub typed: &'a [u8],
    pub cursor: u8,
    pub menu: &'a [u8],
    pub below: &'a [u8],
    pub message: &'a [u8],
    pub end: bool,
    pub running: bool,
    pub indicate: &'a [u8],
}

impl<'a> PanelView<'a> {
    /// A panel that tells a mode and a line that is typed without a prompt, with the cursor behind so many of its
    /// bytes.
    pub fn of_line(mode: Mode, typed: &'a [u8], cursor: u8) -> PanelView<'a>
        ensures { viewed result ≡ line_panel mode [] typed.now cursor }
    {
        PanelView {
            mode,
            prompt: b"",
            typed,
            cursor,
            menu: b"",
            below: b"",
            message: b"",
            end: false,
            running: false,
            indicate: b"",
        }
    }

    /// The panel, whose lines stand there.
    pub fn of(panel: &'a Panel) -> PanelView<'a>
        ensures { viewed result ≡ panel.now }
    {
        PanelView {
            mode: panel.mode,
            prompt: panel.prompt.bytes(),
            typed: panel.typed.bytes(),
            cursor: panel.cursor,
            menu: panel.menu.bytes(),
            below: panel.below.bytes(),
            message: panel.message.bytes(),
            end: panel.end,
            running: panel.running,
            indicate: panel.indicate.bytes(),
        }
    }
}
