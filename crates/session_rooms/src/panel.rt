// What is shown beside the sheet.
ghost use Rattle.std.specs.Prelude.{◌≡◌, ◌≤◌, length};
ghost use Rattle.session_rooms.specs.Panels.{line_panel, plain_panel};

use lics_text::{Line, MAX_LEN};

/// The mode that is told.
#[derive(Clone, Copy, PartialEq, Eq)]
pub enum Mode {
    Ready,
    Label,
    Value,
    Edit,
    Point,
    Menu,
    Error,
}

/// What lines 0 to 2 and 24 show beside the sheet. (Release 2 manual, control panel and indicators.)
#[derive(Drop)]
pub struct Panel {
    pub mode: Mode,
    /// What is asked for; empty where nothing is.
    pub prompt: Line,
    /// The line that is typed; in POINT with its reference as it would be put in.
    pub typed: Line,
    /// The cursor's place in that line, 0 to 240.
    pub cursor: u8,
    /// The menu's items, in MENU alone.
    pub menu: Line,
    /// What the highlighted item leads to, in MENU alone.
    pub below: Line,
    /// The message, in ERROR alone. Its first 50 bytes are shown.
    pub message: Line,
    /// Whether END was pressed.
    pub end: bool,
    /// Whether a macro runs.
    pub running: bool,
    /// A text that stands in the mode's place; empty where none does.
    pub indicate: Line,
}

impl Panel {
    /// A panel that tells a mode and nothing else.
    pub fn of(mode: Mode) -> Panel
        ensures { result ≡ plain_panel mode }
    {
        Panel {
            mode,
            prompt: Line::new(),
            typed: Line::new(),
            cursor: 0,
            menu: Line::new(),
            below: Line::new(),
            message: Line::new(),
            end: false,
            running: false,
            indicate: Line::new(),
        }
    }

    /// A panel that tells a mode and the line that is typed behind its prompt, with the cursor behind so many of its
    /// bytes.
    pub fn of_line(mode: Mode, prompt: &[u8], typed: &[u8], cursor: u8) -> Panel
        requires prompt { length prompt.now ≤ MAX_LEN }
        requires typed { length typed.now ≤ MAX_LEN }
        ensures { result ≡ line_panel mode prompt.now typed.now cursor }
    {
        let mut panel = Panel::of(mode);
        panel.prompt.put_all(prompt);
        panel.typed.put_all(typed);
        panel.cursor = cursor;
        panel
    }
}
