// What is painted of a session.
ghost use Rattle.std.specs.Prelude.{◌≡◌, ◌≤◌, IfSome, [], get_or, slice_set};
ghost use Rattle.room_keys.specs.menu.Room as menu;
ghost use Rattle.screen_layout.specs.Views.{viewed};
ghost use Rattle.screen_show.specs.Changes.{Unchanged};
ghost use Rattle.screen_show.specs.Screen.{IsPrinted};
ghost use Rattle.session_core.specs.inner.Glances.{glance_of, instant_of, is_plain, marks_of, told_plainly};
ghost use Rattle.session_core.specs.Screen.{panel_of, screen, shown_panel};

use super::Machine;
use crate::glance::{Foot, Glance, Instant, Marks};
use crate::pressing::{plain_menu, plain_mode, plain_view, room_panel};
use crate::waiting::{shows_waiting, waiting_panel};
use room_keys::menu::{shown_items, text_below};
use screen_layout::{PanelView, line_at, wants_recalculation};
use screen_show::{LineSet, Screen};
use serial_date::Moment;
use session_rooms::{MenuRoom, Mode, Panel};

impl Machine {
    // When the last step was made.
    fn instant(&self) -> Instant
        ensures { result ≡ instant_of self.now.state }
    {
        let Moment { day, second } = self.moment;
        Instant { day, second }
    }

    // What the last line marks.
    fn marks(&self) -> Marks
        ensures { result ≡ marks_of self.now.state }
    {
        Marks {
            calc: wants_recalculation(&self.desk.sheet),
            circ: self.desk.sheet.is_circular(),
            end: self.end,
            running: self.engine.is_running(),
        }
    }

    // Whether no macro shows its own line or menu, nor a text in the mode's place.
    fn is_plain(&self) -> bool
        ensures { result ≡ is_plain self.now.state }
    {
        !shows_waiting(self.engine.running()) && self.indicate.bytes().is_empty()
    }

    // The mode, where the panel shows nothing else but a line that is typed or a menu.
    fn plain_mode(&self) -> Option<Mode>
        ensures { result ≡ told_plainly self.now.state }
    {
        if self.is_plain() {
            plain_mode(&self.room)
        } else {
            None
        }
    }

    /// What the lines of the screen hang on beside the cells, the line that is typed and the menu.
    pub fn glance(&self) -> Glance
        ensures { result ≡ glance_of self.now.state }
    {
        Glance {
            corner: self.corner,
            still: self.frozen.still(),
            mode: self.plain_mode(),
            foot: Foot {
                instant: self.instant(),
                marks: self.marks(),
            },
        }
    }

    // Paints a line of the screen, or shows it as it is held where it stands still.
    fn paint_line(&self, panel: &PanelView, line: u8, shown: &mut Screen)
        requires panel { viewed panel.now ≡ panel_of self.now.state }
        requires inside { line ≤ 24 }
        ensures { shown.new ≡ slice_set shown.old line (get_or (screen self.now.state) line []) }
    {
        match self.frozen.held_at(line) {
            Some(held) => shown.put(line, 0, held.line(line)),
            None => {
                let painted = line_at(&self.desk.sheet, panel, self.corner, &self.moment, line);
                shown.set_line(line, painted);
            }
        }
    }

    // Paints lines of the screen with a panel.
    #[inline(never)]
    fn paint_panel(&self, panel: &PanelView, lines: &LineSet, shown: &mut Screen)
        requires panel { viewed panel.now ≡ panel_of self.now.state }
        requires unchanged { Unchanged lines.now shown.old (screen self.now.state) }
        ensures { shown.new ≡ screen self.now.state }
    {
        // It is called for its clause.
        shown.is_whole();
        let mut line = lines.next_from(0);
        while line < 25 {
            self.paint_line(panel, line, shown);
            line = lines.next_from(line + 1);
        }
    }

    // Paints lines of the screen with what is shown of the room.
    #[inline(always)]
    fn paint_with(&self, room: PanelView, lines: &LineSet, shown: &mut Screen)
        requires view { viewed room ≡ shown_panel self.now.state }
        requires unchanged { Unchanged lines.now shown.old (screen self.now.state) }
        ensures { shown.new ≡ screen self.now.state }
    {
        let mut panel = PanelView {
            mode: room.mode,
            prompt: room.prompt,
            typed: room.typed,
            cursor: room.cursor,
            menu: room.menu,
            below: room.below,
            message: room.message,
            end: false,
            running: false,
            indicate: self.indicate.bytes(),
        };
        panel.end = self.end;
        panel.running = self.engine.is_running();
        self.paint_panel(&panel, lines, shown);
    }

    // The panel of the macro's line or menu, or else of the room.
    fn shown_panel(&self) -> Panel
        ensures { result ≡ shown_panel self.now.state }
    {
        let room = room_panel(&self.room);
        waiting_panel(&self.desk.sheet, self.engine.running(), room)
    }

    // What is shown in READY and while a line is typed into a cell; none elsewhere, and where a macro shows its own.
    fn plain_view(&self) -> Option<PanelView<'_>>
        ensures { IfSome result (λ v. viewed v ≡ shown_panel self.now.state) }
    {
        if shows_waiting(self.engine.running()) {
            return None;
        }
        match plain_view(&self.room) {
            Some(view) => Some(view),
            None => None,
        }
    }

    // The menu that is shown; none in another room, and where a macro shows its own.
    fn plain_menu(&self) -> Option<&MenuRoom>
        ensures { IfSome result (λ r. menu.panel r.now ≡ shown_panel self.now.state) }
    {
        if shows_waiting(self.engine.running()) {
            return None;
        }
        match plain_menu(&self.room) {
            Some(room) => Some(room),
            None => None,
        }
    }

    // Paints lines of the screen with a menu.
    fn paint_menu(&self, room: &MenuRoom, lines: &LineSet, shown: &mut Screen)
        requires panel { menu.panel room.now ≡ shown_panel self.now.state }
        requires unchanged { Unchanged lines.now shown.old (screen self.now.state) }
        ensures { shown.new ≡ screen self.now.state }
    {
        let items = shown_items(room);
        let view = PanelView {
            mode: Mode::Menu,
            prompt: b"",
            typed: b"",
            cursor: 0,
            menu: items.bytes(),
            below: text_below(room),
            message: b"",
            end: false,
            running: false,
            indicate: b"",
        };
        self.paint_with(view, lines, shown);
    }

    // Paints lines of the screen with the panel of the macro's line or menu, or else of the room.
    #[inline(never)]
    fn paint_shown(&self, lines: &LineSet, shown: &mut Screen)
        requires { Unchanged lines.now shown.old (screen self.now.state) }
        ensures { shown.new ≡ screen self.now.state }
    {
        self.paint_with(PanelView::of(&self.shown_panel()), lines, shown);
    }

    // Paints lines of the screen, of which there are some.
    fn paint_some(&self, lines: &LineSet, shown: &mut Screen)
        requires { Unchanged lines.now shown.old (screen self.now.state) }
        ensures { shown.new ≡ screen self.now.state }
    {
        if let Some(room) = self.plain_menu() {
            self.paint_menu(room, lines, shown);
            return;
        }
        match self.plain_view() {
            Some(view) => self.paint_with(view, lines, shown),
            None => self.paint_shown(lines, shown),
        }
    }

    /// Paints the lines of a set over a screen that has the others in common with the session's, which it becomes.
    pub fn paint_lines(&self, lines: &LineSet, shown: &mut Screen)
        requires { Unchanged lines.now shown.old (screen self.now.state) }
        ensures { shown.new ≡ screen self.now.state }
    {
        // It is called for its clause.
        shown.is_whole();
        if lines.next_from(0) > 24 {
            return;
        }
        self.paint_some(lines, shown);
    }

    /// No byte of the screen is below a space. It does nothing, and is called for its clause.
    pub fn is_printed(&self)
        ensures { IsPrinted (screen self.now.state) }
    {
        self.frozen.is_printed();
    }

    /// The screen, painted from nothing.
    pub fn paint(&self) -> Screen
        ensures shown { result ≡ screen self.now.state }
        ensures printed { IsPrinted (screen self.now.state) }
    {
        // It is called for its clause.
        self.is_printed();
        let mut shown = Screen::empty();
        self.paint_lines(&LineSet::all(), &mut shown);
        shown
    }
}
