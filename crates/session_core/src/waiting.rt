// What is shown of a macro that waits.
ghost use Rattle.std.specs.Prelude.{◌≡◌, ◌≤◌, length, option_copied, take};
ghost use Rattle.lics_text.specs.Bytes.{IsText};
ghost use Rattle.room_keys.specs.menu.Ring.{items_line};
ghost use Rattle.session_core.specs.Waiting as spec;
ghost use Rattle.session_core.specs.inner.Showing.{shows_waiting};
ghost use Rattle.work_sheet.specs.Seen.{of_worksheet};

use formula_parts::Look;
use grid_address::{Cell, ROWS};
use lics_text::{Line, MAX_LEN};
use macro_text::macro_text;
use macro_words::{MacroMenu, Question, Running, Waiting, beside, item_text};
use room_keys::menu::put_item;
use session_rooms::{Mode, Panel};
use work_sheet::Worksheet;

// The text of an item of a menu; nothing where none stands there.
fn item_bytes<'a>(sheet: &'a Worksheet, menu: &MacroMenu, place: usize) -> &'a [u8]
    ensures { result.now ≡ spec.item_of (of_worksheet sheet.now) menu.now place }
{
    match item_text(sheet, menu.first, place) {
        Some(text) => text.bytes(),
        None => b"",
    }
}

// The items of a menu, of which the highlighted one is marked.
fn items_line(sheet: &Worksheet, menu: &MacroMenu) -> Line
    ensures { result ≡ take MAX_LEN (items_line menu.now.highlight (spec.items_of (of_worksheet sheet.now) menu.now)) }
{
    let mut line = Line::new();
    for place in 0..menu.count {
        put_item(
            &mut line,
            item_bytes(sheet, menu, place),
            place == menu.highlight,
        );
    }
    line
}

// The text of the cell below one; below the last row there is none.
fn text_below(sheet: &Worksheet, cell: Cell) -> &[u8]
    ensures below { result.now ≡ spec.text_below (of_worksheet sheet.now) cell }
    ensures short { length result.now ≤ MAX_LEN }
{
    let row = cell.row + 1;
    if row >= ROWS {
        return b"";
    }
    match macro_text(sheet, Cell { row, col: cell.col }) {
        Some(text) => text.bytes(),
        None => b"",
    }
}

// A menu.
fn menu_panel(sheet: &Worksheet, menu: &MacroMenu) -> Panel
    ensures { result ≡ spec.menu_panel (of_worksheet sheet.now) menu.now }
{
    let mut panel = Panel::of(Mode::Menu);
    panel.menu = items_line(sheet, menu);
    panel
        .below
        .put_all(text_below(sheet, beside(menu.highlight, menu.first)));
    panel
}

// A line, behind its prompt.
fn question_panel(question: &Question) -> Panel
    ensures { result ≡ spec.question_panel question.now }
{
    Panel::of_line(
        Mode::Edit,
        question.prompt.bytes(),
        question.line.text(),
        question.line.cursor() as u8,
    )
}

/// What is shown of a macro's line or menu, or else what the session shows.
pub(crate) fn waiting_panel(sheet: &Worksheet, running: Option<&Running>, room: Panel) -> Panel
    ensures { result ≡ spec.waiting_panel (of_worksheet sheet.now) (option_copied running.entry) room }
{
    let Some(running) = running else {
        return room;
    };
    match &running.waiting {
        Waiting::Line(kept) => question_panel(kept.question()),
        Waiting::Item(menu) => menu_panel(sheet, menu),
        Waiting::Nothing | Waiting::Time(_) | Waiting::OneKey(_) | Waiting::Enter => room,
    }
}

/// Whether a macro shows its own line or menu.
pub(crate) fn shows_waiting(running: Option<&Running>) -> bool
    ensures { result ≡ shows_waiting (option_copied running.entry) }
{
    match running {
        Some(running) => matches!(&running.waiting, Waiting::Line(_) | Waiting::Item(_)),
        None => false,
    }
}
