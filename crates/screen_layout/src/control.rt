// The control panel, lines 0 to 2.
ghost use Rattle.std.specs.Prelude.{◌≡◌, ◌≤◌, ◌++◌, ◌+◌, ◌-◌, [], length, take, drop, replicate};
ghost use Rattle.std.specs.FinMap as map;
ghost use Rattle.cell_format.specs.Indicator.{indicator_of};
ghost use Rattle.screen_layout.specs.Views.{viewed};
ghost use Rattle.grid_address.specs.Address.{address_of};
ghost use Rattle.recalculation.specs.Context.{format_of};
ghost use Rattle.screen_layout.specs.Control.{below_line, entry_line, front_text, is_menu, mode_name, mode_text, pointer_format, pointer_line, pointer_text, protection_part, typed_line, width_part, with_space};
ghost use Rattle.screen_layout.specs.Lines.{filled, shown_line};
ghost use Rattle.work_sheet.specs.Seen.{of_worksheet};
ghost use Rattle.work_sheet.specs.Typed.{typed};

use crate::painted_line::PaintedLine;
use crate::panel_view::PanelView;
use cell_format::indicator;
use formula_parts::Look;
use grid_address::{Cell, Format, cell_text, decimal_text};
use lics_text::Line;
use session_rooms::Mode;
use work_sheet::Worksheet;

// The column before which what is told of the pointer's cell ends.
const CONTENT_END: usize = 72;

// The column from which on the mode stands.
const MODE_COLUMN: usize = 73;

// The last column of the screen.
const LAST_COLUMN: usize = 79;

/// The word that tells a mode (Release 2 manual, the mode indicator).
pub fn mode_name(mode: Mode) -> &'static [u8]
    ensures name { result.now ≡ mode_name mode }
    ensures size { length result.now ≤ 5 }
{
    match mode {
        Mode::Ready => b"READY",
        Mode::Label => b"LABEL",
        Mode::Value => b"VALUE",
        Mode::Edit => b"EDIT",
        Mode::Point => b"POINT",
        Mode::Menu => b"MENU",
        Mode::Error => b"ERROR",
    }
}

// The first five bytes of the text that a macro put there, or the mode.
fn mode_text<'a>(panel: &PanelView<'a>) -> &'a [u8]
    ensures text { result.now ≡ mode_text panel.now.indicate.now panel.now.mode }
    ensures size { length result.now ≤ 5 }
{
    let text = panel.indicate;
    if text.is_empty() {
        mode_name(panel.mode)
    } else {
        &text[..text.len().min(5)]
    }
}

// Adds a format's indicator and a blank, where it has one.
fn put_indicator(format: Format, into: &mut Line)
    requires { length into.old ≤ 100 }
    ensures text { into.new ≡ into.old ++ with_space (indicator_of format.0) }
    ensures size { length into.new ≤ length into.old + 7 }
{
    let text = indicator(format);
    let bytes = text.bytes();
    if !bytes.is_empty() {
        into.put_all(bytes);
        into.put_all(b" ");
    }
}

// Adds what is told of a cell's protection.
fn put_protection(protection: bool, format: Format, into: &mut Line)
    requires { length into.old ≤ 100 }
    ensures text { into.new ≡ into.old ++ protection_part protection format.0 }
    ensures size { length into.new ≤ length into.old + 3 }
{
    if !format.is_protected() {
        into.put_all(b"U ");
    } else if protection {
        into.put_all(b"PR ");
    }
}

// Adds a column's own width.
fn put_width(width: Option<u8>, into: &mut Line)
    requires { length into.old ≤ 100 }
    ensures text { into.new ≡ into.old ++ width_part width }
    ensures size { length into.new ≤ length into.old + 24 }
{
    if let Some(width) = width {
        let digits = decimal_text(u64::from(width));
        into.put_all(b"[W");
        into.put_all(digits.bytes());
        into.put_all(b"] ");
    }
}

// What is told of the pointer's cell before its content.
fn put_front(sheet: &Worksheet, into: &mut Line)
    requires { into.old ≡ [] }
    ensures { into.new ≡ front_text (of_worksheet sheet.now) }
{
    let settings = sheet.settings();
    let pointer = settings.pointer;
    let format = sheet.format(pointer);
    let address = cell_text(pointer);
    into.put_all(address.bytes());
    into.put_all(b": ");
    put_indicator(format, into);
    put_protection(settings.protection, format, into);
    put_width(sheet.own_width(pointer.col), into);
}

// The pointer's cell.
fn pointer_of(sheet: &Worksheet) -> Cell
    ensures { result ≡ sheet.now.settings.pointer }
{
    sheet.settings().pointer
}

// What is told of the pointer's cell and its content, cut after column 71.
fn pointer_part(sheet: &Worksheet) -> PaintedLine
    ensures text { result ≡ filled MODE_COLUMN (take CONTENT_END (pointer_text (of_worksheet sheet.now))) }
    ensures width { length result ≡ MODE_COLUMN }
{
    let mut front = Line::new();
    put_front(sheet, &mut front);
    let mut content = Line::new();
    let _ = sheet.text_of(pointer_of(sheet), &mut content);
    let mut line = PaintedLine::new();
    line.add(CONTENT_END, front.bytes());
    line.add(CONTENT_END, content.bytes());
    line.fill(MODE_COLUMN);
    line
}

/// The pointer's address, what is told of its cell, its content and the mode.
#[tactic(auto, using(crate::proofs::Cuts::mode_added))]
pub fn pointer_line(sheet: &Worksheet, panel: &PanelView) -> [u8; 80]
    ensures { result ≡ shown_line (pointer_line (of_worksheet sheet.now) (viewed panel.now)) }
{
    let mut line = pointer_part(sheet);
    line.add(80, mode_text(panel));
    line.finish()
}

// Adds a text from a byte on.
fn add_from(line: &mut PaintedLine, text: &[u8], from: usize)
    ensures { line.new ≡ line.old ++ take (80 - length line.old) (drop from text.now) }
{
    line.add(80, &text[from.min(text.len())..]);
}

// The blank behind a prompt.
fn blank_behind(prompt: &[u8]) -> &'static [u8]
    ensures text { with_space prompt.now ≡ prompt.now ++ result.now }
    ensures size { length result.now ≤ 1 }
{
    if prompt.is_empty() { b"" } else { b" " }
}

// How many bytes stand before the cursor.
fn cursor_of(panel: &PanelView) -> u8
    ensures { result ≡ panel.now.cursor }
{
    panel.cursor
}

// The line that is typed behind its prompt, from the byte that lets the cursor stand at column 79 at most.
fn typed_line(panel: &PanelView) -> [u8; 80]
    ensures { result ≡ shown_line (typed_line (viewed panel.now)) }
{
    let prompt = panel.prompt;
    let blank = blank_behind(prompt);
    let before = prompt.len() + blank.len();
    let cursor = usize::from(cursor_of(panel));
    let start = (before + cursor).saturating_sub(LAST_COLUMN);
    let mut line = PaintedLine::new();
    add_from(&mut line, prompt, start);
    add_from(&mut line, blank, start.saturating_sub(prompt.len()));
    add_from(&mut line, panel.typed, start.saturating_sub(before));
    line.finish()
}

// A text from the left edge on.
#[tactic(auto, using(crate::proofs::Cuts::shown_cut))]
pub fn text_line(text: &[u8]) -> [u8; 80]
    ensures { result ≡ shown_line text.now }
{
    let mut line = PaintedLine::new();
    line.add(80, text);
    line.finish()
}

// Whether a menu stands in the panel's second and third line.
fn is_menu(mode: Mode) -> bool
    ensures { result ≡ is_menu mode }
{
    match mode {
        Mode::Menu => true,
        Mode::Ready => false,
        Mode::Label => false,
        Mode::Value => false,
        Mode::Edit => false,
        Mode::Point => false,
        Mode::Error => false,
    }
}

/// The menu's items, or the line that is typed.
#[inline(never)]
pub fn entry_line(panel: &PanelView) -> [u8; 80]
    ensures { result ≡ shown_line (entry_line (viewed panel.now)) }
{
    if is_menu(panel.mode) {
        text_line(panel.menu)
    } else {
        typed_line(panel)
    }
}

/// What the highlighted item leads to.
#[inline(never)]
pub fn below_line(panel: &PanelView) -> [u8; 80]
    ensures { result ≡ shown_line (below_line (viewed panel.now)) }
{
    if is_menu(panel.mode) {
        text_line(panel.below)
    } else {
        text_line(b"")
    }
}
