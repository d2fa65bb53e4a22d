// The whole screen.
ghost use Rattle.std.specs.Prelude.{◌≡◌, ◌≤◌};
ghost use Rattle.screen_layout.specs.Views.{viewed};
ghost use Rattle.screen_layout.specs.Screen.{row_line, screen, screen_line};
ghost use Rattle.screen_show.specs.Changes.{Unchanged};
ghost use Rattle.screen_layout.specs.Lines.{shown_line};
ghost use Rattle.work_sheet.specs.Seen.{of_worksheet};
ghost use Rattle.screen_show.specs.Screen.{IsScreen, IsPrinted};

use crate::columns::columns_line;
use crate::control::{below_line, entry_line, pointer_line, text_line};
use crate::foot::foot_line;
use crate::panel_view::PanelView;
use grid_address::{Cell, ROWS};
use screen_show::{LineSet, Screen};
use serial_date::Moment;
use session_rooms::Panel;
use work_sheet::Worksheet;

// A row of the sheet; below row 8192 there is none.
fn row_line(sheet: &Worksheet, row: u16, first: u8) -> [u8; 80]
    ensures { result ≡ shown_line (row_line (of_worksheet sheet.now) row first) }
{
    if row < ROWS {
        columns_line(sheet, Some(row), first)
    } else {
        text_line(b"")
    }
}

/// A line of the screen, as `paint` shows it, of the lines 0 to 24.
pub fn line_at(
    sheet: &Worksheet,
    panel: &PanelView,
    corner: Cell,
    now: &Moment,
    line: u8,
) -> [u8; 80]
    requires { line ≤ 24 }
    ensures { result ≡ screen_line (of_worksheet sheet.now) (viewed panel.now) corner now.now.day now.now.second line }
{
    let Cell { row, col } = corner;
    match line {
        0 => pointer_line(sheet, panel),
        1 => entry_line(panel),
        2 => below_line(panel),
        3 => columns_line(sheet, None, col),
        4..=23 => row_line(sheet, row + u16::from(line - 4), col),
        24.. => foot_line(sheet, panel, now),
    }
}

/// The screen: the control panel, the columns' letters, 20 rows from the corner's on, and the last line. None of its
/// bytes is below 32. (Release 2 manual for what stands where, this project's choice for the columns.)
pub fn paint(sheet: &Worksheet, panel: &Panel, corner: Cell, now: &Moment) -> Screen
    ensures screen { result ≡ screen (of_worksheet sheet.now) panel.now corner now.now.day now.now.second }
    ensures shape { IsScreen (screen (of_worksheet sheet.now) panel.now corner now.now.day now.now.second) }
    ensures printed { IsPrinted (screen (of_worksheet sheet.now) panel.now corner now.now.day now.now.second) }
{
    let mut shown = Screen::empty();
    paint_lines(
        sheet,
        &PanelView::of(panel),
        corner,
        now,
        &LineSet::all(),
        &mut shown,
    );
    shown
}

// Paints the lines of a set over a screen that has the others in common with this one, as `paint` does.
fn paint_lines(
    sheet: &Worksheet,
    panel: &PanelView,
    corner: Cell,
    now: &Moment,
    lines: &LineSet,
    shown: &mut Screen,
)
    requires { Unchanged lines.now shown.old
        (screen (of_worksheet sheet.now) (viewed panel.now) corner now.now.day now.now.second) }
    ensures { shown.new ≡ screen (of_worksheet sheet.now) (viewed panel.now) corner now.now.day now.now.second }
{
    shown.is_whole();
    let mut line = lines.next_from(0);
    while line < 25 {
        shown.set_line(line, line_at(sheet, panel, corner, now, line));
        line = lines.next_from(line + 1);
    }
}
