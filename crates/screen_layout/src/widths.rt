// How wide columns are.
ghost use Rattle.std.specs.Prelude.{◌≡◌, ◌≤◌};
ghost use Rattle.work_sheet.specs.Seen.{of_worksheet};
ghost use Rattle.screen_layout.specs.Sheets.{width_in};

use sheet_store::MOST_WIDTH;
use work_sheet::Worksheet;

/// A column's width, 1 to 240: its own or the sheet's.
pub fn width_in(sheet: &Worksheet, col: u8) -> u8
    ensures width { result ≡ width_in (of_worksheet sheet.now) col }
    ensures least { 1 ≤ result }
    ensures most { result ≤ MOST_WIDTH }
{
    let settings = sheet.settings();
    settings.are_within();
    match sheet.own_width(col) {
        Some(width) => width,
        None => settings.width,
    }
}
