// Which columns are shown.
ghost use Rattle.std.specs.Prelude.{◌≡◌, ◌<◌, ◌≤◌, IfSome};
ghost use Rattle.screen_layout.specs.Columns.{columns_shown};
ghost use Rattle.screen_layout.specs.inner.Coming.{ComesNext};
ghost use Rattle.work_sheet.specs.Seen.{of_worksheet};

use crate::widths::width_in;
use grid_address::COLUMNS;
use sheet_store::MOST_WIDTH;
use work_sheet::Worksheet;

// How many bytes of a line stand behind the four of the row's number.
pub(crate) const ROOM: u8 = 76;

/// A shown column.
#[derive(Clone, Copy)]
pub struct Column {
    pub col: u8,
    /// How many bytes wide it is, 1 to 240.
    pub width: u8,
}

/// The shown columns that are still to come.
#[derive(Clone, Copy)]
pub struct Coming {
    /// The first column that wasn't looked at, 0 to 256.
    col: u16,
    /// How many bytes the shown columns before it take, 0 to 240.
    used: u8,
}

impl Coming {
    /// Those from a column on.
    pub fn from_column(first: u8) -> Coming
        ensures col { result.col ≡ first }
        ensures used { result.used ≡ 0 }
    {
        Coming {
            col: u16::from(first),
            used: 0,
        }
    }

    /// The next of them. Hidden columns are passed over, the others stand beside each other while they fit whole into
    /// 76 bytes, and the first is shown in any case.
    pub fn next_in(&mut self, sheet: &Worksheet) -> Option<Column>
        requires { self.old.used ≤ MOST_WIDTH }
        ensures next { ComesNext (of_worksheet sheet.now) self.old result self.new }
        ensures used { IfSome result (λ x. self.old.used < self.new.used) }
        ensures most { self.new.used ≤ MOST_WIDTH }
        ensures width { IfSome result (λ x. x.width ≤ MOST_WIDTH) }
    {
        for col in self.col..COLUMNS {
            let col = col as u8;
            if sheet.is_hidden(col) {
                continue;
            }
            let width = width_in(sheet, col);
            if self.used > 0 && width > ROOM.saturating_sub(self.used) {
                return None;
            }
            self.col = u16::from(col) + 1;
            self.used += width;
            return Some(Column { col, width });
        }
        None
    }
}

/// How many columns stand on the screen from a column on, 0 to 76: those that aren't hidden, while they fit whole. The
/// first counts in any case, and there is none where all from there on are hidden. (This project's choice.) It takes no
/// memory.
pub fn columns_shown(sheet: &Worksheet, first: u8) -> u8
    ensures { result ≡ columns_shown (of_worksheet sheet.now) first }
{
    let mut count: u8 = 0;
    let mut coming = Coming::from_column(first);
    while coming.next_in(sheet).is_some() {
        count += 1;
    }
    count
}
