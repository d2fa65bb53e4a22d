// The last line: the moment or a message, and the indicators.
ghost use Rattle.std.specs.Prelude.{◌≡◌, ◌≤◌, ◌+◌, ◌++◌, [], length, take, pos, ◌*◌};
ghost use Rattle.cell_format.specs.Numbers.{shown_number, two_digits};
ghost use Rattle.grid_address.specs.Formats.{date_format};
ghost use Rattle.screen_layout.specs.Views.{viewed};
ghost use Rattle.screen_layout.specs.Foot.{first_part, foot_line, marked, moment_text, wants_recalculation};
ghost use Rattle.screen_layout.specs.Lines.{shown_line};
ghost use Rattle.work_sheet.specs.Seen.{of_worksheet};

use crate::painted_line::PaintedLine;
use crate::panel_view::PanelView;
use cell_format::show_number;
use fixed_value::Fixed;
use grid_address::Format;
use lics_text::Line;
use serial_date::Moment;
use session_rooms::Mode;
use work_sheet::Worksheet;

// The columns from which on the indicators stand; what is told before them ends at the first.
const CALC_COLUMN: usize = 50;

const CIRC_COLUMN: usize = 56;

const END_COLUMN: usize = 62;

const CMD_COLUMN: usize = 67;

// Adds the last two digits of a number.
fn put_two_digits(number: u32, into: &mut Line)
    requires { length into.old ≤ 100 }
    ensures { into.new ≡ into.old ++ two_digits number }
{
    into.put_all(&[b'0' + (number / 10 % 10) as u8, b'0' + (number % 10) as u8]);
}

// A day as 01-Jun-87.
fn put_day(day: u32, into: &mut Line)
    requires day { day ≤ 73050 }
    requires room { into.old ≡ [] }
    ensures text { into.new ≡ shown_number (pos (day * 1000000)) date_format 10 }
    ensures size { length into.new ≡ 10 }
{
    let Some(value) = Fixed::of(i64::from(day) * 1_000_000) else {
        unreachable!();
    };
    show_number(value, Format::DATE, 10, into);
}

// The day, the hour and the minute.
fn put_moment(now: &Moment, into: &mut Line)
    requires { into.old ≡ [] }
    ensures { into.new ≡ moment_text now.now.day now.now.second }
{
    let Moment { day, second } = *now;
    if let Some(day) = day {
        put_day(day, into);
        put_two_digits(second / 3600, into);
        into.put_all(b":");
        put_two_digits(second / 60 % 60, into);
    }
}

// The moment, or in ERROR the message.
fn first_part(panel: &PanelView, now: &Moment) -> PaintedLine
    ensures text { result
        ≡ take CALC_COLUMN (first_part panel.now.mode panel.now.message.now now.now.day now.now.second) }
    ensures width { length result ≤ CALC_COLUMN }
{
    let mut line = PaintedLine::new();
    if let Mode::Error = panel.mode {
        line.add(CALC_COLUMN, panel.message);
        return line;
    }
    let mut text = Line::new();
    put_moment(now, &mut text);
    line.add(CALC_COLUMN, text.bytes());
    line
}

// Adds a word from a column on, where it is to be told.
fn mark(line: &mut PaintedLine, told: bool, column: usize, word: &[u8])
    requires room { column + length word.now ≤ 80 }
    requires before { length line.old ≤ column }
    ensures line { line.new ≡ marked told column word.now line.old }
    ensures width { length line.new ≤ column + length word.now }
{
    if told {
        line.fill(column);
        line.add(80, word);
    }
}

/// Whether a change was made since the last recalculation, and none follows by itself.
pub fn wants_recalculation(sheet: &Worksheet) -> bool
    ensures { result ≡ wants_recalculation (of_worksheet sheet.now) }
{
    sheet.is_stale() && !sheet.settings().automatic
}

/// The last line: the moment or in ERROR the message, and CALC, CIRC, END and CMD.
#[inline(never)]
pub fn foot_line(sheet: &Worksheet, panel: &PanelView, now: &Moment) -> [u8; 80]
    ensures { result ≡ shown_line (foot_line (of_worksheet sheet.now) (viewed panel.now) now.now.day now.now.second) }
{
    let mut line = first_part(panel, now);
    mark(&mut line, wants_recalculation(sheet), CALC_COLUMN, b"CALC");
    mark(&mut line, sheet.is_circular(), CIRC_COLUMN, b"CIRC");
    mark(&mut line, panel.end, END_COLUMN, b"END");
    mark(&mut line, panel.running, CMD_COLUMN, b"CMD");
    line.finish()
}
