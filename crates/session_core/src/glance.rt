// Which lines of the screen may be others after a step.
ghost use Rattle.std.specs.Prelude.{◌≡◌, ◌≤◌, ◌<◌, ℕ, false, true, is_some, replicate, slice_get, Some};
ghost use Rattle.session_rooms.specs.declared.panel.Mode.TheVariants.{Ready};
ghost use Rattle.session_core.specs.inner.Glances.{lacks_menu, IsCalm, IsKept, IsNoneStill, IsSameFoot, IsSameMinute, KeepsBelow, KeepsRow, Stays};

use crate::rows::{FOOT, insert_rows};
use crate::touched::Touched;
use grid_address::Cell;
use screen_show::LineSet;
use session_rooms::Mode;

/// The day, where the clock has one, and the second of a step.
#[derive(Clone, Copy)]
pub struct Instant {
    pub day: Option<u32>,
    pub second: u32,
}

/// Whether CALC, CIRC, END and CMD are told.
#[derive(Clone, Copy, PartialEq, Eq)]
pub struct Marks {
    pub calc: bool,
    pub circ: bool,
    pub end: bool,
    pub running: bool,
}

/// What the last line hangs on where no message is told.
#[derive(Clone, Copy)]
pub struct Foot {
    pub instant: Instant,
    pub marks: Marks,
}

/// Which areas of the screen stand still: lines 0 to 2 are the panel's, and 3 to 23 the windows'.
#[derive(Clone, Copy)]
pub struct Still {
    pub panel: bool,
    pub windows: bool,
}

/// What the lines of the screen hang on beside the cells, the line that is typed and the menu: the cell at the top
/// left, which areas stand still, the mode in READY, while a line is typed and in a menu, and what the last line then
/// shows.
#[derive(Clone, Copy)]
pub struct Glance {
    pub corner: Cell,
    pub still: Still,
    pub mode: Option<Mode>,
    pub foot: Foot,
}

// Whether the pointer's line is the same: the sheet and the mode are.
fn keeps_pointer(touched: &Touched, before: &Glance, after: &Glance) -> bool
    ensures { result ≡ true →
        (touched.now ≡ Touched.Nothing) × ((is_some before.now.mode ≡ true) × (after.now.mode ≡ before.now.mode)) }
{
    touched.is_nothing() && before.mode.is_some() && after.mode == before.mode
}

// Whether no line is typed before and after.
fn keeps_typed(before: &Glance, after: &Glance) -> bool
    ensures { result ≡ true → (before.now.mode ≡ Some Ready) × (after.now.mode ≡ Some Ready) }
{
    before.mode == Some(Mode::Ready) && after.mode == Some(Mode::Ready)
}

// Whether it is READY, a line is typed or a menu is shown, before and after.
fn are_plain(before: &Glance, after: &Glance) -> bool
    ensures { result ≡ true → (is_some before.now.mode ≡ true) × (is_some after.now.mode ≡ true) }
{
    before.mode.is_some() && after.mode.is_some()
}

// Whether the mode is told, and no menu stands there.
fn lacks_menu(mode: Option<Mode>) -> bool
    ensures { result ≡ lacks_menu mode }
{
    match mode {
        Some(Mode::Menu) | None => false,
        Some(_) => true,
    }
}

// Whether nothing stands below the line that is typed, before and after.
fn keeps_below(before: &Glance, after: &Glance) -> bool
    ensures { result ≡ true → KeepsBelow before.now after.now }
{
    lacks_menu(before.mode) && lacks_menu(after.mode)
}

// Whether the columns' letters are the same.
fn keeps_letters(touched: &Touched, before: &Glance, after: &Glance) -> bool
    ensures { result ≡ true →
        (touched.now ≡ Touched.Anything → ⊥) × (after.now.corner.col ≡ before.now.corner.col) }
{
    !touched.is_anything() && after.corner.col == before.corner.col
}

// Whether two seconds of a day are of the same minute: mostly they are the same.
fn same_minute(a: u32, b: u32) -> bool
    ensures { result ≡ true → IsSameMinute a b }
{
    if a == b {
        return true;
    }
    a / 3600 == b / 3600 && a / 60 % 60 == b / 60 % 60
}

// Whether the last line hangs on the same.
fn same_foot(a: &Foot, b: &Foot) -> bool
    ensures { result ≡ true → IsSameFoot a.now b.now }
{
    a.instant.day == b.instant.day
        && same_minute(a.instant.second, b.instant.second)
        && a.marks == b.marks
}

// Whether the last line is the same.
fn keeps_foot(before: &Glance, after: &Glance) -> bool
    ensures { result ≡ true → (is_some before.now.mode ≡ true)
        × ((is_some after.now.mode ≡ true) × IsSameFoot after.now.foot before.now.foot) }
{
    are_plain(before, after) && same_foot(&after.foot, &before.foot)
}

// Adds a line that is not kept.
fn insert_unless(kept: bool, line: u8, lines: &mut LineSet)
    requires { line ≤ 24 }
    ensures stay { (n : ℕ) → slice_get lines.new n ≡ Some false → slice_get lines.old n ≡ Some false }
    ensures told { slice_get lines.new line ≡ Some false → kept ≡ true }
{
    if !kept {
        lines.insert(line);
    }
}

// Whether the lines of an area are the same that stood still before and after a step or didn't, where else this tells
// whether they are.
fn stays(before: bool, after: bool, kept: bool) -> bool
    ensures { result ≡ true → Stays before after (kept ≡ true) }
{
    after || (!before && kept)
}

// The lines of the rows that may be others.
fn row_lines(touched: Touched, before: &Glance, after: &Glance) -> LineSet
    ensures { (n : ℕ) → 4 ≤ n → n < 24 → slice_get result n ≡ Some false →
        Stays before.now.still.windows after.now.still.windows (KeepsRow touched before.now after.now n) }
{
    let mut lines = LineSet::none();
    if after.still.windows {
        return lines;
    }
    if before.still.windows || after.corner != before.corner {
        insert_rows(&mut lines);
        return lines;
    }
    match touched {
        Touched::Nothing | Touched::Pointer => lines,
        Touched::Rows(rows) => rows,
        Touched::Anything => {
            insert_rows(&mut lines);
            lines
        }
    }
}

// The lines that may be others than before, where no area stands still newly.
fn lines_beside_kept(touched: Touched, before: &Glance, after: &Glance) -> LineSet
    ensures { (n : ℕ) → slice_get result n ≡ Some false → IsKept touched before.now after.now n }
{
    let was = before.still;
    let now = after.still;
    let pointer = stays(was.panel, now.panel, keeps_pointer(&touched, before, after));
    let typed = stays(was.panel, now.panel, keeps_typed(before, after));
    let below = stays(was.panel, now.panel, keeps_below(before, after));
    let letters = stays(
        was.windows,
        now.windows,
        keeps_letters(&touched, before, after),
    );
    let mut lines = row_lines(touched, before, after);
    insert_unless(pointer, 0, &mut lines);
    insert_unless(typed, 1, &mut lines);
    insert_unless(below, 2, &mut lines);
    insert_unless(letters, 3, &mut lines);
    insert_unless(keeps_foot(before, after), FOOT, &mut lines);
    lines
}

// Whether no area stands still before and after a step.
fn is_none_still(before: &Glance, after: &Glance) -> bool
    ensures { result ≡ true → IsNoneStill before.now.still after.now.still }
{
    let was = before.still;
    let now = after.still;
    !was.panel && !now.panel && !was.windows && !now.windows
}

// Whether a step begins and ends in READY with the same last line, where no area stands still: most steps of a macro's
// loop do.
fn is_calm(before: &Glance, after: &Glance) -> bool
    ensures { result ≡ true → IsCalm before.now after.now }
{
    is_none_still(before, after)
        && keeps_typed(before, after)
        && same_foot(&after.foot, &before.foot)
}

// The lines that may be others than before a calm step: those of the panel and the last one are known.
fn calm_lines(touched: Touched, before: &Glance, after: &Glance) -> LineSet
    requires { IsCalm before.now after.now }
    ensures { (n : ℕ) → slice_get result n ≡ Some false → IsKept touched before.now after.now n }
{
    let pointer = keeps_pointer(&touched, before, after);
    let letters = keeps_letters(&touched, before, after);
    let mut lines = row_lines(touched, before, after);
    insert_unless(pointer, 0, &mut lines);
    insert_unless(letters, 3, &mut lines);
    lines
}

/// The lines that may be others than before, by what a step may have touched of the sheet and what the lines hang on
/// before and after it: all of them where an area stands still newly.
pub fn changed_lines(freezes: bool, touched: Touched, before: &Glance, after: &Glance) -> LineSet
    ensures all { freezes ≡ true → result ≡ replicate 25 true }
    ensures kept { freezes ≡ false →
        (n : ℕ) → slice_get result n ≡ Some false → IsKept touched before.now after.now n }
{
    if freezes {
        return LineSet::all();
    }
    if is_calm(before, after) {
        return calm_lines(touched, before, after);
    }
    lines_beside_kept(touched, before, after)
}
