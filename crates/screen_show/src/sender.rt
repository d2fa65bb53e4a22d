// Sends a screen to a display, by what changed.
ghost use Rattle.std.specs.Prelude.{◌≡◌, ◌≤◌, ◌<◌, ◌+◌, None, length, take, drop, true};
ghost use Rattle.outside_world.specs.Causes.{HasCause};
ghost use Rattle.screen_show.specs.Changes.{Unchanged};
ghost use Rattle.screen_show.specs.inner.Patches.{differing_front};
ghost use Rattle.screen_show.specs.Display.{Puts, Finishes, Sends, TellsSoundly};
ghost use Rattle.screen_show.specs.inner.Lines.{SendsLine};

use crate::{Display, DisplayKind, LineSet, Screen};
use outside_world::Failed;

// Puts a run of bytes into a line.
fn put_run(display: &mut dyn Display, row: u8, col: usize, bytes: &[u8]) -> Result<(), Failed>
    requires row_in { row ≤ 24 }
    requires col_in { col + length bytes.now ≤ 80 }
    ensures shown { Puts row col bytes.now (seen display.old).told (seen display.new).told result }
    ensures kind { (seen display.new).kind ≡ (seen display.old).kind }
    ensures cause { HasCause (seen display.old).faults (seen display.new).faults result }
{
    display.put(row, col as u8, bytes)
}

// Ends a frame.
fn end_frame(display: &mut dyn Display) -> Result<(), Failed>
    ensures shown { Finishes (seen display.old).told (seen display.new).told result }
    ensures kind { (seen display.new).kind ≡ (seen display.old).kind }
    ensures cause { HasCause (seen display.old).faults (seen display.new).faults result }
{
    display.done()
}

// Whether a display takes whole lines: it shows pages, which are written whole, and tells nothing of what it shows. One
// that tells it tells a screen of 25 lines of 80 bytes, and counts below 2 to the 64.
fn takes_lines(display: &dyn Display) -> bool
    ensures untold { result ≡ true → (seen display.now).told ≡ None }
    ensures sound { TellsSoundly (seen display.now).told }
{
    match display.kind() {
        DisplayKind::Pages | DisplayKind::Last => display.recorder().is_none(),
        DisplayKind::Ansi => false,
    }
}

// The bytes from a place on.
fn rest(bytes: &[u8], at: usize) -> &[u8]
    requires { at ≤ length bytes.now }
    ensures { result.now ≡ drop at bytes.now }
{
    &bytes[at..]
}

// The first bytes.
fn front(bytes: &[u8], len: usize) -> &[u8]
    requires { len ≤ length bytes.now }
    ensures { result.now ≡ take len bytes.now }
{
    &bytes[..len]
}

// How far two lines differ from their beginning on.
fn differing_len(before: &[u8], after: &[u8]) -> usize
    requires { length before.now ≡ length after.now }
    ensures front { result ≡ differing_front before.now after.now }
    ensures within { result ≤ length before.now }
{
    let mut len = 0;
    while len < before.len() && before[len] != after[len] {
        len += 1;
    }
    len
}

// The bytes that are compared at once.
const PART: usize = 8;

// As many bytes from a place on.
fn part(bytes: &[u8], at: usize) -> &[u8; PART]
    requires { at + 8 ≤ length bytes.now }
    ensures { result.now ≡ take 8 (drop at bytes.now) }
{
    match rest(bytes, at).first_chunk::<PART>() {
        Some(part) => part,
        None => unreachable!(),
    }
}

// How far two lines are equal from their beginning on, by whole parts.
fn equal_parts(before: &[u8], after: &[u8]) -> usize
    requires { length before.now ≡ length after.now }
    ensures equal { take result before.now ≡ take result after.now }
    ensures within { result ≤ length before.now }
{
    let mut len = 0;
    while before.len() - len >= PART && *part(before, len) == *part(after, len) {
        len += PART;
    }
    len
}

// The bytes that are compared at once behind the last whole part.
const HALF: usize = 4;

// Half as many bytes from a place on.
fn half(bytes: &[u8], at: usize) -> &[u8; HALF]
    requires { at + 4 ≤ length bytes.now }
    ensures { result.now ≡ take 4 (drop at bytes.now) }
{
    match rest(bytes, at).first_chunk::<HALF>() {
        Some(half) => half,
        None => unreachable!(),
    }
}

// How far two lines are equal from their beginning on, by whole parts and half of one.
fn equal_halves(before: &[u8], after: &[u8]) -> usize
    requires { length before.now ≡ length after.now }
    ensures equal { take result before.now ≡ take result after.now }
    ensures within { result ≤ length before.now }
{
    let len = equal_parts(before, after);
    if before.len() - len >= HALF && *half(before, len) == *half(after, len) {
        return len + HALF;
    }
    len
}

// How far two lines are equal from their beginning on.
fn equal_len(before: &[u8], after: &[u8]) -> usize
    requires { length before.now ≡ length after.now }
    ensures equal { take result before.now ≡ take result after.now }
    ensures within { result ≤ length before.now }
    ensures whole { result < length before.now → 0 < differing_front (drop result before.now) (drop result after.now) }
{
    let mut len = equal_halves(before, after);
    while len < before.len() && before[len] == after[len] {
        len += 1;
    }
    len
}

// Puts the changed runs of one line, or the line whole where nothing is told of it.
fn send_line(
    before: &[u8],
    after: &[u8],
    row: u8,
    whole: bool,
    display: &mut dyn Display,
) -> Result<(), Failed>
    requires row_in { row ≤ 24 }
    requires before_width { length before.now ≡ 80 }
    requires after_width { length after.now ≡ 80 }
    requires untold { whole ≡ true → (seen display.old).told ≡ None }
    requires sound { TellsSoundly (seen display.old).told }
    ensures shown { SendsLine row before.now after.now (seen display.old).told (seen display.new).told result }
    ensures kind { (seen display.new).kind ≡ (seen display.old).kind }
    ensures cause { HasCause (seen display.old).faults (seen display.new).faults result }
{
    if whole {
        return put_run(display, row, 0, after);
    }
    let mut col = equal_len(before, after);
    while col < after.len() {
        let len = differing_len(rest(before, col), rest(after, col));
        put_run(display, row, col, front(rest(after, col), len))?;
        col += len;
        col += equal_len(rest(before, col), rest(after, col));
    }
    Ok(())
}

/// Sends the screen `after` to a display that shows `before`, where the two have all lines in common that are not in
/// the set: it puts the changed runs of each line of the set, a run being a longest stretch of bytes of one line in
/// which the two differ, and ends the frame. A display that shows pages and tells nothing of what it shows is put each
/// line of the set whole.
/// It fails only where the display's count of faults rose, and has then added no frame.
pub fn send_lines(
    before: &Screen,
    after: &Screen,
    lines: &LineSet,
    display: &mut dyn Display,
) -> Result<(), Failed>
    requires { Unchanged lines.now before.now after.now }
    ensures shown { Sends before.now after.now (seen display.old).told (seen display.new).told result }
    ensures kind { (seen display.new).kind ≡ (seen display.old).kind }
    ensures cause { HasCause (seen display.old).faults (seen display.new).faults result }
{
    before.is_whole();
    after.is_whole();
    let whole = takes_lines(display);
    let mut row = lines.next_from(0);
    while row < 25 {
        send_line(before.line(row), after.line(row), row, whole, display)?;
        row = lines.next_from(row + 1);
    }
    end_frame(display)
}
