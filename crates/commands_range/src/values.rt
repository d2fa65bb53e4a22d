// The values of a span as the contents of others.
ghost use Rattle.std.specs.Prelude.{◌≡◌, ◌≤◌, ◌<◌, ◌+◌, ◌++◌, ◌∷◌, [], IfOk, IfSome, OnOk, map};
ghost use Rattle.commands_range.specs.Commands.{valued};
ghost use Rattle.command_desk.specs.Writing.{sight_in};
ghost use Rattle.commands_range.specs.Valued.{cols_in, inside, rows_in, source_at, target_of};
ghost use Rattle.commands_range.specs.Valued.{value_of, valued_from, valued_into, values_of};
ghost use Rattle.commands_range.specs.inner.Works.{HasActedOn};
ghost use Rattle.formula_parts.specs.Outlook.{row_cells};
ghost use Rattle.grid_address.specs.Place.{height_of, width_of};
ghost use Rattle.sheet_edits.specs.Spans.{block_at};
ghost use Rattle.work_sheet.specs.Seen.{of_worksheet};

use crate::work::Work;
use block_writes::{column_at, value_copied};
use command_desk::{CommandEnd, cell_at, settled, span_at};
use desk_errors::CommandError;
use grid_address::{COLUMNS, Cell, ROWS, Span};
use lics_text::Memory;
use session_rooms::Answers;
use sheet_store::Writes;
use work_sheet::Worksheet;

/// How the values of a span are laid out where they are written.
#[derive(Clone, Copy)]
pub enum Layout {
    /// As they stand.
    Straight,
    /// Rows and columns are exchanged.
    Turned,
}

// A copy of values: how they are laid out, the span that they come from, and the span that they go to.
#[derive(Clone, Copy)]
struct ValueCopy {
    layout: Layout,
    from: Span,
    target: Span,
}

// So many rows and columns from a cell on, where they lie in the sheet.
fn block_at(first: Cell, rows: u16, cols: u16) -> Option<Span>
    requires { (1 ≤ rows) × (1 ≤ cols) }
    ensures block { result ≡ block_at first rows cols }
    ensures size { IfSome result (λ span. (height_of span ≡ rows) × (width_of span ≡ cols)) }
{
    if rows > ROWS - first.row || cols > COLUMNS - u16::from(first.col) {
        return None;
    }
    let last = Cell {
        row: first.row + (rows - 1),
        col: (u16::from(first.col) + (cols - 1)) as u8,
    };
    Some(Span { first, last })
}

// The span that is written from a cell on, where it lies in the sheet.
fn target_of(layout: Layout, from: Span, to: Cell) -> Option<Span>
    ensures target { result ≡ target_of layout from to }
    ensures size { IfSome result
        (λ span. (height_of span ≡ rows_in layout from) × (width_of span ≡ cols_in layout from)) }
{
    match layout {
        Layout::Straight => block_at(to, from.height(), from.width()),
        Layout::Turned => block_at(to, from.width(), from.height()),
    }
}

// The cell so many rows and columns from the first of a span.
fn inside(span: Span, down: u16, across: u16) -> Cell
    requires down { down < height_of span }
    requires across { across < width_of span }
    ensures { result ≡ inside span down across }
{
    Cell {
        row: span.first.row + down,
        col: column_at(span, across),
    }
}

// Whose value is written so many rows and columns from the first written cell.
fn source_at(layout: Layout, from: Span, down: u16, across: u16) -> Cell
    requires down { down < rows_in layout from }
    requires across { across < cols_in layout from }
    ensures { result ≡ source_at layout from down across }
{
    match layout {
        Layout::Straight => inside(from, down, across),
        Layout::Turned => inside(from, across, down),
    }
}

// Adds what is written so many rows and columns from the first cell of the written span.
fn push_value(
    writes: &mut Writes,
    sheet: &Worksheet,
    copy: &ValueCopy,
    down: u16,
    across: u16,
) -> Result<(), Memory>
    requires down { (down < height_of copy.now.target) × (down < rows_in copy.now.layout copy.now.from) }
    requires across { (across < width_of copy.now.target) × (across < cols_in copy.now.layout copy.now.from) }
    ensures { let sight = sight_in (of_worksheet sheet.now) in OnOk result (writes.new
        ≡ writes.old ++ value_of copy.now sight (inside copy.now.target down across) ∷ []) }
{
    let source = source_at(copy.layout, copy.from, down, across);
    let to = inside(copy.target, down, across);
    let write = value_copied(sheet.alloc(), sheet, source, to)?;
    writes.push(write)
}

// Adds what is written into a row of the written span, counted from its first.
fn push_row(
    writes: &mut Writes,
    sheet: &Worksheet,
    copy: &ValueCopy,
    down: u16,
) -> Result<(), Memory>
    requires down { (down < height_of copy.now.target) × (down < rows_in copy.now.layout copy.now.from) }
    requires width { width_of copy.now.target ≡ cols_in copy.now.layout copy.now.from }
    ensures { let sight = sight_in (of_worksheet sheet.now) in let first = copy.now.target.first in
        let cells = row_cells (first.row + down) first.col (width_of copy.now.target) in
        OnOk result (writes.new ≡ writes.old ++ map (value_of copy.now sight) cells) }
{
    let width = copy.target.width();
    for across in 0..width {
        push_value(writes, sheet, copy, down, across)?;
    }
    Ok(())
}

// What is written into the span, in row order.
fn values_of(sheet: &Worksheet, copy: &ValueCopy) -> Result<Writes, Memory>
    requires height { height_of copy.now.target ≡ rows_in copy.now.layout copy.now.from }
    requires width { width_of copy.now.target ≡ cols_in copy.now.layout copy.now.from }
    ensures { let sight = sight_in (of_worksheet sheet.now) in
        IfOk result (λ writes. writes ≡ values_of copy.now sight) }
{
    let mut writes = Writes::new(sheet.alloc());
    let height = copy.target.height();
    for down in 0..height {
        push_row(&mut writes, sheet, copy, down)?;
    }
    Ok(writes)
}

// The values are written into the span.
fn valued_into(copy: &ValueCopy, work: &mut Work<'_>) -> Result<CommandEnd, Memory>
    requires height { height_of copy.now.target ≡ rows_in copy.now.layout copy.now.from }
    requires width { width_of copy.now.target ≡ cols_in copy.now.layout copy.now.from }
    ensures { IfOk result (HasActedOn (valued_into copy.now) work.old work.new) }
{
    let writes = values_of(work.sheet, copy)?;
    let answer = work.sheet.write(&writes);
    settled(answer, work.sheet, work.scene, work.tally)
}

// The values of a span are written from a cell on.
fn valued_from(
    layout: Layout,
    from: Span,
    to: Cell,
    work: &mut Work<'_>,
) -> Result<CommandEnd, Memory>
    ensures { IfOk result (HasActedOn (valued_from layout from to) work.old work.new) }
{
    match target_of(layout, from, to) {
        Some(target) => {
            let copy = ValueCopy {
                layout,
                from,
                target,
            };
            valued_into(&copy, work)
        }
        None => Ok(CommandEnd::Refused(CommandError::OutOfSheet(from))),
    }
}

/// Writes the values and the formats of the span that the first answer is, laid out from the cell that the second one
/// is: a text is a label with `'`, ERR is `@ERR` and NA is `@NA`. It is refused by the errors of `span_at` for the
/// first answer and then for the second; by `OutOfSheet` with the source, where the written span would leave the sheet;
/// and by `Protected`.
pub fn valued(layout: Layout, answers: &Answers, work: &mut Work<'_>) -> Result<CommandEnd, Memory>
    ensures { IfOk result (HasActedOn (λ scene s. valued answers.now scene s layout) work.old work.new) }
{
    match span_at(work.sheet.names(), answers, 0) {
        Ok(from) => match cell_at(work.sheet.names(), answers, 1) {
            Ok(to) => valued_from(layout, from, to, work),
            Err(error) => Ok(CommandEnd::Refused(error)),
        },
        Err(error) => Ok(CommandEnd::Refused(error)),
    }
}
