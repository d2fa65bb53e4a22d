// Words that write, erase or recalculate cells.
ghost use Rattle.std.specs.Prelude.{◌≡◌, option_and_then, IfOk, Ok};
ghost use Rattle.macro_words.specs.Sources.{outlook_from};
ghost use Rattle.macro_words.specs.Rows as spec;
ghost use Rattle.macro_words.specs.Values as values;
ghost use Rattle.macro_words.specs.declared.running.Change.TheVariants as change;
ghost use Rattle.macro_words.specs.declared.running.Move.TheVariants as move;
ghost use Rattle.macro_text.specs.Arguments as arguments;
ghost use Rattle.at_functions.specs.Numbers.{count_of};

use crate::rows::bad;
use crate::shown::shown_cell;
use crate::values::{ReadText, let_value, puts_one, value_write};
use crate::{Change, Deed, Move, Row, Source, Sweep};
use fixed_value::Fixed;
use formula_parts::Look;
use formula_tree::{Content, Formula};
use grid_address::{Cell, Format, Span};
use lics_text::{LabelPrefix, Memory};
use macro_text::{
    ReadArguments, Spot, TextList, count_of, formula_in, number_of, place_of, range_of,
};
use sheet_store::MOST_WIDTH;

/// LET.
pub fn let_row<K: Look>(
    from: &Source<'_, K>,
    at: &Spot,
    given: &ReadArguments,
) -> Result<Row, Memory>
    ensures { let outlook = outlook_from K.Look from.now in
        IfOk result (λ r. r ≡ spec.on_place outlook (spec.arg given.now 0)
        (λ c. spec.puts_value c (values.let_value outlook at.now.cell (spec.arg given.now 1)) move.Stay)) }
{
    let Some(cell) = given.place(0, from.look.names()) else {
        return Ok(bad());
    };
    let read = ReadText {
        at: at.cell,
        text: given.list().get(1),
        formula: given.formula(1, at.cell),
    };
    let value = let_value(from, &read)?;
    let writes = value_write(from.alloc, cell, &value)?;
    Ok(Ok(Deed {
        change: Change::Write(writes),
        after: Move::Stay,
    }))
}

// The whole number that a number tells, cut toward zero; none below 0.
fn count_in(number: Option<Fixed>) -> Option<u32>
    ensures { result ≡ option_and_then count_of number }
{
    match number {
        Some(number) => count_of(number),
        None => None,
    }
}

/// A whole number that isn't below 0.
pub fn count_given<K: Look>(
    from: &Source<'_, K>,
    at: Cell,
    text: &[u8],
) -> Result<Option<u32>, Memory>
    ensures { let outlook = outlook_from K.Look from.now in
        IfOk result (λ n. n ≡ option_and_then count_of (arguments.number_of outlook at text.now)) }
{
    let number = number_of(from.alloc, text, at, from.look, from.scene)?;
    Ok(count_in(number))
}

// A cell of a range by its column and row.
fn cell_in(span: Span, col: u32, row: u32) -> Option<Cell>
    ensures { result ≡ spec.cell_in span col row }
{
    if col < u32::from(span.width()) && row < u32::from(span.height()) {
        Some(Cell {
            row: span.first.row + row as u16,
            col: (u32::from(span.first.col) + col) as u8,
        })
    } else {
        None
    }
}

/// PUT.
pub fn put_row<K: Look>(
    from: &Source<'_, K>,
    at: &Spot,
    given: &ReadArguments,
) -> Result<Row, Memory>
    ensures { IfOk result (λ r. r ≡ spec.put_row (outlook_from K.Look from.now) at.now given.now) }
{
    let args = given.list();
    let Some(span) = range_of(from.look.names(), args.get(0)) else {
        return Ok(bad());
    };
    let Some(col) = count_given(from, at.cell, args.get(1))? else {
        return Ok(bad());
    };
    let Some(row) = count_given(from, at.cell, args.get(2))? else {
        return Ok(bad());
    };
    let Some(cell) = cell_in(span, col, row) else {
        return Ok(bad());
    };
    let read = ReadText {
        at: at.cell,
        text: args.get(3),
        formula: given.formula(3, at.cell),
    };
    let value = let_value(from, &read)?;
    let writes = value_write(from.alloc, cell, &value)?;
    Ok(Ok(Deed {
        change: Change::Write(writes),
        after: Move::Stay,
    }))
}

/// BLANK.
pub fn blank_row<K: Look>(from: &Source<'_, K>, args: &TextList) -> Row
    ensures { result ≡ spec.on_range (outlook_from K.Look from.now) (spec.arg args.now 0)
        (λ s. Ok (record { change = change.Erase s; after = move.Stay })) }
{
    match range_of(from.look.names(), args.get(0)) {
        Some(span) => Ok(Deed {
            change: Change::Erase(span),
            after: Move::Stay,
        }),
        None => bad(),
    }
}

/// A whole number within bounds.
pub fn within(low: u8, high: u8, count: Option<u32>) -> Option<u8>
    ensures { result ≡ spec.within low high count }
{
    match count {
        Some(count) => {
            if u32::from(low) <= count && count <= u32::from(high) {
                Some(count as u8)
            } else {
                None
            }
        }
        None => None,
    }
}

// A whole number that may be left out: its place among the arguments, its bounds, and what stands for it.
#[derive(Clone, Copy)]
struct Asked {
    place: usize,
    low: u8,
    high: u8,
    left_out: u8,
}

// An argument that may be left out: a whole number within bounds.
fn given_count<K: Look>(
    from: &Source<'_, K>,
    at: &Spot,
    args: &TextList,
    asked: Asked,
) -> Result<Option<u8>, Memory>
    ensures { let outlook = outlook_from K.Look from.now in
        IfOk result (λ n.
        n ≡ spec.given_count outlook at.now args.now asked.place asked.low asked.high asked.left_out) }
{
    if args.len() <= asked.place {
        return Ok(Some(asked.left_out));
    }
    let count = count_given(from, at.cell, args.get(asked.place))?;
    Ok(within(asked.low, asked.high, count))
}

// RECALC makes at most so many passes.
const MOST_PASSES: u8 = 50;

// CONTENTS' width: its third argument, or the column's.
fn asked_width<K: Look>(look: &K, cell: Cell) -> Asked
    ensures { let widths = (K.sight look.now).widths in
        result ≡ record { place = 2; low = 1; high = MOST_WIDTH; left_out = widths cell.col } }
{
    Asked {
        place: 2,
        low: 1,
        high: MOST_WIDTH,
        left_out: look.width(cell.col),
    }
}

// CONTENTS' format: its fourth argument, or the cell's.
fn asked_format<K: Look>(look: &K, cell: Cell) -> Asked
    ensures { let formats = (K.sight look.now).formats in
        result ≡ record { place = 3; low = 0; high = 255; left_out = formats cell } }
{
    Asked {
        place: 3,
        low: 0,
        high: 255,
        left_out: look.format(cell).0,
    }
}

/// CONTENTS; the sheet's format stands in for the default one.
pub fn contents_row<K: Look>(
    from: &Source<'_, K>,
    at: &Spot,
    args: &TextList,
) -> Result<Row, Memory>
    ensures { IfOk result
        (λ r. r ≡ spec.contents_row (outlook_from K.Look from.now) from.now.global.0 at.now args.now) }
{
    let Some(target) = place_of(from.look.names(), args.get(0)) else {
        return Ok(bad());
    };
    let Some(cell) = place_of(from.look.names(), args.get(1)) else {
        return Ok(bad());
    };
    let Some(width) = given_count(from, at, args, asked_width(from.look, cell))? else {
        return Ok(bad());
    };
    let Some(byte) = given_count(from, at, args, asked_format(from.look, cell))? else {
        return Ok(bad());
    };
    let text = shown_cell(
        from.alloc,
        from.look,
        from.global,
        cell,
        width.min(MOST_WIDTH),
        Format(byte),
    )?;
    puts_one(
        from.alloc,
        target,
        Content::Label(LabelPrefix::Left, text),
        Move::Stay,
    )
}

// The passes of a recalculation: the third argument, or one without a condition, and with one the most.
fn passes_given<K: Look>(
    from: &Source<'_, K>,
    at: &Spot,
    args: &TextList,
) -> Result<Option<u8>, Memory>
    ensures { let outlook = outlook_from K.Look from.now in
        IfOk result
        (λ n. n ≡ spec.given_count outlook at.now args.now 2 1 spec.most_passes (spec.passes_left_out args.now)) }
{
    let asked = Asked {
        place: 2,
        low: 1,
        high: MOST_PASSES,
        left_out: if args.len() <= 1 { 1 } else { MOST_PASSES },
    };
    given_count(from, at, args, asked)
}

// The formula of a condition, where one is given.
fn condition_given<K: Look>(
    from: &Source<'_, K>,
    at: &Spot,
    args: &TextList,
) -> Result<Option<Option<Formula>>, Memory>
    ensures { IfOk result (λ f. f ≡ spec.condition_in (outlook_from K.Look from.now) at.now args.now) }
{
    if args.len() <= 1 {
        return Ok(Some(None));
    }
    match formula_in(from.alloc, args.get(1), at.cell, from.look, from.scene)? {
        Some(formula) => Ok(Some(Some(formula))),
        None => Ok(None),
    }
}

/// RECALC, and RECALCCOL by columns.
pub fn recalc_row<K: Look>(
    from: &Source<'_, K>,
    at: &Spot,
    by_columns: bool,
    args: &TextList,
) -> Result<Row, Memory>
    ensures { IfOk result (λ r. r ≡ spec.recalc_row (outlook_from K.Look from.now) at.now by_columns args.now) }
{
    let Some(span) = range_of(from.look.names(), args.get(0)) else {
        return Ok(bad());
    };
    let Some(until) = condition_given(from, at, args)? else {
        return Ok(bad());
    };
    let Some(most) = passes_given(from, at, args)? else {
        return Ok(bad());
    };
    let sweep = Sweep {
        span,
        by_columns,
        until,
        at: at.cell,
        most,
    };
    Ok(Ok(Deed {
        change: Change::Recalculate(sweep),
        after: Move::Stay,
    }))
}
