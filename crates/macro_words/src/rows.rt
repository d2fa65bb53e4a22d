// Words that go, call and stop.
ghost use Rattle.std.specs.Prelude.{◌≡◌, IfOk};
ghost use Rattle.macro_words.specs.Sources.{outlook_from};
ghost use Rattle.macro_words.specs.Moves as moving;
ghost use Rattle.macro_words.specs.Rows as spec;
ghost use Rattle.value_functions.specs.Values.{text_in};

use crate::going::start_of;
use crate::{Change, Deed, Handler, Move, Row, Running, Source};
use formula_parts::Look;
use formula_tree::Value;
use grid_address::{Cell, LAST_ROW, ROWS, Span};
use lics_text::Memory;
use macro_text::{MacroFault, ReadArguments, Spot, TextList, place_of, read_value, text_in};

/// An argument isn't of its kind.
pub fn bad() -> Row
    ensures { result ≡ spec.bad }
{
    Err(MacroFault::BadArgument)
}

/// The sheet stays as it is.
pub fn moves(after: Move) -> Row
    ensures { result ≡ spec.moves after }
{
    Ok(Deed {
        change: Change::Nothing,
        after,
    })
}

// The macro goes on at a cell.
fn goes(cell: Cell) -> Row
    ensures { result ≡ spec.goes cell }
{
    moves(Move::Go(start_of(cell)))
}

/// BRANCH.
pub fn branch_row<K: Look>(from: &Source<'_, K>, given: &ReadArguments) -> Result<Row, Memory>
    ensures { IfOk result
        (λ r. r ≡ spec.on_place (outlook_from K.Look from.now) (spec.arg given.now 0) spec.goes) }
{
    match given.place(0, from.look.names()) {
        Some(cell) => Ok(goes(cell)),
        None => Ok(bad()),
    }
}

/// DISPATCH.
pub fn dispatch_row<K: Look>(from: &Source<'_, K>, args: &TextList) -> Row
    ensures { let outlook = outlook_from K.Look from.now in
        result ≡ spec.on_place outlook (spec.arg args.now 0)
        (λ c. spec.dispatched outlook (text_in (outlook.sight.values c))) }
{
    let Some(cell) = place_of(from.look.names(), args.get(0)) else {
        return bad();
    };
    let Some(text) = text_in(&from.look.value(cell)) else {
        return Err(MacroFault::NotText);
    };
    match place_of(from.look.names(), text.bytes()) {
        Some(cell) => goes(cell),
        None => bad(),
    }
}

// So many calls and loops may be inside one another.
const MOST_FRAMES: usize = 31;

/// Whether one call or loop more may be inside the others.
pub fn has_room(running: &Running) -> bool
    ensures { result ≡ spec.has_room running.now }
{
    running.frames.len() < MOST_FRAMES
}

/// A call of the routine at a place, by the word at another.
pub fn calls_at(running: &Running, at: &Spot, spot: Spot) -> Row
    ensures { result ≡ spec.calls_at running.now at.now spot }
{
    if has_room(running) {
        moves(Move::Call(*at, spot))
    } else {
        Err(MacroFault::TooDeep)
    }
}

/// A call of a cell's routine, by the word at a place.
pub fn calls(running: &Running, at: &Spot, cell: Cell) -> Row
    ensures { result ≡ spec.calls running.now at.now cell }
{
    calls_at(running, at, start_of(cell))
}

/// A call of a name.
pub fn call_row(running: &Running, at: &Spot, span: Option<Span>) -> Row
    ensures { result ≡ spec.on_some span (λ s. spec.calls running.now at.now s.first) }
{
    match span {
        Some(span) => calls(running, at, span.first),
        None => bad(),
    }
}

// Behind every text.
const BEHIND_ALL: usize = 240;

/// So many rows below a cell, or below the last row a place of its column at which the macro returns.
pub fn below(rows: u8, cell: Cell) -> Spot
    ensures { result ≡ moving.below rows cell }
{
    let row = cell.row + u16::from(rows);
    if row < ROWS {
        start_of(Cell { row, col: cell.col })
    } else {
        Spot {
            cell: Cell {
                row: LAST_ROW,
                col: cell.col,
            },
            offset: BEHIND_ALL,
        }
    }
}

/// Whether a value is a number other than 0.
pub fn is_true(value: &Value) -> bool
    ensures { result ≡ spec.is_true value.now }
{
    match value {
        Value::Num(number) => number.millionths() != 0,
        Value::Blank => false,
        Value::Str(_) => false,
        Value::Err => false,
        Value::Na => false,
    }
}

/// IF.
pub fn if_row<K: Look>(
    from: &Source<'_, K>,
    at: &Spot,
    given: &ReadArguments,
) -> Result<Row, Memory>
    ensures { IfOk result (λ r. r ≡ spec.if_row (outlook_from K.Look from.now) at.now given.now) }
{
    let text = given.list().get(0);
    let formula = given.formula(0, at.cell);
    let value = read_value(from.alloc, text, formula, at.cell, from.look, from.scene)?;
    match &value {
        None => Ok(bad()),
        Some(value) => {
            if is_true(value) {
                Ok(moves(Move::Stay))
            } else {
                Ok(moves(Move::Go(below(1, at.cell))))
            }
        }
    }
}

/// ONERROR.
pub fn onerror_row<K: Look>(from: &Source<'_, K>, args: &TextList) -> Row
    ensures { let outlook = outlook_from K.Look from.now in
        result ≡ spec.on_place outlook (spec.arg args.now 0) (spec.message_row outlook args.now) }
{
    let Some(place) = place_of(from.look.names(), args.get(0)) else {
        return bad();
    };
    if args.len() < 2 {
        return moves(Move::Handle(Handler {
            place,
            message: None,
        }));
    }
    match place_of(from.look.names(), args.get(1)) {
        Some(cell) => moves(Move::Handle(Handler {
            place,
            message: Some(cell),
        })),
        None => bad(),
    }
}
