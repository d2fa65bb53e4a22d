// What a key does to a macro that waits.
ghost use Rattle.std.specs.Prelude.{◌≡◌, ◌≤◌, length, IfOk};
ghost use Rattle.macro_words.specs.Sources.{outlook_from};
ghost use Rattle.lics_text.specs.Bytes.{IsText};
ghost use Rattle.macro_words.specs.Keys as spec;

use crate::asking::awaits;
use crate::items::{beside, chosen_by};
use crate::rows::{below, calls_at, moves};
use crate::values::{puts_text, puts_value};
use crate::{KeptQuestion, MacroMenu, Move, Question, Row, Running, Source, Waiting, Wanted};
use formula_parts::Look;
use formula_tree::Value;
use grid_address::Cell;
use item_ring::highlighted;
use key_words::{Key, Letter};
use lics_text::{Line, MAX_LEN, Memory};
use macro_text::expression_value;
use std::alloc::Global;

// A line of these bytes.
fn line_of(bytes: &[u8]) -> Line
    requires { length bytes.now ≤ MAX_LEN }
    ensures line { result ≡ bytes.now }
    ensures text { IsText bytes.now → IsText result }
{
    let mut line = Line::new();
    line.put_all(bytes);
    line
}

// Alt with its letter.
fn alt_text(letter: Letter) -> Line
    ensures line { result ≡ spec.key_text (Key.Alt letter) }
    ensures text { IsText result }
{
    let mut line = Line::new();
    line.put_all(b"{ALT ");
    line.put_all(&[letter.get()]);
    line.put_all(b"}");
    line
}

// A byte and Enter as they stand in a macro's text, and any other key by its name in braces.
fn key_text(key: Key) -> Line
    ensures line { result ≡ spec.key_text key }
    ensures text { IsText result }
{
    match key {
        Key::Byte(byte) => line_of(&[byte.get()]),
        Key::Enter => line_of(b"~"),
        Key::Up => line_of(b"{UP}"),
        Key::Down => line_of(b"{DOWN}"),
        Key::Left => line_of(b"{LEFT}"),
        Key::Right => line_of(b"{RIGHT}"),
        Key::Home => line_of(b"{HOME}"),
        Key::End => line_of(b"{END}"),
        Key::PgUp => line_of(b"{PGUP}"),
        Key::PgDn => line_of(b"{PGDN}"),
        Key::BigLeft => line_of(b"{BIGLEFT}"),
        Key::BigRight => line_of(b"{BIGRIGHT}"),
        Key::Esc => line_of(b"{ESC}"),
        Key::Bs => line_of(b"{BS}"),
        Key::Del => line_of(b"{DEL}"),
        Key::Edit => line_of(b"{EDIT}"),
        Key::Name => line_of(b"{NAME}"),
        Key::Abs => line_of(b"{ABS}"),
        Key::Goto => line_of(b"{GOTO}"),
        Key::Window => line_of(b"{WINDOW}"),
        Key::Query => line_of(b"{QUERY}"),
        Key::Table => line_of(b"{TABLE}"),
        Key::Calc => line_of(b"{CALC}"),
        Key::Graph => line_of(b"{GRAPH}"),
        Key::Break => line_of(b"{BREAK}"),
        Key::Undo => line_of(b"{UNDO}"),
        Key::Alt(letter) => alt_text(letter),
    }
}

// GET: the key's text is put into the cell.
fn one_key_row(alloc: Global, cell: Cell, key: Key) -> Result<Row, Memory>
    ensures { IfOk result (λ r. r ≡ spec.one_key_row cell key) }
{
    let text = key_text(key);
    puts_text(alloc, cell, text.bytes(), Move::Stay)
}

// The number that a value is, and else ERR.
fn number_or_err(value: &Option<Value>) -> Value
    ensures { result ≡ spec.number_or_err value.now }
{
    match value {
        Some(Value::Num(number)) => Value::Num(*number),
        Some(Value::Blank) => Value::Err,
        Some(Value::Str(_)) => Value::Err,
        Some(Value::Err) => Value::Err,
        Some(Value::Na) => Value::Err,
        None => Value::Err,
    }
}

// A line is finished, and put into its cell.
fn finished_row<K: Look>(from: &Source<'_, K>, at: Cell, question: &Question) -> Result<Row, Memory>
    ensures { IfOk result (λ r. r ≡ spec.line_row (outlook_from K.Look from.now) at question.now Key.Enter) }
{
    let text = question.line.text();
    match question.wanted {
        Wanted::Label => puts_text(from.alloc, question.target, text, Move::Stay),
        Wanted::Number => {
            let value = expression_value(from.alloc, text, at, from.look, from.scene)?;
            puts_value(
                from.alloc,
                question.target,
                &number_or_err(&value),
                Move::Stay,
            )
        }
    }
}

// GETLABEL and GETNUMBER.
fn line_row<K: Look>(
    from: &Source<'_, K>,
    at: Cell,
    mut question: KeptQuestion,
    key: Key,
) -> Result<Row, Memory>
    ensures { IfOk result (λ r. r ≡ spec.line_row (outlook_from K.Look from.now) at question key) }
{
    match key {
        Key::Enter => finished_row(from, at, question.question()),
        _ => {
            question.press(key);
            Ok(awaits(Waiting::Line(question)))
        }
    }
}

// An item is chosen.
fn choice_row(running: &Running, menu: &MacroMenu, place: usize) -> Row
    ensures { result ≡ spec.choice_row running.now menu.now place }
{
    let spot = below(2, beside(place, menu.first));
    match menu.caller {
        Some(word) => calls_at(running, &word, spot),
        None => moves(Move::Go(spot)),
    }
}

// An item is highlighted.
fn highlights(menu: &MacroMenu, highlight: usize) -> Row
    ensures { result ≡ spec.highlights menu.now highlight }
{
    awaits(Waiting::Item(MacroMenu {
        first: menu.first,
        count: menu.count,
        highlight,
        caller: menu.caller,
    }))
}

// MENUBRANCH and MENUCALL.
fn item_row<K: Look>(from: &Source<'_, K>, running: &Running, menu: &MacroMenu, key: Key) -> Row
    ensures { result ≡ spec.item_row (outlook_from K.Look from.now) running.now menu.now key }
{
    match key {
        Key::Enter => choice_row(running, menu, menu.highlight),
        Key::Byte(byte) => match chosen_by(from.look, menu, byte.get()) {
            Some(place) => choice_row(running, menu, place),
            None => highlights(menu, menu.highlight),
        },
        Key::Esc => moves(Move::Stay),
        _ => highlights(menu, highlighted(&key, menu.count, menu.highlight)),
    }
}

// ?
fn enter_row(key: Key) -> Row
    ensures { result ≡ spec.enter_row key }
{
    match key {
        Key::Enter => moves(Move::Stay),
        _ => awaits(Waiting::Enter),
    }
}

// What a key does, by what the macro waits for.
fn waiting_row<K: Look>(
    from: &Source<'_, K>,
    running: &Running,
    waiting: Waiting,
    key: Key,
) -> Result<Row, Memory>
    ensures { IfOk result (λ r. r ≡ spec.waiting_row (outlook_from K.Look from.now) running.now waiting key) }
{
    match waiting {
        Waiting::Nothing => Ok(awaits(Waiting::Nothing)),
        Waiting::Time(number) => Ok(awaits(Waiting::Time(number))),
        Waiting::OneKey(cell) => one_key_row(from.alloc, cell, key),
        Waiting::Line(question) => {
            let at = running.position.spot.cell;
            line_row(from, at, question, key)
        }
        Waiting::Item(menu) => Ok(item_row(from, running, &menu, key)),
        Waiting::Enter => Ok(enter_row(key)),
    }
}

/// What a key does to a macro that waited for this and, as it is given, waits no more: the row waits again where the
/// key doesn't end the waiting. GET puts the key's text into its cell, as it stands in a macro's text. A line is typed
/// as in EDIT; Enter puts it as a label with `'`, or its value, and `@ERR` where that is no number. In a menu Enter
/// chooses the highlighted item, a byte the first that begins with it in either case, and ESC none; a choice goes to
/// the cell two below its item, or calls that, where a call inside 31 others is a fault. `?` ends with Enter. BREAK
/// and UNDO are passed over. (Release 2 manual; that keys which would leave a line are passed over is this project's
/// choice.)
#[tactic(auto, unfolding(crate::specs::Keys::key_row))]
pub fn key_row<K: Look>(
    from: &Source<'_, K>,
    running: &Running,
    waiting: Waiting,
    key: Key,
) -> Result<Row, Memory>
    ensures { IfOk result (λ r. r ≡ spec.key_row (outlook_from K.Look from.now) running.now waiting key) }
{
    match key {
        Key::Break | Key::Undo => Ok(awaits(waiting)),
        _ => waiting_row(from, running, waiting, key),
    }
}
