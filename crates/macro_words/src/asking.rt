// Words that wait, and the text in the mode's place.
ghost use Rattle.std.specs.Prelude.{◌≡◌, [], IfOk};
ghost use Rattle.macro_words.specs.Sources.{outlook_from};
ghost use Rattle.lics_text.specs.Bytes.{IsText};
ghost use Rattle.formula_tree.specs.declared.value.Value.TheVariants as value;
ghost use Rattle.macro_words.specs.Items.{items_at};
ghost use Rattle.macro_words.specs.Rows as spec;
ghost use Rattle.macro_words.specs.Values as values;
ghost use Rattle.macro_words.specs.declared.running.Move.TheVariants as move;
ghost use Rattle.macro_words.specs.declared.waiting.Waiting.TheVariants as waiting;
ghost use Rattle.value_functions.specs.Values.{text_in};

use crate::items::items_at;
use crate::rows::{bad, moves};
use crate::values::{ReadText, let_value, puts_text};
use crate::{
    KeptQuestion, MacroMenu, Move, Question, Row, Running, Source, Switches, Waiting, Wanted,
};
use entry_line::EntryLine;
use fixed_value::Fixed;
use formula_parts::Look;
use formula_tree::{Function, Value};
use grid_address::Cell;
use key_words::Command;
use lics_text::{Memory, Text};
use macro_text::{MacroFault, Spot, TextList, number_of, place_of};
use value_functions::constant_value;

/// The macro waits for this.
pub fn awaits(waiting: Waiting) -> Row
    ensures { result ≡ spec.awaits waiting }
{
    moves(Move::Wait(waiting))
}

// The text that a value is.
fn text_of(value: Value) -> Option<Text>
    ensures { result ≡ text_in value }
{
    match value {
        Value::Str(text) => Some(text),
        Value::Blank => None,
        Value::Num(_) => None,
        Value::Err => None,
        Value::Na => None,
    }
}

/// A text, as LET takes one; none where the argument's value is none.
pub fn text_given<K: Look>(
    from: &Source<'_, K>,
    at: Cell,
    text: &[u8],
) -> Result<Option<Text>, Memory>
    requires { IsText text.now }
    ensures { IfOk result (λ t. t ≡ text_in (values.let_value (outlook_from K.Look from.now) at text.now)) }
{
    let read = ReadText {
        at,
        text,
        formula: None,
    };
    let value = let_value(from, &read)?;
    Ok(text_of(value))
}

/// GET: the macro waits for a key, which is put into a cell as a macro spells it.
pub fn get_row<K: Look>(from: &Source<'_, K>, args: &TextList) -> Row
    ensures { result ≡ spec.on_place (outlook_from K.Look from.now) (spec.arg args.now 0)
        (λ c. spec.awaits (waiting.OneKey c)) }
{
    match place_of(from.look.names(), args.get(0)) {
        Some(cell) => awaits(Waiting::OneKey(cell)),
        None => bad(),
    }
}

/// GETLABEL and GETNUMBER: the macro shows a prompt and waits for a line, which is put into a cell.
pub fn question_row<K: Look>(
    from: &Source<'_, K>,
    at: &Spot,
    wanted: Wanted,
    args: &TextList,
) -> Result<Row, Memory>
    ensures { IfOk result (λ r. r ≡ spec.question_row (outlook_from K.Look from.now) at.now wanted args.now) }
{
    let Some(prompt) = text_given(from, at.cell, args.get(0))? else {
        return Ok(bad());
    };
    match place_of(from.look.names(), args.get(1)) {
        Some(target) => {
            let question = Question {
                prompt,
                line: EntryLine::new(b""),
                target,
                wanted,
            };
            Ok(awaits(Waiting::Line(KeptQuestion::new(from.alloc, question)?)))
        }
        None => {
            drop(prompt);
            Ok(bad())
        }
    }
}

/// LOOK: an empty label is put into a cell, since no key waits before it is asked for (this project's choice).
pub fn look_row<K: Look>(from: &Source<'_, K>, args: &TextList) -> Result<Row, Memory>
    ensures { let outlook = outlook_from K.Look from.now in
        IfOk result (λ r. r ≡ spec.on_place outlook (spec.arg args.now 0)
        (λ c. spec.puts_value c (value.Str []) move.Stay)) }
{
    match place_of(from.look.names(), args.get(0)) {
        Some(cell) => puts_text(from.alloc, cell, b"", Move::Stay),
        None => Ok(bad()),
    }
}

// A menu of so many items.
fn offers(first: Cell, count: usize, caller: Option<Spot>) -> Row
    ensures { result ≡ spec.offers first count caller }
{
    if count == 0 {
        return Err(MacroFault::NotText);
    }
    awaits(Waiting::Item(MacroMenu {
        first,
        count,
        highlight: 0,
        caller,
    }))
}

/// MENUBRANCH: the macro waits for the choice of an item, and goes on there; with the place of its word it is MENUCALL,
/// which calls what is chosen. A fault comes where no label stands in the first cell.
pub fn menu_row<K: Look>(from: &Source<'_, K>, caller: Option<Spot>, args: &TextList) -> Row
    ensures { let outlook = outlook_from K.Look from.now in
        result ≡ spec.on_place outlook (spec.arg args.now 0)
        (λ c. spec.offers c (items_at outlook.sight c) caller) }
{
    match place_of(from.look.names(), args.get(0)) {
        Some(first) => offers(first, items_at(from.look, first), caller),
        None => bad(),
    }
}

// Whether a number is below another.
fn is_before(value: &Value, bound: Fixed) -> bool
    ensures { result ≡ spec.is_before value.now bound }
{
    match value {
        Value::Num(number) => number.millionths() < bound.millionths(),
        Value::Blank => false,
        Value::Str(_) => false,
        Value::Err => false,
        Value::Na => false,
    }
}

// The number of the word that is waited at.
fn number_kept(waiting: &Waiting) -> Option<Fixed>
    ensures { result ≡ spec.number_kept waiting.now }
{
    match waiting {
        Waiting::Time(number) => Some(*number),
        _ => None,
    }
}

// The number, read at the word's first step.
fn kept_or_read<K: Look>(
    from: &Source<'_, K>,
    at: &Spot,
    args: &TextList,
    kept: Option<Fixed>,
) -> Result<Option<Fixed>, Memory>
    ensures { IfOk result (λ n. n ≡ spec.kept_or_read (outlook_from K.Look from.now) at.now args.now kept) }
{
    match kept {
        Some(number) => Ok(Some(number)),
        None => number_of(from.alloc, args.get(0), at.cell, from.look, from.scene),
    }
}

/// WAIT: the macro stays at its word while the moment is before a number, which is read at the first step and kept.
/// Where the clock has no day, it goes on.
pub fn wait_row<K: Look>(
    from: &Source<'_, K>,
    running: &Running,
    at: &Spot,
    args: &TextList,
) -> Result<Row, Memory>
    ensures { let outlook = outlook_from K.Look from.now in
        let kept = spec.number_kept running.now.waiting in
        IfOk result (λ r. r ≡ spec.on_some (spec.kept_or_read outlook at.now args.now kept)
        (spec.pauses outlook running.now at.now)) }
{
    let kept = number_kept(&running.waiting);
    let Some(number) = kept_or_read(from, at, args, kept)? else {
        return Ok(bad());
    };
    if is_before(&constant_value(Function::Now, from.scene.now), number) {
        Ok(moves(Move::Pause(*at, number)))
    } else {
        Ok(moves(Move::Go(running.position.spot)))
    }
}

/// INDICATE: a text is shown in the mode's place, or without an argument the mode again.
pub fn indicate_row<K: Look>(
    from: &Source<'_, K>,
    at: &Spot,
    args: &TextList,
) -> Result<Row, Memory>
    ensures { IfOk result (λ r. r ≡ spec.indicate_row (outlook_from K.Look from.now) at.now args.now) }
{
    if args.len() == 0 {
        return Ok(moves(Move::Indicate(Text::copy_of(from.alloc, b"")?)));
    }
    match text_given(from, at.cell, args.get(0))? {
        Some(text) => Ok(moves(Move::Indicate(text))),
        None => Ok(bad()),
    }
}

// What is on behind a word that switches.
fn switches_by(command: Command, switches: Switches) -> Switches
    ensures { result ≡ spec.switches_by command switches }
{
    let Switches {
        panel,
        windows,
        breaks,
    } = switches;
    let (panel, windows, breaks) = match command {
        Command::PanelOn => (true, windows, breaks),
        Command::PanelOff => (false, windows, breaks),
        Command::WindowsOn => (panel, true, breaks),
        Command::WindowsOff => (panel, false, breaks),
        Command::BreakOn => (panel, windows, true),
        Command::BreakOff => (panel, windows, false),
        _ => (panel, windows, breaks),
    };
    Switches {
        panel,
        windows,
        breaks,
    }
}

/// PANELON, PANELOFF, WINDOWSON, WINDOWSOFF, BREAKON and BREAKOFF: what is switched is on or off from then on, as
/// long as the macro runs.
pub fn switch_row(running: &Running, command: Command) -> Row
    ensures { result ≡ spec.moves (move.Switch (spec.switches_by command running.now.switches)) }
{
    moves(Move::Switch(switches_by(command, running.switches)))
}
