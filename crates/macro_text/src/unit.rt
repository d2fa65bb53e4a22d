// The next unit of a macro.
ghost use Rattle.std.specs.Prelude.{◌≡◌, ◌+◌, IfOk, IfSome, Some};
ghost use Rattle.formula_parts.specs.Scenes.{outlook_of};
ghost use Rattle.formula_text.specs.Words.{named_span};
ghost use Rattle.key_words.specs.MacroText.{unit_at};
ghost use Rattle.key_words.specs.declared.macro_word.MacroWord.TheVariants as words;
ghost use Rattle.lics_text.specs.Bytes.{IsText};
ghost use Rattle.macro_text.specs.Texts.{macro_text};
ghost use Rattle.macro_text.specs.Units as spec;

use crate::expression::{count_of, number_of};
use crate::pieces::{macro_text, part};
use crate::{KeptWord, KeptWords, Position, Spot};
use fixed_value::Fixed;
use formula_parts::{Look, Scene};
use grid_address::{Cell, LAST_ROW};
use key_words::{Key, MacroWord, glanced_key};
use lics_text::{Memory, TextByte};
use range_names::Names;
use std::alloc::Global;

/// Why a macro stops with an error.
#[derive(Clone, Copy)]
pub enum MacroFault {
    /// No name is a backslash and the letter that was given with Alt.
    NoSuchMacro,
    /// A call, or a loop that calls, inside 31 others.
    TooDeep,
    /// A word that is neither a key nor a command nor a name of a range, or that isn't whole.
    UnknownWord,
    /// An argument that isn't of its kind, or a wrong number of arguments.
    BadArgument,
    /// A cell that should hold a text, or a label, and doesn't.
    NotText,
}

/// What a macro does next.
#[derive(Clone, Copy)]
pub enum Unit {
    /// It types a key.
    Key(Key),
    /// It carries out the command, or the call, whose word stands here.
    Command(Spot),
    /// It goes to the cell below.
    Down,
    /// It returns to its caller, or stops where it has none.
    Return,
    /// It stops with an error, by the word at its place.
    Fault(MacroFault),
}

// What a word comes to: a unit and the place behind it, or it is passed.
#[derive(Clone, Copy)]
enum WordOutcome {
    Now(Unit, Position),
    Passed(Position),
}

// At a place, with nothing typed.
fn at_spot(spot: Spot) -> Position
    ensures { result ≡ spec.at_spot spot }
{
    Position { spot, typed: 0 }
}

// Behind the word, which ends at this offset.
fn behind(end: usize, position: &Position) -> Position
    ensures { result ≡ spec.behind end position.now }
{
    at_spot(Spot {
        cell: position.spot.cell,
        offset: end,
    })
}

// The cell below, where there is one.
fn down(position: &Position) -> WordOutcome
    ensures { result ≡ spec.now (spec.down position.now) }
{
    let Cell { row, col } = position.spot.cell;
    if row < LAST_ROW {
        let below = Spot {
            cell: Cell { row: row + 1, col },
            offset: 0,
        };
        WordOutcome::Now(Unit::Down, at_spot(below))
    } else {
        WordOutcome::Now(Unit::Return, *position)
    }
}

// A word that is none.
fn unknown(position: &Position) -> WordOutcome
    ensures { result ≡ spec.now (spec.unknown position.now) }
{
    WordOutcome::Now(Unit::Fault(MacroFault::UnknownWord), *position)
}

// A command, or a call.
fn carried(end: usize, position: &Position) -> WordOutcome
    ensures { result ≡ spec.now (spec.carried end position.now) }
{
    WordOutcome::Now(Unit::Command(position.spot), behind(end, position))
}

// A call of a name, where there is such a name.
fn call_outcome(names: &Names, name: &[u8], end: usize, position: &Position) -> WordOutcome
    ensures { result ≡ spec.now (spec.call_unit (named_span names.now name.now) end position.now) }
{
    match names.find(name) {
        Some(_) => carried(end, position),
        None => unknown(position),
    }
}

// Whether a key was typed less often than it is to be.
fn is_left(count: Option<u32>, typed: u32) -> bool
    ensures { result ≡ spec.is_left count typed }
{
    match count {
        Some(count) => typed < count,
        None => false,
    }
}

// A repeated key, once more or passed.
fn repeated_outcome(key: Key, number: Option<Fixed>, end: usize, position: &Position) -> WordOutcome
    ensures { result ≡ spec.repeated_outcome key number end position.now }
{
    let Some(number) = number else {
        return WordOutcome::Now(Unit::Fault(MacroFault::BadArgument), *position);
    };
    if is_left(count_of(number), position.typed) {
        let next = Position {
            spot: position.spot,
            typed: position.typed + 1,
        };
        WordOutcome::Now(Unit::Key(key), next)
    } else {
        WordOutcome::Passed(behind(end, position))
    }
}

// A word of a text, which is kept.
#[derive(Clone, Copy)]
struct ReadWord<'a> {
    text: &'a [u8],
    kept: &'a KeptWord,
}

// What a word comes to.
fn word_outcome<K: Look>(
    alloc: Global,
    look: &K,
    scene: &Scene,
    position: &Position,
    read: &ReadWord<'_>,
) -> Result<WordOutcome, Memory>
    ensures { let outlook = outlook_of (K.sight look.now) scene.entry.now in let word = read.now.kept.now in
        IfOk result (λ t. t ≡ spec.word_outcome outlook read.now.text.now word.word word.end position.now) }
{
    let end = read.kept.end;
    match read.kept.word {
        MacroWord::Key(key) => Ok(WordOutcome::Now(Unit::Key(key), behind(end, position))),
        MacroWord::Repeated(key, cut) => {
            let number = number_of(alloc, part(read.text, cut), position.spot.cell, look, scene)?;
            Ok(repeated_outcome(key, number, end, position))
        }
        MacroWord::Command(_, _) => Ok(carried(end, position)),
        MacroWord::Call(name, _) => {
            let name = part(read.text, name);
            Ok(call_outcome(look.names(), name, end, position))
        }
        MacroWord::PlaceCall(_) => Ok(carried(end, position)),
        MacroWord::End => Ok(down(position)),
        MacroWord::Bad => Ok(unknown(position)),
    }
}

// The key that the byte at an offset is by itself. None is told of a byte with which a longer word may begin.
fn plain_key(text: &[u8], offset: usize) -> Option<Key>
    ensures { IfSome result (λ k. unit_at text.now offset ≡ (words.Key k, offset + 1)) }
{
    if offset >= text.len() {
        return None;
    }
    match text[offset] {
        b'{' | b'}' | b'/' => None,
        b'~' => Some(Key::Enter),
        byte => match TextByte::of(byte) {
            Some(typed) => Some(Key::Byte(typed)),
            None => None,
        },
    }
}

// What the word at a place comes to, by the text as it now stands.
#[tactic(auto, unfolding(crate::specs::Units::outcome_at))]
fn outcome_at<K: Look>(
    alloc: Global,
    look: &K,
    scene: &Scene,
    kept: &mut KeptWords,
    position: &Position,
) -> Result<WordOutcome, Memory>
    ensures outcome { let outlook = outlook_of (K.sight look.now) scene.entry.now in
        IfOk result (λ t. t ≡ spec.outcome_at outlook position.now) }
    ensures kept { let sight = K.sight look.now in
        IfOk result (λ t. IfSome (spec.command_in t) (λ at. macro_text sight at.cell ≡ Some kept.new)) }
{
    let Some(text) = macro_text(look, position.spot.cell) else {
        return Ok(WordOutcome::Now(Unit::Return, *position));
    };
    let bytes = text.bytes();
    let Spot { cell, offset } = position.spot;
    if offset >= bytes.len() {
        return Ok(down(position));
    }
    if let Some(key) = plain_key(bytes, offset) {
        return Ok(WordOutcome::Now(Unit::Key(key), behind(offset + 1, position)));
    }
    if !kept.may_hold(offset) {
        if let Some((key, end)) = glanced_key(bytes, offset) {
            return Ok(WordOutcome::Now(Unit::Key(key), behind(end, position)));
        }
    }
    if !kept.come_to(alloc, bytes, offset, cell)? {
        if let Some((key, end)) = kept.read_at(alloc, bytes, offset, cell)? {
            return Ok(WordOutcome::Now(Unit::Key(key), behind(end, position)));
        }
    }
    let Some(word) = kept.kept_at(offset) else {
        return Err(Memory);
    };
    let read = ReadWord {
        text: bytes,
        kept: word,
    };
    word_outcome(alloc, look, scene, position, &read)
}

// A text has at most 240 words, and an end.
const MOST_WORDS: u32 = 241;

/// The next unit of a macro, by the text as it now stands, and where the macro goes on: behind a key, a command or a
/// call, and at the beginning of the cell below. A repeated key is typed once; its number is read anew each time, and
/// where it was typed as often as it is to be, the word behind it tells the unit. At a return and at a fault the
/// place stays. Words that were kept of a text are used for that text alone, and behind a command or a call they are
/// those of its text. (Release 2 manual for the words; that the text is read anew for each unit is this project's
/// choice.)
pub fn next_unit<K: Look>(
    alloc: Global,
    look: &K,
    scene: &Scene,
    kept: &mut KeptWords,
    position: &Position,
) -> Result<(Unit, Position), Memory>
    ensures unit { let outlook = outlook_of (K.sight look.now) scene.entry.now in
        IfOk result (λ n. n ≡ spec.next_unit outlook position.now) }
    ensures kept { let sight = K.sight look.now in
        IfOk result (λ n. IfSome (spec.command_of n.0) (λ at. macro_text sight at.cell ≡ Some kept.new)) }
{
    let mut place = *position;
    for turn in 0..MOST_WORDS {
        let _ = turn;
        match outcome_at(alloc, look, scene, kept, &place)? {
            WordOutcome::Now(unit, next) => return Ok((unit, next)),
            WordOutcome::Passed(next) => place = next,
        }
    }
    Ok((Unit::Return, place))
}
