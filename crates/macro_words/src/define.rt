// DEFINE, which reads the arguments of the present routine's call.
ghost use Rattle.std.specs.Prelude.{◌≡◌, ◌∷◌, [], length, IfOk, Some};
ghost use Rattle.macro_words.specs.Sources.{outlook_from};
ghost use Rattle.formula_tree.specs.declared.value.Value.TheVariants as value;
ghost use Rattle.lics_text.specs.Bytes.{IsText};
ghost use Rattle.macro_words.specs.Rows as spec;

use crate::rows::bad;
use crate::values::{AS_STRING, AS_VALUE, ends_in, text_value, without};
use crate::{Change, Deed, Frame, Move, Row, Running, Source};
use block_writes::{content_of_value, written};
use formula_parts::Look;
use formula_tree::Value;
use grid_address::Cell;
use key_words::{MacroWord, unit_at};
use lics_text::{Memory, Text};
use macro_text::{
    Spot, TextList, call_arguments, expression_value, macro_text, named_span, part, place_of,
};
use range_names::Names;
use sheet_store::{Write, Writes};
use std::alloc::Global;

// The word of the innermost call.
#[tactic(auto, using(crate::proofs::Defining::either_again))]
fn present_call(mut frames: &[Frame]) -> Option<Spot>
    ensures { result ≡ spec.present_call frames.entry.now }
{
    let mut found = None;
    while let [first, rest @ ..] = frames {
        if let Frame::Call(word, _) = first {
            found = Some(*word);
        }
        frames = rest;
    }
    found
}

// The arguments of a word that is a call of a name that there is.
fn given_in(
    alloc: Global,
    names: &Names,
    text: &[u8],
    word: MacroWord,
) -> Result<Option<TextList>, Memory>
    requires { IsText text.now }
    ensures { IfOk result (λ l. l ≡ spec.given_in names.now text.now word) }
{
    match word {
        MacroWord::Call(name, args) => match named_span(names, part(text, name)) {
            Some(_) => Ok(Some(call_arguments(alloc, text, name, args)?)),
            None => Ok(None),
        },
        MacroWord::Key(_) | MacroWord::Repeated(_, _) | MacroWord::Command(_, _) => Ok(None),
        MacroWord::PlaceCall(_) | MacroWord::End | MacroWord::Bad => Ok(None),
    }
}

// The arguments of the call whose word stands at a place, as its text now stands.
fn given_at<K: Look>(from: &Source<'_, K>, call: Option<Spot>) -> Result<Option<TextList>, Memory>
    ensures { IfOk result (λ l. l ≡ spec.given_at (outlook_from K.Look from.now) call) }
{
    let Some(spot) = call else {
        return Ok(None);
    };
    let Some(text) = macro_text(from.look, spot.cell) else {
        return Ok(None);
    };
    let bytes = text.bytes();
    let (word, _) = unit_at(bytes, spot.offset);
    given_in(from.alloc, from.look.names(), bytes, word)
}

// A value for a cell, where both are there.
fn entered(
    alloc: Global,
    cell: Option<Cell>,
    value: &Option<Value>,
) -> Result<Option<Write>, Memory>
    ensures { IfOk result (λ e. e ≡ spec.entered cell value.now) }
{
    let Some(cell) = cell else {
        return Ok(None);
    };
    match value {
        Some(value) => Ok(Some(written(cell, content_of_value(alloc, value)?))),
        None => Ok(None),
    }
}

// A place without `:string`, which may stand behind it.
fn plain_target(target: &[u8]) -> &[u8]
    ensures { result.now ≡ spec.plain_target target.now }
{
    if ends_in(target, AS_STRING) {
        without(target, AS_STRING)
    } else {
        target
    }
}

// What a cell takes of an argument.
fn defined<K: Look>(
    from: &Source<'_, K>,
    at: Cell,
    target: &[u8],
    given: &[u8],
) -> Result<Option<Write>, Memory>
    requires { IsText given.now }
    ensures { IfOk result (λ e. e ≡ spec.defined (outlook_from K.Look from.now) at target.now given.now) }
{
    if ends_in(target, AS_VALUE) {
        let value = expression_value(from.alloc, given, at, from.look, from.scene)?;
        return entered(
            from.alloc,
            place_of(from.look.names(), without(target, AS_VALUE)),
            &value,
        );
    }
    let value = Some(text_value(from.alloc, given)?);
    entered(
        from.alloc,
        place_of(from.look.names(), plain_target(target)),
        &value,
    )
}

// What cells take of as many arguments; none where their numbers differ.
fn defined_all<K: Look>(
    from: &Source<'_, K>,
    at: Cell,
    mut targets: &[Text],
    mut given: &[Text],
) -> Result<Option<Writes>, Memory>
    ensures { IfOk result
        (λ ws. ws ≡ spec.defined_all (outlook_from K.Look from.now) at targets.entry.now given.entry.now) }
{
    let mut writes = Writes::new(from.alloc);
    while let [target, more @ ..] = targets {
        let [argument, rest @ ..] = given else {
            return Ok(None);
        };
        let Some(write) = defined(from, at, target.bytes(), argument.bytes())? else {
            return Ok(None);
        };
        writes.push(write)?;
        targets = more;
        given = rest;
    }
    if given.is_empty() {
        Ok(Some(writes))
    } else {
        Ok(None)
    }
}

/// DEFINE.
pub fn define_row<K: Look>(
    from: &Source<'_, K>,
    running: &Running,
    at: &Spot,
    args: &TextList,
) -> Result<Row, Memory>
    ensures { IfOk result (λ r. r ≡ spec.define_row (outlook_from K.Look from.now) running.now at.now args.now) }
{
    let call = present_call(running.frames.items());
    let Some(given) = given_at(from, call)? else {
        return Ok(bad());
    };
    match defined_all(from, at.cell, args.items(), given.items())? {
        Some(writes) => Ok(Ok(Deed {
            change: Change::Write(writes),
            after: Move::Stay,
        })),
        None => Ok(bad()),
    }
}
