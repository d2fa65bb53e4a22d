// The arguments behind a word's name.
ghost use Rattle.std.specs.Prelude.{◌≡◌, ◌<◌, ◌≤◌, ◌++◌, ◌∷◌, [], drop, false, length, take, IfOk, IfSome, OnOk};
ghost use Rattle.lics_text.specs.Bytes.{IsText};
ghost use Rattle.macro_text.specs.Listed as spec;
ghost use Rattle.macro_text.specs.inner.Separators.{separator_from};
ghost use Rattle.macro_text.specs.Texts.{part as part_of};

use crate::TextList;
use crate::pieces::part;
use key_words::{Arguments, Cut};
use lics_text::{MAX_LEN, Memory, Text};
use std::alloc::Global;

// Whether a byte parts arguments.
fn is_separator(byte: u8) -> bool
    ensures { result ≡ spec.is_separator byte }
{
    byte == b',' || byte == b';'
}

// How many round brackets are open behind a byte.
fn depth_behind(depth: usize, byte: u8) -> usize
    requires { depth < 18446744073709551615 }
    ensures { result ≡ spec.depth_behind depth byte }
{
    match byte {
        b'(' => depth + 1,
        b')' => depth.saturating_sub(1),
        _ => depth,
    }
}

// The first separator outside quotes and brackets.
fn separator(mut bytes: &[u8], mut quoted: bool) -> Option<usize>
    requires { length bytes.now ≤ MAX_LEN }
    ensures place { result ≡ separator_from 0 quoted 0 bytes.entry.now }
    ensures within { IfSome result (λ place. place < length bytes.entry.now) }
{
    let mut place = 0;
    let mut depth = 0;
    while let [first, rest @ ..] = bytes {
        let byte = *first;
        if quoted {
            quoted = byte != b'"';
        } else {
            if is_separator(byte) && depth == 0 {
                return Some(place);
            }
            quoted = byte == b'"';
            depth = depth_behind(depth, byte);
        }
        place += 1;
        bytes = rest;
    }
    None
}

/// The bytes up to one.
#[tactic(auto, using(crate::proofs::Cutting::front_kept))]
pub fn front(bytes: &[u8], to: usize) -> &[u8]
    requires { to ≤ length bytes.now }
    ensures front { result.now ≡ take to bytes.now }
    ensures text { IsText bytes.now → IsText result.now }
{
    &bytes[..to]
}

/// The bytes from one on.
#[tactic(auto, using(crate::proofs::Cutting::rest_kept))]
pub fn rest_of(bytes: &[u8], from: usize) -> &[u8]
    requires { from ≤ length bytes.now }
    ensures rest { result.now ≡ drop from bytes.now }
    ensures text { IsText bytes.now → IsText result.now }
{
    &bytes[from..]
}

// Adds a copy of a text's bytes to a list.
fn push_copy(alloc: Global, list: &mut TextList, bytes: &[u8]) -> Result<(), Memory>
    requires text { IsText bytes.now }
    ensures { OnOk result (list.new ≡ list.old ++ bytes.now ∷ []) }
{
    let text = Text::copy_of(alloc, bytes)?;
    list.push(text)?;
    Ok(())
}

// The arguments that bytes list, which begin inside quotes or not.
fn split(alloc: Global, bytes: &[u8], quoted: bool) -> Result<TextList, Memory>
    requires text { IsText bytes.now }
    requires short { length bytes.now ≤ MAX_LEN }
    ensures { IfOk result (λ l. l ≡ spec.split_from quoted 0 bytes.now) }
{
    let mut list = TextList::new(alloc);
    let mut rest = bytes;
    let mut inside = quoted;
    while let Some(end) = separator(rest, inside) {
        push_copy(alloc, &mut list, front(rest, end))?;
        rest = rest_of(rest, end + 1);
        inside = false;
    }
    push_copy(alloc, &mut list, rest)?;
    Ok(list)
}

// One argument.
fn one_argument(alloc: Global, bytes: &[u8]) -> Result<TextList, Memory>
    requires text { IsText bytes.now }
    ensures { IfOk result (λ l. l ≡ bytes.now ∷ []) }
{
    let mut list = TextList::new(alloc);
    push_copy(alloc, &mut list, bytes)?;
    Ok(list)
}

// Two arguments.
fn two_arguments(alloc: Global, first: &[u8], second: &[u8]) -> Result<TextList, Memory>
    requires text { IsText first.now × IsText second.now }
    ensures { IfOk result (λ l. l ≡ first.now ∷ second.now ∷ []) }
{
    let mut list = TextList::new(alloc);
    push_copy(alloc, &mut list, first)?;
    push_copy(alloc, &mut list, second)?;
    Ok(list)
}

// Whether a name that begins outside quotes ends inside them.
fn ends_quoted(mut name: &[u8]) -> bool
    ensures { result ≡ spec.ends_quoted false name.entry.now }
{
    let mut quoted = false;
    while let [first, rest @ ..] = name {
        if *first == b'"' {
            quoted = !quoted;
        }
        name = rest;
    }
    quoted
}

/// The arguments of a word in a text, whose name may have opened a quote: commas and semicolons part them outside
/// quotes and outside round brackets. No space behind the name tells that there are none.
pub fn arguments_of(
    alloc: Global,
    quoted: bool,
    text: &[u8],
    args: Arguments,
) -> Result<TextList, Memory>
    requires text { IsText text.now }
    ensures { IfOk result (λ l. l ≡ spec.arguments_of quoted text.now args) }
{
    match args {
        Arguments::Nothing => Ok(TextList::new(alloc)),
        Arguments::Listed(cut) => split(alloc, part(text, cut), quoted),
        Arguments::One(cut) => one_argument(alloc, part(text, cut)),
        Arguments::Two(first, second) => {
            two_arguments(alloc, part(text, first), part(text, second))
        }
    }
}

/// The arguments of a call, whose name is a part of the text.
pub fn call_arguments(
    alloc: Global,
    text: &[u8],
    name: Cut,
    args: Arguments,
) -> Result<TextList, Memory>
    requires text { IsText text.now }
    ensures { IfOk result (λ l. l ≡ spec.arguments_of (spec.ends_quoted false (part_of text.now name)) text.now args) }
{
    let quoted = ends_quoted(part(text, name));
    arguments_of(alloc, quoted, text, args)
}
