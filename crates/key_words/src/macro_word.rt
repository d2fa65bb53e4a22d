// The words of a macro's text.
ghost use Rattle.std.specs.Char.{to_ascii_uppercase};
ghost use Rattle.std.specs.Prelude.{◌≡◌, ◌+◌, ◌<◌, ◌≤◌, ◌==◌, length, map, true, IfSome};
ghost use Rattle.std.specs.List.{position};
ghost use Rattle.key_words.specs.declared.command.SlashWord.TheVariants as SlashWord;
ghost use Rattle.key_words.specs.declared.macro_word.MacroWord.TheVariants as word;
ghost use Rattle.key_words.specs.MacroText as spec;

use crate::Key;
use crate::begun::is_mark;
use crate::command::{Command, SlashWord, command_named, slash_word};
use crate::name::{Named, look_up, usual_letter};
use lics_text::TextByte;

/// A part of a text: the bytes from one offset on up to another.
#[derive(Clone, Copy)]
pub struct Cut {
    pub from: usize,
    pub to: usize,
}

/// The arguments of a word.
#[derive(Clone, Copy)]
pub enum Arguments {
    /// None: no space stands behind the word's name.
    Nothing,
    /// What stands between the space behind the name and the closing brace, with commas or semicolons between
    /// arguments.
    Listed(Cut),
    /// The one argument of a slash word, without its tilde.
    One(Cut),
    /// Both arguments of a slash word, without their tildes.
    Two(Cut, Cut),
}

/// A word of a macro's text.
#[derive(Clone, Copy)]
pub enum MacroWord {
    /// A key.
    Key(Key),
    /// A key, as often as an expression tells.
    Repeated(Key, Cut),
    /// A command, by its name in braces or as a slash word.
    Command(Command, Arguments),
    /// A name in braces that is neither a key's nor a command's, and so should be a range's.
    Call(Cut, Arguments),
    /// `/XC`: a call of a place.
    PlaceCall(Cut),
    /// The text's end.
    End,
    /// A brace that isn't closed, a closing brace alone, a slash word without one of its tildes, or a byte below 32.
    Bad,
}

// A byte that is a key itself.
fn typed(byte: u8) -> MacroWord
    ensures { result ≡ spec.typed byte }
{
    match TextByte::of(byte) {
        Some(typed) => MacroWord::Key(Key::Byte(typed)),
        None => MacroWord::Bad,
    }
}

// Where the brace closes: at the first closing brace outside quotes.
fn closing_place(mut bytes: &[u8]) -> Option<usize>
    ensures place { result ≡ spec.closing_place bytes.entry.now }
    ensures within { IfSome result (λ place. place < length bytes.entry.now) }
{
    let mut place = 0;
    let mut quoted = false;
    while let [first, rest @ ..] = bytes {
        if *first == b'}' && !quoted {
            return Some(place);
        }
        if *first == b'"' {
            quoted = !quoted;
        }
        place += 1;
        bytes = rest;
    }
    None
}

// The first place of a byte.
fn place_of(wanted: u8, bytes: &[u8]) -> Option<usize>
    ensures place { result ≡ position (λ b. b == wanted) bytes.now }
    ensures within { IfSome result (λ place. place < length bytes.now) }
{
    bytes.iter().position(|byte| *byte == wanted)
}

// How long a name is, which ends at the first space.
fn name_length(inside: &[u8]) -> usize
    ensures value { result ≡ spec.name_length inside.now }
    ensures within { result ≤ length inside.now }
{
    match place_of(b' ', inside) {
        Some(place) => place,
        None => inside.len(),
    }
}

// The arguments behind a name, where a space stands there.
fn listed(behind: Option<Cut>) -> Arguments
    ensures { result ≡ spec.listed behind }
{
    match behind {
        None => Arguments::Nothing,
        Some(cut) => Arguments::Listed(cut),
    }
}

// A key by its name, as often as an expression behind it tells.
fn key_word(key: Key, behind: Option<Cut>) -> MacroWord
    ensures { result ≡ spec.key_word key behind }
{
    match behind {
        None => MacroWord::Key(key),
        Some(cut) => MacroWord::Repeated(key, cut),
    }
}

// A command by its name; any other name is called as a range's.
fn command_or_call(command: Option<Command>, name: Cut, behind: Option<Cut>) -> MacroWord
    ensures { result ≡ spec.command_or_call command name behind }
{
    match command {
        Some(command) => MacroWord::Command(command, listed(behind)),
        None => MacroWord::Call(name, listed(behind)),
    }
}

// What stands behind the name, which is so long, and its space.
fn behind_name(at: usize, inside: &[u8], len: usize) -> Option<Cut>
    requires room { at + length inside.now < 18446744073709551616 }
    requires name { len ≡ spec.name_length inside.now }
    ensures { result ≡ spec.behind_name at inside.now }
{
    if len < inside.len() {
        let from = at + len + 1;
        let to = at + inside.len();
        Some(Cut { from, to })
    } else {
        None
    }
}

// The word of what stands in braces, whose inside begins at this offset.
fn word_inside(at: usize, inside: &[u8]) -> MacroWord
    requires { at + length inside.now < 18446744073709551616 }
    ensures { result ≡ spec.word_inside at inside.now }
{
    let len = name_length(inside);
    let letters = &inside[..len];
    let name = Cut {
        from: at,
        to: at + len,
    };
    let behind = behind_name(at, inside, len);
    match look_up(letters) {
        Some(Named::Repeated(key)) => key_word(key, behind),
        Some(Named::Alone(_)) | Some(Named::Alt) | None => {
            command_or_call(command_named(letters), name, behind)
        }
    }
}

// Behind an opening brace.
fn braced(end: usize, at: usize, rest: &[u8]) -> (MacroWord, usize)
    requires { at + length rest.now < 18446744073709551616 }
    ensures { result ≡ spec.braced end at rest.now }
{
    if let [mark, b'}', ..] = rest {
        if is_mark(*mark) {
            return (typed(*mark), at + 2);
        }
    }
    match closing_place(rest) {
        Some(place) => (word_inside(at, &rest[..place]), at + place + 1),
        None => (MacroWord::Bad, end),
    }
}

// Where an argument that begins at this offset ends.
fn tilde_from(text: &[u8], at: usize) -> Option<usize>
    requires { at ≤ length text.now }
    ensures place { result ≡ spec.tilde_from text.now at }
    ensures within { IfSome result (λ tilde. (at ≤ tilde) × (tilde < length text.now)) }
{
    match place_of(b'~', &text[at..]) {
        Some(place) => Some(at + place),
        None => None,
    }
}

// A command with one argument.
fn with_one(text: &[u8], at: usize, command: Command) -> (MacroWord, usize)
    requires { at ≤ length text.now }
    ensures { result ≡ spec.slash_at text.now at (SlashWord.WithOne command) }
{
    match tilde_from(text, at) {
        Some(to) => (
            MacroWord::Command(command, Arguments::One(Cut { from: at, to })),
            to + 1,
        ),
        None => (MacroWord::Bad, text.len()),
    }
}

// A command with two arguments.
fn with_two(text: &[u8], at: usize, command: Command) -> (MacroWord, usize)
    requires { at ≤ length text.now }
    ensures { result ≡ spec.slash_at text.now at (SlashWord.WithTwo command) }
{
    let Some(to) = tilde_from(text, at) else {
        return (MacroWord::Bad, text.len());
    };
    let first = Cut { from: at, to };
    let from = to + 1;
    match tilde_from(text, from) {
        Some(to) => {
            let second = Cut { from, to };
            (
                MacroWord::Command(command, Arguments::Two(first, second)),
                to + 1,
            )
        }
        None => (MacroWord::Bad, text.len()),
    }
}

// A call of a place.
fn place_call(text: &[u8], at: usize) -> (MacroWord, usize)
    requires { at ≤ length text.now }
    ensures { result ≡ spec.slash_at text.now at SlashWord.Call }
{
    match tilde_from(text, at) {
        Some(to) => (MacroWord::PlaceCall(Cut { from: at, to }), to + 1),
        None => (MacroWord::Bad, text.len()),
    }
}

// The word that begins with a slash, if it is more than the key.
fn begun_slash(text: &[u8], offset: usize) -> Option<SlashWord>
    requires { offset < length text.now }
    ensures word { result ≡ spec.begun_slash text.now offset }
    ensures within { IfSome result (λ w. offset + 3 ≤ length text.now) }
{
    if text.len() - offset < 3 {
        return None;
    }
    if text[offset + 1].to_ascii_uppercase() == b'X' {
        slash_word(text[offset + 2])
    } else {
        None
    }
}

// A slash word, or the slash as a key where none begins with it.
fn slashed(text: &[u8], offset: usize) -> (MacroWord, usize)
    requires { offset < length text.now }
    ensures { result ≡ spec.slashed text.now offset (spec.begun_slash text.now offset) }
{
    match begun_slash(text, offset) {
        None => (typed(b'/'), offset + 1),
        Some(SlashWord::Alone(command)) => {
            (MacroWord::Command(command, Arguments::Nothing), offset + 3)
        }
        Some(SlashWord::WithOne(command)) => with_one(text, offset + 3, command),
        Some(SlashWord::WithTwo(command)) => with_two(text, offset + 3, command),
        Some(SlashWord::Call) => place_call(text, offset + 3),
    }
}

// Whether letters of either case spell a name, which is in capitals and as long.
fn spells(letters: &[u8], name: &[u8]) -> bool
    requires { length letters.now ≡ length name.now }
    ensures { result ≡ true → map to_ascii_uppercase letters.now ≡ name.now }
{
    for place in 0..name.len() {
        if letters[place].to_ascii_uppercase() != name[place] {
            return false;
        }
    }
    true
}

/// The key that a word in braces at an offset is, and the offset behind it, where it is told by its name alone and at a
/// glance: by the name that is mostly meant by its first letter.
#[inline(always)]
pub fn glanced_key(text: &[u8], offset: usize) -> Option<(Key, usize)>
    ensures { IfSome result (λ k. spec.unit_at text.now offset ≡ (word.Key k.0, k.1)) }
{
    if offset >= text.len() || text[offset] != b'{' {
        return None;
    }
    let at = offset + 1;
    if at >= text.len() {
        return None;
    }
    let (name, named) = usual_letter(text[at] & 0x5f)?.whole();
    let len = name.len();
    if len >= text.len() - at {
        return None;
    }
    let end = at + len;
    if text[end] != b'}' || !spells(&text[at..end], name) {
        return None;
    }
    match named {
        Named::Repeated(key) => Some((key, end + 1)),
        Named::Alone(_) | Named::Alt => None,
    }
}

/// The word at an offset of a macro's text, and the offset behind it. Names, of keys, then of commands, stand in
/// braces up to the first space; the word ends at the first closing brace outside quotes, which are counted from the
/// opening one. A slash, X and one of the letters I, G, C, R, Q, M, L and N is a command whose arguments end with a
/// tilde each; letters stand in either case. A tilde is Enter, and any other byte from 32 on is itself. At or past the
/// text's end is End (Release 2 manual).
pub fn unit_at(text: &[u8], offset: usize) -> (MacroWord, usize)
    ensures { result ≡ spec.unit_at text.now offset }
{
    if offset >= text.len() {
        return (MacroWord::End, text.len());
    }
    match text[offset] {
        b'~' => (MacroWord::Key(Key::Enter), offset + 1),
        b'{' => braced(text.len(), offset + 1, &text[offset + 1..]),
        b'}' => (MacroWord::Bad, offset + 1),
        b'/' => slashed(text, offset),
        byte => (typed(byte), offset + 1),
    }
}
