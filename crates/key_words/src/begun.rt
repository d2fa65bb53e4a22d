// A word of key notation that is begun.
ghost use Rattle.std.specs.Char.{to_ascii_uppercase};
ghost use Rattle.std.specs.Prelude.{◌≡◌, ◌==◌, if◌then◌else◌};
ghost use Rattle.lics_text.specs.Ascii as ascii;
ghost use Rattle.key_words.specs.inner.Begun as spec;
ghost use Rattle.key_words.specs.Names.{longer};
ghost use Rattle.key_words.specs.Notation as notation;
ghost use Rattle.key_words.specs.declared.begun.Begun.TheVariants as Begun;
ghost use Rattle.key_words.specs.declared.begun.Next.TheVariants as Next;

use crate::name::{Letters, Named, first_letter};
use crate::{Key, Letter};
use lics_text::TextByte;

/// How far a word was read.
#[derive(Drop)]
pub enum Begun {
    /// Between words.
    Nothing,
    /// Behind an opening brace.
    Opened,
    /// Behind a mark in braces: one of `~`, `{` and `}`.
    Mark(TextByte),
    /// Behind letters with which a name begins.
    Letters(Letters),
    /// Behind a key's name and a space.
    Spaced(Key),
    /// Behind a number of repeats, 1 to 9999.
    Counted(Key, u16),
    /// Behind ALT and a space.
    AltSpaced,
    /// Behind Alt's letter.
    AltLetter(Letter),
}

/// What a byte makes of a word that is begun.
#[derive(Drop)]
pub enum Next {
    /// The word goes on, or the byte was passed over between words.
    Going(Begun),
    /// The word ends; it is a key, so many times.
    Ended(Key, u16),
    /// No word goes on with the byte.
    Refused,
}

/// Whether a byte is one of `~`, `{` and `}`.
pub fn is_mark(byte: u8) -> bool
    ensures { result ≡ notation.is_mark byte }
{
    byte == b'~' || (byte == b'{' || byte == b'}')
}

// A byte that stands for itself ends a word at once.
fn typed(byte: u8) -> Next
    ensures { result ≡ spec.typed byte }
{
    match TextByte::of(byte) {
        Some(typed) if !is_mark(byte) => Next::Ended(Key::Byte(typed), 1),
        _ => Next::Refused,
    }
}

// A byte between words.
fn between_words(byte: u8) -> Next
    ensures { result ≡ spec.after Begun.Nothing byte }
{
    match byte {
        b'~' => Next::Ended(Key::Enter, 1),
        b'{' => Next::Going(Begun::Opened),
        b'\r' | b'\n' => Next::Going(Begun::Nothing),
        _ => typed(byte),
    }
}

// The letters of a name, where one begins so.
fn lettered(letters: Option<Letters>) -> Next
    ensures { result ≡ spec.lettered letters }
{
    match letters {
        Some(letters) => Next::Going(Begun::Letters(letters)),
        None => Next::Refused,
    }
}

// One more letter of a name, where one begins so.
fn lettered_on(letters: &Letters, byte: u8) -> Next
    ensures { result ≡ spec.lettered (longer letters.now (to_ascii_uppercase byte)) }
{
    lettered(letters.longer(byte.to_ascii_uppercase()))
}

// A byte behind an opening brace.
fn behind_brace(byte: u8) -> Next
    ensures { result ≡ spec.after Begun.Opened byte }
{
    match TextByte::of(byte) {
        Some(mark) if is_mark(byte) => Next::Going(Begun::Mark(mark)),
        _ => lettered(first_letter(byte.to_ascii_uppercase())),
    }
}

// A closing brace behind a name.
fn closed(name: Option<Named>) -> Next
    ensures { result ≡ spec.closed name }
{
    match name {
        Some(Named::Repeated(key)) => Next::Ended(key, 1),
        Some(Named::Alone(key)) => Next::Ended(key, 1),
        Some(Named::Alt) => Next::Refused,
        None => Next::Refused,
    }
}

// A space behind a name.
fn spaced(name: Option<Named>) -> Next
    ensures { result ≡ spec.spaced name }
{
    match name {
        Some(Named::Repeated(key)) => Next::Going(Begun::Spaced(key)),
        Some(Named::Alt) => Next::Going(Begun::AltSpaced),
        Some(Named::Alone(_)) => Next::Refused,
        None => Next::Refused,
    }
}

// A byte behind letters of a name.
fn behind_letters(letters: &Letters, byte: u8) -> Next
    ensures { result ≡ spec.after (Begun.Letters letters.now) byte }
{
    match byte {
        b'}' => closed(letters.meaning()),
        b' ' => spaced(letters.meaning()),
        _ => lettered_on(letters, byte),
    }
}

// The first digit of a number of repeats.
fn first_digit(key: Key, byte: u8) -> Next
    ensures { result ≡ spec.after (Begun.Spaced key) byte }
{
    if b'1' <= byte && byte <= b'9' {
        Next::Going(Begun::Counted(key, u16::from(byte - b'0')))
    } else {
        Next::Refused
    }
}

// A byte behind digits: the end, or one digit more.
fn behind_digits(key: Key, times: u16, byte: u8) -> Next
    ensures { result ≡ spec.after (Begun.Counted key times) byte }
{
    if byte == b'}' {
        return Next::Ended(key, times);
    }
    if !(b'0' <= byte && byte <= b'9') {
        return Next::Refused;
    }
    let longer = u32::from(times) * 10 + u32::from(byte - b'0');
    match u16::try_from(longer) {
        Ok(longer) if longer <= 9999 => Next::Going(Begun::Counted(key, longer)),
        _ => Next::Refused,
    }
}

// The letter behind ALT and its space.
fn alt_letter(byte: u8) -> Next
    ensures { result ≡ spec.after Begun.AltSpaced byte }
{
    match Letter::of(byte) {
        Some(letter) => Next::Going(Begun::AltLetter(letter)),
        None => Next::Refused,
    }
}

// A closing brace ends the word.
fn ended(key: Key, byte: u8) -> Next
    ensures { result ≡ if byte == ascii.closing_brace then Next.Ended key 1 else Next.Refused }
{
    if byte == b'}' {
        Next::Ended(key, 1)
    } else {
        Next::Refused
    }
}

impl Begun {
    /// What a byte makes of the word.
    pub fn after(&self, byte: u8) -> Next
        ensures { result ≡ spec.after self.now byte }
    {
        match self {
            Begun::Nothing => between_words(byte),
            Begun::Opened => behind_brace(byte),
            Begun::Mark(mark) => ended(Key::Byte(*mark), byte),
            Begun::Letters(letters) => behind_letters(letters, byte),
            Begun::Spaced(key) => first_digit(*key, byte),
            Begun::Counted(key, times) => behind_digits(*key, *times, byte),
            Begun::AltSpaced => alt_letter(byte),
            Begun::AltLetter(letter) => ended(Key::Alt(*letter), byte),
        }
    }
}
