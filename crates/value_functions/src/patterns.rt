// When a value fits a label that stands as a condition.
ghost use Rattle.std.specs.Prelude.{◌≡◌, ◌≤◌, ◌==◌, ◌||◌, length, true};
ghost use Rattle.lics_text.specs.Ascii as ascii;
ghost use Rattle.formula_tree.specs.Seen.{seen_value};
ghost use Rattle.value_functions.specs.Patterns.{fits, is_like, is_negated, same_letter, value_is_like};
ghost use Rattle.lics_text.specs.Seen.{seen_text};

use formula_tree::ValueRef;
use lics_text::TextRef;

// Whether a byte of a pattern takes the rest of a text.
fn is_rest(byte: u8) -> bool
    ensures { result ≡ (byte == ascii.star) }
{
    byte == b'*'
}

// Whether a byte of a pattern takes a byte of a text.
fn takes(byte: u8, other: u8) -> bool
    ensures { result ≡ ((byte == ascii.question_mark) || same_letter byte other) }
{
    byte == b'?' || byte.to_ascii_uppercase() == other.to_ascii_uppercase()
}

// Whether a text is like a pattern, letters folded: `?` is any one byte, and `*` is the rest.
fn is_like(pattern: &[u8], text: &[u8]) -> bool
    ensures { result ≡ is_like pattern.now text.now }
{
    let mut at = 0;
    while at < pattern.len() {
        let byte = pattern[at];
        if is_rest(byte) {
            return true;
        }
        if at >= text.len() {
            return false;
        }
        let other = text[at];
        if !takes(byte, other) {
            return false;
        }
        at += 1;
    }
    at == text.len()
}

/// Whether a value is a text that is like a pattern.
pub fn value_is_like(pattern: &[u8], value: &ValueRef<'_>) -> bool
    ensures { result ≡ value_is_like pattern.now (seen_value value.now) }
{
    match value {
        ValueRef::Str(text) => is_like(pattern, text.bytes()),
        ValueRef::Blank | ValueRef::Num(_) | ValueRef::Err | ValueRef::Na => false,
    }
}

// Whether a pattern begins with ~.
fn is_negated(pattern: &[u8]) -> bool
    ensures negated { result ≡ is_negated pattern.now }
    ensures some { result ≡ true → 1 ≤ length pattern.now }
{
    match pattern.first() {
        Some(byte) => *byte == b'~',
        None => false,
    }
}

/// Whether a value fits a label that stands as a condition: it is a text that is like the pattern, and with a leading
/// `~` it is none. (Release 2 manual; that a negated pattern fits what is no text is this project's own choice.)
pub fn fits(label: TextRef<'_>, value: &ValueRef<'_>) -> bool
    ensures { result ≡ fits (seen_text label.entry) (seen_value value.now) }
{
    let pattern = label.bytes();
    if is_negated(pattern) {
        !value_is_like(&pattern[1..], value)
    } else {
        value_is_like(pattern, value)
    }
}
