// The names that stand in braces.
ghost use Rattle.std.specs.Char.{to_ascii_uppercase};
ghost use Rattle.std.specs.List.{AllByRecursion};
ghost use Rattle.std.specs.Prelude.{◌≡◌, ◌<◌, ◌++◌, [], IfSome, Some, length, map, take};
ghost use Rattle.key_words.specs.Names as spec;
ghost use Rattle.key_words.specs.Names.{looked_up};
ghost use Rattle.key_words.specs.inner.Listed.{IsListed};

use crate::Key;
use lics_text::name_in;
use std::marker::Model;

/// What a name in key notation stands for.
#[derive(Clone, Copy)]
pub enum Named {
    /// A key, behind which a number of repeats may stand.
    Repeated(Key),
    /// A key without repeats.
    Alone(Key),
    /// Alt, behind which a letter stands.
    Alt,
}

/// Letters with which a name begins, kept as the front of such a name with what that stands for.
#[derive(Drop)]
pub struct Letters {
    name: &'static [u8],
    named: Named,
    len: usize,
}

impl Model for Letters {
    ghost use Rattle.std.specs.Prelude.{ℕ, ◌≡◌, ◌≤◌, List, Some, length, take};
    ghost use Rattle.key_words.specs.Names.{looked_up};

    ghost Value = { List ℕ };

    ghost view = { λ l. take l.len l.name.now };

    ghost invariant = { λ l. (l.len ≤ length l.name.now) × (looked_up l.name.now ≡ Some l.named) };
}

impl Letters {
    // The letters, in capitals.
    fn bytes(&self) -> &[u8]
        ensures { result.now ≡ self.now }
    {
        &self.name[..self.len]
    }

    /// What the letters stand for.
    #[inline(always)]
    pub fn meaning(&self) -> Option<Named>
        ensures { result ≡ spec.looked_up (map to_ascii_uppercase self.now) }
    {
        if self.len == self.name.len() {
            Some(self.named)
        } else {
            searched(self.bytes())
        }
    }

    /// The whole name as whose front they are kept, in capitals, and what it stands for.
    #[inline(always)]
    pub fn whole(&self) -> (&'static [u8], Named)
        ensures { looked_up result.0.now ≡ Some result.1 }
    {
        (self.name, self.named)
    }

    /// These letters and one more, where a name begins with them; that is a capital.
    #[inline(always)]
    pub fn longer(&self, letter: u8) -> Option<Letters>
        ensures { result ≡ spec.longer self.now letter }
    {
        if self.len < self.name.len() && self.name[self.len] == letter {
            Some(Letters {
                name: self.name,
                named: self.named,
                len: self.len + 1,
            })
        } else {
            longer(self.bytes(), letter)
        }
    }
}

// The keys' first names stand before their other ones.
const NAMES: [(&[u8], Named); 32] = [
    (b"UP", Named::Repeated(Key::Up)),
    (b"U", Named::Repeated(Key::Up)),
    (b"DOWN", Named::Repeated(Key::Down)),
    (b"D", Named::Repeated(Key::Down)),
    (b"LEFT", Named::Repeated(Key::Left)),
    (b"L", Named::Repeated(Key::Left)),
    (b"RIGHT", Named::Repeated(Key::Right)),
    (b"R", Named::Repeated(Key::Right)),
    (b"HOME", Named::Repeated(Key::Home)),
    (b"END", Named::Repeated(Key::End)),
    (b"PGUP", Named::Repeated(Key::PgUp)),
    (b"PGDN", Named::Repeated(Key::PgDn)),
    (b"BIGLEFT", Named::Repeated(Key::BigLeft)),
    (b"BIGRIGHT", Named::Repeated(Key::BigRight)),
    (b"ESC", Named::Repeated(Key::Esc)),
    (b"ESCAPE", Named::Repeated(Key::Esc)),
    (b"BS", Named::Repeated(Key::Bs)),
    (b"BACKSPACE", Named::Repeated(Key::Bs)),
    (b"DEL", Named::Repeated(Key::Del)),
    (b"DELETE", Named::Repeated(Key::Del)),
    (b"EDIT", Named::Repeated(Key::Edit)),
    (b"NAME", Named::Repeated(Key::Name)),
    (b"ABS", Named::Repeated(Key::Abs)),
    (b"GOTO", Named::Repeated(Key::Goto)),
    (b"WINDOW", Named::Repeated(Key::Window)),
    (b"QUERY", Named::Repeated(Key::Query)),
    (b"TABLE", Named::Repeated(Key::Table)),
    (b"CALC", Named::Repeated(Key::Calc)),
    (b"GRAPH", Named::Repeated(Key::Graph)),
    (b"BREAK", Named::Alone(Key::Break)),
    (b"UNDO", Named::Alone(Key::Undo)),
    (b"ALT", Named::Alt),
];

// What a name stands for, by a look at each of the table.
#[inline(never)]
fn searched(name: &[u8]) -> Option<Named>
    ensures { result ≡ spec.looked_up (map to_ascii_uppercase name.now) }
{
    name_in(&NAMES, name)
}

// What letters stand for that begin with these, which are capitals, and go on with those of either case.
fn spelled(mut letters: Letters, mut rest: &[u8]) -> Option<Named>
    requires { map to_ascii_uppercase letters ≡ letters }
    ensures { result ≡ spec.looked_up (letters ++ map to_ascii_uppercase rest.entry.now) }
{
    while let [first, behind @ ..] = rest {
        match letters.longer(first.to_ascii_uppercase()) {
            Some(longer) => letters = longer,
            None => return None,
        }
        rest = behind;
    }
    letters.meaning()
}

/// What a name stands for, in letters of either case. It is found letter by letter, as keys are typed.
pub fn look_up(name: &[u8]) -> Option<Named>
    ensures { result ≡ spec.looked_up (map to_ascii_uppercase name.now) }
{
    match name {
        [first, rest @ ..] => {
            let letters = first_letter(first.to_ascii_uppercase())?;
            spelled(letters, rest)
        }
        [] => None,
    }
}

// These letters and one more, where a name of the table begins with them.
fn longer_in(mut table: &[(&'static [u8], Named)], letters: &[u8], letter: u8) -> Option<Letters>
    requires { AllByRecursion IsListed (map (λ e. (e.0.now, e.1)) table.now) }
    ensures { result ≡ spec.longer_in (map (λ e. (e.0.now, e.1)) table.entry.now) letters.now letter }
{
    while let [entry, rest @ ..] = table {
        let name = entry.0;
        let len = letters.len();
        if len < name.len() && (name.starts_with(letters) && name[len] == letter) {
            return Some(Letters {
                name,
                named: entry.1,
                len: len + 1,
            });
        }
        table = rest;
    }
    None
}

// These letters and one more, where a name begins with them; the letters are capitals.
#[inline(never)]
fn longer(letters: &[u8], letter: u8) -> Option<Letters>
    ensures { result ≡ spec.longer letters.now letter }
{
    longer_in(&NAMES, letters, letter)
}

// The first letter of a name.
fn first_of(name: &'static [u8], named: Named) -> Option<Letters>
    requires some { 0 < length name.now }
    requires listed { looked_up name.now ≡ Some named }
    ensures { result ≡ Some (take 1 name.now) }
{
    Some(Letters {
        name,
        named,
        len: 1,
    })
}

/// A letter, which is a capital, where one name is mostly meant by it.
#[inline(always)]
pub fn usual_letter(letter: u8) -> Option<Letters>
    ensures { IfSome result (λ l. Some l ≡ spec.longer [] letter) }
{
    match letter {
        b'A' => first_of(b"ABS", Named::Repeated(Key::Abs)),
        b'B' => first_of(b"BS", Named::Repeated(Key::Bs)),
        b'C' => first_of(b"CALC", Named::Repeated(Key::Calc)),
        b'D' => first_of(b"DOWN", Named::Repeated(Key::Down)),
        b'E' => first_of(b"ESC", Named::Repeated(Key::Esc)),
        b'G' => first_of(b"GOTO", Named::Repeated(Key::Goto)),
        b'H' => first_of(b"HOME", Named::Repeated(Key::Home)),
        b'L' => first_of(b"LEFT", Named::Repeated(Key::Left)),
        b'N' => first_of(b"NAME", Named::Repeated(Key::Name)),
        b'P' => first_of(b"PGUP", Named::Repeated(Key::PgUp)),
        b'Q' => first_of(b"QUERY", Named::Repeated(Key::Query)),
        b'R' => first_of(b"RIGHT", Named::Repeated(Key::Right)),
        b'T' => first_of(b"TABLE", Named::Repeated(Key::Table)),
        b'U' => first_of(b"UP", Named::Repeated(Key::Up)),
        b'W' => first_of(b"WINDOW", Named::Repeated(Key::Window)),
        _ => None,
    }
}

/// A letter, which is a capital, where a name begins with it.
#[inline(always)]
pub fn first_letter(letter: u8) -> Option<Letters>
    ensures { result ≡ spec.longer [] letter }
{
    match usual_letter(letter) {
        Some(letters) => Some(letters),
        None => longer(b"", letter),
    }
}
