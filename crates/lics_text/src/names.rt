// Names in letters of either case.
ghost use Rattle.std.specs.Char.{to_ascii_uppercase};
ghost use Rattle.std.specs.Prelude.{◌≡◌, map};
ghost use Rattle.std.specs.Str.{bytes_eq};
ghost use Rattle.lics_text.specs.Names as spec;

/// Whether the letters, in either case, are this name, which is in capitals.
pub fn is_name(mut name: &[u8], mut letters: &[u8]) -> bool
    ensures { result ≡ bytes_eq name.entry.now (map to_ascii_uppercase letters.entry.now) }
{
    while let [first, rest @ ..] = name {
        match letters {
            [letter, others @ ..] => {
                if *first != letter.to_ascii_uppercase() {
                    return false;
                }
                name = rest;
                letters = others;
            }
            [] => return false,
        }
    }
    letters.is_empty()
}

/// What a name, in letters of either case, stands for in a table of names, which are in capitals.
pub fn name_in<T: Copy>(mut table: &[(&[u8], T)], name: &[u8]) -> Option<T>
    ensures { result ≡ spec.name_in (map (λ e. (e.0.now, e.1)) table.entry.now) (map to_ascii_uppercase name.now) }
{
    while let [entry, rest @ ..] = table {
        if is_name(entry.0, name) {
            return Some(entry.1);
        }
        table = rest;
    }
    None
}
