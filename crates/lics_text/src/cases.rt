// Letters raised and lowered in place.
ghost use Rattle.std.specs.Char.{to_ascii_lowercase, to_ascii_uppercase};
ghost use Rattle.std.specs.Prelude.{◌≡◌, map};
ghost use Rattle.lics_text.specs.Texts.{proper_of};

/// Raises the small letters of ASCII, and leaves each other byte.
pub fn raise_all(bytes: &mut Vec<u8>)
    ensures { bytes.new.items ≡ map to_ascii_uppercase bytes.old.items }
{
    bytes.as_mut_slice().make_ascii_uppercase();
}

/// Lowers the capitals of ASCII, and leaves each other byte.
pub fn lower_all(bytes: &mut Vec<u8>)
    ensures { bytes.new.items ≡ map to_ascii_lowercase bytes.old.items }
{
    bytes.as_mut_slice().make_ascii_lowercase();
}

/// Raises each letter that follows no letter, and lowers the others.
pub fn make_proper(bytes: &mut Vec<u8>)
    ensures { bytes.new.items ≡ proper_of bytes.old.items }
{
    let mut inside = false;
    for at in 0..bytes.len() {
        let byte = bytes[at];
        bytes[at] = if inside {
            byte.to_ascii_lowercase()
        } else {
            byte.to_ascii_uppercase()
        };
        inside = byte.is_ascii_alphabetic();
    }
}
