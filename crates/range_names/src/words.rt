// Names that can be written for their spans.
ghost use Rattle.std.specs.Prelude.{◌≡◌};
ghost use Rattle.std.specs.List.{list_all};
ghost use Rattle.range_names.specs.Names.{is_plain, is_word, is_word_byte};

use grid_address::read_cell;

// A letter, a digit or _.
fn is_word_byte(byte: u8) -> bool
    ensures { result ≡ is_word_byte byte }
{
    byte.is_ascii_alphabetic() || byte.is_ascii_digit() || byte == b'_'
}

// Letters, digits and _ alone.
fn are_word_bytes(bytes: &[u8]) -> bool
    ensures { result ≡ list_all is_word_byte bytes.now }
{
    bytes.iter().all(|byte| is_word_byte(*byte))
}

// Letters, digits and _ that begin with a letter.
fn is_word(name: &[u8]) -> bool
    ensures { result ≡ is_word name.now }
{
    name.len() > 0 && name[0].is_ascii_alphabetic() && are_word_bytes(&name[1..])
}

// A word that is no address.
pub fn is_plain(name: &[u8]) -> bool
    ensures { result ≡ is_plain name.now }
{
    is_word(name) && read_cell(name).is_err()
}
