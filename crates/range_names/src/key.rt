// Names as keys: folded, with zeros up to 15 bytes.
ghost use Rattle.std.specs.Prelude.{◌≡◌, ◌≤◌, ◌<◌, ◌==◌, get_or, length, Some, None, IfNone, IfOk, IfErr, OnOk, position, nat_lt};
ghost use Rattle.lics_text.specs.Ascii as ascii;
ghost use Rattle.range_names.specs.Names.{bad_place, fault_of, key_of, name_in};

use crate::NameFault;

// The key of at most 15 bytes.
pub fn key_of(name: &[u8]) -> [u8; 15]
    requires { length name.now ≤ 15 }
    ensures { result ≡ key_of name.now }
{
    let mut key = [0; 15];
    for at in 0..name.len() {
        key[at] = name[at].to_ascii_uppercase();
    }
    key
}

// The first byte below 32.
fn first_small(name: &[u8]) -> Option<usize>
    ensures { result ≡ position (λ b. nat_lt b ascii.space) name.now }
{
    name.iter().position(|byte| *byte < b' ')
}

// Whether a space stands in front; no bytes begin with none.
fn starts_with_space(name: &[u8]) -> bool
    ensures { result ≡ (get_or name.now 0 0 == ascii.space) }
{
    name.len() > 0 && name[0] == b' '
}

// A space in front, or the first byte below 32.
fn bad_place(name: &[u8]) -> Option<usize>
    ensures { result ≡ bad_place name.now }
{
    if starts_with_space(name) {
        Some(0)
    } else {
        first_small(name)
    }
}

// The key of a name, or why the bytes are none.
pub fn checked_key(name: &[u8]) -> Result<[u8; 15], NameFault>
    ensures ok { IfOk result (λ key. (fault_of name.now ≡ None) × (key ≡ key_of name.now)) }
    ensures short { OnOk result (length name.now ≤ 15) }
    ensures err { IfErr result (λ fault. fault_of name.now ≡ Some fault) }
{
    if name.len() == 0 {
        return Err(NameFault::Empty);
    }
    if name.len() > 15 {
        return Err(NameFault::TooLong);
    }
    match bad_place(name) {
        Some(at) => Err(NameFault::BadByte(at)),
        None => Ok(key_of(name)),
    }
}

/// Why bytes are no name, and none where they are one: `Empty`, `TooLong` and `BadByte` by their causes, in this order.
pub fn fault_of(name: &[u8]) -> Option<NameFault>
    ensures fault { result ≡ fault_of name.now }
    ensures short { IfNone result (length name.now ≤ 15) }
{
    match checked_key(name) {
        Ok(_) => None,
        Err(fault) => Some(fault),
    }
}

/// The bytes before the zeros: the name of a key.
pub fn name_in(key: &[u8]) -> &[u8]
    ensures name { result.now ≡ name_in key.now }
    ensures size { length result.now ≤ length key.now }
{
    let mut len = 0;
    while len < key.len() && key[len] != 0 {
        len += 1;
    }
    &key[..len]
}
