// Labels as they are shown.
ghost use Rattle.std.specs.Prelude.{◌≡◌, ◌≤◌, ◌<◌, ◌+◌, ◌++◌, get_or, length, map, ◌%◌};
ghost use Rattle.lics_text.specs.Ascii as ascii;
ghost use Rattle.cell_format.specs.Labels.{at_left, centred, masked, repeated, shown_label};
ghost use Rattle.cell_format.specs.Numbers.{at_right};

use crate::push::{fill, push};
use lics_text::{LabelPrefix, Line, MAX_LEN};

/// A byte as it is shown and printed: those from 127 on are question marks (this project's choice).
pub fn mask(byte: u8) -> u8
    ensures { result ≡ masked byte }
{
    if byte > b'~' { b'?' } else { byte }
}

// Adds the bytes, masked.
fn push_masked(into: &mut Line, bytes: &[u8])
    requires { length into.old + length bytes.now ≤ MAX_LEN }
    ensures { into.new ≡ into.old ++ map masked bytes.now }
{
    for byte in bytes {
        push(into, mask(*byte));
    }
}

// Adds a text at the left, cut at the width.
fn put_left(bytes: &[u8], width: usize, into: &mut Line)
    requires { length into.old + width ≤ MAX_LEN }
    ensures { into.new ≡ into.old ++ at_left (map masked bytes.now) width }
{
    let len = bytes.len().min(width);
    push_masked(into, &bytes[..len]);
    fill(into, b' ', width - len);
}

// Adds a text that ends one byte before the right edge.
fn put_right(bytes: &[u8], width: usize, into: &mut Line)
    requires room { length into.old + width ≤ MAX_LEN }
    requires fits { length bytes.now < width }
    ensures { into.new ≡ into.old ++ at_right (map masked bytes.now) width }
{
    fill(into, b' ', width - 1 - bytes.len());
    push_masked(into, bytes);
    push(into, b' ');
}

// Adds a text in the middle, with the larger half of the free bytes on its right.
fn put_centred(bytes: &[u8], width: usize, into: &mut Line)
    requires room { length into.old + width ≤ MAX_LEN }
    requires fits { length bytes.now ≤ width }
    ensures { into.new ≡ into.old ++ centred (map masked bytes.now) width }
{
    let free = width - bytes.len();
    let left = free / 2;
    fill(into, b' ', left);
    push_masked(into, bytes);
    fill(into, b' ', free - left);
}

// The byte of a text that is repeated, and a space where it is empty.
fn repeated_byte(bytes: &[u8], at: usize) -> u8
    ensures { result ≡ get_or (map masked bytes.now) (at % length (map masked bytes.now)) ascii.space }
{
    if bytes.len() == 0 {
        b' '
    } else {
        mask(bytes[at % bytes.len()])
    }
}

// Adds a text again and again.
fn put_repeated(bytes: &[u8], width: usize, into: &mut Line)
    requires { length into.old + width ≤ MAX_LEN }
    ensures { into.new ≡ into.old ++ repeated (map masked bytes.now) width }
{
    for at in 0..width {
        push(into, repeated_byte(bytes, at));
    }
}

/// Adds a label in a cell of that width, by its prefix: `\` repeats it, `"` puts it at the right and `^` in the
/// middle, and any other, or a label that is too long for these, puts it at the left, cut at the width.
pub fn show_label(prefix: LabelPrefix, bytes: &[u8], width: u8, into: &mut Line)
    requires { length into.old + width ≤ MAX_LEN }
    ensures text { into.new ≡ into.old ++ shown_label prefix bytes.now width }
    ensures size { length into.new ≡ length into.old + width }
{
    put_label(prefix, bytes, usize::from(width), into);
}

// Adds a label by its prefix.
#[tactic(auto, unfolding(crate::specs::Labels::shown_label))]
fn put_label(prefix: LabelPrefix, bytes: &[u8], width: usize, into: &mut Line)
    requires { length into.old + width ≤ MAX_LEN }
    ensures { into.new ≡ into.old ++ shown_label prefix bytes.now width }
{
    match prefix {
        LabelPrefix::Repeat => put_repeated(bytes, width, into),
        LabelPrefix::Right => {
            if bytes.len() < width {
                put_right(bytes, width, into);
            } else {
                put_left(bytes, width, into);
            }
        }
        LabelPrefix::Center => {
            if bytes.len() <= width {
                put_centred(bytes, width, into);
            } else {
                put_left(bytes, width, into);
            }
        }
        LabelPrefix::Left | LabelPrefix::Unprinted => put_left(bytes, width, into),
    }
}
