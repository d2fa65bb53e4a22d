// Spans as they are typed.
ghost use Rattle.std.specs.Prelude.{◌≡◌, ◌<◌, length, nat_eq, position, IfSome};
ghost use Rattle.lics_text.specs.Ascii as ascii;
ghost use Rattle.grid_address.specs.Progress.{address_in};
ghost use Rattle.grid_address.specs.TypedSpans.{behind_dots, both_corners, span_in};

use crate::{Cell, Span, count_dots, read_cell};

/// The cell whose address the bytes are, without `$`, in letters of either case. (Release 2 manual.)
pub fn cell_in(bytes: &[u8]) -> Option<Cell>
    ensures { result ≡ address_in bytes.now }
{
    match read_cell(bytes) {
        Ok(cell) => Some(cell),
        Err(_) => None,
    }
}

// The span between two corners, where both are addresses.
fn both_corners(a: Option<Cell>, b: Option<Cell>) -> Option<Span>
    ensures { result ≡ both_corners a b }
{
    match (a, b) {
        (Some(a), Some(b)) => Some(Span::of(a, b)),
        _ => None,
    }
}

// The bytes behind one dot or two.
fn behind_dots(bytes: &[u8]) -> &[u8]
    ensures { result.now ≡ behind_dots bytes.now }
{
    &bytes[count_dots(bytes)..]
}

// Where the first dot stands.
fn first_dot(bytes: &[u8]) -> Option<usize>
    ensures place { result ≡ position (nat_eq ascii.dot) bytes.now }
    ensures within { IfSome result (λ at. at < length bytes.now) }
{
    bytes.iter().position(|byte| b'.' == *byte)
}

/// The span that the bytes are: an address, or two of them in any order with one or two dots between. (Release 2
/// manual.)
pub fn span_in(bytes: &[u8]) -> Option<Span>
    ensures { result ≡ span_in bytes.now }
{
    match first_dot(bytes) {
        Some(at) => both_corners(cell_in(&bytes[..at]), cell_in(behind_dots(&bytes[at..]))),
        None => both_corners(cell_in(bytes), cell_in(bytes)),
    }
}
