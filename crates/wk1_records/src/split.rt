// Records found in bytes.
ghost use Rattle.std.specs.Prelude.{◌≡◌, ◌≤◌, ◌<◌, ◌+◌, ◌++◌, IfSome, IfNone, length, drop, take, List, ℕ};
ghost use Rattle.wk1_formula.specs.Reading.{short_at};
ghost use Rattle.wk1_records.specs.Records.{piece_bytes, IsFront, IsPiece, Piece};

use wk1_formula::{bytes_from, short_at};

// So many bytes behind the type and the length.
fn body_of(bytes: &[u8], size: usize) -> &[u8]
    requires { 4 + size ≤ length bytes.now }
    ensures { result.now ≡ take size (drop 4 bytes.now) }
{
    &bytes_from(bytes, 4)[..size]
}

/// The type and the body of the record at the front of bytes; none exactly where no whole record stands there.
pub fn front_piece(bytes: &[u8]) -> Option<(u16, &[u8])>
    ensures some { IfSome result (λ x. IsFront bytes.now x.0 x.1.now) }
    ensures none { IfNone result ((p : Piece) (rest : List ℕ) → IsPiece p → bytes.now ≡ piece_bytes p ++ rest → ⊥) }
{
    if bytes.len() < 4 {
        return None;
    }
    let size = usize::from(short_at(bytes, 2));
    if bytes.len() - 4 < size {
        return None;
    }
    Some((short_at(bytes, 0), body_of(bytes, size)))
}
