// Spaces left out.
ghost use Rattle.std.specs.Prelude.{◌≡◌, ◌≤◌, ◌<◌, length, drop};
ghost use Rattle.lics_text.specs.Texts.{is_gap, without_front, single_spaced};

use crate::{Line, MAX_LEN};

// Whether a space or the end stands at a place.
fn is_gap(bytes: &[u8], at: usize) -> bool
    ensures { result ≡ is_gap (drop at bytes.now) }
{
    at >= bytes.len() || bytes[at] == b' '
}

/// The bytes from the first on that is no space.
pub fn without_front(bytes: &[u8]) -> &[u8]
    ensures { result.now ≡ without_front bytes.now }
{
    let mut at = 0;
    while at < bytes.len() && bytes[at] == b' ' {
        at += 1;
    }
    &bytes[at..]
}

/// The bytes without the spaces before another space and at the end.
pub fn single_spaced(bytes: &[u8]) -> Line
    requires { length bytes.now ≤ MAX_LEN }
    ensures { result ≡ single_spaced bytes.now }
{
    let mut line = Line::new();
    for at in 0..bytes.len() {
        if bytes[at] == b' ' && is_gap(bytes, at + 1) {
            continue;
        }
        let _ = line.put(bytes[at]);
    }
    line
}
