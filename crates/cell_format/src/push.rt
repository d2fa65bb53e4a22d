// Adding to a line that has room.
ghost use Rattle.std.specs.Prelude.{◌≡◌, ◌≤◌, ◌<◌, ◌+◌, ◌++◌, ◌∷◌, [], length, replicate};
ghost use Rattle.lics_text.specs.Ascii as ascii;

use lics_text::{Line, MAX_LEN};

// Adds a byte.
pub fn push(into: &mut Line, byte: u8)
    requires { length into.old < MAX_LEN }
    ensures { into.new ≡ into.old ++ byte ∷ [] }
{
    into.put(byte);
}

static SPACES: [u8; MAX_LEN] = [b' '; MAX_LEN];

// Adds so many spaces.
pub fn put_spaces(into: &mut Line, count: usize)
    requires { length into.old + count ≤ MAX_LEN }
    ensures { into.new ≡ into.old ++ replicate count ascii.space }
{
    if count > 0 {
        into.put_all(&SPACES[..count]);
    }
}

// Adds one byte so many times.
pub fn fill(into: &mut Line, byte: u8, count: usize)
    requires { length into.old + count ≤ MAX_LEN }
    ensures { into.new ≡ into.old ++ replicate count byte }
{
    for _ in 0..count {
        push(into, byte);
    }
}
