// Text that is cut off at 240 bytes.
ghost use Rattle.std.specs.Prelude.{◌≡◌};
ghost use Rattle.formula_text.specs.Printed.{written};

use crate::sink::Sink;
use lics_text::{Line, MAX_LEN};

// What is written of a text, and whether that is all of it.
#[derive(Drop)]
pub struct Output {
    pub line: Line,
    pub whole: bool,
}

// Writes on as far as there is room.
#[tactic(auto, unfolding(crate::specs::Printed::written))]
pub fn write(out: &mut Output, bytes: &[u8])
    ensures { out.new ≡ written out.old bytes.now }
{
    if !out.whole {
        return;
    }
    let room = MAX_LEN - out.line.bytes().len();
    if bytes.len() <= room {
        out.line.put_all(bytes);
    } else {
        out.line.put_all(&bytes[..room]);
        out.whole = false;
    }
}

impl Sink for Output {
    ghost has_put = { λ old bytes new. new ≡ written old bytes };

    fn put(&mut self, bytes: &[u8]) {
        write(self, bytes);
    }
}
