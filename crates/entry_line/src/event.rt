// What a key comes to in a line.

/// What a key comes to. `Finished` comes exactly for Enter, UP, DOWN, PGUP and PGDN, `GivenUp` exactly for ESC on an
/// empty line, and `LineFull` exactly for a byte where there are 240; it changes nothing.
#[derive(Clone, Copy)]
pub enum LineEvent {
    Going,
    Finished,
    GivenUp,
    LineFull,
}
