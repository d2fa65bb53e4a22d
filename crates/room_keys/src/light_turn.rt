// Turns that hold no line.

use cell_pointer::Way;
use session_rooms::MenuRoom;

/// What a key comes to that begins no line and no command: it costs less to hand on than a turn, which has room for a
/// line.
#[derive(Clone, Copy)]
pub enum LightTurn {
    /// The session is in READY now.
    Ready,
    /// This menu is shown now.
    Menu(MenuRoom),
    /// The pointer moves, and nothing is typed.
    Move(Way),
}
