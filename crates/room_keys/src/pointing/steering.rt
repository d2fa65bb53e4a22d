// What keys do with a pointed span.
ghost use Rattle.std.specs.Prelude.{◌≡◌};
ghost use Rattle.room_keys.specs.pointing.Pointing.{anchor_or, moved_corner, next_signs, steered};

use cell_pointer::{Arrow, arrow_of, stepped};
use grid_address::Cell;
use key_words::Key;
use session_rooms::{Pointed, Signs};
use sheet_store::Store;

// What ABS makes of the signs.
fn next_signs(signs: Signs) -> Signs
    ensures { result ≡ next_signs signs }
{
    match signs {
        Signs::None => Signs::Both,
        Signs::Both => Signs::Row,
        Signs::Row => Signs::Column,
        Signs::Column => Signs::None,
    }
}

// The anchor, or the corner where there is none.
fn anchor_or(anchor: Option<Cell>, corner: Cell) -> Option<Cell>
    ensures { result ≡ anchor_or anchor corner }
{
    match anchor {
        Some(cell) => Some(cell),
        None => Some(corner),
    }
}

// The corner after an arrow.
fn moved_corner(arrow: Option<Arrow>, columns: &Store, pointed: Pointed) -> Pointed
    ensures { result ≡ moved_corner arrow columns.now pointed }
{
    match arrow {
        Some(arrow) => Pointed {
            corner: stepped(arrow, columns, pointed.corner),
            anchor: pointed.anchor,
            signs: pointed.signs,
        },
        None => pointed,
    }
}

/// What a key does with a span that is pointed at: an arrow moves the corner, past hidden columns; a dot anchors it;
/// ESC and BS take the anchor away and put the corner back on the pointer; ABS changes the signs. Any other key does
/// nothing. (Release 2 manual, POINT mode.)
pub fn steer(key: &Key, columns: &Store, pointer: Cell, pointed: Pointed) -> Pointed
    ensures { result ≡ steered key.now columns.now pointer pointed }
{
    match key {
        Key::Byte(byte) => {
            if byte.get() == b'.' {
                Pointed {
                    corner: pointed.corner,
                    anchor: anchor_or(pointed.anchor, pointed.corner),
                    signs: pointed.signs,
                }
            } else {
                pointed
            }
        }
        Key::Esc | Key::Bs => Pointed {
            corner: pointer,
            anchor: None,
            signs: pointed.signs,
        },
        Key::Abs => Pointed {
            corner: pointed.corner,
            anchor: pointed.anchor,
            signs: next_signs(pointed.signs),
        },
        _ => moved_corner(arrow_of(key), columns, pointed),
    }
}
