// The lines of items that a menu shows.
ghost use Rattle.std.specs.Prelude.{◌≡◌, ◌∷◌, ◌++◌, [], map, nat_eq, take};
ghost use Rattle.room_keys.specs.menu.Ring.{items_line, marked};
ghost use Rattle.menu_tree.specs.Tree.{item_name};

use lics_text::{Line, MAX_LEN};
use menu_tree::Item;

// Adds as many bytes as there is room for.
fn put_cut(line: &mut Line, bytes: &[u8])
    ensures { line.new ≡ take MAX_LEN (line.old ++ bytes.now) }
{
    let room = (MAX_LEN - line.bytes().len()).min(bytes.len());
    line.put_all(&bytes[..room]);
}

// Adds a byte where there is room.
fn put_byte(line: &mut Line, byte: u8)
    ensures { line.new ≡ take MAX_LEN (line.old ++ byte ∷ []) }
{
    // `bytes` is called for its clause that the line has at most 240.
    line.bytes();
    line.put(byte);
}

/// Adds a name, between brackets where it is highlighted and else between spaces; what goes past 240 bytes is cut.
pub fn put_item(line: &mut Line, name: &[u8], is_highlighted: bool)
    ensures { line.new ≡ take MAX_LEN (line.old ++ marked is_highlighted name.now) }
{
    if is_highlighted {
        put_byte(line, b'[');
        put_cut(line, name);
        put_byte(line, b']');
    } else {
        put_byte(line, b' ');
        put_cut(line, name);
        put_byte(line, b' ');
    }
}

/// The names of items, the highlighted one between brackets and the others between spaces; what goes past 240 bytes is
/// cut.
pub(crate) fn items_line(items: &[Item], highlight: usize) -> Line
    ensures { result ≡ take MAX_LEN (items_line highlight (map item_name items.now)) }
{
    let mut line = Line::new();
    for place in 0..items.len() {
        let item = items[place];
        put_item(&mut line, item.name(), place == highlight);
    }
    line
}
