// What a key comes to in MENU, and what is shown there.
ghost use Rattle.std.specs.Prelude.{◌≡◌, ◌≤◌, IfSome, length, slice_get};
ghost use Rattle.room_keys.specs.LightTurns.{whole_turn};
ghost use Rattle.room_keys.specs.menu.Room.{highlight_after, lacks_item, menu_or_ready, opened, panel};
ghost use Rattle.room_keys.specs.menu.Room.{press, turn_by_item, turn_by_choice};

mod lines;
mod texts;

use crate::LightTurn;
use crate::menu::lines::items_line;
use crate::menu::texts::listed;
use item_ring::highlighted;
use key_words::Key;
use lics_text::{Line, MAX_LEN};
pub use lines::put_item;
use menu_tree::{Item, Menu, choose, items, parent};
use session_rooms::{AnsweredCommand, Answers, MenuRoom, Mode, Panel, Room, Turn};
use std::alloc::Global;

/// A menu with its first item highlighted.
pub fn opened(menu: Menu) -> Room
    ensures { result ≡ opened menu }
{
    Room::Menu(MenuRoom { menu, highlight: 0 })
}

/// The menu that is gone back to, or READY.
pub fn menu_or_ready(menu: Option<Menu>) -> Room
    ensures { result ≡ menu_or_ready menu }
{
    match menu {
        Some(menu) => opened(menu),
        None => Room::Ready,
    }
}

// The item at a place; none past the last.
fn item_at(items: &[Item], place: usize) -> Option<Item>
    ensures { result ≡ slice_get items.now place }
{
    items.get(place).copied()
}

// What an item comes to.
fn turn_by_item(alloc: Global, item: Item) -> Turn
    ensures { result ≡ turn_by_item item }
{
    match item {
        Item::Menu(menu) => Turn::Become(opened(menu)),
        Item::Action(action) => Turn::Ask(AnsweredCommand {
            action,
            answers: Answers::new(alloc),
        }),
    }
}

// Where there is no such item, the key is passed over.
fn turn_by_choice(alloc: Global, item: Option<Item>, room: MenuRoom) -> Turn
    ensures { result ≡ turn_by_choice item room }
{
    match item {
        Some(item) => turn_by_item(alloc, item),
        None => Turn::Become(Room::Menu(room)),
    }
}

/// What a key comes to in MENU: Enter takes the highlighted item, a byte the first item that begins with it in either
/// case, ESC goes up one level and from the main menu to READY, LEFT and RIGHT move the highlight in a ring, and HOME
/// and END to the ends. Any other key is passed over (Release 2 manual). It takes no memory.
pub fn press(alloc: Global, key: Key, room: MenuRoom) -> Turn
    ensures { result ≡ press key room }
{
    let items = items(room.menu);
    match key {
        Key::Enter => turn_by_choice(alloc, item_at(items, room.highlight), room),
        Key::Byte(byte) => turn_by_choice(alloc, choose(items, byte.get()), room),
        Key::Esc => Turn::Become(menu_or_ready(parent(room.menu))),
        _ => Turn::Become(Room::Menu(MenuRoom {
            highlight: highlighted(&key, items.len(), room.highlight),
            ..room
        })),
    }
}

// What an item comes to, where it is a menu; where there is no such item, the key is passed over.
fn light_by_choice(item: Option<Item>, room: MenuRoom) -> Option<LightTurn>
    ensures { IfSome result (λ x. whole_turn x ≡ turn_by_choice item room) }
{
    match item {
        Some(Item::Menu(menu)) => Some(LightTurn::Menu(MenuRoom { menu, highlight: 0 })),
        Some(Item::Action(_)) => None,
        None => Some(LightTurn::Menu(room)),
    }
}

// A menu, or READY.
fn light_to(menu: Option<Menu>) -> LightTurn
    ensures { whole_turn result ≡ Turn.Become (menu_or_ready menu) }
{
    match menu {
        Some(menu) => LightTurn::Menu(MenuRoom { menu, highlight: 0 }),
        None => LightTurn::Ready,
    }
}

/// What a key comes to in MENU, where that is no command; none where it is one.
pub fn light_turn(key: &Key, room: MenuRoom) -> Option<LightTurn>
    ensures { IfSome result (λ x. whole_turn x ≡ press key.now room) }
{
    let items = items(room.menu);
    match key {
        Key::Enter => light_by_choice(item_at(items, room.highlight), room),
        Key::Byte(byte) => light_by_choice(choose(items, byte.get()), room),
        Key::Esc => Some(light_to(parent(room.menu))),
        _ => Some(LightTurn::Menu(MenuRoom {
            highlight: highlighted(key, items.len(), room.highlight),
            ..room
        })),
    }
}

/// Whether no item of the menu begins with a letter, in either case: typed there, it is passed over.
pub fn lacks_item(room: &MenuRoom, letter: u8) -> bool
    ensures { result ≡ lacks_item letter room.now }
{
    choose(items(room.menu), letter).is_none()
}

/// The items of the menu, the highlighted one between brackets and the others between spaces; what goes past 240 bytes
/// is cut (Release 2 manual, second line of the control panel).
pub fn shown_items(room: &MenuRoom) -> Line
    ensures { result ≡ (panel room.now).menu }
{
    items_line(items(room.menu), room.highlight)
}

/// The items of the menu that the highlighted item opens, with two spaces between them; nothing where it opens none.
/// What goes past 240 bytes is cut (Release 2 manual, third line of the control panel).
pub fn text_below(room: &MenuRoom) -> &'static [u8]
    ensures text { result.now ≡ (panel room.now).below }
    ensures short { length result.now ≤ MAX_LEN }
{
    match item_at(items(room.menu), room.highlight) {
        Some(Item::Menu(menu)) => listed(menu),
        Some(Item::Action(_)) | None => b"",
    }
}

/// What is shown in MENU: the items, of which the highlighted one is marked, and below them what it leads to.
pub fn panel(room: &MenuRoom) -> Panel
    ensures { result ≡ panel room.now }
{
    let mut panel = Panel::of(Mode::Menu);
    panel.menu = shown_items(room);
    panel.below.put_all(text_below(room));
    panel
}
