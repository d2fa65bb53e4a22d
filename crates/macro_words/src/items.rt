// The items of a macro's menu.
ghost use Rattle.std.specs.Prelude.{◌≡◌, ◌≤◌, IfNone, IfSome, None, Some};
ghost use Rattle.record_match.specs.Fields.{label_in};
ghost use Rattle.macro_words.specs.Items as spec;
ghost use Rattle.lics_text.specs.Seen.{seen_text};

use crate::MacroMenu;
use formula_parts::Look;
use formula_tree::ContentRef;
use grid_address::{COLUMNS, Cell, LAST_COLUMN};
use lics_text::TextRef;

/// The cell so many columns to the right, or the last one of its row.
pub fn beside(count: usize, cell: Cell) -> Cell
    ensures { result ≡ spec.beside count cell }
{
    let col = usize::from(cell.col)
        .saturating_add(count)
        .min(usize::from(LAST_COLUMN));
    Cell {
        row: cell.row,
        col: col as u8,
    }
}

// The text of a label in a cell.
fn label_text<K: Look>(look: &K, cell: Cell) -> Option<TextRef<'_>>
    ensures some { IfSome result (λ t. label_in ((K.sight look.now).contents cell) ≡ Some (seen_text t)) }
    ensures none { IfNone result (label_in ((K.sight look.now).contents cell) ≡ None) }
{
    match look.content(cell) {
        Some(ContentRef::Label(_, text)) => Some(text),
        Some(ContentRef::Formula(_)) => None,
        Some(ContentRef::Blank) => None,
        Some(ContentRef::Number(_)) => None,
        None => None,
    }
}

/// The text of the item so many columns behind the first one, without its prefix; none where no label stands there, or
/// behind the last column.
pub fn item_text<K: Look>(look: &K, first: Cell, place: usize) -> Option<TextRef<'_>>
    ensures some { IfSome result (λ t. spec.item_text (K.sight look.now) first place ≡ Some (seen_text t)) }
    ensures none { IfNone result (spec.item_text (K.sight look.now) first place ≡ None) }
{
    if usize::from(first.col).saturating_add(place) < usize::from(COLUMNS) {
        label_text(look, beside(place, first))
    } else {
        None
    }
}

// A menu has so many items at most.
const MOST_ITEMS: usize = 8;

/// How many labels stand side by side from a cell on, up to 8 (Release 2 manual).
pub fn items_at<K: Look>(look: &K, first: Cell) -> usize
    ensures { result ≡ spec.items_at (K.sight look.now) first }
{
    for place in 0..MOST_ITEMS {
        match item_text(look, first, place) {
            Some(_) => {}
            None => return place,
        }
    }
    MOST_ITEMS
}

// Whether an item begins with a byte, in letters of either case.
fn item_begins<K: Look>(look: &K, first: Cell, place: usize, byte: u8) -> bool
    ensures { result ≡ spec.begins_with byte (spec.item_text (K.sight look.now) first place) }
{
    match item_text(look, first, place) {
        Some(text) => match text.bytes().first() {
            Some(begun) => begun.eq_ignore_ascii_case(&byte),
            None => false,
        },
        None => false,
    }
}

/// The first item of a menu that begins with a byte, in letters of either case.
pub fn chosen_by<K: Look>(look: &K, menu: &MacroMenu, byte: u8) -> Option<usize>
    ensures { result ≡ spec.chosen_by (K.sight look.now) menu.now byte }
{
    for place in 0..menu.count {
        if item_begins(look, menu.first, place, byte) {
            return Some(place);
        }
    }
    None
}
