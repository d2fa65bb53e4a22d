// What is seen of the cells and columns of a store.
ghost use Rattle.std.specs.Prelude.{◌≡◌, IfNone, IfSome, Some, None, ℤ};
ghost use Rattle.std.specs.FinMap as map;
ghost use Rattle.formula_tree.specs.Seen.{seen_content, seen_value};
ghost use Rattle.formula_tree.specs.declared.value.Value.TheVariants as value;
ghost use Rattle.sheet_store.specs.Grid as grid;
ghost use Rattle.recalculation.specs.Context.{content_of, format_of, width_or};
ghost use Rattle.sheet_store.specs.Grid.{value_at};

use fixed_value::Fixed;
use formula_tree::{ContentRef, ValueRef};
use grid_address::{Cell, Format};
use sheet_store::{Settings, Store};

/// The value of a cell; one that isn't there is blank.
#[inline(always)]
pub fn value_of(store: &Store, cell: Cell) -> ValueRef<'_>
    ensures { seen_value result ≡ value_at store.now cell }
{
    match store.get(cell) {
        Some(state) => state.value(),
        None => ValueRef::Blank,
    }
}

/// The number that a cell's value is; none where it is something else, or the cell isn't there.
#[inline(always)]
pub fn number_of(store: &Store, cell: Cell) -> Option<Fixed>
    ensures some { IfSome result (λ n. value_at store.now cell ≡ value.Num n) }
    ensures none { IfNone result ((n : ℤ) → value_at store.now cell ≡ value.Num n → ⊥) }
{
    match store.get(cell) {
        Some(state) => state.number_value(),
        None => None,
    }
}

/// What a cell holds; none where it isn't there.
pub fn content_of(store: &Store, cell: Cell) -> Option<ContentRef<'_>>
    ensures some { IfSome result (λ c. content_of (map.get store.now.cells cell) ≡ Some (seen_content c)) }
    ensures none { IfNone result (content_of (map.get store.now.cells cell) ≡ None) }
{
    match store.get(cell) {
        Some(state) => Some(state.content()),
        None => None,
    }
}

/// The format of a cell; one that isn't there has the default format.
pub fn format_of(store: &Store, cell: Cell) -> Format
    ensures { result.0 ≡ format_of (map.get store.now.cells cell) }
{
    match store.get(cell) {
        Some(state) => state.format(),
        None => Format::DEFAULT,
    }
}

/// The width of a column; one without a width of its own has the sheet's.
pub fn width_of(store: &Store, settings: &Settings, col: u8) -> u8
    ensures { result ≡ width_or settings.now.width (grid.width_of store.now col) }
{
    match store.width(col) {
        Some(width) => width,
        None => settings.width,
    }
}
