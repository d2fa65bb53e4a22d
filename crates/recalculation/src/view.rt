// A sheet as its formulas see it.
ghost use Rattle.std.specs.Prelude.{◌≡◌, ◌++◌, ◌∷◌, [], IfOk, OnOk};
ghost use Rattle.std.specs.List.{filter};
ghost use Rattle.grid_address.specs.Place.{Place};
ghost use Rattle.formula_tree.specs.Values.{is_filled};
ghost use Rattle.recalculation.specs.Context.{sight_of};
ghost use Rattle.sheet_store.specs.Grid.{value_at};

use crate::cells::{content_of, format_of, number_of, value_of, width_of};
use fixed_value::Fixed;
use formula_parts::Look;
use formula_tree::{ContentRef, ValueRef};
use grid_address::{Cell, CellList, Format, Span};
use lics_text::Memory;
use range_names::Names;
use sheet_store::{Settings, Store};

/// The cells, the columns, the names and the settings of a sheet, for formulas to look at.
#[derive(Clone, Copy)]
pub struct View<'a> {
    pub store: &'a Store,
    pub names: &'a Names,
    pub settings: &'a Settings,
}

// Whether a cell isn't blank.
fn is_filled_at(store: &Store, cell: Cell) -> bool
    ensures { result ≡ is_filled (value_at store.now cell) }
{
    match value_of(store, cell) {
        ValueRef::Blank => false,
        ValueRef::Num(_) | ValueRef::Str(_) | ValueRef::Err | ValueRef::Na => true,
    }
}

// Those of the cells that aren't blank.
fn filled_among(store: &Store, cells: &[Cell]) -> Result<CellList, Memory>
    ensures { IfOk result (λ l. l ≡ filter (λ (c : Place). is_filled (value_at store.now c)) cells.now) }
{
    let mut list = CellList::new(store.alloc());
    for cell in cells {
        if is_filled_at(store, *cell) {
            list.push(*cell)?;
        }
    }
    Ok(list)
}

impl<'a> Look for View<'a> {
    ghost sight = { λ v. sight_of v.names.now v.settings.now v.store.now };

    fn value(&self, cell: Cell) -> ValueRef<'_> {
        value_of(self.store, cell)
    }

    #[inline(always)]
    fn number(&self, cell: Cell) -> Option<Fixed> {
        number_of(self.store, cell)
    }

    fn content(&self, cell: Cell) -> Option<ContentRef<'_>> {
        content_of(self.store, cell)
    }

    fn format(&self, cell: Cell) -> Format {
        format_of(self.store, cell)
    }

    fn width(&self, col: u8) -> u8 {
        width_of(self.store, self.settings, col)
    }

    fn names(&self) -> &Names {
        self.names
    }

    fn filled(&self, span: Span) -> Result<CellList, Memory> {
        let cells = self.store.cells_in(span)?;
        let list = filled_among(self.store, cells.as_slice())?;
        Ok(list)
    }

    fn is_unused(&self, span: Span) -> bool {
        self.store.is_unused(span)
    }
}
