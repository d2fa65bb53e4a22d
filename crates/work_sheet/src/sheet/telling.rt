// What a sheet tells.
ghost use Rattle.std.specs.Prelude.{◌≡◌, ◌≤◌, [], length, option_map, nat_le, take};
ghost use Rattle.std.specs.List.{IsDistinct};
ghost use Rattle.std.specs.Option.{ForSome};
ghost use Rattle.grid_address.specs.Place.{same_place};
ghost use Rattle.cell_maps.specs.Sets.{has};
ghost use Rattle.recalculation.specs.Context.{sight_of, Context};
ghost use Rattle.recalculation.specs.Passes as recalculation;
ghost use Rattle.formula_tree.specs.Seen.{seen_value};
ghost use Rattle.sheet_store.specs.Grid.{is_hidden, last_used, width_of};
ghost use Rattle.work_sheet.specs.Sheets.{value_told, AllDirtyIn};
ghost use Rattle.work_sheet.specs.Typed.{typed};

use super::WorksheetOf;
use crate::typed::text_of;
use fixed_value::Fixed;
use formula_eval::Means;
use formula_parts::Look;
use formula_tree::{ContentRef, ValueRef};
use grid_address::{Cell, CellList, Format, Span};
use lics_text::{Line, MAX_LEN, Memory};
use range_names::Names;
use recalculation::{View, content_of, format_of, number_of, value_of, width_of};
use sheet_store::{MOST_WIDTH, Settings, Store};

impl<E: Means> WorksheetOf<E> {
    /// Whether the last recalculation told a circle.
    pub fn is_circular(&self) -> bool
        ensures { result ≡ self.now.circular }
    {
        self.circular
    }

    /// Whether a change was made since the last recalculation.
    pub fn is_stale(&self) -> bool
        ensures { result ≡ self.now.stale }
    {
        self.stale
    }

    /// How many formulas are dirty. Each stands among them once.
    pub fn dirty_count(&self) -> usize
        ensures count { result ≡ length self.now.dirty }
        ensures once { IsDistinct same_place self.now.dirty }
    {
        self.dirty.len()
    }

    /// The formulas that are dirty, in no order.
    pub fn dirty_cells(&self) -> &[Cell]
        ensures { result.now ≡ self.now.dirty }
    {
        self.dirty.as_slice()
    }

    /// Tells what the sheet keeps, and does nothing else: only formulas are dirty; a formula that reads a dirty one is
    /// dirty; a formula that isn't dirty isn't volatile and doesn't reach itself, and its value is its meaning,
    /// whatever the moment, the pointer, the names and the settings are. In another order than the natural one all
    /// formulas are dirty.
    pub fn is_kept(&self)
        ensures sound { (x : Context) →
            recalculation.IsSound E.meaning x self.now.grid (has same_place self.now.dirty) }
        ensures all { AllDirtyIn self.now.settings.order self.now.grid self.now.dirty }
    {
        let _ = &self.dirty;
    }

    /// The names of spans.
    pub fn names(&self) -> &Names
        ensures { result.now ≡ self.now.names }
    {
        &self.names
    }

    /// The settings.
    pub fn settings(&self) -> &Settings
        ensures { result.now ≡ self.now.settings }
    {
        &self.settings
    }

    /// The cells and the columns, to be looked at.
    pub fn cells(&self) -> &Store
        ensures { result.now ≡ self.now.grid }
    {
        &self.store
    }

    /// The value of a cell; none where the sheet holds nothing of it.
    pub fn value_of(&self, cell: Cell) -> Option<ValueRef<'_>>
        ensures { option_map seen_value result ≡ value_told self.now.grid cell }
    {
        match self.store.get(cell) {
            Some(state) => Some(state.value()),
            None => None,
        }
    }

    /// The content of a cell as it would be typed: a label with its prefix, a number with the places that it needs, a
    /// formula as it is printed with the sheet's names. The first 240 bytes are written into the line, which is empty
    /// before, and the answer tells whether that is all.
    pub fn text_of(&self, cell: Cell, into: &mut Line) -> bool
        requires { into.old ≡ [] }
        ensures line { into.new ≡ take MAX_LEN (typed self.now.names self.now.grid cell) }
        ensures whole { result ≡ nat_le (length (typed self.now.names self.now.grid cell)) MAX_LEN }
    {
        text_of(&self.store, &self.names, cell, into)
    }

    /// The last row and the last column that hold a used cell, as one cell.
    pub fn last_used(&self) -> Option<Cell>
        ensures { result ≡ last_used self.now.grid }
    {
        self.store.last_used()
    }

    /// A column's own width, where it has one.
    pub fn own_width(&self, col: u8) -> Option<u8>
        ensures width { result ≡ width_of self.now.grid col }
        ensures within { ForSome result (λ n. (1 ≤ n) × (n ≤ MOST_WIDTH)) }
    {
        self.store.width(col)
    }

    /// Whether a column is hidden.
    pub fn is_hidden(&self, col: u8) -> bool
        ensures { result ≡ is_hidden self.now.grid col }
    {
        self.store.is_hidden(col)
    }
}

/// Formulas and blocks of data look at a sheet as it stands.
impl<E: Means> Look for WorksheetOf<E> {
    ghost sight = { λ s. sight_of s.names s.settings s.grid };

    fn value(&self, cell: Cell) -> ValueRef<'_> {
        value_of(&self.store, cell)
    }

    fn number(&self, cell: Cell) -> Option<Fixed> {
        number_of(&self.store, cell)
    }

    fn content(&self, cell: Cell) -> Option<ContentRef<'_>> {
        content_of(&self.store, cell)
    }

    fn format(&self, cell: Cell) -> Format {
        format_of(&self.store, cell)
    }

    fn width(&self, col: u8) -> u8 {
        width_of(&self.store, &self.settings, col)
    }

    fn names(&self) -> &Names {
        &self.names
    }

    fn filled(&self, span: Span) -> Result<CellList, Memory> {
        let view = View {
            store: &self.store,
            names: &self.names,
            settings: &self.settings,
        };
        view.filled(span)
    }

    fn is_unused(&self, span: Span) -> bool {
        self.store.is_unused(span)
    }
}
