// What formulas look at.
ghost use Rattle.std.specs.Prelude.{◌≡◌, ◌≤◌, IfOk, IfNone, IfSome, Some, None, true, ℕ, ℤ, pos};
ghost use Rattle.grid_address.specs.Place.{is_within, Place};
ghost use Rattle.formula_tree.specs.Seen.{seen_content, seen_value};
ghost use Rattle.formula_tree.specs.declared.value.Value.TheVariants as value;
ghost use Rattle.formula_parts.specs.Outlook.{filled, Outlook, Sight};

use fixed_value::Fixed;
use formula_tree::{ContentRef, ValueRef};
use grid_address::{Cell, CellList, Format, Span};
use lics_text::Memory;
use range_names::Names;
use serial_date::Moment;

/// What formulas look at: the sheet's values, contents, formats and widths, and the names of spans.
pub trait Look {
    ghost sight: { Self → Sight };

    /// The value of a cell.
    fn value(&self, cell: Cell) -> ValueRef<'_>
        ensures { seen_value result ≡ (sight self.now).values cell };

    /// The number that a cell's value is; none where it is something else.
    fn number(&self, cell: Cell) -> Option<Fixed>
        ensures some { IfSome result (λ n. (sight self.now).values cell ≡ value.Num n) }
        ensures none { IfNone result ((n : ℤ) → (sight self.now).values cell ≡ value.Num n → ⊥) };

    /// What a cell holds; none where nothing is kept of it.
    fn content(&self, cell: Cell) -> Option<ContentRef<'_>>
        ensures some { IfSome result (λ c. (sight self.now).contents cell ≡ Some (seen_content c)) }
        ensures none { IfNone result ((sight self.now).contents cell ≡ None) };

    /// The format of a cell.
    fn format(&self, cell: Cell) -> Format
        ensures { result.0 ≡ (sight self.now).formats cell };

    /// The width of a column.
    fn width(&self, col: u8) -> u8
        ensures { result ≡ (sight self.now).widths col };

    /// The names of spans.
    fn names(&self) -> &Names
        ensures { result.now ≡ (sight self.now).names };

    /// The cells of a span that aren't blank, in row order.
    fn filled(&self, span: Span) -> Result<CellList, Memory>
        ensures { IfOk result (λ l. l ≡ filled (sight self.now).values span) };

    /// Whether all cells of a span are known to be blank without a look at each.
    fn is_unused(&self, span: Span) -> bool
        ensures { result ≡ true → (c : Place) → is_within span c ≡ true → (sight self.now).values c ≡ value.Blank };
}

/// The pointer's cell, and the moment of the step.
#[derive(Clone, Copy)]
pub struct Scene {
    pub cursor: Cell,
    pub now: Moment,
}
