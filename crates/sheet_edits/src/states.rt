// The state that a written cell takes.
ghost use Rattle.std.specs.Prelude.{◌≡◌, IfOk, true};
ghost use Rattle.grid_address.specs.Formats.{has_protection};
ghost use Rattle.sheet_store.specs.Grid.{is_formula, is_kept, IsSound};
ghost use Rattle.recalculation.specs.Context.{format_of};
ghost use Rattle.sheet_edits.specs.Edits.{first_value, written_state};
ghost use Rattle.std.specs.FinMap as map;

use fixed_value::Fixed;
use formula_tree::{Content, Value};
use grid_address::{Cell, Format};
use lics_text::Memory;
use recalculation::format_of;
use sheet_store::{CellState, Store};
use std::alloc::Global;

// A content with its first value, in a format.
pub fn first_state(alloc: Global, content: Content, format: Format) -> Result<CellState, Memory>
    ensures { IfOk result (λ s. s ≡ record { content = content; value = first_value content; format = format }) }
{
    match content {
        Content::Blank => Ok(CellState::blank(format)),
        Content::Number(number) => Ok(CellState::number(number, format)),
        Content::Label(prefix, text) => CellState::label(alloc, prefix, text.bytes(), format),
        Content::Formula(formula) => CellState::formula(formula, Value::Num(Fixed::ZERO), format),
    }
}

/// The content with its first value, in the cell's format.
pub fn state_of(store: &Store, cell: Cell, content: Content) -> Result<CellState, Memory>
    ensures state { IfOk result (λ s. s ≡ written_state store.now cell content) }
    ensures sound { IfOk result (λ s. IsSound s) }
    ensures kept { IfOk result (λ s. is_formula s.content ≡ true → is_kept s ≡ true) }
{
    first_state(store.alloc(), content, format_of(store, cell))
}

/// Whether the protection mark of a cell is set, as it is in the default format.
pub fn is_marked(store: &Store, cell: Cell) -> bool
    ensures { result ≡ has_protection (format_of (map.get store.now.cells cell)) }
{
    format_of(store, cell).is_protected()
}
