// Held cells that stand in row order.
ghost use Rattle.std.specs.Prelude.{◌≡◌, ◌∷◌, ◌<◌, [], true, drop, IfSome, IfNone};
ghost use Rattle.std.specs.FinMap.{entries, from_entries};
ghost use Rattle.cell_maps.specs.Filled.{filled};
ghost use Rattle.grid_address.specs.Place.{place_cmp};
ghost use Rattle.sheet_store.specs.inner.RowOrder.{IsBefore};
ghost use Rattle.sheet_store.specs.inner.Scan.{number_of};

use crate::CellState;
use cell_maps::Held;
use grid_address::Cell;

/// One more than the number of each place of the sheet, counted row by row.
const PLACES: u32 = 2_097_152;

// The number of a place, counted row by row.
fn number_of(cell: Cell) -> u32
    ensures number { result ≡ number_of cell }
    ensures below { result < 16777216 }
{
    u32::from(cell.row) * 256 + u32::from(cell.col)
}

// The number of a held cell that lies before a place of this number; that number itself where the cell has no state.
fn number_before(held: &Held<CellState>, least: u32) -> Option<u32>
    ensures { IfSome result (λ number. IsBefore held.now number least) }
{
    match held {
        Held::Filled(cell, _) => {
            cell.is_on_sheet();
            let number = number_of(*cell);
            if number < least { Some(number) } else { None }
        }
        Held::Erased(_) => Some(least),
    }
}

/// Whether held cells stand in row order, those that have a state.
pub(crate) fn is_in_order(held: &[Held<CellState>]) -> bool
    ensures { result ≡ true → entries (from_entries {R = place_cmp} (filled held.now)) ≡ filled held.now }
{
    let mut at = held.len();
    let mut least = PLACES;
    while at > 0 {
        let place = at - 1;
        let Some(number) = number_before(&held[place], least) else {
            return false;
        };
        least = number;
        at = place;
    }
    true
}

/// The first held cell with a state from a place in their order on, and the place behind it.
pub(crate) fn held_from(held: &[Held<CellState>], at: usize) -> Option<(Cell, &CellState, usize)>
    ensures some { IfSome result (λ x. filled (drop at held.now) ≡ (x.0, x.1.now) ∷ filled (drop x.2 held.now)) }
    ensures none { IfNone result (filled (drop at held.now) ≡ []) }
{
    let mut place = at;
    while place < held.len() {
        match &held[place] {
            Held::Filled(cell, state) => return Some((*cell, state, place + 1)),
            Held::Erased(_) => {}
        }
        place += 1;
    }
    None
}
