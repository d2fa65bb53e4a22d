// Which rows of the sheet a step may have changed.
ghost use Rattle.std.specs.Prelude.{◌≡◌, ◌∷◌, [], true, ℕ, IfSome};
ghost use Rattle.cell_maps.specs.Sets.{has};
ghost use Rattle.grid_address.specs.Place.{same_place, Place};
ghost use Rattle.macro_engine.specs.RowSpans.{is_in};
ghost use Rattle.macro_engine.specs.inner.Settling.{CoversWrites};

use formula_eval::Tally;
use grid_address::Cell;
use recalculation::recalculation_is_cut;
use sheet_store::Writes;
use work_sheet::Worksheet;

/// The rows of the sheet from one to another.
#[derive(Clone, Copy)]
pub struct RowSpan {
    pub first: u16,
    pub last: u16,
}

// How many dirty formulas are looked at: where there are more, all rows may be changed.
const FEW: usize = 20;

impl RowSpan {
    // A row alone.
    fn of(row: u16) -> RowSpan
        ensures { is_in result row ≡ true }
    {
        RowSpan {
            first: row,
            last: row,
        }
    }

    // A row beside.
    fn insert(&mut self, row: u16)
        ensures row { is_in self.new row ≡ true }
        ensures others { (k : ℕ) → is_in self.old k ≡ true → is_in self.new k ≡ true }
    {
        self.first = self.first.min(row);
        self.last = self.last.max(row);
    }

    // The rows of cells beside.
    fn insert_all(&mut self, cells: &[Cell])
        ensures cells { (c : Place) → has same_place cells.now c ≡ true → is_in self.new c.row ≡ true }
        ensures others { (k : ℕ) → is_in self.old k ≡ true → is_in self.new k ≡ true }
    {
        for cell in cells {
            self.insert(cell.row);
        }
    }
}

/// The rows that a write which was made has changed, with the recalculation that follows by itself: those of its cell
/// and of the formulas that are dirty. None where no recalculation follows, and where these are many.
pub fn rows_behind(writes: &Writes, sheet: &Worksheet) -> Option<RowSpan>
    ensures { IfSome result (λ span. CoversWrites span writes.now sheet.now) }
{
    if writes.len() != 1 || !sheet.settings().automatic || sheet.dirty_count() > FEW {
        return None;
    }
    let Some(write) = writes.get(0) else {
        return None;
    };
    // Both are called for their clauses.
    sheet.is_kept();
    recalculation_is_cut::<Tally>();
    let mut span = RowSpan::of(write.cell.row);
    span.insert_all(sheet.dirty_cells());
    Some(span)
}
