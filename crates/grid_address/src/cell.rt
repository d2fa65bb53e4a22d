ghost use Rattle.std.specs.Prelude.{◌≡◌, ◌<◌};
ghost use Rattle.grid_address.specs.Place.{rank, InSheet};

use std::marker::Model;

/// A cell: a column of 0 to 255 (A to IV) and a row of 0 to 8191. The fields stand in the order of
/// comparison, which is row order: by row, then by column.
#[derive(Clone, Copy, PartialEq, Eq, PartialOrd, Ord, Hash)]
pub struct Cell {
    pub row: u16,
    pub col: u8,
}

impl Model for Cell {
    ghost use Rattle.std.specs.Prelude.{◌<◌};
    ghost use Rattle.grid_address.specs.Place.{Place};
    ghost use Rattle.grid_address.specs.Limits.{COLUMNS, ROWS};

    ghost Value = { Place };

    ghost view = { λ c. record { row = c.row; col = c.col } };

    ghost invariant = { λ c. (c.row < ROWS) × (c.col < COLUMNS) };

    ghost inverse = { λ p. record { row = p.row; col = p.col } };
}

impl Cell {
    /// A cell lies in the sheet. It does nothing, and is called for its clause.
    pub fn is_on_sheet(&self)
        ensures { InSheet self.now }
    {
        let _row = self.row;
    }

    /// Where the cell stands among all of the sheet, in row order.
    #[inline(always)]
    pub fn rank(&self) -> u32
        ensures rank { result ≡ rank self.now }
        ensures below { result < 16777216 }
    {
        u32::from(self.row) * 256 + u32::from(self.col)
    }
}
