// The settings of a sheet.
ghost use Rattle.std.specs.Prelude.{◌≡◌, true, false};
ghost use Rattle.sheet_store.specs.Choices.{fresh, AreWithin};

use crate::Order;
use grid_address::{Cell, Format};
use lics_text::LabelPrefix;
use std::marker::Model;

/// The settings of a sheet: 1 to 50 passes of a recalculation, a label prefix of `'`, `"` or `^`, and a column width of
/// 1 to 240 (Release 2 manual for the quantities, this project's choice for the most passes).
#[derive(Clone, Copy, PartialEq, Eq)]
pub struct Settings {
    pub automatic: bool,
    pub passes: u8,
    pub prefix: LabelPrefix,
    pub format: Format,
    pub width: u8,
    pub protection: bool,
    pub pointer: Cell,
    pub order: Order,
}

impl Model for Settings {
    ghost use Rattle.sheet_store.specs.Choices.{AreWithin, Choices};

    ghost Value = { Choices };

    ghost view = { λ s. record {
      automatic = s.automatic;
      passes = s.passes;
      prefix = s.prefix;
      format = s.format.0;
      width = s.width;
      protection = s.protection;
      pointer = s.pointer;
      order = s.order;
    } };

    ghost invariant = { λ s. AreWithin (record {
      automatic = s.automatic;
      passes = s.passes;
      prefix = s.prefix;
      format = s.format.0;
      width = s.width;
      protection = s.protection;
      pointer = s.pointer;
      order = s.order;
    }) };

    ghost inverse = { λ c. record {
      automatic = c.automatic;
      passes = c.passes;
      prefix = c.prefix;
      format = record { 0 = c.format };
      width = c.width;
      protection = c.protection;
      pointer = c.pointer;
      order = c.order;
    } };
}

impl Settings {
    /// The settings of a fresh sheet.
    pub fn fresh() -> Settings
        ensures { result ≡ fresh }
    {
        Settings {
            automatic: true,
            passes: 1,
            prefix: LabelPrefix::Left,
            format: Format::GENERAL,
            width: 9,
            protection: false,
            pointer: Cell { row: 0, col: 0 },
            order: Order::Natural,
        }
    }

    /// The settings are within their limits. It does nothing, and is called for its clause.
    pub fn are_within(self)
        ensures { AreWithin self }
    {
        let _passes = self.passes;
    }
}
