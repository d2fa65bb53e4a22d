// The width of a column's own.
ghost use Rattle.std.specs.Prelude.{◌≡◌, ◌≤◌};
ghost use Rattle.std.specs.Option.{ForSome};
ghost use Rattle.sheet_store.specs.Grid.{number_of_width, own_width};

use std::marker::Model;

/// The widest that a column can be (Release 2 manual).
pub const MOST_WIDTH: u8 = 240;

/// The width of a column's own, 1 to 240, or none.
#[derive(Clone, Copy)]
pub struct OwnWidth {
    // 0 stands for none.
    bytes: u8,
}

impl Model for OwnWidth {
    ghost use Rattle.std.specs.Prelude.{ℕ, ◌≤◌};
    ghost use Rattle.sheet_store.specs.Limits.{MOST_WIDTH};

    ghost Value = { ℕ };

    ghost view = { λ w. w.bytes };

    ghost invariant = { λ w. w.bytes ≤ MOST_WIDTH };

    ghost inverse = { λ n. record { bytes = n } };
}

impl OwnWidth {
    /// No own width: the column is as wide as the settings tell.
    pub const NONE: OwnWidth = OwnWidth { bytes: 0 };

    /// The own width, as it is kept in one byte.
    pub fn of(width: Option<u8>) -> OwnWidth
        requires { ForSome width (λ n. (1 ≤ n) × (n ≤ MOST_WIDTH)) }
        ensures { result ≡ number_of_width width }
    {
        match width {
            Some(bytes) => OwnWidth { bytes },
            None => OwnWidth::NONE,
        }
    }

    /// The own width, where there is one.
    pub fn told(self) -> Option<u8>
        ensures told { result ≡ own_width self }
        ensures within { ForSome result (λ n. (1 ≤ n) × (n ≤ MOST_WIDTH)) }
    {
        if self.bytes == 0 {
            None
        } else {
            Some(self.bytes)
        }
    }
}
