// A cell that has a number.
ghost use Rattle.std.specs.Prelude.{◌≡◌};
ghost use Rattle.std.specs.Option.{option_copied_mut};
ghost use Rattle.std.specs.Borrow.{sem};
ghost use Rattle.cell_maps.specs.Filled.{item_in};
ghost use Rattle.cell_maps.specs.inner.Lends.{lends_item};

use grid_address::Cell;

/// A cell that has a number: one with its item, or one whose item was taken out.
#[derive(Drop)]
pub enum Held<T> {
    Filled(Cell, T),
    Erased(Cell),
}

impl<T> Held<T> {
    // Its item, if it has one.
    #[inline(always)]
    pub(crate) fn item_mut(&mut self) -> Option<&mut T>
        ensures* writes_back { sem 𝓛 (lends_item T.row self.entry result) }
        ensures value { option_copied_mut result ≡ item_in self.old }
    {
        match self {
            Held::Filled(_, item) => Some(item),
            Held::Erased(_) => None,
        }
    }
    // Its item, if it has one, by value.
    pub(crate) fn into_item(self) -> Option<T>
        ensures { result ≡ item_in self }
    {
        match self {
            Held::Filled(_, item) => Some(item),
            Held::Erased(_) => None,
        }
    }
}
