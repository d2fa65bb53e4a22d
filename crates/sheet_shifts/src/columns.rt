// The columns' own widths and marks, which go with them.
ghost use Rattle.std.specs.Prelude.{◌≡◌, ◌<◌, false, set};
ghost use Rattle.ref_adjust.specs.Lines.{AreLines, IsChange};
ghost use Rattle.sheet_shifts.specs.Columns.{columns_after};
ghost use Rattle.sheet_shifts.specs.inner.Puts.{own_of, source_changed, source_deleted, source_inserted, source_of};
ghost use Rattle.sheet_shifts.specs.Shifts.{IsShift};

use crate::Shift;
use grid_address::COLUMNS;
use ref_adjust::Change;
use sheet_store::Store;

// The column that is now this one, after columns were inserted; none for a new one.
fn source_inserted(first: u16, count: u16, col: u16) -> Option<u8>
    requires inside { col < COLUMNS }
    requires lines { AreLines COLUMNS first count }
    ensures { result ≡ source_inserted first count col }
{
    if col < first {
        Some(col as u8)
    } else if col < first + count {
        None
    } else {
        Some((col - count) as u8)
    }
}

// The column that is now this one, after columns were deleted; none where no column moved up.
fn source_deleted(first: u16, count: u16, col: u16) -> Option<u8>
    requires inside { col < COLUMNS }
    requires lines { AreLines COLUMNS first count }
    ensures { result ≡ source_deleted first count col }
{
    if col < first {
        Some(col as u8)
    } else if col + count < COLUMNS {
        Some((col + count) as u8)
    } else {
        None
    }
}

// The same after rows or columns were inserted or deleted.
fn source_changed(change: Change, col: u16) -> Option<u8>
    requires inside { col < COLUMNS }
    requires lines { IsChange change }
    ensures { result ≡ source_changed change col }
{
    match change {
        Change::InsertRows(_, _) | Change::DeleteRows(_, _) => Some(col as u8),
        Change::InsertColumns(first, count) => source_inserted(first, count, col),
        Change::DeleteColumns(first, count) => source_deleted(first, count, col),
    }
}

// The same after any shift.
fn source_of(shift: &Shift, col: u16) -> Option<u8>
    requires inside { col < COLUMNS }
    requires shift { IsShift shift.now }
    ensures { result ≡ source_of shift.now col }
{
    match shift {
        Shift::Lines(change) => source_changed(*change, col),
        Shift::Block(_, _) => Some(col as u8),
    }
}

// Gives a column what a column of another store has of its own; nothing where there is none.
fn put_column(store: &Store, source: Option<u8>, into: &mut Store, col: u8)
    ensures { into.new ≡ record into.old {
      widths = set into.old.widths col (own_of 0 store.now.widths source);
      hidden = set into.old.hidden col (own_of false store.now.hidden source);
    } }
{
    match source {
        Some(source) => {
            into.set_width(col, store.width(source));
            into.set_hidden(col, store.is_hidden(source));
        }
        None => {
            into.set_width(col, None);
            into.set_hidden(col, false);
        }
    }
}

/// Gives each column what goes with it.
pub fn put_columns(shift: &Shift, store: &Store, into: &mut Store)
    requires { IsShift shift.now }
    ensures { into.new ≡ record into.old {
      widths = columns_after shift.now 0 store.now.widths;
      hidden = columns_after shift.now false store.now.hidden;
    } }
{
    store.are_columns();
    into.are_columns();
    for col in 0..256u16 {
        put_column(store, source_of(shift, col), into, col as u8);
    }
}
