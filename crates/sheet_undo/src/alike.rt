// Whether a sheet is as it was, but for the pointer.
ghost use Rattle.std.specs.Bool.{Decides};
ghost use Rattle.std.specs.Prelude.{◌≡◌, IfOk};
ghost use Rattle.std.specs.FinMap as map;
ghost use Rattle.edit_log.specs.Changes.{all_changed, AreOnce};
ghost use Rattle.sheet_undo.specs.Histories.{but_pointer};
ghost use Rattle.sheet_undo.specs.inner.Keeping.{columns_or, names_or};

use crate::cells::{TwoCodes, are_same_cells};
use crate::changes::{has_state, is_absent};
use crate::columns::are_same_columns;
use crate::names::are_same_names;
use edit_log::Change;
use grid_address::Cell;
use lics_text::Memory;
use range_names::Names;
use sheet_store::{Settings, Store};

// Settings with the pointer in A1.
fn but_pointer(settings: &Settings) -> Settings
    ensures { result ≡ but_pointer settings.now }
{
    Settings {
        pointer: Cell { row: 0, col: 0 },
        ..*settings
    }
}

/// Whether settings other than the pointer are the same.
pub fn are_same_settings(one: &Settings, other: &Settings) -> bool
    ensures { Decides result (but_pointer one.now ≡ but_pointer other.now) }
{
    but_pointer(one) == but_pointer(other)
}

/// Whether two stores hold the same.
pub fn is_same_store(one: &Store, other: &Store) -> Result<bool, Memory>
    ensures { IfOk result (λ same. Decides same (one.now ≡ other.now)) }
{
    if !are_same_columns(one, other) {
        return Ok(false);
    }
    are_same_cells(one, other)
}

/// Whether the names that are kept, if some are, are these.
pub fn are_names_kept(own: &Option<Names>, names: &Names) -> bool
    ensures { Decides result (names_or own.now names.now ≡ names.now) }
{
    match own {
        Some(kept) => are_same_names(kept, names),
        None => true,
    }
}

/// Whether the columns that are kept, if some are, are those of a store.
pub fn are_columns_kept(own: &Option<Store>, store: &Store) -> bool
    ensures { Decides result (columns_or own.now store.now ≡ store.now) }
{
    match own {
        Some(kept) => are_same_columns(kept, store),
        None => true,
    }
}

// Whether a cell of a store has what a change gives it.
fn is_as_changed(change: &Change, store: &Store, codes: &mut TwoCodes) -> Result<bool, Memory>
    ensures { IfOk result (λ same. Decides same (map.get store.now.cells change.now.0 ≡ change.now.1)) }
{
    match change.state(store.alloc())? {
        Some(state) => has_state(store, change.cell(), &state, codes),
        None => Ok(is_absent(store, change.cell())),
    }
}

/// Whether changes, each of another cell, leave a store as it is.
pub fn are_changes_made(changes: &[Change], store: &Store) -> Result<bool, Memory>
    requires { AreOnce changes.now }
    ensures { IfOk result (λ same. Decides same (all_changed store.now.cells changes.now ≡ store.now.cells)) }
{
    let mut codes = TwoCodes::new(store.alloc());
    for change in changes {
        if !is_as_changed(change, store, &mut codes)? {
            return Ok(false);
        }
    }
    Ok(true)
}
