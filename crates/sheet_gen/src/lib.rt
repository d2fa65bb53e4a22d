//! A worksheet that is made by a rule, for trials with many rows.
#![tactic(auto)]

ghost use Rattle.std.specs.Prelude.{◌≡◌, ◌≤◌, ℕ, IfOk};
ghost use Rattle.sheet_store.specs.declared.writes.SavedSheet.{SavedSheet};
ghost use Rattle.sheet_gen.specs.Rows.{IsGenerated};

mod rows;

use lics_text::Memory;
use range_names::Names;
use rows::put_row;
use sheet_store::{SavedSheet, Settings, Store};
use std::alloc::Global;

/// The worksheet of so many rows, 1 to 8000. In each row, numbered from 1, A holds 37 times that number modulo 101, B
/// the formula of three times A, and C the formula of the sum of B so far: `+B1` in the first row, and below it the
/// cell above plus B. No formula was calculated yet, so their values are 0. All else is as in a fresh worksheet. (The
/// rule is this project's choice.)
pub fn generate(alloc: Global, rows: u16) -> Result<SavedSheet, Memory>
    requires some { 1 ≤ rows }
    requires most { rows ≤ 8000 }
    ensures { IfOk result (IsGenerated rows) }
{
    let mut store = Store::new(alloc);
    for row in 0..rows {
        put_row(alloc, &mut store, row)?;
    }
    Ok(SavedSheet {
        store,
        names: Names::new(alloc),
        settings: Settings::fresh(),
    })
}

/// There is one worksheet of so many rows.
pub fn one_sheet_is_generated()
    ensures { (rows : ℕ) (s t : SavedSheet) → IsGenerated rows s → IsGenerated rows t → s ≡ t }
{}
