// What a state has otherwise than another one.
ghost use Rattle.std.specs.Prelude.{◌≡◌, [], Bool, IfOk, None, Some, false};
ghost use Rattle.edit_log.specs.Changes.{with_changes};
ghost use Rattle.sheet_undo.specs.inner.Keeping.{before, columns_or, names_or, sheet_of, sheet_with};
ghost use Rattle.sheet_store.specs.Choices.{Choices};

use crate::KeptState;
use crate::changes::{CellChanges, changes_of};
use crate::columns::KeptColumns;
use lics_text::Memory;
use range_names::Names;
use sheet_store::{SavedSheet, Settings, Store};
use std::alloc::Global;
use std::marker::Model;

/// What a state has otherwise than another one, the next: the cells that differ, the columns and the names where they
/// may differ, and the settings and the marks as they are.
#[derive(Drop)]
pub struct Difference {
    changes: CellChanges,
    columns: Option<KeptColumns>,
    names: Option<Names>,
    settings: Settings,
    circular: bool,
    stale: bool,
}

impl Model for Difference {
    ghost use Rattle.formula_tree.specs.contracts.formula.Formula as formula;
    ghost use Rattle.std.specs.Coded.{codes};
    ghost use Rattle.std.specs.FinMap as map;
    ghost use Rattle.sheet_undo.specs.inner.Keeping.{Before};

    ghost Value = { Before };

    ghost coded = { Prim.hlevel (codes, map.code, formula.the_row.coded) };

    ghost view = { λ d. record {
      changes = d.changes;
      columns = d.columns;
      names = d.names;
      settings = d.settings;
      circular = d.circular;
      stale = d.stale;
    } };
}

// Names, or equal ones to those of the next state.
fn names_before(own: &Option<Names>, next: Names) -> Result<Names, Memory>
    ensures { IfOk result (λ names. names ≡ names_or own.now next) }
{
    match own {
        Some(names) => names.copy(),
        None => Ok(next),
    }
}

impl Difference {
    /// Nothing but these settings and marks.
    pub fn beside(alloc: Global, settings: Settings) -> Difference
        ensures { result ≡ record {
          changes = [];
          columns = None;
          names = None;
          settings = settings;
          circular = false;
          stale = false;
        } }
    {
        Difference {
            changes: CellChanges::none(alloc),
            columns: None,
            names: None,
            settings,
            circular: false,
            stale: false,
        }
    }

    /// The difference that has these parts.
    pub fn with(
        changes: CellChanges,
        columns: Option<KeptColumns>,
        names: Option<Names>,
        settings: Settings,
        circular: bool,
        stale: bool,
    ) -> Difference
        ensures { result ≡ record {
          changes = changes;
          columns = columns;
          names = names;
          settings = settings;
          circular = circular;
          stale = stale;
        } }
    {
        Difference {
            changes,
            columns,
            names,
            settings,
            circular,
            stale,
        }
    }

    /// What a state has otherwise than a sheet of these cells, columns and names.
    pub fn of(kept: &KeptState, store: &Store, names: &Names) -> Result<Difference, Memory>
        ensures { IfOk result (λ d. (settings : Choices) (circular stale : Bool) →
            before d (sheet_with store.now names.now settings circular stale) ≡ sheet_of kept.now) }
    {
        let changes = changes_of(&kept.saved.store, store)?;
        let columns = KeptColumns::of(&kept.saved.store)?;
        let own = kept.saved.names.copy()?;
        Ok(Difference {
            changes,
            columns: Some(columns),
            names: Some(own),
            settings: kept.saved.settings,
            circular: kept.circular,
            stale: kept.stale,
        })
    }

    // The cells and columns of the state that differs so from the next one.
    fn store_before(&self, next: Store) -> Result<Store, Memory>
        ensures { IfOk result (λ s. s ≡ columns_or self.now.columns (with_changes next self.now.changes)) }
    {
        let mut store = next;
        self.changes.make(&mut store)?;
        if let Some(columns) = &self.columns {
            columns.put(&mut store);
        }
        Ok(store)
    }

    /// The state that differs so from the next one.
    pub fn before(&self, next: KeptState) -> Result<KeptState, Memory>
        ensures { IfOk result (λ k. sheet_of k ≡ before self.now (sheet_of next)) }
    {
        let saved = next.saved;
        let store = self.store_before(saved.store)?;
        let names = names_before(&self.names, saved.names)?;
        Ok(KeptState {
            saved: SavedSheet {
                store,
                names,
                settings: self.settings,
            },
            circular: self.circular,
            stale: self.stale,
        })
    }
}
