// A sheet, whose values are kept right by recalculation over its dirty formulas.
ghost use Rattle.std.specs.Prelude.{◌≡◌, []};
ghost use Rattle.std.specs.FinMap as map;
ghost use Rattle.sheet_undo.specs.Histories.{no_history};
ghost use Rattle.sheet_undo.specs.inner.Keeping.{history_of};
ghost use Rattle.work_sheet.specs.Seen.{fresh_sheet, of_worksheet};
ghost use Rattle.work_sheet.specs.Sheets.{Worksheet};

mod edits;
mod recalculating;
mod settings;
mod telling;

use cell_maps::CellSet;
use depend_graph::Graph;
use formula_eval::{Means, Tally};
use range_names::Names;
use sheet_store::{Settings, Store};
use sheet_undo::Past;
use std::alloc::Global;
use std::marker::{Model, PhantomData};

/// A sheet over an evaluator: its cells and columns, its names and its settings. It keeps which formulas are dirty, so
/// that a recalculation evaluates those alone: a formula that isn't dirty has its meaning as its value.
#[derive(Drop)]
pub struct WorksheetOf<E: Means> {
    pub(crate) store: Store,
    pub(crate) graph: Graph,
    pub(crate) dirty: CellSet,
    pub(crate) circular: bool,
    pub(crate) stale: bool,
    pub(crate) names: Names,
    pub(crate) settings: Settings,
    pub(crate) past: Past,
    pub(crate) with: PhantomData<E>,
}

/// A sheet that evaluates formulas by their meaning.
pub type Worksheet = WorksheetOf<Tally>;

impl<E: Means> Model for WorksheetOf<E> {
    ghost use Rattle.formula_tree.specs.contracts.formula.Formula as formula;
    ghost use Rattle.std.specs.Coded.{codes};
    ghost use Rattle.std.specs.FinMap as map;
    ghost use Rattle.sheet_undo.specs.inner.Keeping.{history_of};
    ghost use Rattle.work_sheet.specs.Sheets.{Worksheet};
    ghost use Rattle.work_sheet.specs.inner.Keeping.{IsKept};

    ghost Value = { Worksheet };

    ghost coded = { Prim.hlevel (codes, map.code, formula.the_row.coded) };

    ghost view = { λ s. record {
      grid = s.store;
      dirty = s.dirty.keys;
      circular = s.circular;
      stale = s.stale;
      names = s.names;
      settings = s.settings;
      history = history_of s.past s.store s.names;
    } };

    ghost invariant = { λ s. IsKept E.meaning s.graph s.store s.dirty.keys s.settings.order };
}

impl<E: Means> WorksheetOf<E> {
    /// A fresh sheet: no cell, no name, and the settings of a fresh sheet.
    pub fn new(alloc: Global) -> Self
        ensures sheet { of_worksheet result ≡ fresh_sheet }
        ensures dirty { result.dirty ≡ [] }
        ensures history { result.history ≡ no_history }
    {
        WorksheetOf {
            store: Store::new(alloc),
            graph: Graph::new(alloc),
            dirty: CellSet::new(alloc),
            circular: false,
            stale: false,
            names: Names::new(alloc),
            settings: Settings::fresh(),
            past: Past::new(alloc),
            with: PhantomData,
        }
    }

    /// The memory that the sheet is in.
    pub fn alloc(&self) -> Global {
        self.store.alloc()
    }
}
