// The past of a sheet.
ghost use Rattle.std.specs.Bool.{Decides};
ghost use Rattle.std.specs.Prelude.{◌≡◌, ◌≤◌, ◌∷◌, [], Bool, List, drop, length, option_map, IfOk, None, OnErr, OnOk, Some, true, false};
ghost use Rattle.cell_maps.specs.Sets.{has};
ghost use Rattle.edit_log.specs.Changes.{all_changed};
ghost use Rattle.grid_address.specs.Place.{same_place};
ghost use Rattle.range_names.specs.Names.{NameMap};
ghost use Rattle.sheet_store.specs.Choices.{Choices};
ghost use Rattle.sheet_store.specs.Grid.{Grid};
ghost use Rattle.sheet_undo.specs.Histories.{ended, latest, no_history, IsAlike, Sheet, Tells};
ghost use Rattle.sheet_undo.specs.inner.Keeping.{base, before, earlier, grid_before, grid_or, history_of, names_or, own_columns, sheet_of, sheet_with, with_nothing, IsSameBut, IsSettled, Past};

use crate::KeptState;
use crate::alike::{
    are_changes_made, are_columns_kept, are_names_kept, are_same_settings, is_same_store,
};
use crate::changes::{CellChanges, change_store, changes_of};
use crate::columns::{KeptColumns, columns_of};
use crate::difference::Difference;
use cell_maps::CellSet;
use edit_log::EditLog;
use grid_address::Cell;
use lics_text::Memory;
use range_names::Names;
use sheet_store::{SavedSheet, Settings, Store};
use std::alloc::Global;
use std::marker::Model;
use std::mem::replace;

/// How many states are kept at most.
const MOST_KEPT: usize = 20;

/// What is kept of the states of a sheet before its last commands, at most 20, and of the state in which a command was
/// begun, if one was (the form of undo is this project's choice, after the Undo of later releases). The states are told
/// by what they have otherwise than the sheet: each change of the sheet is noted before it is made. Where no command is
/// begun and no state is kept, nothing is noted.
#[derive(Drop)]
pub struct Past {
    // The kept states, the latest first, each by what it has otherwise than the one after it, the first than the base.
    kept: Vec<Difference>,
    // Whether the base is the begun state.
    is_begun: bool,
    // What the base has otherwise than the sheet: its cells, its columns and its names.
    log: EditLog,
    columns: Option<Store>,
    names: Option<Names>,
    // The sheet's cells and columns when it was replaced, if it was: the log and the columns go by them.
    whole: Option<Store>,
    // The settings and the marks of the begun state.
    settings: Settings,
    circular: bool,
    stale: bool,
}

impl Model for Past {
    ghost use Rattle.formula_tree.specs.contracts.formula.Formula as formula;
    ghost use Rattle.std.specs.Coded.{codes};
    ghost use Rattle.std.specs.FinMap as map;
    ghost use Rattle.std.specs.Prelude.{◌≤◌, length};
    ghost use Rattle.sheet_undo.specs.inner.Keeping.{Past};

    ghost Value = { Past };

    ghost coded = { Prim.hlevel (codes, map.code, formula.the_row.coded) };

    ghost view = { λ p. record {
      kept = p.kept.items;
      is_begun = p.is_begun;
      log = p.log;
      whole = p.whole;
      columns = p.columns;
      names = p.names;
      settings = p.settings;
      circular = p.circular;
      stale = p.stale;
    } };

    ghost invariant = { λ p. length p.kept.items ≤ 20 };
}

// The names of the base.
fn names_before(own: &Option<Names>, names: &Names) -> Result<Names, Memory>
    ensures { IfOk result (λ n. n ≡ names_or own.now names.now) }
{
    match own {
        Some(kept) => kept.copy(),
        None => names.copy(),
    }
}

// Takes the first away, where there is one.
fn drop_first(kept: &mut Vec<Difference>)
    ensures { kept.new.items ≡ drop 1 kept.old.items }
{
    if kept.len() > 0 {
        let _first = kept.remove(0);
    }
}

impl Past {
    /// No state is kept, and none is begun.
    pub fn new(alloc: Global) -> Past
        ensures { (g : Grid) (names : NameMap) → history_of result g names ≡ no_history }
    {
        Past {
            kept: Vec::new(alloc),
            is_begun: false,
            log: EditLog::new(alloc),
            columns: None,
            names: None,
            whole: None,
            settings: Settings::fresh(),
            circular: false,
            stale: false,
        }
    }

    // Whether no state is kept, and none is begun.
    fn is_idle(&self) -> bool
        ensures { result ≡ true → (self.now.kept ≡ []) × (self.now.is_begun ≡ false) }
    {
        !self.is_begun && self.kept.len() == 0
    }

    /// Whether a command is begun.
    pub fn has_begun(&self) -> bool
        ensures { result ≡ self.now.is_begun }
    {
        self.is_begun
    }

    /// How many states are kept, at most 20.
    pub fn len(&self) -> usize
        ensures count { result ≡ length self.now.kept }
        ensures most { result ≤ 20 }
    {
        self.kept.len()
    }

    /// Notes the states of cells, which may then change. The history stays, also where there is no memory.
    pub fn note(&mut self, store: &Store, cells: &[Cell]) -> Result<(), Memory>
        ensures free { OnOk result
            ((g : Grid) (names : NameMap) → IsSameBut (has same_place cells.now) store.now g →
            history_of self.new g names ≡ history_of self.old store.now names) }
        ensures same { (names : NameMap) → history_of self.new store.now names ≡ history_of self.old store.now names }
    {
        if self.is_idle() || self.whole.is_some() {
            return Ok(());
        }
        self.log.note_all(store, cells)?;
        Ok(())
    }

    /// Notes the states of the cells of a set, which may then change. The history stays, also where there is no memory.
    pub fn note_set(&mut self, store: &Store, set: &CellSet) -> Result<(), Memory>
        ensures free { OnOk result
            ((g : Grid) (names : NameMap) → IsSameBut (has same_place set.now.keys) store.now g →
            history_of self.new g names ≡ history_of self.old store.now names) }
        ensures same { (names : NameMap) → history_of self.new store.now names ≡ history_of self.old store.now names }
    {
        if self.is_idle() || self.whole.is_some() {
            return Ok(());
        }
        self.log.note_set(store, set)?;
        Ok(())
    }

    /// Notes the columns, which may then change. The history stays.
    pub fn note_columns(&mut self, store: &Store)
        ensures { (g : Grid) (names : NameMap) → g.cells ≡ store.now.cells →
            history_of self.new g names ≡ history_of self.old store.now names }
    {
        if self.is_idle() || self.whole.is_some() {
            return;
        }
        if self.columns.is_none() {
            self.columns = Some(columns_of(store));
        }
    }

    /// Notes the names, which may then change. The history stays, also where there is no memory.
    pub fn note_names(&mut self, names: &Names) -> Result<(), Memory>
        ensures free { OnOk result
            ((g : Grid) (n : NameMap) → history_of self.new g n ≡ history_of self.old g names.now) }
        ensures err { OnErr result (self.new ≡ self.old) }
    {
        if self.is_idle() {
            return Ok(());
        }
        if self.names.is_none() {
            let own = names.copy()?;
            self.names = Some(own);
        }
        Ok(())
    }

    /// Takes the names, in whose place others come. The history stays.
    pub fn take_names(&mut self, names: Names)
        ensures { (g : Grid) (n : NameMap) → history_of self.new g n ≡ history_of self.old g names }
    {
        if self.is_idle() {
            return;
        }
        if self.names.is_none() {
            self.names = Some(names);
        }
    }

    // The cells and columns by which the base is told.
    fn replaced_or<'a>(&'a self, store: &'a Store) -> &'a Store
        ensures { result.now ≡ grid_or self.now.whole store.now }
    {
        match &self.whole {
            Some(whole) => whole,
            None => store,
        }
    }

    // All cells and columns of the base.
    fn store_before(&self, store: &Store) -> Result<Store, Memory>
        ensures { IfOk result (λ s. s ≡ grid_before self.now.whole self.now.columns self.now.log store.now) }
    {
        let mut base = self.replaced_or(store).copy()?;
        change_store(self.log.changes(), &self.columns, &mut base)?;
        Ok(base)
    }

    // The base.
    fn base(&self, store: &Store, names: &Names) -> Result<KeptState, Memory>
        ensures { IfOk result (λ k. sheet_of k ≡ base self.now store.now names.now) }
    {
        let before = self.store_before(store)?;
        let own = names_before(&self.names, names)?;
        Ok(KeptState {
            saved: SavedSheet {
                store: before,
                names: own,
                settings: self.settings,
            },
            circular: self.circular,
            stale: self.stale,
        })
    }

    // Takes the cells and columns, in whose place others come. The history stays.
    fn take_store(&mut self, store: Store)
        ensures { (g : Grid) (n : NameMap) → history_of self.new g n ≡ history_of self.old store n }
    {
        if self.is_idle() {
            return;
        }
        if self.whole.is_none() {
            self.whole = Some(store);
        }
    }

    /// Takes all cells, columns and names of a sheet, in whose place another comes. The history stays.
    pub fn take_all(&mut self, store: Store, names: Names)
        ensures { (g : Grid) (n : NameMap) → history_of self.new g n ≡ history_of self.old store names }
    {
        self.take_store(store);
        self.take_names(names);
    }

    // Where the sheet was replaced, makes of what was replaced the base. The history stays, also where there is no
    // memory.
    fn settle(&mut self) -> Result<(), Memory>
        ensures settled { OnOk result (IsSettled self.new) }
        ensures begun { self.new.is_begun ≡ self.old.is_begun }
        ensures history { (g : Grid) (n : NameMap) → history_of self.new g n ≡ history_of self.old g n }
    {
        if let Some(whole) = &mut self.whole {
            change_store(self.log.changes(), &self.columns, whole)?;
            drop(self.log.take());
            self.columns = None;
        }
        Ok(())
    }

    // Forgets what was noted.
    fn forget(&mut self)
        ensures { self.new ≡ with_nothing self.old }
    {
        drop(self.log.take());
        self.columns = None;
        self.names = None;
        self.whole = None;
    }

    // Whether nothing was noted.
    fn is_even(&self) -> bool
        ensures { result ≡ true → self.now ≡ with_nothing self.now }
    {
        self.log.is_empty()
            && self.columns.is_none()
            && self.names.is_none()
            && self.whole.is_none()
    }

    // Tells the latest kept state by what it has otherwise than the sheet as it stands. The past is unchanged where
    // there is no memory.
    fn turn_first(&mut self, store: &Store, names: &Names) -> Result<(), Memory>
        ensures kept { OnOk result
            ((settings : Choices) (circular stale : Bool) →
            earlier (sheet_with store.now names.now settings circular stale) self.new.kept
            ≡ earlier (base self.old store.now names.now) self.old.kept) }
        ensures beside { OnOk result (self.new ≡ record self.old { kept = self.new.kept }) }
        ensures err { OnErr result (self.new ≡ self.old) }
    {
        if self.kept.len() == 0 {
            return Ok(());
        }
        let base = self.base(store, names)?;
        let first = self.kept[0].before(base)?;
        let difference = Difference::of(&first, store, names)?;
        self.kept[0] = difference;
        Ok(())
    }

    /// A command begins: the sheet's present state, which has these parts, is the begun one. The past is unchanged
    /// where there is no memory; where nothing was noted none is taken.
    pub fn begin(
        &mut self,
        store: &Store,
        names: &Names,
        settings: &Settings,
        circular: bool,
        stale: bool,
    ) -> Result<(), Memory>
        ensures ok { OnOk result (history_of self.new store.now names.now ≡
            record (history_of self.old store.now names.now) {
              begun = Some (sheet_with store.now names.now settings.now circular stale);
            }) }
        ensures err { OnErr result (self.new ≡ self.old) }
    {
        if !self.is_even() {
            self.turn_first(store, names)?;
            self.forget();
        }
        self.settings = *settings;
        self.circular = circular;
        self.stale = stale;
        self.is_begun = true;
        Ok(())
    }

    // Whether the base has the cells and columns of a store.
    fn is_store(&self, store: &Store) -> Result<bool, Memory>
        requires { IsSettled self.now }
        ensures { IfOk result
            (λ same. Decides same (grid_before self.now.whole self.now.columns self.now.log store.now ≡ store.now)) }
    {
        if let Some(whole) = &self.whole {
            return is_same_store(whole, store);
        }
        if !are_columns_kept(&self.columns, store) {
            return Ok(false);
        }
        are_changes_made(self.log.changes(), store)
    }

    // Whether the base is alike to a sheet of these parts.
    fn is_alike(&self, store: &Store, names: &Names, settings: &Settings) -> Result<bool, Memory>
        requires { IsSettled self.now }
        ensures { IfOk result (λ same. (circular stale : Bool) →
            Decides same (IsAlike (base self.now store.now names.now)
            (sheet_with store.now names.now settings.now circular stale))) }
    {
        if !are_same_settings(&self.settings, settings) || !are_names_kept(&self.names, names) {
            return Ok(false);
        }
        self.is_store(store)
    }

    // The cells of the base that the store hasn't so, where all of the base is kept.
    fn changes_in_whole(&self, store: &Store) -> Result<CellChanges, Memory>
        ensures { IfOk result (λ changes. (whole : Grid) → self.now.whole ≡ Some whole →
            all_changed store.now.cells changes ≡ whole.cells) }
    {
        match &self.whole {
            Some(whole) => changes_of(whole, store),
            None => Ok(CellChanges::none(store.alloc())),
        }
    }

    // The columns that the base has of its own, if it has some.
    fn own_columns(&self) -> Result<Option<KeptColumns>, Memory>
        ensures { IfOk result (λ columns. columns ≡ own_columns self.now.whole self.now.columns) }
    {
        let own = match &self.whole {
            Some(whole) => Some(whole),
            None => self.columns.as_ref(),
        };
        match own {
            Some(store) => {
                let columns = KeptColumns::of(store)?;
                Ok(Some(columns))
            }
            None => Ok(None),
        }
    }

    // What the base has otherwise than the sheet, with the changes that were made of its whole, and its own columns.
    fn take_difference(&mut self, changes: CellChanges, columns: Option<KeptColumns>) -> Difference
        requires settled { IsSettled self.old }
        requires columns { columns ≡ own_columns self.old.whole self.old.columns }
        ensures past { self.new ≡ with_nothing self.old }
        ensures difference { (store : Grid) (names : NameMap) (settings : Choices) (circular stale : Bool) →
            ((whole : Grid) → self.old.whole ≡ Some whole →
            all_changed store.cells changes ≡ whole.cells) →
            before result (sheet_with store names settings circular stale) ≡ base self.old store names }
    {
        let is_whole = self.whole.is_some();
        let names = replace(&mut self.names, None);
        let log = self.log.take();
        self.columns = None;
        self.whole = None;
        let own = if is_whole {
            changes
        } else {
            CellChanges::listed(log)
        };
        Difference::with(
            own,
            columns,
            names,
            self.settings,
            self.circular,
            self.stale,
        )
    }

    /// A command ends: the begun state is kept, and past 20 the oldest one is dropped, exactly where the answer is
    /// true, which is exactly where the sheet differs from it in its cells, its columns, its names or its settings
    /// other than the pointer. Afterwards none is begun. The history stays where there is no memory.
    pub fn end(&mut self, store: &Store, names: &Names, settings: &Settings) -> Result<bool, Memory>
        requires { self.old.is_begun ≡ true }
        ensures answer { IfOk result (λ differs. (circular stale : Bool) →
            Tells differs (history_of self.old store.now names.now).begun
            (sheet_with store.now names.now settings.now circular stale)) }
        ensures ok { IfOk result (λ differs. history_of self.new store.now names.now ≡
            ended differs (history_of self.old store.now names.now).begun
            (history_of self.old store.now names.now).kept) }
        ensures err { OnErr result
            (history_of self.new store.now names.now ≡ history_of self.old store.now names.now) }
    {
        self.settle()?;
        if self.is_alike(store, names, settings)? {
            self.forget();
            self.is_begun = false;
            return Ok(false);
        }
        let changes = self.changes_in_whole(store)?;
        let columns = self.own_columns()?;
        self.kept
            .insert(0, Difference::beside(store.alloc(), self.settings))?;
        self.kept.truncate(MOST_KEPT);
        let difference = self.take_difference(changes, columns);
        self.kept[0] = difference;
        self.is_begun = false;
        Ok(true)
    }

    /// The latest kept state of a sheet of these parts; none where none is kept.
    pub fn latest(&self, store: &Store, names: &Names) -> Result<Option<KeptState>, Memory>
        ensures { IfOk result
            (λ state. option_map sheet_of state ≡ latest (history_of self.now store.now names.now).kept) }
    {
        if self.kept.len() == 0 {
            return Ok(None);
        }
        let base = self.base(store, names)?;
        let state = self.kept[0].before(base)?;
        Ok(Some(state))
    }

    /// Takes the latest kept state off the list, where a sheet of its parts comes in the place of the present one, and
    /// none is begun.
    pub fn drop_latest(&mut self)
        ensures { (old new : Grid) (before after : NameMap) (s : Sheet) (kept : List Sheet) →
            (history_of self.old old before).kept ≡ s ∷ kept → new ≡ s.grid → after ≡ s.names →
            history_of self.new new after ≡ record { kept = kept; begun = None } }
    {
        drop_first(&mut self.kept);
        self.forget();
        self.is_begun = false;
    }
}
