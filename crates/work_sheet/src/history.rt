// What a sheet keeps of the states before its last commands, and sheets that come in its place.
ghost use Rattle.std.specs.Prelude.{◌≡◌, ◌≤◌, [], length, is_some, IfOk, OnErr, OnOk, Some, true};
ghost use Rattle.sheet_undo.specs.Histories.{ended, Tells};
ghost use Rattle.work_sheet.specs.Did.{DidEdit};
ghost use Rattle.work_sheet.specs.Editing.{restored};
ghost use Rattle.work_sheet.specs.Kept.{Undoes};
ghost use Rattle.work_sheet.specs.Seen.{fresh_sheet, of_worksheet};
ghost use Rattle.work_sheet.specs.Sheets.{Worksheet};

use crate::WorksheetOf;
use formula_eval::Means;
use lics_text::Memory;
use recalculation::{all_dirty, graph_of};
use sheet_store::SavedSheet;
use sheet_undo::Past;
use std::marker::PhantomData;
use std::mem::replace;

impl<E: Means> WorksheetOf<E> {
    // The sheet that was saved. All its formulas are dirty; it has no circle told, and no change made.
    fn restore(saved: SavedSheet) -> Result<Self, Memory>
        ensures { IfOk result (λ s. (before : Worksheet) →
            DidEdit (restored saved.store saved.names saved.settings) before (record s { history = before.history })) }
    {
        let graph = graph_of(&saved.store)?;
        let dirty = all_dirty(&saved.store)?;
        // `len` is called for its clause that no cell is in the set twice, here and below.
        let _ = dirty.len();
        let past = Past::new(saved.store.alloc());
        Ok(WorksheetOf {
            store: saved.store,
            graph,
            dirty,
            circular: false,
            stale: false,
            names: saved.names,
            settings: saved.settings,
            past,
            with: PhantomData,
        })
    }

    // Another sheet comes in the place of this one, whose history it goes on with.
    pub(crate) fn replace_by(&mut self, next: WorksheetOf<E>)
        ensures { self.new ≡ record next { history = self.old.history } }
    {
        let old = replace(self, next);
        let mut past = old.past;
        past.take_all(old.store, old.names);
        drop(replace(&mut self.past, past));
    }

    /// Puts a sheet that was saved in the place of this one. All its formulas are dirty; it has no circle told, and no
    /// change made. The sheet is unchanged where there is no memory.
    pub fn take_saved(&mut self, saved: SavedSheet) -> Result<(), Memory>
        ensures did { OnOk result (DidEdit (restored saved.store saved.names saved.settings) self.old self.new) }
        ensures err { OnErr result (self.new ≡ self.old) }
    {
        let next = WorksheetOf::restore(saved)?;
        self.replace_by(next);
        Ok(())
    }

    /// Puts a fresh sheet in the place of this one.
    pub fn take_fresh(&mut self)
        ensures sheet { of_worksheet self.new ≡ fresh_sheet }
        ensures dirty { self.new.dirty ≡ [] }
        ensures history { self.new.history ≡ self.old.history }
    {
        let next = WorksheetOf::new(self.store.alloc());
        self.replace_by(next);
    }

    /// A command begins: the sheet as it stands is the begun state. The sheet is unchanged where there is no memory;
    /// none is taken where the sheet wasn't changed since the last command ended.
    pub fn begin(&mut self) -> Result<(), Memory>
        ensures ok { OnOk result (self.new ≡ record self.old {
          history = record self.old.history { begun = Some (of_worksheet self.old) };
        }) }
        ensures err { OnErr result (self.new ≡ self.old) }
    {
        let settings = self.settings;
        self.past.begin(
            &self.store,
            &self.names,
            &settings,
            self.circular,
            self.stale,
        )
    }

    /// Whether a command is begun.
    pub fn has_begun(&self) -> bool
        ensures { result ≡ is_some self.now.history.begun }
    {
        self.past.has_begun()
    }

    /// A command ends: the begun state is kept, and past 20 the oldest one is dropped, exactly where the answer is
    /// true, which is exactly where the sheet differs from it in its cells, its columns, its names or its settings
    /// other than the pointer. Afterwards none is begun. The sheet is unchanged where there is no memory.
    pub fn end(&mut self) -> Result<bool, Memory>
        requires { is_some self.old.history.begun ≡ true }
        ensures answer { IfOk result (λ differs. Tells differs self.old.history.begun (of_worksheet self.old)) }
        ensures ok { IfOk result (λ differs. self.new ≡ record self.old {
          history = ended differs self.old.history.begun self.old.history.kept;
        }) }
        ensures err { OnErr result (self.new ≡ self.old) }
    {
        let settings = self.settings;
        self.past.end(&self.store, &self.names, &settings)
    }

    /// Puts the latest kept state in the place of the sheet, with its pointer and its marks, and takes it off the list.
    /// All its formulas are dirty, and none is evaluated. The answer is false exactly where none is kept. The sheet is
    /// unchanged where there is no memory.
    pub fn undo(&mut self) -> Result<bool, Memory>
        ensures sheet { IfOk result (λ undone. Undoes self.old.history.kept undone self.old self.new) }
        ensures err { OnErr result (self.new ≡ self.old) }
    {
        let latest = self.past.latest(&self.store, &self.names)?;
        let Some(state) = latest else {
            return Ok(false);
        };
        let circular = state.circular;
        let stale = state.stale;
        let saved = state.saved;
        let graph = graph_of(&saved.store)?;
        let dirty = all_dirty(&saved.store)?;
        let _ = dirty.len();
        self.past.drop_latest();
        let past = replace(&mut self.past, Past::new(saved.store.alloc()));
        let sheet = WorksheetOf {
            store: saved.store,
            graph,
            dirty,
            circular,
            stale,
            names: saved.names,
            settings: saved.settings,
            past,
            with: PhantomData,
        };
        // An assignment would let each part of the old sheet go here, and not in one call that is proved once.
        drop(replace(self, sheet));
        Ok(true)
    }

    /// How many states are kept, at most 20.
    pub fn kept_count(&self) -> usize
        ensures count { result ≡ length self.now.history.kept }
        ensures most { result ≤ 20 }
    {
        self.past.len()
    }
}
