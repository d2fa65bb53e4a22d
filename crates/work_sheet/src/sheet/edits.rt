// Edits of the cells of a sheet.
ghost use Rattle.std.specs.Prelude.{◌≡◌, ◌<◌, ◌∷◌, [], IfErr, IfOk, OnErr, OnOk, None, Err, true, false};
ghost use Rattle.std.specs.FinMap as map;
ghost use Rattle.std.specs.List.{IsDistinct};
ghost use Rattle.std.specs.Option.{ForSome};
ghost use Rattle.grid_address.specs.Place.{is_within, same_place, Place};
ghost use Rattle.cell_maps.specs.Sets.{has};
ghost use Rattle.range_names.specs.Names.{NameMap};
ghost use Rattle.sheet_store.specs.declared.writes.SheetFault.TheVariants as faults;
ghost use Rattle.sheet_store.specs.Grid.{is_formula, is_kept, Grid, IsSound};
ghost use Rattle.sheet_edits.specs.Edits.{is_protected, written_state, AreDirtied};
ghost use Rattle.sheet_shifts.specs.Refusals.{refusal, AreInSheet};
ghost use Rattle.sheet_shifts.specs.Shifts.{IsShift};
ghost use Rattle.work_sheet.specs.Did.{Did, DidEdit};
ghost use Rattle.work_sheet.specs.Doing.{put, with_content};
ghost use Rattle.work_sheet.specs.Editing.{all_written, copied, erased, reformatted, shifted};
ghost use Rattle.sheet_undo.specs.inner.Keeping.{history_of, IsSameBut};
ghost use Rattle.work_sheet.specs.Seen.{of_worksheet};
ghost use Rattle.work_sheet.specs.Sheets.{IsFaultOf, IsRefusedBy};
ghost use Rattle.work_sheet.specs.inner.Keeping.{SameBeside};
ghost use Rattle.sheet_edits.specs.Spans.{changed, rule_of, target_of, with_code, with_mark, written_cells, AreSound, Becomes, HasCode, IsAnswered};

use super::WorksheetOf;
use formula_eval::Means;
use formula_parts::Scene;
use formula_tree::Content;
use grid_address::{Cell, CellList, Span};
use lics_text::Memory;
use recalculation::{ContextRef, all_dirty, graph_of};
use sheet_edits::{
    Changes, FormatChange, Parts, cells_of, change_cells, copied, erased, first_of, gathered,
    is_marked, reformatted, refusing, state_of, state_written, target_of, write_cell, write_cells,
    write_evaluated,
};
use sheet_shifts::{Shift, names_after, refusal, store_after};
use sheet_store::{CellState, Settings, SheetFault, Store, Write, Writes};
use sheet_undo::Past;
use std::marker::PhantomData;

impl<E: Means> WorksheetOf<E> {
    /// Writes a content into a cell, which keeps its format. A formula begins with the value 0, and it and all that
    /// reaches the cell become dirty. `Protected` comes exactly where protection is on and the cell is marked; the
    /// sheet is unchanged where the edit is refused.
    pub fn enter(&mut self, cell: Cell, content: Content) -> Result<(), SheetFault>
        ensures did { OnOk result (DidEdit (with_content cell content) self.old self.new) }
        ensures err { OnErr result (self.new ≡ self.old) }
        ensures fault { IsFaultOf (is_protected self.old.settings self.old.grid cell) cell result }
    {
        let state = entry_state(&self.store, &self.settings, cell, content)?;
        note(&mut self.past, &self.store, &[cell])?;
        match write_cell(
            &mut self.store,
            &mut self.graph,
            &mut self.dirty,
            cell,
            state,
        ) {
            Ok(()) => {
                let _ = self.dirty.len();
                mark(&mut self.stale);
                Ok(())
            }
            Err(Memory) => Err(SheetFault::Memory),
        }
    }

    /// Writes a content that a line spells, as `enter` does. In Manual mode a formula is then evaluated once, over the
    /// values as they stand.
    pub fn enter_line(
        &mut self,
        cell: Cell,
        content: Content,
        scene: &Scene,
        tally: &mut E,
    ) -> Result<(), SheetFault>
        ensures did { OnOk result
            (Did (put E.meaning scene.entry.now cell content (of_worksheet self.old)) self.old self.new
            (E.count tally.old) (E.count tally.new)) }
        ensures err { OnErr result (self.new ≡ self.old) }
        ensures fault { IsFaultOf (is_protected self.old.settings self.old.grid cell) cell result }
    {
        let settings = self.settings;
        if settings.automatic || !is_formula(&content) {
            self.enter(cell, content)?;
            return Ok(());
        }
        let state = entry_state(&self.store, &settings, cell, content)?;
        note(&mut self.past, &self.store, &[cell])?;
        let mut parts = Parts {
            store: &mut self.store,
            graph: &mut self.graph,
            dirty: &mut self.dirty,
        };
        let context = ContextRef {
            names: &self.names,
            settings: &settings,
            scene,
        };
        match write_evaluated(&mut parts, cell, state, &context, tally) {
            Ok(()) => {
                let _ = self.dirty.len();
                mark(&mut self.stale);
                Ok(())
            }
            Err(Memory) => Err(SheetFault::Memory),
        }
    }

    // Writes states into cells, none of which may be protected. A written cell that isn't given a state keeps its own.
    fn put_changes(&mut self, cells: &CellList, changes: Changes) -> Result<(), SheetFault>
        requires sound { AreSound changes }
        requires given { (c : Place) → has same_place cells.now c ≡ false → map.get changes c ≡ None }
        ensures answer { IsAnswered self.old.settings self.old.grid (has same_place cells.now) result }
        ensures grid { OnOk result
            (Becomes self.old.grid (λ c. changed (map.get changes c) (map.get self.old.grid.cells c)) self.new.grid) }
        ensures dirty { OnOk result
            (AreDirtied self.new.grid (has same_place self.old.dirty) (has same_place cells.now)
            (has same_place self.new.dirty)) }
        ensures distinct { OnOk result (IsDistinct same_place self.new.dirty) }
        ensures stale { OnOk result (self.new.stale ≡ true) }
        ensures beside { SameBeside self.old self.new }
        ensures history { self.new.history ≡ self.old.history }
        ensures err { OnErr result (self.new ≡ self.old) }
    {
        let settings = self.settings;
        let listed = cells.as_slice();
        if let Some(cell) = refusing(&self.store, &settings, listed) {
            return Err(SheetFault::Protected(cell));
        }
        note(&mut self.past, &self.store, listed)?;
        match write_cells(
            &mut self.store,
            &mut self.graph,
            &mut self.dirty,
            cells,
            changes,
        ) {
            Ok(()) => {
                let _ = self.dirty.len();
                mark(&mut self.stale);
                Ok(())
            }
            Err(Memory) => Err(SheetFault::Memory),
        }
    }

    /// Makes the cells of a span blank, each in its format. `Protected` names the first cell of the span that is
    /// protected; the sheet is unchanged where the edit is refused.
    pub fn erase(&mut self, span: Span) -> Result<(), SheetFault>
        ensures answer { IsAnswered self.old.settings self.old.grid (is_within span) result }
        ensures did { OnOk result (DidEdit (erased span) self.old self.new) }
        ensures err { OnErr result (self.new ≡ self.old) }
    {
        let Ok(cells) = cells_of(self.store.alloc(), span) else {
            return Err(SheetFault::Memory);
        };
        let Ok(changes) = erased(&self.store, cells.as_slice()) else {
            return Err(SheetFault::Memory);
        };
        self.put_changes(&cells, changes)
    }

    /// Copies the contents and formats of a span. A source of one column is repeated across the columns of the target,
    /// and one of one row down its rows; otherwise one copy stands at the target's first cell. All is read before a
    /// cell is written. `OutOfSheet` carries the source where the copy would leave the sheet; then `Protected` names
    /// the first written cell that is protected. The sheet is unchanged where the edit is refused.
    pub fn copy_span(&mut self, from: Span, to: Span) -> Result<(), SheetFault>
        ensures outside { target_of from to ≡ None → result ≡ Err (faults.OutOfSheet from) }
        ensures answer { ForSome (target_of from to)
            (λ target. IsAnswered self.old.settings self.old.grid (is_within target) result) }
        ensures did { OnOk result
            (ForSome (target_of from to) (λ target. DidEdit (copied from target) self.old self.new)) }
        ensures err { OnErr result (self.new ≡ self.old) }
    {
        let Some(target) = target_of(from, to) else {
            return Err(SheetFault::OutOfSheet(from));
        };
        self.copy_onto(from, target)
    }

    // Copies the contents and formats of a span onto the cells of another, again and again.
    fn copy_onto(&mut self, from: Span, target: Span) -> Result<(), SheetFault>
        ensures answer { IsAnswered self.old.settings self.old.grid (is_within target) result }
        ensures did { OnOk result (DidEdit (copied from target) self.old self.new) }
        ensures err { OnErr result (self.new ≡ self.old) }
    {
        let Ok(cells) = cells_of(self.store.alloc(), target) else {
            return Err(SheetFault::Memory);
        };
        let first = first_of(target);
        let Ok(changes) = copied(&self.store, from, first, cells.as_slice()) else {
            return Err(SheetFault::Memory);
        };
        self.put_changes(&cells, changes)
    }

    /// Makes the writes in their order. One without a format leaves its cell's format. `Protected` names the first cell
    /// in row order that is protected; the sheet is unchanged where the edit is refused.
    #[inline(always)]
    pub fn write(&mut self, writes: &Writes) -> Result<(), SheetFault>
        ensures answer { IsAnswered self.old.settings self.old.grid (has same_place (written_cells writes.now)) result }
        ensures did { OnOk result (DidEdit (all_written writes.now) self.old self.new) }
        ensures err { OnErr result (self.new ≡ self.old) }
    {
        if writes.len() == 1 {
            if let Some(write) = writes.get(0) {
                return self.write_one(write);
            }
        }
        self.write_many(writes)
    }

    // Makes the writes in their order.
    #[inline(never)]
    fn write_many(&mut self, writes: &Writes) -> Result<(), SheetFault>
        ensures answer { IsAnswered self.old.settings self.old.grid (has same_place (written_cells writes.now)) result }
        ensures did { OnOk result (DidEdit (all_written writes.now) self.old self.new) }
        ensures err { OnErr result (self.new ≡ self.old) }
    {
        let alloc = self.store.alloc();
        let mut cells = CellList::new(alloc);
        let mut changes = Changes::new(alloc);
        match gathered(&self.store, writes, &mut cells, &mut changes) {
            Ok(()) => self.put_changes(&cells, changes),
            Err(Memory) => Err(SheetFault::Memory),
        }
    }

    // Makes a write that comes alone, without lists and tables of cells.
    fn write_one(&mut self, write: &Write) -> Result<(), SheetFault>
        ensures answer { IsAnswered self.old.settings self.old.grid (has same_place (write.now.cell ∷ [])) result }
        ensures did { OnOk result (DidEdit (all_written (write.now ∷ [])) self.old self.new) }
        ensures err { OnErr result (self.new ≡ self.old) }
    {
        let settings = self.settings;
        if let Some(cell) = refusing(&self.store, &settings, &[write.cell]) {
            return Err(SheetFault::Protected(cell));
        }
        let Ok(state) = state_written(&self.store, write) else {
            return Err(SheetFault::Memory);
        };
        note(&mut self.past, &self.store, &[write.cell])?;
        match write_cell(
            &mut self.store,
            &mut self.graph,
            &mut self.dirty,
            write.cell,
            state,
        ) {
            Ok(()) => {
                let _ = self.dirty.len();
                mark(&mut self.stale);
                Ok(())
            }
            Err(Memory) => Err(SheetFault::Memory),
        }
    }

    /// Moves cells: rows or columns are inserted or deleted, or a span is moved. References, names and what columns
    /// have of their own follow, and all formulas become dirty. `OutOfSheet` carries the moved span that would leave
    /// the sheet; then `Protected` names the first line's first cell, or the first cell of the span and of its target
    /// that is protected, where protection is on; then `PushedOff` names the first filled cell that would leave the
    /// sheet. The sheet is unchanged where the edit is refused.
    pub fn shift(&mut self, shift: &Shift) -> Result<(), SheetFault>
        requires { AreInSheet shift.now }
        ensures fault { IsRefusedBy (refusal self.old.settings self.old.grid.cells shift.now) result }
        ensures did { OnOk result (DidEdit (shifted shift.now) self.old self.new) }
        ensures err { OnErr result (self.new ≡ self.old) }
    {
        if let Some(fault) = refusal(&self.store, &self.settings, shift) {
            return Err(fault);
        }
        match self.take_shifted(shift) {
            Ok(()) => Ok(()),
            Err(Memory) => Err(SheetFault::Memory),
        }
    }

    // The cells stand where they were moved to. The sheet is unchanged where there is no memory.
    fn take_shifted(&mut self, shift: &Shift) -> Result<(), Memory>
        requires { IsShift shift.now }
        ensures did { OnOk result (DidEdit (shifted shift.now) self.old self.new) }
        ensures err { OnErr result (self.new ≡ self.old) }
    {
        let store = store_after(&self.store, shift)?;
        let names = names_after(self.store.alloc(), &self.names, shift)?;
        let graph = graph_of(&store)?;
        let formulas = all_dirty(&store)?;
        let _ = formulas.len();
        let past = Past::new(store.alloc());
        self.replace_by(WorksheetOf {
            store,
            graph,
            dirty: formulas,
            circular: self.circular,
            stale: true,
            names,
            settings: self.settings,
            past,
            with: PhantomData,
        });
        Ok(())
    }

    /// Gives the cells of a span another format code, 0 to 127; their protection marks stay. It is no change of
    /// contents. The sheet is unchanged where there is no memory.
    pub fn set_format(&mut self, span: Span, code: u8) -> Result<(), Memory>
        requires { code < 128 }
        ensures did { OnOk result (DidEdit (reformatted span (with_code code)) self.old self.new) }
        ensures err { OnErr result (self.new ≡ self.old) }
    {
        self.reformat(span, FormatChange::Code(code))
    }

    /// Sets the protection marks of the cells of a span, or takes them away. It is no change of contents. The sheet is
    /// unchanged where there is no memory.
    pub fn set_protected(&mut self, span: Span, protected: bool) -> Result<(), Memory>
        ensures did { OnOk result (DidEdit (reformatted span (with_mark protected)) self.old self.new) }
        ensures err { OnErr result (self.new ≡ self.old) }
    {
        self.reformat(span, FormatChange::Mark(protected))
    }

    // Changes the formats of the cells of a span.
    fn reformat(&mut self, span: Span, change: FormatChange) -> Result<(), Memory>
        requires { HasCode change }
        ensures did { OnOk result (DidEdit (reformatted span (rule_of change)) self.old self.new) }
        ensures err { OnErr result (self.new ≡ self.old) }
    {
        let cells = cells_of(self.store.alloc(), span)?;
        let changes = reformatted(&self.store, change, cells.as_slice())?;
        self.past.note(&self.store, cells.as_slice())?;
        change_cells(&mut self.store, cells.as_slice(), changes)?;
        Ok(())
    }
}

// Notes the states of cells, which may then change. The history stays, also where there is no memory.
fn note(past: &mut Past, store: &Store, cells: &[Cell]) -> Result<(), SheetFault>
    ensures free { OnOk result
        ((g : Grid) (names : NameMap) → IsSameBut (has same_place cells.now) store.now g →
        history_of past.new g names ≡ history_of past.old store.now names) }
    ensures same { (names : NameMap) → history_of past.new store.now names ≡ history_of past.old store.now names }
    ensures err { IfErr result (λ fault. fault ≡ faults.Memory) }
{
    match past.note(store, cells) {
        Ok(()) => Ok(()),
        Err(Memory) => Err(SheetFault::Memory),
    }
}

// The state that a content gives a cell which isn't protected.
fn entry_state(
    store: &Store,
    settings: &Settings,
    cell: Cell,
    content: Content,
) -> Result<CellState, SheetFault>
    ensures state { IfOk result (λ s. s ≡ written_state store.now cell content) }
    ensures sound { IfOk result (λ s. IsSound s) }
    ensures kept { IfOk result (λ s. is_formula s.content ≡ true → is_kept s ≡ true) }
    ensures unprotected { OnOk result (is_protected settings.now store.now cell ≡ false) }
    ensures err { IfErr result (λ fault. IsFaultOf (is_protected settings.now store.now cell) cell (Err fault)) }
{
    if settings.protection && is_marked(store, cell) {
        return Err(SheetFault::Protected(cell));
    }
    match state_of(store, cell, content) {
        Ok(state) => Ok(state),
        Err(Memory) => Err(SheetFault::Memory),
    }
}

// Whether a content is a formula.
fn is_formula(content: &Content) -> bool
    ensures { result ≡ is_formula content.now }
{
    match content {
        Content::Formula(_) => true,
        Content::Blank | Content::Number(_) | Content::Label(_, _) => false,
    }
}

// Marks that a change was made.
pub fn mark(stale: &mut bool)
    ensures { stale.new ≡ true }
{
    *stale = true;
}
