// The columns, the names and the settings of a sheet.
ghost use Rattle.std.specs.Prelude.{◌≡◌, ◌≤◌, ◌⊎◌, IfErr, OnErr, OnOk, Some, None};
ghost use Rattle.std.specs.FinMap as map;
ghost use Rattle.std.specs.Option.{ForSome};
ghost use Rattle.range_names.specs.Names.{fault_of, key_of};
ghost use Rattle.range_names.specs.declared.fault.NameFault.TheVariants as cause;
ghost use Rattle.work_sheet.specs.Did.{DidEdit};
ghost use Rattle.work_sheet.specs.Editing.{reordered, with_hidden, with_names, with_settings, with_width};

use super::WorksheetOf;
use formula_eval::Means;
use grid_address::Span;
use lics_text::Memory;
use range_names::{NameFault, Names};
use recalculation::all_dirty;
use sheet_store::{MOST_WIDTH, Order, Settings};
use std::mem::replace;

impl<E: Means> WorksheetOf<E> {
    /// Gives a column a width of its own, 1 to 240, or takes it away.
    pub fn set_width(&mut self, col: u8, width: Option<u8>)
        requires { ForSome width (λ n. (1 ≤ n) × (n ≤ MOST_WIDTH)) }
        ensures { DidEdit (with_width col width) self.old self.new }
    {
        self.past.note_columns(&self.store);
        self.store.set_width(col, width);
    }

    /// Hides a column, or shows it.
    pub fn set_hidden(&mut self, col: u8, hidden: bool)
        ensures { DidEdit (with_hidden col hidden) self.old self.new }
    {
        self.past.note_columns(&self.store);
        self.store.set_hidden(col, hidden);
    }

    /// Gives a span a name; a name that is there gets the new span. The sheet is unchanged where it is refused, as
    /// `Names::create` says.
    pub fn create_name(&mut self, name: &[u8], span: Span) -> Result<(), NameFault>
        ensures valid { OnOk result (fault_of name.now ≡ None) }
        ensures did { OnOk result
            (DidEdit (with_names (map.insert self.old.names (key_of name.now) span)) self.old self.new) }
        ensures kept { OnErr result (self.new ≡ self.old) }
        ensures err { IfErr result (λ fault. (fault ≡ cause.Memory) ⊎ (fault_of name.now ≡ Some fault)) }
    {
        let Ok(()) = self.past.note_names(&self.names) else {
            return Err(NameFault::Memory);
        };
        self.names.create(name, span)?;
        Ok(())
    }

    /// Takes a name away. The sheet is unchanged where it is refused, as `Names::delete` says.
    pub fn delete_name(&mut self, name: &[u8]) -> Result<(), NameFault>
        ensures valid { OnOk result (fault_of name.now ≡ None) }
        ensures did { OnOk result
            (DidEdit (with_names (map.remove self.old.names (key_of name.now))) self.old self.new) }
        ensures kept { OnErr result (self.new ≡ self.old) }
        ensures err { IfErr result
            (λ fault. (fault ≡ cause.Memory) ⊎ (fault_of name.now ≡ Some fault)
            ⊎ ((fault_of name.now ≡ None) × (fault ≡ cause.Absent)
            × (map.get self.old.names (key_of name.now) ≡ None))) }
    {
        let Ok(()) = self.past.note_names(&self.names) else {
            return Err(NameFault::Memory);
        };
        self.names.delete(name)?;
        Ok(())
    }

    /// Takes all names away.
    pub fn reset_names(&mut self)
        ensures { DidEdit (with_names map.empty) self.old self.new }
    {
        let alloc = self.store.alloc();
        self.past
            .take_names(replace(&mut self.names, Names::new(alloc)));
    }

    /// Changes the settings, of which the order stays as it is.
    pub fn set_settings(&mut self, settings: Settings)
        requires { settings.order ≡ self.old.settings.order }
        ensures { DidEdit (with_settings settings) self.old self.new }
    {
        self.settings = settings;
    }

    /// Sets the order of recalculation. Where it differs from the present one, all formulas become dirty. The sheet is
    /// unchanged where there is no memory.
    pub fn set_order(&mut self, order: Order) -> Result<(), Memory>
        ensures did { OnOk result (DidEdit (reordered order) self.old self.new) }
        ensures err { OnErr result (self.new ≡ self.old) }
    {
        let settings = self.settings;
        if settings.order == order {
            return Ok(());
        }
        let dirty = all_dirty(&self.store)?;
        let _ = dirty.len();
        self.dirty = dirty;
        self.settings = Settings { order, ..settings };
        Ok(())
    }
}
