// The columns of stores.
ghost use Rattle.std.specs.Bool.{Decides};
ghost use Rattle.std.specs.Prelude.{◌≡◌, IfOk, get_or, set, false};
ghost use Rattle.sheet_undo.specs.inner.Keeping.{columns_alone, columns_or};
ghost use Rattle.sheet_undo.specs.inner.Same.{IsSameColumn, SameColumns};

use lics_text::Memory;
use sheet_store::Store;
use std::marker::Model;

/// The columns of a store on the heap, where a list of states that are kept moves them at no cost.
#[derive(Drop)]
pub struct KeptColumns {
    // A store without cells.
    store: Box<Store>,
}

impl Model for KeptColumns {
    ghost use Rattle.formula_tree.specs.contracts.formula.Formula as formula;
    ghost use Rattle.std.specs.Coded.{codes};
    ghost use Rattle.std.specs.FinMap as map;
    ghost use Rattle.sheet_store.specs.Grid.{Grid};

    ghost Value = { Grid };

    ghost coded = { Prim.hlevel (codes, map.code, formula.the_row.coded) };

    ghost view = { λ c. c.store.value };
}

impl KeptColumns {
    /// The columns of a store.
    pub fn of(store: &Store) -> Result<KeptColumns, Memory>
        ensures { IfOk result (λ c. c ≡ columns_alone store.now) }
    {
        let store = Box::new(store.alloc(), columns_of(store))?;
        Ok(KeptColumns { store })
    }

    /// Gives a store these columns.
    pub fn put(&self, into: &mut Store)
        ensures { into.new ≡ record into.old { widths = self.now.widths; hidden = self.now.hidden } }
    {
        put_columns(&self.store, into);
    }
}

/// A store without cells that has the columns of another.
pub fn columns_of(store: &Store) -> Store
    ensures { result ≡ columns_alone store.now }
{
    let mut columns = Store::new(store.alloc());
    put_columns(store, &mut columns);
    columns
}

// The width of a column's own; 0 where it has none.
fn width_number(store: &Store, col: u8) -> u8
    ensures { result ≡ get_or store.now.widths col 0 }
{
    match store.width(col) {
        Some(width) => width,
        None => 0,
    }
}

// Whether a column has the same width of its own in two stores, or in neither, and is hidden in both or in neither.
fn is_same_column(one: &Store, other: &Store, col: u8) -> bool
    ensures { Decides result (IsSameColumn one.now other.now col) }
{
    let is_same = width_number(one, col) == width_number(other, col);
    let is_both = one.is_hidden(col) == other.is_hidden(col);
    is_same && is_both
}

// Whether two stores have the same columns.
pub fn are_same_columns(one: &Store, other: &Store) -> bool
    ensures { Decides result (SameColumns one.now other.now) }
{
    one.are_columns();
    other.are_columns();
    for col in 0..256usize {
        if !is_same_column(one, other, col as u8) {
            return false;
        }
    }
    true
}

// Gives a column the width and the mark of another store's.
fn put_column(store: &Store, into: &mut Store, col: u8)
    ensures { into.new ≡ record into.old {
      widths = set into.old.widths col (get_or store.now.widths col 0);
      hidden = set into.old.hidden col (get_or store.now.hidden col false);
    } }
{
    into.set_width(col, store.width(col));
    into.set_hidden(col, store.is_hidden(col));
}

// Gives a store the columns of another.
fn put_columns(store: &Store, into: &mut Store)
    ensures { into.new ≡ record into.old { widths = store.now.widths; hidden = store.now.hidden } }
{
    store.are_columns();
    into.are_columns();
    for col in 0..256usize {
        put_column(store, into, col as u8);
    }
}

/// Gives a store the columns that are kept, if some are.
pub fn put_own_columns(own: &Option<Store>, into: &mut Store)
    ensures { into.new ≡ columns_or own.now into.old }
{
    if let Some(columns) = own {
        put_columns(columns, into);
    }
}
