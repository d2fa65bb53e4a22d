// Records that are the same as earlier ones.
ghost use Rattle.std.specs.Prelude.{◌≡◌, ◌++◌, ◌∷◌, [], map, IfOk, OnOk, if◌then◌else◌};
ghost use Rattle.std.specs.List.{list_any};
ghost use Rattle.grid_address.specs.Place.{Place};
ghost use Rattle.formula_parts.specs.Outlook.{Sight};
ghost use Rattle.formula_tree.specs.Seen.{seen_value};
ghost use Rattle.block_writes.specs.Writing.{at};
ghost use Rattle.data_query.specs.Extraction.{same_record, without_repeats};
ghost use Rattle.data_query.specs.inner.Keys.{all_keyed, keyed, record_values, same_values};

use crate::output::OutputField;
use formula_parts::Look;
use formula_tree::ValueRef;
use grid_address::{Cell, CellList};
use indexmap::IndexSet;
use lics_text::Memory;
use std::alloc::Global;

/// What a value is looked up by: a number by its millionths, and a text by its bytes. Keys are equal exactly where
/// their values are.
#[derive(PartialEq, Eq, Hash, Drop)]
pub enum ValueKey {
    Blank,
    Number(i64),
    Text(Vec<u8>),
    Err,
    Na,
}

// The key of a value.
fn value_key(alloc: Global, value: &ValueRef<'_>) -> Result<ValueKey, Memory>
    ensures { IfOk result (λ k. keyed k ≡ seen_value value.now) }
{
    match value {
        ValueRef::Blank => Ok(ValueKey::Blank),
        ValueRef::Num(number) => Ok(ValueKey::Number(number.millionths())),
        ValueRef::Str(text) => Ok(ValueKey::Text(Vec::from_slice(alloc, text.bytes())?)),
        ValueRef::Err => Ok(ValueKey::Err),
        ValueRef::Na => Ok(ValueKey::Na),
    }
}

// The key of a record's value in a field.
fn field_key<K: Look>(
    alloc: Global,
    look: &K,
    field: OutputField,
    cell: Cell,
) -> Result<ValueKey, Memory>
    ensures { let values = (K.sight look.now).values in
        IfOk result (λ k. keyed k ≡ values (at cell.row field.field)) }
{
    let source = Cell {
        row: cell.row,
        col: field.field,
    };
    value_key(alloc, &look.value(source))
}

// The keys of a record's values in the fields that the output takes.
fn record_key<K: Look>(
    alloc: Global,
    look: &K,
    fields: &[OutputField],
    cell: Cell,
) -> Result<Vec<ValueKey>, Memory>
    ensures { IfOk result (λ k. all_keyed k.items ≡ record_values (K.sight look.now) fields.now cell.row) }
{
    let mut key = Vec::new(alloc);
    for field in fields {
        let value = field_key(alloc, look, *field, cell)?;
        key.push(value)?;
    }
    Ok(key)
}

// Adds a record's key behind the others, unless one of them is equal to it. Tells whether one is.
fn insert(keys: &mut IndexSet<Vec<ValueKey>>, key: Vec<ValueKey>) -> Result<bool, Memory>
    ensures told { let repeated = list_any (λ k. same_values (all_keyed k.items) (all_keyed key.items)) keys.old.keys in
        IfOk result (λ b. b ≡ repeated) }
    ensures keys { let repeated = list_any (λ k. same_values (all_keyed k.items) (all_keyed key.items)) keys.old.keys in
        OnOk result (keys.new.keys ≡ (if repeated then keys.old.keys else keys.old.keys ++ key ∷ [])) }
{
    let is_new = keys.insert(key)?;
    Ok(!is_new)
}

// Keeps a record, unless it is the same as one that is kept. The keys are those of the kept records.
fn keep<K: Look>(
    kept: &mut CellList,
    keys: &mut IndexSet<Vec<ValueKey>>,
    alloc: Global,
    look: &K,
    fields: &[OutputField],
    cell: Cell,
) -> Result<(), Memory>
    requires { map (λ k. all_keyed k.items) keys.old.keys
        ≡ map (λ (p : Place). record_values (K.sight look.now) fields.now p.row) kept.old }
    ensures records { let same = same_record (K.sight look.now) fields.now in
        let repeated = list_any (λ (p : Place). same p.row cell.row) kept.old in
        OnOk result (kept.new ≡ (if repeated then kept.old else kept.old ++ cell ∷ [])) }
    ensures keys { OnOk result (map (λ k. all_keyed k.items) keys.new.keys
        ≡ map (λ (p : Place). record_values (K.sight look.now) fields.now p.row) kept.new) }
{
    let key = record_key(alloc, look, fields, cell)?;
    let is_repeated = insert(keys, key)?;
    if is_repeated {
        return Ok(());
    }
    kept.push(cell)?;
    Ok(())
}

/// The records, each given by a cell, without those that are the same as an earlier one.
pub fn without_repeats<K: Look>(
    alloc: Global,
    look: &K,
    fields: &[OutputField],
    cells: &[Cell],
) -> Result<CellList, Memory>
    ensures { let same = same_record (K.sight look.now) fields.now in let row = λ (p : Place). p.row in
        IfOk result (λ l. map row l ≡ without_repeats same (map row cells.now)) }
{
    let mut kept = CellList::new(alloc);
    let mut keys = IndexSet::new(alloc);
    for cell in cells {
        keep(&mut kept, &mut keys, alloc, look, fields, *cell)?;
    }
    Ok(kept)
}
