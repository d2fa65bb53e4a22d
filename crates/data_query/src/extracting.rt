// What an extraction of records writes.
ghost use Rattle.std.specs.Prelude.{◌≡◌, ◌⊎◌, ◌≤◌, ◌+◌, ◌++◌, ◌∷◌, [], IfOk, IfErr, OnOk, Ok, Err, length, map};
ghost use Rattle.grid_address.specs.Place.{Place};
ghost use Rattle.grid_address.specs.Lines.{last_row};
ghost use Rattle.formula_parts.specs.Outlook.{Sight};
ghost use Rattle.formula_parts.specs.Scenes.{outlook_of};
ghost use Rattle.block_writes.specs.Writing.{at, numbers_from, value_copied};
ghost use Rattle.data_query.specs.Extraction as spec;
ghost use Rattle.data_query.specs.Extraction.{output_written, record_written, records_written, room_of, rows_extracted};

use crate::QueryFault;
use crate::erasing::push_rows_erased;
use crate::extraction::Extraction;
use crate::missing::asked;
use crate::output::{OutputField, labelled, room_of, taken_fields};
use crate::repeats::without_repeats;
use crate::selecting::chosen;
use block_writes::value_copied;
use formula_parts::{Look, Scene};
use grid_address::{Cell, CellList, Span, count_below, row_below};
use lics_text::Memory;
use sheet_store::Writes;
use std::alloc::Global;

// Adds the value of a record's field with its format, for a row of the output.
fn push_value<K: Look>(
    writes: &mut Writes,
    alloc: Global,
    look: &K,
    field: OutputField,
    from: Cell,
    to: u16,
) -> Result<(), Memory>
    requires { to ≤ last_row }
    ensures { let sight = K.sight look.now in let source = at from.row field.field in let target = at to field.col in
        OnOk result (writes.new ≡ writes.old ++ value_copied sight source target ∷ []) }
{
    let source = Cell {
        row: from.row,
        col: field.field,
    };
    let target = Cell {
        row: to,
        col: field.col,
    };
    let write = value_copied(alloc, look, source, target)?;
    writes.push(write)?;
    Ok(())
}

// Adds the values of a record's fields with their formats, for a row of the output.
fn push_record<K: Look>(
    writes: &mut Writes,
    alloc: Global,
    look: &K,
    fields: &[OutputField],
    from: Cell,
    to: u16,
) -> Result<(), Memory>
    requires { to ≤ last_row }
    ensures { OnOk result (writes.new ≡ writes.old ++ record_written (K.sight look.now) fields.now from.row to) }
{
    for field in fields {
        push_value(writes, alloc, look, *field, from, to)?;
    }
    Ok(())
}

// Adds records, each given by a cell, for the rows of the output below its first.
fn push_records<K: Look>(
    writes: &mut Writes,
    alloc: Global,
    look: &K,
    output: Span,
    fields: &[OutputField],
    cells: &[Cell],
) -> Result<(), Memory>
    requires { length cells.now ≤ room_of output }
    ensures { let rows = map (λ (p : Place). p.row) cells.now in
        let tos = numbers_from (output.first.row + 1) (room_of output) in
        OnOk result (writes.new ≡ writes.old ++ records_written (K.sight look.now) fields.now rows tos) }
{
    // The room is asked for its clause that its rows lie in the sheet.
    let _room = room_of(output);
    let first = row_below(output, 0);
    for place in 0..cells.len() {
        let to = first + place as u16;
        push_record(writes, alloc, look, fields, cells[place], to)?;
    }
    Ok(())
}

// Writes that erase the output below its headers, and then put each record into a row of its own.
fn output_written<K: Look>(
    alloc: Global,
    look: &K,
    output: Span,
    fields: &[OutputField],
    cells: &[Cell],
) -> Result<Writes, Memory>
    requires { length cells.now ≤ room_of output }
    ensures { let rows = map (λ (p : Place). p.row) cells.now in
        IfOk result (λ l. l ≡ output_written (K.sight look.now) output fields.now rows) }
{
    let mut writes = Writes::new(alloc);
    let first = row_below(output, 0);
    let room = room_of(output);
    push_rows_erased(&mut writes, output, first, room)?;
    push_records(&mut writes, alloc, look, output, fields, cells)?;
    Ok(writes)
}

// What these records write, unless there are more of them than the output has room for.
fn rows_extracted<K: Look>(
    alloc: Global,
    look: &K,
    output: Span,
    fields: &[OutputField],
    cells: &[Cell],
) -> Result<Writes, QueryFault>
    requires { length cells.now ≤ last_row }
    ensures found { let rows = map (λ (p : Place). p.row) cells.now in
        IfOk result (λ l. rows_extracted (K.sight look.now) output fields.now rows ≡ Ok l) }
    ensures fault { let rows = map (λ (p : Place). p.row) cells.now in let sight = K.sight look.now in
        IfErr result (λ f. (f ≡ QueryFault.Memory) ⊎ (rows_extracted sight output fields.now rows ≡ Err f)) }
{
    let count = cells.len();
    let room = usize::from(room_of(output));
    if count > room {
        return Err(QueryFault::OutputFull(count as u32));
    }
    match output_written(alloc, look, output, fields, cells) {
        Ok(writes) => Ok(writes),
        Err(Memory) => Err(QueryFault::Memory),
    }
}

// The records that are extracted: all that match, or those of them that differ in the fields that the output takes.
fn extracted_cells<K: Look>(
    alloc: Global,
    extraction: &Extraction,
    fields: &[OutputField],
    look: &K,
    scene: &Scene,
) -> Result<CellList, Memory>
    ensures rows { let w = outlook_of (K.sight look.now) scene.entry.now in
        let query = extraction.now.query in let unique = extraction.now.unique in IfOk result (λ l.
        map (λ (p : Place). p.row) l ≡ spec.extracted_rows w query.input query.criterion unique fields.now) }
    ensures count { IfOk result (λ l. length l ≤ last_row) }
{
    // The records are counted for the clause that a sheet has no more rows.
    let _count = count_below(extraction.query.input);
    let cells = chosen(alloc, &extraction.query, look, scene)?;
    if extraction.unique {
        let kept = without_repeats(alloc, look, fields, cells.as_slice())?;
        Ok(kept)
    } else {
        Ok(cells)
    }
}

// What the records that match write, where the output takes these fields.
fn fields_extracted<K: Look>(
    alloc: Global,
    extraction: &Extraction,
    fields: &[OutputField],
    look: &K,
    scene: &Scene,
) -> Result<Writes, QueryFault>
    ensures found { let w = outlook_of (K.sight look.now) scene.entry.now in let given = extraction.now in
        let made = spec.fields_extracted w given.query.input given.query.criterion given.output given.unique in
        IfOk result (λ l. made fields.now ≡ Ok l) }
    ensures fault { let w = outlook_of (K.sight look.now) scene.entry.now in let given = extraction.now in
        let made = spec.fields_extracted w given.query.input given.query.criterion given.output given.unique in
        IfErr result (λ f. (f ≡ QueryFault.Memory) ⊎ (made fields.now ≡ Err f)) }
{
    match extracted_cells(alloc, extraction, fields, look, scene) {
        Ok(cells) => rows_extracted(alloc, look, extraction.output, fields, cells.as_slice()),
        Err(Memory) => Err(QueryFault::Memory),
    }
}

/// What extracting the records that match a criterion writes: the output is erased below its first row, whose labels
/// name fields of the input, and then each record stands in a row of its own, the values of the named fields with their
/// formats. With `unique` a record is left out where an earlier one has equal values in these fields, letters told
/// apart. A column whose header is no label is only erased, and an output of one row reaches to the end of the sheet.
/// The faults are those of `select`, then `FieldAbsent` with the first label of the output that names no field, then
/// `OutputFull` with the number of the records, exactly where they are more than the output has rows below its first;
/// and want of memory. (Release 2 manual; the order of the faults, that values are compared without their formats, and
/// what headers that are no labels do, are this project's own choice.)
pub fn extract<K: Look>(
    alloc: Global,
    extraction: &Extraction,
    look: &K,
    scene: &Scene,
) -> Result<Writes, QueryFault>
    ensures found { let w = outlook_of (K.sight look.now) scene.entry.now in let given = extraction.now in
        let made = spec.extraction w given.query.input given.query.criterion given.output given.unique in
        IfOk result (λ l. made ≡ Ok l) }
    ensures fault { let w = outlook_of (K.sight look.now) scene.entry.now in let given = extraction.now in
        let made = spec.extraction w given.query.input given.query.criterion given.output given.unique in
        IfErr result (λ f. (f ≡ QueryFault.Memory) ⊎ (made ≡ Err f)) }
{
    let input = extraction.query.input;
    asked(look, &extraction.query)?;
    labelled(look, input, extraction.output)?;
    match taken_fields(alloc, look, input, extraction.output) {
        Ok(fields) => fields_extracted(alloc, extraction, fields.as_slice(), look, scene),
        Err(Memory) => Err(QueryFault::Memory),
    }
}
