// The output of an extraction: the fields that its headers name, and its room.
ghost use Rattle.std.specs.Prelude.{◌≡◌, ◌≤◌, ◌<◌, ◌+◌, ◌++◌, IfOk, OnOk, option_to_list};
ghost use Rattle.grid_address.specs.Place.{width_of};
ghost use Rattle.grid_address.specs.Lines.{last_row};
ghost use Rattle.record_match.specs.Fields.{field_named};
ghost use Rattle.formula_parts.specs.Outlook.{Sight};
ghost use Rattle.block_writes.specs.Writing.{at};
ghost use Rattle.data_query.specs.Extraction.{is_unknown, labelled, room_of, output_field, taken_fields, unknown_label};

use crate::QueryFault;
use formula_parts::Look;
use grid_address::{Cell, LAST_ROW, Span, column_at, header};
use lics_text::Memory;
use record_match::{field_named, is_label_at, is_no_field};
use std::alloc::Global;

/// A field that an output takes: its column in the input, and the column of the output.
#[derive(Clone, Copy)]
pub struct OutputField {
    pub field: u8,
    pub col: u8,
}

// The field that a column of the output takes, the column counted from the first.
fn output_field<K: Look>(look: &K, input: Span, output: Span, col: u16) -> Option<OutputField>
    requires { col < width_of output }
    ensures { let there = output.first.col + col in
        result ≡ output_field there (field_named (K.sight look.now) input (at output.first.row there)) }
{
    match field_named(look, input, header(output, col)) {
        Some(field) => Some(OutputField {
            field,
            col: column_at(output, col),
        }),
        None => None,
    }
}

// Adds the field that a column of the output takes, if there is one.
fn push_taken<K: Look>(
    fields: &mut Vec<OutputField>,
    look: &K,
    input: Span,
    output: Span,
    col: u16,
) -> Result<(), Memory>
    requires { col < width_of output }
    ensures { let there = output.first.col + col in
        let field = output_field there (field_named (K.sight look.now) input (at output.first.row there)) in
        OnOk result (fields.new.items ≡ fields.old.items ++ option_to_list field) }
{
    match output_field(look, input, output, col) {
        Some(field) => {
            fields.push(field)?;
            Ok(())
        }
        None => Ok(()),
    }
}

/// The fields that the headers of an output name, from left to right.
pub fn taken_fields<K: Look>(
    alloc: Global,
    look: &K,
    input: Span,
    output: Span,
) -> Result<Vec<OutputField>, Memory>
    ensures { IfOk result (λ v. v.items ≡ taken_fields (K.sight look.now) input output) }
{
    let mut fields = Vec::new(alloc);
    for col in 0..output.width() {
        push_taken(&mut fields, look, input, output, col)?;
    }
    Ok(fields)
}

// Whether a header of the output is a label that names no field.
fn is_unknown<K: Look>(look: &K, input: Span, output: Span, col: u16) -> bool
    requires { col < width_of output }
    ensures { result ≡ is_unknown (K.sight look.now) input output (output.first.col + col) }
{
    let name = header(output, col);
    is_label_at(look, name) && is_no_field(look, input, name)
}

// The column of the first label of the output that names no field.
fn unknown_label<K: Look>(look: &K, input: Span, output: Span) -> Option<u8>
    ensures { result ≡ unknown_label (K.sight look.now) input output }
{
    for col in 0..output.width() {
        if is_unknown(look, input, output, col) {
            return Some(column_at(output, col));
        }
    }
    None
}

/// Why an output is refused before its records are looked for.
pub fn labelled<K: Look>(look: &K, input: Span, output: Span) -> Result<(), QueryFault>
    ensures { result ≡ labelled (K.sight look.now) input output tt }
{
    match unknown_label(look, input, output) {
        Some(col) => Err(QueryFault::FieldAbsent(Cell {
            row: output.first.row,
            col,
        })),
        None => Ok(()),
    }
}

/// How many records an output has room for below its headers.
pub fn room_of(output: Span) -> u16
    ensures room { result ≡ room_of output }
    ensures fits { output.first.row + result ≤ last_row }
{
    if output.first.row == output.last.row {
        LAST_ROW - output.first.row
    } else {
        output.last.row - output.first.row
    }
}
