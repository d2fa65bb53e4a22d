// The functions of records.
ghost use Rattle.std.specs.Prelude.{◌≡◌, ◌<◌, ◌+◌, IfOk};
ghost use Rattle.grid_address.specs.Place.{width_of};
ghost use Rattle.record_match.specs.Criteria.{fields_of};
ghost use Rattle.record_match.specs.Databases.{by_column, database_value, is_asked, list_function, over_column, record_items};
ghost use Rattle.formula_parts.specs.Outlook.{Sight};
ghost use Rattle.formula_parts.specs.Standpoints.{outlook_from};

use crate::criteria::{fields_of, record_matches};
use crate::fields::has_fields;
use crate::headers::missing;
use crate::query::Query;
use formula_parts::{
    Argument, Item, Look, Standpoint, place_in, put_cell, range_of, total_in, value_for,
};
use formula_tree::{Function, Value};
use grid_address::{Cell, column_at, count_below, row_below};
use lics_text::Memory;
use value_functions::{number_in, stop_one};

// The function of a list that a function of records is.
fn list_function(function: Function) -> Function
    ensures { result ≡ list_function function }
{
    match function {
        Function::DSum => Function::Sum,
        Function::DAvg => Function::Avg,
        Function::DCount => Function::Count,
        Function::DMin => Function::Min,
        _ => Function::Max,
    }
}

// Whether the input names its fields, and the criterion speaks of these alone.
fn is_asked<K: Look>(look: &K, query: &Query) -> bool
    ensures { result ≡ is_asked (K.sight look.now) query.now.input query.now.criterion }
{
    if !has_fields(look, query.input) {
        return false;
    }
    match missing(look, query.input, query.criterion) {
        Some(_) => false,
        None => true,
    }
}

// The cells of a column in the records that match, where the headers of the criterion name these fields.
fn items_of_records<K: Look>(
    from: &Standpoint<'_, K>,
    query: &Query,
    fields: &[Option<u8>],
    col: u8,
) -> Result<Vec<Item>, Memory>
    requires { fields.now ≡ fields_of (K.sight from.now.look.now) query.now.input query.now.criterion }
    ensures { let w = outlook_from K.Look from.now in
        IfOk result (λ v. v.items ≡ record_items w query.now.input query.now.criterion col) }
{
    let mut items = Vec::new(from.alloc);
    for place in 0..count_below(query.input) {
        let row = row_below(query.input, place);
        let found = record_matches(from.look, from.scene, query, fields, row)?;
        if found {
            put_cell(&mut items, &from.look.value(Cell { row, col }))?;
        }
    }
    Ok(items)
}

// The cells of a column in the records that match.
fn record_items<K: Look>(
    from: &Standpoint<'_, K>,
    query: &Query,
    col: u8,
) -> Result<Vec<Item>, Memory>
    ensures { let w = outlook_from K.Look from.now in
        IfOk result (λ v. v.items ≡ record_items w query.now.input query.now.criterion col) }
{
    let fields = fields_of(from.alloc, from.look, query.input, query.criterion)?;
    items_of_records(from, query, fields.as_slice(), col)
}

// A function of records over a column, counted from the first.
fn over_column<K: Look>(
    from: &Standpoint<'_, K>,
    function: Function,
    query: &Query,
    place: u16,
) -> Result<Value, Memory>
    requires { place < width_of query.now.input }
    ensures { let w = outlook_from K.Look from.now in
        IfOk result (λ v. v ≡ over_column function w query.now.input query.now.criterion place) }
{
    if !is_asked(from.look, query) {
        return Ok(Value::Err);
    }
    let col = column_at(query.input, place);
    let items = record_items(from, query, col)?;
    let total = total_in(items.as_slice())?;
    Ok(value_for(list_function(function), &total))
}

// A function of records over the column of this number.
fn by_column<K: Look>(
    from: &Standpoint<'_, K>,
    function: Function,
    query: &Query,
    number: &Value,
) -> Result<Value, Memory>
    ensures { let w = outlook_from K.Look from.now in
        IfOk result (λ v. v ≡ by_column function w query.now.input query.now.criterion number.now) }
{
    if let Some(stopped) = stop_one(number) {
        return Ok(stopped);
    }
    let Some(number) = number_in(number) else {
        return Ok(Value::Err);
    };
    match place_in(number, query.input.width()) {
        Some(place) => over_column(from, function, query, place),
        None => Ok(Value::Err),
    }
}

/// DSUM, DAVG, DCOUNT, DMIN and DMAX of an input, a column's number and a criterion: the function of a list over the
/// cells of that column in the records that match. ERR where one of the two is no range, the input names no fields, a
/// header of the criterion above a number or a label names none of them, or the input has no such column. (Release 2
/// manual; that ERR and NA for a number win over the last three is this project's own choice.)
pub fn database_value<K: Look>(
    from: &Standpoint<'_, K>,
    function: Function,
    arguments: &[Argument],
) -> Result<Value, Memory>
    ensures { IfOk result (λ v. v ≡ database_value function (outlook_from K.Look from.now) arguments.now) }
{
    match arguments {
        [input, number, criterion] => match range_of(input.operand) {
            Some(input) => match range_of(criterion.operand) {
                Some(criterion) => {
                    by_column(from, function, &Query { input, criterion }, &number.value)
                }
                None => Ok(Value::Err),
            },
            None => Ok(Value::Err),
        },
        _ => Ok(Value::Err),
    }
}
