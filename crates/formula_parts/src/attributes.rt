// What CELL and CELLPOINTER tell of a cell.
ghost use Rattle.std.specs.Prelude.{◌≡◌, ◌≤◌, ◌<◌, ◌+◌, ◌++◌, length, nat_le, IfOk, codes};
ghost use Rattle.std.specs.Str.{str_eq_ignore_ascii_case};
ghost use Rattle.formula_tree.specs.Seen.{seen_content};
ghost use Rattle.formula_parts.specs.Attributes.{attribute_named, attribute_value, cell_value, on_attribute, prefix_in, prefix_of, told_value, type_in, type_of, without_brackets};
ghost use Rattle.value_functions.specs.Values.{texted};
ghost use Rattle.formula_parts.specs.Outlook.{Sight};
ghost use Rattle.grid_address.specs.Address.{column_name, decimal};

use crate::argument::Operand;
use crate::look::Look;
use crate::lookups::range_of;
use cell_format::indicator;
use formula_tree::{ContentRef, Value};
use grid_address::{Cell, column_text, row_text};
use lics_text::{Line, Memory};
use std::alloc::Global;
use value_functions::{counted, stop_one, text_in, texted, truth};

/// What may be asked of a cell.
#[derive(Clone, Copy)]
pub enum Attribute {
    Address,
    Col,
    Row,
    Contents,
    Format,
    Prefix,
    Protect,
    CellType,
    Width,
}

// Whether a text is a word, letters of either case being the same.
fn is_word(text: &[u8], word: &[u8]) -> bool
    ensures { result ≡ str_eq_ignore_ascii_case text.now word.now }
{
    text.eq_ignore_ascii_case(word)
}

// The attribute that a text asks for.
#[tactic(auto, unfolding(crate::specs::Attributes::attribute_named))]
fn attribute_named(text: &[u8]) -> Option<Attribute>
    ensures { result ≡ attribute_named text.now }
{
    if is_word(text, b"ADDRESS") {
        Some(Attribute::Address)
    } else if is_word(text, b"COL") {
        Some(Attribute::Col)
    } else if is_word(text, b"ROW") {
        Some(Attribute::Row)
    } else if is_word(text, b"CONTENTS") {
        Some(Attribute::Contents)
    } else if is_word(text, b"FORMAT") {
        Some(Attribute::Format)
    } else if is_word(text, b"PREFIX") {
        Some(Attribute::Prefix)
    } else if is_word(text, b"PROTECT") {
        Some(Attribute::Protect)
    } else if is_word(text, b"TYPE") {
        Some(Attribute::CellType)
    } else if is_word(text, b"WIDTH") {
        Some(Attribute::Width)
    } else {
        None
    }
}

// The address with both coordinates absolute.
fn address_value(alloc: Global, cell: Cell) -> Result<Value, Memory>
    ensures { let address = codes "$" ++ (column_name cell.col ++ (codes "$" ++ decimal (cell.row + 1))) in
        IfOk result (λ v. v ≡ texted address) }
{
    let mut line = Line::new();
    line.put(b'$');
    line.put_all(column_text(cell.col).bytes());
    line.put(b'$');
    line.put_all(row_text(cell.row).bytes());
    texted(alloc, line.bytes())
}

// The bytes without the first and the last.
fn without_brackets(bytes: &[u8]) -> &[u8]
    ensures { result.now ≡ without_brackets bytes.now }
{
    if bytes.len() == 0 {
        return bytes;
    }
    let rest = &bytes[1..];
    &rest[..rest.len().saturating_sub(1)]
}

// The prefix of a label as a text, and the empty text of anything else.
fn prefix_value(alloc: Global, content: &ContentRef<'_>) -> Result<Value, Memory>
    ensures { IfOk result (λ v. v ≡ texted (prefix_in (seen_content content.now))) }
{
    match content {
        ContentRef::Label(prefix, _) => texted(alloc, &[prefix.byte()]),
        ContentRef::Blank | ContentRef::Number(_) | ContentRef::Formula(_) => {
            texted(alloc, b"")
        },
    }
}

// The letter of a content: blank, label or value.
fn type_value(alloc: Global, content: &ContentRef<'_>) -> Result<Value, Memory>
    ensures { IfOk result (λ v. v ≡ texted (type_in (seen_content content.now))) }
{
    match content {
        ContentRef::Label(_, _) => texted(alloc, b"l"),
        ContentRef::Number(_) | ContentRef::Formula(_) => texted(alloc, b"v"),
        ContentRef::Blank => texted(alloc, b"b"),
    }
}

// The prefix of what is in a cell.
fn prefix_there<K: Look>(alloc: Global, cell: Cell, look: &K) -> Result<Value, Memory>
    ensures { IfOk result (λ v. v ≡ texted (prefix_of ((K.sight look.now).contents cell))) }
{
    match look.content(cell) {
        Some(content) => prefix_value(alloc, &content),
        None => texted(alloc, b""),
    }
}

// The letter of what is in a cell.
fn type_there<K: Look>(alloc: Global, cell: Cell, look: &K) -> Result<Value, Memory>
    ensures { IfOk result (λ v. v ≡ texted (type_of ((K.sight look.now).contents cell))) }
{
    match look.content(cell) {
        Some(content) => type_value(alloc, &content),
        None => texted(alloc, b"b"),
    }
}

// What is told of a cell.
fn attribute_value<K: Look>(
    alloc: Global,
    cell: Cell,
    attribute: Attribute,
    look: &K,
) -> Result<Value, Memory>
    ensures { IfOk result (λ v. v ≡ attribute_value (K.sight look.now) cell attribute) }
{
    match attribute {
        Attribute::Address => address_value(alloc, cell),
        Attribute::Col => Ok(counted(usize::from(cell.col) + 1)),
        Attribute::Row => Ok(counted(usize::from(cell.row) + 1)),
        Attribute::Contents => look.value(cell).copy(),
        Attribute::Format => texted(
            alloc,
            without_brackets(indicator(look.format(cell)).bytes()),
        ),
        Attribute::Prefix => prefix_there(alloc, cell, look),
        Attribute::Protect => Ok(truth(look.format(cell).is_protected())),
        Attribute::CellType => type_there(alloc, cell, look),
        Attribute::Width => Ok(counted(usize::from(look.width(cell.col)))),
    }
}

/// What is asked of a cell by a text.
pub fn told_value<K: Look>(alloc: Global, cell: Cell, a: &Value, look: &K) -> Result<Value, Memory>
    ensures { IfOk result (λ v. v ≡ told_value (K.sight look.now) cell a.now) }
{
    if let Some(stopped) = stop_one(a) {
        return Ok(stopped);
    }
    let Some(text) = text_in(a) else {
        return Ok(Value::Err);
    };
    match attribute_named(text.bytes()) {
        Some(attribute) => attribute_value(alloc, cell, attribute, look),
        None => Ok(Value::Err),
    }
}

/// CELL, of the first cell of a range.
pub fn cell_value<K: Look>(
    alloc: Global,
    a: &Value,
    range: Operand,
    look: &K,
) -> Result<Value, Memory>
    ensures { IfOk result (λ v. v ≡ cell_value (K.sight look.now) a.now range) }
{
    match range_of(range) {
        Some(span) => told_value(alloc, span.first, a, look),
        None => Ok(Value::Err),
    }
}
