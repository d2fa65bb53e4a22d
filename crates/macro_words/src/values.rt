// What is put into cells.
ghost use Rattle.std.specs.Prelude.{◌≡◌, ◌∷◌, [], IfOk, IfSome};
ghost use Rattle.block_writes.specs.Writing.{as_content, written};
ghost use Rattle.macro_words.specs.Sources.{outlook_from};
ghost use Rattle.formula_tree.specs.declared.value.Value.TheVariants as value;
ghost use Rattle.lics_text.specs.Bytes.{IsText};
ghost use Rattle.macro_text.specs.Read.{IsRead};
ghost use Rattle.macro_words.specs.Rows as rows;
ghost use Rattle.macro_words.specs.Values as spec;

use crate::{Change, Deed, Move, Row, Source};
use block_writes::{content_of_value, written};
use formula_parts::Look;
use formula_tree::{Content, Formula, Value};
use grid_address::Cell;
use lics_text::{LabelPrefix, Memory, Text};
use macro_text::{front, read_value, rest_of};
use sheet_store::Writes;
use std::alloc::Global;

// The write of one content.
#[inline(always)]
fn one_write(alloc: Global, cell: Cell, content: Content) -> Result<Writes, Memory>
    ensures { IfOk result (λ w. w ≡ written cell content ∷ []) }
{
    let mut writes = Writes::new(alloc);
    writes.push(written(cell, content))?;
    Ok(writes)
}

/// The write that puts a value into a cell: a text as a label with `'`, ERR and NA as formulas.
#[inline(always)]
pub fn value_write(alloc: Global, cell: Cell, value: &Value) -> Result<Writes, Memory>
    ensures { IfOk result (λ w. w ≡ written cell (as_content value.now) ∷ []) }
{
    let content = content_of_value(alloc, value)?;
    one_write(alloc, cell, content)
}

/// One content is written.
pub fn puts_one(alloc: Global, cell: Cell, content: Content, after: Move) -> Result<Row, Memory>
    ensures { IfOk result (λ r. r ≡ rows.puts (written cell content ∷ []) after) }
{
    let writes = one_write(alloc, cell, content)?;
    Ok(Ok(Deed {
        change: Change::Write(writes),
        after,
    }))
}

/// A value is put into a cell: a text as a label with `'`, ERR and NA as formulas.
pub fn puts_value(alloc: Global, cell: Cell, value: &Value, after: Move) -> Result<Row, Memory>
    ensures { IfOk result (λ r. r ≡ rows.puts_value cell value.now after) }
{
    let writes = value_write(alloc, cell, value)?;
    Ok(Ok(Deed {
        change: Change::Write(writes),
        after,
    }))
}

/// A text is put into a cell, as a label with `'`.
pub fn puts_text(alloc: Global, cell: Cell, bytes: &[u8], after: Move) -> Result<Row, Memory>
    requires { IsText bytes.now }
    ensures { IfOk result (λ r. r ≡ rows.puts_value cell (value.Str bytes.now) after) }
{
    let text = Text::copy_of(alloc, bytes)?;
    puts_one(alloc, cell, Content::Label(LabelPrefix::Left, text), after)
}

/// Whether a text ends so, in letters of either case.
pub fn ends_in(text: &[u8], ending: &[u8]) -> bool
    ensures { result ≡ spec.ends_in ending.now text.now }
{
    let from = text.len().saturating_sub(ending.len());
    rest_of(text, from).eq_ignore_ascii_case(ending)
}

/// A text without so many bytes at its end.
pub fn without<'a>(text: &'a [u8], ending: &[u8]) -> &'a [u8]
    ensures bytes { result.now ≡ spec.without ending.now text.now }
    ensures text { IsText text.now → IsText result.now }
{
    let to = text.len().saturating_sub(ending.len());
    front(text, to)
}

/// Behind it an argument is a text.
pub const AS_STRING: &[u8] = b":STRING";

/// Behind it an argument is an expression.
pub const AS_VALUE: &[u8] = b":VALUE";

/// Bytes as a text's value.
pub fn text_value(alloc: Global, bytes: &[u8]) -> Result<Value, Memory>
    requires { IsText bytes.now }
    ensures { IfOk result (λ v. v ≡ value.Str bytes.now) }
{
    Ok(Value::Str(Text::copy_of(alloc, bytes)?))
}

// The value of a formula, or else the bytes.
fn value_or_bytes(alloc: Global, text: &[u8], value: Option<Value>) -> Result<Value, Memory>
    requires { IsText text.now }
    ensures { IfOk result (λ v. v ≡ spec.value_or_bytes text.now value) }
{
    match value {
        Some(value) => Ok(value),
        None => text_value(alloc, text),
    }
}

/// A text in a cell, with its formula where that was read already.
#[derive(Drop)]
pub struct ReadText<'a> {
    pub at: Cell,
    pub text: &'a [u8],
    pub formula: Option<&'a Formula>,
}

// The value of a formula; behind `:string`, or where it is none, the bytes.
#[inline(always)]
fn typed_value<K: Look>(from: &Source<'_, K>, read: &ReadText<'_>) -> Result<Value, Memory>
    requires text { IsText read.now.text.now }
    requires formula { IfSome read.now.formula (λ f. IsRead read.now.at read.now.text.now f.now) }
    ensures { IfOk result (λ v. v ≡ spec.typed_value (outlook_from K.Look from.now) read.now.at read.now.text.now) }
{
    if ends_in(read.text, AS_STRING) {
        return text_value(from.alloc, without(read.text, AS_STRING));
    }
    let value = read_value(
        from.alloc,
        read.text,
        read.formula,
        read.at,
        from.look,
        from.scene,
    )?;
    value_or_bytes(from.alloc, read.text, value)
}

/// What LET puts: an ending `:value` is dropped first; behind it `:string`, or no formula, gives the bytes.
#[inline(always)]
pub fn let_value<K: Look>(from: &Source<'_, K>, read: &ReadText<'_>) -> Result<Value, Memory>
    requires text { IsText read.now.text.now }
    requires formula { IfSome read.now.formula (λ f. IsRead read.now.at read.now.text.now f.now) }
    ensures { IfOk result (λ v. v ≡ spec.let_value (outlook_from K.Look from.now) read.now.at read.now.text.now) }
{
    if ends_in(read.text, AS_VALUE) {
        let rest = ReadText {
            at: read.at,
            text: without(read.text, AS_VALUE),
            formula: None,
        };
        typed_value(from, &rest)
    } else {
        typed_value(from, read)
    }
}
