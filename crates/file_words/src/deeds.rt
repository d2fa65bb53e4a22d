// What words do to the sheet and the macro.
ghost use Rattle.std.specs.Prelude.{◌≡◌, ◌≤◌, option_map, IfOk, IfSome};
ghost use Rattle.file_words.specs.Serving as spec;
ghost use Rattle.macro_words.specs.Values.{label};
ghost use Rattle.text_channel.specs.Channels.{LIMIT};

use block_writes::written;
use fixed_value::Fixed;
use formula_tree::Content;
use grid_address::Cell;
use lics_text::{LabelPrefix, Memory, Text};
use macro_text::Spot;
use macro_words::{Change, Deed, Move};
use sheet_store::Writes;
use std::alloc::Global;

/// The macro goes on at a place where something was done, and else where it stands.
pub fn goes_on(done: Spot, is_done: bool) -> Deed
    ensures { result ≡ spec.goes_on done is_done }
{
    if is_done {
        Deed {
            change: Change::Nothing,
            after: Move::Go(done),
        }
    } else {
        Deed {
            change: Change::Nothing,
            after: Move::Stay,
        }
    }
}

// What was given is put into a cell.
fn puts_given(alloc: Global, done: Spot, cell: Cell, given: Option<Content>) -> Result<Deed, Memory>
    ensures { IfOk result (λ deed. deed ≡ spec.puts_given done cell given) }
{
    let Some(content) = given else {
        return Ok(goes_on(done, false));
    };
    let mut writes = Writes::new(alloc);
    writes.push(written(cell, content))?;
    Ok(Deed {
        change: Change::Write(writes),
        after: Move::Go(done),
    })
}

/// A text that was given is put into a cell as a label.
pub fn puts_text(alloc: Global, done: Spot, cell: Cell, given: Option<Text>) -> Result<Deed, Memory>
    ensures { IfOk result (λ deed. deed ≡ spec.puts_given done cell (option_map label given)) }
{
    match given {
        Some(text) => {
            let content = Content::Label(LabelPrefix::Left, text);
            puts_given(alloc, done, cell, Some(content))
        }
        None => puts_given(alloc, done, cell, None),
    }
}

// How many bytes, as a number.
fn number(count: u32) -> Content
    requires { count ≤ LIMIT }
    ensures { result ≡ spec.number count }
{
    match Fixed::of(i64::from(count) * 1_000_000) {
        Some(number) => Content::Number(number),
        None => unreachable!(),
    }
}

/// A number of bytes that was given is put into a cell.
pub fn puts_number(
    alloc: Global,
    done: Spot,
    cell: Cell,
    given: Option<u32>,
) -> Result<Deed, Memory>
    requires { IfSome given (λ count. count ≤ LIMIT) }
    ensures { IfOk result (λ deed. deed ≡ spec.puts_given done cell (option_map spec.number given)) }
{
    match given {
        Some(count) => puts_given(alloc, done, cell, Some(number(count))),
        None => puts_given(alloc, done, cell, None),
    }
}
