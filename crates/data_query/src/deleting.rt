// What deleting the records that match writes.
ghost use Rattle.std.specs.Prelude.{◌≡◌, ◌⊎◌, ◌<◌, ◌≤◌, ◌+◌, ◌-◌, IfOk, IfErr, Ok, Err, length, map};
ghost use Rattle.grid_address.specs.Place.{Place};
ghost use Rattle.formula_parts.specs.Outlook.{Sight};
ghost use Rattle.formula_parts.specs.Scenes.{outlook_of};
ghost use Rattle.data_query.specs.inner.Plans.{behind_first};
ghost use Rattle.data_query.specs.Selection.{deletion, kept, moved_up};

use crate::QueryFault;
use crate::erasing::push_rows_erased;
use crate::missing::asked;
use crate::plan::records;
use block_writes::rows_copied;
use formula_parts::{Look, Scene};
use grid_address::{Cell, CellList, Span, count_below, row_below};
use lics_text::Memory;
use record_match::Query;
use sheet_store::Writes;
use std::alloc::Global;

// A range without its first row.
fn behind_first(input: Span) -> Span
    requires { input.first.row < input.last.row }
    ensures { result ≡ behind_first input }
{
    let first = Cell {
        row: input.first.row + 1,
        col: input.first.col,
    };
    Span {
        first,
        last: input.last,
    }
}

// Writes by which the records of these cells move up, and the rest is erased.
fn moved_up<K: Look>(
    alloc: Global,
    look: &K,
    input: Span,
    kept: &CellList,
) -> Result<Writes, Memory>
    requires some { input.first.row < input.last.row }
    requires fits { length kept.now ≤ input.last.row - input.first.row }
    ensures { let rows = map (λ (p : Place). p.row) kept.now in
        IfOk result (λ l. l ≡ moved_up (K.sight look.now) input rows) }
{
    let mut writes = rows_copied(alloc, look, behind_first(input), kept.as_slice())?;
    let count = kept.len() as u16;
    let first = row_below(input, count);
    push_rows_erased(&mut writes, input, first, count_below(input) - count)?;
    Ok(writes)
}

// What deleting the records that match writes, where the input names its fields.
fn deleted<K: Look>(alloc: Global, query: &Query, look: &K, scene: &Scene) -> Result<Writes, Memory>
    requires { query.now.input.first.row < query.now.input.last.row }
    ensures { let w = outlook_of (K.sight look.now) scene.entry.now in
        IfOk result (λ l. l ≡ moved_up w.sight query.now.input (kept w query.now.input query.now.criterion)) }
{
    let kept = records(alloc, look, scene, query, false)?;
    let writes = moved_up(alloc, look, query.input, &kept)?;
    Ok(writes)
}

/// What deleting the records that match a criterion writes: the others move up as copies of their contents and
/// formats, and the rest of the input is erased, its cells keeping their formats. Each cell below the input's first row
/// is written, also where a record keeps its place. The faults are those of `select`. (Release 2 manual; that all cells
/// are written is this project's own choice.)
pub fn deletion<K: Look>(
    alloc: Global,
    query: &Query,
    look: &K,
    scene: &Scene,
) -> Result<Writes, QueryFault>
    ensures found { let w = outlook_of (K.sight look.now) scene.entry.now in
        IfOk result (λ l. deletion w query.now.input query.now.criterion ≡ Ok l) }
    ensures fault { let w = outlook_of (K.sight look.now) scene.entry.now in
        IfErr result (λ f. (f ≡ QueryFault.Memory) ⊎ (deletion w query.now.input query.now.criterion ≡ Err f)) }
{
    asked(look, query)?;
    match deleted(alloc, query, look, scene) {
        Ok(writes) => Ok(writes),
        Err(Memory) => Err(QueryFault::Memory),
    }
}
