// The records that a criterion chooses.
ghost use Rattle.std.specs.Prelude.{◌≡◌, ◌⊎◌, IfOk, IfErr, Ok, Err, map};
ghost use Rattle.formula_parts.specs.Outlook.{Sight};
ghost use Rattle.formula_parts.specs.Scenes.{outlook_of};
ghost use Rattle.block_writes.specs.Writing.{at};
ghost use Rattle.data_query.specs.Selection.{chosen, selection};

use crate::QueryFault;
use crate::missing::asked;
use crate::plan::records;
use formula_parts::{Look, Scene};
use grid_address::CellList;
use lics_text::Memory;
use record_match::Query;
use std::alloc::Global;

/// The first cells of the records that match a criterion.
pub fn chosen<K: Look>(
    alloc: Global,
    query: &Query,
    look: &K,
    scene: &Scene,
) -> Result<CellList, Memory>
    ensures { let w = outlook_of (K.sight look.now) scene.entry.now in
        IfOk result (λ l. l ≡ map (λ row. at row query.now.input.first.col)
        (chosen w query.now.input query.now.criterion)) }
{
    let cells = records(alloc, look, scene, query, true)?;
    Ok(cells)
}

/// The first cells of the records that match a criterion, in order. The faults are `NoFieldRow`, exactly where the
/// input has one row or its first row holds a cell that is no label, and else `FieldAbsent`, exactly where a header of
/// the criterion above a number or a label names no field, with the first such header; and want of memory. (Release 2
/// manual; the order of the faults is this project's own choice.)
pub fn select<K: Look>(
    alloc: Global,
    query: &Query,
    look: &K,
    scene: &Scene,
) -> Result<CellList, QueryFault>
    ensures found { let w = outlook_of (K.sight look.now) scene.entry.now in
        IfOk result (λ l. selection w query.now.input query.now.criterion ≡ Ok l) }
    ensures fault { let w = outlook_of (K.sight look.now) scene.entry.now in
        IfErr result (λ f. (f ≡ QueryFault.Memory) ⊎ (selection w query.now.input query.now.criterion ≡ Err f)) }
{
    asked(look, query)?;
    match chosen(alloc, query, look, scene) {
        Ok(cells) => Ok(cells),
        Err(Memory) => Err(QueryFault::Memory),
    }
}
