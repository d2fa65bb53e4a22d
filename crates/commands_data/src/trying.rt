// Contents are entered and given back, each with a recalculation in either mode.
ghost use Rattle.std.specs.Prelude.{◌≡◌, true, IfOk, OnOk};
ghost use Rattle.commands_data.specs.inner.Benched.{contents_behind, keep_formats, IsSameBut};
ghost use Rattle.commands_data.specs.Trying.{content_at, contents_of, put_out, written_out};
ghost use Rattle.data_blocks.specs.Benches.{with_content};
ghost use Rattle.grid_address.specs.Place.{same_place};
ghost use Rattle.cell_maps.specs.Sets.{has};
ghost use Rattle.sheet_edits.specs.Edits.{just};
ghost use Rattle.sheet_edits.specs.Spans.{written_cells};
ghost use Rattle.work_sheet.specs.Did.{Did};
ghost use Rattle.work_sheet.specs.Seen.{of_worksheet};

use block_writes::{copied, written};
use formula_eval::Tally;
use formula_parts::Scene;
use formula_tree::Content;
use grid_address::Cell;
use lics_text::Memory;
use sheet_store::Writes;
use work_sheet::Worksheet;

/// What some cells hold, as writes that put it back.
pub fn contents_of(sheet: &Worksheet, cells: &[Cell]) -> Result<Writes, Memory>
    ensures { IfOk result (λ w. w ≡ contents_of cells.now (of_worksheet sheet.now)) }
{
    let mut writes = Writes::new(sheet.alloc());
    for cell in cells {
        let write = copied(sheet, *cell, *cell)?;
        writes.push(written(write.cell, write.content))?;
    }
    Ok(writes)
}

/// Enters a content into a cell that isn't protected, and recalculates in either mode.
pub fn enter_out(
    cell: Cell,
    content: Content,
    sheet: &mut Worksheet,
    scene: &Scene,
    tally: &mut Tally,
) -> Result<(), Memory>
    ensures did { let done = put_out scene.entry.now cell content (of_worksheet sheet.old) in
        OnOk result (Did done sheet.old sheet.new tally.old.count tally.new.count) }
    ensures entered { OnOk result
        (content_at sheet.new.grid ≡ with_content cell content (content_at sheet.old.grid)) }
    ensures same { IsSameBut (just cell) sheet.old sheet.new }
{
    match sheet.enter(cell, content) {
        Ok(()) => sheet.calc(scene, tally),
        Err(_) => Err(Memory),
    }
}

/// Makes the writes, and recalculates in either mode.
pub fn write_out(
    writes: &Writes,
    sheet: &mut Worksheet,
    scene: &Scene,
    tally: &mut Tally,
) -> Result<(), Memory>
    ensures did { let done = written_out scene.entry.now writes.now (of_worksheet sheet.old) in
        OnOk result (Did done sheet.old sheet.new tally.old.count tally.new.count) }
    ensures written { OnOk result
        (content_at sheet.new.grid ≡ contents_behind writes.now (content_at sheet.old.grid)) }
    ensures same { keep_formats writes.now ≡ true →
        IsSameBut (has same_place (written_cells writes.now)) sheet.old sheet.new }
{
    match sheet.write(writes) {
        Ok(()) => sheet.calc(scene, tally),
        Err(_) => Err(Memory),
    }
}
