// The records that match a criterion, or the others.
ghost use Rattle.std.specs.Prelude.{◌≡◌, IfOk, map};
ghost use Rattle.grid_address.specs.Lines.{at};
ghost use Rattle.record_match.specs.Criteria.{fields_of};
ghost use Rattle.formula_parts.specs.Outlook.{Sight};
ghost use Rattle.formula_parts.specs.Scenes.{outlook_of};
ghost use Rattle.data_query.specs.inner.Plans.{is_wanted, records};

use formula_parts::{Look, Scene};
use grid_address::{CellList, cell_below, count_below, row_below};
use lics_text::Memory;
use record_match::{Query, fields_of, record_matches};
use std::alloc::Global;

// Whether the records that match are wanted, or the others.
fn is_wanted(wanted: bool, matches: bool) -> bool
    ensures { result ≡ is_wanted wanted matches }
{
    if wanted { matches } else { !matches }
}

// The first cells of the records that match, or of the others, where the headers of the criterion name these fields.
fn records_of<K: Look>(
    alloc: Global,
    look: &K,
    scene: &Scene,
    query: &Query,
    fields: &[Option<u8>],
    wanted: bool,
) -> Result<CellList, Memory>
    requires { fields.now ≡ fields_of (K.sight look.now) query.now.input query.now.criterion }
    ensures { let w = outlook_of (K.sight look.now) scene.entry.now in
        IfOk result (λ l. l ≡ map (λ row. at row query.now.input.first.col)
        (records w query.now.input query.now.criterion wanted)) }
{
    let mut cells = CellList::new(alloc);
    for place in 0..count_below(query.input) {
        let row = row_below(query.input, place);
        let matches = record_matches(look, scene, query, fields, row)?;
        if is_wanted(wanted, matches) {
            cells.push(cell_below(query.input, place))?;
        }
    }
    Ok(cells)
}

/// The first cells of the records that match, or of the others.
pub fn records<K: Look>(
    alloc: Global,
    look: &K,
    scene: &Scene,
    query: &Query,
    wanted: bool,
) -> Result<CellList, Memory>
    ensures { let w = outlook_of (K.sight look.now) scene.entry.now in
        IfOk result (λ l. l ≡ map (λ row. at row query.now.input.first.col)
        (records w query.now.input query.now.criterion wanted)) }
{
    let fields = fields_of(alloc, look, query.input, query.criterion)?;
    let cells = records_of(alloc, look, scene, query, fields.as_slice(), wanted)?;
    Ok(cells)
}
