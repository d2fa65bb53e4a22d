// What a query is refused for: its input names no fields, or a header of its criterion names none of them.
ghost use Rattle.std.specs.Prelude.{◌≡◌};
ghost use Rattle.formula_parts.specs.Outlook.{Sight};
ghost use Rattle.data_query.specs.Selection.{asked};

use crate::QueryFault;
use formula_parts::Look;
use grid_address::Cell;
use record_match::{Query, has_fields, missing};

/// Why a query is refused before its records are looked at.
pub fn asked<K: Look>(look: &K, query: &Query) -> Result<(), QueryFault>
    ensures { result ≡ asked (K.sight look.now) query.now.input query.now.criterion tt }
{
    if !has_fields(look, query.input) {
        return Err(QueryFault::NoFieldRow);
    }
    match missing(look, query.input, query.criterion) {
        Some(col) => Err(QueryFault::FieldAbsent(Cell {
            row: query.criterion.first.row,
            col,
        })),
        None => Ok(()),
    }
}
