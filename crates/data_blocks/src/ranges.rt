// What the commands on data keep.
ghost use Rattle.std.specs.Prelude.{◌≡◌};
ghost use Rattle.data_blocks.specs.Ranges.{no_ranges};

use crate::SortKey;
use grid_address::{Cell, Span};

/// The last query that was made.
#[derive(Clone, Copy)]
pub enum LastQuery {
    Nothing,
    Extract,
    Unique,
    Delete,
}

/// The last table that was made: its span, and the cells that take its inputs.
#[derive(Clone, Copy)]
pub enum LastTable {
    Nothing,
    One(Span, Cell),
    Two(Span, Cell, Cell),
}

/// What the commands on data keep. No edit of the sheet adjusts it (this project's choice).
#[derive(Clone, Copy)]
pub struct DeskRanges {
    pub input: Option<Span>,
    pub criterion: Option<Span>,
    pub output: Option<Span>,
    pub sort: Option<Span>,
    pub primary: Option<SortKey>,
    pub secondary: Option<SortKey>,
    pub last_query: LastQuery,
    pub last_table: LastTable,
}

impl DeskRanges {
    /// Nothing is kept.
    pub fn new() -> DeskRanges
        ensures { result ≡ no_ranges }
    {
        DeskRanges {
            input: None,
            criterion: None,
            output: None,
            sort: None,
            primary: None,
            secondary: None,
            last_query: LastQuery::Nothing,
            last_table: LastTable::Nothing,
        }
    }
}
