// What is extracted from a database.
use grid_address::Span;
use record_match::Query;

/// An extraction of the records that a query asks for into an output: of all, or of those that differ.
#[derive(Clone, Copy)]
pub struct Extraction {
    pub query: Query,
    pub output: Span,
    pub unique: bool,
}
