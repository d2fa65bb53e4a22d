// What is asked of a database.
use grid_address::Span;

/// A query: the records of an input, below the row that names their fields, that match a criterion.
#[derive(Clone, Copy)]
pub struct Query {
    pub input: Span,
    pub criterion: Span,
}
