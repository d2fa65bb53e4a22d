// What rows are sorted by.

/// A column to sort by, upwards or downwards.
#[derive(Clone, Copy)]
pub struct SortKey {
    pub col: u8,
    pub descending: bool,
}
