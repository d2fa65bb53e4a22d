// The order of a recalculation.

/// The order in which a recalculation evaluates: each formula after those that it reads, by column and then by row,
/// or by row and then by column (Release 2 manual).
#[derive(Clone, Copy, PartialEq, Eq)]
pub enum Order {
    Natural,
    Columnwise,
    Rowwise,
}
