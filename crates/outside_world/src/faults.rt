/// A call of the outside failed. The object's count of faults rose in that call.
#[derive(Clone, Copy)]
pub struct Failed;

/// Why a call of a shelf gives no answer.
#[derive(Clone, Copy)]
pub enum ShelfFault {
    /// The shelf failed, and its count of faults rose.
    Failed,
    /// There was no memory for the answer.
    Memory,
}
