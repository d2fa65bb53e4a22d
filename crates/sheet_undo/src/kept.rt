// A sheet as it was at some time.

use sheet_store::SavedSheet;

/// A sheet as it was at some time: what a file holds of it, whether the last recalculation told a circle, and whether a
/// change was made since then.
#[derive(Drop)]
pub struct KeptState {
    pub saved: SavedSheet,
    pub circular: bool,
    pub stale: bool,
}
