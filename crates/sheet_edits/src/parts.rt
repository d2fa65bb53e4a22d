// What an edit changes.
use cell_maps::CellSet;
use depend_graph::Graph;
use sheet_store::Store;

/// What an edit of cells changes in a sheet: the cells, the graph of their formulas, and which of these are dirty.
#[derive(Drop)]
pub struct Parts<'a> {
    pub store: &'a mut Store,
    pub graph: &'a mut Graph,
    pub dirty: &'a mut CellSet,
}
