// What is printed.
use range_names::Names;
use sheet_store::{Settings, Store};

/// A worksheet that is printed: its cells and columns, its names and its settings, as they stand.
#[derive(Clone, Copy)]
pub struct PrintedSheet<'a> {
    pub store: &'a Store,
    pub names: &'a Names,
    pub settings: &'a Settings,
}
