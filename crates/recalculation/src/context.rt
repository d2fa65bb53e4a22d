// What formulas look at beside the cells and the columns.
use formula_parts::Scene;
use range_names::Names;
use sheet_store::Settings;

/// What formulas look at beside the cells and the columns: the names and the settings of the sheet, and the pointer's
/// cell with the moment.
#[derive(Clone, Copy)]
pub struct ContextRef<'a> {
    pub names: &'a Names,
    pub settings: &'a Settings,
    pub scene: &'a Scene,
}
