// What commands work on.
use formula_eval::Tally;
use formula_parts::Scene;
use work_sheet::Worksheet;

/// A worksheet that is worked on at a scene, and the count of its evaluations.
#[derive(Drop)]
pub struct Work<'a> {
    pub sheet: &'a mut Worksheet,
    pub scene: &'a Scene,
    pub tally: &'a mut Tally,
}
