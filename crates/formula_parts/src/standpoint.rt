// From where the parts of a formula are seen.
use crate::look::{Look, Scene};
use grid_address::Cell;
use std::alloc::Global;

/// From where the parts of a formula are seen: the cell in which it stands, and the sheet and the scene that it looks
/// at. And the memory in which values are put.
#[derive(Drop)]
pub struct Standpoint<'a, K: Look> {
    pub alloc: Global,
    pub at: Cell,
    pub look: &'a K,
    pub scene: &'a Scene,
}
