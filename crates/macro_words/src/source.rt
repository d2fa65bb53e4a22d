// What words read.
use formula_parts::{Look, Scene};
use grid_address::Format;
use std::alloc::Global;

/// What the words of a step read: the sheet that they look at, with its format, and the scene of the step. And the
/// memory in which they put what they read.
#[derive(Drop)]
pub struct Source<'a, K: Look> {
    pub alloc: Global,
    pub look: &'a K,
    pub scene: &'a Scene,
    pub global: Format,
}
