//! The commands below Range, Copy and Move.
#![tactic(auto)]

mod acting;
mod copying;
mod formats;
mod labels;
mod moving;
mod naming;
mod values;
mod work;

pub use acting::act;
pub use copying::copy;
pub use moving::move_span;
pub use work::Work;
