//! What keys come to in each room, and what its panel shows: a menu, pointing at a span, a command that asks for its
//! answers, READY and ERROR, and a line that is typed.
#![tactic(auto)]

mod light_turn;
pub mod menu;
pub mod pointing;
pub mod prompt;
pub mod ready;
pub mod typing;

pub use light_turn::LightTurn;
