//! Text files that macros read and write: a channel holds one file of the shelf, from its attaching to its finishing.
#![tactic(auto)]

mod attached;
mod channel;
mod lines;

pub use attached::Access;
pub use channel::{Channel, ChannelFault};
