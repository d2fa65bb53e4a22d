//! The errors that the session shows, each with its cause and its message.
#![tactic(auto)]

mod error;

pub use error::CommandError;
