//! A highlight among items, and where keys move it.
#![tactic(auto)]

mod ring;

pub use ring::highlighted;
