//! Queries: which records match a criterion, and what their extraction and deletion write.
#![tactic(auto)]

mod deleting;
mod erasing;
mod extracting;
mod extraction;
mod fault;
mod missing;
mod output;
mod plan;
mod repeats;
mod selecting;

pub use deleting::deletion;
pub use extracting::extract;
pub use extraction::Extraction;
pub use fault::QueryFault;
pub use grid_address::rows_down;
pub use record_match::{Match, Query, content_holds, matches};
pub use selecting::select;
pub use value_functions::{equals_number, fits, is_true, value_is_like};
