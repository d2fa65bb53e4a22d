//! The worksheet: edits that keep every value right.
#![tactic(auto)]

mod history;
mod sheet;
mod typed;
mod work;

pub use sheet::{Worksheet, WorksheetOf};
pub use work::{
    what_happened_has_its_work, what_happened_tells_the_work, what_was_done_is_composed,
};
