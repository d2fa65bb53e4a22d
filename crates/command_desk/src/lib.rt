//! The desk that commands work on, how they read their answers, and what they come to.
#![tactic(auto)]

mod answers;
mod desk;
mod ending;
mod formats;
mod moving;
mod printing;
mod settling;
mod writing;

pub use answers::{cell_at, decimal_at, line_at, order_at, span_at, whole_at};
pub use data_blocks::{DeskRanges, LastQuery, LastTable, SortKey};
pub use desk::Desk;
pub use ending::{CommandEnd, settled, sheet_error};
pub use formats::FormatChoice;
pub use moving::move_cells;
pub use print_report::PrintSettings;
pub use printing::PrintDesk;
pub use settling::settle;
pub use writing::make_writes;
