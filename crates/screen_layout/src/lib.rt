//! The screen of a worksheet: 25 lines of 80 bytes, painted from nothing.
#![tactic(auto)]

mod cells;
mod columns;
mod control;
mod corner;
mod foot;
mod painted_line;
mod panel_view;
mod screen;
mod shown_columns;
mod widths;

pub use control::mode_name;
pub use corner::corner_for;
pub use foot::wants_recalculation;
pub use panel_view::PanelView;
pub use screen::{line_at, paint};
pub use shown_columns::columns_shown;
