//! What a cell shows in its column's width, on the screen, in reports and in a macro's words: what fits the column, or
//! a text that runs on over the blank cells to the right. (Release 2 manual.)
#![tactic(auto)]

mod fitting;
mod shown;

pub use fitting::{Fitting, put_blanks, put_fitting};
pub use shown::{Shown, format_in, shown_byte, shown_content, shown_in};
