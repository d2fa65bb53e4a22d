//! One step of the worksheet session, and the screen that it shows.
#![tactic(auto)]

mod acting;
mod entering;
mod event;
mod faults;
mod frozen;
mod glance;
mod laws;
mod machine;
mod pressing;
mod refusal;
mod rows;
mod session;
mod touched;
mod waiting;

pub use event::{Event, Stepped};
pub use key_words::Key;
pub use laws::{
    a_step_has_one_outcome, no_command_is_begun_in_ready, only_print_changes_what_reports_need,
};
pub use refusal::RefusedText;
pub use session::Session;
