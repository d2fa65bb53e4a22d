//! The answers to a command's prompts: what each means, and why it is refused.
#![tactic(auto)]

mod numbers;
mod refusal;
mod spans;

pub use numbers::{decimal_answer, order_answer, whole_answer};
pub use refusal::test_answer;
pub use spans::span_answer;
