//! Operators and functions of single values: one row for each, by the codes of the worksheet file format.
#![tactic(auto)]

mod numbers;
mod operators;
mod patterns;
mod rows;
mod scalars;
mod values;

pub use numbers::{equals_number, is_same, is_true};
pub use operators::{binary, binary_numbers, denied, divided, is_zero, negated};
pub use patterns::{fits, value_is_like};
pub use rows::constant_value;
pub use scalars::{
    changed, char_value, cut_value, exact_value, find_value, mid_value, of_number, of_numbers,
    of_parts, of_text, replace_value, string_value, test_value,
};
pub use values::{
    answer, counted, number_in, stop, stop_one, stop_two, text_in, texted, truth, whole_number,
};
