//! Numbers as whole counts of millionths: each operation is the exact fraction, rounded once to the nearest
//! millionth, halves away from zero (this project's choice in place of the manual's floating point).
#![tactic(auto)]

mod decimal;
mod digits;
mod doubles;
mod fixed;
mod front;
mod in_place;
mod parts;
mod power;
mod power_of_ten;
mod round;

pub use decimal::{Decimal, all_digits, capped_number, digits_len, read_decimal};
pub use digits::{
    front_len, rounds_to_zero, short_is_read, whole_len, write_decimal, write_exact, write_fitting,
    write_hundredfold, write_short, written_is_read,
};
pub use doubles::{DoubleRead, from_double_bits, to_double_bits};
pub use fixed::{Fixed, MAX_SIZE, rounding_is_nearest};
pub use front::Digits;
pub use in_place::put_exact;
