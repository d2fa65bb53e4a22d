//! Functions of single values: numbers, dates and times, and texts. None stands for the value ERR, exactly where the
//! function has no value. Whole arguments are cut toward zero, and places count from 0. (Release 2 manual.)
#![tactic(auto)]

mod counts;
mod dates;
mod numbers;
mod readings;
mod texts;

pub use counts::whole;
pub use dates::{date, day, hour, minute, month, second, time, year};
pub use numbers::round;
pub use readings::{datevalue, timevalue, value};
pub use texts::{char_of, code, find_in, left, length, mid, repeat, replace, right, string};
