//! Day numbers and moments of the worksheet's calendar.
#![tactic(auto)]

mod calendar;
mod fractions;
mod moment;

pub use calendar::{Civil, LAST_DAY, civil_of, dates_and_numbers, day_of};
pub use fractions::{fraction_of, seconds_of, whole_day};
pub use moment::{Moment, moment_of};
