ghost use Rattle.std.specs.Prelude.{◌≡◌, ◌<◌, ◌≤◌, pos, None};
ghost use Rattle.std.specs.Option.{ForSome};
ghost use Rattle.serial_date.specs.Calendar.{day_number};
ghost use Rattle.jiff_core.specs.Time.{time_seconds};

use crate::calendar::day_of_date;
use jiff::civil::{DateTime, Time};

/// A moment, as a clock tells it: a day number, where the clock has one, and a second of the day.
/// Day 1 is 1 January 1900 and day 73050 is 31 December 2099; the second is below 86400.
#[derive(Clone, Copy)]
pub struct Moment {
    pub day: Option<u32>,
    pub second: u32,
    pub ghost day_in_range: { ForSome day (λ d. (1 ≤ d) × (d ≤ 73050)) },
    pub ghost second_in_range: { second < 86400 },
}

impl Moment {
    /// The moment of a clock that can't be read: no day, and second 0.
    pub fn unknown() -> Moment
        ensures day { result.day ≡ None }
        ensures second { result.second ≡ 0 }
    {
        Moment {
            day: None,
            second: 0,
        }
    }
}

/// The moment of a date and time: no day exactly outside 1900 to 2099, and the second of the day, without its
/// fraction.
pub fn moment_of(now: DateTime) -> Moment
    ensures day { result.day ≡ day_number now.date.year (pos now.date.month) (pos now.date.day) }
    ensures second { result.second ≡ time_seconds now.time }
{
    Moment {
        day: day_of_date(now.date()),
        second: second_of(now.time()),
    }
}

// The second of the day.
fn second_of(time: Time) -> u32
    ensures value { result ≡ time_seconds time }
    ensures below { result < 86400 }
{
    let hour = u32::from(time.hour().unsigned_abs());
    let minute = u32::from(time.minute().unsigned_abs());
    let second = u32::from(time.second().unsigned_abs());
    hour * 3600 + minute * 60 + second
}
