// The functions of dates and times.
ghost use Rattle.std.specs.Prelude.{◌≡◌, ◌≤◌, ◌<◌};
ghost use Rattle.std.specs.Option.{ForSome};
ghost use Rattle.at_functions.specs.Dates.{date, date_by, day, hour, minute, month, second, second_in, time, time_of, year};
ghost use Rattle.serial_date.specs.Calendar.{date_of};
ghost use Rattle.serial_date.specs.Fractions.{whole_day};

use crate::counts::{in_units, units, whole, within};
use fixed_value::Fixed;
use serial_date::{Civil, civil_of, day_of, fraction_of, seconds_of, whole_day};

/// The day number of a year from 0 to 199, counted from 1900, a month and a day.
pub fn date(year: Fixed, month: Fixed, day: Fixed) -> Option<Fixed>
    ensures { result ≡ date year month day }
{
    date_by(
        within(0, 199, whole(year)),
        within(1, 12, whole(month)),
        within(1, 31, whole(day)),
    )
}

/// The day number of a year, counted from 1900, a month and a day, where each is there.
pub fn date_by(year: Option<u16>, month: Option<u16>, day: Option<u16>) -> Option<Fixed>
    requires year { ForSome year (λ n. n < 200) }
    requires month { ForSome month (λ n. n < 100) }
    requires day { ForSome day (λ n. n < 100) }
    ensures { result ≡ date_by year month day }
{
    let year = year?;
    let month = month?;
    let day = day?;
    in_units(day_of((1900 + year) as i16, month as i8, day as i8))
}

/// The part of a day of an hour, minute and second of a clock.
pub fn time_of(hour: i64, minute: i64, second: i64) -> Option<Fixed>
    ensures { result ≡ time_of hour minute second }
{
    let hour = u32::from(within(0, 23, hour)?);
    let minute = u32::from(within(0, 59, minute)?);
    let second = u32::from(within(0, 59, second)?);
    let seconds = hour * 3600 + minute * 60 + second;
    Fixed::of(i64::from(fraction_of(seconds)))
}

/// The part of a day of an hour to 23, and a minute and second to 59.
pub fn time(hour: Fixed, minute: Fixed, second: Fixed) -> Option<Fixed>
    ensures { result ≡ time hour minute second }
{
    time_of(whole(hour), whole(minute), whole(second))
}

// The date of the whole part.
fn date_at(serial: Fixed) -> Option<Civil>
    ensures { result ≡ date_of (whole_day serial) }
{
    civil_of(whole_day(serial.millionths()))
}

/// The day of the month of a day number.
pub fn day(serial: Fixed) -> Option<Fixed>
    ensures { result ≡ day serial }
{
    match date_at(serial) {
        Some(date) => units(u32::from(date.day.unsigned_abs())),
        None => None,
    }
}

/// The month of a day number.
pub fn month(serial: Fixed) -> Option<Fixed>
    ensures { result ≡ month serial }
{
    match date_at(serial) {
        Some(date) => units(u32::from(date.month.unsigned_abs())),
        None => None,
    }
}

/// The year of a day number, less 1900.
pub fn year(serial: Fixed) -> Option<Fixed>
    ensures { result ≡ year serial }
{
    match date_at(serial) {
        Some(date) => units(u32::from(date.year.unsigned_abs().saturating_sub(1900))),
        None => None,
    }
}

// The second of the day of the fraction; none below zero.
fn second_in(serial: Fixed) -> Option<u32>
    ensures value { result ≡ second_in serial }
    ensures below { ForSome result (λ s. s < 86400) }
{
    let millionths = serial.millionths();
    if millionths < 0 {
        None
    } else {
        Some(seconds_of((millionths as u64 % 1_000_000) as u32))
    }
}

/// The hour of a number from 0 on, of its fraction rounded to the nearest second.
pub fn hour(serial: Fixed) -> Option<Fixed>
    ensures { result ≡ hour serial }
{
    match second_in(serial) {
        Some(second) => units(second / 3600),
        None => None,
    }
}

/// The minute of a number from 0 on.
pub fn minute(serial: Fixed) -> Option<Fixed>
    ensures { result ≡ minute serial }
{
    match second_in(serial) {
        Some(second) => units(second / 60 % 60),
        None => None,
    }
}

/// The second of a number from 0 on.
pub fn second(serial: Fixed) -> Option<Fixed>
    ensures { result ≡ second serial }
{
    match second_in(serial) {
        Some(second) => units(second % 60),
        None => None,
    }
}
