// Day numbers and the dates that have them.
ghost use Rattle.std.specs.Prelude.{◌≡◌, ◌≤◌, ◌≤ℤ◌, ℕ, ℤ, pos, true, false, Some, IfErr, IfOk};
ghost use Rattle.std.specs.Option.{ForSome};
ghost use Rattle.serial_date.specs.Calendar.{date_of, day_number, is_between};
ghost use Rattle.serial_date.specs.inner.Civil.{days_since_1899, numbered};
ghost use Rattle.jiff_core.specs.Date.{IsYmd};

use jiff::civil::{Date, date};
use jiff::{Error, ToSpan};

/// The last day of the worksheet's calendar, 31 December 2099.
pub const LAST_DAY: u32 = 73_050;

// The day number of 29 February 1900, which the civil calendar doesn't have.
const LEAP_DAY_1900: u32 = 60;

// From -9999-01-01, the first date of the civil calendar, to 31 December 1899.
const DAYS_BEFORE_1900: u32 = 4_346_019;

/// A date by year, month (1 to 12) and day of the month.
#[derive(Clone, Copy)]
pub struct Civil {
    pub year: i16,
    pub month: i8,
    pub day: i8,
}

// Whether a date is the 29 February 1900, which the calendar has and that year had not.
fn is_leap_day_1900(year: i16, month: i8, day: i8) -> bool
    ensures yes { result ≡ true → (year ≡ pos 1900) × (month ≡ pos 2) × (day ≡ pos 29) }
    ensures no { result ≡ false → (year ≡ pos 1900) × (month ≡ pos 2) × (day ≡ pos 29) → ⊥ }
{
    year == 1900 && month == 2 && day == 29
}

// The years of the worksheet's calendar.
fn is_in_years(year: i16) -> bool
    ensures { result ≡ is_between 1900 2099 year }
{
    !(year < 1900) && !(2099 < year)
}

/// The day number of a date. Day 1 is 1 January 1900, day 60 is 29 February 1900, which the worksheet's
/// calendar has as a leap day, and day 73050 is 31 December 2099. None exactly outside these and for a date
/// that the calendar doesn't have. (Release 2 manual for the numbers and for day 60.)
pub fn day_of(year: i16, month: i8, day: i8) -> Option<u32>
    ensures number { result ≡ day_number year month day }
    ensures range { ForSome result (λ n. (1 ≤ n) × (n ≤ 73050)) }
{
    if is_leap_day_1900(year, month, day) {
        return Some(LEAP_DAY_1900);
    }
    match Date::new(year, month, day) {
        Ok(date) => day_of_date(date),
        Err(_) => None,
    }
}

// The day number of a date of the civil calendar.
pub(crate) fn day_of_date(date: Date) -> Option<u32>
    ensures { result ≡ day_number date.year (pos date.month) (pos date.day) }
{
    if !is_in_years(date.year()) {
        return None;
    }
    let days = days_since_1899(date);
    Some(if days < LEAP_DAY_1900 { days } else { days + 1 })
}

// The days from 31 December 1899 to a date behind it.
fn days_since_1899(date: Date) -> u32
    requires from { pos 1900 ≤ℤ date.year }
    requires upto { date.year ≤ℤ pos 2099 }
    ensures days { pos result ≡ days_since_1899 date }
    ensures bound { result ≤ 73050 }
{
    date.to_plain().days_since_min() - DAYS_BEFORE_1900
}

/// The date of a day number; none exactly below 1 and above 73050.
pub fn civil_of(day: u32) -> Option<Civil>
    ensures { result ≡ date_of day }
{
    if day == 0 || day > LAST_DAY {
        return None;
    }
    if day == LEAP_DAY_1900 {
        return Some(Civil {
            year: 1900,
            month: 2,
            day: 29,
        });
    }
    match date_of_day(day) {
        Ok(date) => Some(parts_of(date)),
        Err(_) => None,
    }
}

// The date of a day number that the civil calendar has too.
fn date_of_day(day: u32) -> Result<Date, Error>
    requires low { 1 ≤ day }
    requires high { day ≤ 73050 }
    requires both { day ≡ 60 → ⊥ }
    ensures ok { IfOk result (λ date. pos day ≡ numbered (days_since_1899 date)) }
    ensures err { IfErr result (λ _. ⊥) }
{
    let days = if day < LEAP_DAY_1900 { day } else { day - 1 };
    date(1899, 12, 31).checked_add(i64::from(days).days())
}

// The parts of a date.
fn parts_of(date: Date) -> Civil
    ensures { IsYmd result.year result.month result.day date }
{
    Civil {
        year: date.year(),
        month: date.month(),
        day: date.day(),
    }
}

/// `day_of` and `civil_of` undo each other.
pub fn dates_and_numbers()
    ensures date { (n : ℕ) (y m d : ℤ) → day_number y m d ≡ Some n →
        date_of n ≡ Some (record { year = y; month = m; day = d }) }
    ensures number { (n : ℕ) (y m d : ℤ) → date_of n ≡ Some (record { year = y; month = m; day = d }) →
        day_number y m d ≡ Some n }
{}
