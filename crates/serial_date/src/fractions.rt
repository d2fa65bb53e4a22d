// Seconds of a day and millionths of a day.
ghost use Rattle.std.specs.Prelude.{◌≡◌, ◌<◌, ◌≤◌, nat_abs};
ghost use Rattle.serial_date.specs.Fractions.{millionths_of_day, second_of_day, whole_day};

/// The nearest second of a part of a day, in millionths, halves up; what rounds to a whole day is second 0.
/// (This project's choice.)
pub fn seconds_of(millionths: u32) -> u32
    ensures second { result ≡ second_of_day millionths }
    ensures below { result < 86400 }
{
    let seconds = (u64::from(millionths) * 172_800 + 1_000_000) / 2_000_000;
    (seconds % 86_400) as u32
}

/// The nearest millionth of a day, halves up, of a second below 86400. (This project's choice.)
pub fn fraction_of(second: u32) -> u32
    requires { second < 86400 }
    ensures millionths { result ≡ millionths_of_day second }
    ensures below { result < 1000000 }
{
    ((u64::from(second) * 2_000_000 + 86_400) / 172_800) as u32
}

/// The whole part of a number of millionths as a day number, and 0, which is no day's, below zero.
pub fn whole_day(millionths: i64) -> u32
    requires { nat_abs millionths ≤ 999999999999999 }
    ensures { result ≡ whole_day millionths }
{
    if millionths < 0 {
        0
    } else {
        (millionths as u64 / 1_000_000) as u32
    }
}
