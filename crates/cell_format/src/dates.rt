// Days as they are shown.
ghost use Rattle.std.specs.Prelude.{◌≡◌, ◌≤◌, ◌+◌, ◌++◌, ◌∷◌, length, unsigned_abs};
ghost use Rattle.lics_text.specs.Ascii as ascii;
ghost use Rattle.cell_format.specs.Numbers.{date_text, dated, month_name, two_digits};
ghost use Rattle.serial_date.specs.Calendar.{date_of};
ghost use Rattle.serial_date.specs.Fractions.{whole_day};

use crate::DateForm;
use crate::push::push;
use fixed_value::Fixed;
use lics_text::{Line, MAX_LEN};
use serial_date::{Civil, civil_of, whole_day};

// The last two digits.
fn two_digits(number: u16) -> [u8; 2]
    ensures { result ≡ two_digits number }
{
    [b'0' + (number / 10 % 10) as u8, b'0' + (number % 10) as u8]
}

// Jan to Dec.
#[tactic(auto, unfolding(crate::specs::Numbers::month_name))]
fn month_name(month: u8) -> &'static [u8]
    ensures name { result.now ≡ month_name month }
    ensures size { length result.now ≡ 3 }
{
    match month {
        1 => b"Jan",
        2 => b"Feb",
        3 => b"Mar",
        4 => b"Apr",
        5 => b"May",
        6 => b"Jun",
        7 => b"Jul",
        8 => b"Aug",
        9 => b"Sep",
        10 => b"Oct",
        11 => b"Nov",
        _ => b"Dec",
    }
}

// Adds a minus and these bytes.
fn put_dashed(into: &mut Line, bytes: &[u8])
    requires { length into.old + 1 + length bytes.now ≤ MAX_LEN }
    ensures { into.new ≡ into.old ++ ascii.minus ∷ bytes.now }
{
    push(into, b'-');
    into.put_all(bytes);
}

// Two parts with a minus between them.
fn dashed(first: &[u8], second: &[u8]) -> Line
    requires { length first.now + 1 + length second.now ≤ MAX_LEN }
    ensures { result ≡ first.now ++ ascii.minus ∷ second.now }
{
    let mut text = Line::new();
    text.put_all(first);
    put_dashed(&mut text, second);
    text
}

// 01-Jun-87, 01-Jun or Jun-87.
fn date_text(form: DateForm, date: &Civil) -> Line
    ensures { result ≡
        date_text form (unsigned_abs date.now.year) (unsigned_abs date.now.month) (unsigned_abs date.now.day) }
{
    let day = two_digits(u16::from(date.day.unsigned_abs()));
    let name = month_name(date.month.unsigned_abs());
    let year = two_digits(date.year.unsigned_abs());
    match form {
        DateForm::DayMonthYear => {
            let mut text = dashed(&day, name);
            put_dashed(&mut text, &year);
            text
        }
        DateForm::DayMonth => dashed(&day, name),
        DateForm::MonthYear => dashed(name, &year),
    }
}

// The day that a number is; none where it is none.
pub fn day_text(form: DateForm, value: Fixed) -> Option<Line>
    ensures { result ≡ dated form (date_of (whole_day value)) }
{
    match civil_of(whole_day(value.millionths())) {
        Some(date) => Some(date_text(form, &date)),
        None => None,
    }
}
