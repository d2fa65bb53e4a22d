// Answers that are numbers, and the order of a sort.
ghost use Rattle.std.specs.Prelude.{◌≡◌};
ghost use Rattle.desk_answers.specs.Readings.{decimal_answer, order_answer, order_of, whole_answer, whole_of};

use desk_errors::CommandError;
use fixed_value::{Decimal, Fixed, read_decimal};

const MILLIONTHS: i64 = 1_000_000;

// A number that is whole and within bounds.
fn whole_of(low: u8, high: u8, number: Fixed, place: usize) -> Result<u8, CommandError>
    ensures { result ≡ whole_of low high number place }
{
    let millionths = number.millionths();
    if millionths < 0 || millionths % MILLIONTHS != 0 {
        return Err(CommandError::InvalidNumber(place));
    }
    let whole = millionths / MILLIONTHS;
    if i64::from(low) <= whole && whole <= i64::from(high) {
        Ok(whole as u8)
    } else {
        Err(CommandError::InvalidNumber(place))
    }
}

/// The whole number that an answer is, which is in decimals with an optional sign. `InvalidNumber` comes exactly where
/// it is no number, isn't whole or lies outside the bounds.
pub fn whole_answer(low: u8, high: u8, line: &[u8], place: usize) -> Result<u8, CommandError>
    ensures { result ≡ whole_answer low high line.now place }
{
    match read_decimal(line) {
        Decimal::Num(number) => whole_of(low, high, number, place),
        Decimal::TooLarge | Decimal::NotNumber => Err(CommandError::InvalidNumber(place)),
    }
}

/// The number that an answer is. `InvalidNumber` comes exactly where it is none.
pub fn decimal_answer(line: &[u8], place: usize) -> Result<Fixed, CommandError>
    ensures { result ≡ decimal_answer line.now place }
{
    match read_decimal(line) {
        Decimal::Num(number) => Ok(number),
        Decimal::TooLarge | Decimal::NotNumber => Err(CommandError::InvalidNumber(place)),
    }
}

// Whether the letter asks for a descending sort.
fn order_of(letter: u8, place: usize) -> Result<bool, CommandError>
    ensures { result ≡ order_of letter place }
{
    match letter.to_ascii_uppercase() {
        b'A' => Ok(false),
        b'D' => Ok(true),
        _ => Err(CommandError::InvalidNumber(place)),
    }
}

/// Whether a sort is descending: the answer is D, or A where it isn't, in either case. `InvalidNumber` comes exactly
/// for any other.
pub fn order_answer(line: &[u8], place: usize) -> Result<bool, CommandError>
    ensures { result ≡ order_answer line.now place }
{
    match line {
        [letter] => order_of(*letter, place),
        _ => Err(CommandError::InvalidNumber(place)),
    }
}
