// Whole numbers in decimal digits.
ghost use Rattle.std.specs.Prelude.{◌≡◌, ◌≤◌, ◌<◌, ◌+◌, ◌++◌, length};
ghost use Rattle.grid_address.specs.Address.{decimal};

use lics_text::ByteList;

/// The digits of a whole number: 1 to 20 bytes.
pub type DecimalText = ByteList<20>;

// Adds a number's digits.
fn push_number(text: &mut DecimalText, number: u64)
    requires { length text.old + length (decimal number) ≤ 20 }
    ensures { text.new ≡ text.old ++ decimal number }
{
    if number >= 10 {
        push_number(text, number / 10);
    }
    text.put_all(&[b'0' + (number % 10) as u8]);
}

/// A whole number in decimal digits, without leading zeros.
#[tactic(auto, using(crate::proofs::Decimals::digits_in))]
pub fn decimal_text(number: u64) -> DecimalText
    ensures { result ≡ decimal number }
{
    let mut text = DecimalText::new();
    push_number(&mut text, number);
    text
}
