// The text of a fault.
ghost use Rattle.std.specs.Prelude.{◌≡◌, ◌≤◌, ◌<◌, length};
ghost use Rattle.file_faults.specs.Faults.{fault_text, hex_digit, with_number};
ghost use Rattle.wk1_records.specs.declared.fault.Wk1Fault.TheVariants as fault;

use grid_address::decimal_text;
use lics_text::Line;
use wk1_records::Wk1Fault;

// A hexadecimal digit, as a capital.
fn hex_digit(digit: u8) -> u8
    requires { digit < 16 }
    ensures { result ≡ hex_digit digit }
{
    if digit < 10 {
        b'0' + digit
    } else {
        b'A' - 10 + digit
    }
}

// A number behind some bytes.
fn with_number(front: &[u8], number: u32) -> Line
    requires { length front.now ≤ 40 }
    ensures line { result ≡ with_number front.now number }
    ensures short { length result ≤ 60 }
{
    let digits = decimal_text(u64::from(number));
    let mut line = Line::new();
    line.put_all(front);
    line.put_all(digits.bytes());
    line
}

// The fault of a code in a record.
fn code_fault(place: u32, at: u32) -> Line
    ensures line { result ≡ fault_text (fault.BadCode place at) }
    ensures short { length result ≤ 120 }
{
    let mut line = with_number(b"F7 ", place);
    let digits = decimal_text(u64::from(at));
    line.put_all(b" ");
    line.put_all(digits.bytes());
    line
}

// The fault of a function in a record.
fn function_fault(place: u32, code: u8) -> Line
    ensures line { result ≡ fault_text (fault.FunctionOutside place code) }
    ensures short { length result ≤ 120 }
{
    let mut line = with_number(b"F8 ", place);
    line.put_all(&[b' ', hex_digit(code / 16), hex_digit(code % 16)]);
    line
}

/// A line of these bytes alone, which are at most 40.
pub fn plain_line(bytes: &[u8]) -> Line
    requires { length bytes.now ≤ 40 }
    ensures { result ≡ bytes.now }
{
    let mut line = Line::new();
    line.put_all(bytes);
    line
}

/// A fault of a worksheet file, from F1 to F12, with the numbers that it carries, each behind a space: the offset of
/// what is cut off, or else the record's number, counted from 0, and behind it the offset in a formula's code, or the
/// code of a function that isn't built in two hexadecimal digits. `Memory` has no text, since it tells nothing of the
/// file. A text has at most 120 bytes. (This project's choice.)
pub fn fault_line(fault: Wk1Fault) -> Line
    ensures line { result ≡ fault_text fault }
    ensures short { length result ≤ 120 }
{
    match fault {
        Wk1Fault::NoBof => plain_line(b"F1"),
        Wk1Fault::Truncated(at) => with_number(b"F2 ", at),
        Wk1Fault::BadLength(record) => with_number(b"F3 ", record),
        Wk1Fault::CellOutside(record) => with_number(b"F4 ", record),
        Wk1Fault::BadText(record) => with_number(b"F5 ", record),
        Wk1Fault::NumberTooLarge(record) => with_number(b"F6 ", record),
        Wk1Fault::BadCode(record, at) => code_fault(record, at),
        Wk1Fault::FunctionOutside(record, code) => function_fault(record, code),
        Wk1Fault::BadName(record) => with_number(b"F9 ", record),
        Wk1Fault::BadSpan(record) => with_number(b"F10 ", record),
        Wk1Fault::FileTooLarge => plain_line(b"F11"),
        Wk1Fault::TooDeep(record) => with_number(b"F12 ", record),
        Wk1Fault::Memory => Line::new(),
    }
}
