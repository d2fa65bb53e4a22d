// The table of codes.
ghost use Rattle.std.specs.Prelude.{◌≡◌};
ghost use Rattle.wk1_formula.specs.FunctionCodes as spec;

use formula_tree::Function;

// The functions and their codes, in the order of the functions.
const CODES: [(u8, Function); 60] = [
    (0x1F, Function::Na),
    (0x20, Function::Err),
    (0x21, Function::Abs),
    (0x22, Function::Int),
    (0x2F, Function::Mod),
    (0x30, Function::Choose),
    (0x31, Function::IsNa),
    (0x32, Function::IsErr),
    (0x33, Function::False),
    (0x34, Function::True),
    (0x36, Function::Date),
    (0x37, Function::Now),
    (0x3B, Function::If),
    (0x3C, Function::Day),
    (0x3D, Function::Month),
    (0x3E, Function::Year),
    (0x3F, Function::Round),
    (0x40, Function::Time),
    (0x41, Function::Hour),
    (0x42, Function::Minute),
    (0x43, Function::Second),
    (0x44, Function::IsNumber),
    (0x45, Function::IsString),
    (0x46, Function::Length),
    (0x47, Function::Value),
    (0x48, Function::String),
    (0x49, Function::Mid),
    (0x4A, Function::Char),
    (0x4B, Function::Code),
    (0x4C, Function::Find),
    (0x4D, Function::DateValue),
    (0x4E, Function::TimeValue),
    (0x4F, Function::CellPointer),
    (0x50, Function::Sum),
    (0x51, Function::Avg),
    (0x52, Function::Count),
    (0x53, Function::Min),
    (0x54, Function::Max),
    (0x55, Function::VLookup),
    (0x5A, Function::HLookup),
    (0x5B, Function::DSum),
    (0x5C, Function::DAvg),
    (0x5D, Function::DCount),
    (0x5E, Function::DMin),
    (0x5F, Function::DMax),
    (0x62, Function::Index),
    (0x63, Function::Cols),
    (0x64, Function::Rows),
    (0x65, Function::Repeat),
    (0x66, Function::Upper),
    (0x67, Function::Lower),
    (0x68, Function::Left),
    (0x69, Function::Right),
    (0x6A, Function::Replace),
    (0x6B, Function::Proper),
    (0x6C, Function::Cell),
    (0x6D, Function::Trim),
    (0x6E, Function::Clean),
    (0x71, Function::Exact),
    (0x73, Function::Pointed),
];

/// The code of a function (worksheet file format).
pub fn code_of(function: Function) -> u8
    ensures { result ≡ spec.code_of function }
{
    CODES[function as usize].0
}

// The function of a code among some rows of the table.
fn found_in(mut rows: &[(u8, Function)], code: u8) -> Option<Function>
    ensures { result ≡ spec.found_in rows.entry.now code }
{
    while let [row, rest @ ..] = rows {
        if row.0 == code {
            return Some(row.1);
        }
        rows = rest;
    }
    None
}

/// The function of a code; none for a code that no formula may have.
pub fn function_of(code: u8) -> Option<Function>
    ensures { result ≡ spec.function_of code }
{
    found_in(&CODES, code)
}
