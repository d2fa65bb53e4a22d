// The names of functions.
ghost use Rattle.std.specs.Prelude.{◌≡◌, map};
ghost use Rattle.formula_text.specs.Functions as spec;

use formula_tree::Function;
use lics_text::{is_name, name_in};

// The functions and their names, in their order.
const NAMES: [(&[u8], Function); 60] = [
    (b"NA", Function::Na),
    (b"ERR", Function::Err),
    (b"ABS", Function::Abs),
    (b"INT", Function::Int),
    (b"MOD", Function::Mod),
    (b"CHOOSE", Function::Choose),
    (b"ISNA", Function::IsNa),
    (b"ISERR", Function::IsErr),
    (b"FALSE", Function::False),
    (b"TRUE", Function::True),
    (b"DATE", Function::Date),
    (b"NOW", Function::Now),
    (b"IF", Function::If),
    (b"DAY", Function::Day),
    (b"MONTH", Function::Month),
    (b"YEAR", Function::Year),
    (b"ROUND", Function::Round),
    (b"TIME", Function::Time),
    (b"HOUR", Function::Hour),
    (b"MINUTE", Function::Minute),
    (b"SECOND", Function::Second),
    (b"ISNUMBER", Function::IsNumber),
    (b"ISSTRING", Function::IsString),
    (b"LENGTH", Function::Length),
    (b"VALUE", Function::Value),
    (b"STRING", Function::String),
    (b"MID", Function::Mid),
    (b"CHAR", Function::Char),
    (b"CODE", Function::Code),
    (b"FIND", Function::Find),
    (b"DATEVALUE", Function::DateValue),
    (b"TIMEVALUE", Function::TimeValue),
    (b"CELLPOINTER", Function::CellPointer),
    (b"SUM", Function::Sum),
    (b"AVG", Function::Avg),
    (b"COUNT", Function::Count),
    (b"MIN", Function::Min),
    (b"MAX", Function::Max),
    (b"VLOOKUP", Function::VLookup),
    (b"HLOOKUP", Function::HLookup),
    (b"DSUM", Function::DSum),
    (b"DAVG", Function::DAvg),
    (b"DCOUNT", Function::DCount),
    (b"DMIN", Function::DMin),
    (b"DMAX", Function::DMax),
    (b"INDEX", Function::Index),
    (b"COLS", Function::Cols),
    (b"ROWS", Function::Rows),
    (b"REPEAT", Function::Repeat),
    (b"UPPER", Function::Upper),
    (b"LOWER", Function::Lower),
    (b"LEFT", Function::Left),
    (b"RIGHT", Function::Right),
    (b"REPLACE", Function::Replace),
    (b"PROPER", Function::Proper),
    (b"CELL", Function::Cell),
    (b"TRIM", Function::Trim),
    (b"CLEAN", Function::Clean),
    (b"EXACT", Function::Exact),
    (b"@", Function::Pointed),
];

// Functions of Release 2 that no formula may call.
const LEFT_OUT: [&[u8]; 30] = [
    b"SQRT", b"LOG", b"LN", b"PI", b"SIN", b"COS", b"TAN", b"ATAN2", b"ATAN", b"ASIN", b"ACOS",
    b"EXP", b"RAND", b"PMT", b"PV", b"FV", b"NPV", b"VAR", b"STD", b"IRR", b"DVAR", b"DSTD", b"S",
    b"N", b"RATE", b"TERM", b"CTERM", b"SLN", b"SYD", b"DDB",
];

// The name of a function, which stands behind its @.
pub fn name_of(function: Function) -> &'static [u8]
    ensures { result.now ≡ spec.name_of function }
{
    NAMES[function as usize].0
}

// The function of a name, in letters of either case.
pub fn function_named(name: &[u8]) -> Option<Function>
    ensures { result ≡ spec.function_named name.now }
{
    name_in(&NAMES, name)
}

// Whether a name is among these, in letters of either case.
fn is_among(mut names: &[&[u8]], name: &[u8]) -> bool
    ensures { result ≡ spec.is_among (map (λ n. n.now) names.entry.now) name.now }
{
    while let [first, rest @ ..] = names {
        if is_name(first, name) {
            return true;
        }
        names = rest;
    }
    false
}

// Whether a function of Release 2 that is left out has this name.
pub fn is_left_out(name: &[u8]) -> bool
    ensures { result ≡ spec.is_among spec.left_out name.now }
{
    is_among(&LEFT_OUT, name)
}
