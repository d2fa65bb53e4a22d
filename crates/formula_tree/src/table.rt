// How functions are called.
ghost use Rattle.std.specs.Prelude.{◌≡◌};
ghost use Rattle.formula_tree.specs.Table.{call_size, counts_of, counts_size, is_volatile_function, takes};

use crate::Function;

/// The most arguments of a function whose number of arguments is free (worksheet file format).
const MOST_ARGUMENTS: usize = 255;

/// How many arguments a function takes: exactly so many, or at least so many and at most 255.
#[derive(Clone, Copy)]
pub enum Counts {
    Exactly(u8),
    AtLeast(u8),
}

/// How many arguments the function takes: most take one.
pub fn counts_of(function: Function) -> Counts
    ensures { result ≡ counts_of function }
{
    match function {
        Function::Na | Function::Err | Function::False | Function::True | Function::Now =>
            Counts::Exactly(0),
        Function::Mod
        | Function::Round
        | Function::String
        | Function::Repeat
        | Function::Left
        | Function::Right
        | Function::Cell
        | Function::Exact => Counts::Exactly(2),
        Function::Date
        | Function::If
        | Function::Time
        | Function::Mid
        | Function::Find
        | Function::VLookup
        | Function::HLookup
        | Function::Index
        | Function::DSum
        | Function::DAvg
        | Function::DCount
        | Function::DMin
        | Function::DMax => Counts::Exactly(3),
        Function::Replace => Counts::Exactly(4),
        Function::Sum | Function::Avg | Function::Count | Function::Min | Function::Max =>
            Counts::AtLeast(1),
        Function::Choose => Counts::AtLeast(2),
        _ => Counts::Exactly(1),
    }
}

// Whether there are as many arguments as wanted.
fn has_count(counts: Counts, count: usize) -> bool
    ensures { result ≡ takes counts count }
{
    match counts {
        Counts::Exactly(wanted) => usize::from(wanted) == count,
        Counts::AtLeast(least) => usize::from(least) <= count && count <= MOST_ARGUMENTS,
    }
}

/// Whether a formula may call the function with so many arguments.
pub fn takes(function: Function, count: usize) -> bool
    ensures { result ≡ takes (counts_of function) count }
{
    has_count(counts_of(function), count)
}

/// Whether a function's value changes by itself, or hangs on cells that its formula doesn't name: NOW, CELL,
/// CELLPOINTER, @@, and the functions of records.
pub fn is_volatile_function(function: Function) -> bool
    ensures { result ≡ is_volatile_function function }
{
    match function {
        Function::Now | Function::Cell | Function::CellPointer | Function::Pointed => true,
        Function::DSum | Function::DAvg | Function::DCount | Function::DMin | Function::DMax =>
            true,
        _ => false,
    }
}

/// What a call takes of the code of a formula, in bytes: the count of its arguments is written where it is free.
pub fn call_size(function: Function) -> usize
    ensures { result ≡ call_size function }
{
    match counts_of(function) {
        Counts::Exactly(_) => 1,
        Counts::AtLeast(_) => 2,
    }
}
