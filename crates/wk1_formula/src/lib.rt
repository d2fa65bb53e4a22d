//! The codes of formulas in worksheet files: written from trees, and read back (worksheet file format; the codes of
//! functions and the layout of coordinates are this project's profile).
#![tactic(auto)]

mod bytes;
mod fault;
mod front;
mod function_codes;
mod function_laws;
mod gather;
mod item;
mod kind;
mod laws;
mod opcodes;
mod read;
mod stack;
mod write;

pub use bytes::{bytes_from, first_long, put, put_short, short_at};
pub use fault::CodeFault;
pub use front::{before_zero, is_text, short_value};
pub use function_codes::{code_of, function_of};
pub use function_laws::{codes_are_of_functions, functions_have_codes};
pub use laws::{code_has_its_size, code_is_read};
pub use read::read_code;
pub use write::{ERR_BITS, NA_BITS, double_bits, write_code};
