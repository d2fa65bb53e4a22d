// Why an answer is refused.
ghost use Rattle.std.specs.Prelude.{◌≡◌};
ghost use Rattle.outside_world.specs.FileNames.{file_name};
ghost use Rattle.range_names.specs.Names.{fault_of};
ghost use Rattle.desk_answers.specs.Readings.{fault_in, new_name_by, old_name_by, refusal_of, unless_named};

use crate::numbers::{decimal_answer, order_answer, whole_answer};
use crate::spans::span_answer;
use desk_errors::CommandError;
use menu_tree::Ask;
use outside_world::{Ext, FileName};
use range_names::{Names, fault_of};

// A name to be given: any text that can be one.
fn new_name(line: &[u8]) -> Result<(), CommandError>
    ensures { fault_in result ≡ new_name_by (fault_of line.now) }
{
    match fault_of(line) {
        Some(fault) => Err(CommandError::InvalidName(fault)),
        None => Ok(()),
    }
}

// A name that must be there.
fn old_name(names: &Names, line: &[u8], place: usize) -> Result<(), CommandError>
    ensures { fault_in result ≡ old_name_by (fault_of line.now) names.now line.now place }
{
    match fault_of(line) {
        Some(fault) => Err(CommandError::InvalidName(fault)),
        None => match names.find(line) {
            Some(_) => Ok(()),
            None => Err(CommandError::NameNotFound(place)),
        },
    }
}

// A file's name.
fn file(line: &[u8], ext: Ext, place: usize) -> Result<(), CommandError>
    ensures { fault_in result ≡ unless_named (file_name ext line.now) place }
{
    match FileName::with(line, ext) {
        Some(_) => Ok(()),
        None => Err(CommandError::InvalidFileName(place)),
    }
}

// An answer that reads as something.
fn read<T: Drop>(answer: Result<T, CommandError>) -> Result<(), CommandError>
    ensures { fault_in result ≡ fault_in answer }
{
    match answer {
        Ok(_value) => Ok(()),
        Err(error) => Err(error),
    }
}

/// Tests an answer by what was asked for, before the command has it: `place` is its place among the command's answers,
/// counted from 0. A range or a cell is refused by `InvalidAddress` and `NameNotFound`, a number and the letter of a
/// sort's order by `InvalidNumber`, a name by `InvalidName`, one that must be there also by `NameNotFound`, a file's
/// name by `InvalidFileName`; a text and the choices are never refused. It takes no memory.
pub fn test_answer(ask: Ask, names: &Names, line: &[u8], place: usize) -> Result<(), CommandError>
    ensures { fault_in result ≡ refusal_of ask names.now line.now place }
{
    match ask {
        Ask::Range | Ask::Cell => read(span_answer(names, line, place)),
        Ask::Whole(low, high) => read(whole_answer(low, high, line, place)),
        Ask::Decimal => read(decimal_answer(line, place)),
        Ask::NewName => new_name(line),
        Ask::OldName => old_name(names, line, place),
        Ask::Order => read(order_answer(line, place)),
        Ask::File => file(line, Ext::Wk1, place),
        Ask::Report => file(line, Ext::Prn, place),
        Ask::Text | Ask::Replace | Ask::Confirm => Ok(()),
    }
}
