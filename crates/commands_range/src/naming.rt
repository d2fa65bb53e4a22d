// The names of spans.
ghost use Rattle.std.specs.Prelude.{ℕ, ◌≡◌, ◌≤◌, IfOk, None, OnOk, length};
ghost use Rattle.std.specs.FinMap as map;
ghost use Rattle.command_desk.specs.Acting.{HasActed};
ghost use Rattle.commands_range.specs.Commands.{name_created, name_deleted, names_reset};
ghost use Rattle.commands_range.specs.Commands.{span_named, taken_away, with_name};
ghost use Rattle.range_names.specs.Names.{fault_of, key_of};
ghost use Rattle.work_sheet.specs.Did.{DidEdit};
ghost use Rattle.work_sheet.specs.Seen.{of_worksheet};

use command_desk::{CommandEnd, line_at, span_at};
use desk_errors::CommandError;
use grid_address::Span;
use lics_text::Memory;
use range_names::fault_of;
use session_rooms::Answers;
use work_sheet::Worksheet;

// A span takes a name, which can be one.
fn give_name(name: &[u8], span: Span, sheet: &mut Worksheet) -> Result<(), Memory>
    requires { fault_of name.now ≡ None }
    ensures { OnOk result (DidEdit (with_name name.now span) sheet.old sheet.new) }
{
    match sheet.create_name(name, span) {
        Ok(()) => Ok(()),
        Err(_) => Err(Memory),
    }
}

// The span that the second answer is takes a name, which can be one.
fn name_span(name: &[u8], answers: &Answers, sheet: &mut Worksheet) -> Result<CommandEnd, Memory>
    requires { fault_of name.now ≡ None }
    ensures { IfOk result (λ end. (n : ℕ) → HasActed (span_named name.now answers.now (of_worksheet sheet.old))
        end sheet.old sheet.new n n) }
{
    match span_at(sheet.names(), answers, 1) {
        Ok(span) => {
            give_name(name, span, sheet)?;
            Ok(CommandEnd::Finished)
        }
        Err(error) => Ok(CommandEnd::Refused(error)),
    }
}

/// Gives the span that the second answer is the name that the first one is; a name that is there moves. It is refused
/// by `InvalidName` and then by the errors of `span_at`.
pub fn create_name(answers: &Answers, sheet: &mut Worksheet) -> Result<CommandEnd, Memory>
    ensures { IfOk result (λ end. (n : ℕ) → HasActed (name_created answers.now (of_worksheet sheet.old))
        end sheet.old sheet.new n n) }
{
    let name = line_at(answers, 0);
    match fault_of(name) {
        Some(fault) => Ok(CommandEnd::Refused(CommandError::InvalidName(fault))),
        None => name_span(name, answers, sheet),
    }
}

// A name goes, where it is there.
fn take_away(name: &[u8], sheet: &mut Worksheet) -> Result<CommandEnd, Memory>
    requires valid { fault_of name.now ≡ None }
    requires short { length name.now ≤ 15 }
    ensures { IfOk result (λ end. (n : ℕ) → HasActed
        (taken_away (map.get sheet.old.names (key_of name.now)) name.now (of_worksheet sheet.old))
        end sheet.old sheet.new n n) }
{
    match sheet.names().find(name) {
        Some(_span) => match sheet.delete_name(name) {
            Ok(()) => Ok(CommandEnd::Finished),
            Err(_) => Err(Memory),
        },
        None => Ok(CommandEnd::Refused(CommandError::NameNotFound(0))),
    }
}

/// Takes the name away that the text is. It is refused by `InvalidName`, or by `NameNotFound` where it isn't there.
pub fn delete_name(name: &[u8], sheet: &mut Worksheet) -> Result<CommandEnd, Memory>
    ensures { IfOk result (λ end. (n : ℕ) → HasActed (name_deleted name.now (of_worksheet sheet.old))
        end sheet.old sheet.new n n) }
{
    match fault_of(name) {
        Some(fault) => Ok(CommandEnd::Refused(CommandError::InvalidName(fault))),
        None => take_away(name, sheet),
    }
}

/// Takes all names away.
pub fn reset_names(sheet: &mut Worksheet) -> CommandEnd
    ensures { (n : ℕ) → HasActed (names_reset (of_worksheet sheet.old)) result sheet.old sheet.new n n }
{
    sheet.reset_names();
    CommandEnd::Finished
}
