// Whether a file is there.
ghost use Rattle.std.specs.Prelude.{◌≡◌, IfOk, OnErr};
ghost use Rattle.commands_file.specs.Calls.{shelf_view, HasBrokenOver};
ghost use Rattle.commands_file.specs.Commands.{kind_of, looked, HasLooked};

use command_desk::line_at;
use desk_errors::CommandError;
use menu_tree::Action;
use outside_world::{Ext, FileName, Memory, Shelf, ShelfFault};
use session_rooms::Answers;

/// What a look at the shelf comes to.
#[derive(Clone, Copy)]
pub enum Looked {
    /// Whether the file is there.
    There(bool),
    /// That can't be told, for this error.
    Unknown(CommandError),
}

// The kind of the file that a command names.
fn kind_of(action: Action) -> Ext
    ensures { result ≡ kind_of action }
{
    match action {
        Action::Print(_) => Ext::Prn,
        _ => Ext::Wk1,
    }
}

/// Whether the file that the first answer of a command names is there: a report's for those below Print, and else a
/// worksheet's. `DiskError` comes exactly where the shelf fails. No file is changed.
pub fn look<S: Shelf>(action: Action, answers: &Answers, shelf: &mut S) -> Result<Looked, Memory>
    ensures looked { IfOk result (λ came. HasLooked (looked action answers.now) came
        (shelf_view (S.holds shelf.old) (S.faults shelf.old)) (shelf_view (S.holds shelf.new) (S.faults shelf.new))) }
    ensures memory { OnErr result (HasBrokenOver (λ reply. (looked action answers.now reply).calls)
        (shelf_view (S.holds shelf.old) (S.faults shelf.old)) (shelf_view (S.holds shelf.new) (S.faults shelf.new))) }
{
    let Some(name) = FileName::with(line_at(answers, 0), kind_of(action)) else {
        return Ok(Looked::Unknown(CommandError::InvalidFileName(0)));
    };
    match shelf.has(&name) {
        Ok(there) => Ok(Looked::There(there)),
        Err(ShelfFault::Failed) => Ok(Looked::Unknown(CommandError::DiskError)),
        Err(ShelfFault::Memory) => Err(Memory),
    }
}
