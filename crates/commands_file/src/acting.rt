// What each command below File does.
ghost use Rattle.std.specs.Prelude.{◌≡◌, ℕ, IfOk, OnErr, OnOk};
ghost use Rattle.command_desk.specs.Acting.{HasActedBy};
ghost use Rattle.command_desk.specs.Answered.{span_at};
ghost use Rattle.command_desk.specs.Desks.{of_desk};
ghost use Rattle.commands_file.specs.Calls.{shelf_view};
ghost use Rattle.commands_file.specs.Commands.{act, act_named, extracted_to, put_readable, retrieved_sheet, saved_as};
ghost use Rattle.commands_file.specs.Commands.{saved_of, HasActedOver, HasBrokenIn};
ghost use Rattle.commands_file.specs.Extracted.{extracted};
ghost use Rattle.commands_file.specs.inner.Placing.{IsPlaced, IsUnplaced};
ghost use Rattle.commands_file.specs.inner.Using.{file_used, used};
ghost use Rattle.wk1_file.specs.Saved.{file_bytes};
ghost use Rattle.work_sheet.specs.Did.{Did};
ghost use Rattle.work_sheet.specs.Seen.{of_worksheet};

use crate::calling::{Placed, end_of_placing, place, put_sheet, remove, sheet_bytes};
use crate::combining::{Combining, combine, pointer_of};
use crate::extracting::{Extracting, extracted};
use crate::loading::{Loaded, load};
use command_desk::{CommandEnd, Desk, line_at, span_at};
use desk_errors::CommandError;
use formula_eval::Tally;
use formula_parts::Scene;
use grid_address::Span;
use menu_tree::FileAction;
use outside_world::{FileName, Memory, Shelf};
use session_rooms::Answers;
use sheet_store::SavedSheet;
use work_sheet::Worksheet;

// A file's sheet takes the place of the sheet, and is recalculated, seen from where its pointer stands.
fn replace(
    saved: SavedSheet,
    sheet: &mut Worksheet,
    scene: &Scene,
    tally: &mut Tally,
) -> Result<(), Memory>
    ensures { let done = retrieved_sheet saved scene.entry.now (of_worksheet sheet.old) in
        OnOk result (Did done sheet.old sheet.new tally.old.count tally.new.count) }
{
    sheet.take_saved(saved)?;
    let there = Scene {
        cursor: pointer_of(sheet),
        now: scene.now,
    };
    sheet.calc(&there, tally)
}

// What the sheet of a file that is read is used for.
#[derive(Clone, Copy)]
enum FileUse {
    // It takes the place of the sheet.
    Retrieve,
    // Its cells are combined with those of the sheet.
    Combine(Combining),
}

// The sheet of a file is used.
fn use_sheet(
    how: FileUse,
    saved: SavedSheet,
    sheet: &mut Worksheet,
    scene: &Scene,
    tally: &mut Tally,
) -> Result<CommandEnd, Memory>
    ensures { IfOk result (λ end.
        HasActedBy (used how saved scene.entry.now) end sheet.old sheet.new tally.old.count tally.new.count) }
{
    match how {
        FileUse::Retrieve => {
            replace(saved, sheet, scene, tally)?;
            Ok(CommandEnd::Finished)
        }
        FileUse::Combine(kind) => combine(kind, &saved.store, sheet, scene, tally),
    }
}

// A file is read, and its sheet used.
fn use_file<S: Shelf>(
    how: FileUse,
    name: &FileName,
    desk: &mut Desk,
    shelf: &mut S,
    scene: &Scene,
    tally: &mut Tally,
) -> Result<CommandEnd, Memory>
    ensures acted { let acts = file_used how name.now scene.entry.now (of_desk desk.old) in
        IfOk result (λ end. HasActedOver acts end desk.old desk.new tally.old.count tally.new.count
        (shelf_view (S.holds shelf.old) (S.faults shelf.old)) (shelf_view (S.holds shelf.new) (S.faults shelf.new))) }
    ensures memory { OnErr result (HasBrokenIn (file_used how name.now scene.entry.now (of_desk desk.old))
        (shelf_view (S.holds shelf.old) (S.faults shelf.old)) (shelf_view (S.holds shelf.new) (S.faults shelf.new))) }
{
    let loaded = load(name, desk.sheet.alloc(), shelf)?;
    match loaded {
        Loaded::Sheet(saved) => use_sheet(how, saved, &mut desk.sheet, scene, tally),
        Loaded::Refused(error) => Ok(CommandEnd::Refused(error)),
    }
}

// The sheet is saved under a name, which the next save offers.
fn save<S: Shelf>(name: FileName, desk: &mut Desk, shelf: &mut S) -> Result<CommandEnd, Memory>
    ensures acted { IfOk result (λ end. (n : ℕ) → HasActedOver (λ reply.
        put_readable name (file_bytes (saved_of (of_worksheet desk.old.sheet))) reply
        (saved_as name (of_desk desk.old)) (of_desk desk.old))
        end desk.old desk.new n n
        (shelf_view (S.holds shelf.old) (S.faults shelf.old)) (shelf_view (S.holds shelf.new) (S.faults shelf.new))) }
    ensures memory { OnErr result (HasBrokenIn (λ reply.
        put_readable name (file_bytes (saved_of (of_worksheet desk.old.sheet))) reply
        (saved_as name (of_desk desk.old)) (of_desk desk.old))
        (shelf_view (S.holds shelf.old) (S.faults shelf.old)) (shelf_view (S.holds shelf.new) (S.faults shelf.new))) }
{
    let bytes = sheet_bytes(&desk.sheet)?;
    let placed = place(&name, &bytes, shelf)?;
    match placed {
        Placed::Written => {
            desk.file_name = Some(name);
            Ok(CommandEnd::Finished)
        }
        Placed::Failed => Ok(CommandEnd::Refused(CommandError::DiskError)),
        Placed::TooLarge => Ok(CommandEnd::Refused(CommandError::WorksheetTooLarge)),
    }
}

// What is saved of a span is written, where it would be read again.
fn extract_span<S: Shelf>(
    kind: Extracting,
    name: &FileName,
    span: Span,
    sheet: &Worksheet,
    shelf: &mut S,
) -> Result<Placed, Memory>
    ensures placed { IfOk result (λ placed. IsPlaced name.now
        (file_bytes (extracted kind span (of_worksheet sheet.now))) placed
        (shelf_view (S.holds shelf.old) (S.faults shelf.old)) (shelf_view (S.holds shelf.new) (S.faults shelf.new))) }
    ensures memory { OnErr result (IsUnplaced name.now
        (file_bytes (extracted kind span (of_worksheet sheet.now)))
        (shelf_view (S.holds shelf.old) (S.faults shelf.old)) (shelf_view (S.holds shelf.new) (S.faults shelf.new))) }
{
    let saved = extracted(kind, span, sheet)?;
    put_sheet(name, &saved, shelf)
}

// What is saved of the span that the second answer is, is written.
fn extract<S: Shelf>(
    kind: Extracting,
    name: &FileName,
    answers: &Answers,
    desk: &Desk,
    shelf: &mut S,
) -> Result<CommandEnd, Memory>
    ensures acted { IfOk result (λ end. (n : ℕ) → HasActedOver
        (extracted_to kind name.now (span_at desk.now.sheet.names answers.now 1) (of_desk desk.now)) end
        desk.now desk.now n n
        (shelf_view (S.holds shelf.old) (S.faults shelf.old)) (shelf_view (S.holds shelf.new) (S.faults shelf.new))) }
    ensures memory { OnErr result (HasBrokenIn
        (extracted_to kind name.now (span_at desk.now.sheet.names answers.now 1) (of_desk desk.now))
        (shelf_view (S.holds shelf.old) (S.faults shelf.old)) (shelf_view (S.holds shelf.new) (S.faults shelf.new))) }
{
    match span_at(desk.sheet.names(), answers, 1) {
        Ok(span) => {
            let placed = extract_span(kind, name, span, &desk.sheet, shelf)?;
            Ok(end_of_placing(placed))
        }
        Err(error) => Ok(CommandEnd::Refused(error)),
    }
}

// A command below File, and the answers that it was given.
#[derive(Clone, Copy)]
struct FileCommand<'a> {
    action: FileAction,
    answers: &'a Answers,
}

// A command whose first answer is this file's name.
fn act_named<S: Shelf>(
    command: &FileCommand<'_>,
    name: FileName,
    desk: &mut Desk,
    shelf: &mut S,
    scene: &Scene,
    tally: &mut Tally,
) -> Result<CommandEnd, Memory>
    ensures acted { IfOk result (λ end. HasActedOver
        (act_named command.now.action command.now.answers.now name scene.entry.now (of_desk desk.old)) end desk.old
        desk.new tally.old.count tally.new.count
        (shelf_view (S.holds shelf.old) (S.faults shelf.old)) (shelf_view (S.holds shelf.new) (S.faults shelf.new))) }
    ensures memory { OnErr result (HasBrokenIn
        (act_named command.now.action command.now.answers.now name scene.entry.now (of_desk desk.old))
        (shelf_view (S.holds shelf.old) (S.faults shelf.old)) (shelf_view (S.holds shelf.new) (S.faults shelf.new))) }
{
    let answers = command.answers;
    match command.action {
        FileAction::Retrieve => use_file(FileUse::Retrieve, &name, desk, shelf, scene, tally),
        FileAction::Save => save(name, desk, shelf),
        FileAction::Erase => remove(&name, shelf),
        FileAction::CombineCopy => {
            let how = FileUse::Combine(Combining::Copy);
            use_file(how, &name, desk, shelf, scene, tally)
        }
        FileAction::CombineAdd => {
            let how = FileUse::Combine(Combining::Add);
            use_file(how, &name, desk, shelf, scene, tally)
        }
        FileAction::CombineSubtract => {
            let how = FileUse::Combine(Combining::Subtract);
            use_file(how, &name, desk, shelf, scene, tally)
        }
        FileAction::XtractFormulas => extract(Extracting::Formulas, &name, answers, desk, shelf),
        FileAction::XtractValues => extract(Extracting::Values, &name, answers, desk, shelf),
    }
}

/// Carries out a command below File, whose first answer is the name of a worksheet's file (Release 2 manual):
/// - Retrieve reads the file, which takes the place of the sheet, and recalculates all in both modes, seen from where
///   the pointer then stands. It keeps no file name (this project's choice).
/// - Save writes the sheet, in the place of a file of that name, and keeps the name for the next save.
/// - Combine reads a file and puts its A1 at the pointer. Copy writes its filled cells with their formats. Add and
///   Subtract take its cells whose value is a number, and write onto those of the sheet that hold a number or nothing:
///   others stay, and a sum beyond the size becomes `@ERR`. In Automatic mode a recalculation follows.
/// - Xtract writes the cells of the range that the second answer is, moved to A1 as Move does, with the settings and
///   without names, columns' own widths and hidden columns. Values writes them as Range Value does.
/// - Erase takes the file away.
///
/// At most one call of the shelf is made: `get` for Retrieve and Combine, `put` for Save and Xtract, and `remove` for
/// Erase.
/// `InvalidFileName` comes exactly where the first answer is no file's name, and for Xtract then `InvalidAddress` and
/// `NameNotFound` by its second one, all without a call. So does `WorksheetTooLarge`, for Save and Xtract, exactly
/// where the file would have more than 67,108,864 bytes: what is saved is read back (this project's choice).
/// `DiskError` comes exactly where the call failed, and the
/// shelf's count of faults rose in it; `FileNotFound` where there is no such file, and `FileRefused` where it is no
/// worksheet file. Combine is then refused by `OutOfSheet`, with the span from A1 to the file's last used column and
/// row, exactly where a cell that it takes would stand past the sheet, and by `Protected` with the first written cell
/// in row order that is protected, where protection is on. A refused command leaves the desk as it was. After want of
/// memory the sheet is open, but keeps what it keeps. Where the call was answered then, it left the shelf as its answer
/// tells; else no file has changed but the one that a `put` was writing.
pub fn act<S: Shelf>(
    action: FileAction,
    answers: &Answers,
    desk: &mut Desk,
    shelf: &mut S,
    scene: &Scene,
    tally: &mut Tally,
) -> Result<CommandEnd, Memory>
    ensures acted { IfOk result (λ end. HasActedOver (act action answers.now scene.entry.now (of_desk desk.old)) end
        desk.old desk.new tally.old.count tally.new.count
        (shelf_view (S.holds shelf.old) (S.faults shelf.old)) (shelf_view (S.holds shelf.new) (S.faults shelf.new))) }
    ensures memory { OnErr result (HasBrokenIn (act action answers.now scene.entry.now (of_desk desk.old))
        (shelf_view (S.holds shelf.old) (S.faults shelf.old)) (shelf_view (S.holds shelf.new) (S.faults shelf.new))) }
{
    match FileName::of(line_at(answers, 0)) {
        Some(name) => {
            let command = FileCommand { action, answers };
            act_named(&command, name, desk, shelf, scene, tally)
        }
        None => Ok(CommandEnd::Refused(CommandError::InvalidFileName(0))),
    }
}
