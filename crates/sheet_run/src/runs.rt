// The top call.
ghost use Rattle.std.specs.Prelude.{◌≡◌, ℕ, false, List};
ghost use Rattle.sheet_run.specs.Around.{around};
ghost use Rattle.sheet_run.specs.Completeness.{Answers, HasEndedWell, RanAsTold, MustEndWell};
ghost use Rattle.sheet_run.specs.inner.Lent.{told, told_with, HasRoom, IsSame};
ghost use Rattle.sheet_run.specs.Notes.{file_note, file_status, Tells};
ghost use Rattle.sheet_run.specs.inner.Opened.{IsOpen};
ghost use Rattle.sheet_run.specs.inner.OptionAnswers.{refused_text, IsFromFile, IsPart};
ghost use Rattle.sheet_run.specs.Run.{Outside as OutsideView};
ghost use Rattle.sheet_run.specs.declared.options.Start.TheVariants as given;
ghost use Rattle.sheet_run.specs.Status.{surroundings, IsRun, RunsWith, Surroundings};

use crate::Words;
use crate::displays::{Work, sending_to, work_on_all};
use crate::drive::{Ending, drive};
use crate::notes::{tell, tell_memory, tell_refused, tell_unread};
use crate::opening::{NotBegun, NotRead, open_session};
use crate::options::{Options, Refused, Start, Wanted, read_words, word_at};
use crate::outside::Outside;
use outside_world::{Clock, Keys, Notes, Shelf};
use screen_show::Display;
use session_core::Session;
use std::alloc::Global;

// The refused part of the words.
fn refused_text(words: &Words, refused: Refused) -> &[u8]
    requires { IsPart words.now refused }
    ensures { result.now ≡ refused_text words.now refused }
{
    match refused {
        Refused::Part { place, from } => {
            let word = word_at(words, place);
            &word[from..]
        }
        Refused::NoValue(Wanted::File) => b"--file",
        Refused::NoValue(Wanted::Steps) => b"--steps",
        Refused::NoValue(Wanted::Show) => b"--show",
        Refused::NoValue(Wanted::Gen) => b"--gen",
    }
}

/// Runs the worksheet program over these words, keys, files, clock, displays and notes, and answers its
/// status.
///
/// The order of work: the words are read; room for every display is reserved in `failed`; displays of a
/// kind that wasn't asked for are dropped, of which no clause tells that nothing is asked of them before;
/// the shelf is asked once for the start file, where the words name one, or a sheet is generated; the clock is read
/// once, and that sheet, or a fresh one, is recalculated; then the steps follow.
/// Before each step, where the session wants a key, bytes are read until a key is there or the keys end; where it wants
/// none, the step is of a macro's unit. Then the limit is tested, then the clock is read, the step is made and its
/// screen is sent to each display in order. Where the displays show the last screen alone, and none tells what it
/// shows, that one is sent behind the last step, and no other. A display whose call failed moves to the end of
/// `failed`, and the others go on. Behind a step that asks to quit no byte more is taken. At the end each display that
/// is left is closed. With 1, 2, 6 and 9 none is closed, and with 1, 2 and 6 the clock isn't read.
///
/// | Status | Comes | Note |
/// |---|---|---|
/// | 0 | the keys ended at a word's end, or asked to quit | none |
/// | 1 | exactly where the words are outside the grammar | `bad word: W` |
/// | 2 | exactly where the start file is missing, or no worksheet file | `NAME.WK1: no such file`, `NAME.WK1: F2 6` |
/// | 3 | exactly where the limit's steps were made and one more could begin | `stopped after N steps` |
/// | 4 | exactly where the bytes begin no text of key notation, or end inside a word | `bad key word at byte N` |
/// | 5 | only where the count of the keys' faults rose | `keys failed` |
/// | 6 | only where the count of the shelf's faults rose while the start file was read | `NAME.WK1: disk error` |
/// | 7 | exactly where status 0 would come and `failed` grew | `display failed` |
/// | 8 | only where the count of the notes' faults rose; it takes the place of the others | none |
/// | 9 | memory ran out | `memory full`, unless that can't be written |
/// | 10 | exactly where a strict run ended by a refusal, or left something undone | `step N at byte B: MESSAGE` |
///
/// A run is strict by `--strict`: it ends behind a step that refuses something and doesn't quit the run, which is an
/// error that is told, a finished line with a fault, or a letter that takes no item. Where its keys end at a word's end
/// it leaves something undone outside READY, and where a macro is at work. N is the number of steps, B of bytes.
/// One more step could begin of a macro's unit, of a repeat that is left, or of a key that was read.
/// Every note begins with `1-2-3: ` and ends with a line feed. A file's fault is told as F with its number and the
/// numbers that it carries, a function's code in two capital hexadecimal digits. Wherever a session was made and memory
/// didn't run out, `--gen N` tells first `rows N` and `CN V`, the value V that the sum of all rows then has, and then
/// `--count` tells `evaluations N`. (This project's choice.)
pub fn run<K: Keys, S: Shelf, C: Clock, N: Notes>(
    alloc: Global,
    words: &Words,
    keys: &mut K,
    shelf: &mut S,
    clock: &mut C,
    displays: &mut Vec<Box<dyn Display>>,
    failed: &mut Vec<Box<dyn Display>>,
    notes: &mut N,
) -> u8
    ensures { let at = around K.Keys S.Shelf C.Clock N.Notes seen in
        RanAsTold words.now (at keys.old shelf.old clock.old displays.old failed.old notes.old)
        (at keys.new shelf.new clock.new displays.new failed.new notes.new) result }
{
    let mut outside = Outside {
        shelf,
        clock,
        displays,
        failed,
    };
    run_over(alloc, words, keys, &mut outside, notes)
}

// Runs the program over what is lent.
fn run_over<K: Keys, S: Shelf, C: Clock, N: Notes>(
    alloc: Global,
    words: &Words,
    keys: &mut K,
    outside: &mut Outside<'_, S, C>,
    notes: &mut N,
) -> u8
    ensures ran { let at = told_with K.Keys S.Shelf C.Clock N.Notes seen in
        RanAsTold words.now (at keys.old outside.old notes.old) (at keys.new outside.new notes.new) result }
    ensures same { IsSame outside.old outside.new }
{
    match read_words(words) {
        Ok(options) => run_with(alloc, options, keys, outside, notes),
        Err(refused) => tell_refused(alloc, refused_text(words, refused), notes),
    }
}

// Runs the program with these options.
fn run_with<K: Keys, S: Shelf, C: Clock, N: Notes>(
    alloc: Global,
    options: Options,
    keys: &mut K,
    outside: &mut Outside<'_, S, C>,
    notes: &mut N,
) -> u8
    ensures ran { let at = told_with K.Keys S.Shelf C.Clock N.Notes seen in
        RunsWith options (at keys.old outside.old notes.old) (at keys.new outside.new notes.new) result }
    ensures same { IsSame outside.old outside.new }
{
    match open_session(alloc, &options, outside) {
        Ok(mut session) => run_session(&options, keys, outside, &mut session, notes),
        Err(NotBegun::NotRead(why)) => tell_start(&options.start, why, notes),
        Err(NotBegun::Memory) => tell_memory(notes),
    }
}

// Makes the steps of a run that was opened, closes the displays that are left, and answers the status.
fn run_session<K: Keys, S: Shelf, C: Clock, N: Notes>(
    options: &Options,
    keys: &mut K,
    outside: &mut Outside<'_, S, C>,
    session: &mut Session,
    notes: &mut N,
) -> u8
    requires fresh { session.old.spent ≡ false }
    requires room { HasRoom outside.old }
    ensures ran { (before : OutsideView) → let at = told K.Keys S.Shelf C.Clock seen in
        IsOpen options.now session.old before (at keys.old outside.old) →
        RunsWith options.now (surroundings before (N.written notes.old) (N.faults notes.old))
        (surroundings (at keys.new outside.new) (N.written notes.new) (N.faults notes.new)) result }
    ensures same { IsSame outside.old outside.new }
{
    let failed_before = outside.failed.len();
    let sending = sending_to(options.kind(), outside.displays);
    let ending = drive(options.bounds(), sending, keys, outside, session);
    if let Ending::NoMemory = ending {
        return tell_memory(notes);
    }
    work_on_all(&Work::Close, outside.displays, outside.failed);
    let moved = outside.failed.len() > failed_before;
    tell(notes, options, session, moved, ending)
}

// Tells that the start file isn't read.
fn tell_start<N: Notes>(start: &Start, why: NotRead, notes: &mut N) -> u8
    requires { IsFromFile start.now }
    ensures { (name : List ℕ) → start.now ≡ given.File name →
        Tells (file_note name why) (file_status why)
        (N.written notes.old) (N.written notes.new) (N.faults notes.old) (N.faults notes.new) result }
{
    match start {
        Start::File(name) => tell_unread(notes, name, why),
        Start::Fresh | Start::Rows(_) => unreachable!(),
    }
}

/// A run ends well where the words are in the grammar, the start file reads as a sheet, nothing failed, and the bytes
/// spell keys that with the macros they start come to their end within the limit of steps, or begin with words whose
/// keys quit the run within it, unless memory ran out. Whether they do is asked of any answers that the shelf may give,
/// failed calls too, or, where no call of the shelf failed, of answers alone that tell of none.
pub fn a_run_ends_well()
    ensures { (words : List (List ℕ)) (before now : Surroundings) (status : ℕ) →
        IsRun words before now status → (answers : Answers) (must : MustEndWell answers words before now) →
        HasEndedWell must.start before now status }
{}
