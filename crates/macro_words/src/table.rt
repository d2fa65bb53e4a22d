// The table of commands.
ghost use Rattle.std.specs.Prelude.{◌≡◌, IfOk, Some};
ghost use Rattle.macro_words.specs.Sources.{outlook_from};
ghost use Rattle.macro_text.specs.Kept.{arguments_in};
ghost use Rattle.macro_text.specs.Texts.{macro_text};
ghost use Rattle.macro_words.specs.Rows as spec;

use crate::asking::{
    awaits, get_row, indicate_row, look_row, menu_row, question_row, switch_row, wait_row,
};
use crate::define::define_row;
use crate::file_rows::{
    asks, open_row, position_row, read_line_row, read_row, set_position_row, size_row,
    write_line_row, write_row,
};
use crate::looping::{break_row, for_row, return_row};
use crate::rows::{bad, branch_row, call_row, calls, dispatch_row, if_row, moves, onerror_row};
use crate::writing::{blank_row, contents_row, let_row, put_row, recalc_row};
use crate::{FileWord, Move, Row, Running, Source, Waiting, Wanted};
use formula_parts::Look;
use grid_address::Format;
use key_words::{Command, MacroWord};
use lics_text::{MAX_LEN, Memory};
use macro_text::{KeptWords, ReadArguments, Spot, named_span, part, place_of};

// The fewest and the most arguments of a command.
fn counts(command: Command) -> (usize, usize)
    ensures { result ≡ spec.counts command }
{
    match command {
        Command::Branch | Command::Dispatch | Command::If | Command::Blank => (1, 1),
        Command::Get | Command::Look | Command::Wait => (1, 1),
        Command::MenuBranch | Command::MenuCall => (1, 1),
        Command::OnError => (1, 2),
        Command::Recalc | Command::RecalcCol => (1, 3),
        Command::Define => (1, MAX_LEN),
        Command::Let | Command::GetLabel | Command::GetNumber => (2, 2),
        Command::Contents => (2, 4),
        Command::Put => (4, 4),
        Command::For => (5, 5),
        Command::Return | Command::Restart | Command::Quit | Command::ForBreak => (0, 0),
        Command::Indicate => (0, 1),
        Command::Interact | Command::Beep | Command::PanelOn | Command::PanelOff => (0, 0),
        Command::WindowsOn | Command::WindowsOff => (0, 0),
        Command::BreakOn | Command::BreakOff => (0, 0),
        Command::Open | Command::Read => (2, 2),
        Command::Close => (0, 0),
        Command::ReadLn | Command::Write | Command::WriteLn => (1, 1),
        Command::FileSize | Command::GetPos | Command::SetPos => (1, 1),
    }
}

// Whether a command takes so many arguments.
fn is_taken(command: Command, count: usize) -> bool
    ensures { result ≡ spec.is_taken (spec.counts command) count }
{
    let (least, most) = counts(command);
    least <= count && count <= most
}

// A command with as many arguments as it takes.
#[tactic(auto, unfolding(crate::specs::Rows::command_row))]
fn command_row<K: Look>(
    from: &Source<'_, K>,
    running: &Running,
    at: &Spot,
    command: Command,
    given: &ReadArguments,
) -> Result<Row, Memory>
    ensures { let outlook = outlook_from K.Look from.now in
        IfOk result (λ r. r ≡ spec.command_row outlook from.now.global.0 running.now at.now command given.now) }
{
    match command {
        Command::Branch => branch_row(from, given),
        Command::Dispatch => Ok(dispatch_row(from, given.list())),
        Command::Define => define_row(from, running, at, given.list()),
        Command::Return => return_row(from, running),
        Command::Restart => Ok(moves(Move::Forget)),
        Command::Quit => Ok(moves(Move::Stop)),
        Command::If => if_row(from, at, given),
        Command::For => for_row(from, running, at, given.list()),
        Command::ForBreak => Ok(break_row(running)),
        Command::Let => let_row(from, at, given),
        Command::Put => put_row(from, at, given),
        Command::Blank => Ok(blank_row(from, given.list())),
        Command::Contents => contents_row(from, at, given.list()),
        Command::OnError => Ok(onerror_row(from, given.list())),
        Command::Recalc => recalc_row(from, at, false, given.list()),
        Command::RecalcCol => recalc_row(from, at, true, given.list()),
        Command::Get => Ok(get_row(from, given.list())),
        Command::GetLabel => question_row(from, at, Wanted::Label, given.list()),
        Command::GetNumber => question_row(from, at, Wanted::Number, given.list()),
        Command::Look => look_row(from, given.list()),
        Command::MenuBranch => Ok(menu_row(from, None, given.list())),
        Command::MenuCall => Ok(menu_row(from, Some(*at), given.list())),
        Command::Wait => wait_row(from, running, at, given.list()),
        Command::Interact => Ok(awaits(Waiting::Enter)),
        Command::Beep => Ok(moves(Move::Stay)),
        Command::Indicate => indicate_row(from, at, given.list()),
        Command::PanelOn | Command::PanelOff => Ok(switch_row(running, command)),
        Command::WindowsOn | Command::WindowsOff => Ok(switch_row(running, command)),
        Command::BreakOn | Command::BreakOff => Ok(switch_row(running, command)),
        Command::Open => open_row(from, at, given.list()),
        Command::Close => Ok(asks(at, FileWord::Close)),
        Command::Read => read_row(from, at, given.list()),
        Command::ReadLn => Ok(read_line_row(from, at, given.list())),
        Command::Write => write_row(from, at, given.list()),
        Command::WriteLn => write_line_row(from, at, given.list()),
        Command::FileSize => Ok(size_row(from, at, given.list())),
        Command::GetPos => Ok(position_row(from, at, given.list())),
        Command::SetPos => set_position_row(from, at, given.list()),
    }
}

// A command, where it takes so many arguments. Those of most loops go a way of their own, which needs no room for what
// the whole table takes.
#[tactic(auto, unfolding(crate::specs::Rows::counted_row, crate::specs::Rows::command_row))]
fn counted_row<K: Look>(
    from: &Source<'_, K>,
    running: &Running,
    at: &Spot,
    command: Command,
    args: &ReadArguments,
) -> Result<Row, Memory>
    ensures { let outlook = outlook_from K.Look from.now in
        IfOk result (λ r. r ≡ spec.counted_row outlook from.now.global.0 running.now at.now command args.now) }
{
    if !is_taken(command, args.list().len()) {
        return Ok(bad());
    }
    match command {
        Command::Branch => branch_row(from, args),
        Command::If => if_row(from, at, args),
        Command::Let => let_row(from, at, args),
        _ => command_row(from, running, at, command, args),
    }
}

// What a call in a text does that stands at a place; another word is none.
fn call_word_row<K: Look>(
    from: &Source<'_, K>,
    running: &Running,
    at: &Spot,
    text: &[u8],
    word: MacroWord,
) -> Row
    ensures { let outlook = outlook_from K.Look from.now in
        result ≡ spec.call_word_row outlook running.now at.now text.now word }
{
    match word {
        MacroWord::Call(name, _) => {
            let name = part(text, name);
            call_row(running, at, named_span(from.look.names(), name))
        }
        MacroWord::PlaceCall(cut) => match place_of(from.look.names(), part(text, cut)) {
            Some(cell) => calls(running, at, cell),
            None => bad(),
        },
        MacroWord::Command(_, _) => bad(),
        MacroWord::Key(_) => bad(),
        MacroWord::Repeated(_, _) => bad(),
        MacroWord::End => bad(),
        MacroWord::Bad => bad(),
    }
}

/// What the word at a place does, as its text now stands, whose words these are: to the sheet and to the macro, or why
/// it is a fault; a fault writes nothing. All arguments are read first: one that isn't of its kind, or a wrong number
/// of them, comes before a cell without a text and before a call or loop inside 31 others. A place without a command or
/// a call is a bad argument. A word that was kept isn't read again, and where none is kept of the place, the answer is
/// `Memory`. (Release 2 manual for the words; the order of causes and the nesting of 31 are this project's choice.)
#[tactic(auto, unfolding(crate::specs::Rows::row))]
pub fn row<K: Look>(
    from: &Source<'_, K>,
    running: &Running,
    kept: &KeptWords,
    at: &Spot,
) -> Result<Row, Memory>
    requires { macro_text (K.sight from.now.look.now) at.now.cell ≡ Some kept.now }
    ensures { IfOk result (λ r. r ≡ spec.row (outlook_from K.Look from.now) from.now.global.0 running.now at.now) }
{
    let Some(read) = kept.kept_at(at.offset) else {
        return Err(Memory);
    };
    match read.word {
        MacroWord::Command(command, _) => { counted_row(from, running, at, command, &read.args) }
        MacroWord::Call(_, _)
        | MacroWord::PlaceCall(_)
        | MacroWord::Key(_)
        | MacroWord::Repeated(_, _)
        | MacroWord::End
        | MacroWord::Bad => { Ok(call_word_row(from, running, at, kept.text(), read.word)) }
    }
}
