//! Calls that the worksheet program makes only among others, compared with what another program answered: its data
//! tells cases line by line, with the answers that are wanted. A line that begins a case stands behind `>` and a
//! further line of the case behind `+`; below each stand the lines of its answer behind `=`, where it has an answer. A
//! line behind `#` names the part that answers the lines behind it. Each line is answered in turn, and the answer
//! compared with what stands there. It prints how many cases and answers there were and how many of these differ,
//! and before that the first five that do: the number of the line, the case up to it, what is wanted and what was
//! found. Where one differs the status isn't that of success. Bytes are told in hexadecimal digits, and a worksheet
//! by the bytes of its file.
//!
//! `reports`: reports of a worksheet. `=BYTES` takes the worksheet of a file, `g ROWS` the cells of a generated one
//! in the place of all, which is answered by how many of them have the sheet's format, and `p SPAN DAY LEFT RIGHT
//! TOP BOTTOM LENGTH HEADER FOOTER` asks for a report, by its length and its sum, which `q` asks for whole. Day 0
//! stands for none.
//!
//! `channel`: a line is a call over a shelf in memory and a channel, to which what the call does is answered. Its
//! words are the call and what it takes: `n` and the numbers of up to two of the shelf's calls that fail for a new
//! shelf and channel, `p NAME BYTES` for a file on the shelf, `d NAME N BYTES` for one of a byte that is doubled N
//! times and of these bytes at its end, `a NAME R|W|M` to attach, `f` to finish, `r N` to read, `l` to read a line,
//! `w BYTES` to write, `s` for the size, `c` for the position, `t N` to set it, and `g NAME` for what the shelf
//! holds.
//!
//! `outside`: calls of keys, notes and a display in memory, of which those with the given numbers fail, and those for
//! which there is no room. `keys BYTES N N` takes new keys, of which `key` asks for the next, `notes ROOM N N` new
//! notes, to which `note BYTES` adds, and `display ROOM N N` a new display, on which `put` puts a byte, `done` ends a
//! frame and `close` ends all.
//!
//! `undo`: makes changes of a sheet, some of them commands, and undoes commands. `(` begins a command, `)` ends it
//! and `<` undoes one; each is answered by what came of it: a command is `begun`, its state is `kept` or the sheet
//! `alike`, one is `undone`, or there is `none`. `=BYTES` makes the sheet that a file tells, `+BYTES` writes the
//! cells of such a file into the sheet, `-SPAN` erases, `!` recalculates, and `:` begins a fresh sheet without kept
//! states. Behind each stand how many states are kept, the count of evaluations and the marks CIRC and CALC. `?`
//! asks for the sum of the sheet's own file.
//!
//! With a word it does one piece of work, which bench/files and bench/digits measure: `measure` tells which.
#![tactic(auto)]

mod channel;
mod comparison;
mod measuring;
mod numbers;
mod outside;
mod parts;
mod reports;
mod stop;
mod undo;
mod words;

use comparison::check;
use measuring::measure;
use std::env;
use std::process::ExitCode;
use stop::Stop;

// Does the work that a word names, or with none asks the parts all that the data tells.
fn work(rt: &HostRuntime) -> Result<ExitCode, Stop> {
    match env::args(rt)?.nth(1) {
        None => Ok(check(rt.alloc(), rt.reader(), &mut rt.stdout())),
        Some(word) => {
            measure(rt, word.as_str())?;
            Ok(ExitCode::SUCCESS)
        }
    }
}

fn main(rt: HostRuntime) -> ExitCode {
    match work(&rt) {
        Ok(status) => status,
        Err(Stop::Memory) => ExitCode::from(1),
        Err(Stop::Stream) => ExitCode::from(2),
        Err(Stop::Line) => ExitCode::from(3),
    }
}
