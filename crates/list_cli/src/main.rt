//! The listing program: it takes a worksheet file from standard input, writes what it holds to standard output as lines
//! of text and a note to standard error, and ends with a status that says how the listing ended.
#![tactic(auto)]

use outside_world::{HostKeys, HostNotes, Memory, Notes};
use sheet_listing::list;
use std::env;
use std::io::ErrorKind;
use std::process::ExitCode;

// The first word of the command line, if there is one. Arguments that aren't text are a word too.
fn first_word(rt: &HostRuntime) -> Result<Option<String>, Memory> {
    match env::args(rt) {
        Ok(mut args) => Ok(args.nth(1)),
        Err(fault) => match fault.kind() {
            ErrorKind::OutOfMemory => Err(Memory),
            _ => Ok(Some(String::from_str(rt.alloc(), "?")?)),
        },
    }
}

fn main(rt: HostRuntime) -> ExitCode {
    let mut notes = HostNotes::new(rt.stderr());
    match first_word(&rt) {
        Ok(word) => ExitCode::from(list(
            rt.alloc(),
            word.as_ref().map(|word| word.as_bytes()),
            &mut HostKeys::new(rt.stdin()),
            &mut HostNotes::new(rt.stdout()),
            &mut notes,
        )),
        Err(Memory) => {
            let _ = notes.write(b"1-2-3-list: memory full\n");
            ExitCode::from(9)
        }
    }
}
