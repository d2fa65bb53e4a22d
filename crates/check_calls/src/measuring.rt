// The work that bench/files and bench/digits measure.

use crate::numbers::{kind_of, shown_sum};
use crate::stop::Stop;
use sheet_store::SavedSheet;
use std::alloc::Global;
use std::io::{Read, Write};
use std::time::Instant;
use wk1_file::{read, write};

// The sheet that a file is read as.
fn sheet_of(alloc: Global, file: &[u8]) -> Result<SavedSheet, Stop> {
    match read(alloc, file) {
        Ok(sheet) => Ok(sheet),
        Err(_) => Err(Stop::Line),
    }
}

// How many bytes a sheet is written in. The sheet is let go before a fault is told.
fn written_len(alloc: Global, sheet: SavedSheet) -> Result<u64, Stop> {
    let written = write(alloc, &sheet);
    drop(sheet);
    Ok(written?.len() as u64)
}

// How many cells the sheet has that a file is read as. Nothing but reading goes over them.
fn cells_in(alloc: Global, file: &[u8]) -> Result<u64, Stop> {
    let sheet = sheet_of(alloc, file)?;
    let count = sheet.store.held_count() as u64;
    drop(sheet);
    Ok(count)
}

// Tells the bytes of the file and of the one that is written, and how many microseconds reading and writing took.
fn time<W: Write>(rt: &HostRuntime, alloc: Global, file: &[u8], out: &mut W) -> Result<(), Stop> {
    let start = Instant::now(rt)?;
    let sheet = sheet_of(alloc, file)?;
    let read = start.elapsed(rt);
    let written = write(alloc, &sheet);
    let both = start.elapsed(rt);
    drop(sheet);
    let reading = read?.as_micros();
    let writing = both?.as_micros().saturating_sub(reading);
    let written = written?.len();
    writeln!(out, "{} {written} {reading} {writing}", file.len())?;
    Ok(())
}

// The sum of the last bytes of numbers of the kind that a word names.
fn sum_of(word: &str) -> Result<u64, Stop> {
    match kind_of(word) {
        Some(kind) => Ok(shown_sum(kind)),
        None => Err(Stop::Line),
    }
}

/// Takes a file from standard input and does what the word names: `make` takes the bytes alone, `read` reads the
/// sheet too, `write` then lets the bytes go and writes the sheet again, `write-beside` writes it while the bytes stay
/// in memory, and `time` tells the bytes that were read and written and the microseconds of each. `read` tells how
/// many cells there are, and the others how many bytes there are in the end. With a kind of numbers, `tenths`, `whole`,
/// `rounded`, `fixed` or `hidden`, 10,000 of them are shown in cells, and the sum of their last bytes is told.
/// `Stop::Line` is another word, or a file that can't be read.
pub fn measure(rt: &HostRuntime, word: &str) -> Result<(), Stop> {
    let alloc = rt.alloc();
    let mut file = Vec::new(alloc);
    rt.reader().read_to_end(&mut file)?;
    let mut out = rt.stdout();
    let told = match word {
        "make" => file.len() as u64,
        "read" => cells_in(alloc, file.as_slice())?,
        "write" => {
            let sheet = sheet_of(alloc, file.as_slice())?;
            drop(file);
            written_len(alloc, sheet)?
        }
        "write-beside" => written_len(alloc, sheet_of(alloc, file.as_slice())?)?,
        "time" => return time(rt, alloc, file.as_slice(), &mut out),
        kind => sum_of(kind)?,
    };
    writeln!(out, "{told}")?;
    Ok(())
}
