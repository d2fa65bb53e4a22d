// Limits that the system sets to this program.
use std::alloc::Global;
use std::fs::Files;
use std::io::Read;
use std::{fs, io};

// Where Linux tells the limits of the program that asks, a line each.
const LIMITS: &str = "/proc/self/limits";

// How many bytes of it are read at most.
const MOST_BYTES: u64 = 8192;

// What its line of the longest file begins with.
const FILE_SIZE: &str = "Max file size";

// What its line of the largest stack begins with.
const STACK_SIZE: &str = "Max stack size";

// The lines of all limits.
fn read_limits(files: &impl Files, alloc: Global) -> io::Result<Vec<u8>> {
    let mut bytes = Vec::new(alloc);
    fs::open(files, LIMITS)?
        .take(MOST_BYTES)
        .read_to_end(&mut bytes)?;
    Ok(bytes)
}

// The number behind what a line begins with; none where it isn't limited.
fn number_in(line: &str, name: &str) -> Option<u64> {
    line.strip_prefix(name)?
        .split_whitespace()
        .next()?
        .parse::<u64>()
        .ok()
}

// The limit of this name; none where there is none, or where the system doesn't tell it.
fn limit(files: &impl Files, alloc: Global, name: &str) -> Option<u64> {
    let bytes = read_limits(files, alloc).ok()?;
    let text = str::from_utf8(bytes.as_slice()).ok()?;
    for line in text.lines() {
        if line.starts_with(name) {
            return number_in(line, name);
        }
    }
    None
}

/// The most bytes that a file which this program writes may have, by the system's limit; none where there is no such
/// limit, or where the system doesn't tell it.
pub(crate) fn file_size_limit(files: &impl Files, alloc: Global) -> Option<u64> {
    limit(files, alloc, FILE_SIZE)
}

/// The most bytes that this program's stack may have, by the system's limit; none where there is no such limit, or
/// where the system doesn't tell it.
pub fn stack_limit(files: &impl Files, alloc: Global) -> Option<u64> {
    limit(files, alloc, STACK_SIZE)
}
