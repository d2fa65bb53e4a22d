// Answers compared with those that are wanted.
ghost use Rattle.std.specs.Prelude.{◌≡◌, ◌<◌, ◌≤◌, true, false};

use crate::parts::Parts;
use crate::stop::Stop;
use std::alloc::Global;
use std::io::{BufRead, Write};
use std::process::ExitCode;

/// How many answers that differ are printed.
const MOST_TOLD: u64 = 5;

/// How many cases and answers there were, and how many of these differ.
#[derive(Clone, Copy)]
struct Tally {
    cases: u64,
    answers: u64,
    differ: u64,
}

impl Tally {
    // Counts an answer, and whether it is the one that is wanted. One that isn't is never lost from the count.
    fn add(&mut self, found: &[u8], wanted: &[u8]) -> bool
        ensures same { result ≡ true → found.now ≡ wanted.now }
        ensures different { result ≡ false → 0 < self.new.differ }
        ensures kept { self.old.differ ≤ self.new.differ }
    {
        if !found.is_empty() || !wanted.is_empty() {
            self.answers = self.answers.saturating_add(1);
        }
        if found == wanted {
            return true;
        }
        self.differ = self.differ.saturating_add(1);
        false
    }

    // Prints the counts.
    fn write<W: Write>(&self, out: &mut W) -> Result<(), Stop> {
        write!(
            out,
            "{} cases\n{} answers\n{} differ\n",
            self.cases, self.answers, self.differ
        )?;
        Ok(())
    }

    // Success where no answer differs.
    fn status(&self) -> ExitCode {
        if self.differ == 0 {
            ExitCode::SUCCESS
        } else {
            ExitCode::from(4)
        }
    }
}

/// The case at hand, the answer to its last line, and the counts.
#[derive(Drop)]
struct Comparison {
    case: Vec<u8>,
    found: Vec<u8>,
    wanted: Vec<u8>,
    line: u64,
    asked: u64,
    tally: Tally,
}

impl Comparison {
    // No case yet.
    fn new(alloc: Global) -> Comparison {
        Comparison {
            case: Vec::new(alloc),
            found: Vec::new(alloc),
            wanted: Vec::new(alloc),
            line: 0,
            asked: 0,
            tally: Tally {
                cases: 0,
                answers: 0,
                differ: 0,
            },
        }
    }

    // Prints the case, what is wanted and what was found.
    fn tell<W: Write>(&self, out: &mut W) -> Result<(), Stop> {
        write!(out, "line {} differs:\n", self.asked)?;
        out.write_all(self.case.as_slice())?;
        out.write_all(b"wanted:\n")?;
        out.write_all(self.wanted.as_slice())?;
        out.write_all(b"found:\n")?;
        out.write_all(self.found.as_slice())?;
        Ok(())
    }

    // The answer to the last line is whole: it is compared, counted, and told among the first that differ.
    fn settle<W: Write>(&mut self, out: &mut W) -> Result<(), Stop> {
        let same = self
            .tally
            .add(self.found.as_slice(), self.wanted.as_slice());
        if !same && self.tally.differ <= MOST_TOLD {
            self.tell(out)?;
        }
        self.found.clear();
        self.wanted.clear();
        Ok(())
    }

    // A line of the case is answered.
    fn ask(
        &mut self,
        alloc: Global,
        parts: &mut Parts,
        line: &[u8],
        asked: &[u8],
    ) -> Result<(), Stop> {
        self.case.extend_from_slice(line)?;
        self.case.push(b'\n')?;
        self.asked = self.line;
        parts.answer(alloc, asked, &mut self.found)
    }

    // Does what a line of the data says.
    fn follow<W: Write>(
        &mut self,
        alloc: Global,
        parts: &mut Parts,
        line: &[u8],
        out: &mut W,
    ) -> Result<(), Stop> {
        self.line = self.line.saturating_add(1);
        match line {
            [b'=', wanted @ ..] => {
                self.wanted.extend_from_slice(wanted)?;
                self.wanted.push(b'\n')?;
                Ok(())
            }
            [b'>', asked @ ..] => {
                self.settle(out)?;
                self.tally.cases = self.tally.cases.saturating_add(1);
                self.case.clear();
                self.ask(alloc, parts, line, asked)
            }
            [b'+', asked @ ..] => {
                self.settle(out)?;
                self.ask(alloc, parts, line, asked)
            }
            [b'#', name @ ..] => {
                self.settle(out)?;
                self.case.clear();
                parts.turn_to(name)
            }
            _ => Err(Stop::Line),
        }
    }

    // Does what the lines of the data say, and prints the counts.
    fn follow_all<R: BufRead + Drop, W: Write>(
        &mut self,
        alloc: Global,
        parts: &mut Parts,
        data: R,
        out: &mut W,
    ) -> Result<ExitCode, Stop> {
        for line in data.split(alloc, b'\n') {
            match line {
                Ok(line) => self.follow(alloc, parts, line.as_slice(), out)?,
                Err(_) => return Err(Stop::Stream),
            }
        }
        self.settle(out)?;
        self.tally.write(out)?;
        Ok(self.tally.status())
    }
}

/// Asks the parts all that the data tells, and prints what differs, and the counts. The status is 0 where each answer
/// is the one that is wanted, 1 for want of memory, 2 where a stream failed, 3 where a line doesn't say what it
/// should, which is told, and 4 where an answer differs.
pub fn check<R: BufRead + Drop, W: Write>(alloc: Global, data: R, out: &mut W) -> ExitCode {
    let Ok(mut parts) = Parts::new(alloc) else {
        return ExitCode::from(1);
    };
    let mut comparison = Comparison::new(alloc);
    let outcome = comparison.follow_all(alloc, &mut parts, data, out);
    drop(parts);
    match outcome {
        Ok(status) => status,
        Err(Stop::Memory) => ExitCode::from(1),
        Err(Stop::Stream) => ExitCode::from(2),
        Err(Stop::Line) => {
            let _told = write!(out, "line {} says nothing\n", comparison.line);
            ExitCode::from(3)
        }
    }
}
