// The parts, and which of them answers.

use crate::channel::ChannelDesk;
use crate::outside::OutsideDesk;
use crate::reports::ReportDesk;
use crate::stop::Stop;
use crate::undo::UndoDesk;
use std::alloc::Global;

/// What answers at present.
#[derive(Clone, Copy)]
enum Part {
    Reports,
    Channel,
    Outside,
    Undo,
}

/// What answers the lines, and which part does at present.
#[derive(Drop)]
pub struct Parts {
    part: Part,
    reports: ReportDesk,
    channel: ChannelDesk,
    outside: OutsideDesk,
    undo: UndoDesk,
}

impl Parts {
    /// Reports come first, of an empty worksheet.
    pub fn new(alloc: Global) -> Result<Parts, Stop> {
        let outside = OutsideDesk::new(alloc)?;
        Ok(Parts {
            part: Part::Reports,
            reports: ReportDesk::new(alloc),
            channel: ChannelDesk::new(Vec::new(alloc)),
            outside,
            undo: UndoDesk::new(alloc),
        })
    }

    /// Answers a line: writes the lines of its answer, each with its end, or nothing. `Stop::Line` is a line that
    /// doesn't say what it should.
    pub fn answer(&mut self, alloc: Global, line: &[u8], answer: &mut Vec<u8>) -> Result<(), Stop> {
        match self.part {
            Part::Reports => self.reports.answer(alloc, line, answer),
            Part::Channel => self.channel.answer(alloc, line, answer),
            Part::Outside => self.outside.answer(alloc, line, answer),
            Part::Undo => self.undo.answer(alloc, line, answer),
        }
    }

    /// Lets the part of this name answer from here on. `Stop::Line` is a name of none.
    pub fn turn_to(&mut self, name: &[u8]) -> Result<(), Stop> {
        self.part = match name {
            b"reports" => Part::Reports,
            b"channel" => Part::Channel,
            b"outside" => Part::Outside,
            b"undo" => Part::Undo,
            _ => return Err(Stop::Line),
        };
        Ok(())
    }
}
