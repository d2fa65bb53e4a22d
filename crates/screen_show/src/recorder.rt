ghost use Rattle.std.specs.Prelude.{◌≡◌, ◌≤◌, Some, vec_capacity, IfOk, [], IsTrue, IsFalse};
ghost use Rattle.outside_world.specs.Causes.{Rose};

use crate::{Display, DisplayKind, Screen};
use outside_world::{Failed, Memory};
use std::alloc::Global;

/// A display in memory, with room for a number of frames. A frame past it fails, and so do the calls of
/// `put`, `done` and `close` with the given numbers, counted from 1 over all of them.
#[derive(Drop)]
pub struct Recorder {
    kind: DisplayKind,
    screen: Screen,
    frames: Vec<Screen>,
    puts: u64,
    bytes_put: u64,
    closed: bool,
    closes: u64,
    room: usize,
    failing: Vec<u64>,
    calls: u64,
    faults: u64,
    ghost has_room: { room ≤ vec_capacity frames },
}

impl Recorder {
    ghost use Rattle.screen_show.specs.Recorder.{recorded, recorder_kind};

    /// A display of this kind with room for so many frames, so that none of its calls takes memory.
    pub fn new(
        alloc: Global,
        kind: DisplayKind,
        room: usize,
        failing: Vec<u64>,
    ) -> Result<Recorder, Memory>
        ensures kind { IfOk result (λ r. recorder_kind r ≡ kind) }
        ensures fresh { IfOk result (λ r. (recorded r).frames ≡ []) }
    {
        let frames = Vec::with_capacity(alloc, room)?;
        Ok(Recorder {
            kind,
            screen: Screen::empty(),
            frames,
            puts: 0,
            bytes_put: 0,
            closed: false,
            closes: 0,
            room,
            failing,
            calls: 0,
            faults: 0,
        })
    }

    /// The finished frames.
    pub fn frames(&self) -> &[Screen]
        ensures { result.now ≡ (recorded self.now).frames }
    {
        &self.frames
    }

    /// How many calls of `put` were finished; it stays at the last `u64`.
    pub fn puts(&self) -> u64
        ensures { result ≡ (recorded self.now).puts }
    {
        self.puts
    }

    /// How many bytes they put; it stays at the last `u64`.
    pub fn bytes_put(&self) -> u64
        ensures { result ≡ (recorded self.now).bytes_put }
    {
        self.bytes_put
    }

    /// How many calls of `close` were finished; it stays at the last `u64`.
    pub fn closes(&self) -> u64
        ensures { result ≡ (recorded self.now).closes }
    {
        self.closes
    }

    // Counts a call, and says whether it is to fail, which it counts too.
    fn fails(&mut self) -> bool
        ensures same { recorded self.new ≡ recorded self.old }
        ensures kind { recorder_kind self.new ≡ recorder_kind self.old }
        ensures failed { IsTrue result → Rose self.old.faults self.new.faults }
        ensures later { self.old.faults ≤ self.new.faults }
        ensures fine { IsFalse result → self.new.faults ≡ self.old.faults }
    {
        self.calls = self.calls.saturating_add(1);
        let fails = self.failing.contains(&self.calls);
        if fails {
            self.faults = self.faults.saturating_add(1);
        }
        fails
    }
}

impl Display for Recorder {
    ghost use Rattle.screen_show.specs.Recorder.{recorded, recorder_kind};

    ghost seen = { λ r. record { kind = r.kind; told = Some (recorded r); faults = r.faults } };

    fn kind(&self) -> DisplayKind {
        self.screen.is_whole();
        let _puts = self.puts;
        let _bytes_put = self.bytes_put;
        self.kind
    }

    fn recorder(&self) -> Option<&Recorder> {
        Some(self)
    }

    fn put(&mut self, row: u8, col: u8, bytes: &[u8]) -> Result<(), Failed> {
        if self.fails() {
            return Err(Failed);
        }
        self.screen.put(row, col, bytes);
        self.puts = self.puts.saturating_add(1);
        self.bytes_put = self.bytes_put.saturating_add(bytes.len() as u64);
        self.closed = false;
        Ok(())
    }

    fn done(&mut self) -> Result<(), Failed> {
        if self.fails() {
            return Err(Failed);
        }
        if self.room <= self.frames.len() {
            self.faults = self.faults.saturating_add(1);
            return Err(Failed);
        }
        match self.frames.push(self.screen) {
            Ok(()) => {
                self.closed = false;
                Ok(())
            }
            Err(_) => unreachable!(),
        }
    }

    fn close(&mut self) -> Result<(), Failed> {
        if self.fails() {
            return Err(Failed);
        }
        self.closed = true;
        self.closes = self.closes.saturating_add(1);
        Ok(())
    }
}
