ghost use Rattle.std.specs.Prelude.{◌≡◌, ◌<◌, ◌≤◌, ℕ, Some, true, false, replicate, slice_get, slice_set};

use std::marker::Model;

/// A set of a screen's lines, 0 to 24.
#[derive(Drop)]
pub struct LineSet {
    // The lowest bit is that of line 0.
    bits: u32,
}

impl Model for LineSet {
    ghost use Rattle.std.specs.Prelude.{Bool, List};
    ghost use Rattle.screen_show.specs.inner.LineSets.{lines_of};

    ghost Value = { List Bool };

    ghost view = { λ s. lines_of 25 s.bits };
}

// The bits of lines 0 to 24.
const ALL: u32 = 0x1ff_ffff;

impl LineSet {
    /// No line.
    pub fn none() -> LineSet
        ensures { result ≡ replicate 25 false }
    {
        LineSet { bits: 0 }
    }

    /// Every line.
    pub fn all() -> LineSet
        ensures { result ≡ replicate 25 true }
    {
        LineSet { bits: ALL }
    }

    /// Whether every line is in the set.
    pub fn holds_all(&self) -> bool
        ensures { result ≡ true → self.now ≡ replicate 25 true }
    {
        self.bits == ALL
    }

    /// Adds a line, of the lines 0 to 24.
    pub fn insert(&mut self, row: u8)
        requires { row ≤ 24 }
        ensures { self.new ≡ slice_set self.old row true }
    {
        self.bits |= 1 << row;
    }

    /// Whether a line is in the set, of the lines 0 to 24.
    pub fn contains(&self, row: u8) -> bool
        requires { row ≤ 24 }
        ensures { slice_get self.now row ≡ Some result }
    {
        (self.bits >> row) & 1 == 1
    }

    /// The first line of the set from a line on, of the lines 0 to 24, and 25 where there is none, and for 25.
    pub fn next_from(&self, row: u8) -> u8
        requires { row ≤ 25 }
        ensures within { (row ≤ result) × (result ≤ 25) }
        ensures passed { (k : ℕ) → row ≤ k → k < result → slice_get self.now k ≡ Some false }
        ensures there { result ≤ 24 → slice_get self.now result ≡ Some true }
    {
        let rest = self.bits & (u32::MAX << row);
        if rest == 0 {
            return 25;
        }
        (rest.trailing_zeros() as u8).min(25)
    }
}
