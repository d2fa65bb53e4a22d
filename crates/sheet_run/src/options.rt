// Reads the words of the command line.
ghost use Rattle.std.specs.Prelude.{◌≡◌, ◌≤◌, ◌<◌, min, drop, length, slice_index_or, [], IfSome};
ghost use Rattle.std.specs.Str.{bytes_eq};
ghost use Rattle.sheet_run.specs.Options.{is_given, is_named, is_number, rows_of, steps_of, file_of, kind_of};
ghost use Rattle.sheet_run.specs.Options.{on_joined, on_value, on_word, option_joined, option_named};
ghost use Rattle.sheet_run.specs.Options.{bounds_of, complete, read_word, limit_of, shown_kind, has_front};
ghost use Rattle.sheet_run.specs.inner.OptionAnswers.{HasValue, HasTaken, HasReadWords};

use crate::Words;
use fixed_value::{all_digits, capped_number};
use outside_world::FileName;
use screen_show::DisplayKind;
use std::marker::Model;

/// How many rows a generated sheet has, 1 to 8000.
#[derive(Drop)]
pub struct RowCount {
    rows: u16,
}

impl Model for RowCount {
    ghost use Rattle.std.specs.Prelude.{ℕ, ◌≤◌};

    ghost Value = { ℕ };

    ghost view = { λ a. a.rows };

    ghost invariant = { λ a. (1 ≤ a.rows) × (a.rows ≤ 8000) };
}

impl RowCount {
    /// The number of rows.
    pub fn rows(&self) -> u16
        ensures rows { result ≡ self.now }
        ensures some { 1 ≤ result }
        ensures most { result ≤ 8000 }
    {
        self.rows
    }
}

/// What a run begins with.
#[derive(Drop)]
pub enum Start {
    Fresh,
    /// The sheet of a file.
    File(FileName),
    /// A sheet that is generated.
    Rows(RowCount),
}

impl Start {
    // Whether the words name it.
    fn is_named(&self) -> bool
        ensures { result ≡ is_named self.now }
    {
        match self {
            Start::Fresh => false,
            Start::File(_) | Start::Rows(_) => true,
        }
    }
}

/// What the words ask for: at most once each, in any order, and `--file` or `--gen` alone.
#[derive(Drop)]
pub struct Options {
    /// `--file NAME` or `--gen N`: what the run begins with, a fresh sheet where neither is given.
    pub start: Start,
    /// `--steps N`: the most steps of the run, 1 to 10,000,000.
    pub steps: Option<u32>,
    /// `--show pages`, `ansi` or `last`: the kind of display that is used.
    pub show: Option<DisplayKind>,
    /// `--count`: the number of evaluations is told.
    pub count: bool,
    /// `--strict`: the run ends behind the first step that refuses something.
    pub strict: bool,
}

/// What bounds a run: the most steps, and whether a step that refuses something ends it.
#[derive(Clone, Copy)]
pub struct Bounds {
    pub steps: u32,
    pub strict: bool,
}

/// An option that waits for its value, which is the next word.
#[derive(Clone, Copy)]
pub enum Wanted {
    File,
    Steps,
    Show,
    Gen,
}

/// What is refused of the words.
#[derive(Clone, Copy)]
pub enum Refused {
    /// The bytes of the word at this place, from this byte on.
    Part { place: usize, from: usize },
    /// An option at the end of the words, whose value is missing.
    NoValue(Wanted),
}

/// The most steps that a limit can allow.
pub const MAX_STEPS: u32 = 10_000_000;

/// The most rows of a generated sheet.
const MAX_ROWS: u16 = 8000;

/// How many steps a run makes where the words don't say it.
pub const DEFAULT_STEPS: u32 = 1_000_000;

impl Options {
    /// The most steps of the run.
    pub fn limit(&self) -> u32
        ensures { result ≡ limit_of self.now }
    {
        match self.steps {
            Some(steps) => steps,
            None => DEFAULT_STEPS,
        }
    }

    /// What bounds the run.
    pub fn bounds(&self) -> Bounds
        ensures { result ≡ bounds_of self.now }
    {
        Bounds {
            steps: self.limit(),
            strict: self.strict,
        }
    }

    /// The kind of display that is used.
    pub fn kind(&self) -> DisplayKind
        ensures { result ≡ shown_kind self.now }
    {
        match self.show {
            Some(kind) => kind,
            None => DisplayKind::Pages,
        }
    }

    // Whether an option was given before, or one that excludes it.
    fn has(&self, wanted: Wanted) -> bool
        ensures { result ≡ is_given self.now wanted }
    {
        match wanted {
            Wanted::File | Wanted::Gen => self.start.is_named(),
            Wanted::Steps => self.steps.is_some(),
            Wanted::Show => self.show.is_some(),
        }
    }
}

// Whether two lists of bytes are one.
fn is_same(bytes: &[u8], other: &[u8]) -> bool
    ensures { result ≡ bytes_eq bytes.now other.now }
{
    bytes == other
}

// Whether the bytes begin with these.
fn has_front(bytes: &[u8], front: &[u8]) -> bool
    ensures { result ≡ has_front bytes.now front.now }
{
    is_same(&bytes[..front.len().min(bytes.len())], front)
}

// Whether these are digits of a number above 0 without a leading zero.
fn is_number(digits: &[u8]) -> bool
    ensures { result ≡ is_number digits.now }
{
    !digits.is_empty() && digits[0] > b'0' && all_digits(digits)
}

// The number of a step limit.
#[tactic(auto, unfolding(crate::specs::Options::steps_of))]
fn steps_of(value: &[u8]) -> Option<u32>
    ensures { result ≡ steps_of value.now }
{
    if !is_number(value) {
        return None;
    }
    let number = capped_number(value);
    if number <= u64::from(MAX_STEPS) {
        Some(number as u32)
    } else {
        None
    }
}

// The number of rows of a generated sheet.
#[tactic(auto, unfolding(crate::specs::Options::rows_of))]
fn rows_of(value: &[u8]) -> Option<RowCount>
    ensures { result ≡ rows_of value.now }
{
    if !is_number(value) {
        return None;
    }
    let number = capped_number(value);
    if number >= 1 && number <= u64::from(MAX_ROWS) {
        Some(RowCount {
            rows: number as u16,
        })
    } else {
        None
    }
}

// The name of a worksheet's file.
fn file_of(value: &[u8]) -> Option<FileName>
    ensures { result ≡ file_of value.now }
{
    if has_front(value, b"-") {
        None
    } else {
        FileName::of(value)
    }
}

// The kind of display that a word names.
fn kind_of(value: &[u8]) -> Option<DisplayKind>
    ensures { result ≡ kind_of value.now }
{
    if is_same(value, b"pages") {
        Some(DisplayKind::Pages)
    } else if is_same(value, b"ansi") {
        Some(DisplayKind::Ansi)
    } else if is_same(value, b"last") {
        Some(DisplayKind::Last)
    } else {
        None
    }
}

// Takes a value, which is refused alone.
fn on_value(options: Options, wanted: Wanted, value: &[u8]) -> Option<Options>
    ensures { HasValue value.now (on_value options wanted value.now) result }
{
    let mut options = options;
    match wanted {
        Wanted::File => options.start = Start::File(file_of(value)?),
        Wanted::Steps => options.steps = Some(steps_of(value)?),
        Wanted::Show => options.show = Some(kind_of(value)?),
        Wanted::Gen => options.start = Start::Rows(rows_of(value)?),
    }
    Some(options)
}

// Takes an option whose value stands behind `=`, from this byte on.
fn with_value(
    options: Options,
    wanted: Wanted,
    word: &[u8],
    from: usize,
) -> Result<(Options, Option<Wanted>), usize>
    requires { from ≤ length word.now }
    ensures { HasTaken word.now (complete (on_value options wanted (drop from word.now))) result }
{
    match on_value(options, wanted, rest(word, from)) {
        Some(options) => Ok((options, None)),
        None => Err(from),
    }
}

// The bytes of a word from one on.
fn rest(word: &[u8], from: usize) -> &[u8]
    requires { from ≤ length word.now }
    ensures { result.now ≡ drop from word.now }
{
    &word[from..]
}

// The option that a word names, whose value is the next word.
fn option_named(word: &[u8]) -> Option<Wanted>
    ensures { result ≡ option_named word.now }
{
    if is_same(word, b"--file") {
        Some(Wanted::File)
    } else if is_same(word, b"--steps") {
        Some(Wanted::Steps)
    } else if is_same(word, b"--show") {
        Some(Wanted::Show)
    } else if is_same(word, b"--gen") {
        Some(Wanted::Gen)
    } else {
        None
    }
}

// The option in a word with its value behind `=`, and where the value begins.
fn option_joined(word: &[u8]) -> Option<(Wanted, usize)>
    ensures option { result ≡ option_joined word.now }
    ensures inside { IfSome result (λ found. found.1 ≤ length word.now) }
{
    if has_front(word, b"--file=") {
        Some((Wanted::File, 7))
    } else if has_front(word, b"--steps=") {
        Some((Wanted::Steps, 8))
    } else if has_front(word, b"--show=") {
        Some((Wanted::Show, 7))
    } else if has_front(word, b"--gen=") {
        Some((Wanted::Gen, 6))
    } else {
        None
    }
}

// Takes an option with its value behind `=`.
fn on_joined(options: Options, word: &[u8]) -> Result<(Options, Option<Wanted>), usize>
    ensures { HasTaken word.now (on_joined options word.now) result }
{
    match option_joined(word) {
        Some((wanted, from)) => {
            if options.has(wanted) {
                Err(0)
            } else {
                with_value(options, wanted, word, from)
            }
        }
        None => Err(0),
    }
}

// Takes a word where no value is wanted.
fn on_word(options: Options, word: &[u8]) -> Result<(Options, Option<Wanted>), usize>
    ensures { HasTaken word.now (on_word options word.now) result }
{
    if is_same(word, b"--count") {
        if options.count {
            return Err(0);
        }
        let mut options = options;
        options.count = true;
        return Ok((options, None));
    }
    if is_same(word, b"--strict") {
        if options.strict {
            return Err(0);
        }
        let mut options = options;
        options.strict = true;
        return Ok((options, None));
    }
    match option_named(word) {
        Some(wanted) => {
            if options.has(wanted) {
                Err(0)
            } else {
                Ok((options, Some(wanted)))
            }
        }
        None => on_joined(options, word),
    }
}

// Takes the next word.
fn take_word(
    options: Options,
    wanted: Option<Wanted>,
    word: &[u8],
) -> Result<(Options, Option<Wanted>), usize>
    ensures { HasTaken word.now (read_word options wanted word.now) result }
{
    match wanted {
        None => on_word(options, word),
        Some(wanted) => with_value(options, wanted, word, 0),
    }
}

/// The word at a place.
pub fn word_at(words: &Words, place: usize) -> &[u8]
    requires { place < length words.now }
    ensures { result.now ≡ slice_index_or words.now place [] }
{
    match words.get(place) {
        Some(word) => word,
        None => unreachable!(),
    }
}

/// Reads the words of the command line: what they ask for, or the first word or value that can't go on,
/// or the option whose value is missing (this project's choice of options).
pub fn read_words(words: &Words) -> Result<Options, Refused>
    ensures { HasReadWords words.now result }
{
    let mut options = Options {
        start: Start::Fresh,
        steps: None,
        show: None,
        count: false,
        strict: false,
    };
    let mut wanted = None;
    for place in 0..words.len() {
        match take_word(options, wanted, word_at(words, place)) {
            Ok((next, waits)) => {
                options = next;
                wanted = waits;
            }
            Err(from) => return Err(Refused::Part { place, from }),
        }
    }
    match wanted {
        None => Ok(options),
        Some(wanted) => Err(Refused::NoValue(wanted)),
    }
}
