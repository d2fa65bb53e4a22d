// Words that were read already.
ghost use Rattle.std.specs.Prelude.{◌≡◌, true, IfOk, IfSome, OnOk};
ghost use Rattle.key_words.specs.MacroText.{unit_at};
ghost use Rattle.key_words.specs.declared.macro_word.MacroWord.TheVariants as words;
ghost use Rattle.lics_text.specs.Bytes.{IsText};
ghost use Rattle.macro_text.specs.Kept.{arguments_in, listed_by};

use crate::ReadArguments;
use crate::listed::arguments_of;
use grid_address::Cell;
use key_words::{Arguments, Key, MacroWord, unit_at};
use lics_text::{Line, Memory};
use std::alloc::Global;
use std::marker::Model;
use std::mem::swap;

/// A word that stands at an offset, the offset behind it, and its arguments, where it is a command.
#[derive(Drop)]
pub struct KeptWord {
    pub at: usize,
    pub word: MacroWord,
    pub end: usize,
    pub args: ReadArguments,
}

// The words that were read from a text, which are used only while the text is the same.
#[derive(Drop)]
struct TextWords {
    text: Line,
    words: Vec<KeptWord>,
    // A bit for each offset modulo 64 at which one of them stands.
    marks: u64,
    // Where the word stands among them that was asked for last.
    last: usize,
    // The offset behind the first byte of the word that was looked for last, and 0 where none was.
    next: usize,
    // Whether the text was gone back in, or come to again.
    again: bool,
}

impl Model for TextWords {
    ghost use Rattle.std.specs.Prelude.{ℕ, List};
    ghost use Rattle.macro_text.specs.inner.Words.{AreWordsOf};

    ghost Value = { List ℕ };

    ghost view = { λ k. k.text };

    ghost invariant = { λ k. AreWordsOf k.text k.words.items };
}

/// The words that were read from the text at hand, and those of the texts of other cells.
#[derive(Drop)]
pub struct KeptWords {
    hand: TextWords,
    // Where the words at hand have their place among the others.
    place: usize,
    others: Vec<TextWords>,
}

impl Model for KeptWords {
    ghost use Rattle.std.specs.Prelude.{ℕ, List};

    ghost Value = { List ℕ };

    ghost view = { λ k. k.hand };
}

/// How many texts have places.
const PLACES: usize = 64;

// The place of the words of a cell's text; cells that lie near one another have places of their own.
fn place_of(cell: Cell) -> usize {
    (usize::from(cell.row) + 8 * usize::from(cell.col)) % PLACES
}

// The arguments that a command's word lists.
fn listed_by(word: &MacroWord) -> Arguments
    ensures { result ≡ listed_by word.now }
{
    match word {
        MacroWord::Command(_, args) => *args,
        MacroWord::Key(_) | MacroWord::Repeated(_, _) => Arguments::Nothing,
        MacroWord::Call(_, _) | MacroWord::PlaceCall(_) => Arguments::Nothing,
        MacroWord::End | MacroWord::Bad => Arguments::Nothing,
    }
}

// The key that a word is.
fn key_of(word: &MacroWord) -> Option<Key>
    ensures { IfSome result (λ k. word.now ≡ words.Key k) }
{
    match word {
        MacroWord::Key(key) => Some(*key),
        MacroWord::Command(_, _) | MacroWord::Repeated(_, _) => None,
        MacroWord::Call(_, _) | MacroWord::PlaceCall(_) => None,
        MacroWord::End | MacroWord::Bad => None,
    }
}

// The arguments of a command in a text that stands in a cell.
fn read_arguments(
    alloc: Global,
    text: &[u8],
    word: &MacroWord,
    cell: Cell,
) -> Result<ReadArguments, Memory>
    requires { IsText text.now }
    ensures { IfOk result (λ a. a ≡ arguments_in text.now word.now) }
{
    let list = arguments_of(alloc, false, text, listed_by(word))?;
    ReadArguments::of(alloc, list, cell)
}

impl TextWords {
    // None, of the empty text.
    fn new(alloc: Global) -> TextWords {
        TextWords {
            text: Line::new(),
            words: Vec::new(alloc),
            marks: 0,
            last: 0,
            next: 0,
            again: false,
        }
    }

    // The word that has this place among them, if it stands at this offset.
    fn placed(&self, place: usize, offset: usize) -> Option<&KeptWord>
        ensures { IfSome result (λ k. (unit_at self.now offset ≡ (k.now.word, k.now.end))
            × (k.now.args ≡ arguments_in self.now k.now.word)) }
    {
        match self.words.get(place) {
            Some(kept) => { if kept.at == offset { Some(kept) } else { None } }
            None => None,
        }
    }

    // The place of the word at an offset, and the end where there is none. A text is mostly read in its order: none is
    // looked for behind the word that was kept last.
    fn place_at(&self, offset: usize) -> usize {
        match self.words.last() {
            Some(kept) if kept.at >= offset => self.searched(offset),
            _ => self.words.len(),
        }
    }

    // The same, by a look at each.
    #[inline(never)]
    fn searched(&self, offset: usize) -> usize {
        for place in 0..self.words.len() {
            if self.words[place].at == offset {
                return place;
            }
        }
        self.words.len()
    }

    // Whether the words are those of this text.
    fn is_of(&self, text: &[u8]) -> bool
        ensures { result ≡ true → self.now ≡ text.now }
    {
        let kept = self.text.bytes();
        kept == text
    }

    // The words are those of this text, which is come to again, or all are forgotten where it isn't the same.
    fn follow(&mut self, text: &[u8])
        requires { IsText text.now }
        ensures { self.new ≡ text.now }
    {
        self.again = self.is_of(text);
        if !self.again {
            let mut copy = Line::new();
            copy.put_all(text);
            self.words.clear();
            self.marks = 0;
            self.text = copy;
            self.next = 0;
        }
    }

    // Keeps the word at an offset with its arguments.
    fn keep(
        &mut self,
        at: usize,
        word: &MacroWord,
        end: usize,
        args: ReadArguments,
    ) -> Result<(), Memory>
        requires word { unit_at self.old at ≡ (word.now, end) }
        requires args { args ≡ arguments_in self.old word.now }
        ensures { self.new ≡ self.old }
    {
        let word = *word;
        self.last = self.words.len();
        self.marks |= 1u64 << (at % 64);
        self.words.push(KeptWord {
            at,
            word,
            end,
            args,
        })?;
        Ok(())
    }

    // Reads the word at an offset of the text, which stands in a cell. A key of a text that wasn't gone through before
    // is told, with the offset behind it; any other word is kept with its arguments.
    #[inline(never)]
    fn read_at(
        &mut self,
        text: &[u8],
        offset: usize,
        cell: Cell,
        alloc: Global,
    ) -> Result<Option<(Key, usize)>, Memory>
        requires text { IsText text.now }
        requires kept { self.old ≡ text.now }
        ensures key { IfOk result (λ o. IfSome o (λ k. unit_at text.now offset ≡ (words.Key k.0, k.1))) }
        ensures text { OnOk result (self.new ≡ text.now) }
    {
        let (word, end) = unit_at(text, offset);
        if !self.again {
            if let Some(key) = key_of(&word) {
                return Ok(Some((key, end)));
            }
        }
        let args = read_arguments(alloc, text, &word, cell)?;
        self.keep(offset, &word, end, args)?;
        Ok(None)
    }

    // The word at an offset is looked for. False where it isn't kept.
    #[inline(never)]
    fn look_for(&mut self, offset: usize) -> bool
        ensures { self.new ≡ self.old }
    {
        if offset < self.next {
            self.again = true;
        }
        self.next = offset.wrapping_add(1);
        self.last = self.place_at(offset);
        self.last < self.words.len()
    }

    // The word at an offset is asked for: mostly it is the next one, or the first one. False where it isn't kept.
    fn come_to(&mut self, offset: usize) -> bool
        ensures { self.new ≡ self.old }
    {
        let next = self.last.wrapping_add(1);
        if self.placed(next, offset).is_some() {
            self.last = next;
            return true;
        }
        if self.placed(0, offset).is_some() {
            self.last = 0;
            return true;
        }
        self.look_for(offset)
    }
}

impl KeptWords {
    /// None, of the empty text.
    pub fn new(alloc: Global) -> KeptWords {
        KeptWords {
            hand: TextWords::new(alloc),
            place: 0,
            others: Vec::new(alloc),
        }
    }

    // The words in the place come to hand, and those at hand go there.
    fn change(&mut self) {
        if let Some(words) = self.others.get_mut(self.place) {
            swap(words, &mut self.hand);
        }
    }

    // The words in the place of a cell come to hand, and those at hand go back to their place.
    fn turn_to(&mut self, alloc: Global, cell: Cell) -> Result<(), Memory> {
        for _ in self.others.len()..PLACES {
            self.others.push(TextWords::new(alloc))?;
        }
        self.change();
        self.place = place_of(cell);
        self.change();
        Ok(())
    }

    // The words of the text in a cell come to hand, those that were kept of it, or none.
    #[inline(never)]
    fn follow(&mut self, alloc: Global, text: &[u8], cell: Cell) -> Result<(), Memory>
        requires { IsText text.now }
        ensures { OnOk result (self.new ≡ text.now) }
    {
        self.turn_to(alloc, cell)?;
        self.hand.follow(text);
        Ok(())
    }

    /// Whether a word of the text at hand may be kept that stands at an offset.
    #[inline(always)]
    pub fn may_hold(&self, offset: usize) -> bool {
        (self.hand.marks >> (offset % 64)) & 1 == 1
    }

    /// Comes to the word at an offset of a text that stands in a cell. Where it is kept `kept_at` tells it; false where
    /// it has to be read.
    #[inline(always)]
    pub fn come_to(
        &mut self,
        alloc: Global,
        text: &[u8],
        offset: usize,
        cell: Cell,
    ) -> Result<bool, Memory>
        requires { IsText text.now }
        ensures { OnOk result (self.new ≡ text.now) }
    {
        if !self.hand.is_of(text) {
            self.follow(alloc, text, cell)?;
        }
        Ok(self.hand.come_to(offset))
    }

    /// Reads the word that was come to. A key of a text that wasn't gone through before is told, with the offset behind
    /// it; any other word is kept with its arguments, and `kept_at` then tells it.
    pub fn read_at(
        &mut self,
        alloc: Global,
        text: &[u8],
        offset: usize,
        cell: Cell,
    ) -> Result<Option<(Key, usize)>, Memory>
        requires text { IsText text.now }
        requires kept { self.old ≡ text.now }
        ensures key { IfOk result (λ o. IfSome o (λ k. unit_at text.now offset ≡ (words.Key k.0, k.1))) }
        ensures text { OnOk result (self.new ≡ text.now) }
    {
        self.hand.read_at(text, offset, cell, alloc)
    }

    /// The text.
    pub fn text(&self) -> &[u8]
        ensures { result.now ≡ self.now }
    {
        self.hand.text.bytes()
    }

    /// The word at an offset of the text with its arguments, where it is the one that was come to last.
    pub fn kept_at(&self, offset: usize) -> Option<&KeptWord>
        ensures word { IfSome result (λ k. (k.now.word ≡ (unit_at self.now offset).0)
            × (k.now.args ≡ arguments_in self.now (unit_at self.now offset).0)) }
        ensures end { IfSome result (λ k. k.now.end ≡ (unit_at self.now offset).1) }
    {
        self.hand.placed(self.hand.last, offset)
    }
}
