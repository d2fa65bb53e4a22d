// The codes that were read lately.
ghost use Rattle.std.specs.Prelude.{◌≡◌, ◌≤◌, IfSome, Ok, true, length};
ghost use Rattle.wk1_formula.specs.Stack.{tree_in, Gives};

use formula_tree::Formula;
use lics_text::Memory;
use std::alloc::Global;
use std::marker::Model;
use std::mem::replace;
use wk1_formula::{CodeFault, bytes_from, first_long, read_code};

/// How many codes are kept.
const PLACES: usize = 1024;

/// The most bytes of a code that is kept.
const MOST_KEPT: usize = 256;

/// What the hash of Fowler, Noll and Vo begins with, in 64 bits.
const HASH_BASIS: u64 = 14_695_981_039_346_656_037;

/// What that hash is multiplied by at each byte.
const HASH_PRIME: u64 = 1_099_511_628_211;

// Whether bytes that are 8 to 16 are the same, by the first eight and the last eight.
fn are_both_ends_same(a: &[u8], b: &[u8]) -> bool
    requires least { 8 ≤ length a.now }
    requires most { length a.now ≤ 16 }
    requires same { length a.now ≡ length b.now }
    ensures { result ≡ true → a.now ≡ b.now }
{
    let last = a.len() - 8;
    first_long(a) == first_long(b)
        && first_long(bytes_from(a, last)) == first_long(bytes_from(b, last))
}

// Whether two codes are one.
#[inline(always)]
fn is_same_code(a: &[u8], b: &[u8]) -> bool
    ensures { result ≡ true → a.now ≡ b.now }
{
    if a.len() != b.len() {
        return false;
    }
    if a.len() >= 8 && a.len() <= 16 {
        are_both_ends_same(a, b)
    } else {
        a == b
    }
}

// A code that was read, with its formula.
#[derive(Drop)]
struct ReadCode {
    code: Vec<u8>,
    formula: Formula,
}

impl Model for ReadCode {
    ghost use Rattle.std.specs.Prelude.{◌≡◌, List, Ok, ℕ};
    ghost use Rattle.wk1_formula.specs.Stack.{tree_in};

    ghost Value = { List ℕ };

    ghost view = { λ r. r.code.items };

    ghost invariant = { λ r. tree_in r.code.items ≡ Ok r.formula };
}

impl ReadCode {
    // A copy of a code and of its formula.
    fn of(alloc: Global, code: &[u8], formula: &Formula) -> Result<ReadCode, Memory>
        requires { tree_in code.now ≡ Ok formula.now }
    {
        let code = Vec::from_slice(alloc, code)?;
        let formula = formula.copy()?;
        Ok(ReadCode { code, formula })
    }

    // The formula, if it is the code's.
    #[inline(always)]
    fn formula_of(&self, code: &[u8]) -> Option<&Formula>
        ensures { IfSome result (λ f. tree_in code.now ≡ Ok f.now) }
    {
        if is_same_code(self.code.as_slice(), code) {
            Some(&self.formula)
        } else {
            None
        }
    }
}

// The same formula again.
fn copied(formula: &Formula) -> Result<Formula, CodeFault>
    ensures { Gives result (Ok formula.now) }
{
    match formula.copy() {
        Ok(formula) => Ok(formula),
        Err(Memory) => Err(CodeFault::Memory),
    }
}

// Where a code is kept, by the hash of its bytes.
fn place_of(code: &[u8]) -> usize {
    let mut hash = HASH_BASIS;
    for byte in code {
        hash = (hash ^ u64::from(*byte)).wrapping_mul(HASH_PRIME);
    }
    (hash % PLACES as u64) as usize
}

/// The codes of at most 256 bytes that were read lately, at most 1,024, each with its formula: formulas of one code
/// share their tree.
#[derive(Drop)]
pub struct ReadCodes {
    alloc: Global,
    places: Vec<Option<Box<ReadCode>>>,
    // Where the code is that was kept last: it is looked at before a hash is made.
    last: usize,
}

impl ReadCodes {
    /// No code was read.
    pub fn new(alloc: Global) -> ReadCodes {
        ReadCodes {
            alloc,
            places: Vec::new(alloc),
            last: 0,
        }
    }

    // The formula of a code, if it is kept in this place.
    #[inline(always)]
    fn kept_at(&self, place: usize, code: &[u8]) -> Option<&Formula>
        ensures { IfSome result (λ f. tree_in code.now ≡ Ok f.now) }
    {
        match self.places.get(place) {
            Some(Some(read)) => read.formula_of(code),
            Some(None) | None => None,
        }
    }

    // Makes the places, where they aren't there.
    fn make_places(&mut self) -> Result<(), Memory> {
        for _ in self.places.len()..PLACES {
            self.places.push(None)?;
        }
        Ok(())
    }

    // Keeps a code with its formula in place of what was there.
    fn keep(&mut self, code: &[u8], formula: &Formula) -> Result<(), Memory>
        requires { tree_in code.now ≡ Ok formula.now }
    {
        self.make_places()?;
        let read = ReadCode::of(self.alloc, code, formula)?;
        let read = Box::new(self.alloc, read)?;
        let at = place_of(code);
        self.last = at;
        if let Some(place) = self.places.get_mut(at) {
            drop(replace(place, Some(read)));
        }
        Ok(())
    }

    // Reads a code and keeps it.
    fn read_new(&mut self, code: &[u8]) -> Result<Formula, CodeFault>
        requires { length code.now ≤ 65535 }
        ensures { Gives result (tree_in code.now) }
    {
        let formula = read_code(self.alloc, code)?;
        let _ = self.keep(code, &formula);
        Ok(formula)
    }

    // The formula of a code that is not the last one's.
    #[inline(never)]
    fn read_other(&mut self, code: &[u8]) -> Result<Formula, CodeFault>
        requires { length code.now ≤ 65535 }
        ensures { Gives result (tree_in code.now) }
    {
        if code.len() > MOST_KEPT {
            return read_code(self.alloc, code);
        }
        match self.kept_at(place_of(code), code) {
            Some(formula) => copied(formula),
            None => self.read_new(code),
        }
    }

    /// The formula of a code of at most 65,535 bytes, or the fault that `read_code` tells. Where the same bytes were
    /// read lately, it shares their tree; those that were read last are found without a call.
    #[inline(always)]
    pub fn read(&mut self, code: &[u8]) -> Result<Formula, CodeFault>
        requires { length code.now ≤ 65535 }
        ensures { Gives result (tree_in code.now) }
    {
        match self.kept_at(self.last, code) {
            Some(formula) => copied(formula),
            None => self.read_other(code),
        }
    }
}
