// Formulas read from their codes.
ghost use Rattle.std.specs.Prelude.{◌≡◌, ◌≤◌, ◌<◌, ◌+◌, IfOk, IfErr, length, drop, reverse, List};
ghost use Rattle.formula_tree.specs.Formulas.{formula_of};
ghost use Rattle.formula_tree.specs.Tree.{Tree};
ghost use Rattle.wk1_formula.specs.inner.Items.{AreItems, IsItem};
ghost use Rattle.wk1_formula.specs.Stack.{at_end, ended, tree_in, Gives};
ghost use Rattle.wk1_formula.specs.inner.Turns.{Goes};

use crate::CodeFault;
use crate::bytes::bytes_from;
use crate::front::{Front, front_of};
use crate::item::Item;
use crate::stack::{pop, step};
use formula_tree::{Formula, TreeFault};
use lics_text::Memory;
use std::alloc::Global;

/// The most bytes of a code (worksheet file format).
const MOST_CODE: u32 = 65_520;

// The formula of the one tree that is left at the 03.
fn formula_in(alloc: Global, item: Item, at: u32) -> Result<Formula, CodeFault>
    ensures { (t : Tree) → IsItem item t → Gives result (ended at (formula_of t)) }
{
    if item.size >= MOST_CODE {
        return Err(CodeFault::Bad(at));
    }
    match item.expr {
        None => Err(CodeFault::TooDeep),
        Some(expr) => match Formula::of(alloc, expr) {
            Ok(formula) => Ok(formula),
            Err(TreeFault::TooDeep) => Err(CodeFault::TooDeep),
            Err(TreeFault::BadShape) => Err(CodeFault::Bad(at)),
            Err(TreeFault::Memory) => Err(CodeFault::Memory),
        },
    }
}

// The formula at the 03, where exactly one tree must be left.
fn finished(alloc: Global, stack: &mut Vec<Item>, at: u32) -> Result<Formula, CodeFault>
    ensures { (ts : List Tree) → AreItems (reverse stack.old.items) ts → Gives result (at_end at ts) }
{
    match pop(stack) {
        Some(item) => {
            if stack.len() > 0 {
                return Err(CodeFault::Bad(at));
            }
            formula_in(alloc, item, at)
        }
        None => Err(CodeFault::Bad(at)),
    }
}

/// Reads the code of a formula, of at most 65,535 bytes; what stands behind its 03 is passed over. The fault at the
/// least offset comes: `Bad` with that offset, `Outside` with the function that is left out, or `TooLarge`; `TooDeep`
/// comes where there is no other. Where no 03 comes, the offset is the number of bytes.
pub fn read_code(alloc: Global, code: &[u8]) -> Result<Formula, CodeFault>
    requires { length code.now ≤ 65535 }
    ensures { Gives result (tree_in code.now) }
{
    let mut stack: Vec<Item> = Vec::new(alloc);
    let mut at = 0;
    while at < code.len() {
        let Ok(front) = front_of(alloc, bytes_from(code, at)) else {
            return Err(CodeFault::Memory);
        };
        match front {
            Front::Whole(found, size) => match step(alloc, &mut stack, found) {
                Ok(true) => at += size,
                Ok(false) => return Err(CodeFault::Bad(at as u32)),
                Err(Memory) => return Err(CodeFault::Memory),
            },
            Front::Finish => return finished(alloc, &mut stack, at as u32),
            Front::Faulty => return Err(CodeFault::Bad(at as u32)),
            Front::LeftOut(function) => return Err(CodeFault::Outside(function)),
            Front::TooLarge => return Err(CodeFault::TooLarge),
        }
    }
    Err(CodeFault::Bad(at as u32))
}
