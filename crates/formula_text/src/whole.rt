// Text that is printed whole.
ghost use Rattle.std.specs.Prelude.{◌≡◌, ◌++◌, IfOk, OnOk};
ghost use Rattle.formula_tree.specs.View.{tree_of};
ghost use Rattle.formula_text.specs.Printed.{printed, sign_for, text_of};

use crate::printing::{put_tree, sign_for};
use crate::sink::Sink;
use formula_tree::{Expr, Formula};
use grid_address::Cell;
use lics_text::Memory;
use range_names::Names;
use std::alloc::Global;
use std::mem::replace;

// A text of any length, and whether memory lasted for it.
#[derive(Drop)]
pub struct Whole {
    pub bytes: Vec<u8>,
    pub has_room: bool,
}

impl Sink for Whole {
    ghost use Rattle.formula_text.specs.inner.Puts.{Lengthens};

    ghost has_put = { Lengthens };

    fn put(&mut self, bytes: &[u8]) {
        if self.has_room && self.bytes.extend_from_slice(bytes).is_err() {
            self.has_room = false;
        }
    }
}

// The text of a tree, in the memory of the bytes that are handed in.
fn whole_text(expr: &Expr, at: Cell, names: &Names, mut bytes: Vec<u8>) -> Result<Vec<u8>, Memory>
    ensures { IfOk result (λ text. text.items ≡ text_of names.now at (tree_of expr.now)) }
{
    bytes.clear();
    let mut out = Whole {
        bytes,
        has_room: true,
    };
    put_tree(expr, at, names, &mut out);
    if out.has_room {
        Ok(out.bytes)
    } else {
        Err(Memory)
    }
}

// Puts the sign in front of a text that would begin a label.
fn put_sign(text: &mut Vec<u8>) -> Result<(), Memory>
    ensures { OnOk result (text.new.items ≡ sign_for text.old.items ++ text.old.items) }
{
    if sign_for(text.as_slice()).len() > 0 {
        text.insert(0, b'+')?;
    }
    Ok(())
}

/// Writes the text of a formula as `print` does, but all of it, however long it is. It stands in `into` in the place of
/// what was there, whose memory it takes. After an `Err` no promise is made of what stands there.
pub fn print_whole(
    alloc: Global,
    formula: &Formula,
    at: Cell,
    names: &Names,
    into: &mut Vec<u8>,
) -> Result<(), Memory>
    ensures { OnOk result (into.new.items ≡ printed names.now at formula.now) }
{
    let bytes = replace(into, Vec::new(alloc));
    *into = whole_text(formula.expr(), at, names, bytes)?;
    put_sign(into)
}
