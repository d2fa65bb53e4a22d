// From a text to its formula.
ghost use Rattle.std.specs.Prelude.{◌≡◌, ◌⊎◌, ◌↔◌, ℕ, List, IfOk, IfErr, Ok, Err};
ghost use Rattle.formula_tree.specs.Shape.{IsFormula};
ghost use Rattle.formula_tree.specs.Tree.{Tree};
ghost use Rattle.formula_tree.specs.View.{tree_of};
ghost use Rattle.grid_address.specs.Place.{Place};
ghost use Rattle.range_names.specs.Names.{NameMap};
ghost use Rattle.formula_text.specs.Reading.{reading};
ghost use Rattle.formula_text.specs.Texts.{Spells};

use crate::ParseFault;
use crate::lex::lex;
use crate::parse::tree;
use formula_tree::{Expr, Formula};
use grid_address::Cell;
use lics_text::MAX_LEN;
use range_names::Names;
use std::alloc::Global;

// The formula of a tree that has what a formula's tree has.
fn formula(alloc: Global, expr: Expr) -> Result<Formula, ParseFault>
    requires { IsFormula (tree_of expr) }
    ensures ok { IfOk result (λ f. f ≡ tree_of expr) }
    ensures err { IfErr result (λ f. f ≡ ParseFault.Memory) }
{
    match Formula::of(alloc, expr) {
        Ok(formula) => Ok(formula),
        Err(_) => Err(ParseFault::Memory),
    }
}

/// The formula that a text spells where it stands in the cell, with these names: the tree that has the text's tokens in
/// order and in which no operator takes what an operator beside it should have. `TooLong` comes exactly past 240 bytes;
/// otherwise the leftmost fault comes, and at one byte `UnknownFunction`, `FunctionOutside`, `UnknownName` and
/// `BadNumber` come before `ArgCount`, and that before `Unexpected`. (The grammar of Release 2; the functions are those
/// of this project's table.)
pub fn read(alloc: Global, text: &[u8], at: Cell, names: &Names) -> Result<Formula, ParseFault>
    ensures found { IfOk result (λ f. reading names.now at text.now ≡ Ok f) }
    ensures fault { IfErr result (λ f. (f ≡ ParseFault.Memory) ⊎ (reading names.now at text.now ≡ Err f)) }
{
    if text.len() > MAX_LEN {
        return Err(ParseFault::TooLong);
    }
    let lexemes = lex(alloc, text, at, names)?;
    let expr = tree(alloc, lexemes.as_slice())?;
    formula(alloc, expr)
}

/// What is read of a text is the tree that it spells: the tree is spelled by the text wherever it is read of it, and a
/// text spells no other. So a text spells one tree where it has no fault, and else none.
pub fn a_text_is_read_as_it_spells()
    ensures { (names : NameMap) (at : Place) (text : List ℕ) (t : Tree)
        → (reading names at text ≡ Ok t) ↔ Spells names at text t }
{}
