// Trees with their invariant.
ghost use Rattle.std.specs.Prelude.{◌≡◌, true, IfOk, OnOk};
ghost use Rattle.formula_tree.specs.Formulas.{formula_of, Gives};
ghost use Rattle.formula_tree.specs.Ranges.{is_ranged};
ghost use Rattle.formula_tree.specs.Redirected.{redirected};
ghost use Rattle.formula_tree.specs.Shape.{every, IsFormula};
ghost use Rattle.formula_tree.specs.Spans.{is_volatile, spans_of};
ghost use Rattle.formula_tree.specs.View.{tree_of};

use crate::depth::depth_within;
use crate::reads::{collect, is_volatile};
use crate::redirect::{keeps_references, redirected_copy};
use crate::same::is_known;
use crate::walk::has_shape;
use crate::{Expr, Redirect};
use grid_address::{Cell, Span};
use lics_text::Memory;
use std::alloc::Global;
use std::marker::Model;
use std::rc::Rc;

/// Why a tree is no formula's: it is deeper than 256, or it has no formula's shape.
#[derive(Clone, Copy)]
pub enum TreeFault {
    TooDeep,
    BadShape,
    Memory,
}

/// A tree that a formula may have. It is at most 256 deep and well bracketed, its functions have the arguments
/// that they take, its numbers aren't negative, its texts hold no quote, and its code has at most 65,520 bytes. Copies
/// of a formula share one tree.
#[derive(Drop)]
pub struct Formula {
    expr: Rc<Expr>,
    alloc: Global,
}

impl Model for Formula {
    ghost use Rattle.formula_tree.specs.Tree.{Tree};
    ghost use Rattle.formula_tree.specs.inner.Code.{coded_tree};

    ghost Value = { Tree };

    ghost coded = { coded_tree };

    ghost use Rattle.formula_tree.specs.View.{tree_of};
    ghost use Rattle.formula_tree.specs.Shape.{every, IsFormula};

    ghost view = { λ f. tree_of f.expr.value };

    ghost use Rattle.std.specs.Prelude.{◌≡◌, true};
    ghost use Rattle.formula_tree.specs.Ranges.{is_ranged};

    ghost invariant = { λ f. IsFormula (tree_of f.expr.value) × (every is_ranged (tree_of f.expr.value) ≡ true) };
}

impl Formula {
    /// The formula of a tree. `BadShape` comes exactly where the tree isn't well bracketed, a function hasn't the
    /// arguments that it takes, a number is negative, a text holds a quote or the code is too long; otherwise
    /// `TooDeep` exactly past 256. The tree is dropped where it is refused.
    pub fn of(alloc: Global, expr: Expr) -> Result<Formula, TreeFault>
        ensures { Gives result (formula_of (tree_of expr)) }
    {
        match has_shape(alloc, &expr) {
            Ok(true) => {}
            Ok(false) => return Err(TreeFault::BadShape),
            Err(Memory) => return Err(TreeFault::Memory),
        }
        if !depth_within(&expr, 256) {
            return Err(TreeFault::TooDeep);
        }
        match Rc::new(alloc, expr) {
            Ok(expr) => Ok(Formula { expr, alloc }),
            Err(_) => Err(TreeFault::Memory),
        }
    }

    /// The tree.
    pub fn expr(&self) -> &Expr
        ensures value { tree_of result.now ≡ self.now }
        ensures shape { IsFormula self.now }
        ensures ranges { every is_ranged self.now ≡ true }
    {
        &self.expr
    }

    /// The memory that the formula is in.
    pub fn alloc(&self) -> Global {
        self.alloc
    }

    /// An equal formula, which shares this one's tree.
    pub fn copy(&self) -> Result<Formula, Memory>
        ensures { IfOk result (λ f. f ≡ self.now) }
    {
        let expr = self.expr.clone()?;
        Ok(Formula {
            expr,
            alloc: self.alloc,
        })
    }

    /// The formula with each reference redirected, and `@ERR` in the place of an operand that is lost. Where no
    /// reference changes, its tree is shared with this one's.
    pub fn redirected<R: Redirect>(&self, by: &R) -> Result<Formula, Memory>
        ensures { IfOk result (λ f. f ≡ redirected (R.new_reference by.now) self.now) }
    {
        if keeps_references(&self.expr, by) {
            return self.copy();
        }
        let expr = redirected_copy(self.alloc, &self.expr, by)?;
        Ok(Formula {
            expr,
            alloc: self.alloc,
        })
    }

    /// Puts the spans that the formula reads where it stands in the cell into a list in place of what was there, from
    /// left to right.
    pub fn put_reads(&self, at: Cell, into: &mut Vec<Span>) -> Result<(), Memory>
        ensures { OnOk result (into.new.items ≡ spans_of self.now at) }
    {
        into.clear();
        collect(&self.expr, at, into)
    }

    /// Whether it is known that another formula is this one. It isn't known of one that has a text or calls a function.
    pub fn is_known_as(&self, other: &Formula) -> bool
        ensures { result ≡ true → self.now ≡ other.now }
    {
        is_known(&self.expr, &other.expr)
    }

    /// Whether a function whose value changes by itself is called: NOW, CELL, CELLPOINTER or @@.
    pub fn is_volatile(&self) -> bool
        ensures { result ≡ is_volatile self.now }
    {
        is_volatile(&self.expr)
    }
}
