// A formula's tree.
ghost use Rattle.std.specs.Prelude.{◌≡◌, ◌≤◌, ◌<◌, ◌++◌, ◌∷◌, [], length, OnOk, OnErr};
ghost use Rattle.formula_tree.specs.View.{tree_of, trees_in};

use crate::Function;
use fixed_value::Fixed;
use grid_address::Ref;
use lics_text::{Memory, Text};
use std::alloc::Global;

/// An operator between two operands.
#[derive(Clone, Copy, PartialEq, Eq)]
pub enum Op {
    Pow,
    Mul,
    Div,
    Add,
    Sub,
    Eq,
    Ne,
    Lt,
    Gt,
    Le,
    Ge,
    And,
    Or,
    Join,
}

/// A tree. A group is what stands in brackets.
#[derive(Drop)]
#[cycle(tree)]
pub enum Expr {
    Num(Fixed),
    Str(Text),
    Cell(Ref),
    Span(Ref, Ref),
    Group(Box<Expr>),
    Neg(Box<Expr>),
    Not(Box<Expr>),
    Binary(Op, Box<Expr>, Box<Expr>),
    Call(Function, ExprList),
}

/// A list of trees.
#[derive(Drop)]
#[cycle(tree)]
pub struct ExprList {
    pub(crate) items: Vec<Expr>,
}

impl ExprList {
    /// The empty list.
    pub fn new(alloc: Global) -> ExprList
        ensures { trees_in result ≡ [] }
    {
        ExprList {
            items: Vec::new(alloc),
        }
    }

    /// Adds a tree at the end. The list is unchanged where there is no room, and the tree is dropped.
    pub fn push(&mut self, item: Expr) -> Result<(), Memory>
        ensures ok { OnOk result (trees_in self.new ≡ trees_in self.old ++ tree_of item ∷ []) }
        ensures err { OnErr result (trees_in self.new ≡ trees_in self.old) }
    {
        self.items.push(item)?;
        Ok(())
    }

    /// The trees.
    pub fn items(&self) -> &[Expr]
        ensures { result.now ≡ self.now.items.items }
    {
        self.items.as_slice()
    }
}
