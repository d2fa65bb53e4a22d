// Trees on the stack.
ghost use Rattle.std.specs.Prelude.{◌≡◌, ◌≤◌, ◌<◌, ◌+◌, ◌⊎◌, ◌++◌, ◌∷◌, [], min, IfOk, None, Some, true, nat_le, nat_lt, if◌then◌else◌};
ghost use Rattle.std.specs.Option.{ForSome};
ghost use Rattle.formula_tree.specs.Shape.{depth, every, is_fine, level, lowest, nodes_size, top};
ghost use Rattle.formula_tree.specs.Tree.{binary, group, Tree};
ghost use Rattle.formula_tree.specs.View.{tree_of};
ghost use Rattle.wk1_formula.specs.inner.Items.{built, edge_of, fits, IsItem};
ghost use Rattle.wk1_formula.specs.Stack.{front_operand, left_operand, right_operand};

use formula_tree::{Expr, Op, level};
use lics_text::Memory;
use std::alloc::Global;

/// The most that is counted of a depth, one past the deepest tree of a formula.
const MOST_DEPTH: u32 = 257;

/// The most that is counted of a code's bytes, as many as the longest code has.
const MOST_SIZE: u32 = 65_520;

/// A tree on the stack with its depth, the bytes of its code, the level of the operator at its top and the least level
/// on its right edge. A tree that is deeper than a formula's is let go, since no formula needs it and deep trees are
/// costly.
#[derive(Drop)]
pub struct Item {
    pub expr: Option<Expr>,
    pub depth: u32,
    pub size: u32,
    pub top: u8,
    pub edge: u8,
}

/// What stands over one operand.
#[derive(Clone, Copy)]
pub enum One {
    Group,
    Neg,
    Not,
}

// One level more, up to the most.
pub fn deeper(depth: u32) -> u32
    ensures { result ≡ min (depth + 1) 257 }
{
    depth.saturating_add(1).min(MOST_DEPTH)
}

// So many bytes more, up to the most.
pub fn larger(size: u32, more: u32) -> u32
    ensures { result ≡ min (size + more) 65520 }
{
    size.saturating_add(more).min(MOST_SIZE)
}

// A box of a tree that stands at a depth, where it is kept.
fn boxed(alloc: Global, expr: Option<Expr>, depth: u32) -> Result<Option<Box<Expr>>, Memory>
    ensures some { IfOk result (λ o. ForSome o (λ b. expr ≡ Some b.value)) }
    ensures none { IfOk result (λ o. o ≡ None → (expr ≡ None) ⊎ (256 < depth)) }
{
    if depth > 256 {
        return Ok(None);
    }
    match expr {
        Some(expr) => {
            let boxed = Box::new(alloc, expr)?;
            Ok(Some(boxed))
        }
        None => Ok(None),
    }
}

/// The item of a tree of one node, which takes so many bytes.
pub fn leaf(expr: Expr, size: u32) -> Item
    requires shape { (depth (tree_of expr) ≡ 1) × (top (tree_of expr) ≡ 8) × (lowest (tree_of expr) ≡ 8) }
    requires size { (nodes_size (tree_of expr) ≡ size) × (size ≤ 300) }
    requires fine { every is_fine (tree_of expr) ≡ true }
    ensures { IsItem result (tree_of expr) }
{
    Item {
        expr: Some(expr),
        depth: 1,
        size,
        top: 8,
        edge: 8,
    }
}

// A bracket, a minus or a NOT over a tree.
fn build(one: One, inner: Box<Expr>) -> Expr
    ensures { tree_of result ≡ built one (tree_of inner.value) }
{
    match one {
        One::Group => Expr::Group(inner),
        One::Neg => Expr::Neg(inner),
        One::Not => Expr::Not(inner),
    }
}

// The least level on the right edge, with what stands over it.
fn edge_of(one: One, edge: u8) -> u8
    ensures { result ≡ edge_of one edge }
{
    match one {
        One::Group => 8,
        One::Neg => edge.min(6),
        One::Not => edge.min(2),
    }
}

/// Puts a bracket, a minus or a NOT over a tree that fits under it.
pub fn over(alloc: Global, one: One, item: Item) -> Result<Item, Memory>
    ensures { IfOk result (λ i. (t : Tree) → IsItem item t → fits one t ≡ true → IsItem i (built one t)) }
{
    let depth = deeper(item.depth);
    let size = larger(item.size, 1);
    let edge = edge_of(one, item.edge);
    match boxed(alloc, item.expr, depth)? {
        Some(inner) => Ok(Item {
            expr: Some(build(one, inner)),
            depth,
            size,
            top: 8,
            edge,
        }),
        None => Ok(Item {
            expr: None,
            depth,
            size,
            top: 8,
            edge,
        }),
    }
}

// An operand as it stands where it is held, and else with a bracket round it.
fn bracketed(alloc: Global, is_held: bool, item: Item) -> Result<Item, Memory>
    ensures { IfOk result (λ i. (t : Tree) → IsItem item t → IsItem i (if is_held then t else group t)) }
{
    if is_held {
        Ok(item)
    } else {
        over(alloc, One::Group, item)
    }
}

/// Puts a bracket round an operand that a minus or a NOT wouldn't hold.
pub fn front_operand(alloc: Global, item: Item, least: u8) -> Result<Item, Memory>
    ensures { IfOk result (λ i. (t : Tree) → IsItem item t → IsItem i (front_operand least t)) }
{
    bracketed(alloc, least < item.top, item)
}

/// Puts a bracket round a left operand that an operator wouldn't hold.
pub fn left_operand(alloc: Global, op: Op, item: Item) -> Result<Item, Memory>
    ensures { IfOk result (λ i. (t : Tree) → IsItem item t → IsItem i (left_operand op t)) }
{
    bracketed(alloc, level(op) <= item.edge, item)
}

/// Puts a bracket round a right operand that an operator wouldn't hold.
pub fn right_operand(alloc: Global, op: Op, item: Item) -> Result<Item, Memory>
    ensures { IfOk result (λ i. (t : Tree) → IsItem item t → IsItem i (right_operand op t)) }
{
    bracketed(alloc, level(op) < item.top, item)
}

// The tree of an operator between two others that stands at a depth, where it is kept.
fn joined(
    alloc: Global,
    op: Op,
    left: Option<Expr>,
    right: Option<Expr>,
    depth: u32,
) -> Result<Option<Expr>, Memory>
    ensures some { IfOk result (λ o. ForSome o (λ e. (a b : Tree) → ForSome left (λ l. tree_of l ≡ a)
        → ForSome right (λ r. tree_of r ≡ b) → tree_of e ≡ binary op a b)) }
    ensures none { IfOk result (λ o. o ≡ None → ((left ≡ None) ⊎ (right ≡ None)) ⊎ (256 < depth)) }
{
    match boxed(alloc, left, depth)? {
        Some(left) => match boxed(alloc, right, depth)? {
            Some(right) => Ok(Some(Expr::Binary(op, left, right))),
            None => Ok(None),
        },
        None => Ok(None),
    }
}

/// Puts an operator between two trees that fit beside it.
pub fn between(alloc: Global, op: Op, left: Item, right: Item) -> Result<Item, Memory>
    ensures { IfOk result (λ i. (a b : Tree) → IsItem left a → IsItem right b
        → nat_le (level op) (lowest a) ≡ true → nat_lt (level op) (top b) ≡ true → IsItem i (binary op a b)) }
{
    let depth = deeper(left.depth.max(right.depth));
    let size = larger(larger(left.size, right.size), 1);
    let top = level(op);
    let edge = right.edge.min(top);
    let expr = joined(alloc, op, left.expr, right.expr, depth)?;
    Ok(Item {
        expr,
        depth,
        size,
        top,
        edge,
    })
}
