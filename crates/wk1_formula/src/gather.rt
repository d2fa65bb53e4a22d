// The arguments of a call, gathered from the stack.
ghost use Rattle.std.specs.Prelude.{List, ◌≡◌, ◌≤◌, ◌<◌, ◌+◌, ◌++◌, ◌∷◌, [], min, IfOk, None, Some, true, length, reverse, take, drop};
ghost use Rattle.formula_tree.specs.Table.{counts_of, takes};
ghost use Rattle.formula_tree.specs.Tree.{call, Tree};
ghost use Rattle.formula_tree.specs.View.{listed};
ghost use Rattle.wk1_formula.specs.inner.Gathered.{IsGathered};
ghost use Rattle.wk1_formula.specs.inner.Items.{AreItems, IsItem};

use crate::item::{Item, deeper, larger};
use formula_tree::{Expr, ExprList, Function, call_size};
use lics_text::Memory;
use std::alloc::Global;

// Arguments, from the left; they are let go where one is too deep.
#[derive(Drop)]
pub struct Gathered {
    exprs: Option<ExprList>,
    depth: u32,
    size: u32,
}

// No arguments.
pub fn nothing(alloc: Global) -> Gathered
    ensures { IsGathered result [] }
{
    Gathered {
        exprs: Some(ExprList::new(alloc)),
        depth: 0,
        size: 0,
    }
}

// One argument more.
fn with(gathered: Gathered, item: Item) -> Result<Gathered, Memory>
    ensures { IfOk result (λ g. (ts : List Tree) (t : Tree)
        → IsGathered gathered ts → IsItem item t → IsGathered g (ts ++ t ∷ [])) }
{
    let depth = gathered.depth.max(item.depth);
    let size = larger(gathered.size, item.size);
    match gathered.exprs {
        Some(mut exprs) => match item.expr {
            Some(expr) => {
                exprs.push(expr)?;
                Ok(Gathered {
                    exprs: Some(exprs),
                    depth,
                    size,
                })
            }
            None => Ok(Gathered {
                exprs: None,
                depth,
                size,
            }),
        },
        None => Ok(Gathered {
            exprs: None,
            depth,
            size,
        }),
    }
}

// The last items of the stack, so many, the last of them first.
pub fn take_last(alloc: Global, stack: &mut Vec<Item>, count: u8) -> Result<Vec<Item>, Memory>
    requires { count ≤ length stack.old.items }
    ensures both { IfOk result (λ args. stack.new.items ++ reverse args.items ≡ stack.old.items) }
    ensures count { IfOk result (λ args. length args.items ≡ count) }
{
    let mut args = Vec::new(alloc);
    for _turn in 0..count {
        match stack.pop() {
            Some(item) => args.push(item)?,
            None => unreachable!(),
        }
    }
    Ok(args)
}

// The arguments of which the last stands first.
pub fn gather(alloc: Global, mut args: Vec<Item>) -> Result<Gathered, Memory>
    ensures { IfOk result (λ g. (ts : List Tree) → AreItems args.items ts → IsGathered g (reverse ts)) }
{
    let mut gathered = nothing(alloc);
    while let Some(item) = args.pop() {
        gathered = with(gathered, item)?;
    }
    Ok(gathered)
}

// The call of a function with what was gathered.
pub fn called(function: Function, gathered: Gathered) -> Item
    ensures { (ts : List Tree) → IsGathered gathered ts → takes (counts_of function) (length ts) ≡ true
        → IsItem result (call function (listed ts)) }
{
    let depth = deeper(gathered.depth);
    let size = larger(gathered.size, call_size(function) as u32);
    match gathered.exprs {
        Some(exprs) => {
            if depth > 256 {
                return Item {
                    expr: None,
                    depth,
                    size,
                    top: 8,
                    edge: 8,
                };
            }
            Item {
                expr: Some(Expr::Call(function, exprs)),
                depth,
                size,
                top: 8,
                edge: 8,
            }
        }
        None => Item {
            expr: None,
            depth,
            size,
            top: 8,
            edge: 8,
        },
    }
}
