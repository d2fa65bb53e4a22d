// How deep trees are.
ghost use Rattle.std.specs.Prelude.{◌≡◌, nat_le};
ghost use Rattle.std.specs.List.{list_all};
ghost use Rattle.formula_tree.specs.Shape.{depth};
ghost use Rattle.formula_tree.specs.View.{tree_of};

use crate::Expr;

/// Whether a tree is at most so deep; it recurses no deeper.
#[cycle(depth_within)]
pub fn depth_within(expr: &Expr, limit: u32) -> bool
    ensures { result ≡ nat_le (depth (tree_of expr.now)) limit }
{
    if limit == 0 {
        return false;
    }
    match expr {
        Expr::Num(_) | Expr::Str(_) | Expr::Cell(_) | Expr::Span(_, _) => true,
        Expr::Group(inner) | Expr::Neg(inner) | Expr::Not(inner) => depth_within(inner, limit - 1),
        Expr::Binary(_, left, right) => {
            depth_within(left, limit - 1) && depth_within(right, limit - 1)
        }
        Expr::Call(_, args) => are_within(&args.items, limit - 1),
    }
}

// Whether each argument of a call is at most so deep.
#[cycle(depth_within)]
fn are_within(args: &[Expr], limit: u32) -> bool
    ensures { result ≡ list_all (λ e. nat_le (depth (tree_of e)) limit) args.now }
{
    for arg in args {
        if !depth_within(arg, limit) {
            return false;
        }
    }
    true
}
