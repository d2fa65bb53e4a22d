// Trees that are one.
ghost use Rattle.std.specs.Prelude.{◌≡◌, true};
ghost use Rattle.formula_tree.specs.View.{tree_of};

use crate::Expr;

/// Whether it is known that two trees are one. It isn't known of one that has a text or calls a function.
#[cycle(is_known)]
pub fn is_known(one: &Expr, other: &Expr) -> bool
    ensures { result ≡ true → tree_of one.now ≡ tree_of other.now }
{
    match one {
        Expr::Num(number) => match other {
            Expr::Num(value) => number == value,
            _ => false,
        },
        Expr::Cell(place) => match other {
            Expr::Cell(cell) => place == cell,
            _ => false,
        },
        Expr::Span(first, last) => match other {
            Expr::Span(start, end) => first == start && last == end,
            _ => false,
        },
        Expr::Group(inner) => match other {
            Expr::Group(tree) => is_known(inner, tree),
            _ => false,
        },
        Expr::Neg(inner) => match other {
            Expr::Neg(tree) => is_known(inner, tree),
            _ => false,
        },
        Expr::Not(inner) => match other {
            Expr::Not(tree) => is_known(inner, tree),
            _ => false,
        },
        Expr::Binary(op, left, right) => match other {
            Expr::Binary(sign, first, second) => {
                op == sign && is_known(left, first) && is_known(right, second)
            }
            _ => false,
        },
        Expr::Str(_) | Expr::Call(_, _) => false,
    }
}
