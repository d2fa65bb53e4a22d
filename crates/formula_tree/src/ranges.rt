// What the leaves of a tree keep by their types. Nothing is done here: the contracts say it of what is seen.
ghost use Rattle.std.specs.Prelude.{◌≡◌, ◌≤◌, true, nat_abs};
ghost use Rattle.lics_text.specs.Bytes.{IsText};
ghost use Rattle.formula_tree.specs.Ranges.{is_ranged, is_reference, is_text};
ghost use Rattle.formula_tree.specs.View.{tree_of};

use crate::Expr;
use fixed_value::Fixed;
use grid_address::Ref;
use lics_text::Text;

// A number lies between -999,999,999.999999 and 999,999,999.999999.
fn number_is_ranged(number: Fixed)
    ensures { nat_abs number ≤ 999999999999999 }
{
    let _ = number.millionths();
}

// A text has at most 240 bytes, and none of them is below a space.
#[tactic(auto, using(crate::proofs::Ranged::as_text))]
fn text_is_ranged(text: &Text)
    ensures { is_text text.now ≡ true }
{
    let _ = text.bytes();
}

/// A reference is in its range.
pub fn reference_is_ranged(reference: Ref)
    ensures { is_reference reference ≡ true }
{
    let _ = reference.col;
}

/// A node is in its ranges.
pub fn is_ranged(expr: &Expr)
    ensures { is_ranged (tree_of expr.now) ≡ true }
{
    match expr {
        Expr::Num(number) => number_is_ranged(*number),
        Expr::Str(text) => text_is_ranged(text),
        Expr::Cell(reference) => reference_is_ranged(*reference),
        Expr::Span(first, last) => {
            reference_is_ranged(*first);
            reference_is_ranged(*last);
        }
        Expr::Group(_) | Expr::Neg(_) | Expr::Not(_) | Expr::Binary(_, _, _) | Expr::Call(_, _) =>
            {}
    }
}
