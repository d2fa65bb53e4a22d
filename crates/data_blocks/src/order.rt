// The order of values in a sort.
ghost use Rattle.std.specs.Prelude.{◌≡◌};
ghost use Rattle.std.specs.Cmp.Lexicographic.{slice_cmp};
ghost use Rattle.std.specs.Ordering.{int_cmp, nat_cmp, ordering_then};
ghost use Rattle.formula_tree.specs.Seen.{seen_value};
ghost use Rattle.value_functions.specs.Operators.{order_of_texts};
ghost use Rattle.data_blocks.specs.Sorting.{kind_of, order_in_kind, order_of_values};
ghost use Rattle.lics_text.specs.Seen.{seen_text};

use fixed_value::Fixed;
use formula_tree::ValueRef;
use lics_text::TextRef;
use std::cmp::Ordering;

// The rank of a value's kind in a sort.
fn kind_of(value: &ValueRef<'_>) -> u8
    ensures { result ≡ kind_of (seen_value value.now) }
{
    match value {
        ValueRef::Blank => 0,
        ValueRef::Num(_) => 1,
        ValueRef::Str(_) => 2,
        ValueRef::Na => 3,
        ValueRef::Err => 4,
    }
}

// The order of two numbers.
fn order_of_numbers(a: Fixed, b: Fixed) -> Ordering
    ensures { result ≡ int_cmp a b }
{
    a.millionths().cmp(&b.millionths())
}

// Texts folded, and then by their bytes.
fn order_of_labels(a: TextRef<'_>, b: TextRef<'_>) -> Ordering
    ensures { let s = seen_text a.entry in
        let t = seen_text b.entry in
        result ≡ ordering_then (order_of_texts s t) (slice_cmp nat_cmp s t) }
{
    a.fold_cmp(b).then(a.bytes().cmp(b.bytes()))
}

// The order of two values of one kind: of numbers by size, of labels by their texts, of others none.
fn order_in_kind(a: &ValueRef<'_>, b: &ValueRef<'_>) -> Ordering
    ensures { result ≡ order_in_kind (seen_value a.now) (seen_value b.now) }
{
    match a {
        ValueRef::Num(x) => match b {
            ValueRef::Num(y) => order_of_numbers(*x, *y),
            ValueRef::Blank | ValueRef::Str(_) | ValueRef::Err | ValueRef::Na => Ordering::Equal,
        },
        ValueRef::Str(s) => match b {
            ValueRef::Str(t) => order_of_labels(*s, *t),
            ValueRef::Blank | ValueRef::Num(_) | ValueRef::Err | ValueRef::Na => Ordering::Equal,
        },
        ValueRef::Blank | ValueRef::Err | ValueRef::Na => Ordering::Equal,
    }
}

/// The order of two values in a sort: blanks, then numbers, then texts folded and then by their bytes, then NA, then
/// ERR. (This project's own choice.)
pub fn order_of_values(a: &ValueRef<'_>, b: &ValueRef<'_>) -> Ordering
    ensures { result ≡ order_of_values (seen_value a.now) (seen_value b.now) }
{
    kind_of(a).cmp(&kind_of(b)).then(order_in_kind(a, b))
}
