// Lookups of numbers in columns in which what is passed stands above the rest.
ghost use Rattle.std.specs.Prelude.{◌≡◌, ◌<◌, ◌≤◌, IfSome, false, true};
ghost use Rattle.std.specs.Int.RustNames.{int_lt};
ghost use Rattle.std.specs.List.{prefix_len};
ghost use Rattle.grid_address.specs.Place.{height_of, width_of};
ghost use Rattle.formula_tree.specs.Seen.{seen_value};
ghost use Rattle.formula_tree.specs.declared.value.Value.TheVariants as value;
ghost use Rattle.formula_parts.specs.inner.Kept.{IsRising};
ghost use Rattle.formula_parts.specs.Lookups.{by_number, firsts, passes};
ghost use Rattle.formula_parts.specs.Outlook.{Sight};

use crate::look::Look;
use crate::lookups::{cell_at, passes_at};
use fixed_value::Fixed;
use formula_tree::ValueRef;
use grid_address::Span;

// A value that is a number, and no less than another if there is one.
fn number_from(low: Option<Fixed>, found: &ValueRef<'_>) -> Option<Fixed>
    ensures number { IfSome result (λ n. seen_value found.now ≡ value.Num n) }
    ensures above { IfSome result (λ n. IfSome low (λ l. int_lt n l ≡ false)) }
{
    let ValueRef::Num(number) = found else {
        return None;
    };
    match low {
        Some(low) => {
            if number.millionths() < low.millionths() {
                None
            } else {
                Some(*number)
            }
        }
        None => Some(*number),
    }
}

/// Whether the first column of a range holds numbers, none of them less than the one above it.
pub fn rises<K: Look>(span: Span, look: &K) -> bool
    ensures { result ≡ true → IsRising (K.sight look.now).values span }
{
    let mut low = None;
    for row in 0..span.height() {
        match number_from(low, &look.value(cell_at(span, row, 0))) {
            Some(number) => low = Some(number),
            None => return false,
        }
    }
    true
}

// How many rows of a rising column are passed, found by halves.
fn passed_rows<K: Look>(span: Span, x: Fixed, look: &K) -> u16
    requires { IsRising (K.sight look.now).values span }
    ensures passed { let rows = firsts (K.sight look.now).values false span 0 (height_of span) in
        result ≡ prefix_len (passes x) rows }
    ensures within { result ≤ height_of span }
{
    let mut low = 0;
    let mut high = span.height();
    while low < high {
        let middle = low + (high - low) / 2;
        if passes_at(x, look, cell_at(span, middle, 0)) {
            low = middle + 1;
        } else {
            high = middle;
        }
    }
    low
}

/// VLOOKUP of a number in a range whose first column rises; none where the value is no number.
pub fn number_beside<K: Look>(span: Span, place: u16, x: Fixed, look: &K) -> Option<Fixed>
    requires rising { IsRising (K.sight look.now).values span }
    requires place { place < width_of span }
    ensures { IfSome result (λ n. by_number (K.sight look.now).values false span place x ≡ value.Num n) }
{
    let passed = passed_rows(span, x, look);
    if passed == 0 {
        return None;
    }
    match look.value(cell_at(span, passed - 1, place)) {
        ValueRef::Num(number) => Some(number),
        ValueRef::Blank | ValueRef::Str(_) | ValueRef::Err | ValueRef::Na => None,
    }
}
