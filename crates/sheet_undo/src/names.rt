// Whether names are the same.
ghost use Rattle.std.specs.Bool.{Decides};
ghost use Rattle.std.specs.Prelude.{◌≡◌, []};
ghost use Rattle.range_names.specs.Names.{same_extent};
ghost use Rattle.sheet_undo.specs.inner.Same.{named, same_name};

use grid_address::Span;
use range_names::Names;
use std::collections::btree_map::Iter;

// Whether two spans are one.
fn is_same_span(one: Span, other: Span) -> bool
    ensures { result ≡ same_extent one other }
{
    one == other
}

// Whether two names with their spans pass the test of being one.
fn pass_as_one(key: &[u8; 15], span: &Span, other: &[u8; 15], place: &Span) -> bool
    ensures { result ≡ same_name key.now span.now other.now place.now }
{
    key.as_slice() == other.as_slice() && is_same_span(*span, *place)
}

// Whether two names with their spans are one.
fn is_same_name(key: &[u8; 15], span: &Span, other: &[u8; 15], place: &Span) -> bool
    ensures { Decides result (named key.now span.now ≡ named other.now place.now) }
{
    pass_as_one(key, span, other, place)
}

// Whether no name is left.
fn is_over(left: &mut Iter<'_, [u8; 15], Span>) -> bool
    ensures { Decides result (left.old ≡ []) }
{
    left.next().is_none()
}

// Whether the names and their spans are the same.
pub fn are_same_names(one: &Names, other: &Names) -> bool
    ensures { Decides result (one.now ≡ other.now) }
{
    let mut right = other.entries();
    for (key, span) in one.entries() {
        let Some(entry) = right.next() else {
            return false;
        };
        if !is_same_name(key, span, entry.0, entry.1) {
            return false;
        }
    }
    is_over(&mut right)
}
