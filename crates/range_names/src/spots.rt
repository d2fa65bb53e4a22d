// The names that can be written for their spans, by these spans.
ghost use Rattle.std.specs.Prelude.{◌≡◌, ◌&&◌, ℕ, true, false, cond, take, List, Some, None, OnOk, OnErr, IfOk, IfSome, IfNone};
ghost use Rattle.std.specs.Ordering.{eq_by_cmp};
ghost use Rattle.range_names.specs.Names.{is_plain, name_cmp, name_in, same_extent};
ghost use Rattle.range_names.specs.inner.Spots.{is_left, kept_at, spot_of, HasNoneAt, IsFirstAt};

use crate::key::name_in;
use crate::words::is_plain;
use grid_address::Span;
use lics_text::Memory;
use std::collections::BTreeMap;

// How many numbers a span's corners are.
const CORNERS: usize = 4;

// The spot of a name with its span.
pub fn spot_of(span: Span, key: &[u8; 15]) -> [u16; 19]
    ensures { result ≡ spot_of span key.now }
{
    let mut spot = [0; 19];
    spot[0] = span.first.row;
    spot[1] = u16::from(span.first.col);
    spot[2] = span.last.row;
    spot[3] = u16::from(span.last.col);
    for at in 0..15 {
        spot[CORNERS + at] = u16::from(key[at]);
    }
    spot
}

// Keeps a name that can be written for its span; another one isn't kept.
pub fn put_spot(
    spots: &mut BTreeMap<[u16; 19], [u8; 15]>,
    span: Span,
    key: [u8; 15],
) -> Result<(), Memory>
    ensures ok { OnOk result ((q : List ℕ) → kept_at spots.new.entries q
        ≡ cond (is_plain (name_in key) && eq_by_cmp name_cmp (spot_of span key) q) (Some key)
        (kept_at spots.old.entries q)) }
    ensures err { OnErr result ((q : List ℕ) → kept_at spots.new.entries q ≡ kept_at spots.old.entries q) }
{
    if !is_plain(name_in(&key)) {
        return Ok(());
    }
    match spots.insert(spot_of(span, &key), key) {
        Ok(_) => Ok(()),
        Err(_) => Err(Memory),
    }
}

// Takes a name away.
pub fn take_spot(spots: &mut BTreeMap<[u16; 19], [u8; 15]>, span: Span, key: [u8; 15])
    ensures { (q : List ℕ) → kept_at spots.new.entries q
        ≡ cond (eq_by_cmp name_cmp (spot_of span key) q) None (kept_at spots.old.entries q) }
{
    let _ = spots.remove(&spot_of(span, &key));
}

// Whether two spans have the same corners.
fn is_same(a: &Span, b: Span) -> bool
    ensures { result ≡ same_extent a.now b }
{
    *a == b
}

// Takes a name away from the span that it had, where it has another one now.
pub fn take_other(
    spots: &mut BTreeMap<[u16; 19], [u8; 15]>,
    before: Option<Span>,
    span: Span,
    key: [u8; 15],
)
    ensures { (q : List ℕ) → kept_at spots.new.entries q
        ≡ cond (is_left before span key q) None (kept_at spots.old.entries q) }
{
    match before {
        Some(old) if !is_same(&old, span) => take_spot(spots, old, key),
        _ => (),
    }
}

// Whether two spots are of one span.
fn is_beside(spot: &[u16; 19], other: [u16; 19]) -> bool
    ensures same { result ≡ true → take 4 spot.now ≡ take 4 other }
    ensures apart { result ≡ false → take 4 spot.now ≡ take 4 other → ⊥ }
{
    spot[0] == other[0] && spot[1] == other[1] && spot[2] == other[2] && spot[3] == other[3]
}

// The key of the first name from a spot on, where it has the span of the spot.
pub fn first_at(spots: &BTreeMap<[u16; 19], [u8; 15]>, from: [u16; 19]) -> Option<&[u8; 15]>
    ensures some { IfSome result (λ key. IsFirstAt spots.now.entries from key.now) }
    ensures none { IfNone result (HasNoneAt spots.now.entries from) }
{
    match spots.range(from..).next() {
        Some((spot, key)) if is_beside(spot, from) => Some(key),
        _ => None,
    }
}

// Equal spots.
pub fn copied_spots(
    spots: &BTreeMap<[u16; 19], [u8; 15]>,
) -> Result<BTreeMap<[u16; 19], [u8; 15]>, Memory>
    ensures { IfOk result (λ copy. copy.entries ≡ spots.now.entries) }
{
    Ok(spots.clone()?)
}
