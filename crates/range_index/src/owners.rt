// The spans of each owner.
ghost use Rattle.std.specs.Prelude.{◌≡◌, ◌++◌, ◌∷◌, [], IfOk, OnOk, OnErr};
ghost use Rattle.std.specs.FinMap as map;
ghost use Rattle.grid_address.specs.Place.{place_cmp};
ghost use Rattle.range_index.specs.Owners.{hold, spans_in, with_span};

use grid_address::{Cell, Span, SpanList};
use lics_text::Memory;
use std::alloc::Global;
use std::collections::BTreeMap;

/// Gives an owner one more span. The owners are as before where there is no memory.
pub fn put(
    alloc: Global,
    owners: &mut BTreeMap<Cell, SpanList>,
    owner: Cell,
    span: Span,
) -> Result<(), Memory>
    ensures ok { OnOk result
        (map.from_entries owners.new.entries ≡ with_span (map.from_entries owners.old.entries) owner span) }
    ensures err { OnErr result
        (map.from_entries {R = place_cmp} owners.new.entries ≡ map.from_entries owners.old.entries) }
{
    match owners.get_mut(&owner) {
        Some(spans) => push(spans, span),
        None => {
            let spans = one_span(alloc, span)?;
            owners.insert(owner, spans)?;
            Ok(())
        }
    }
}

// Adds a span.
fn push(spans: &mut SpanList, span: Span) -> Result<(), Memory>
    ensures ok { OnOk result (spans.new ≡ spans.old ++ span ∷ []) }
    ensures err { OnErr result (spans.new ≡ spans.old) }
{
    spans.push(span)?;
    Ok(())
}

// A list of one span.
fn one_span(alloc: Global, span: Span) -> Result<SpanList, Memory>
    ensures { IfOk result (λ l. l ≡ span ∷ []) }
{
    let mut spans = SpanList::new(alloc);
    push(&mut spans, span)?;
    Ok(spans)
}

/// Whether one of an owner's spans holds the cell.
pub fn owns(owners: &BTreeMap<Cell, SpanList>, owner: Cell, cell: Cell) -> bool
    ensures { result ≡ hold (spans_in (map.get (map.from_entries {R = place_cmp} owners.now.entries) owner)) cell }
{
    match owners.get(&owner) {
        Some(spans) => hold(spans.as_slice(), cell),
        None => false,
    }
}

/// Whether one of the spans holds the cell.
pub fn hold(spans: &[Span], cell: Cell) -> bool
    ensures { result ≡ hold spans.now cell }
{
    for span in spans {
        if span.contains(cell) {
            return true;
        }
    }
    false
}
