// The names of spans, each with where its span went.
ghost use Rattle.std.specs.Prelude.{◌≡◌, ◌∷◌, [], IfOk, OnOk};
ghost use Rattle.std.specs.List.{cons_option};
ghost use Rattle.range_names.specs.Names.{IsKey};
ghost use Rattle.sheet_shifts.specs.inner.Puts.{put_all};
ghost use Rattle.sheet_shifts.specs.Shifts.{name_after, names_after, IsShift};

use crate::Shift;
use crate::shift::span_after;
use grid_address::Span;
use lics_text::Memory;
use range_names::{Names, name_in};
use std::alloc::Global;

// Gives a span the name of a key.
fn create(key: &[u8; 15], span: Span, into: &mut Names) -> Result<(), Memory>
    requires { IsKey key.now }
    ensures { OnOk result (into.new ≡ put_all into.old ((key.now, span) ∷ [])) }
{
    match into.create(name_in(key), span) {
        Ok(()) => Ok(()),
        Err(_) => Err(Memory),
    }
}

// Gives the name of a key to where its span went, if no corner is lost.
fn put_name(shift: &Shift, key: &[u8; 15], span: Span, into: &mut Names) -> Result<(), Memory>
    requires shift { IsShift shift.now }
    requires key { IsKey key.now }
    ensures { OnOk result (into.new ≡ put_all into.old (cons_option (name_after shift.now (key.now, span)) [])) }
{
    match span_after(shift, span) {
        Some(span) => create(key, span, into),
        None => Ok(()),
    }
}

/// New names: each name with where its span went, its corners in order. A name whose span lost a corner is dropped. The
/// old names are as they were.
pub fn names_after(alloc: Global, names: &Names, shift: &Shift) -> Result<Names, Memory>
    requires { IsShift shift.now }
    ensures { IfOk result (λ after. after ≡ names_after shift.now names.now) }
{
    names.are_keyed();
    let mut after = Names::new(alloc);
    for (key, span) in names.entries() {
        put_name(shift, key, *span, &mut after)?;
    }
    Ok(after)
}
