// What is registered of the spans, so that the owners of a cell are found among few.
ghost use Rattle.std.specs.Prelude.{◌≡◌, ◌⊎◌, true, false, OnOk, IfOk};
ghost use Rattle.std.specs.FinMap as map;
ghost use Rattle.grid_address.specs.Place.{place_cmp, same_place, Place};
ghost use Rattle.range_index.specs.Owners.{hold, spans_in};
ghost use Rattle.range_index.specs.inner.Registered.{has_registration, is_registered, registered, registration_cmp, StaysRegistered};
ghost use Rattle.range_index.specs.declared.register.Registration.{Registration};

use crate::block::{Block, Size, block_at, size_of};
use grid_address::{Cell, Span};
use lics_text::Memory;
use std::collections::BTreeSet;

/// An owner of a span that lies in a block.
#[derive(Clone, Copy, PartialEq, Eq, PartialOrd, Ord)]
pub struct Registration {
    pub block: Block,
    pub owner: Cell,
}

// The entry of an owner at the block of a span.
fn place_of(owner: Cell, span: Span) -> Registration
    ensures { result ≡ registered owner span }
{
    Registration {
        block: block_at(size_of(span), span.first),
        owner,
    }
}

/// Registers a span. What was registered stays so, also where there is no memory.
pub fn enter(
    sizes: &mut BTreeSet<Size>,
    registrations: &mut BTreeSet<Registration>,
    owner: Cell,
    span: Span,
) -> Result<(), Memory>
    ensures done { OnOk result (is_registered sizes.new.keys registrations.new.keys owner span ≡ true) }
    ensures kept { StaysRegistered sizes.old.keys registrations.old.keys sizes.new.keys registrations.new.keys }
{
    owner.is_on_sheet();
    let size = size_of(span);
    sizes.insert(size)?;
    registrations.insert(place_of(owner, span))?;
    Ok(())
}

/// Takes an owner's registrations away.
pub fn forget(registrations: &mut BTreeSet<Registration>, owner: Cell, spans: &[Span])
    ensures { (r : Registration) → same_place r.owner owner ≡ false → has_registration registrations.old.keys r ≡ true →
        has_registration registrations.new.keys r ≡ true }
{
    for span in spans {
        let _ = registrations.remove(&place_of(owner, *span));
    }
}
