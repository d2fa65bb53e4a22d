// Lines of fields.
ghost use Rattle.std.specs.Prelude.{◌≡◌, ◌++◌, OnOk, map};
ghost use Rattle.sheet_listing.specs.Lines.{fields, is_empty, line};

use lics_text::Memory;

// Whether all fields are empty.
#[tactic(auto, using(crate::proofs::Fields::empty_field, crate::proofs::Fields::full_field))]
fn are_empty(mut texts: &[&[u8]]) -> bool
    ensures { result ≡ is_empty (fields (map (λ f. f.now) texts.entry.now)) }
{
    while let [first, rest @ ..] = texts {
        if first.len() > 0 {
            return false;
        }
        texts = rest;
    }
    true
}

// Adds the fields behind the first of a line.
#[tactic(auto, using(crate::proofs::Fields::no_field, crate::proofs::Fields::some_field))]
fn put_fields(mut texts: &[&[u8]], into: &mut Vec<u8>) -> Result<(), Memory>
    ensures { OnOk result (into.new.items ≡ into.old.items ++ fields (map (λ f. f.now) texts.entry.now)) }
{
    while let [first, rest @ ..] = texts {
        if are_empty(texts) {
            return Ok(());
        }
        into.extend_from_slice(b"\t")?;
        into.extend_from_slice(first)?;
        texts = rest;
    }
    Ok(())
}

/// Adds a line.
pub fn put_line(first: &[u8], others: &[&[u8]], into: &mut Vec<u8>) -> Result<(), Memory>
    ensures { OnOk result (into.new.items ≡ into.old.items ++ line first.now (map (λ f. f.now) others.now)) }
{
    into.extend_from_slice(first)?;
    put_fields(others, into)?;
    into.extend_from_slice(b"\n")?;
    Ok(())
}
