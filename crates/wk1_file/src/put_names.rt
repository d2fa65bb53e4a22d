// The records of names.
ghost use Rattle.std.specs.Prelude.{◌≡◌, ◌≤◌, ◌<◌, ◌++◌, ◌∷◌, [], OnOk, length, map, replicate};
ghost use Rattle.std.specs.FinMap as finite;
ghost use Rattle.std.specs.List.{AllByRecursion};
ghost use Rattle.grid_address.specs.Place.{InSheet};
ghost use Rattle.range_names.specs.Names.{name_in as name_of_key};
ghost use Rattle.wk1_records.specs.Records.{piece_bytes, pieces_bytes};
ghost use Rattle.wk1_file.specs.Saved.{name_piece, names_pieces};
ghost use Rattle.wk1_file.specs.Said.{IsExtent};

use grid_address::Span;
use lics_text::Memory;
use range_names::{Names, name_in};
use wk1_formula::put;
use wk1_records::{RecordKind, put_piece, put_place};

// Adds so many zeros.
fn put_zeros(count: usize, into: &mut Vec<u8>) -> Result<(), Memory>
    ensures { OnOk result (into.new.items ≡ into.old.items ++ replicate count 0) }
{
    for at in 0..count {
        into.push(0)?;
    }
    Ok(())
}

// Adds the record of a name.
fn put_name(name: &[u8], span: Span, body: &mut Vec<u8>, into: &mut Vec<u8>) -> Result<(), Memory>
    requires { length name.now ≤ 15 }
    ensures { OnOk result (into.new.items ≡ into.old.items ++ piece_bytes (name_piece name.now span)) }
{
    body.clear();
    put(name, body)?;
    put_zeros(16 - name.len(), body)?;
    put_place(span.first, body)?;
    put_place(span.last, body)?;
    put_piece(RecordKind::Name, body.as_slice(), into)
}

// A span's corners are in the sheet and in order. Nothing is done: the contract says what a span keeps.
fn is_extent(span: Span)
    ensures { IsExtent span }
{
    let _row = span.first.row;
    span.first.is_on_sheet();
    span.last.is_on_sheet();
}

/// Adds the records of the names, in byte order.
pub fn put_names(names: &Names, body: &mut Vec<u8>, into: &mut Vec<u8>) -> Result<(), Memory>
    ensures bytes { OnOk result (into.new.items ≡ into.old.items ++ pieces_bytes (names_pieces names.now)) }
    ensures spans { OnOk result (AllByRecursion (λ e. IsExtent e.1) (finite.entries names.now)) }
{
    for (key, span) in names.entries() {
        is_extent(*span);
        put_name(name_in(key), *span, body, into)?;
    }
    Ok(())
}
