// The lines on names.
ghost use Rattle.std.specs.Prelude.{◌≡◌, ◌<◌, ◌++◌, ◌∷◌, [], OnOk, OnErr, codes};
ghost use Rattle.sheet_listing.specs.Listed.{corners, name_line, name_lines};
ghost use Rattle.sheet_listing.specs.Lines.{line};
ghost use Rattle.sheet_listing.specs.Waiting.{added, HasFailed, IsFront};

use crate::lines::put_line;
use crate::writing::{WriteFault, write_blocks};
use grid_address::{Span, cell_text};
use lics_text::{ByteList, Memory};
use outside_world::Notes;
use range_names::{Names, name_in};

// The corners of a span.
fn corners(span: Span) -> ByteList<14>
    ensures { result ≡ corners span }
{
    span.first.is_on_sheet();
    span.last.is_on_sheet();
    let first = cell_text(span.first);
    let last = cell_text(span.last);
    let mut text = ByteList::new();
    text.put_all(first.bytes());
    text.put_all(b"..");
    text.put_all(last.bytes());
    text
}

// Adds the line on a name.
fn put_name(name: &[u8], span: Span, into: &mut Vec<u8>) -> Result<(), Memory>
    ensures { OnOk result (into.new.items
        ≡ into.old.items ++ line (codes "name") (name.now ∷ corners span ∷ [])) }
{
    let corners = corners(span);
    put_line(b"name", &[name, corners.bytes()], into)
}

// Adds the line on a name, and writes those that wait where they are a block.
fn list_name<N: Notes>(
    name: &[u8],
    span: Span,
    waiting: &mut Vec<u8>,
    lines: &mut N,
) -> Result<(), WriteFault>
    ensures ok { OnOk result (added (N.written lines.new) waiting.new.items
        ≡ added (N.written lines.old) (waiting.old.items ++ line (codes "name") (name.now ∷ corners span ∷ []))) }
    ensures err { OnErr result (IsFront (N.written lines.new)
        (added (N.written lines.old) (waiting.old.items ++ line (codes "name") (name.now ∷ corners span ∷ [])))) }
    ensures cause { HasFailed (N.faults lines.old) (N.faults lines.new) result }
{
    match put_name(name, span, waiting) {
        Ok(()) => write_blocks(waiting, lines),
        Err(Memory) => Err(WriteFault::Memory),
    }
}

/// Writes the lines on names, in byte order; the last ones may be left waiting.
pub fn list_names<N: Notes>(
    names: &Names,
    waiting: &mut Vec<u8>,
    lines: &mut N,
) -> Result<(), WriteFault>
    ensures ok { OnOk result (added (N.written lines.new) waiting.new.items
        ≡ added (N.written lines.old) (waiting.old.items ++ name_lines names.now)) }
    ensures err { OnErr result (IsFront (N.written lines.new)
        (added (N.written lines.old) (waiting.old.items ++ name_lines names.now))) }
    ensures cause { HasFailed (N.faults lines.old) (N.faults lines.new) result }
{
    for (key, span) in names.entries() {
        list_name(name_in(key), *span, waiting, lines)?;
    }
    Ok(())
}
