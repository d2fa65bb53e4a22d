// Lines as they are written.
ghost use Rattle.std.specs.Prelude.{◌≡◌, ◌≤◌, ◌++◌, length, OnOk, replicate};
ghost use Rattle.lics_text.specs.Ascii as ascii;
ghost use Rattle.print_report.specs.Lines.{empty_lines, line, line_end, trimmed, with_margin};

use lics_text::Memory;
use outside_world::ByteBuffer;

static BLANKS: [u8; 255] = [b' '; 255];

const LINE_END: &[u8] = b"\r\n";

// Adds bytes at the end.
#[tactic(auto, using(crate::proofs::Lining::at_end))]
fn append(out: &mut ByteBuffer, bytes: &[u8]) -> Result<(), Memory>
    ensures { OnOk result (out.new ≡ out.old ++ bytes.now) }
{
    out.put_at(out.len(), bytes)?;
    Ok(())
}

// Adds so many blanks.
#[tactic(auto, using(crate::proofs::Lining::margin_front))]
fn put_blanks(out: &mut ByteBuffer, count: u8) -> Result<(), Memory>
    ensures { OnOk result (out.new ≡ out.old ++ replicate count ascii.space) }
{
    append(out, &BLANKS[..usize::from(count)])
}

// The bytes without the blanks at their end.
fn trimmed(text: &[u8]) -> &[u8]
    ensures { result.now ≡ trimmed text.now }
{
    let mut end = text.len();
    while end > 0 && text[end - 1] == b' ' {
        end -= 1;
    }
    text.split_at(end).0
}

/// Adds an empty line.
pub fn put_line_end(out: &mut ByteBuffer) -> Result<(), Memory>
    ensures { OnOk result (out.new ≡ out.old ++ line_end) }
{
    append(out, LINE_END)
}

// Adds a text behind the blanks of the margin.
#[tactic(auto, using(crate::proofs::Lining::margin_put))]
fn put_text(out: &mut ByteBuffer, left: u8, text: &[u8]) -> Result<(), Memory>
    requires { length text.now ≡ 0 → ⊥ }
    ensures { OnOk result (out.new ≡ out.old ++ with_margin left text.now) }
{
    put_blanks(out, left)?;
    append(out, text)
}

/// Adds a line with the blanks of the margin before it, and an empty one where the text is empty or all blanks.
pub fn put_line(out: &mut ByteBuffer, left: u8, text: &[u8]) -> Result<(), Memory>
    ensures { OnOk result (out.new ≡ out.old ++ line left text.now) }
{
    let text = trimmed(text);
    if text.is_empty() {
        return put_line_end(out);
    }
    put_text(out, left, text)?;
    put_line_end(out)
}

/// Adds so many empty lines.
pub fn put_empty_lines(out: &mut ByteBuffer, count: u8) -> Result<(), Memory>
    ensures { OnOk result (out.new ≡ out.old ++ empty_lines count) }
{
    for _ in 0..count {
        put_line_end(out)?;
    }
    Ok(())
}
