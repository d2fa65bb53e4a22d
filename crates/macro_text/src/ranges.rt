// Arguments that are places or ranges.
ghost use Rattle.std.specs.Prelude.{◌≡◌, None};
ghost use Rattle.formula_text.specs.Words as words;
ghost use Rattle.macro_text.specs.Ranges as spec;

use grid_address::{Cell, Span, cell_in, span_in};
use range_names::Names;

/// The span of a name, in letters of either case.
pub fn named_span(names: &Names, name: &[u8]) -> Option<Span>
    ensures { result ≡ words.named_span names.now name.now }
{
    names.find(name)
}

// The first cell of a name's span.
fn first_named(names: &Names, name: &[u8]) -> Option<Cell>
    ensures { result ≡ spec.cell_or_first None (words.named_span names.now name.now) }
{
    match named_span(names, name) {
        Some(span) => Some(span.first),
        None => None,
    }
}

/// The cell that an address without `$` spells, or else the first cell of a name. A blank beside either makes it
/// neither.
pub fn place_of(names: &Names, text: &[u8]) -> Option<Cell>
    ensures { result ≡ spec.place_of names.now text.now }
{
    match cell_in(text) {
        Some(cell) => Some(cell),
        None => first_named(names, text),
    }
}

/// The range that an argument is: an address, two of them in any order with one or two dots between, or a name.
pub fn range_of(names: &Names, text: &[u8]) -> Option<Span>
    ensures { result ≡ spec.range_of names.now text.now }
{
    match span_in(text) {
        Some(span) => Some(span),
        None => named_span(names, text),
    }
}
