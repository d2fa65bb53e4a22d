// Answers that are spans.
ghost use Rattle.std.specs.Prelude.{◌≡◌};
ghost use Rattle.range_names.specs.Names.{fault_of};
ghost use Rattle.desk_answers.specs.Readings.{named_span, span_answer};

use desk_errors::CommandError;
use grid_address::{Span, span_in};
use range_names::{Names, fault_of};

// The span of a name that is there.
fn named_span(names: &Names, line: &[u8], place: usize) -> Result<Span, CommandError>
    ensures { result ≡ named_span (fault_of line.now) names.now line.now place }
{
    match fault_of(line) {
        Some(_) => Err(CommandError::InvalidAddress(place)),
        None => match names.find(line) {
            Some(span) => Ok(span),
            None => Err(CommandError::NameNotFound(place)),
        },
    }
}

/// The span that an answer is: an address, two of them in any order with one or two dots between, or a name.
/// `InvalidAddress` comes exactly where it is none of these and can't be a name, and `NameNotFound` where it could be a
/// name and isn't there.
pub fn span_answer(names: &Names, line: &[u8], place: usize) -> Result<Span, CommandError>
    ensures { result ≡ span_answer names.now line.now place }
{
    match span_in(line) {
        Some(span) => Ok(span),
        None => named_span(names, line, place),
    }
}
