// The labels of a span, and their prefixes.
ghost use Rattle.std.specs.Prelude.{◌≡◌, ◌++◌, IfOk, OnOk, flat_map};
ghost use Rattle.std.specs.FinMap as map;
ghost use Rattle.commands_range.specs.Commands.{labelled, labelled_span, relabelled, relabelled_cell};
ghost use Rattle.commands_range.specs.inner.Works.{HasActedOn};

use crate::work::Work;
use command_desk::{CommandEnd, settled, span_at};
use formula_tree::{Content, ContentRef};
use grid_address::{Cell, Span};
use lics_text::{LabelPrefix, Memory};
use session_rooms::Answers;
use sheet_store::{Store, Write, Writes};

// Adds the label that a cell holds, with another prefix.
fn push_relabelled(
    writes: &mut Writes,
    store: &Store,
    prefix: LabelPrefix,
    cell: Cell,
) -> Result<(), Memory>
    ensures { OnOk result (writes.new ≡ writes.old ++ relabelled_cell prefix cell (map.get store.now.cells cell)) }
{
    let Some(state) = store.get(cell) else {
        return Ok(());
    };
    if let ContentRef::Label(_, text) = state.content() {
        let text = text.copy()?;
        writes.push(Write {
            cell,
            content: Content::Label(prefix, text),
            format: None,
        })?;
    }
    Ok(())
}

// Adds the labels that cells hold, with another prefix.
fn push_all_relabelled(
    writes: &mut Writes,
    store: &Store,
    prefix: LabelPrefix,
    cells: &[Cell],
) -> Result<(), Memory>
    ensures { OnOk result (writes.new ≡ writes.old
        ++ flat_map (λ c. relabelled_cell prefix c (map.get store.now.cells c)) cells.now) }
{
    for cell in cells {
        push_relabelled(writes, store, prefix, *cell)?;
    }
    Ok(())
}

// The labels of a span, with another prefix, in row order.
fn relabelled(store: &Store, prefix: LabelPrefix, span: Span) -> Result<Writes, Memory>
    ensures { IfOk result (λ writes. writes ≡ relabelled prefix span store.now) }
{
    let cells = store.cells_in(span)?;
    let mut writes = Writes::new(store.alloc());
    push_all_relabelled(&mut writes, store, prefix, cells.as_slice())?;
    Ok(writes)
}

// The labels of a span alone are written.
fn labelled_span(prefix: LabelPrefix, span: Span, work: &mut Work<'_>) -> Result<CommandEnd, Memory>
    ensures { IfOk result (HasActedOn (labelled_span prefix span) work.old work.new) }
{
    let writes = relabelled(work.sheet.cells(), prefix, span)?;
    let answer = work.sheet.write(&writes);
    settled(answer, work.sheet, work.scene, work.tally)
}

/// Gives the labels of the span that the first answer is another prefix, with the errors of `span_at` and then
/// `Protected`.
pub fn labelled(
    prefix: LabelPrefix,
    answers: &Answers,
    work: &mut Work<'_>,
) -> Result<CommandEnd, Memory>
    ensures { IfOk result (HasActedOn (λ scene s. labelled answers.now scene s prefix) work.old work.new) }
{
    match span_at(work.sheet.names(), answers, 0) {
        Ok(span) => labelled_span(prefix, span, work),
        Err(error) => Ok(CommandEnd::Refused(error)),
    }
}
