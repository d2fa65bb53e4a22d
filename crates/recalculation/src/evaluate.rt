// Evaluation of formulas in the cells of a store.
ghost use Rattle.std.specs.Prelude.{◌≡◌, ◌*◌, Bool, length, IfOk, OnErr, OnOk, true};
ghost use Rattle.grid_address.specs.Place.{same_place, Place};
ghost use Rattle.cell_maps.specs.Sets.{has};
ghost use Rattle.formula_parts.specs.inner.Kept.{IsKept};
ghost use Rattle.sheet_store.specs.Grid.{value_at};
ghost use Rattle.recalculation.specs.Context.{outlook_at, seen_context};
ghost use Rattle.recalculation.specs.Passes.{evaluated, pass, passes, raised_by, IsSound, SameContents, SameOutside};
ghost use Rattle.recalculation.specs.Reading.{is_formula_at};

use crate::View;
use crate::context::ContextRef;
use formula_eval::Means;
use formula_parts::Kept;
use formula_tree::{ContentRef, Formula, Value};
use grid_address::Cell;
use lics_text::Memory;
use sheet_store::Store;

/// Gives a cell the meaning of its formula over the values as they stand. Where there is no memory the store is as it
/// was.
pub fn evaluate_at<E: Means>(
    store: &mut Store,
    cell: Cell,
    context: &ContextRef<'_>,
    tally: &mut E,
) -> Result<(), Memory>
    requires { is_formula_at store.old cell ≡ true }
    ensures value { OnOk result (store.new ≡ evaluated E.meaning (seen_context context.now) store.old cell) }
    ensures err { OnErr result (store.new ≡ store.old) }
    ensures count { OnOk result (E.count tally.new ≡ raised_by 1 (E.count tally.old)) }
{
    let mut kept = store.take_kept();
    evaluate_next(store, cell, context, tally, &mut kept)?;
    store.give_kept(kept);
    Ok(())
}

// The meaning of a formula that isn't found as a number first. What it looks at is put together for it alone.
fn other_value<E: Means>(
    store: &Store,
    formula: &Formula,
    cell: Cell,
    context: &ContextRef<'_>,
    tally: &mut E,
    kept: &mut Kept,
) -> Result<Value, Memory>
    requires { IsKept kept.old (value_at store.now) }
    ensures value { IfOk result
        (λ v. v ≡ E.meaning formula.now cell (outlook_at (seen_context context.now) store.now)) }
    ensures count { OnOk result (E.count tally.new ≡ raised_by 1 (E.count tally.old)) }
    ensures kept { OnOk result (IsKept kept.new (value_at store.now)) }
{
    let view = View {
        store,
        names: context.names,
        settings: context.settings,
    };
    tally.evaluate(formula, cell, &view, context.scene, kept)
}

// The same behind other evaluations, with what they kept of the values as they stand.
#[inline(always)]
fn evaluate_next<E: Means>(
    store: &mut Store,
    cell: Cell,
    context: &ContextRef<'_>,
    tally: &mut E,
    kept: &mut Kept,
) -> Result<(), Memory>
    requires formula { is_formula_at store.old cell ≡ true }
    requires kept { IsKept kept.old (value_at store.old) }
    ensures value { OnOk result (store.new ≡ evaluated E.meaning (seen_context context.now) store.old cell) }
    ensures err { OnErr result (store.new ≡ store.old) }
    ensures count { OnOk result (E.count tally.new ≡ raised_by 1 (E.count tally.old)) }
    ensures kept { OnOk result (IsKept kept.new (value_at store.new)) }
{
    let Some(state) = store.get(cell) else {
        return Ok(());
    };
    let ContentRef::Formula(formula) = state.content() else {
        return Ok(());
    };
    let view = View {
        store,
        names: context.names,
        settings: context.settings,
    };
    if let Some(number) = tally.number(formula, cell, &view) {
        store.set_value(cell, Value::Num(number));
        tally.rise();
        kept.forget(cell);
        return Ok(());
    }
    let value = other_value(store, formula, cell, context, tally, kept)?;
    store.set_value(cell, value);
    kept.forget(cell);
    Ok(())
}

// Gives each of the cells, in turn, the meaning of its formula, with what evaluations before kept of the values.
#[inline(always)]
fn pass_along<E: Means>(
    store: &mut Store,
    cells: &[Cell],
    context: &ContextRef<'_>,
    tally: &mut E,
    kept: &mut Kept,
) -> Result<(), Memory>
    requires formulas { (c : Place) → has same_place cells.now c ≡ true → is_formula_at store.old c ≡ true }
    requires kept { IsKept kept.old (value_at store.old) }
    ensures values { OnOk result (store.new ≡ pass E.meaning (seen_context context.now) cells.now store.old) }
    ensures count { OnOk result (E.count tally.new ≡ raised_by (length cells.now) (E.count tally.old)) }
    ensures sound { (dirty : Place → Bool) → IsSound E.meaning (seen_context context.now) store.old dirty
        → IsSound E.meaning (seen_context context.now) store.new dirty }
    ensures contents { SameContents store.old store.new }
    ensures outside { SameOutside (has same_place cells.now) store.old store.new }
    ensures kept { OnOk result (IsKept kept.new (value_at store.new)) }
{
    for cell in cells {
        evaluate_next(store, *cell, context, tally, kept)?;
    }
    Ok(())
}

// Gives each of the cells, in turn, the meaning of its formula.
pub fn pass_over<E: Means>(
    store: &mut Store,
    cells: &[Cell],
    context: &ContextRef<'_>,
    tally: &mut E,
) -> Result<(), Memory>
    requires { (c : Place) → has same_place cells.now c ≡ true → is_formula_at store.old c ≡ true }
    ensures values { OnOk result (store.new ≡ pass E.meaning (seen_context context.now) cells.now store.old) }
    ensures count { OnOk result (E.count tally.new ≡ raised_by (length cells.now) (E.count tally.old)) }
    ensures sound { (dirty : Place → Bool) → IsSound E.meaning (seen_context context.now) store.old dirty
        → IsSound E.meaning (seen_context context.now) store.new dirty }
    ensures contents { SameContents store.old store.new }
    ensures outside { SameOutside (has same_place cells.now) store.old store.new }
{
    if cells.len() == 0 {
        return Ok(());
    }
    let mut kept = store.take_kept();
    pass_along(store, cells, context, tally, &mut kept)?;
    store.give_kept(kept);
    Ok(())
}

// Goes over the cells as many times as it is told.
pub fn further<E: Means>(
    store: &mut Store,
    cells: &[Cell],
    times: u8,
    context: &ContextRef<'_>,
    tally: &mut E,
) -> Result<(), Memory>
    requires { (c : Place) → has same_place cells.now c ≡ true → is_formula_at store.old c ≡ true }
    ensures values { OnOk result (store.new ≡ passes E.meaning (seen_context context.now) times cells.now store.old) }
    ensures count { OnOk result (E.count tally.new ≡ raised_by (times * length cells.now) (E.count tally.old)) }
    ensures sound { (dirty : Place → Bool) → IsSound E.meaning (seen_context context.now) store.old dirty
        → IsSound E.meaning (seen_context context.now) store.new dirty }
    ensures contents { SameContents store.old store.new }
    ensures outside { SameOutside (has same_place cells.now) store.old store.new }
{
    for _turn in 0..times {
        pass_over(store, cells, context, tally)?;
    }
    Ok(())
}
