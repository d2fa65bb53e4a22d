// Recalculation over the dirty formulas.
ghost use Rattle.std.specs.Prelude.{◌≡◌, ◌+◌, ◌-◌, ◌*◌, ◌≤◌, [], length, Bool, IfOk, OnErr, OnOk, true, false};
ghost use Rattle.std.specs.List.{filter, IsDistinct};
ghost use Rattle.std.specs.List.Sorted.{IsStrictlySortedBy};
ghost use Rattle.grid_address.specs.Place.{place_cmp, same_place, Place};
ghost use Rattle.indexmap.specs.IndexSet.{IsUnique};
ghost use Rattle.cell_maps.specs.Sets.{has};
ghost use Rattle.natural_order.specs.Walk.{IsSplit, Precedes};
ghost use Rattle.sheet_store.specs.Grid.{formulas};
ghost use Rattle.sheet_store.specs.declared.order.Order.TheVariants.{Natural};
ghost use Rattle.recalculation.specs.Context.{seen_context};
ghost use Rattle.recalculation.specs.InOrder.{GoesInOrder};
ghost use Rattle.recalculation.specs.Passes.{pass, passes, raised_by, IsDirtyAfter, IsPlain, IsRight, IsSound, IsWhatStays, SameContents, SameOutside};
ghost use Rattle.recalculation.specs.Reading.{is_formula_at, natural_order, order_in, plain_order, pre, Matches, StaysDirty};

use crate::columns::by_columns;
use crate::context::ContextRef;
use crate::evaluate::{further, pass_over};
use crate::leave::leave;
use crate::reads::{DirtyReads, add_kept};
use cell_maps::CellSet;
use depend_graph::Graph;
use formula_eval::Means;
use grid_address::Cell;
use lics_text::Memory;
use natural_order::{FormulaOrder, order_of};
use sheet_store::{Order, Store};
use std::alloc::Global;

/// Whether a circle is told after a recalculation.
#[derive(Clone, Copy)]
pub struct Circ(pub bool);

// Those of the cells that are in the set.
fn kept(alloc: Global, set: &CellSet, cells: &[Cell]) -> Result<Vec<Cell>, Memory>
    ensures { IfOk result (λ list. list.items ≡ filter (has same_place set.now.keys) cells.now) }
{
    let mut list = Vec::new(alloc);
    add_kept(&mut list, set, cells)?;
    Ok(list)
}

// A list of the same cells that can be sorted.
fn copied(alloc: Global, cells: &[Cell]) -> Result<Vec<Cell>, Memory>
    ensures { IfOk result (λ list. list.items ≡ cells.now) }
{
    let list = cells.to_vec(alloc)?;
    Ok(list)
}

// The cells of a set, in row order.
fn in_row_order(alloc: Global, set: &CellSet) -> Result<Vec<Cell>, Memory>
    ensures ascends { IfOk result (λ list. IsStrictlySortedBy place_cmp list.items) }
    ensures members { IfOk result (λ list. (c : Place) → has same_place list.items c ≡ has same_place set.now.keys c) }
{
    // `len` is called for its clause that no cell is in the set twice.
    let _len = set.len();
    let mut list = copied(alloc, set.as_slice())?;
    list.sort_unstable();
    Ok(list)
}

// The dirty formulas, in row order.
fn dirty_formulas(store: &Store, dirty: &CellSet) -> Result<Vec<Cell>, Memory>
    requires { (c : Place) → has same_place dirty.now.keys c ≡ true → is_formula_at store.now c ≡ true }
    ensures { IfOk result (λ list. list.items ≡ filter (has same_place dirty.now.keys) (formulas store.now)) }
{
    let list = in_row_order(store.alloc(), dirty)?;
    Ok(list)
}

// The dirty formulas by column and then by row, or by row and then by column.
fn plain_dirty(store: &Store, dirty: &CellSet, is_by_column: bool) -> Result<Vec<Cell>, Memory>
    requires { (c : Place) → has same_place dirty.now.keys c ≡ true → is_formula_at store.now c ≡ true }
    ensures list { IfOk result
        (λ l. l.items ≡ filter (has same_place dirty.now.keys) (plain_order is_by_column store.now)) }
    ensures length { IfOk result
        (λ l. length l.items ≡ length (filter (has same_place dirty.now.keys) (formulas store.now))) }
{
    let cells = dirty_formulas(store, dirty)?;
    if !is_by_column {
        return Ok(cells);
    }
    let list = by_columns(store.alloc(), cells.as_slice())?;
    Ok(list)
}

// The natural order of the dirty formulas.
fn dirty_order(store: &Store, graph: &Graph, dirty: &CellSet) -> Result<FormulaOrder, Memory>
    requires matches { Matches graph.now store.now }
    requires split { IsSplit same_place (pre store.now) (has same_place dirty.now.keys) }
    requires only { (c : Place) → has same_place dirty.now.keys c ≡ true → is_formula_at store.now c ≡ true }
    ensures done { IfOk result
        (λ o. o.done.keys ≡ filter (has same_place dirty.now.keys) (natural_order store.now).done) }
    ensures circular { IfOk result (λ o. o.circular ≡ (natural_order store.now).circular) }
    ensures unique { IfOk result (λ o. IsUnique same_place o.done) }
    ensures precedes { IfOk result
        (λ o. Precedes same_place (λ c. filter (has same_place dirty.now.keys) (pre store.now c)) [] o.done.keys) }
    ensures same { IfOk result (λ o. (c : Place) → has same_place o.done.keys c ≡ has same_place dirty.now.keys c) }
{
    let roots = dirty_formulas(store, dirty)?;
    let reads = DirtyReads {
        store,
        graph,
        dirty,
    };
    let order = order_of(store.alloc(), &reads, roots.as_slice())?;
    Ok(order)
}

// The first pass, over the dirty formulas alone, and the order that it went along.
fn first_pass<E: Means>(
    store: &mut Store,
    graph: &Graph,
    dirty: &CellSet,
    context: &ContextRef<'_>,
    tally: &mut E,
) -> Result<FormulaOrder, Memory>
    requires matches { Matches graph.now store.old }
    requires sound { IsSound E.meaning (seen_context context.now) store.old (has same_place dirty.now.keys) }
    ensures values { OnOk result (store.new ≡ pass E.meaning (seen_context context.now)
        (natural_order store.old).done store.old) }
    ensures done { IfOk result
        (λ o. o.done.keys ≡ filter (has same_place dirty.now.keys) (natural_order store.old).done) }
    ensures circular { IfOk result (λ o. o.circular ≡ (natural_order store.old).circular) }
    ensures unique { IfOk result (λ o. IsUnique same_place o.done) }
    ensures precedes { IfOk result
        (λ o. Precedes same_place (λ c. filter (has same_place dirty.now.keys) (pre store.old c)) [] o.done.keys) }
    ensures same { IfOk result (λ o. (c : Place) → has same_place o.done.keys c ≡ has same_place dirty.now.keys c) }
    ensures count { OnOk result (E.count tally.new ≡ raised_by (length dirty.now.keys) (E.count tally.old)) }
    ensures sound { IsSound E.meaning (seen_context context.now) store.new (has same_place dirty.now.keys) }
    ensures contents { SameContents store.old store.new }
    ensures outside { SameOutside (has same_place dirty.now.keys) store.old store.new }
{
    // `len` is called for its clause that no cell is in the set twice.
    let _len = dirty.len();
    let order = dirty_order(store, graph, dirty)?;
    pass_over(store, order.done.as_slice(), context, tally)?;
    Ok(order)
}

// The formulas that stay dirty, and those among the cells, in their order.
fn rest_of(
    store: &Store,
    graph: &Graph,
    order: FormulaOrder,
) -> Result<(CellSet, Vec<Cell>), Memory>
    requires matches { Matches graph.now store.now }
    requires order { Precedes same_place (λ c. filter (has same_place order.done.keys) (pre store.now c)) []
        order.done.keys }
    requires all { (c : Place) → StaysDirty store.now c → has same_place order.done.keys c ≡ true }
    ensures stays { IfOk result (λ r. IsWhatStays store.now (has same_place r.0.keys)) }
    ensures unique { IfOk result (λ r. IsDistinct same_place r.0.keys) }
    ensures cells { IfOk result (λ r. r.1.items ≡ filter (has same_place r.0.keys) order.done.keys) }
{
    let cells = order.done.as_slice();
    let mut rest = CellSet::of(store.alloc(), cells)?;
    leave(store, graph, cells, &mut rest)?;
    let again = kept(store.alloc(), &rest, cells)?;
    // `len` is called for its clause that no cell is in the set twice.
    let _len = rest.len();
    Ok((rest, again))
}

// Whether no formula is dirty.
fn is_clean(dirty: &CellSet) -> bool
    ensures { result ≡ true → dirty.now.keys ≡ [] }
{
    dirty.len() == 0
}

// Recalculation in natural order, where the dirty formulas stand in an order in which each comes after all that it
// reads. Mostly none is dirty behind a write of a cell that no formula reads.
fn recalc_in_order<E: Means>(
    store: &mut Store,
    dirty: &mut CellSet,
    times: u8,
    context: &ContextRef<'_>,
    tally: &mut E,
) -> Result<(), Memory>
    requires sound { IsSound E.meaning (seen_context context.now) store.old (has same_place dirty.old.keys) }
    requires order { GoesInOrder store.old dirty.old.keys }
    requires times { 1 ≤ times }
    ensures values { OnOk result (store.new
        ≡ passes E.meaning (seen_context context.now) times (natural_order store.old).done store.old) }
    ensures circular { (natural_order store.old).circular ≡ false }
    ensures stays { OnOk result (IsWhatStays store.new (has same_place dirty.new.keys)) }
    ensures sound { IsSound E.meaning (seen_context context.now) store.new (has same_place dirty.new.keys) }
    ensures contents { SameContents store.old store.new }
    ensures outside { SameOutside (has same_place dirty.old.keys) store.old store.new }
    ensures err { OnErr result (dirty.new.keys ≡ dirty.old.keys) }
    ensures none { OnOk result (dirty.new.keys ≡ []) }
    ensures count { OnOk result (E.count tally.new ≡ raised_by (length dirty.old.keys) (E.count tally.old)) }
{
    if is_clean(dirty) {
        return Ok(());
    }
    pass_over(store, dirty.as_slice(), context, tally)?;
    dirty.truncate(0);
    Ok(())
}

// Recalculation in natural order: along the dirty formulas where they stand in it, and else found by a walk.
fn recalc_natural<E: Means>(
    store: &mut Store,
    graph: &Graph,
    dirty: &mut CellSet,
    times: u8,
    context: &ContextRef<'_>,
    tally: &mut E,
) -> Result<bool, Memory>
    requires matches { Matches graph.now store.old }
    requires sound { IsSound E.meaning (seen_context context.now) store.old (has same_place dirty.old.keys) }
    requires times { 1 ≤ times }
    ensures values { OnOk result (store.new
        ≡ passes E.meaning (seen_context context.now) times (natural_order store.old).done store.old) }
    ensures circular { IfOk result (λ c. c ≡ (natural_order store.old).circular) }
    ensures stays { OnOk result (IsWhatStays store.new (has same_place dirty.new.keys)) }
    ensures sound { IsSound E.meaning (seen_context context.now) store.new (has same_place dirty.new.keys) }
    ensures contents { SameContents store.old store.new }
    ensures outside { SameOutside (has same_place dirty.old.keys) store.old store.new }
    ensures err { OnErr result (dirty.new.keys ≡ dirty.old.keys) }
    ensures count { OnOk result (E.count tally.new
        ≡ raised_by (length dirty.old.keys + (times - 1) * length dirty.new.keys) (E.count tally.old)) }
{
    let is_in_order = graph.is_in_order(dirty.as_slice())?;
    if is_in_order {
        recalc_in_order(store, dirty, times, context, tally)?;
        return Ok(false);
    }
    let order = first_pass(store, graph, dirty, context, tally)?;
    let circular = order.circular;
    let (rest, again) = rest_of(store, graph, order)?;
    further(store, again.as_slice(), times - 1, context, tally)?;
    *dirty = rest;
    Ok(circular)
}

// Recalculation along the dirty formulas by row and then by column, or by column and then by row.
fn recalc_plain<E: Means>(
    store: &mut Store,
    dirty: &CellSet,
    is_by_column: bool,
    times: u8,
    context: &ContextRef<'_>,
    tally: &mut E,
) -> Result<Circ, Memory>
    requires sound { IsSound E.meaning (seen_context context.now) store.old (has same_place dirty.now.keys) }
    ensures values { OnOk result (store.new ≡ passes E.meaning (seen_context context.now) times
        (plain_order is_by_column store.old) store.old) }
    ensures circular { IfOk result (λ c. c.0 ≡ false) }
    ensures sound { IsSound E.meaning (seen_context context.now) store.new (has same_place dirty.now.keys) }
    ensures contents { SameContents store.old store.new }
    ensures outside { SameOutside (has same_place dirty.now.keys) store.old store.new }
    ensures count { OnOk result (E.count tally.new ≡ raised_by (times * length dirty.now.keys) (E.count tally.old)) }
{
    // `len` is called for its clause that no cell is in the set twice.
    let _len = dirty.len();
    let cells = plain_dirty(store, dirty, is_by_column)?;
    further(store, cells.as_slice(), times, context, tally)?;
    Ok(Circ(false))
}

/// Evaluates the dirty formulas alone, and leaves the values and the circle that passes along all formulas leave, in
/// the order of the settings; no other cell changes. The tally rises by the number of dirty formulas, and for each
/// further pass by that of the formulas which are dirty afterwards. In natural order these are the formulas that are
/// volatile or reach themselves, and those that reach one of them; in another order they are those that were dirty
/// before. Where there is no memory, contents, formats and the dirty formulas are as before, and what held of these
/// still holds.
pub fn recalc<E: Means>(
    store: &mut Store,
    graph: &Graph,
    dirty: &mut CellSet,
    context: &ContextRef<'_>,
    tally: &mut E,
) -> Result<Circ, Memory>
    requires matches { Matches graph.now store.old }
    requires sound { IsSound E.meaning (seen_context context.now) store.old (has same_place dirty.old.keys) }
    ensures values { let settings = context.now.settings.now in
        OnOk result (store.new ≡ passes E.meaning (seen_context context.now) settings.passes
        (order_in settings.order store.old).done store.old) }
    ensures circular { IfOk result (λ c. c.0 ≡ (order_in context.now.settings.now.order store.old).circular) }
    ensures dirty { let order = context.now.settings.now.order in
        OnOk result (IsDirtyAfter order store.new (has same_place dirty.old.keys) (has same_place dirty.new.keys)) }
    ensures sound { IsSound E.meaning (seen_context context.now) store.new (has same_place dirty.new.keys) }
    ensures contents { SameContents store.old store.new }
    ensures outside { SameOutside (has same_place dirty.old.keys) store.old store.new }
    ensures matches { Matches graph.now store.new }
    ensures err { OnErr result (dirty.new.keys ≡ dirty.old.keys) }
    ensures count { let further = context.now.settings.now.passes - 1 in
        OnOk result (E.count tally.new ≡ raised_by (length dirty.old.keys + further * length dirty.new.keys)
        (E.count tally.old)) }
    ensures right { OnOk result (context.now.settings.now.order ≡ Natural → IsPlain store.old →
        IsRight E.meaning (seen_context context.now) store.new) }
{
    let settings = context.settings;
    settings.are_within();
    let passes = settings.passes;
    match settings.order {
        Order::Natural => {
            let circular = recalc_natural(store, graph, dirty, passes, context, tally)?;
            Ok(Circ(circular))
        }
        Order::Columnwise => {
            let circ = recalc_plain(store, dirty, true, passes, context, tally)?;
            Ok(circ)
        }
        Order::Rowwise => {
            let circ = recalc_plain(store, dirty, false, passes, context, tally)?;
            Ok(circ)
        }
    }
}
