// A store whose formulas all are dirty.
ghost use Rattle.std.specs.Prelude.{◌≡◌, ◌&&◌, cond, IfOk, OnOk, Some};
ghost use Rattle.std.specs.FinMap as map;
ghost use Rattle.grid_address.specs.Place.{same_place, Place};
ghost use Rattle.cell_maps.specs.Sets.{has};
ghost use Rattle.recalculation.specs.Context.{formula_at, Context};
ghost use Rattle.recalculation.specs.Passes.{IsSound, Meaning};
ghost use Rattle.recalculation.specs.Reading.{is_formula_at, node_of, Matches};
ghost use Rattle.recalculation.specs.inner.Graphs.{with_formula};

use cell_maps::CellSet;
use depend_graph::{Graph, Node, Reads, insert_all};
use formula_tree::{ContentRef, Formula};
use grid_address::{Cell, Span};
use lics_text::Memory;
use sheet_store::Store;

/// Every formula of a store, as a dirty set, whatever their values are.
pub fn all_dirty(store: &Store) -> Result<CellSet, Memory>
    ensures members { IfOk result (λ set. (c : Place) → has same_place set.keys c ≡ is_formula_at store.now c) }
    ensures sound { IfOk result
        (λ set. (mean : Meaning) (x : Context) → IsSound mean x store.now (has same_place set.keys)) }
{
    let cells = store.formulas()?;
    let mut set = CellSet::new(store.alloc());
    insert_all(&mut set, cells.as_slice())?;
    Ok(set)
}

/// What a formula reads in a cell. The list of spans is one in which they may be gathered, whatever stands there.
pub fn formula_node(formula: &Formula, cell: Cell, spans: &mut Vec<Span>) -> Result<Node, Memory>
    ensures { IfOk result (λ node. Some node ≡ node_of (Some formula.now) cell) }
{
    formula.put_reads(cell, spans)?;
    let reads = Reads::of(formula.alloc(), spans.as_slice())?;
    let volatile = formula.is_volatile();
    Ok(Node { reads, volatile })
}

// Puts the formula of a cell into the graph, if the cell holds one. The spans are gathered in a list that is there.
fn add_formula(
    graph: &mut Graph,
    store: &Store,
    cell: Cell,
    spans: &mut Vec<Span>,
) -> Result<(), Memory>
    ensures { OnOk result (graph.new ≡ with_formula (node_of (formula_at store.now cell) cell) graph.old cell) }
{
    let Some(state) = store.get(cell) else {
        return Ok(());
    };
    let ContentRef::Formula(formula) = state.content() else {
        return Ok(());
    };
    let node = formula_node(formula, cell, spans)?;
    graph.set(cell, node)?;
    Ok(())
}

// Puts the formulas of cells into the graph.
fn add_formulas(graph: &mut Graph, store: &Store, cells: &[Cell]) -> Result<(), Memory>
    ensures { OnOk result
        ((c : Place) → map.get graph.new.formulas c
        ≡ cond (has same_place cells.now c && is_formula_at store.now c) (node_of (formula_at store.now c) c)
        (map.get graph.old.formulas c)) }
{
    let mut spans = Vec::new(store.alloc());
    for cell in cells {
        add_formula(graph, store, *cell, &mut spans)?;
    }
    Ok(())
}

/// The graph of a store's formulas.
pub fn graph_of(store: &Store) -> Result<Graph, Memory>
    ensures { IfOk result (λ graph. Matches graph store.now) }
{
    let cells = store.formulas()?;
    let mut graph = Graph::new(store.alloc());
    graph.reserve(cells.len())?;
    add_formulas(&mut graph, store, cells.as_slice())?;
    Ok(graph)
}
