// The walk, with a list in place of a recursion.
ghost use Rattle.std.specs.Prelude.{◌≡◌, ◌<◌, ◌≤◌, [], ◌∷◌, ◌++◌, length, IfOk, OnOk, true, false};
ghost use Rattle.grid_address.specs.Place.{same_place, Place};
ghost use Rattle.indexmap.specs.IndexSet.{insert_key, IsUnique};
ghost use Rattle.natural_order.specs.Machine.{fuel, walked};
ghost use Rattle.natural_order.specs.inner.Stack.{finish, trail, walk_on, Entered};
ghost use Rattle.natural_order.specs.inner.Walkers.{outcome, work_of, IsWalking};
ghost use Rattle.cell_maps.specs.Sets.{has};
ghost use Rattle.natural_order.specs.Walk.{order, walk};

use crate::Precedents;
use grid_address::Cell;
use indexmap::IndexSet;
use lics_text::Memory;
use std::alloc::Global;

// A cell on the path, with the cells that are still to be walked for it.
#[derive(Drop)]
struct Frame {
    cell: Cell,
    reads: Vec<Cell>,
    next: usize,
}

// What is done, and what is on the path.
#[derive(Drop)]
struct Walker {
    done: IndexSet<Cell>,
    circular: bool,
    path: IndexSet<Cell>,
    stack: Vec<Frame>,
}

/// Formulas in the order of their evaluation, and whether one of them was met on its own path.
#[derive(Drop)]
pub struct FormulaOrder {
    pub done: IndexSet<Cell>,
    pub circular: bool,
}

// Whether a cell was visited.
fn is_in(set: &IndexSet<Cell>, cell: Cell) -> bool
    ensures { result ≡ has same_place set.now.keys cell }
{
    set.contains(&cell)
}

// Notes a cell as visited.
fn insert(set: &mut IndexSet<Cell>, cell: Cell) -> Result<(), Memory>
    ensures keys { OnOk result (set.new.keys ≡ insert_key same_place set.old.keys cell) }
    ensures unique { IsUnique same_place set.new }
{
    set.insert(cell)?;
    Ok(())
}

// Puts a frame on the stack.
fn push(stack: &mut Vec<Frame>, frame: Frame) -> Result<(), Memory>
    ensures { OnOk result (stack.new.items ≡ stack.old.items ++ frame ∷ []) }
{
    stack.push(frame)?;
    Ok(())
}

impl Walker {
    // Nothing is done yet.
    fn new(alloc: Global) -> Walker
        ensures done { result.done.keys ≡ [] }
        ensures path { result.path.keys ≡ [] }
        ensures stack { result.stack.items ≡ [] }
        ensures circular { result.circular ≡ false }
    {
        Walker {
            done: IndexSet::new(alloc),
            circular: false,
            path: IndexSet::new(alloc),
            stack: Vec::new(alloc),
        }
    }

    // Puts a cell on the path.
    fn enter<G: Precedents>(&mut self, graph: &G, cell: Cell) -> Result<(), Memory>
        requires { has same_place self.old.path.keys cell ≡ false }
        ensures path { OnOk result (self.new.path.keys ≡ self.old.path.keys ++ cell ∷ []) }
        ensures stack { OnOk result (Entered (G.pre graph.now cell) cell self.old.stack.items self.new.stack.items) }
        ensures done { self.new.done.keys ≡ self.old.done.keys }
        ensures circular { self.new.circular ≡ self.old.circular }
        ensures unique { OnOk result (IsUnique same_place self.new.path) }
    {
        let reads = graph.pre(cell)?;
        insert(&mut self.path, cell)?;
        let frame = Frame {
            cell,
            reads,
            next: 0,
        };
        push(&mut self.stack, frame)?;
        Ok(())
    }

    // Walks one cell: one that is done or on the path at once, and any other by a new frame.
    fn visit<G: Precedents>(&mut self, graph: &G, cell: Cell) -> Result<(), Memory>
        requires known { has same_place (G.all graph.now) cell ≡ true }
        requires on { IsWalking (G.pre graph.now) (G.all graph.now) self.old }
        ensures same { OnOk result
            (outcome (G.pre graph.now) (G.all graph.now) self.new
            ≡ finish (G.pre graph.now) (fuel (G.all graph.now)) [] self.old.stack.items
            (walk_on (G.pre graph.now) (fuel (G.all graph.now)) (trail [] self.old.stack.items)
            (walked self.old.done self.old.circular) cell)) }
        ensures on { OnOk result (IsWalking (G.pre graph.now) (G.all graph.now) self.new) }
        ensures less { OnOk result
            (work_of (G.pre graph.now) (G.all graph.now) self.new
            ≤ work_of (G.pre graph.now) (G.all graph.now) self.old) }
    {
        if is_in(&self.done, cell) {
            return Ok(());
        }
        if is_in(&self.path, cell) {
            self.circular = true;
            return Ok(());
        }
        self.enter(graph, cell)?;
        Ok(())
    }

    // One step: the last frame's next cell is walked, or that frame is closed.
    fn step<G: Precedents>(&mut self, graph: &G) -> Result<(), Memory>
        requires begun { 0 < length self.old.stack.items }
        requires on { IsWalking (G.pre graph.now) (G.all graph.now) self.old }
        ensures same { OnOk result
            (outcome (G.pre graph.now) (G.all graph.now) self.new
            ≡ outcome (G.pre graph.now) (G.all graph.now) self.old) }
        ensures on { OnOk result (IsWalking (G.pre graph.now) (G.all graph.now) self.new) }
        ensures less { OnOk result
            (work_of (G.pre graph.now) (G.all graph.now) self.new
            < work_of (G.pre graph.now) (G.all graph.now) self.old) }
    {
        let Some(mut frame) = self.stack.pop() else {
            return Ok(());
        };
        if frame.next < frame.reads.len() {
            let cell = frame.reads[frame.next];
            frame.next += 1;
            push(&mut self.stack, frame)?;
            self.visit(graph, cell)?;
            Ok(())
        } else {
            let _ = self.path.pop();
            insert(&mut self.done, frame.cell)?;
            Ok(())
        }
    }

    // Walks a cell and all that it reads.
    fn walk<G: Precedents>(&mut self, graph: &G, root: Cell) -> Result<(), Memory>
        requires known { has same_place (G.all graph.now) root ≡ true }
        requires idle { self.old.stack.items ≡ [] }
        requires clear { self.old.path.keys ≡ [] }
        ensures walked { OnOk result (walked self.new.done self.new.circular
            ≡ walk same_place (G.pre graph.now) (fuel (G.all graph.now)) []
            (walked self.old.done self.old.circular) root) }
        ensures idle { OnOk result (self.new.stack.items ≡ []) }
        ensures clear { OnOk result (self.new.path.keys ≡ []) }
    {
        self.visit(graph, root)?;
        'steps: while !self.stack.is_empty() {
            self.step(graph)?;
        }
        Ok(())
    }
}

/// The natural order of the formulas and of all that they read. It uses a list and no recursion, and each read is
/// looked at once.
pub fn order_of<G: Precedents>(
    alloc: Global,
    graph: &G,
    roots: &[Cell],
) -> Result<FormulaOrder, Memory>
    requires known { (c : Place) → has same_place roots.now c ≡ true → has same_place (G.all graph.now) c ≡ true }
    ensures order { IfOk result
        (λ o. walked o.done o.circular ≡ order same_place (G.pre graph.now) (fuel (G.all graph.now)) roots.now) }
    ensures unique { IfOk result (λ o. IsUnique same_place o.done) }
{
    let mut walker = Walker::new(alloc);
    for root in roots {
        walker.walk(graph, *root)?;
    }
    // `len` is called for its clause that no cell is done twice.
    let _len = walker.done.len();
    Ok(FormulaOrder {
        done: walker.done,
        circular: walker.circular,
    })
}
