// The cells of a row.
ghost use Rattle.std.specs.Prelude.{◌≡◌, ◌≤◌, ◌<◌, IfOk, OnOk};
ghost use Rattle.std.specs.FinMap as map;
ghost use Rattle.formula_tree.specs.Shape.{IsFormula};
ghost use Rattle.formula_tree.specs.Tree.{binary, cell, num};
ghost use Rattle.formula_tree.specs.View.{tree_of};
ghost use Rattle.grid_address.specs.Place.{Place};
ghost use Rattle.sheet_store.specs.Grid.{put_state};
ghost use Rattle.sheet_gen.specs.Rows.{above, chain, formula_state, left, number_state, seed, triple, whole};
ghost use Rattle.sheet_gen.specs.inner.Putting.{with_row};

use fixed_value::Fixed;
use formula_tree::{Expr, Formula, Op, Value};
use grid_address::{Axis, Cell, Format, LAST_ROW, Ref};
use lics_text::Memory;
use sheet_store::{CellState, Store};
use std::alloc::Global;

// A whole number.
fn whole(number: u16) -> Fixed
    ensures { result ≡ whole number }
{
    match Fixed::of(i64::from(number) * 1_000_000) {
        Some(value) => value,
        None => Fixed::ZERO,
    }
}

// The cell at the left.
fn left() -> Expr
    ensures { tree_of result ≡ cell left }
{
    Expr::Cell(Ref {
        col: Axis::Offset(255),
        row: Axis::Offset(0),
    })
}

// The cell above.
fn above() -> Expr
    ensures { tree_of result ≡ cell above }
{
    Expr::Cell(Ref {
        col: Axis::Offset(0),
        row: Axis::Offset(LAST_ROW),
    })
}

// Two trees with an operator between them.
fn binary(alloc: Global, op: Op, left: Expr, right: Expr) -> Result<Expr, Memory>
    ensures { IfOk result (λ e. tree_of e ≡ binary op (tree_of left) (tree_of right)) }
{
    let left = Box::new(alloc, left)?;
    let right = Box::new(alloc, right)?;
    Ok(Expr::Binary(op, left, right))
}

// The tree of a formula in column B.
fn triple(alloc: Global) -> Result<Expr, Memory>
    ensures { IfOk result (λ e. tree_of e ≡ triple) }
{
    binary(alloc, Op::Mul, left(), Expr::Num(whole(3)))
}

// The tree of the formula in column C.
fn chain(alloc: Global, row: u16) -> Result<Expr, Memory>
    ensures { IfOk result (λ e. tree_of e ≡ chain row) }
{
    if row == 0 {
        Ok(left())
    } else {
        binary(alloc, Op::Add, above(), left())
    }
}

// The number in column A.
fn number_state(row: u16) -> CellState
    requires { row ≤ 8000 }
    ensures { result ≡ number_state (seed row) }
{
    let seed = (37 * (u32::from(row) + 1) % 101) as u16;
    CellState::number(whole(seed), Format::DEFAULT)
}

// A formula that wasn't calculated yet. Its tree is a formula's, so only memory can be wanting.
fn formula_state(alloc: Global, expr: Expr) -> Result<CellState, Memory>
    ensures { IfOk result (λ s. s ≡ formula_state (tree_of expr)) }
{
    match Formula::of(alloc, expr) {
        Ok(formula) => CellState::formula(formula, Value::Num(Fixed::ZERO), Format::DEFAULT),
        Err(_) => Err(Memory),
    }
}

// Puts a formula that wasn't calculated yet into a cell of a store.
fn put_formula(alloc: Global, store: &mut Store, cell: Cell, expr: Expr) -> Result<(), Memory>
    ensures { OnOk result (store.new ≡ put_state store.old cell (formula_state (tree_of expr))) }
{
    let state = formula_state(alloc, expr)?;
    store.put(cell, state)
}

/// Puts the three cells of a row into a store.
pub(crate) fn put_row(alloc: Global, store: &mut Store, row: u16) -> Result<(), Memory>
    requires { row < 8000 }
    ensures cells { OnOk result ((p : Place) → map.get store.new.cells p ≡ with_row row p (map.get store.old.cells p)) }
    ensures widths { OnOk result (store.new.widths ≡ store.old.widths) }
    ensures hidden { OnOk result (store.new.hidden ≡ store.old.hidden) }
{
    store.put(Cell { row, col: 0 }, number_state(row))?;
    put_formula(alloc, store, Cell { row, col: 1 }, triple(alloc)?)?;
    put_formula(alloc, store, Cell { row, col: 2 }, chain(alloc, row)?)?;
    Ok(())
}
