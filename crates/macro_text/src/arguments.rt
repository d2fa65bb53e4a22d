// Arguments with the formulas and the cells that they spell.
ghost use Rattle.std.specs.Prelude.{◌≡◌, [], get_or, IfOk, IfSome, Some};
ghost use Rattle.grid_address.specs.Progress.{address_in};
ghost use Rattle.macro_text.specs.Ranges as ranges;
ghost use Rattle.macro_text.specs.Read.{IsRead};
ghost use Rattle.macro_text.specs.inner.Cells.{AreCellsOf};
ghost use Rattle.macro_text.specs.inner.Formulas.{AreReadOf};

use crate::TextList;
use crate::ranges::place_of;
use formula_text::{ParseFault, read};
use formula_tree::Formula;
use grid_address::{Cell, cell_in};
use lics_text::Memory;
use range_names::Names;
use std::alloc::Global;
use std::marker::Model;

// The formula that the text at a place spells in a cell, whatever names there are.
#[derive(Drop)]
pub struct PlacedFormula {
    pub place: usize,
    pub cell: Cell,
    pub formula: Formula,
}

// The cell whose address the text at a place is.
#[derive(Clone, Copy)]
pub struct PlacedCell {
    pub place: usize,
    pub cell: Cell,
}

/// The arguments of a word, with the formulas and the cells that were read of them.
#[derive(Drop)]
pub struct ReadArguments {
    list: TextList,
    formulas: Vec<PlacedFormula>,
    cells: Vec<PlacedCell>,
}

impl Model for ReadArguments {
    ghost use Rattle.std.specs.Prelude.{ℕ, List};
    ghost use Rattle.macro_text.specs.inner.Cells.{AreCellsOf};
    ghost use Rattle.macro_text.specs.inner.Formulas.{AreReadOf};

    ghost Value = { List (List ℕ) };

    ghost view = { λ a. a.list };

    ghost invariant = { λ a. AreReadOf a.list a.formulas.items × AreCellsOf a.list a.cells.items };
}

// The formula that a text spells in a cell, whatever names there are; none where it spells none without names.
fn nameless_formula(alloc: Global, text: &[u8], cell: Cell) -> Result<Option<Formula>, Memory>
    ensures { IfOk result (λ o. IfSome o (λ f. IsRead cell text.now f)) }
{
    let names = Names::new(alloc);
    match read(alloc, text, cell, &names) {
        Ok(formula) => Ok(Some(formula)),
        Err(ParseFault::Memory) => Err(Memory),
        Err(_) => Ok(None),
    }
}

// The formulas that texts spell in a cell, whatever names there are.
fn formulas_in(alloc: Global, list: &TextList, cell: Cell) -> Result<Vec<PlacedFormula>, Memory>
    ensures { IfOk result (λ v. AreReadOf list.now v.items) }
{
    let mut formulas = Vec::new(alloc);
    for place in 0..list.len() {
        if let Some(formula) = nameless_formula(alloc, list.get(place), cell)? {
            formulas.push(PlacedFormula {
                place,
                cell,
                formula,
            })?;
        }
    }
    Ok(formulas)
}

// The cells whose addresses texts are.
fn cells_in(alloc: Global, list: &TextList) -> Result<Vec<PlacedCell>, Memory>
    ensures { IfOk result (λ v. AreCellsOf list.now v.items) }
{
    let mut cells = Vec::new(alloc);
    for place in 0..list.len() {
        if let Some(cell) = cell_in(list.get(place)) {
            cells.push(PlacedCell { place, cell })?;
        }
    }
    Ok(cells)
}

impl ReadArguments {
    /// Reads the formulas and the cells that arguments spell in a cell, as far as no name decides them.
    pub fn of(alloc: Global, list: TextList, cell: Cell) -> Result<ReadArguments, Memory>
        ensures { IfOk result (λ a. a ≡ list) }
    {
        let formulas = formulas_in(alloc, &list, cell)?;
        let cells = cells_in(alloc, &list)?;
        Ok(ReadArguments {
            list,
            formulas,
            cells,
        })
    }

    /// The arguments.
    pub fn list(&self) -> &TextList
        ensures { result.now ≡ self.now }
    {
        &self.list
    }

    /// The formula that the argument at a place spells in a cell whatever names there are, where it was read there.
    pub fn formula(&self, place: usize, cell: Cell) -> Option<&Formula>
        ensures { IfSome result (λ f. IsRead cell (get_or self.now place []) f.now) }
    {
        for kept in &self.formulas {
            if kept.place == place && kept.cell == cell {
                return Some(&kept.formula);
            }
        }
        None
    }

    // The cell whose address the argument at a place is, where it was read.
    fn cell(&self, place: usize) -> Option<Cell>
        ensures { IfSome result (λ c. address_in (get_or self.now place []) ≡ Some c) }
    {
        for kept in &self.cells {
            if kept.place == place {
                return Some(kept.cell);
            }
        }
        None
    }

    /// The cell that the argument at a place is as `place_of` tells it.
    pub fn place(&self, place: usize, names: &Names) -> Option<Cell>
        ensures { result ≡ ranges.place_of names.now (get_or self.now place []) }
    {
        match self.cell(place) {
            Some(cell) => Some(cell),
            None => place_of(names, self.list.get(place)),
        }
    }
}
