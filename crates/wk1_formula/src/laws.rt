// What is written is read.
ghost use Rattle.std.specs.Prelude.{length, ◌≡◌, true, Ok};
ghost use Rattle.grid_address.specs.Place.{InSheet, Place};
ghost use Rattle.formula_tree.specs.Ranges.{is_ranged};
ghost use Rattle.formula_tree.specs.Shape.{code_size, every, IsFormula};
ghost use Rattle.formula_tree.specs.Tree.{Tree};
ghost use Rattle.wk1_formula.specs.Stack.{tree_in};
ghost use Rattle.wk1_formula.specs.Written.{code_of};

/// The code that is written of a formula in any cell is read as that formula. Nothing is done here: the contract says
/// it.
pub fn code_is_read()
    ensures { (t : Tree) (at : Place) → IsFormula t → every is_ranged t ≡ true → InSheet at
        → tree_in (code_of t at) ≡ Ok t }
{}

/// The code of a tree has as many bytes as are counted of it. Nothing is done here: the contract says it.
pub fn code_has_its_size()
    ensures { (t : Tree) (at : Place) → length (code_of t at) ≡ code_size t }
{}
