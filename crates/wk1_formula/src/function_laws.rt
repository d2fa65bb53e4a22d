// Laws of the table. Nothing is done here: the contracts are the laws.
ghost use Rattle.std.specs.Prelude.{◌≡◌, ◌≤◌, ℕ, Some};
ghost use Rattle.formula_tree.specs.declared.function.Function.{Function};
ghost use Rattle.wk1_formula.specs.FunctionCodes.{code_of, function_of};

/// The code of a function is that function's alone, and is one of 31 to 115.
pub fn functions_have_codes()
    ensures alone { (f : Function) → function_of (code_of f) ≡ Some f }
    ensures least { (f : Function) → 31 ≤ code_of f }
    ensures most { (f : Function) → code_of f ≤ 115 }
{}

/// A code that has a function is its code.
pub fn codes_are_of_functions()
    ensures { (code : ℕ) (f : Function) → function_of code ≡ Some f → code_of f ≡ code }
{}
