// How the functions of records are answered: within a criterion by ERR.
ghost use Rattle.std.specs.Prelude.{◌≡◌, IfOk};
ghost use Rattle.formula_parts.specs.Parts.{refused, Database};
ghost use Rattle.formula_parts.specs.Standpoints.{outlook_from};

use crate::argument::Argument;
use crate::look::Look;
use crate::standpoint::Standpoint;
use formula_tree::{Function, Value};
use lics_text::Memory;

/// What answers the functions of records.
pub trait Databases {
    ghost answers: { Database };

    /// The value of a function of records, by its arguments.
    fn value<K: Look>(
        &self,
        from: &Standpoint<'_, K>,
        function: Function,
        arguments: &[Argument],
    ) -> Result<Value, Memory>
        ensures { IfOk result (λ v. v ≡ answers function (outlook_from K.Look from.now) arguments.now) };
}

/// Within a criterion each of them is ERR.
pub struct Refused;

impl Databases for Refused {
    ghost answers = { refused };

    fn value<K: Look>(
        &self,
        _from: &Standpoint<'_, K>,
        _function: Function,
        _arguments: &[Argument],
    ) -> Result<Value, Memory> {
        Ok(Value::Err)
    }
}
