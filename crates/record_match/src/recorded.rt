// How the functions of records are answered by the records.
ghost use Rattle.record_match.specs.Databases.{database_value};

use crate::records::database_value;
use formula_parts::{Argument, Databases, Look, Standpoint};
use formula_tree::{Function, Value};
use lics_text::Memory;

/// The records answer them.
pub struct Recorded;

impl Databases for Recorded {
    ghost answers = { database_value };

    fn value<K: Look>(
        &self,
        from: &Standpoint<'_, K>,
        function: Function,
        arguments: &[Argument],
    ) -> Result<Value, Memory> {
        database_value(from, function, arguments)
    }
}
