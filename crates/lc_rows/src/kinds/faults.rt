//! The lines of a report's sheet that show errors: which value an error has in each column.

ghost use Rattle.std.specs.Prelude.{◌≡◌};
ghost use Rattle.lc_sheet.specs.Values.{value_model};
ghost use Rattle.lc_rows.specs.Kinds.{fault_value};

use lc_sheet::{Column, Form, Lines, Value};
use lc_walk::FaultLine;

/// Says which value a line about an error has in each column of a sheet. The struct is empty: it only implements `Lines` for errors.
#[derive(Drop)]
pub struct Faults {}

impl Lines for Faults {
    type Line = FaultLine;

    ghost value_in = { fault_value };

    fn value<'l>(line: &'l FaultLine, form: Form, column: Column) -> Value<'l> {
        match column {
            Column::Fault => Value::Word(line.word.as_str()),
            Column::Site => Value::Path(&line.path),
            _ => Value::Blank,
        }
    }
}
