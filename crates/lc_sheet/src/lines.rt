//! The trait of a kind of lines of a sheet, such as rows or files.

ghost use Rattle.std.specs.Prelude.{◌≡◌};
ghost use Rattle.lc_sheet.specs.Values.{ValueModel, value_model};
ghost use Rattle.lc_sheet.specs.declared.column.Column.{Column};
ghost use Rattle.lc_sheet.specs.declared.form.Form.{Form};

use crate::column::Column;
use crate::form::Form;
use crate::value::Value;

/// A kind of lines of a sheet, such as rows or files. It says which value a line of this kind has in each column.
pub trait Lines {
    /// The type of a line of this kind.
    type Line;

    ghost value_in: { Form → Self.Line → Column → ValueModel };

    /// Returns the value of a line in a column.
    fn value<'l>(line: &'l Self::Line, form: Form, column: Column) -> Value<'l>
        ensures { value_model result ≡ value_in form line.now column };
}
