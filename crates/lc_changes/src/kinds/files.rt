//! The lines of a comparison's sheet that show files: which value a file has in each column.

ghost use Rattle.std.specs.Prelude.{◌≡◌, option_map};
ghost use Rattle.lc_changes.specs.ChangeValues.{file_change_value, value_or};
ghost use Rattle.lc_sheet.specs.Values.{value_model};

use crate::file_change::{FileChange, side_number};
use lc_rows::Files;
use lc_sheet::{Column, Form, Lines, Value};
use lc_walk::FileLine;
use std::marker::PhantomData;

/// Says which value a file of a comparison has in each column of a sheet. The struct holds no data: it only implements `Lines` for files of
/// two reports.
#[derive(Drop)]
pub struct FileChanges<'a> {
    files: PhantomData<&'a ()>,
}

/// Returns the value of a file in a column, or the value `absent` if there is no file.
fn value_or<'l>(
    absent: Value<'l>,
    form: Form,
    file: Option<&'l FileLine>,
    column: Column,
) -> Value<'l>
    ensures { value_model result ≡ value_or (value_model absent.entry) form (option_map (λ f. f.now) file.entry) column }
{
    match file {
        None => absent,
        Some(file) => Files::value(file, form, column),
    }
}

impl<'a> Lines for FileChanges<'a> {
    type Line = FileChange<'a>;

    ghost value_in = { file_change_value };

    fn value<'l>(line: &'l FileChange<'a>, form: Form, column: Column) -> Value<'l> {
        match column {
            Column::Change => Value::Word(line.word()),
            Column::Old(compared) => {
                value_or(Value::Missing, form, line.old_file, compared.column())
            }
            Column::New(compared) => {
                value_or(Value::Missing, form, line.new_file, compared.column())
            }
            Column::Difference(number) => Value::Difference {
                old: side_number(number, line.old_file),
                new: side_number(number, line.new_file),
            },
            Column::Growth(number) => {
                let old = side_number(number, line.old_file);
                let new = side_number(number, line.new_file);
                Value::Growth { old, new }
            }
            _ => value_or(Value::Blank, form, line.either(), column),
        }
    }
}
