//! The lines of a report's sheet that show files: which value a file has in each column.

ghost use Rattle.std.specs.Prelude.{◌≡◌};
ghost use Rattle.lc_sheet.specs.Values.{value_model};
ghost use Rattle.lc_rows.specs.Kinds.{file_value, key_value};
ghost use Rattle.lc_rows.specs.ShownRows.{whole_key};

use crate::directories::{directory_at, name_of};
use crate::files::number_of;
use crate::values::{directory_in, extension_value, state_value, text_value};
use lc_sheet::{Column, Form, Key, Lines, Value};
use lc_walk::{FileLine, extension};

/// Says which value a counted file has in each column of a sheet. The struct is empty: it only implements `Lines` for files.
#[derive(Drop)]
pub struct Files {}

/// Returns the value of a file in the column of a key.
fn key_value(file: &FileLine, depth: Option<u32>, key: Key) -> Value<'_>
    ensures { value_model result ≡ key_value key (whole_key depth file.entry.now) }
{
    match key {
        Key::Dir => directory_in(depth.map(|depth| directory_at(depth, &file.path))),
        Key::Attribute(place) => state_value(&file.attributes.asked, place),
        Key::Ext => extension_value(extension(name_of(&file.path))),
        Key::Text => text_value(file.text()),
        Key::Eol => Value::Word(file.count.eol.as_str()),
    }
}

impl Lines for Files {
    type Line = FileLine;

    ghost value_in = { file_value };

    #[inline(always)]
    fn value<'l>(line: &'l FileLine, form: Form, column: Column) -> Value<'l> {
        match column {
            Column::Key(key) => key_value(line, form.by.dir, key),
            Column::Number(number) => Value::Number(u128::from(number_of(number, line))),
            Column::Path => Value::Path(&line.path),
            _ => Value::Blank,
        }
    }
}
