//! The lines of a report's sheet that show rows: which value a row has in each column.

ghost use Rattle.std.specs.Prelude.{◌≡◌};
ghost use Rattle.lc_sheet.specs.Values.{value_model};
ghost use Rattle.lc_rows.specs.Kinds.{row_value};

use crate::shown::number_in;
use crate::shown_row::ShownRow;
use crate::values::{bar_value, share_value};
use lc_sheet::{Column, Form, Key, Lines, Value};
use std::marker::PhantomData;

/// Says which value a row of a table has in each column of a sheet. The struct holds no data: it only implements `Lines` for rows.
#[derive(Drop)]
pub struct Rows<'a> {
    rows: PhantomData<&'a ()>,
}

impl<'a> Lines for Rows<'a> {
    type Line = ShownRow<'a>;

    ghost value_in = { row_value };

    #[inline(always)]
    fn value<'l>(line: &'l ShownRow<'a>, form: Form, column: Column) -> Value<'l> {
        match column {
            Column::Key(key) if form.by.has(key) => line.key.value(key),
            Column::Key(_) => Value::Summed,
            Column::Number(number) => Value::Number(number_in(number, line.sums)),
            Column::Share => share_value(form.shares, line.sums),
            Column::Bar => bar_value(form.shares, line.sums),
            _ => Value::Blank,
        }
    }
}
