//! The lines of a report's sheet that show sums, such as the total: which value a line of sums has in each column.

ghost use Rattle.std.specs.Prelude.{◌≡◌};
ghost use Rattle.lc_sheet.specs.Values.{value_model};
ghost use Rattle.lc_rows.specs.Kinds.{sums_value};

use crate::shown::number_in;
use crate::values::share_value;
use lc_sheet::{Column, Form, Key, Lines, Value};
use lc_walk::Sums;
use std::marker::Model;

/// Sums, with the name under which they are shown.
#[derive(Drop)]
pub struct NamedSums {
    /// The name, such as `total`.
    pub name: &'static str,
    /// The sums.
    pub sums: Sums,
}

impl Model for NamedSums {
    ghost use Rattle.lc_rows.specs.Kinds.{NamedSumsModel};

    ghost Value = { NamedSumsModel };

    ghost view = { λ s. record { name = s.name.now; sums = s.sums } };
}

/// Says which value a line of sums, such as the total, has in each column of a sheet. The struct is empty: it only implements `Lines` for
/// sums.
#[derive(Drop)]
pub struct Totals {}

impl Lines for Totals {
    type Line = NamedSums;

    ghost value_in = { sums_value };

    fn value<'l>(line: &'l NamedSums, form: Form, column: Column) -> Value<'l> {
        match column {
            Column::Key(key) if form.first == key => Value::Word(line.name),
            Column::Key(_) => Value::Summed,
            Column::Number(number) => Value::Number(number_in(number, line.sums)),
            Column::Share => share_value(form.shares, line.sums),
            _ => Value::Blank,
        }
    }
}
