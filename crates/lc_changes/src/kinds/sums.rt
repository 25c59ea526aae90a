//! The lines of a comparison's sheet that show sums of both reports: which value a row, or a line such as the total, has in each column.

ghost use Rattle.std.specs.Prelude.{◌≡◌};
ghost use Rattle.lc_changes.specs.ChangeValues.{changed_sums_value, changed_value, compared_value};
ghost use Rattle.lc_sheet.specs.Values.{value_model};

use crate::changed_row::ChangedRow;
use lc_rows::{NamedSums, Rows, Totals, number_in};
use lc_sheet::{Column, Compared, Form, Lines, Value};
use lc_walk::Sums;
use std::marker::PhantomData;

/// Sums of both reports, with the name under which they are shown.
#[derive(Drop)]
pub struct ChangedSums {
    /// The name, and the sums of the new report.
    pub new_sums: NamedSums,
    /// The sums of the old report.
    pub old_sums: Sums,
}

/// Returns the value of sums of both reports in a column that shows their numbers, or else the value `other`.
fn compared_value(old: Sums, new: Sums, column: Column, other: Value<'_>) -> Value<'_>
    ensures { value_model result ≡ compared_value old new column (value_model other.entry) }
{
    match column {
        Column::Old(Compared::Number(number)) => Value::Number(number_in(number, old)),
        Column::New(Compared::Number(number)) => Value::Number(number_in(number, new)),
        Column::Difference(number) => Value::Difference {
            old: number_in(number, old),
            new: number_in(number, new),
        },
        Column::Growth(number) => Value::Growth {
            old: number_in(number, old),
            new: number_in(number, new),
        },
        _ => other,
    }
}

/// Says which value a row of a comparison has in each column of a sheet. The struct holds no data: it only implements `Lines` for rows with
/// the sums of two reports.
#[derive(Drop)]
pub struct Changes<'a> {
    rows: PhantomData<&'a ()>,
}

impl<'a> Lines for Changes<'a> {
    type Line = ChangedRow<'a>;

    ghost value_in = { changed_value };

    fn value<'l>(line: &'l ChangedRow<'a>, form: Form, column: Column) -> Value<'l> {
        let row = &line.new_row;
        compared_value(
            line.old_sums,
            row.sums,
            column,
            Rows::value(row, form, column),
        )
    }
}

/// Says which value a line of sums, such as the total, has in each column of a comparison's sheet. The struct is empty: it only implements
/// `Lines` for sums of two reports.
#[derive(Drop)]
pub struct ChangedTotals {}

impl Lines for ChangedTotals {
    type Line = ChangedSums;

    ghost value_in = { changed_sums_value };

    fn value<'l>(line: &'l ChangedSums, form: Form, column: Column) -> Value<'l> {
        let sums = &line.new_sums;
        compared_value(
            line.old_sums,
            sums.sums,
            column,
            Totals::value(sums, form, column),
        )
    }
}
