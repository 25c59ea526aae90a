//! The lines of a report's sheet that show skipped entries: which value a skipped entry has in each column.

ghost use Rattle.std.specs.Prelude.{◌≡◌};
ghost use Rattle.lc_sheet.specs.Values.{value_model};
ghost use Rattle.lc_rows.specs.Kinds.{place_value, rule_file_value, rule_name};
ghost use Rattle.lc_rows.specs.Kinds.{skipped_value};

use crate::values::bytes_value;
use crate::words::{kind_word, skipped_end};
use lc_rules::RuleSource;
use lc_sheet::{Column, Form, Lines, Value};
use lc_text::{Name, source_directory, source_name};
use lc_walk::SkippedLine;

/// Says which value a skipped entry has in each column of a sheet. The struct is empty: it only implements `Lines` for skipped entries.
#[derive(Drop)]
pub struct Skipped {}

/// Makes a value that shows the path of a rule's file, and the line number if there is one.
fn rule_name(path: &[u8], source: RuleSource, line: Option<u32>) -> Value<'_>
    ensures { value_model result ≡ rule_name path.entry.now source line }
{
    Value::Name(Name {
        front: "",
        bytes: source_directory(path, source),
        end: source_name(source),
        line,
    })
}

fn place_value(line: &SkippedLine) -> Value<'_>
    ensures { value_model result ≡ place_value line.entry.now.path line.entry.now.reason }
{
    if let Some((source, number)) = line.reason.rule() {
        return rule_name(&line.path, source, Some(number));
    }
    match line.reason.attribute() {
        Some(name) => bytes_value(name),
        None => Value::Missing,
    }
}

fn rule_file_value(line: &SkippedLine) -> Value<'_>
    ensures { value_model result ≡ rule_file_value line.entry.now.path line.entry.now.reason }
{
    match line.reason.rule() {
        Some((source, _)) => rule_name(&line.path, source, None),
        None => Value::Blank,
    }
}

impl Lines for Skipped {
    type Line = SkippedLine;

    ghost value_in = { skipped_value };

    #[inline(always)]
    fn value<'l>(line: &'l SkippedLine, form: Form, column: Column) -> Value<'l> {
        match column {
            Column::Path => Value::Path(&line.path),
            Column::Kind => Value::Word(kind_word(line.kind)),
            Column::Reason => Value::Word(line.reason.word()),
            Column::Place => place_value(line),
            Column::Entry => Value::Name(Name {
                front: "",
                bytes: &line.path,
                end: skipped_end(line.kind, &line.reason),
                line: None,
            }),
            Column::File => rule_file_value(line),
            Column::Line => match line.reason.rule() {
                Some((_, number)) => Value::Number(u128::from(number)),
                None => Value::Blank,
            },
            Column::Attribute => match line.reason.attribute() {
                Some(name) => bytes_value(name),
                None => Value::Blank,
            },
            _ => Value::Blank,
        }
    }
}
