//! The lists of a report, which are read line by line.

ghost use Rattle.std.specs.Prelude.{◌≡◌, ◌<◌, ◌∷◌, ◌++◌, length, IfOk, OnOk};
ghost use Rattle.json.specs.Token.{begin_array};
ghost use Rattle.json.specs.Tree.{json_tokens};
ghost use Rattle.json.specs.Value.{value_view};
ghost use Rattle.lc_reading.specs.Lists.{BeginsWith, IsLineOf, IsListOf};
ghost use Rattle.lc_reading.specs.Members.{members_of};

use crate::fault_lines::fault_line_of;
use crate::file_lines::file_of;
use crate::lines::members_in;
use crate::member_name::MemberName;
use crate::read_fault::{NoReport, ReadFault};
use crate::rows::{ReadRow, row_of};
use crate::skipped_lines::skipped_of;
use json::{Error, Reader, Token, Value};
use lc_level::{FaultLine, FileLine, SkippedLine};
use lc_sheet::AttributeColumn;
use std::alloc::Global;

/// A line of a list in a report: a file, an error, a skipped entry or a row.
pub(crate) trait ListLine: Sized + Drop {
    ghost use Rattle.std.specs.Prelude.{ℕ, List};
    ghost use Rattle.lc_reading.specs.Members.{Member};

    ghost is_of: { List (List ℕ) → List Member → Self → Type 0 };

    /// Reads a line from the members of its JSON object. Only a file has the states of attributes.
    fn of<'a>(
        alloc: Global,
        members: &[(&'a str, Value<'a>)],
        attributes: &[AttributeColumn],
    ) -> Result<Self, ReadFault>
        ensures { IfOk result (λ line. is_of attributes.now (members_of members.now) line) };
}

impl ListLine for FileLine {
    ghost use Rattle.lc_reading.specs.Lines.{IsFileOf};

    ghost is_of = { IsFileOf };

    fn of<'a>(
        alloc: Global,
        members: &[(&'a str, Value<'a>)],
        attributes: &[AttributeColumn],
    ) -> Result<FileLine, ReadFault> {
        file_of(alloc, members, attributes)
    }
}

impl ListLine for FaultLine {
    ghost use Rattle.lc_reading.specs.Lines.{IsFaultOf};

    ghost is_of = { λ _. IsFaultOf };

    fn of<'a>(
        alloc: Global,
        members: &[(&'a str, Value<'a>)],
        _attributes: &[AttributeColumn],
    ) -> Result<FaultLine, ReadFault> {
        fault_line_of(alloc, members)
    }
}

impl ListLine for SkippedLine {
    ghost use Rattle.lc_reading.specs.Lines.{IsSkippedOf};

    ghost is_of = { λ _. IsSkippedOf };

    fn of<'a>(
        alloc: Global,
        members: &[(&'a str, Value<'a>)],
        _attributes: &[AttributeColumn],
    ) -> Result<SkippedLine, ReadFault> {
        skipped_of(alloc, members)
    }
}

impl ListLine for ReadRow {
    ghost use Rattle.lc_reading.specs.Rows.{IsRowOf};

    ghost is_of = { λ _. IsRowOf };

    fn of<'a>(
        alloc: Global,
        members: &[(&'a str, Value<'a>)],
        _attributes: &[AttributeColumn],
    ) -> Result<ReadRow, ReadFault> {
        row_of(alloc, members)
    }
}

/// Returns the error for the value of the member `name`, which is not JSON, or for which an allocation failed.
pub(crate) fn value_fault(error: Error, name: MemberName) -> ReadFault {
    match error {
        Error::OutOfMemory => ReadFault::Memory,
        Error::Invalid | Error::TooLong | Error::DuplicateKey => {
            ReadFault::NoReport(NoReport::Bad(name))
        }
    }
}

/// Reads the whole value of the member `name`.
#[tactic(auto, using(crate::proofs::ListsRead::value_taken))]
pub(crate) fn read_value<'a>(
    alloc: Global,
    reader: &mut Reader<'a>,
    name: MemberName,
) -> Result<Value<'a>, ReadFault>
    ensures tokens { IfOk result (λ value. reader.old ≡ json_tokens (value_view value) ++ reader.new) }
    ensures shorter { OnOk result (length reader.new < length reader.old) }
{
    match Value::read(alloc, reader, 126) {
        Ok(value) => Ok(value),
        Err(error) => Err(value_fault(error, name)),
    }
}

fn line_of<'a, L: ListLine>(
    alloc: Global,
    value: &Value<'a>,
    name: MemberName,
    attributes: &[AttributeColumn],
) -> Result<L, ReadFault>
    ensures { IfOk result (λ line. IsLineOf (L.is_of attributes.now) (value_view value.now) line) }
{
    let members = members_in(value, name)?;
    L::of(alloc, members, attributes)
}

fn read_line<'a, L: ListLine>(
    alloc: Global,
    reader: &mut Reader<'a>,
    name: MemberName,
    attributes: &[AttributeColumn],
) -> Result<L, ReadFault>
    ensures line { IfOk result (λ line. BeginsWith (IsLineOf (L.is_of attributes.now)) reader.old reader.new line) }
    ensures shorter { OnOk result (length reader.new < length reader.old) }
{
    let value = read_value(alloc, reader, name)?;
    line_of(alloc, &value, name, attributes)
}

/// Reads the lines of a list after its opening bracket.
fn read_lines<'a, L: ListLine>(
    alloc: Global,
    reader: &mut Reader<'a>,
    name: MemberName,
    attributes: &[AttributeColumn],
) -> Result<Vec<L>, ReadFault>
    ensures { IfOk result (λ lines. BeginsWith (IsListOf (L.is_of attributes.now)) (begin_array ∷ reader.old) reader.new lines.items) }
{
    let mut lines = Vec::new(alloc);
    'lines: while !reader.take_end_array() {
        let line = read_line(alloc, reader, name, attributes)?;
        lines.push(line)?;
    }
    Ok(lines)
}

/// Reads the list that is the value of the member `name`. Files have the states of `attributes`.
pub(crate) fn read_list<'a, L: ListLine>(
    alloc: Global,
    reader: &mut Reader<'a>,
    name: MemberName,
    attributes: &[AttributeColumn],
) -> Result<Vec<L>, ReadFault>
    ensures { IfOk result (λ lines. BeginsWith (IsListOf (L.is_of attributes.now)) reader.old reader.new lines.items) }
{
    match reader.next() {
        Some(Token::BeginArray) => read_lines(alloc, reader, name, attributes),
        _ => Err(ReadFault::NoReport(NoReport::Bad(name))),
    }
}
