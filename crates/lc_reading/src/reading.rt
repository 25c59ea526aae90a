//! Reading the reports in a text.

ghost use Rattle.std.specs.Prelude.{◌≡◌, ◌++◌, ◌<◌, true, length, slice_get, Err, IfErr, IfOk, OnOk};
ghost use Rattle.std.specs.List.{list_all};
ghost use Rattle.json.specs.Word.{is_space};
ghost use Rattle.lc_reading.specs.TextFaults.{HasNoObject, first_byte, is_brace};
ghost use Rattle.lc_reading.specs.Texts.{AreReportsOf, IsJson, IsReportText};
ghost use Rattle.lc_reading.specs.declared.read_fault.NoReport.TheVariants as why;
ghost use Rattle.lc_reading.specs.declared.read_fault.ReadFault.TheVariants as fault;

use crate::building::report_of;
use crate::cutter::object_length;
use crate::object::read_object;
use crate::read_fault::{NoReport, ReadFault};
use json::{MAX_DEPTH, Reader, Scratch};
use lc_sheet::AttributeColumn;
use lc_walk::Report;
use std::alloc::Global;
use std::str::from_utf8;

fn is_space(byte: u8) -> bool
    ensures { result ≡ is_space byte }
{
    byte == b' ' || byte == b'\t' || byte == b'\n' || byte == b'\r'
}

fn is_blank(text: &[u8]) -> bool
    ensures { result ≡ list_all is_space text.now }
{
    text.iter().all(|byte| is_space(*byte))
}

/// Returns the error for a text that has no JSON object at the byte with this index.
fn no_object(at: usize) -> ReadFault
    ensures { result ≡ fault.NoReport (why.NoObject at) }
{
    ReadFault::NoReport(NoReport::NoObject(at))
}

/// Checks that a text is one JSON value.
#[tactic(auto, using(crate::proofs::TextsRead::json_is))]
fn check_json(text: &str, start: usize, scratch: &mut Scratch<Global>) -> Result<(), ReadFault>
    ensures { OnOk result (IsJson text.now) }
{
    let mut reader = Reader::new(text, scratch)?;
    if reader.skip_value(MAX_DEPTH).is_err() {
        return Err(no_object(start.saturating_add(reader.offset())));
    }
    match reader.next() {
        None => Ok(()),
        Some(_) => Err(no_object(start.saturating_add(reader.offset()))),
    }
}

/// Reads the report in a JSON text, whose files have the states of `attributes`.
fn report_in(
    alloc: Global,
    text: &str,
    start: usize,
    scratch: &mut Scratch<Global>,
    attributes: &[AttributeColumn],
) -> Result<Report, ReadFault>
    ensures { IfOk result (IsReportText attributes.now text.now) }
{
    check_json(text, start, scratch)?;
    let mut reader = Reader::new(text, scratch)?;
    let object = read_object(alloc, &mut reader, attributes)?;
    if reader.next().is_some() {
        return Err(no_object(start));
    }
    report_of(alloc, object, attributes)
}

/// Returns the index of the first byte that isn't white space.
fn first_byte(text: &[u8]) -> Option<usize>
    ensures { result ≡ first_byte text.now }
{
    text.iter().position(|byte| !is_space(*byte))
}

fn has_brace(text: &[u8], at: usize) -> bool
    ensures { result ≡ is_brace (slice_get text.now at) }
{
    match text.get(at) {
        Some(byte) => *byte == b'{',
        None => false,
    }
}

/// Splits a text after the JSON object at its beginning. `start` is the index of the text's first byte in the input.
fn cut(text: &[u8], start: usize) -> Result<(&str, &[u8]), ReadFault>
    ensures parts { IfOk result (λ parts. text.now ≡ parts.0.now ++ parts.1.now) }
    ensures shorter { IfOk result (λ parts. length parts.1.now < length text.now) }
    ensures refused { IfErr result (HasNoObject text.now start) }
{
    let Some(begin) = first_byte(text) else {
        return Err(no_object(start));
    };
    if !has_brace(text, begin) {
        return Err(no_object(start.saturating_add(begin)));
    }
    let Some(length) = object_length(text) else {
        return Err(no_object(start.saturating_add(text.len())));
    };
    let (object, rest) = text.split_at(length);
    match from_utf8(object) {
        Ok(object) => Ok((object, rest)),
        Err(error) => Err(no_object(start.saturating_add(error.valid_up_to()))),
    }
}

/// Reads the reports in a text. Each report is a JSON object, and there may be white space between the objects.
///
/// The objects are read one after another, and the error is about the first object that is refused. For each object, the function first
/// looks for the error [`ReadFault::NoReport`], then for [`ReadFault::CutByTop`], and last for [`ReadFault::DoNotAddUp`].
///
/// Each file of a report has the states of `attributes`, in their order. The error [`ReadFault::NoAttribute`] is found where a file is read
/// that lacks one of these members, or last for a report that lists no files.
///
/// Besides the reports, the function allocates memory for as many bytes as the longest object has, and for one line of a list, such as a
/// row or a file.
///
/// ```
/// let reports = read_reports(alloc, &text, &[])?;
/// ```
pub fn read_reports(
    alloc: Global,
    text: &[u8],
    attributes: &[AttributeColumn],
) -> Result<Vec<Report>, ReadFault>
    ensures reports { IfOk result (λ reports. AreReportsOf attributes.now text.now reports.items) }
    ensures empty { list_all is_space text.now ≡ true → result ≡ Err (fault.NoReport why.Empty) }
{
    if is_blank(text) {
        return Err(ReadFault::NoReport(NoReport::Empty));
    }
    let mut scratch = Scratch::new(alloc);
    let mut reports = Vec::new(alloc);
    let mut rest = text;
    'texts: while !is_blank(rest) {
        let start = text.len().saturating_sub(rest.len());
        let (object, more) = cut(rest, start)?;
        let report = report_in(alloc, object, start, &mut scratch, attributes)?;
        reports.push(report)?;
        rest = more;
    }
    Ok(reports)
}
