//! The lines on standard error about reports that can't be read or added up.

ghost use Rattle.std.specs.Prelude.{◌≡◌, ◌++◌, ℕ, List, [], codes, string_bytes, IfOk};
ghost use Rattle.lc_sheet.specs.Keys.{key_name};
ghost use Rattle.lc_program.specs.ReportLines.{IsRefusedFor, IsTold, IsUnreadFor, IsUnsummedFor, MayBeWhy};
ghost use Rattle.lc_program.specs.ReportLines.{no_attribute_text, no_report_text, origin_of};
ghost use Rattle.lc_program.specs.ReportLines.{report_line, sums_text};
ghost use Rattle.lc_program.specs.Reasons.{unexplained_line};

use crate::cause::Cause;
use crate::system::System;
use crate::unlisted::unexplained_line;
use crate::unread_reason::UnreadReason;
use lc_io::WholeFault;
use lc_reading::{NoReport, Part, ReadFault};
use lc_reports::SumFault;
use lc_sheet::{AttributeColumn, Key};
use lc_text::push_visible;
use std::alloc::{AllocError, Global};

/// Returns the name that errors use for a report.
pub(crate) fn origin_of(report: &str) -> &str
    ensures { result.now ≡ origin_of report.now }
{
    if report == "-" {
        "standard input"
    } else {
        report
    }
}

/// Makes the line that says what is wrong with a report, or with a path that several reports have.
fn report_line(alloc: Global, name: &[u8], why: &str) -> Result<String, AllocError>
    ensures { IfOk result (λ line. string_bytes line ≡ report_line name.now why.now) }
{
    let mut line = String::from_str(alloc, "lc: ")?;
    push_visible(&mut line, name)?;
    line.push_str(" ")?;
    line.push_str(why)?;
    line.push_str("\n")?;
    Ok(line)
}

/// Makes the cause with this line, if there was memory for the line.
pub(crate) fn cause_with(line: Result<String, AllocError>) -> Cause
    ensures { (text : List ℕ) → IfOk line (λ made. string_bytes made ≡ text) → IsTold text result }
{
    match line {
        Ok(line) => Cause::InReport(line),
        Err(AllocError) => Cause::Memory,
    }
}

/// Makes the cause whose line says what is wrong with a report, or with a path that several reports have.
fn report_cause(alloc: Global, name: &[u8], why: &str) -> Cause
    ensures { IsTold (report_line name.now why.now) result }
{
    cause_with(report_line(alloc, name, why))
}

/// Like `report_cause`, if there was memory for the text that says what is wrong.
fn cause_by(alloc: Global, name: &[u8], why: Result<String, AllocError>) -> Cause
    ensures { (text : List ℕ) → IfOk why (λ made. string_bytes made ≡ text) → IsTold (report_line name.now text) result }
{
    match why {
        Ok(why) => report_cause(alloc, name, &why),
        Err(AllocError) => Cause::Memory,
    }
}

/// Returns why a report could not be read, or `None` if the system gives no reason or the report is standard input.
fn reason_for<Y: System>(alloc: Global, system: &Y, report: &str) -> Option<UnreadReason>
    ensures { MayBeWhy (Y.unreads system.now) report.now result }
{
    if report == "-" {
        return None;
    }
    system.why_unread(alloc, report)
}

/// Makes the cause whose line says that a report, or a directory of a comparison, could not be read, and why if there is a reason.
pub(crate) fn unread_cause(alloc: Global, name: &str, reason: Option<UnreadReason>) -> Cause
    ensures { IsTold (unexplained_line name.now reason) result }
{
    cause_with(unexplained_line(alloc, name, reason))
}

/// Makes the cause that says why the text of a report could not be read.
pub(crate) fn cause_of_text<Y: System>(
    alloc: Global,
    system: &Y,
    report: &str,
    fault: WholeFault,
) -> Cause
    ensures { IsUnreadFor (Y.unreads system.now) report.now fault result }
{
    match fault {
        WholeFault::Read => {
            let reason = reason_for(alloc, system, report);
            unread_cause(alloc, origin_of(report), reason)
        }
        WholeFault::TooLong => report_cause(alloc, origin_of(report).as_bytes(), "too long"),
        WholeFault::Memory => Cause::Memory,
    }
}

/// Makes the text that says why a file or the input is no report, such as `no JSON object at byte 0`. The columns of the attributes that
/// are asked for are `attributes`.
fn no_report_text(
    alloc: Global,
    attributes: &[AttributeColumn],
    why: NoReport,
) -> Result<String, AllocError>
    ensures { IfOk result (λ text. string_bytes text ≡ no_report_text attributes.now why) }
{
    match why {
        NoReport::Empty => String::from_str(alloc, "it is empty"),
        NoReport::NoObject(at) => format!(in alloc; "no JSON object at byte {at}"),
        NoReport::Missing(name) => format!(in alloc; "no member {name}"),
        NoReport::Twice(name) => format!(in alloc; "{name} twice"),
        NoReport::Bad(name) => format!(in alloc; "bad {name}"),
        NoReport::AttributeTwice(place) => {
            let name = Key::Attribute(place).name(attributes);
            format!(in alloc; "{name} twice")
        }
        NoReport::BadAttribute(place) => {
            let name = Key::Attribute(place).name(attributes);
            format!(in alloc; "bad {name}")
        }
    }
}

/// Returns the text that says which part of a report does not add up to its total. The text follows the name of the report.
fn sums_text(part: Part) -> &'static str
    ensures { result.now ≡ sums_text part }
{
    match part {
        Part::Rows => "is no report: its rows do not add up to its total",
        Part::Files => "is no report: its files do not add up to its total",
        Part::TextAndBinary => "is no report: its text and binary do not add up to its total",
    }
}

/// Makes the text that says why a file or the input is no report. The text follows the name of the file or the input.
fn refusal_text(
    alloc: Global,
    attributes: &[AttributeColumn],
    why: NoReport,
) -> Result<String, AllocError>
    ensures { IfOk result (λ text. string_bytes text ≡ codes "is no report: " ++ no_report_text attributes.now why) }
{
    let why = no_report_text(alloc, attributes, why)?;
    format!(in alloc; "is no report: {why}")
}

/// Makes the text that says that a report has no states of an attribute. The text follows the name of the report.
fn no_attribute_text(alloc: Global, name: &str) -> Result<String, AllocError>
    ensures { IfOk result (λ text. string_bytes text ≡ no_attribute_text name.now) }
{
    let mut text = String::from_str(alloc, "has no column ")?;
    text.push_str(name)?;
    text.push_str(": count with --files --by ")?;
    text.push_str(name)?;
    Ok(text)
}

/// Makes the cause that says why the text of a report is refused. `name` is the name that errors use for the report. The columns of the
/// attributes that are asked for are `attributes`.
pub(crate) fn cause_of_refusal(
    alloc: Global,
    attributes: &[AttributeColumn],
    name: &[u8],
    fault: ReadFault,
) -> Cause
    ensures { IsRefusedFor attributes.now name.now fault result }
{
    match fault {
        ReadFault::Memory => Cause::Memory,
        ReadFault::NoReport(why) => cause_by(alloc, name, refusal_text(alloc, attributes, why)),
        ReadFault::CutByTop => report_cause(alloc, name, "was cut by --top"),
        ReadFault::DoNotAddUp(part) => report_cause(alloc, name, sums_text(part)),
        ReadFault::NoAttribute(place) => {
            let attribute = Key::Attribute(place).name(attributes);
            cause_by(alloc, name, no_attribute_text(alloc, attribute))
        }
    }
}

/// Makes the text that says that a report lacks a column. The text follows the name of the report.
fn no_column_text(alloc: Global, key: Key) -> Result<String, AllocError>
    ensures { IfOk result (λ text. string_bytes text ≡ codes "has no column " ++ key_name [] key ++ codes ": count with --files") }
{
    let name = key.name(&[]);
    format!(in alloc; "has no column {name}: count with --files")
}

/// Makes the cause that says why reports have no sum.
pub(crate) fn cause_of_sum(alloc: Global, fault: SumFault<'_>) -> Cause
    ensures { IsUnsummedFor fault.entry result }
{
    match fault {
        SumFault::Memory => Cause::Memory,
        SumFault::NoColumn(name, key) => {
            cause_by(alloc, name.as_bytes(), no_column_text(alloc, key))
        }
        SumFault::NoSharedColumn => Cause::NoSharedColumn,
        SumFault::NoFiles(name) => {
            report_cause(alloc, name.as_bytes(), "has no files: count with --files")
        }
        SumFault::NoSkipped(name) => report_cause(
            alloc,
            name.as_bytes(),
            "has no skipped entries: count with --left-out",
        ),
        SumFault::SamePath(path) => report_cause(
            alloc,
            &path,
            "is in two reports: lc sum NAME=REPORT tells them apart",
        ),
        SumFault::TooLarge => Cause::SumsTooLarge,
    }
}
