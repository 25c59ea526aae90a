//! Reading the reports that the command line names.

ghost use Rattle.std.specs.Prelude.{◌≡◌, ◌⊎◌, map, option_map, IfErr, IfOk, None};
ghost use Rattle.std.specs.List.{AllZip};
ghost use Rattle.lc_arguments.specs.Reports.{report_model};
ghost use Rattle.lc_program.specs.ReportFiles.{AnswersParts, IsBelow, IsPartOf, ReadsParts, Refuses};
ghost use Rattle.lc_program.specs.declared.cause.Cause.TheVariants.{Memory};

use crate::cause::Cause;
use crate::named_texts::named_text;
use crate::report_lines::{cause_of_refusal, cause_of_text, origin_of};
use crate::system::System;
use lc_arguments::NamedReport;
use lc_io::Source;
use lc_reading::read_reports;
use lc_reports::{Part, named};
use lc_sheet::AttributeColumn;
use lc_walk::Report;
use std::alloc::{AllocError, Global};

/// The greatest number of bytes of a file of reports, or of the input.
const MAX_REPORT: u32 = 1_073_741_824;

/// Puts a name in front of a report's paths, as `NAME=REPORT` does. Without a name the report stays as it is.
fn below(alloc: Global, name: Option<&str>, given: Report) -> Result<Report, AllocError>
    ensures { IfOk result (IsBelow (option_map (λ n. n.now) name.entry) given) }
{
    match name {
        Some(name) => named(alloc, name.as_bytes(), given),
        None => Ok(given),
    }
}

/// Makes a part of a sum from one of the reports in a text that the command line names.
fn part_of<'w>(alloc: Global, typed: NamedReport<'w>, given: Report) -> Result<Part<'w>, AllocError>
    ensures { IfOk result (IsPartOf (report_model typed.entry) given) }
{
    let report = below(alloc, typed.name, given)?;
    Ok(Part {
        origin: origin_of(typed.report),
        report,
    })
}

/// Makes the parts of a sum from the reports in a text that the command line names.
fn parts_of<'w>(
    alloc: Global,
    typed: NamedReport<'w>,
    given: Vec<Report>,
) -> Result<Vec<Part<'w>>, AllocError>
    ensures { IfOk result (λ parts. AllZip (IsPartOf (report_model typed.entry)) given.items parts.items) }
{
    let mut parts = Vec::with_capacity(alloc, given.len())?;
    for report in given {
        parts.push(part_of(alloc, typed, report)?)?;
    }
    Ok(parts)
}

/// Reads the reports in one of the texts that the command line names: a file, or the input for `-`. Their files have the states of
/// `attributes`.
fn read_parts<'w, Y: System, S: Source>(
    alloc: Global,
    system: &Y,
    attributes: &[AttributeColumn],
    typed: NamedReport<'w>,
    input: &mut S,
) -> Result<Vec<Part<'w>>, Cause>
    ensures parts { IfOk result (λ parts. ReadsParts S.may_give (Y.holds system.now) attributes.now (report_model typed.entry)
        input.old parts.items input.new) }
    ensures refused { IfErr result (λ cause. Refuses S.may_give (Y.holds system.now) (Y.unreads system.now) attributes.now
        (report_model typed.entry) input.old cause input.new ⊎ (cause ≡ Memory)) }
{
    let text = match named_text(alloc, system, MAX_REPORT, typed.report, input) {
        Ok(text) => text,
        Err(fault) => return Err(cause_of_text(alloc, system, typed.report, fault)),
    };
    let given = match read_reports(alloc, &text, attributes) {
        Ok(given) => given,
        Err(fault) => {
            let name = origin_of(typed.report);
            return Err(cause_of_refusal(alloc, attributes, name.as_bytes(), fault));
        }
    };
    let parts = parts_of(alloc, typed, given)?;
    Ok(parts)
}

/// Reads the reports in the file with this name, or in the input for `-`.
pub(crate) fn read_one<'w, Y: System, S: Source>(
    alloc: Global,
    system: &Y,
    attributes: &[AttributeColumn],
    report: &'w str,
    input: &mut S,
) -> Result<Vec<Part<'w>>, Cause>
    ensures parts { IfOk result (λ parts. ReadsParts S.may_give (Y.holds system.now) attributes.now (None, report.entry.now)
        input.old parts.items input.new) }
    ensures refused { IfErr result (λ cause. Refuses S.may_give (Y.holds system.now) (Y.unreads system.now) attributes.now
        (None, report.entry.now) input.old cause input.new ⊎ (cause ≡ Memory)) }
{
    let typed = NamedReport { name: None, report };
    read_parts(alloc, system, attributes, typed, input)
}

/// Reads the reports that the command line names, in their order. If a text can't be read or is refused, the function returns the error of
/// the first such text.
pub(crate) fn read_all<'w, Y: System, S: Source>(
    alloc: Global,
    system: &Y,
    attributes: &[AttributeColumn],
    reports: &[NamedReport<'w>],
    input: &mut S,
) -> Result<Vec<Part<'w>>, Cause>
    ensures { AnswersParts S.may_give (Y.holds system.now) (Y.unreads system.now) attributes.now (map report_model reports.now)
        input.old result input.new }
{
    let mut parts = Vec::new(alloc);
    for typed in reports {
        let mut more = read_parts(alloc, system, attributes, *typed, input)?;
        parts.append(&mut more)?;
    }
    Ok(parts)
}
