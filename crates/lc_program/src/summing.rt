//! Answers `lc sum`: reads reports, adds them up, and prints the sum.

ghost use Rattle.std.specs.Prelude.{◌≡◌, string_bytes, IfOk};
ghost use Rattle.lc_arguments.specs.TableWords.{options_in};
ghost use Rattle.lc_program.specs.Sums.{AnswersSum, PrintsParts, PrintsSum, needed_by, sum_lines};
ghost use Rattle.lc_program.specs.Systems.{may_of};
ghost use Rattle.lc_rows.specs.WalkedReports.{HasFilesFor};

use crate::answer::{Answer, print_answer};
use crate::attributes::columns_of;
use crate::cause::Cause;
use crate::checking::path_end;
use crate::faults::{inside, lines_if};
use crate::heading::sum_heading;
use crate::report_files::read_all;
use crate::report_lines::cause_of_sum;
use crate::runs::Printed;
use crate::showing::part_text;
use crate::system::System;
use lc_arguments::SumRequest;
use lc_io::{Sink, Source};
use lc_reports::{Needs, Part, summed};
use lc_sheet::{AttributeColumn, Format, ReportOptions};
use lc_walk::Report;
use std::alloc::{AllocError, Global};

/// Returns which columns and lists a sum needs of each report.
fn needed_by(asked: &SumRequest<'_>) -> Needs
    ensures { result ≡ needed_by asked.now }
{
    let files = asked.table.lists_files() || asked.table.draws_boxes();
    Needs::of(asked.table.by, &asked.conditions, files, asked.left_out)
}

/// Makes the lines that standard error gets about a sum. The directories of its reports are not those of the command line.
fn sum_lines(
    alloc: Global,
    asked: &SumRequest<'_>,
    format: Format,
    printed: &Printed,
) -> Result<String, AllocError>
    ensures { IfOk result (λ told. string_bytes told
        ≡ sum_lines format asked.now printed.now.report (string_bytes printed.now.refused)) }
{
    let faults = inside(alloc, &[], &printed.report.faults)?;
    let unread = lines_if(alloc, asked.table.output(format), &faults)?;
    let told = [unread.as_str(), printed.refused.as_str()].concat(alloc)?;
    Ok(told)
}

/// Prints the table of the part of a sum that meets the conditions.
fn print_sum<O: Sink>(
    alloc: Global,
    asked: &SumRequest<'_>,
    columns: &[AttributeColumn],
    sum: Report,
    format: Format,
    out: &mut O,
) -> Result<Answer, Cause>
    requires files { HasFilesFor (options_in format sum.columns asked.now.table) sum.lists }
    ensures { PrintsSum O.may_take format asked.now columns.now sum out.old result out.new }
{
    let heading = sum_heading(alloc, asked, columns)?;
    let options = ReportOptions {
        table: asked.table.options(format, sum.columns),
        conditions: &asked.conditions,
        attributes: columns,
        title: &heading.title,
        chosen: &heading.chosen,
        end: path_end(asked.null),
    };
    let mut report = sum;
    let made = part_text(alloc, &mut report, options)?;
    let printed = Printed {
        report,
        refused: made.refused,
    };
    let told = sum_lines(alloc, asked, format, &printed)?;
    print_answer(&made.text, printed.answer(asked.fail_if_any, told), out)
}

/// Adds up reports that were read, and prints the table of the sum.
fn sum_parts<O: Sink>(
    alloc: Global,
    asked: &SumRequest<'_>,
    columns: &[AttributeColumn],
    parts: Vec<Part<'_>>,
    format: Format,
    out: &mut O,
) -> Result<Answer, Cause>
    ensures { PrintsParts O.may_take format asked.now columns.now parts.entry.items out.old result out.new }
{
    match summed(alloc, parts, needed_by(asked)) {
        Ok(sum) => print_sum(alloc, asked, columns, sum, format, out),
        Err(fault) => Err(cause_of_sum(alloc, fault)),
    }
}

/// Reads the reports that the command line names, adds them up, and prints the table of the sum. `format` is the format of the table if the
/// command line names none.
pub(crate) fn sum<Y: System, S: Source, O: Sink>(
    alloc: Global,
    system: &Y,
    asked: &SumRequest<'_>,
    format: Format,
    input: &mut S,
    out: &mut O,
) -> Result<Answer, Cause>
    ensures { AnswersSum (may_of Y.Tree.Tree Y.System system.now)
        S.may_give O.may_take format asked.now input.old out.old result input.new out.new }
{
    let columns = columns_of(alloc, &asked.attributes)?;
    let parts = read_all(alloc, system, &columns, &asked.reports, input)?;
    sum_parts(alloc, asked, &columns, parts, format, out)
}
