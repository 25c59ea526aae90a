//! Making and writing the text of a report.

ghost use Rattle.std.specs.Prelude.{◌≡◌, IfOk, string_bytes};
ghost use Rattle.lc_program.specs.ReportTexts.{HasSheet, IsPageText, IsPrinted, IsReordered, IsTextOf, IsTreeText, IsWrittenAs};
ghost use Rattle.lc_program.specs.ReportTexts.{showing_of};
ghost use Rattle.lc_program.specs.Runs.{AnswersTable};
ghost use Rattle.lc_rows.specs.WalkedReports.{HasFilesFor};

use lc_formats::{PathsText, paths_text, text};
use lc_io::{PrintFault, Sink, print};
use lc_picture::{page, tree};
use lc_rows::{Shown, keep, sort_files};
use lc_sheet::{Lines, Output, ReportOptions, Sheet};
use lc_text::PathEnd;
use lc_walk::Report;
use std::alloc::{AllocError, Global};

/// Makes the text of a sheet in a format, or of the paths that the sheet lists. Only paths can be refused.
fn written<R: Lines, T: Lines, F: Lines, S: Lines, E: Lines>(
    alloc: Global,
    output: Output,
    end: PathEnd,
    sheet: &Sheet<'_, R, T, F, S, E>,
) -> Result<PathsText, AllocError>
    ensures { IfOk result (λ made. IsWrittenAs output end sheet.now made.text.items (string_bytes made.refused)) }
{
    if output == Output::Paths {
        return paths_text(alloc, end, sheet);
    }
    let text = text(alloc, output.sheet_format(), sheet)?;
    Ok(PathsText {
        text,
        refused: String::new(alloc),
    })
}

/// Makes the text of the sheet of a report.
fn sheet_text(
    alloc: Global,
    report: &mut Report,
    shown: ReportOptions<'_>,
) -> Result<PathsText, AllocError>
    requires files { HasFilesFor shown.table report.now.lists }
    ensures text { IfOk result (λ made. HasSheet (showing_of shown.entry) report.old made.text.items (string_bytes made.refused)) }
    ensures left { IsReordered report.old report.new }
{
    sort_files(shown.table.sort, &mut report.files);
    let parts = Shown::of(alloc, report, &shown.table, shown.attributes)?;
    let sheet = parts.sheet();
    let made = written(alloc, shown.table.output, shown.end, &sheet)?;
    Ok(made)
}

/// Makes the page of HTML of a report, with its heading.
fn page_text(
    alloc: Global,
    report: &mut Report,
    shown: ReportOptions<'_>,
) -> Result<PathsText, AllocError>
    ensures text { IfOk result (λ made. IsPageText (showing_of shown.entry) report.old made.text.items (string_bytes made.refused)) }
    ensures left { IsReordered report.old report.new }
{
    let text = page(alloc, shown.title, shown.chosen, report, shown.table.sort)?;
    Ok(PathsText {
        text,
        refused: String::new(alloc),
    })
}

/// Makes the lines of the tree of a report, with its title.
fn tree_text(
    alloc: Global,
    report: &mut Report,
    shown: ReportOptions<'_>,
) -> Result<PathsText, AllocError>
    ensures text { IfOk result (λ made. IsTreeText (showing_of shown.entry) report.old made.text.items (string_bytes made.refused)) }
    ensures left { IsReordered report.old report.new }
{
    let levels = shown.table.by.dir.unwrap_or(1);
    let text = tree(alloc, shown.title, report, shown.table.sort, levels)?;
    Ok(PathsText {
        text,
        refused: String::new(alloc),
    })
}

/// Makes the text of a report, whether or not its files meet the conditions of `shown`.
///
/// The function may sort the report's list of files. If the table has rows by directories or attributes, the function requires that the
/// report has this list. A picture or a tree shows the files in this list. An error means that an allocation failed, or that sums or shares
/// overflow. The sums and shares of a walk never overflow.
pub fn report_text(
    alloc: Global,
    report: &mut Report,
    shown: ReportOptions<'_>,
) -> Result<PathsText, AllocError>
    requires files { HasFilesFor shown.table report.now.lists }
    ensures text { IfOk result (λ made. IsTextOf (showing_of shown.entry) report.old made.text.items (string_bytes made.refused)) }
    ensures left { IsReordered report.old report.new }
{
    match shown.table.output {
        Output::Picture => page_text(alloc, report, shown),
        Output::Tree => tree_text(alloc, report, shown),
        Output::Text(_) | Output::Paths => sheet_text(alloc, report, shown),
    }
}

/// Drops from a report the files that do not meet the conditions, and makes the text of the remaining report ([`report_text`]).
pub(crate) fn part_text(
    alloc: Global,
    report: &mut Report,
    shown: ReportOptions<'_>,
) -> Result<PathsText, AllocError>
    requires files { HasFilesFor shown.table report.now.lists }
    ensures { IfOk result (λ made. IsPrinted (showing_of shown.entry) report.old made.text.items (string_bytes made.refused) report.new) }
{
    keep(alloc, shown.conditions, report)?;
    let made = report_text(alloc, report, shown)?;
    Ok(made)
}

/// Drops from a report the files that do not meet the conditions, and writes the text of the remaining report ([`report_text`]). Returns
/// the lines about paths that the text lacks.
///
/// The function may sort the remaining files.
pub fn table<O: Sink>(
    alloc: Global,
    report: &mut Report,
    shown: ReportOptions<'_>,
    out: &mut O,
) -> Result<String, PrintFault>
    requires files { HasFilesFor shown.table report.now.lists }
    ensures { AnswersTable O.may_take (showing_of shown.entry) report.old report.new out.old result out.new }
{
    let made = part_text(alloc, report, shown)?;
    print(out, &made.text)?;
    Ok(made.refused)
}
