//! Answers `lc diff`: compares two directories or reports, and prints the changes.

ghost use Rattle.std.specs.Prelude.{◌≡◌, string_bytes, true, IfOk};
ghost use Rattle.lc_arguments.specs.Words.{IsDiffWithinLimits};
ghost use Rattle.lc_changes.specs.ChangeSheets.{HasFilesFor};
ghost use Rattle.lc_level.specs.NamedAttributes.{noted};
ghost use Rattle.lc_program.specs.Differences.{AnswersDiff, AreDiffLines, IsChangesText, PrintsChanges, PrintsSides};
ghost use Rattle.lc_program.specs.Differences.{change_options, compared_columns, compared_lists, compared_needs};
ghost use Rattle.lc_program.specs.Differences.{diff_answer, names_for};
ghost use Rattle.lc_program.specs.{Systems.may_of, Unnamed.names_in};

use crate::answer::{Answer, print_answer};
use crate::attributes::columns_of;
use crate::cause::Cause;
use crate::choices::accepted_sides;
use crate::counting::{options_of, prepared};
use crate::filters::narrowed;
use crate::path_list::{emptied_line, wanted_paths};
use crate::side_faults::{SideFaults, lines_of};
use crate::sides::{Side, SideOptions, both_sides};
use crate::system::System;
use crate::unmatched::unmatched_of;
use crate::unnamed::WalkRemarks;
use lc_arguments::{DiffRequest, TableRequest};
use lc_changes::{ChangeOptions, ShownChanges, keep_changes};
use lc_formats::text;
use lc_io::{Sink, Source};
use lc_level::NamedAttributes;
use lc_reports::Needs;
use lc_rows::keep;
use lc_sheet::{AttributeColumn, Columns, Format};
use lc_walk::{Report, ReportLists};
use std::alloc::{AllocError, Global};
use std::sync::Wait;
use std::thread::Threads;

/// The columns by which rows are grouped if the command line names none: the extension alone.
const BY_EXTENSION: Columns = Columns {
    ext: true,
    ..Columns::NONE
};

fn compared_columns(table: TableRequest) -> Columns
    ensures { result ≡ compared_columns table }
{
    table.by.unwrap_or(BY_EXTENSION)
}

/// Returns the options of a comparison. `other` is the format if the command line names none.
fn change_options(asked: &DiffRequest<'_>, other: Format) -> ChangeOptions
    ensures { result ≡ change_options other asked.now }
{
    let shown = asked.table.options(other, BY_EXTENSION);
    ChangeOptions {
        format: shown.output.sheet_format(),
        by: compared_columns(asked.table),
        sort: shown.sort,
        top: asked.table.top,
        files: asked.table.files,
        all: asked.all,
    }
}

/// Returns which columns and lists the report of each side must have.
fn compared_needs(asked: &DiffRequest<'_>) -> Needs
    ensures { result ≡ compared_needs asked.now }
{
    let by = compared_columns(asked.table);
    let files = asked.table.files || !asked.changes.are_all();
    Needs::of(Some(by), &asked.conditions, files, false)
}

/// Returns which lists the report of a counted directory must have.
fn compared_lists(asked: &DiffRequest<'_>) -> ReportLists
    ensures { result ≡ compared_lists asked.now }
{
    ReportLists {
        files: compared_needs(asked).files,
        left_out: false,
    }
}

/// Makes the text of the changes from one report to another. Also returns whether there are changes.
fn changes_text(
    alloc: Global,
    options: &ChangeOptions,
    columns: &[AttributeColumn],
    old: &Report,
    new: &Report,
) -> Result<(Vec<u8>, bool), AllocError>
    requires old_files { HasFilesFor options.now old.now.lists }
    requires new_files { HasFilesFor options.now new.now.lists }
    ensures { IfOk result (λ made. IsChangesText options.now columns.now old.now new.now made.0.items made.1) }
{
    let shown = ShownChanges::of(alloc, old, new, options, columns)?;
    let sheet = shown.comparison();
    let text = text(alloc, options.format, &sheet)?;
    Ok((text, shown.some_differ()))
}

/// Makes the lines that standard error gets about a comparison.
fn diff_lines(
    alloc: Global,
    asked: &DiffRequest<'_>,
    old: &Report,
    new: &Report,
    remarks: WalkRemarks<'_>,
) -> Result<String, AllocError>
    ensures { IfOk result (λ told. AreDiffLines asked.now remarks.entry.emptied.now (names_in remarks.entry.named) old.now new.now
        (string_bytes told)) }
{
    let old = SideFaults {
        name: asked.old,
        faults: &old.faults,
    };
    let new = SideFaults {
        name: asked.new,
        faults: &new.faults,
    };
    let unread = lines_of(alloc, old, new)?;
    let options = remarks.lines(alloc)?;
    let unmatched = unmatched_of(alloc, &asked.walk.filters)?;
    let told = [unread.as_str(), options.as_str(), unmatched.as_str()].concat(alloc)?;
    Ok(told)
}

/// Returns what is known of a comparison of two reports, by whether they differ, and with these lines for standard error.
fn answer_of(
    asked: &DiffRequest<'_>,
    old: &Report,
    new: &Report,
    differ: bool,
    told: String,
) -> Answer
    ensures { result ≡ diff_answer asked.now old.now new.now differ (string_bytes told) }
{
    Answer {
        has_faults: !old.faults.is_empty() || !new.faults.is_empty(),
        fails: asked.fail_if_any && differ,
        told,
    }
}

/// Drops from two reports the files that do not meet the conditions, and prints the changes from one report to the other.
fn print_kept<O: Sink>(
    alloc: Global,
    asked: &DiffRequest<'_>,
    sides: (Report, Report),
    remarks: WalkRemarks<'_>,
    format: Format,
    out: &mut O,
) -> Result<Answer, Cause>
    requires old_files { HasFilesFor (change_options format asked.now) sides.0.lists }
    requires new_files { HasFilesFor (change_options format asked.now) sides.1.lists }
    ensures { PrintsChanges O.may_take format asked.now remarks.entry.emptied.now (names_in remarks.entry.named) sides.0 sides.1 out.old
        result out.new }
{
    let (mut old, mut new) = sides;
    keep(alloc, &asked.conditions, &mut old)?;
    keep(alloc, &asked.conditions, &mut new)?;
    let columns = columns_of(alloc, &asked.attributes)?;
    let options = change_options(asked, format);
    keep_changes(
        alloc,
        asked.changes,
        options.by.attributes,
        &mut old,
        &mut new,
    )?;
    let (text, differ) = changes_text(alloc, &options, &columns, &old, &new)?;
    let told = diff_lines(alloc, asked, &old, &new, remarks)?;
    print_answer(&text, answer_of(asked, &old, &new, differ, told), out)
}

/// Prints the changes from one side to the other, if both sides have reports.
fn print_sides<O: Sink>(
    alloc: Global,
    asked: &DiffRequest<'_>,
    sides: Result<(Report, Report), Cause>,
    remarks: WalkRemarks<'_>,
    format: Format,
    out: &mut O,
) -> Result<Answer, Cause>
    requires old_files { IfOk sides (λ both. HasFilesFor (change_options format asked.now) both.0.lists) }
    requires new_files { IfOk sides (λ both. HasFilesFor (change_options format asked.now) both.1.lists) }
    ensures { PrintsSides O.may_take format asked.now remarks.entry.emptied.now (names_in remarks.entry.named) sides out.old result
        out.new }
{
    match sides {
        Ok(sides) => print_kept(alloc, asked, sides, remarks, format, out),
        Err(cause) => Err(cause),
    }
}

/// Returns the remarks about the options of a comparison of these sides. There are no remarks about attributes if neither side is a
/// directory, since reports name their attributes themselves.
fn remarks_of<'r>(
    sides: (Side, Side),
    emptied: &'r str,
    named: &'r NamedAttributes,
) -> WalkRemarks<'r>
    ensures emptied { result.emptied.now ≡ emptied.now }
    ensures named { names_in result.named ≡ names_for sides (noted named.now) }
{
    let named = match sides {
        (Side::Directory, _) | (_, Side::Directory) => Some(named),
        _ => None,
    };
    WalkRemarks { emptied, named }
}

/// Compares two directories or reports, and prints the changes. `format` is the format of the output if the command line names none.
pub(crate) fn compare<R: Threads + Wait + Sync + AllocGlobal, Y: System, S: Source, O: Sink>(
    rt: &R,
    system: &Y,
    asked: &DiffRequest<'_>,
    format: Format,
    input: &mut S,
    out: &mut O,
) -> Result<Answer, Cause>
    requires limits { IsDiffWithinLimits asked.now }
    ensures { AnswersDiff (may_of Y.Tree.Tree Y.System system.now)
        S.may_give O.may_take format asked.now input.old out.old result input.new out.new }
{
    let sides = accepted_sides(rt.alloc(), system, asked)?;
    let columns = columns_of(rt.alloc(), &asked.attributes)?;
    let (named, filters, list) = prepared(
        rt.alloc(),
        system,
        &asked.walk,
        &asked.attributes,
        input,
    )?;
    let wanted = wanted_paths(rt.alloc(), &asked.walk, &list)?;
    let emptied = emptied_line(rt.alloc(), asked.walk.only_from, &wanted)?;
    let filters = narrowed(rt.alloc(), filters, &wanted)?;
    let options = options_of(&asked.walk, compared_lists(asked), &filters, &named);
    let how = SideOptions {
        walk: &asked.walk,
        options: &options,
        attributes: &columns,
        needs: compared_needs(asked),
    };
    let reports = both_sides(rt, system, sides, (asked.old, asked.new), how, input);
    let remarks = remarks_of(sides, &emptied, &named);
    print_sides(rt.alloc(), asked, reports, remarks, format, out)
}
