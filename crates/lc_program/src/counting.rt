//! Answers `lc count`: counts directories, and prints the table.

ghost use Rattle.std.specs.Prelude.{◌≡◌, map, string_bytes, IfErr, IfOk, Ok};
ghost use Rattle.lc_arguments.specs.Words.{IsCountWithinLimits};
ghost use Rattle.lc_arguments.specs.TableWords.{options_in};
ghost use Rattle.lc_program.specs.Counts.{AnswersApart, AnswersCount, AreCountLines, FindsNoneAsked, ShowsFound, lists_of};
ghost use Rattle.lc_program.specs.Filters.{AnswersFilters};
ghost use Rattle.lc_program.specs.PathLists.{GivesList};
ghost use Rattle.lc_program.specs.{Systems.may_of, Unnamed.names_in};
ghost use Rattle.lc_program.specs.WalkRequests.{IsAskedBy, IsUnprepared, named_in};
ghost use Rattle.lc_level.specs.NamedAttributes.{noted};
ghost use Rattle.lc_sheet.specs.AttributeColumns.{attribute_of};
ghost use Rattle.lc_walk.specs.AllColumns.{all_columns};
ghost use Rattle.lc_rows.specs.WalkedReports.{ListsFilesFor};
ghost use Rattle.lc_walk.specs.WalkOptions.{AreWithinLimits};

use crate::answer::{Answer, print_answer};
use crate::attributes::{columns_of, named_attributes};
use crate::cause::Cause;
use crate::checking::path_end;
use crate::faults::fault_lines;
use crate::filters::{narrowed, read_filters};
use crate::finding::found;
use crate::heading::count_heading;
use crate::hints::hint_for;
use crate::meant::meant_if;
use crate::nested::refuse_unless_apart;
use crate::path_list::{emptied_line, list_of, wanted_paths};
use crate::runs::Printed;
use crate::showing::part_text;
use crate::streams::Terminals;
use crate::system::System;
use crate::unmatched::unmatched_of;
use crate::unnamed::WalkRemarks;
use lc_arguments::{CountRequest, MAX_DIRS, MAX_THREADS, WalkRequest};
use lc_board::limits::{MAX_CAPACITY, MAX_WORKERS};
use lc_io::{Sink, Source};
use lc_level::{Filters, NamedAttributes};
use lc_sheet::{Columns, Format, ReportOptions, needs_files};
use lc_walk::{Options, ReportLists};
use std::alloc::{AllocError, Global};
use std::sync::Wait;
use std::thread::Threads;

// The command line allows as many threads and directories as a walk can have.
const _: () = prove!(MAX_THREADS == MAX_WORKERS && MAX_DIRS == MAX_CAPACITY);

/// Returns which lists the report of a count must have. A table with rows by directories or attributes, a picture or a tree, and a
/// condition on a number or an attribute need the list of files.
fn lists_of(asked: &CountRequest<'_>) -> ReportLists
    ensures { result ≡ lists_of asked.now }
{
    ReportLists {
        files: asked.table.lists_files()
            || asked.table.by.unwrap_or(Columns::ALL).are_of_files()
            || asked.table.draws_boxes()
            || needs_files(&asked.conditions),
        left_out: asked.left_out,
    }
}

/// Reads what a walk is prepared with: the list of the attributes that the command line names, the filters without the paths to count, and
/// the list of paths. Notes which attributes the file of `--attributes-from` names.
pub(crate) fn prepared<'w, 'p, Y: System, S: Source>(
    alloc: Global,
    system: &Y,
    walk: &WalkRequest<'w>,
    attributes: &[&'w str],
    input: &mut S,
) -> Result<(NamedAttributes, Filters<'p>, Vec<u8>), Cause>
    ensures named { IfOk result (λ made. noted made.0 ≡ named_in walk.now attributes.now) }
    ensures filters { IfOk result (λ made. AnswersFilters (Y.holds system.now) (Y.unreads system.now) walk.now.filters
        (map (λ column. attribute_of column.now) attributes.now) (Ok made.1)) }
    ensures list { IfOk result (λ made. GivesList S.may_give (Y.holds system.now) (Y.unreads system.now) walk.now.only_from
        input.old (Ok made.2) input.new) }
    ensures unprepared { IfErr result (λ cause. IsUnprepared (may_of Y.Tree.Tree Y.System system.now)
        S.may_give walk.now input.old cause input.new) }
{
    let named = named_attributes(alloc, walk, attributes)?;
    let filters = read_filters(alloc, system, &walk.filters, attributes, Some(&named))?;
    let list = list_of(alloc, system, walk.only_from, input)?;
    Ok((named, filters, list))
}

/// Makes the options of a walk from the command line.
pub(crate) fn options_of<'o>(
    asked: &WalkRequest<'_>,
    lists: ReportLists,
    filters: &'o Filters<'_>,
    named: &'o NamedAttributes,
) -> Options<'o>
    ensures { IsAskedBy asked.now lists filters.entry.now result }
{
    Options {
        threads: asked.threads,
        max_dirs: asked.max_dirs,
        lists,
        filters,
        named: Some(named),
    }
}

/// Counts the directories that the command line names, and makes the text of what meets the conditions.
fn found_text<R: Threads + Wait + Sync + AllocGlobal, Y: System>(
    rt: &R,
    system: &Y,
    asked: &CountRequest<'_>,
    options: &Options<'_>,
    format: Format,
) -> Result<(Printed, Vec<u8>), Cause>
    requires limits { AreWithinLimits options.now }
    requires files { ListsFilesFor options.now (options_in format all_columns asked.now.table) }
    ensures shown { IfOk result (λ made. ShowsFound (may_of Y.Tree.Tree Y.System system.now) asked.now options.now format made.0.report
        (string_bytes made.0.refused) made.1.items) }
    ensures none { IfErr result (FindsNoneAsked (may_of Y.Tree.Tree Y.System system.now) asked.now options.now) }
{
    let columns = columns_of(rt.alloc(), &asked.attributes)?;
    let heading = count_heading(rt.alloc(), system, asked, &columns)?;
    let mut report = found(rt, system, asked, &columns, options)?;
    let shown = ReportOptions {
        table: asked.table.options(format, Columns::ALL),
        conditions: &asked.conditions,
        attributes: &columns,
        title: &heading.title,
        chosen: &heading.chosen,
        end: path_end(asked.walk.null),
    };
    let made = part_text(rt.alloc(), &mut report, shown)?;
    let printed = Printed {
        report,
        refused: made.refused,
    };
    Ok((printed, made.text))
}

/// Makes the lines that standard error gets about a count.
fn count_lines<Y: System>(
    alloc: Global,
    system: &Y,
    asked: &CountRequest<'_>,
    terminals: Terminals,
    printed: &Printed,
    remarks: WalkRemarks<'_>,
) -> Result<String, AllocError>
    ensures { IfOk result (λ told. AreCountLines (may_of Y.Tree.Tree Y.System system.now) terminals asked.now remarks.entry.emptied.now
        (names_in remarks.entry.named) printed.now.report (string_bytes printed.now.refused) (string_bytes told)) }
{
    let output = asked.table.output(terminals.format());
    let unread = fault_lines(
        alloc,
        system,
        &asked.directories,
        output,
        &printed.report.faults,
    )?;
    let options = remarks.lines(alloc)?;
    let patterns = &asked.walk.filters;
    let meant = meant_if(alloc, printed.report.totals.files, &patterns.include)?;
    let unmatched = unmatched_of(alloc, patterns)?;
    let hint = hint_for(alloc, system, terminals.error, &asked.directories)?;
    let lines = [
        unread.as_str(),
        printed.refused.as_str(),
        options.as_str(),
        meant.as_str(),
        unmatched.as_str(),
        hint.as_str(),
    ];
    let told = lines.concat(alloc)?;
    Ok(told)
}

/// Counts directories, none of which lies in another, and prints the table.
fn count_apart<R: Threads + Wait + Sync + AllocGlobal, Y: System, S: Source, O: Sink>(
    rt: &R,
    system: &Y,
    asked: &CountRequest<'_>,
    terminals: Terminals,
    input: &mut S,
    out: &mut O,
) -> Result<Answer, Cause>
    requires limits { IsCountWithinLimits asked.now }
    ensures { AnswersApart (may_of Y.Tree.Tree Y.System system.now)
        S.may_give O.may_take terminals asked.now input.old out.old result input.new out.new }
{
    let (named, filters, list) = prepared(
        rt.alloc(),
        system,
        &asked.walk,
        &asked.attributes,
        input,
    )?;
    let wanted = wanted_paths(rt.alloc(), &asked.walk, &list)?;
    let emptied = emptied_line(rt.alloc(), asked.walk.only_from, &wanted)?;
    let filters = narrowed(rt.alloc(), filters, &wanted)?;
    let options = options_of(&asked.walk, lists_of(asked), &filters, &named);
    let (printed, text) = found_text(rt, system, asked, &options, terminals.format())?;
    let remarks = WalkRemarks {
        emptied: &emptied,
        named: Some(&named),
    };
    let told = count_lines(rt.alloc(), system, asked, terminals, &printed, remarks)?;
    print_answer(&text, printed.answer(asked.fail_if_any, told), out)
}

/// Counts directories and prints the table. Which streams are terminals decides the format of the table, if the command line names none,
/// and whether there is a hint.
pub(crate) fn count<R: Threads + Wait + Sync + AllocGlobal, Y: System, S: Source, O: Sink>(
    rt: &R,
    system: &Y,
    asked: &CountRequest<'_>,
    terminals: Terminals,
    input: &mut S,
    out: &mut O,
) -> Result<Answer, Cause>
    requires limits { IsCountWithinLimits asked.now }
    ensures { AnswersCount (may_of Y.Tree.Tree Y.System system.now)
        S.may_give O.may_take terminals asked.now input.old out.old result input.new out.new }
{
    refuse_unless_apart(rt.alloc(), system, &asked.directories)?;
    count_apart(rt, system, asked, terminals, input, out)
}
