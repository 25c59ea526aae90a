//! Requests as text.

use lc_arguments::{
    CheckRequest, CountRequest, DiffRequest, ExplainRequest, FilterRequest, ParseExit, Request,
    SumRequest, TableRequest, WalkRequest,
};
use lc_sheet::{ChangeKinds, Column, Columns, Condition, Key, Output, REPORT_KEYS, Test};
use lc_tests::cases::{Pushed, push_words, text_of};
use std::alloc::AllocError;

/// The words for the option `--null`.
const NULL: &str = ", ended by NUL";

/// Appends each value after the same words.
fn push_each(text: &mut String, before: &str, values: &[&str]) -> Pushed {
    for value in values {
        write!(text, "{before}{value}")?;
    }
    Ok(())
}

fn push_filters(text: &mut String, filters: &FilterRequest) -> Pushed {
    push_words(text, &[(filters.archive, ", archive")])?;
    push_each(text, ", excludes ", filters.exclude_from.as_slice())?;
    push_each(text, ", attributes ", filters.attributes_from.as_slice())?;
    push_each(text, ", without ", &filters.without)?;
    push_each(text, ", excluding ", &filters.exclude)?;
    push_each(text, ", including ", &filters.include)?;
    push_words(text, &[(filters.no_ignore, ", no ignore files")])
}

fn push_columns(text: &mut String, by: Option<Columns>) -> Pushed {
    let Some(by) = by else {
        return Ok(());
    };
    text.push_str(", by")?;
    if let Some(depth) = by.dir {
        write!(text, " dir to {depth}")?;
    }
    if by.attributes > 0 {
        write!(text, " {} attributes", by.attributes)?;
    }
    for key in REPORT_KEYS {
        if by.has(key) {
            write!(text, " {}", key.name(&[]))?;
        }
    }
    Ok(())
}

fn push_table(text: &mut String, table: TableRequest) -> Pushed {
    match table.format {
        Some(Output::Tree) => write!(text, ", Tree of {} levels", table.levels)?,
        Some(format) => write!(text, ", {format:?}")?,
        None => {}
    }
    push_columns(text, table.by)?;
    if let Some(sort) = table.sort {
        write!(text, ", sorted by {sort:?}")?;
    }
    if let Some(top) = table.top {
        write!(text, ", first {top}")?;
    }
    push_words(text, &[(table.share, ", shares"), (table.files, ", files")])
}

fn push_paths(text: &mut String, walk: &WalkRequest) -> Pushed {
    for path in &walk.only {
        write!(text, ", only {}", text_of(path))?;
    }
    push_each(text, ", only from ", walk.only_from.as_slice())?;
    push_words(
        text,
        &[
            (walk.null, NULL),
            (walk.one_file_system, ", one file system"),
        ],
    )
}

/// Appends the limits that differ from those of a command line without options.
fn push_limits(text: &mut String, walk: &WalkRequest) -> Pushed {
    let (threads, max_dirs) = (walk.threads, walk.max_dirs);
    if threads != 4 {
        write!(text, ", {threads} threads")?;
    }
    if max_dirs != 65_536 {
        write!(text, ", {max_dirs} directories")?;
    }
    Ok(())
}

/// Appends the name of a column. The names of the columns of attributes and of languages are `attributes`.
fn push_column(text: &mut String, column: Column, attributes: &[&str]) -> Pushed {
    match column {
        Column::Key(Key::Attribute(place)) => {
            text.push_str(attributes.get(usize::from(place)).unwrap_or(&"?"))
        }
        column => text.push_str(column.word(&[])),
    }
}

/// Appends the names of attributes and of languages, and the conditions, some of which are on these attributes.
fn push_conditions(text: &mut String, attributes: &[&str], conditions: &[Condition<'_>]) -> Pushed {
    push_words(text, &[(!attributes.is_empty(), ", names")])?;
    push_each(text, " ", attributes)?;
    for condition in conditions {
        text.push_str("; ")?;
        push_column(text, condition.column, attributes)?;
        push_test(text, condition.test)?;
    }
    Ok(())
}

fn push_test(text: &mut String, test: Test<'_>) -> Pushed {
    match test {
        Test::OneOf(values) => write!(text, " one of '{}'", text_of(values)),
        Test::NoneOf(values) => write!(text, " none of '{}'", text_of(values)),
        Test::Compared(comparison, number) => write!(text, " {comparison:?} {number}"),
    }
}

fn push_count(text: &mut String, request: &CountRequest) -> Pushed {
    text.push_str("count")?;
    push_each(text, " ", &request.directories)?;
    push_limits(text, &request.walk)?;
    push_table(text, request.table)?;
    push_words(text, &[(request.left_out, ", left out")])?;
    push_filters(text, &request.walk.filters)?;
    push_paths(text, &request.walk)?;
    push_conditions(text, &request.attributes, &request.conditions)?;
    push_words(text, &[(request.fail_if_any, ", any file fails")])
}

fn push_changes(text: &mut String, changes: ChangeKinds) -> Pushed {
    if changes.are_all() {
        return Ok(());
    }
    text.push_str(", keeps")?;
    push_words(
        text,
        &[
            (changes.added, " added"),
            (changes.changed, " changed"),
            (changes.removed, " removed"),
            (changes.same, " same"),
        ],
    )
}

fn push_diff(text: &mut String, request: &DiffRequest) -> Pushed {
    write!(text, "diff {} {}", request.old, request.new)?;
    push_limits(text, &request.walk)?;
    push_table(text, request.table)?;
    push_filters(text, &request.walk.filters)?;
    push_paths(text, &request.walk)?;
    push_conditions(text, &request.attributes, &request.conditions)?;
    push_changes(text, request.changes)?;
    push_words(
        text,
        &[
            (request.all, ", all rows"),
            (request.fail_if_any, ", any difference fails"),
        ],
    )
}

fn push_check(text: &mut String, request: &CheckRequest) -> Pushed {
    write!(text, "check {}", request.file)?;
    push_words(
        text,
        &[(request.explain, ", explained"), (request.null, NULL)],
    )
}

fn push_explain(text: &mut String, request: &ExplainRequest) -> Pushed {
    write!(text, "explain {}", request.directory)?;
    push_filters(text, &request.filters)?;
    push_words(text, &[(request.null, NULL)])?;
    push_each(text, ", ", &request.paths)
}

fn push_sum(text: &mut String, request: &SumRequest) -> Pushed {
    text.push_str("sum")?;
    for report in &request.reports {
        let path = report.report;
        match report.name {
            None => write!(text, " {path}")?,
            Some(name) => write!(text, " {path} as {name}")?,
        }
    }
    push_table(text, request.table)?;
    push_words(
        text,
        &[(request.left_out, ", left out"), (request.null, NULL)],
    )?;
    push_conditions(text, &request.attributes, &request.conditions)?;
    push_words(text, &[(request.fail_if_any, ", any file fails")])
}

/// Appends to an empty text the lines of a usage error that are not empty, with ` / ` between them, but not how to get help.
fn push_refusal(text: &mut String, why: &str) -> Pushed {
    for line in why.lines() {
        if !line.is_empty() && !line.starts_with("For more information") {
            let before = if text.is_empty() { "" } else { " / " };
            write!(text, "{before}{}", line.trim_start())?;
        }
    }
    Ok(())
}

/// Appends a request, or what the program prints instead of carrying out a request: a usage error, or the first line of a help.
pub(crate) fn push_request(text: &mut String, answer: Result<Request<'_>, ParseExit>) -> Pushed {
    match answer {
        Ok(Request::CheckJoined) => text.push_str("check joined"),
        Ok(Request::Check(request)) => push_check(text, &request),
        Ok(Request::Count(request)) => push_count(text, &request),
        Ok(Request::Explain(request)) => push_explain(text, &request),
        Ok(Request::Sum(request)) => push_sum(text, &request),
        Ok(Request::Diff(request)) => push_diff(text, &request),
        Ok(Request::Languages) => text.push_str("languages"),
        Err(ParseExit::Shown(help)) => {
            let (line, _) = help.split_once('\n').unwrap_or((&help, ""));
            write!(text, "shown: {line}")
        }
        Err(ParseExit::Refused(why)) => push_refusal(text, &why),
        Err(ParseExit::Memory) => Err(AllocError),
    }
}
