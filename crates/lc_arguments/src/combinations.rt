//! Options that can't be combined.

ghost use Rattle.std.specs.Prelude.{◌≡◌, ◌&&◌, is_some, not};
ghost use Rattle.lc_arguments.specs.Combinations.{asks_for_rows, boxes_fit, diff_fits, fit_together, fits, has_one_kind};
ghost use Rattle.lc_arguments.specs.Combinations.{is_dash, paths_fit, reads_input_once};
ghost use Rattle.lc_arguments.specs.Combinations.{shows_differences, shows_shares, sum_fits, table_fits, takes_input, walk_fits};

use crate::count::CountRequest;
use crate::diff::DiffRequest;
use crate::request::Request;
use crate::sum::SumRequest;
use crate::table::TableRequest;
use crate::walk_request::WalkRequest;
use lc_sheet::{Format, Order, Output};

/// Returns whether the format of `--format` can show each row's share of the total. Without `--format`, `--share` selects the format
/// `Table`, which can show shares.
fn shows_shares(format: Option<Output>) -> bool
    ensures { result ≡ shows_shares format }
{
    match format {
        Some(output) => output.is_for_reading(),
        None => true,
    }
}

/// Returns whether a table lists files or skipped entries, is limited by `--top`, or has other columns than ext, text and eol, the columns
/// of a report's rows. `left_out` is whether skipped entries are listed.
fn asks_for_rows(table: TableRequest, left_out: bool) -> bool
    ensures { result ≡ asks_for_rows table left_out }
{
    table.files || left_out || table.top.is_some() || matches!(table.by, Some(by) if !by.are_all())
}

/// Returns the error if a format that has records of one kind is to list files and skipped entries.
fn kinds_misfit(table: TableRequest, left_out: bool) -> Option<&'static str>
    ensures { is_some result ≡ (table.files && left_out && has_one_kind table.format) }
{
    if !table.files || !left_out {
        return None;
    }
    match table.format {
        Some(Output::Text(Format::Csv)) => {
            Some("'--format csv' prints records of one kind: '--files' or '--left-out'")
        }
        Some(Output::Paths) => {
            Some("'--format paths' prints paths of one kind: '--files' or '--left-out'")
        }
        _ => None,
    }
}

/// Returns why the options of a picture or a tree can't be combined, or `None` if they can.
fn boxes_misfit(table: TableRequest, left_out: bool) -> Option<&'static str>
    ensures { is_some result ≡ not (boxes_fit table left_out) }
{
    if !table.draws_boxes() {
        return None;
    }
    let is_tree = table.format == Some(Output::Tree);
    if asks_for_rows(table, left_out) {
        return Some(if is_tree {
            "'--format tree' draws a tree: no '--files', '--left-out', '--by <COLUMNS>' or '--top <N>'"
        } else {
            "'--format html' draws a tree: no '--files', '--left-out', '--by <COLUMNS>' or '--top <N>'"
        });
    }
    if matches!(table.sort, Some(Order::Name)) {
        return Some(if is_tree {
            "'--format tree' draws the column of '--sort': files, lines, blank or bytes"
        } else {
            "'--format html' draws the column of '--sort': files, lines, blank or bytes"
        });
    }
    None
}

/// Returns why the options of a table can't be combined, or `None` if they can. `left_out` is whether skipped entries are listed.
fn table_misfit(table: TableRequest, left_out: bool) -> Option<&'static str>
    ensures { is_some result ≡ not (table_fits table left_out) }
{
    if table.share && !shows_shares(table.format) {
        return Some("'--share' needs '--format table' or '--format markdown'");
    }
    if let Some(why) = kinds_misfit(table, left_out) {
        return Some(why);
    }
    if table.is_paths() && table.by.is_some() {
        return Some("'--format paths' prints no rows, so '--by <COLUMNS>' has no use");
    }
    boxes_misfit(table, left_out)
}

/// Returns why the options that choose files can't be combined, or `None` if they can.
fn walk_misfit(walk: &WalkRequest<'_>) -> Option<&'static str>
    ensures { is_some result ≡ not (walk_fits walk.now) }
{
    if walk.null && walk.only_from.is_none() {
        return Some("'--null' needs '--only-from <FILE>'");
    }
    None
}

/// Returns the error if `--only` or `--only-from` is combined with several DIRs. They choose paths, which are relative to one DIR.
fn paths_misfit(request: &CountRequest<'_>) -> Option<&'static str>
    ensures { is_some result ≡ not (paths_fit request.now) }
{
    let walk = &request.walk;
    if request.directories.len() > 1 && (!walk.only.is_empty() || walk.only_from.is_some()) {
        return Some(
            "'--only <PATH>' and '--only-from <FILE>' need one DIR, because a PATH is relative to it",
        );
    }
    None
}

/// Returns why the options of `lc count` can't be combined, or `None` if they can.
fn count_misfit(request: &CountRequest<'_>) -> Option<&'static str>
    ensures { is_some result ≡ not (fit_together request.now) }
{
    if let Some(why) = table_misfit(request.table, request.left_out) {
        return Some(why);
    }
    if walk_misfit(&request.walk).is_some() && !request.table.is_paths() {
        return Some("'--null' needs '--only-from <FILE>' or '--format paths'");
    }
    paths_misfit(request)
}

/// Returns why the options of `lc sum` can't be combined, or `None` if they can.
fn sum_misfit(request: &SumRequest<'_>) -> Option<&'static str>
    ensures { is_some result ≡ not (sum_fits request.now) }
{
    if let Some(why) = table_misfit(request.table, request.left_out) {
        return Some(why);
    }
    if request.null && !request.table.is_paths() {
        return Some("'--null' needs '--format paths'");
    }
    None
}

fn is_dash(word: &str) -> bool
    ensures { result ≡ is_dash word.now }
{
    word == "-"
}

/// Returns whether the paths to count come on standard input.
fn takes_input(walk: &WalkRequest<'_>) -> bool
    ensures { result ≡ takes_input walk.now }
{
    match walk.only_from {
        None => false,
        Some(file) => is_dash(file),
    }
}

/// Returns the error if two arguments name standard input, which is read once.
fn input_misfit(request: &DiffRequest<'_>) -> Option<&'static str>
    ensures { is_some result ≡ not (reads_input_once request.now) }
{
    if is_dash(request.old) && is_dash(request.new) {
        return Some("'-' is given twice: standard input is read once");
    }
    if takes_input(&request.walk) && (is_dash(request.old) || is_dash(request.new)) {
        return Some("'-' and '--only-from -' are both standard input, which is read once");
    }
    None
}

/// Returns the error if a format can't show how two sides differ.
fn format_misfit(format: Option<Output>) -> Option<&'static str>
    ensures { is_some result ≡ not (shows_differences format) }
{
    match format {
        Some(Output::Picture) => Some("'--format html' shows no differences"),
        Some(Output::Tree) => Some("'--format tree' shows no differences"),
        Some(Output::Paths) => Some("'--format paths' shows no differences"),
        _ => None,
    }
}

/// Returns why the options of `lc diff` can't be combined, or `None` if they can.
fn diff_misfit(request: &DiffRequest<'_>) -> Option<&'static str>
    ensures { is_some result ≡ not (diff_fits request.now) }
{
    if let Some(why) = format_misfit(request.table.format) {
        return Some(why);
    }
    if let Some(why) = table_misfit(request.table, false) {
        return Some(why);
    }
    if let Some(why) = walk_misfit(&request.walk) {
        return Some(why);
    }
    input_misfit(request)
}

/// Returns why the options of a request can't be combined, or `None` if they can.
pub(crate) fn misfit(request: &Request<'_>) -> Option<&'static str>
    ensures { is_some result ≡ not (fits request.now) }
{
    match request {
        Request::Count(asked) => count_misfit(asked),
        Request::Sum(asked) => sum_misfit(asked),
        Request::Diff(asked) => diff_misfit(asked),
        _ => None,
    }
}
