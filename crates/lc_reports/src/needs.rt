//! What a sum needs of each report.

ghost use Rattle.std.specs.Prelude.{◌≡◌};
ghost use Rattle.std.specs.List.{list_any};
ghost use Rattle.lc_reports.specs.Needs.{is_on, is_on_key, needs_of, sums_files, tests_key};

use lc_sheet::{Column, Columns, Condition, Key, REPORT_KEYS, needs_files};

/// What is needed of each report that is summed.
#[derive(Clone, Copy, Debug, Drop, PartialEq, Eq)]
pub struct Needs {
    /// The columns that the rows of each report must be grouped by.
    pub columns: Columns,
    /// Whether the reports must have some column in common.
    pub some_column: bool,
    /// Whether each report must list its files.
    pub files: bool,
    /// Whether each report must list its skipped entries.
    pub left_out: bool,
}

fn is_on(key: Key, condition: &Condition<'_>) -> bool
    ensures { result ≡ is_on key condition.now }
{
    matches!(condition.column, Column::Key(tested) if tested == key)
}

/// Returns whether a condition is on a key of reports' rows.
fn is_on_key(condition: &Condition<'_>) -> bool
    ensures { result ≡ is_on_key condition.now }
{
    REPORT_KEYS.iter().any(|key| is_on(*key, condition))
}

fn test_key(key: Key, conditions: &[Condition<'_>]) -> bool
    ensures { result ≡ list_any (is_on key) conditions.now }
{
    conditions.iter().any(|condition| is_on(key, condition))
}

fn test_keys(conditions: &[Condition<'_>]) -> bool
    ensures { result ≡ list_any is_on_key conditions.now }
{
    conditions.iter().any(|condition| is_on_key(condition))
}

/// Returns whether the given conditions need a key of rows.
///
/// A condition on any such key also needs `Eol`, because text and binary files that meet the condition are summed anew.
fn tests_key(conditions: &[Condition<'_>], key: Key) -> bool
    ensures { result ≡ tests_key conditions.now key }
{
    match key {
        Key::Eol => test_keys(conditions),
        _ => test_key(key, conditions),
    }
}

/// Returns whether rows by these columns are sums over files.
fn sums_files(by: Option<Columns>) -> bool
    ensures { result ≡ sums_files by }
{
    match by {
        Some(by) => by.are_of_files(),
        None => false,
    }
}

impl Needs {
    /// Returns what is needed to sum reports by the columns `by` and to test the given conditions. If `files` is true, the sum must list
    /// files. If `left_out` is true, the sum must list skipped entries.
    ///
    /// Rows by directory or by attributes need listed files, and so do conditions on an attribute or on a number such as lines. If `by` is
    /// `None`, the reports need some column in common.
    pub fn of(
        by: Option<Columns>,
        conditions: &[Condition<'_>],
        files: bool,
        left_out: bool,
    ) -> Needs
        ensures { result ≡ needs_of by conditions.now files left_out }
    {
        let named = by.unwrap_or(Columns::NONE);
        Needs {
            columns: Columns {
                dir: None,
                attributes: 0,
                ext: named.ext || tests_key(conditions, Key::Ext),
                text: named.text || tests_key(conditions, Key::Text),
                eol: named.eol || tests_key(conditions, Key::Eol),
            },
            some_column: by.is_none(),
            files: files || sums_files(by) || needs_files(conditions),
            left_out,
        }
    }
}
