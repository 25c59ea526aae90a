//! The columns that reports have. Reports that lack a column that the sum needs are refused.

ghost use Rattle.std.specs.Prelude.{◌≡◌, MatchResult};
ghost use Rattle.std.specs.List.{find};
ghost use Rattle.std.specs.Option.{option_copied};
ghost use Rattle.lc_sheet.specs.Keys.{report_keys};
ghost use Rattle.lc_reports.specs.Needs.{is_lacking, lacking, lacks_column, share_key, share_some};
ghost use Rattle.lc_reports.specs.Sums.{HaveColumns, LacksColumns};

use crate::needs::Needs;
use crate::part::Part;
use crate::sum_fault::SumFault;
use lc_sheet::{Columns, Key, REPORT_KEYS};

/// Returns whether a needed key is not among those that are there.
fn is_lacking(needed: Columns, there: Columns, key: Key) -> bool
    ensures { result ≡ is_lacking needed there key }
{
    needed.has(key) && !there.has(key)
}

/// Returns whether a report lacks a needed column.
fn lacks_column(needed: Columns, part: &Part<'_>) -> bool
    ensures { result ≡ lacks_column needed part.now }
{
    let there = part.report.columns;
    REPORT_KEYS
        .iter()
        .any(|key| is_lacking(needed, there, *key))
}

fn first_lacking_key(needed: Columns, there: Columns) -> Option<&'static Key>
    ensures { option_copied result ≡ find (is_lacking needed there) report_keys }
{
    REPORT_KEYS
        .iter()
        .find(|key| is_lacking(needed, there, **key))
}

/// Returns the key of the first needed column that a report lacks. The report must lack one.
fn lacking(needed: Columns, part: &Part<'_>) -> Key
    ensures { result ≡ lacking needed part.now }
{
    match first_lacking_key(needed, part.report.columns) {
        Some(key) => *key,
        None => Key::Eol,
    }
}

/// Returns whether all of these reports have the column of a key.
fn share_key(parts: &[Part<'_>], key: Key) -> bool
    ensures { result ≡ share_key parts.now key }
{
    parts.iter().all(|part| part.report.columns.has(key))
}

/// Returns whether all of these reports have some column in common.
fn share_some(parts: &[Part<'_>]) -> bool
    ensures { result ≡ share_some parts.now }
{
    REPORT_KEYS.iter().any(|key| share_key(parts, *key))
}

/// Returns the first report that lacks a needed column.
fn first_lacking<'p, 'n>(needed: Columns, parts: &'p [Part<'n>]) -> Option<&'p Part<'n>>
    ensures { option_copied result ≡ find (lacks_column needed) parts.now }
{
    parts.iter().find(|part| lacks_column(needed, part))
}

/// Refuses reports if one lacks a needed column, or if they must share a column and do not.
pub(crate) fn refuse_columns<'n>(needs: Needs, parts: &[Part<'n>]) -> Result<(), SumFault<'n>>
    ensures { MatchResult result (λ done. HaveColumns needs parts.now) (LacksColumns needs parts.now) }
{
    if let Some(part) = first_lacking(needs.columns, parts) {
        return Err(SumFault::NoColumn(part.origin, lacking(needs.columns, part)));
    }
    if needs.some_column && !share_some(parts) {
        return Err(SumFault::NoSharedColumn);
    }
    Ok(())
}
