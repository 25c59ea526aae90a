//! Refusing reports that lack a list that the sum needs.

ghost use Rattle.std.specs.Prelude.{◌≡◌, MatchResult};
ghost use Rattle.std.specs.List.{find};
ghost use Rattle.std.specs.Option.{option_copied};
ghost use Rattle.lc_reports.specs.Needs.{lacks_files, lacks_skipped};
ghost use Rattle.lc_reports.specs.Sums.{HaveFiles, HaveLists, LacksLists};

use crate::needs::Needs;
use crate::part::Part;
use crate::sum_fault::SumFault;

/// Returns the first report that lists no files.
fn first_without_files<'p, 'n>(parts: &'p [Part<'n>]) -> Option<&'p Part<'n>>
    ensures { option_copied result ≡ find lacks_files parts.now }
{
    parts.iter().find(|part| !part.report.lists.files)
}

/// Returns the first report that lists no skipped entries.
fn first_without_skipped<'p, 'n>(parts: &'p [Part<'n>]) -> Option<&'p Part<'n>>
    ensures { option_copied result ≡ find lacks_skipped parts.now }
{
    parts.iter().find(|part| !part.report.lists.left_out)
}

/// Refuses reports if files are needed and one report lists no files.
fn refuse_files<'n>(needs: Needs, parts: &[Part<'n>]) -> Result<(), SumFault<'n>>
    ensures { MatchResult result (λ done. HaveFiles needs parts.now) (LacksLists needs parts.now) }
{
    if needs.files {
        if let Some(part) = first_without_files(parts) {
            return Err(SumFault::NoFiles(part.origin));
        }
    }
    Ok(())
}

/// Refuses reports if one lacks a needed list. The list of files is tested before the list of skipped entries.
pub(crate) fn refuse_lists<'n>(needs: Needs, parts: &[Part<'n>]) -> Result<(), SumFault<'n>>
    ensures { MatchResult result (λ done. HaveLists needs parts.now) (LacksLists needs parts.now) }
{
    refuse_files(needs, parts)?;
    if needs.left_out {
        if let Some(part) = first_without_skipped(parts) {
            return Err(SumFault::NoSkipped(part.origin));
        }
    }
    Ok(())
}
