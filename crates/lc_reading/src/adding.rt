//! Comparing the sums over the parts of a report, such as its rows, with the report's total.

ghost use Rattle.std.specs.Prelude.{◌≡◌, IfOk, IsTrue, map};
ghost use Rattle.lc_walk.specs.Classes.{binary_sums};
ghost use Rattle.lc_walk.specs.ReportTotals.{counted_line};
ghost use Rattle.lc_walk.specs.Sums.{plus};
ghost use Rattle.lc_walk.specs.Tally.{IsTally, StandsFor, sums_of_files};
ghost use Rattle.lc_walk.specs.TallyRows.{sums_of_rows};

use crate::read_fault::ReadFault;
use lc_rows::name_of;
use lc_walk::{ClassSums, FileLine, Sums, Tally, TallyRow, extension, sums_of_rows};
use std::alloc::{AllocError, Global};

/// Returns whether rows add up to a total.
pub(crate) fn rows_add_up(rows: &[TallyRow], total: Sums) -> bool
    ensures { IsTrue result → total ≡ sums_of_rows rows.now }
{
    match sums_of_rows(rows) {
        Some(sums) => total == sums,
        None => false,
    }
}

/// Returns whether the sums over text and over binary files add up to a total.
pub(crate) fn parts_add_up(text: Sums, binary: Sums, total: Sums) -> bool
    ensures { IsTrue result → total ≡ plus text binary }
{
    match text.checked_add(binary) {
        Some(sums) => total == sums,
        None => false,
    }
}

/// Sums files in a tally, by extension, state of the attribute `text`, and line ends.
fn tally_of(alloc: Global, files: &[FileLine]) -> Result<Tally, AllocError>
    ensures { IfOk result (λ tally. StandsFor tally (map counted_line files.now)) }
{
    let mut tally = Tally::new(alloc);
    let mut rest = files;
    'files: while let Some((file, others)) = rest.split_first() {
        // A text has fewer lines.
        if tally.totals().files >= 1 << 62 {
            return Err(AllocError);
        }
        tally.add(extension(name_of(&file.path)), file.text(), file.count)?;
        rest = others;
    }
    Ok(tally)
}

/// Returns whether the rows whose files hold a NUL byte add up to the sums over binary files.
pub(crate) fn binary_adds_up(rows: &[TallyRow], binary: Sums) -> bool
    ensures { IsTrue result → binary ≡ binary_sums rows.now }
{
    match ClassSums::of(rows) {
        Some(classes) => binary == classes.binary,
        None => false,
    }
}

/// Returns the rows for these files, and the sums over all of these files.
pub(crate) fn rows_of_files(
    alloc: Global,
    files: &[FileLine],
) -> Result<(Vec<TallyRow>, Sums), ReadFault>
    ensures rows { IfOk result (λ made. IsTally (map counted_line files.now) made.0.items) }
    ensures sums { IfOk result (λ made. made.1 ≡ sums_of_files (map counted_line files.now)) }
{
    let tally = tally_of(alloc, files)?;
    let sums = tally.totals();
    Ok((tally.into_rows(), sums))
}
