//! Making a report's lines of files, errors and skipped entries from the rows that workers added, one row for each directory.
ghost use Rattle.std.specs.Prelude.{◌≡◌, ℕ, ◌+◌, ◌≤◌, ◌<◌, ◌^◌, List, ◌++◌, map, length, IfOk, OnOk};
ghost use Rattle.lc_walk.specs.Rows.{row_of};
ghost use Rattle.lc_walk.specs.Assembled.{directories_by_row, entries_by_row, files_by_row, faults_by_row, skipped_by_row};
ghost use Rattle.lc_walk.specs.Assembled.{AreFindings};

use crate::report::{FaultLine, Findings};
use crate::row::{FaultedRow, ListedRow, Row};
use lc_board::Ended;
use lc_level::Line;
use std::alloc::{AllocError, Global};

/// Returns the row that a worker added for a directory, whether or not the row reports an error.
pub fn row_of(ended: &Ended<Row>) -> &Row
    ensures { result.now ≡ row_of ended.now }
{
    match ended {
        Ended::Returned(row) => row,
        Ended::Faulted(row) => row,
    }
}

/// Appends the lines that were found in a directory. The found lines have paths relative to the directory, and the appended lines have
/// paths relative to the top.
fn push_below<L: Line + Drop>(
    alloc: Global,
    directory: &[u8],
    found: &[L],
    lines: &mut Vec<L>,
) -> Result<(), AllocError>
    ensures { OnOk result (lines.new.items ≡ lines.old.items ++ map (L.below_of directory.now) found.now) }
{
    let mut rest = found;
    'lines: while let Some((line, others)) = rest.split_first() {
        lines.push(line.below(alloc, directory)?)?;
        rest = others;
    }
    Ok(())
}

/// Adds the files, errors and skipped entries of one directory's row to the findings. It also counts the directory and its entries if the
/// directory was listed.
pub fn push_row(alloc: Global, row: &Row, found: &mut Findings) -> Result<(), AllocError>
    requires directories { found.old.directories ≤ 2 ^ 62 }
    requires entries { found.old.entries + 2 ^ 32 ≤ 2 ^ 64 }
    ensures directories { OnOk result (found.new.directories ≡ found.old.directories + length (directories_by_row row.now)) }
    ensures entries { OnOk result (found.new.entries ≡ found.old.entries + entries_by_row row.now) }
    ensures few { OnOk result (entries_by_row row.now < 2 ^ 32) }
    ensures files { OnOk result (found.new.files.items ≡ found.old.files.items ++ files_by_row row.now) }
    ensures faults { OnOk result (found.new.faults.items ≡ found.old.faults.items ++ faults_by_row row.now) }
    ensures skipped { OnOk result (found.new.skipped.items ≡ found.old.skipped.items ++ skipped_by_row row.now) }
{
    match row {
        Row::Listed(row) => {
            let directory = row.job().path();
            push_below(alloc, directory, row.files(), &mut found.files)?;
            push_below(alloc, directory, row.faults(), &mut found.faults)?;
            push_below(alloc, directory, row.skipped(), &mut found.skipped)?;
            found.directories += 1;
            found.entries += u64::from(row.entries());
        }
        Row::Faulted(row) => {
            found.faults.push(FaultLine {
                path: row.site.path(alloc, row.job.path())?,
                word: row.word,
            })?;
        }
        Row::Broken(_) => {}
    }
    Ok(())
}

/// Collects the findings of a walk from the rows that workers added, one row for each directory.
pub fn findings_of(alloc: Global, rows: &[Ended<Row>]) -> Result<Findings, AllocError>
    requires { length rows.now ≤ 2 ^ 32 }
    ensures { IfOk result (AreFindings rows.now) }
{
    let mut found = Findings {
        directories: 0,
        entries: 0,
        files: Vec::new(alloc),
        faults: Vec::new(alloc),
        skipped: Vec::new(alloc),
    };
    let mut rest = rows;
    'rows: while let Some((row, others)) = rest.split_first() {
        push_row(alloc, row_of(row), &mut found)?;
        rest = others;
    }
    Ok(found)
}
