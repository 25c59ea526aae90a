//! The rows and the files of a report that was read. Rows are made from the files if these are listed.

ghost use Rattle.std.specs.Prelude.{◌≡◌, IfOk, map, option_map};
ghost use Rattle.std.specs.List.Sorted.{IsPermutation, IsSortedByKey};
ghost use Rattle.lc_tree.specs.ByteOrder.{bytes_cmp};
ghost use Rattle.lc_reading.specs.Kept.{IsKept, IsKeptOf, IsKeptRows};
ghost use Rattle.lc_reading.specs.Reports.{HaveColumns, row_in};

use crate::adding::{rows_add_up, rows_of_files};
use crate::member_name::MemberName;
use crate::read_fault::{NoReport, Part, ReadFault};
use crate::rows::ReadRow;
use lc_level::Line;
use lc_sheet::Columns;
use lc_walk::{FileLine, Sums, TallyRow, added_up, sort_lines};
use std::alloc::{AllocError, Global};

/// The rows and the files of a report that was read, and the columns of the rows.
#[derive(Debug, Drop)]
pub(crate) struct Kept {
    pub(crate) columns: Columns,
    pub(crate) rows: Vec<TallyRow>,
    pub(crate) has_files: bool,
    pub(crate) files: Vec<FileLine>,
}

/// Sorts lines by their paths. Lines with the same path keep their order.
pub(crate) fn in_order<L: Line + Drop>(mut lines: Vec<L>) -> Result<Vec<L>, AllocError>
    ensures same { IfOk result (λ sorted. IsPermutation lines.items sorted.items) }
    ensures order { IfOk result (λ sorted. IsSortedByKey L.path_of bytes_cmp sorted.items) }
{
    lines.sort_by(|a, b| a.path().cmp(b.path()))?;
    Ok(lines)
}

/// Returns the columns of the rows, which must all have the same ones. Without rows, returns all columns.
pub(crate) fn columns_of_rows(rows: &[ReadRow]) -> Result<Columns, NoReport>
    ensures { IfOk result (λ columns. HaveColumns columns rows.now) }
{
    let Some((first, others)) = rows.split_first() else {
        return Ok(Columns::ALL);
    };
    let columns = first.columns;
    let mut rest = others;
    'rows: while let Some((row, more)) = rest.split_first() {
        if row.columns != columns {
            return Err(NoReport::Bad(MemberName::Rows));
        }
        rest = more;
    }
    Ok(columns)
}

/// Returns the rows in the form of a tally, without their columns.
pub(crate) fn tally_rows(alloc: Global, rows: Vec<ReadRow>) -> Result<Vec<TallyRow>, AllocError>
    ensures { IfOk result (λ tally. tally.items ≡ map row_in rows.items) }
{
    let mut tally = Vec::with_capacity(alloc, rows.len())?;
    for row in rows {
        tally.push(row.row)?;
    }
    Ok(tally)
}

/// Makes the rows of a report from its files. The files and the rows must add up to the total.
fn with_files(alloc: Global, mut files: Vec<FileLine>, total: Sums) -> Result<Kept, ReadFault>
    ensures { IfOk result (IsKeptOf total files.items) }
{
    sort_lines(&mut files);
    let (rows, sums) = rows_of_files(alloc, &files)?;
    if sums != total || !rows_add_up(&rows, total) {
        return Err(ReadFault::DoNotAddUp(Part::Files));
    }
    Ok(Kept {
        columns: Columns::ALL,
        rows,
        has_files: true,
        files,
    })
}

/// Sums the rows of a report that lists no files, one for each key. They must add up to the total.
fn without_files(
    alloc: Global,
    columns: Columns,
    rows: Vec<TallyRow>,
    total: Sums,
) -> Result<Kept, ReadFault>
    ensures { IfOk result (IsKeptRows total columns rows.items) }
{
    let Some(rows) = added_up(rows) else {
        return Err(ReadFault::DoNotAddUp(Part::Rows));
    };
    if !rows_add_up(&rows, total) {
        return Err(ReadFault::DoNotAddUp(Part::Rows));
    }
    Ok(Kept {
        columns,
        rows,
        has_files: false,
        files: Vec::new(alloc),
    })
}

/// Makes the rows from the files, if files are listed or there are none. Otherwise takes the rows that were read.
pub(crate) fn kept_of(
    alloc: Global,
    files: Option<Vec<FileLine>>,
    columns: Columns,
    rows: Vec<TallyRow>,
    total: Sums,
) -> Result<Kept, ReadFault>
    ensures { IfOk result (IsKept (option_map (λ v. v.items) files) columns rows.items total) }
{
    match files {
        Some(files) => with_files(alloc, files, total),
        None => if total.files == 0 {
            with_files(alloc, Vec::new(alloc), total)
        } else {
            without_files(alloc, columns, rows, total)
        },
    }
}
