//! The parts that the rows of a table add up: the rows of a report, or its files.

ghost use Rattle.std.specs.Prelude.{◌≡◌, ◌++◌, map, take, IfOk, OnOk};
ghost use Rattle.lc_level.specs.FileAttributes.{owned_state};
ghost use Rattle.lc_rows.specs.Directories.{first_names};
ghost use Rattle.lc_rows.specs.Parts.{sums_of_source};
ghost use Rattle.lc_rows.specs.RowKeys.{row_with};
ghost use Rattle.lc_rows.specs.ShownRows.{part_of_file, part_of_row, parts_of, tally_in};

use crate::cut::split_at_top;
use crate::directories::{first_names, split_path};
use crate::row_key::RowKeyRef;
use crate::shown_row::ShownRow;
use lc_census::Eol;
use lc_level::AttributeState;
use lc_rules::TextState;
use lc_sheet::Columns;
use lc_walk::{FileLine, KeyRef, Sums, TallyRow, extension};
use std::alloc::{AllocError, Global};
use std::marker::Model;

/// Where the sums of a `Part` are stored. A row of a table adds up parts, such as files.
#[derive(Clone, Copy)]
pub(crate) enum Source<'s> {
    /// The part is this file. The counts of the file are the sums of the part.
    File(&'s FileLine),
    /// The part is this row of the report. The sums of the row are the sums of the part.
    Row(&'s TallyRow),
    /// The part is another row of a table, which has these sums.
    Shown(&'s Sums),
}

/// A part that a row of a table adds up: a file, a row of the report, or another row of a table. The part borrows all its bytes.
#[derive(Drop)]
pub(crate) struct Part<'a, 's> {
    pub(crate) key: RowKeyRef<'a>,
    source: Source<'s>,
}

impl<'a, 's> Model for Part<'a, 's> {
    ghost use Rattle.lc_rows.specs.RowKeys.{ShownRowModel};

    ghost Value = { ShownRowModel };

    ghost use Rattle.lc_rows.specs.RowKeys.{row_with};
    ghost use Rattle.lc_rows.specs.Parts.{sums_of_source};

    ghost view = { λ p. row_with p.key (sums_of_source p.source) };
}

impl<'a, 's> Part<'a, 's> {
    /// Makes a part with this key and the sums of a row of a table.
    pub(crate) fn shown(key: RowKeyRef<'a>, sums: &'s Sums) -> Part<'a, 's>
        ensures { result ≡ row_with key.entry sums.now }
    {
        Part {
            key,
            source: Source::Shown(sums),
        }
    }

    /// Returns the sums that the part adds to its row.
    pub(crate) fn sums(&self) -> Sums
        ensures { result ≡ self.now.sums }
    {
        match self.source {
            Source::File(file) => Sums {
                files: 1,
                lines: u128::from(file.count.lines),
                blank: u128::from(file.count.blank),
                bytes: u128::from(file.count.bytes),
            },
            Source::Row(row) => row.sums(),
            Source::Shown(sums) => *sums,
        }
    }
}

fn tally_in<'a>(by: Columns, key: KeyRef<'a>) -> KeyRef<'a>
    ensures { result ≡ tally_in by key.entry }
{
    KeyRef {
        extension: if by.ext { key.extension } else { None },
        text: if by.text {
            key.text
        } else {
            TextState::Unspecified
        },
        eol: if by.eol { key.eol } else { Eol::NoEnd },
    }
}

/// Returns the states of the attributes that rows are grouped by.
fn first_states(by: Columns, file: &FileLine) -> &[AttributeState]
    ensures { map owned_state result.now ≡ take by.attributes file.entry.now.asked }
{
    let (states, _) = split_at_top(Some(u32::from(by.attributes)), &file.attributes.asked);
    states
}

/// Makes a part from a file, with the file's directory cut after `depth` names, if rows have directories.
fn file_part<'a>(by: Columns, depth: Option<u32>, file: &'a FileLine) -> Part<'a, 'a>
    ensures { result ≡ part_of_file by depth file.now }
{
    let (parent, name) = split_path(&file.path);
    let key = tally_in(
        by,
        KeyRef {
            extension: extension(name),
            text: file.text(),
            eol: file.count.eol,
        },
    );
    let directory = depth.map(|depth| first_names(depth as usize, parent));
    Part {
        key: RowKeyRef::of(directory, first_states(by, file), key),
        source: Source::File(file),
    }
}

fn row_parts<'a>(
    alloc: Global,
    rows: &'a [TallyRow],
    by: Columns,
) -> Result<Vec<Part<'a, 'a>>, AllocError>
    ensures { IfOk result (λ parts. parts.items ≡ map (part_of_row by) rows.entry.now) }
{
    let mut parts = Vec::with_capacity(alloc, rows.len())?;
    for row in rows {
        parts.push(Part {
            key: RowKeyRef::of(None, &[], tally_in(by, row.key())),
            source: Source::Row(row),
        })?;
    }
    Ok(parts)
}

/// Makes a part from each file, with the file's directory cut after `depth` names, if rows have directories.
pub(crate) fn file_parts<'a>(
    alloc: Global,
    files: &'a [FileLine],
    by: Columns,
    depth: Option<u32>,
) -> Result<Vec<Part<'a, 'a>>, AllocError>
    ensures { IfOk result (λ parts. parts.items ≡ map (part_of_file by depth) files.entry.now) }
{
    let mut parts = Vec::with_capacity(alloc, files.len())?;
    for file in files {
        parts.push(file_part(by, depth, file))?;
    }
    Ok(parts)
}

/// Pushes a part for each row of a table.
pub(crate) fn push_shown<'a, 's>(
    parts: &mut Vec<Part<'a, 's>>,
    rows: &'s [ShownRow<'a>],
) -> Result<(), AllocError>
    ensures { OnOk result (parts.new.items ≡ parts.old.items ++ rows.entry.now) }
{
    for row in rows {
        parts.push(Part::shown(row.key.copied(), &row.sums))?;
    }
    Ok(())
}

/// Makes a part from each row of a table.
pub(crate) fn shown_parts<'a, 's>(
    alloc: Global,
    rows: &'s [ShownRow<'a>],
) -> Result<Vec<Part<'a, 's>>, AllocError>
    ensures { IfOk result (λ parts. parts.items ≡ rows.now) }
{
    let mut parts = Vec::with_capacity(alloc, rows.len())?;
    push_shown(&mut parts, rows)?;
    Ok(parts)
}

/// Makes the parts that the rows of a table add up: one for each file if rows are by directories or attributes, and otherwise one for each
/// row of the report.
///
/// A part takes 72 bytes. Each path is cut once.
pub(crate) fn parts_of<'a>(
    alloc: Global,
    rows: &'a [TallyRow],
    files: &'a [FileLine],
    by: Columns,
) -> Result<Vec<Part<'a, 'a>>, AllocError>
    ensures { IfOk result (λ parts. parts.items ≡ parts_of by rows.entry.now files.entry.now) }
{
    if by.are_of_files() {
        file_parts(alloc, files, by, by.dir)
    } else {
        row_parts(alloc, rows, by)
    }
}
