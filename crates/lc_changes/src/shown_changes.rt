//! What a comparison of two reports shows, and its sheet.

ghost use Rattle.std.specs.{Prelude.{◌≡◌, IfOk}, List.list_any};
ghost use Rattle.lc_changes.specs.ChangeSheets.{AreChangesOf, HasFilesFor, comparison_of, form_by, other_sums, some_differ};
ghost use Rattle.lc_changes.specs.{Changes.differs, FileChanges.is_changed};
ghost use Rattle.lc_rows.specs.Views.{first_of};

use crate::changed_row::ChangedRow;
use crate::columns::{changed_columns, changed_sums_columns, file_change_columns};
use crate::file_change::FileChange;
use crate::files::changed_files;
use crate::kinds::{ChangedSums, ChangedTotals, Changes, FileChanges};
use crate::options::ChangeOptions;
use crate::rows::compared_rows;
use crate::sorting::{keep_rows, sort_files, sort_rows};
use crate::sums::{other_sums, total_sums};
use lc_rows::{Faults, Skipped, first_key, split_at_top};
use lc_sheet::{AttributeColumn, Column, Columns, Form, Format, Section, Sheet};
use lc_walk::Report;
use std::alloc::{AllocError, Global};
use std::marker::Model;

/// The sheet of a comparison of two reports.
pub type ChangeSheet<'a> = Sheet<'a, Changes<'a>, ChangedTotals, FileChanges<'a>, Skipped, Faults>;

/// What a comparison shows of two reports. It owns its rows and files, which borrow from both reports. The sheet that
/// [`comparison`](ShownChanges::comparison) returns borrows from it.
#[derive(Drop)]
pub struct ShownChanges<'a> {
    format: Format,
    form: Form,
    attributes: &'a [AttributeColumn],
    columns: Vec<Column>,
    file_columns: Vec<Column>,
    rows: Vec<ChangedRow<'a>>,
    others: Vec<ChangedSums>,
    total: Vec<ChangedSums>,
    lists_files: bool,
    files: Vec<FileChange<'a>>,
    some_differ: bool,
}

impl<'a> Model for ShownChanges<'a> {
    ghost use Rattle.lc_changes.specs.ChangeSheets.{ChangesModel, comparison_with};

    ghost Value = { ChangesModel };

    ghost view = { λ s. record {
      sheet = comparison_with (record {
        format = s.format;
        form = s.form;
        attributes = s.attributes.now;
        columns = s.columns.items;
        file_columns = s.file_columns.items;
        rows = s.rows.items;
        others = s.others.items;
        total = s.total.items;
        lists_files = s.lists_files;
        files = s.files.items;
      });
      some_differ = s.some_differ;
    } };
}

fn form_by(format: Format, by: Columns) -> Form
    ensures { result ≡ form_by format by }
{
    Form {
        by,
        first: first_key(format, by),
        shares: None,
    }
}

fn some_rows_differ(rows: &[ChangedRow<'_>]) -> bool
    ensures { result ≡ list_any differs rows.now }
{
    rows.iter().any(|row| row.differs())
}

fn some_files_differ(attributes: u8, files: &[FileChange<'_>]) -> bool
    ensures { result ≡ list_any (is_changed attributes) files.now }
{
    files.iter().any(|file| file.is_changed(attributes))
}

fn some_differ(attributes: u8, rows: &[ChangedRow<'_>], files: &[FileChange<'_>]) -> bool
    ensures { result ≡ some_differ attributes rows.now files.now }
{
    some_rows_differ(rows) || some_files_differ(attributes, files)
}

/// Cuts off all lines after the first `top`. If `top` is `None`, no line is cut off.
fn cut<T: Drop>(top: Option<u32>, lines: &mut Vec<T>)
    ensures { lines.new.items ≡ first_of top lines.old.items }
{
    if let Some(most) = top {
        lines.truncate(most as usize);
    }
}

impl<'a> ShownChanges<'a> {
    /// Compares two reports. Makes a row for each key (the values in the columns `options.by`), with the sums of the old and of the new
    /// report. Drops the rows in which no number changed, unless `options.all` is true. If `options.files` is true, finds the files that
    /// differ. Sorts and cuts the rows and the files.
    ///
    /// The columns of attributes have the names in `attributes`, in whose order the files of both reports have their states. A file differs
    /// also if its state of an attribute does, but only of an attribute that rows are grouped by.
    ///
    /// If rows are by directories or attributes, or if `options.files` is true, both reports must list their files. An error means that an
    /// allocation failed or that sums overflow. The sums of a walk's rows never overflow. The function takes about as long as sorting the
    /// rows and the files of both reports. Each row of both reports takes memory while the reports are compared.
    ///
    /// ```
    /// let changes = ShownChanges::of(alloc, &old, &new, &options, &[])?;
    /// ```
    pub fn of(
        alloc: Global,
        old: &'a Report,
        new: &'a Report,
        options: &ChangeOptions,
        attributes: &'a [AttributeColumn],
    ) -> Result<ShownChanges<'a>, AllocError>
        requires old_files { HasFilesFor options.now old.now.lists }
        requires new_files { HasFilesFor options.now new.now.lists }
        ensures { IfOk result (AreChangesOf options.now attributes.entry.now old.entry.now new.entry.now) }
    {
        let mut rows = compared_rows(alloc, old, new, options.by)?;
        let compared = options.by.attributes;
        let mut files = changed_files(alloc, old, new, options.files, compared)?;
        let some_differ = some_differ(compared, &rows, &files);
        keep_rows(options.all, &mut rows);
        sort_rows(options.sort, &mut rows);
        sort_files(options.sort, &mut files);
        let total = total_sums(alloc, old, new)?;
        let shown = ShownChanges::with_lines(alloc, options, attributes, total, rows, files)?;
        Ok(ShownChanges {
            some_differ,
            ..shown
        })
    }

    /// Keeps the first `options.top` of these rows and of these files, and adds up the rows that are cut off. The caller says whether
    /// something differs.
    fn with_lines(
        alloc: Global,
        options: &ChangeOptions,
        attributes: &'a [AttributeColumn],
        total: Vec<ChangedSums>,
        rows: Vec<ChangedRow<'a>>,
        files: Vec<FileChange<'a>>,
    ) -> Result<ShownChanges<'a>, AllocError>
        ensures { IfOk result (λ shown. shown.sheet
            ≡ comparison_of options.now attributes.entry.now total.items rows.entry.items files.entry.items) }
    {
        let mut rows = rows;
        let mut files = files;
        let (_, cut_rows) = split_at_top(options.top, &rows);
        let others = other_sums(alloc, cut_rows)?;
        cut(options.top, &mut rows);
        cut(options.top, &mut files);
        let shown = ShownChanges {
            format: options.format,
            form: form_by(options.format, options.by),
            attributes,
            columns: changed_columns(alloc, options.format, options.sort, options.by)?,
            file_columns: file_change_columns(alloc, options.format, options.by)?,
            rows,
            others,
            total,
            lists_files: options.files,
            files,
            some_differ: false,
        };
        Ok(shown)
    }

    fn files_section(&'a self) -> Option<Section<'a, FileChanges<'a>>>
        ensures { result ≡ self.entry.now.sheet.files }
    {
        if self.lists_files {
            let files = Section::new(self.form, &self.file_columns, &self.files);
            Some(files.with_attributes(self.attributes))
        } else {
            None
        }
    }

    /// Returns the sheet of the comparison. The sheet borrows its lines and columns.
    pub fn comparison(&'a self) -> ChangeSheet<'a>
        ensures { result ≡ self.entry.now.sheet }
    {
        let sums_columns = changed_sums_columns(self.format, &self.columns);
        let rows = Section::new(self.form, &self.columns, &self.rows);
        Sheet {
            rows: rows.with_attributes(self.attributes),
            others: Section::new(self.form, sums_columns, &self.others),
            totals: Section::new(self.form, sums_columns, &self.total),
            compares: true,
            some_binary: false,
            directories: None,
            entries: None,
            files: self.files_section(),
            skipped: None,
            faults: None,
        }
    }

    /// Returns whether the reports differ in a row, or in a file if files are listed. It does not matter whether the row or file is shown.
    pub fn some_differ(&self) -> bool
        ensures { result ≡ self.now.some_differ }
    {
        self.some_differ
    }
}
