//! The shown part of a report, and its sheet.

ghost use Rattle.std.specs.Prelude.{◌≡◌, Option, Some, None, IfOk};
ghost use Rattle.lc_rows.specs.Sheets.{HasFiles, files_section, form_of, largest, listed_files, others_lines};
ghost use Rattle.lc_rows.specs.Sheets.{sheet_of, totals_lines};
ghost use Rattle.lc_rows.specs.Views.{first_of, sums_of_some, view_of};
ghost use Rattle.lc_rows.specs.WalkedReports.{HasFilesFor};

use crate::columns::{
    LISTED_FAULTS, file_columns, first_key, row_columns, skipped_columns, sums_columns,
};
use crate::cut::{split_at_top, sums_of_some};
use crate::kinds::{Faults, Files, NamedSums, Rows, Skipped, Totals};
use crate::shown::{number_in, shown_rows};
use crate::shown_row::ShownRow;
use lc_sheet::{
    AttributeColumn, Column, Form, Format, Number, Section, Shares, Sheet, TableOptions,
};
use lc_walk::{ClassSums, FileLine, Report, Sums};
use std::alloc::{AllocError, Global};
use std::marker::Model;

/// The sheet of a report.
pub type ReportSheet<'a> = Sheet<'a, Rows<'a>, Totals, Files, Skipped, Faults>;

/// The shown part of a report. It owns its rows, which borrow their names from the report. The sheet that [`sheet`](Shown::sheet) returns
/// borrows from the shown part and from the report.
#[derive(Drop)]
pub struct Shown<'a> {
    format: Format,
    form: Form,
    attributes: &'a [AttributeColumn],
    columns: Vec<Column>,
    file_columns: Vec<Column>,
    rows: Vec<ShownRow<'a>>,
    others: Vec<NamedSums>,
    totals: Vec<NamedSums>,
    some_binary: bool,
    lists_files: bool,
    files: &'a [FileLine],
    report: &'a Report,
}

impl<'a> Model for Shown<'a> {
    ghost use Rattle.lc_sheet.specs.Sheets.{SheetModel};
    ghost use Rattle.lc_rows.specs.Sheets.{sheet_with};

    ghost Value = { SheetModel };

    ghost view = { λ s. sheet_with (record {
      format = s.format;
      form = s.form;
      attributes = s.attributes.now;
      columns = s.columns.items;
      file_columns = s.file_columns.items;
      rows = s.rows.items;
      others = s.others.items;
      totals = s.totals.items;
      some_binary = s.some_binary;
      lists_files = s.lists_files;
      files = s.files.now;
    }) s.report.now };
}

fn largest(number: Number, rows: &[ShownRow<'_>]) -> u128
    ensures { result ≡ largest number rows.now }
{
    let mut most = 0;
    for row in rows {
        most = number_in(number, row.sums).max(most);
    }
    most
}

fn form_of(options: &TableOptions, totals: Sums, rows: &[ShownRow<'_>]) -> Form
    ensures { result ≡ form_of options.now totals rows.now }
{
    let shares = if options.share {
        let number = options.sort.unwrap_or(Number::Lines);
        Some(Shares {
            number,
            total: number_in(number, totals),
            largest: largest(number, rows),
        })
    } else {
        None
    };
    Form {
        by: options.by,
        first: first_key(options.output.sheet_format(), options.by),
        shares,
    }
}

fn others_lines(alloc: Global, others: Option<Sums>) -> Result<Vec<NamedSums>, AllocError>
    ensures { IfOk result (λ lines. lines.items ≡ others_lines others) }
{
    let mut lines = Vec::new(alloc);
    if let Some(sums) = others {
        lines.push(NamedSums {
            name: "others",
            sums,
        })?;
    }
    Ok(lines)
}

fn totals_lines(
    alloc: Global,
    totals: Sums,
    classes: ClassSums,
) -> Result<Vec<NamedSums>, AllocError>
    ensures { IfOk result (λ lines. lines.items ≡ totals_lines totals classes) }
{
    let mut lines = Vec::new(alloc);
    lines.push(NamedSums {
        name: "total",
        sums: totals,
    })?;
    lines.push(NamedSums {
        name: "text",
        sums: classes.text,
    })?;
    lines.push(NamedSums {
        name: "binary",
        sums: classes.binary,
    })?;
    Ok(lines)
}

/// Cuts off all rows after the first `top`. If `top` is `None`, no row is cut off.
fn cut(top: Option<u32>, rows: &mut Vec<ShownRow<'_>>)
    ensures { rows.new.items ≡ first_of top rows.old.items }
{
    if let Some(most) = top {
        rows.truncate(most as usize);
    }
}

fn listed_files(listed: bool, files: &[FileLine]) -> &[FileLine]
    ensures { result.now ≡ listed_files listed files.now }
{
    if listed { files } else { &[] }
}

impl<'a> Shown<'a> {
    /// Sums, sorts and cuts the rows of a report, and adds up the rows that are cut off.
    ///
    /// The columns of attributes have the names in `attributes`, in whose order files have their states. Rows by directories or attributes
    /// are sums over the files, which the report must have. The sheet lists files in the order of the report, so the
    /// caller sorts them before, with [`sort_files`](crate::sort_files). An error means that an allocation failed or that sums overflow.
    /// The sums of a walk's rows never overflow.
    pub fn of(
        alloc: Global,
        report: &'a Report,
        options: &TableOptions,
        attributes: &'a [AttributeColumn],
    ) -> Result<Shown<'a>, AllocError>
        requires files { HasFilesFor options.now report.now.lists }
        ensures { IfOk result (λ shown. HasFiles options.now attributes.entry.now report.entry.now report.entry.now.files.items shown) }
    {
        let rows = shown_rows(alloc, &report.rows, &report.files, options.by, options.sort)?;
        let shown = Shown::with_rows(alloc, report, options, attributes, rows)?;
        Ok(shown)
    }

    /// Like [`of`](Shown::of), but shows the given `rows` of the report, which [`shown_rows`] summed and sorted. Cuts these rows, and adds
    /// up the rows that are cut off.
    pub fn with_rows(
        alloc: Global,
        report: &'a Report,
        options: &TableOptions,
        attributes: &'a [AttributeColumn],
        rows: Vec<ShownRow<'a>>,
    ) -> Result<Shown<'a>, AllocError>
        ensures { IfOk result (λ shown. shown ≡ sheet_of options.now attributes.entry.now report.entry.now
            (view_of options.now.top rows.entry.items (listed_files options.now.files report.entry.now.files.items))) }
    {
        let mut rows = rows;
        let (files, _) = split_at_top(options.top, listed_files(options.files, &report.files));
        let (_, rest) = split_at_top(options.top, &rows);
        let others = sums_of_some(rest)?;
        cut(options.top, &mut rows);
        let format = options.output.sheet_format();
        let shown = Shown {
            format,
            form: form_of(options, report.totals, &rows),
            attributes,
            columns: row_columns(alloc, options)?,
            file_columns: file_columns(alloc, format, options.by)?,
            rows,
            others: others_lines(alloc, others)?,
            totals: totals_lines(alloc, report.totals, report.classes)?,
            some_binary: report.classes.binary.files > 0,
            lists_files: options.files,
            files,
            report,
        };
        Ok(shown)
    }

    fn entries(&self) -> Option<u64>
        ensures { result ≡ self.now.entries }
    {
        if self.report.lists.left_out {
            Some(self.report.entries)
        } else {
            None
        }
    }

    fn files_section(&'a self) -> Option<Section<'a, Files>>
        ensures { result ≡ self.entry.now.files }
    {
        if self.lists_files {
            let files = Section::new(self.form, &self.file_columns, self.files);
            Some(files.with_attributes(self.attributes).tagged("file"))
        } else {
            None
        }
    }

    fn skipped_section(&'a self) -> Option<Section<'a, Skipped>>
        ensures { result ≡ self.entry.now.skipped }
    {
        if self.report.lists.left_out {
            let columns = skipped_columns(self.format);
            Some(Section::new(self.form, columns, &self.report.skipped).tagged("left"))
        } else {
            None
        }
    }

    /// Returns the sheet of the shown part. The sheet borrows its lines and columns.
    pub fn sheet(&'a self) -> ReportSheet<'a>
        ensures { result ≡ self.entry.now }
    {
        let sums_columns = sums_columns(self.format, &self.columns);
        let rows = Section::new(self.form, &self.columns, &self.rows);
        let faults = Section::new(self.form, &LISTED_FAULTS, &self.report.faults);
        Sheet {
            rows: rows.with_attributes(self.attributes),
            others: Section::new(self.form, sums_columns, &self.others),
            totals: Section::new(self.form, sums_columns, &self.totals),
            compares: false,
            some_binary: self.some_binary,
            directories: Some(self.report.directories),
            entries: self.entries(),
            files: self.files_section(),
            skipped: self.skipped_section(),
            faults: Some(faults.tagged("fault")),
        }
    }
}
