//! A sheet: what is shown of a report, or of a comparison of two reports, whatever the format.

use crate::lines::Lines;
use crate::section::Section;
use std::marker::Model;

/// What is shown of a report: its rows, sums, files, skipped entries and errors. What is shown of a comparison of two reports has no
/// counts, no skipped entries and no errors.
#[derive(Drop)]
pub struct Sheet<'a, R: Lines, T: Lines, F: Lines, S: Lines, E: Lines> {
    /// The shown rows of the report's table.
    pub rows: Section<'a, R>,
    /// The sums over the rows that are cut off: one line, or no line if no row is cut off.
    pub others: Section<'a, T>,
    /// The sums over all files. In a report, the sums over text files and over binary files follow: three lines.
    pub totals: Section<'a, T>,
    /// Whether lines have the values of two reports, which are compared.
    pub compares: bool,
    /// Whether some file is binary, so that the sums over text files and over binary files are shown for reading.
    pub some_binary: bool,
    /// The number of directories in a report.
    pub directories: Option<u64>,
    /// The number of entries in a report's directories, if skipped entries are requested.
    pub entries: Option<u64>,
    /// The files, if these are requested.
    pub files: Option<Section<'a, F>>,
    /// The skipped entries of a report, if these are requested.
    pub skipped: Option<Section<'a, S>>,
    /// The errors of a report: what could not be read.
    pub faults: Option<Section<'a, E>>,
}

impl<'a, R: Lines, T: Lines, F: Lines, S: Lines, E: Lines> Model for Sheet<'a, R, T, F, S, E> {
    ghost use Rattle.lc_sheet.specs.Sheets.{SheetModel};

    ghost Value = { SheetModel };

    ghost view = { λ s. record {
      rows = s.rows;
      others = s.others;
      totals = s.totals;
      compares = s.compares;
      some_binary = s.some_binary;
      directories = s.directories;
      entries = s.entries;
      files = s.files;
      skipped = s.skipped;
      faults = s.faults;
    } };
}
