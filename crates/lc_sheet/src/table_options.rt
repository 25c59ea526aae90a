//! The options of a table: its format, its columns, its order, where it is cut, and which files it shows.

ghost use Rattle.std.specs.Prelude.{◌≡◌};
ghost use Rattle.lc_sheet.specs.Formats.{has_records, is_for_reading, keeps_columns, share_columns};
ghost use Rattle.lc_sheet.specs.Keys.{are_all, are_of_files, has_key, with_key};
ghost use Rattle.lc_sheet.specs.Sheets.{sheet_format};

use crate::attribute_column::AttributeColumn;
use crate::column::{Column, Number};
use crate::condition::Condition;
use crate::key::Key;
use lc_text::PathEnd;

/// The format in which the text of a table is written.
#[derive(Debug, Clone, Copy, PartialEq, Eq)]
pub enum Format {
    /// Lines of fields, with tabs between the fields.
    Tsv,
    /// Columns that are as wide as their widest cell, for reading.
    Table,
    /// One JSON object (RFC 8259) on one line.
    Json,
    /// Records of one kind with commas between fields (RFC 4180), and no totals, for databases and spreadsheets.
    Csv,
    /// Tables of GitHub Flavored Markdown.
    Markdown,
}

impl Format {
    /// Returns whether rows have the columns `ext`, `text` and `eol` even if they are summed over them.
    pub fn keeps_columns(self) -> bool
        ensures { result ≡ keeps_columns self }
    {
        matches!(self, Format::Tsv)
    }

    /// Returns whether lines are records: each has all that is known of one thing, and sums are no lines among the rows.
    pub fn has_records(self) -> bool
        ensures { result ≡ has_records self }
    {
        matches!(self, Format::Json | Format::Csv)
    }

    /// Returns the columns that show each row's share of the total.
    pub fn share_columns(self) -> &'static [Column]
        ensures { result.now ≡ share_columns self }
    {
        match self {
            Format::Table => &[Column::Share, Column::Bar],
            Format::Markdown => &[Column::Share],
            Format::Tsv | Format::Json | Format::Csv => &[],
        }
    }
}

/// What a report is shown as: what a value of `--format` names.
#[derive(Debug, Clone, Copy, PartialEq, Eq)]
pub enum Output {
    /// The text of a table.
    Text(Format),
    /// A page of HTML, in place of rows, with boxes for large directories and files, and bars for the 20 largest extensions.
    Picture,
    /// Boxes as a picture has them, each as a line for a terminal. The directories are those down to the depth of `Columns`.
    Tree,
    /// The paths of the listed files, or of the skipped entries if these are listed, as they are, for other programs.
    Paths,
}

impl Output {
    /// Returns the format of the sheet that is shown: a picture draws the sheet of a `Table`, a tree is read as one, and paths are those of
    /// the sheet of a `Csv`.
    pub fn sheet_format(self) -> Format
        ensures { result ≡ sheet_format self }
    {
        match self {
            Output::Text(format) => format,
            Output::Picture | Output::Tree => Format::Table,
            Output::Paths => Format::Csv,
        }
    }

    /// Returns whether it is a text that is laid out for reading, whose rows begin with the largest.
    pub fn is_for_reading(self) -> bool
        ensures { result ≡ is_for_reading self }
    {
        matches!(self, Output::Text(Format::Table | Format::Markdown))
    }
}

/// The columns that the rows of a table are grouped by. Rows that have the same values in these columns are added up.
#[derive(Debug, Clone, Copy, PartialEq, Eq)]
pub struct Columns {
    /// If rows are grouped by directory, the number of names (1 to 256) after which the path of a file's directory is cut. The path is
    /// relative to the counted directory, or begins with the name of one of several.
    pub dir: Option<u32>,
    /// How many of the report's attributes rows are grouped by: the first ones of its list.
    pub attributes: u8,
    /// Whether rows are grouped by the extension of the files' names.
    pub ext: bool,
    /// Whether rows are grouped by the state of the Git attribute `text` for the files.
    pub text: bool,
    /// Whether rows are grouped by how the files' lines end.
    pub eol: bool,
}

impl Columns {
    /// All columns of a report's rows, so that no rows are added up.
    pub const ALL: Columns = Columns {
        dir: None,
        attributes: 0,
        ext: true,
        text: true,
        eol: true,
    };

    /// No columns.
    pub const NONE: Columns = Columns {
        dir: None,
        attributes: 0,
        ext: false,
        text: false,
        eol: false,
    };

    /// Returns these columns and that of one more key. Directories are cut after `depth` names.
    pub fn with(self, key: Key, depth: u32) -> Columns
        ensures { result ≡ with_key key depth self }
    {
        match key {
            Key::Dir => Columns {
                dir: Some(depth),
                ..self
            },
            Key::Attribute(place) => Columns {
                attributes: self.attributes.max(place.saturating_add(1)),
                ..self
            },
            Key::Ext => Columns { ext: true, ..self },
            Key::Text => Columns { text: true, ..self },
            Key::Eol => Columns { eol: true, ..self },
        }
    }

    /// Returns whether rows are sums over files: whether they are grouped by directories or by attributes.
    pub fn are_of_files(self) -> bool
        ensures { result ≡ are_of_files self }
    {
        self.dir.is_some() || self.attributes > 0
    }

    /// Returns whether rows are grouped by all keys of a report's rows, and by no other, so that no rows are added up.
    pub fn are_all(self) -> bool
        ensures { result ≡ are_all self }
    {
        !self.are_of_files() && self.ext && self.text && self.eol
    }

    /// Returns whether rows are grouped by the key.
    pub fn has(self, key: Key) -> bool
        ensures { result ≡ has_key self key }
    {
        match key {
            Key::Dir => self.dir.is_some(),
            Key::Attribute(place) => place < self.attributes,
            Key::Ext => self.ext,
            Key::Text => self.text,
            Key::Eol => self.eol,
        }
    }
}

/// An order of a table's rows and files, as the option `--sort` requests it.
#[derive(Debug, Clone, Copy, PartialEq, Eq)]
pub enum Order {
    /// Rows are in the order of their keys, and files in the order of their paths.
    Name,
    /// Rows and files are in the order of this number, or in a comparison of its change, largest first.
    Largest(Number),
}

/// The options of a table.
///
/// ```
/// let output = Output::Text(Format::Tsv);
/// let options = TableOptions { output, by: Columns::ALL, sort: None, top: Some(10), files: false, share: false };
/// ```
#[derive(Debug, Clone, Copy, PartialEq, Eq)]
pub struct TableOptions {
    /// What the report is shown as: a text in some format, a picture, a tree, or paths.
    pub output: Output,
    /// The columns that the table's rows are grouped by.
    pub by: Columns,
    /// The number by which rows and files are sorted, largest first. Rows with equal numbers are in the order of their keys, and files with
    /// equal numbers in the order of their paths. If this is `None`, all rows and all files are in these orders.
    pub sort: Option<Number>,
    /// The largest number of rows, and of files, that the table shows. If this is `None`, the table shows all of them.
    pub top: Option<u32>,
    /// Whether the table lists the files. If this is false, the report may still list its files, because rows by directory are sums over
    /// these files.
    pub files: bool,
    /// Whether each row shows its share of the total. The formats `Tsv`, `Json` and `Csv` never show shares.
    pub share: bool,
}

/// The options with which a report is shown: what was counted, which files are shown, and the options of the table.
#[derive(Clone, Copy)]
pub struct ReportOptions<'c> {
    /// The options of the table.
    pub table: TableOptions,
    /// The conditions on files. Only the files that meet all conditions are shown and summed.
    pub conditions: &'c [Condition<'c>],
    /// The columns of the attributes that were asked for: those that rows are grouped by, and then those that only conditions test.
    pub attributes: &'c [AttributeColumn],
    /// What was counted or summed, in a few words. Pictures and trees show this title.
    pub title: &'c [u8],
    /// Which files were chosen, such as `where ext=.c, without build/`, or nothing if no option chooses files. A picture shows this text.
    pub chosen: &'c [u8],
    /// What ends each path of the output `Paths`.
    pub end: PathEnd,
}
