//! The columns of a sheet, with their names, their headings and the sides at which values are aligned.

ghost use Rattle.std.specs.Prelude.{◌≡◌};
ghost use Rattle.lc_sheet.specs.ColumnWords.{column_front, column_name, column_word, compared_column, compared_name, difference_name};
ghost use Rattle.lc_sheet.specs.ColumnWords.{heading_name, number_name, plain_name, side_of};
ghost use Rattle.lc_text.specs.Names.{name_model};

use crate::attribute_column::{AttributeColumn, heading_at};
use crate::key::Key;
use lc_text::Name;

/// One of the numbers that a row or a file has. Rows and files can be sorted by one of these numbers, largest first.
#[derive(Debug, Clone, Copy, PartialEq, Eq)]
pub enum Number {
    /// The number of files.
    Files,
    /// The number of lines.
    Lines,
    /// The number of blank lines.
    Blank,
    /// The number of bytes.
    Bytes,
}

/// Which value is compared in two reports. For a file, the value is that of a key, or a number. For a row, the value is always a number.
#[derive(Debug, Clone, Copy, PartialEq, Eq)]
pub enum Compared {
    /// The value of a key, such as how the file's lines end.
    Key(Key),
    /// One of the numbers of a file or of a row.
    Number(Number),
}

/// The side of a column at which a value is aligned.
#[derive(Debug, Clone, Copy, PartialEq, Eq)]
pub enum Side {
    /// Words are at the left.
    Left,
    /// Numbers are at the right.
    Right,
    /// Neither side: the value ends its line without padding, as paths do.
    End,
}

/// A column of a sheet. Each section of the sheet, such as the rows, has some of these columns.
#[derive(Debug, Clone, Copy, PartialEq, Eq)]
pub enum Column {
    /// What the files have in common, such as their extension.
    Key(Key),
    /// One of the numbers of a row or of a file.
    Number(Number),
    /// The line's share of the total.
    Share,
    /// A bar whose length shows a number of the line, such as bytes. The `number` of `Shares` says which number this is.
    Bar,
    /// The path of a file, or of a skipped entry.
    Path,
    /// What a skipped entry is: `file`, `dir` or `other`.
    Kind,
    /// Why an entry is skipped.
    Reason,
    /// The file and line of the rule that skips an entry, or the Git attribute that skips the entry.
    Place,
    /// The path of a skipped entry, with a slash at the end if the entry is a directory other than `.git`.
    Entry,
    /// The file of the rule that skips an entry.
    File,
    /// The line number of the rule that skips an entry, in the rule's file.
    Line,
    /// The Git attribute that skips an entry.
    Attribute,
    /// Why something could not be read.
    Fault,
    /// The path of what could not be read.
    Site,
    /// What became of a file from the old report to the new one: `added`, `removed` or `changed`.
    Change,
    /// The value of a file or of a row in the old report.
    Old(Compared),
    /// The value of a file or of a row in the new report.
    New(Compared),
    /// The change of a number, with its sign. This column follows the column of the number, and has no heading.
    Difference(Number),
    /// The change of a number in per cent of the old number. This column follows the column of the change, and has no name and no heading.
    Growth(Number),
}

impl Number {
    /// Returns the name of the number, which is its heading too.
    pub fn name(self) -> &'static str
        ensures { result.now ≡ number_name self }
    {
        match self {
            Number::Files => "files",
            Number::Lines => "lines",
            Number::Blank => "blank",
            Number::Bytes => "bytes",
        }
    }
}

impl Compared {
    /// Returns the column of the compared value in a table of one report.
    pub fn column(self) -> Column
        ensures { result ≡ compared_column self }
    {
        match self {
            Compared::Key(key) => Column::Key(key),
            Compared::Number(number) => Column::Number(number),
        }
    }

    /// Returns the name of the compared column, such as `eol` or `lines`.
    fn name(self, attributes: &[AttributeColumn]) -> &str
        ensures { result.now ≡ compared_name attributes.entry.now self }
    {
        match self {
            Compared::Key(key) => key.name(attributes),
            Compared::Number(number) => number.name(),
        }
    }
}

fn difference_name(number: Number) -> &'static str
    ensures { result.now ≡ difference_name number }
{
    match number {
        Number::Files => "files_change",
        Number::Lines => "lines_change",
        Number::Blank => "blank_change",
        Number::Bytes => "bytes_change",
    }
}

/// Makes a name that is printed as this text alone.
fn plain_name(text: &[u8]) -> Name<'_>
    ensures { name_model result ≡ plain_name text.entry.now }
{
    Name {
        front: "",
        bytes: text,
        end: "",
        line: None,
    }
}

impl Column {
    /// Returns what the name of the column begins with, if the column has the value of one of two reports.
    fn front(self) -> &'static str
        ensures { result.now ≡ column_front self }
    {
        match self {
            Column::Old(_) => "old_",
            Column::New(_) => "new_",
            _ => "",
        }
    }

    /// Returns the name of the column without `old_` and `new_`. The names of attributes' columns are `attributes`.
    pub fn word(self, attributes: &[AttributeColumn]) -> &str
        ensures { result.now ≡ column_word attributes.entry.now self }
    {
        match self {
            Column::Key(key) => key.name(attributes),
            Column::Number(number) => number.name(),
            Column::Share => "share",
            Column::Bar => "bar",
            Column::Path | Column::Site => "path",
            Column::Kind => "kind",
            Column::Reason => "reason",
            Column::Place => "place",
            Column::Entry => "entry",
            Column::File => "file",
            Column::Line => "line",
            Column::Attribute => "attribute",
            Column::Fault => "word",
            Column::Change => "change",
            Column::Old(compared) | Column::New(compared) => compared.name(attributes),
            Column::Difference(number) => difference_name(number),
            Column::Growth(_) => "",
        }
    }

    /// Returns the name of the column in the formats that programs read, such as `lines`, `attr:NAME` or `old_eol`.
    pub fn name(self, attributes: &[AttributeColumn]) -> Name<'_>
        ensures { name_model result ≡ column_name attributes.entry.now self }
    {
        Name {
            front: self.front(),
            ..plain_name(self.word(attributes).as_bytes())
        }
    }

    /// Returns the heading of the column in the formats that people read. A few columns have a heading that differs from their name, or
    /// have an empty heading. The heading of an attribute is its name.
    pub fn heading(self, attributes: &[AttributeColumn]) -> Name<'_>
        ensures { name_model result ≡ heading_name attributes.entry.now self }
    {
        let text = match self {
            Column::Key(Key::Attribute(place))
            | Column::Old(Compared::Key(Key::Attribute(place)))
            | Column::New(Compared::Key(Key::Attribute(place))) => heading_at(
                attributes, place,
            ).as_bytes(),
            Column::Bar | Column::Difference(_) => b"".as_slice(),
            Column::Path => b"file".as_slice(),
            Column::Reason => b"left out".as_slice(),
            Column::Place => b"by".as_slice(),
            Column::Entry => b"path".as_slice(),
            Column::Fault => b"fault".as_slice(),
            Column::Key(_)
            | Column::Number(_)
            | Column::Share
            | Column::Kind
            | Column::File
            | Column::Line
            | Column::Attribute
            | Column::Site
            | Column::Change
            | Column::Old(_)
            | Column::New(_)
            | Column::Growth(_) => self.word(attributes).as_bytes(),
        };
        plain_name(text)
    }

    /// Returns the side at which the values of the column are aligned.
    pub fn side(self) -> Side
        ensures { result ≡ side_of self }
    {
        match self {
            Column::Number(_)
            | Column::Share
            | Column::Old(Compared::Number(_))
            | Column::New(Compared::Number(_))
            | Column::Difference(_)
            | Column::Growth(_) => Side::Right,
            Column::Path | Column::Entry | Column::Site => Side::End,
            _ => Side::Left,
        }
    }
}
