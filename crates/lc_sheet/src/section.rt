//! The sections of a sheet: lines, each with a value in each column.

ghost use Rattle.std.specs.Prelude.{◌≡◌, [], Some, None, option_map};
ghost use Rattle.lc_sheet.specs.Sheets.{SectionModel, lines_of};

use crate::attribute_column::AttributeColumn;
use crate::column::Column;
use crate::form::Form;
use crate::lines::Lines;
use std::marker::Model;

/// A section of a sheet: lines of the kind `L`, and the columns in which they are shown.
#[derive(Drop)]
pub struct Section<'a, L: Lines> {
    tag: Option<&'static str>,
    form: Form,
    attributes: &'a [AttributeColumn],
    columns: &'a [Column],
    lines: &'a [L::Line],
}

impl<'a, L: Lines> Model for Section<'a, L> {
    ghost use Rattle.std.specs.Prelude.{option_map};
    ghost use Rattle.lc_sheet.specs.Sheets.{SectionModel, lines_of};

    ghost Value = { SectionModel };

    ghost view = { λ s. record {
      tag = option_map (λ t. t.now) s.tag;
      attributes = s.attributes.now;
      columns = s.columns.now;
      lines = lines_of (L.value_in s.form) s.columns.now s.lines.now;
    } };
}

impl<'a, L: Lines> Section<'a, L> {
    /// Makes a section of these lines in these columns.
    pub fn new(form: Form, columns: &'a [Column], lines: &'a [L::Line]) -> Section<'a, L>
        ensures { result ≡ record {
          tag = None;
          attributes = [];
          columns = columns.entry.now;
          lines = lines_of (L.value_in form) columns.entry.now lines.entry.now;
        } }
    {
        Section {
            tag: None,
            form,
            attributes: &[],
            columns,
            lines,
        }
    }

    /// Returns the section with a word that names its lines, as `file` does. Lines of fields begin with this word.
    pub fn tagged(self, tag: &'static str) -> Section<'a, L>
        ensures { result ≡ record self.entry { tag = Some tag.now } }
    {
        Section {
            tag: Some(tag),
            ..self
        }
    }

    /// Returns the section with the columns of the attributes that were asked for.
    pub fn with_attributes(self, attributes: &'a [AttributeColumn]) -> Section<'a, L>
        ensures { result ≡ record self.entry { attributes = attributes.entry.now } }
    {
        Section { attributes, ..self }
    }

    /// Returns the columns of the attributes that were asked for.
    pub fn attributes(&self) -> &'a [AttributeColumn]
        ensures { result.now ≡ self.now.attributes }
    {
        self.attributes
    }

    /// Returns the word that names the lines of the section, if there is one.
    pub fn tag(&self) -> Option<&'static str>
        ensures { option_map (λ t. t.now) result ≡ self.now.tag }
    {
        self.tag
    }

    /// Returns the columns of the section.
    pub fn columns(&self) -> &'a [Column]
        ensures { result.now ≡ self.now.columns }
    {
        self.columns
    }

    /// Returns the form of the section, its columns and its lines.
    pub fn parts(&self) -> (Form, &'a [Column], &'a [L::Line])
        ensures columns { result.1.now ≡ self.now.columns }
        ensures lines { lines_of (L.value_in result.0) result.1.now result.2.now ≡ self.now.lines }
    {
        (self.form, self.columns, self.lines)
    }
}
