//! The columns of Git attributes and of languages, and their names.

ghost use Rattle.std.specs.Prelude.{◌≡◌, ◌++◌, IfOk};
ghost use Rattle.lc_sheet.specs.AttributeColumns.{attribute_of, heading_of, name_at};

use std::alloc::{AllocError, Global};
use std::marker::Model;

/// The column of a Git attribute, named `attr:NAME` after the attribute NAME, or of languages, named `lang`. A language is the value of the
/// attribute `linguist-language`, which the list of languages gives to files that have none.
#[derive(Debug, Drop)]
pub struct AttributeColumn {
    name: String,
}

impl Model for AttributeColumn {
    ghost use Rattle.std.specs.Prelude.{ℕ, List, string_bytes};

    ghost Value = { List ℕ };

    ghost view = { λ c. string_bytes c.name };
}

impl AttributeColumn {
    /// Makes the column with this name.
    pub fn of(alloc: Global, name: &str) -> Result<AttributeColumn, AllocError>
        ensures { IfOk result (λ column. column ≡ name.now) }
    {
        let name = String::from_str(alloc, name)?;
        Ok(AttributeColumn { name })
    }

    /// Returns the name of the column, `attr:NAME` or `lang`.
    pub fn name(&self) -> &str
        ensures { result.now ≡ self.now }
    {
        self.name.as_str()
    }
}

/// Returns the heading of the column with this name: NAME of `attr:NAME`, or else the whole name.
fn heading_of(name: &str) -> &str
    ensures { result.now ≡ heading_of name.entry.now }
{
    match name.strip_prefix("attr:") {
        Some(attribute) => attribute,
        None => name,
    }
}

/// Returns the attribute whose states are in the column with this name.
///
/// ```
/// assert!(rt; attribute_of("attr:team") == "team" && attribute_of("lang") == "linguist-language");
/// ```
pub fn attribute_of(name: &str) -> &str
    ensures { result.now ≡ attribute_of name.entry.now }
{
    if name == "lang" {
        return "linguist-language";
    }
    heading_of(name)
}

/// Returns the name of the column at this place, or an empty name if there is none.
pub(crate) fn name_at(columns: &[AttributeColumn], place: u8) -> &str
    ensures { result.now ≡ name_at columns.entry.now place }
{
    match columns.get(usize::from(place)) {
        None => "",
        Some(column) => column.name(),
    }
}

/// Returns the heading of the column at this place, or an empty heading if there is none.
pub(crate) fn heading_at(columns: &[AttributeColumn], place: u8) -> &str
    ensures { result.now ≡ heading_of (name_at columns.entry.now place) }
{
    match columns.get(usize::from(place)) {
        None => "",
        Some(column) => heading_of(column.name()),
    }
}
