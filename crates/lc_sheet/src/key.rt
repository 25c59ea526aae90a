//! The keys by which the rows of a table can be grouped, and their names.

ghost use Rattle.std.specs.Prelude.{◌≡◌};
ghost use Rattle.lc_sheet.specs.Keys.{key_name};

use crate::attribute_column::{AttributeColumn, name_at};

/// What the files of a row have in common. A file has a value of each key.
#[derive(Debug, Clone, Copy, PartialEq, Eq)]
pub enum Key {
    /// The directory of the files.
    Dir,
    /// The state for the files of one of the Git attributes that were asked for, the first of which is 0.
    Attribute(u8),
    /// The extension of the files' names.
    Ext,
    /// The state of the Git attribute `text` for the files.
    Text,
    /// How the files' lines end.
    Eol,
}

/// The keys whose names are fixed, in the order of their columns. Those of attributes come after `Dir`.
pub const KEYS: [Key; 4] = [Key::Dir, Key::Ext, Key::Text, Key::Eol];

/// The keys by which the rows of a report are grouped. Rows by any other key are sums over files.
pub const REPORT_KEYS: [Key; 3] = [Key::Ext, Key::Text, Key::Eol];

impl Key {
    /// Returns the name of the key, which is the name of its column too. The name of an attribute's key is among `attributes`.
    pub fn name(self, attributes: &[AttributeColumn]) -> &str
        ensures { result.now ≡ key_name attributes.entry.now self }
    {
        match self {
            Key::Dir => "dir",
            Key::Attribute(place) => name_at(attributes, place),
            Key::Ext => "ext",
            Key::Text => "text",
            Key::Eol => "eol",
        }
    }
}
