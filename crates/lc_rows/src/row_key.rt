//! The key of a row of a table, and the order of keys.

ghost use Rattle.std.specs.Prelude.{◌≡◌, map, option_map};
ghost use Rattle.std.specs.Option.{option_cmp};
ghost use Rattle.lc_tree.specs.ByteOrder.{bytes_cmp};
ghost use Rattle.lc_sheet.specs.Values.{value_model};
ghost use Rattle.lc_sheet.specs.declared.key.Key.TheVariants.{Dir, Ext};
ghost use Rattle.lc_walk.specs.Key.{key_cmp};
ghost use Rattle.lc_rows.specs.Kinds.{key_value};
ghost use Rattle.lc_level.specs.FileAttributes.{owned_state};
ghost use Rattle.lc_rows.specs.RowKeys.{file_key_cmp, row_key_cmp};
ghost use Rattle.lc_rows.specs.TreeRows.{depth_first_cmp, path_cmp};

use crate::depth_first::compare_paths;
use crate::states::compare_states;
use crate::values::{directory_in, extension_value, state_value, text_value};
use lc_census::Eol;
use lc_level::AttributeState;
use lc_rules::TextState;
use lc_sheet::{Key, Value};
use lc_walk::{KeyRef, eol_rank, text_rank};
use std::cmp::Ordering;
use std::marker::Model;

/// The key of a row of a table: what the files of the row have in common. The directory and the extension are borrowed.
#[derive(Drop)]
pub struct RowKeyRef<'a> {
    /// The directory that holds the files, or one above it, if rows are by directory. Its path may be cut after some names. The path of the
    /// top directory is empty.
    pub directory: Option<&'a [u8]>,
    /// The states of the attributes by which rows are grouped, in the order of the columns.
    pub attributes: &'a [AttributeState],
    /// The extension of the files' names, if they have one and rows are by extension.
    pub extension: Option<&'a [u8]>,
    /// The state of the Git attribute `text` for the files, or `Unspecified` if rows are not by this state.
    pub text: TextState,
    /// How the files' lines end, or `NoEnd` if rows are not by line ends.
    pub eol: Eol,
}

impl<'a> Model for RowKeyRef<'a> {
    ghost use Rattle.std.specs.Prelude.{map, option_map};
    ghost use Rattle.lc_level.specs.FileAttributes.{owned_state};
    ghost use Rattle.lc_rows.specs.RowKeys.{RowKey};

    ghost Value = { RowKey };

    ghost view = { λ k. record {
      directory = option_map (λ s. s.now) k.directory;
      key = record {
        attributes = map owned_state k.attributes.now;
        tally = record { extension = option_map (λ s. s.now) k.extension; text = k.text; eol = k.eol };
      };
    } };
}

impl<'a> RowKeyRef<'a> {
    /// Makes the key of a row from a directory, the states of attributes, and a key of the tally.
    pub(crate) fn of(
        directory: Option<&'a [u8]>,
        attributes: &'a [AttributeState],
        key: KeyRef<'a>,
    ) -> RowKeyRef<'a>
        ensures { result ≡ record {
          directory = option_map (λ s. s.now) directory.entry;
          key = record { attributes = map owned_state attributes.entry.now; tally = key.entry };
        } }
    {
        RowKeyRef {
            directory,
            attributes,
            extension: key.extension,
            text: key.text,
            eol: key.eol,
        }
    }

    /// Returns the same key, with the same borrowed bytes.
    pub fn copied(&self) -> RowKeyRef<'a>
        ensures { result ≡ self.now }
    {
        RowKeyRef {
            directory: self.directory,
            attributes: self.attributes,
            extension: self.extension,
            text: self.text,
            eol: self.eol,
        }
    }

    fn directory_value(&self) -> Value<'_>
        ensures { value_model result ≡ key_value Dir self.now }
    {
        let directory = self.directory;
        directory_in(directory)
    }

    fn extension_value(&self) -> Value<'_>
        ensures { value_model result ≡ key_value Ext self.now }
    {
        let extension = self.extension;
        extension_value(extension)
    }

    /// Returns the value of the row's files in the column of a key.
    pub(crate) fn value(&self, key: Key) -> Value<'_>
        ensures { value_model result ≡ key_value key self.now }
    {
        match key {
            Key::Dir => self.directory_value(),
            Key::Attribute(place) => state_value(self.attributes, place),
            Key::Ext => self.extension_value(),
            Key::Text => text_value(self.text),
            Key::Eol => Value::Word(self.eol.as_str()),
        }
    }

    /// Compares two keys in the order of a table's rows: by directory, and then by the other columns.
    #[tactic(auto, unfolding(crate::specs::RowKeys::row_key_cmp))]
    pub fn compare(&self, other: &RowKeyRef<'_>) -> Ordering
        ensures { result ≡ row_key_cmp self.now other.now }
    {
        compare_bytes(self.directory, other.directory).then(self.compare_columns(other))
    }

    /// Compares two keys in the order of the rows of a tree of directories: depth first, and then by the other columns.
    #[tactic(auto, unfolding(crate::specs::TreeRows::depth_first_cmp))]
    pub(crate) fn compare_depth_first(&self, other: &RowKeyRef<'_>) -> Ordering
        ensures { result ≡ depth_first_cmp self.now other.now }
    {
        compare_directories(self.directory, other.directory).then(self.compare_columns(other))
    }

    /// Compares two keys by all columns but the directory.
    #[tactic(auto, unfolding(crate::specs::RowKeys::file_key_cmp))]
    fn compare_columns(&self, other: &RowKeyRef<'_>) -> Ordering
        ensures { result ≡ file_key_cmp self.now.key other.now.key }
    {
        compare_states(self.attributes, other.attributes).then(self.compare_tally(other))
    }

    /// Compares two keys by the columns of a report's rows.
    #[tactic(auto, unfolding(lc_walk::specs::Key::key_cmp))]
    fn compare_tally(&self, other: &RowKeyRef<'_>) -> Ordering
        ensures { result ≡ key_cmp self.now.key.tally other.now.key.tally }
    {
        compare_bytes(self.extension, other.extension)
            .then(text_rank(self.text).cmp(&text_rank(other.text)))
            .then(eol_rank(self.eol).cmp(&eol_rank(other.eol)))
    }
}

/// Compares optional directories, depth first. `None` comes first.
fn compare_directories(a: Option<&[u8]>, b: Option<&[u8]>) -> Ordering
    ensures { result ≡ option_cmp path_cmp (option_map (λ s. s.now) a.entry) (option_map (λ s. s.now) b.entry) }
{
    match (a, b) {
        (None, None) => Ordering::Equal,
        (None, Some(_)) => Ordering::Less,
        (Some(_), None) => Ordering::Greater,
        (Some(a), Some(b)) => compare_paths(a, b),
    }
}

/// Compares optional bytes. `None` comes first.
fn compare_bytes(a: Option<&[u8]>, b: Option<&[u8]>) -> Ordering
    ensures { result ≡ option_cmp bytes_cmp (option_map (λ s. s.now) a.entry) (option_map (λ s. s.now) b.entry) }
{
    a.cmp(&b)
}
