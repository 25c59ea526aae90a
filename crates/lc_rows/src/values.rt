//! Values of columns that several kinds of lines share, such as rows and files.

ghost use Rattle.std.specs.Prelude.{◌≡◌, map, option_map};
ghost use Rattle.lc_sheet.specs.Values.{value_model};
ghost use Rattle.lc_rows.specs.Kinds.{bar_value, bytes_value, directory_in, directory_value, extension_value, share_value, state_at};
ghost use Rattle.lc_rows.specs.Kinds.{state_value, text_value};
ghost use Rattle.lc_level.specs.FileAttributes.{owned_state};

use crate::shown::number_in;
use lc_level::AttributeState;
use lc_rules::TextState;
use lc_sheet::{Shares, Value};
use lc_text::Name;
use lc_walk::Sums;

/// Makes a value that is printed as these bytes, with nothing before or after them.
pub(crate) fn bytes_value(bytes: &[u8]) -> Value<'_>
    ensures { value_model result ≡ bytes_value bytes.entry.now }
{
    Value::Name(Name {
        front: "",
        bytes,
        end: "",
        line: None,
    })
}

pub(crate) fn extension_value(extension: Option<&[u8]>) -> Value<'_>
    ensures { value_model result ≡ extension_value (option_map (λ name. name.now) extension.entry) }
{
    match extension {
        None => Value::Missing,
        Some(bytes) => Value::Name(Name {
            front: ".",
            bytes,
            end: "",
            line: None,
        }),
    }
}

/// Makes the value of a directory. The empty path of the top directory is shown as a dot.
pub(crate) fn directory_value(path: &[u8]) -> Value<'_>
    ensures { value_model result ≡ directory_value path.entry.now }
{
    if path.is_empty() {
        Value::Name(Name {
            front: ".",
            bytes: path,
            end: "",
            line: None,
        })
    } else {
        bytes_value(path)
    }
}

/// Makes the value of files with or without a directory. Files without one are summed over directories.
pub(crate) fn directory_in(directory: Option<&[u8]>) -> Value<'_>
    ensures { value_model result ≡ directory_in (option_map (λ path. path.now) directory.entry) }
{
    match directory {
        None => Value::Summed,
        Some(path) => directory_value(path),
    }
}

pub(crate) fn text_value<'l>(text: TextState) -> Value<'l>
    ensures { value_model result ≡ text_value text }
{
    match text.word() {
        None => Value::Missing,
        Some(word) => Value::Word(word),
    }
}

/// Makes the value of the attribute at this place among the ones whose states these are. An attribute without a state here is unspecified.
pub(crate) fn state_value(states: &[AttributeState], place: u8) -> Value<'_>
    ensures { value_model result ≡ state_value (state_at (map owned_state states.entry.now) place) }
{
    match states.get(usize::from(place)) {
        None | Some(AttributeState::Unspecified) => Value::Missing,
        Some(AttributeState::Set) => Value::Flag(true),
        Some(AttributeState::Unset) => Value::Flag(false),
        Some(AttributeState::Value(bytes)) => bytes_value(bytes),
    }
}

pub(crate) fn share_value<'l>(shares: Option<Shares>, sums: Sums) -> Value<'l>
    ensures { value_model result ≡ share_value shares sums }
{
    match shares {
        None => Value::Blank,
        Some(shares) => Value::Share {
            part: number_in(shares.number, sums),
            whole: shares.total,
        },
    }
}

pub(crate) fn bar_value<'l>(shares: Option<Shares>, sums: Sums) -> Value<'l>
    ensures { value_model result ≡ bar_value shares sums }
{
    match shares {
        None => Value::Blank,
        Some(shares) => Value::Bar {
            part: number_in(shares.number, sums),
            whole: shares.largest,
        },
    }
}
