//! The values that the lines of a sheet have in its columns.

ghost use Rattle.std.specs.Prelude.{◌≡◌};
ghost use Rattle.lc_sheet.specs.Values.{flag_word};

use lc_text::Name;

/// The value of a line in a column. The value borrows its bytes. The bytes are escaped when the value is printed. Shares and changes are
/// computed only when they are printed.
#[derive(Clone, Copy)]
pub enum Value<'a> {
    /// The line has no value in the column. For example, the file name `Makefile` has no extension.
    Missing,
    /// The line is a sum over all values of the column.
    Summed,
    /// The column does not apply to the line.
    Blank,
    /// A word, such as `crlf`.
    Word(&'static str),
    /// Whether a Git attribute is set. Words for reading are `set` and `unset`.
    Flag(bool),
    /// A name, with what is printed before and after its bytes: an extension, an attribute, or the path of an entry, of a rule's file or of
    /// a directory.
    Name(Name<'a>),
    /// The path of a file, of a skipped entry or of what could not be read. The path of a single counted directory is empty.
    Path(&'a [u8]),
    /// A number.
    Number(u128),
    /// A part of a whole, for a share in per cent.
    Share { part: u128, whole: u128 },
    /// A part of a whole, for a bar.
    Bar { part: u128, whole: u128 },
    /// A number in the old report and in the new one. Its change from the old number to the new one is printed, such as `+1,310`.
    Difference { old: u128, new: u128 },
    /// A number in the old report and in the new one. Its change in per cent of the old number is printed, such as `+7.1%`.
    Growth { old: u128, new: u128 },
}

/// Returns the word for whether an attribute is set, in texts other than JSON.
pub fn flag_word(is_set: bool) -> &'static str
    ensures { result.now ≡ flag_word is_set }
{
    if is_set { "set" } else { "unset" }
}
