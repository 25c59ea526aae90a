//! Names as they are printed: the path of an entry, of a rule file or of a directory, or an extension.

ghost use Rattle.std.specs.Prelude.{◌≡◌, ◌++◌, OnOk, string_bytes};
ghost use Rattle.lc_text.specs.Escape.{escape_bytes};
ghost use Rattle.lc_text.specs.Names.{name_model, named};
ghost use Rattle.lc_text.specs.Visible.{visible_bytes};

use crate::escaping::push_escaped;
use crate::visible::push_visible;
use std::alloc::AllocError;
use std::fmt::Write as _;
use std::io::Write as _;

/// Bytes of a path or of an extension, with what is printed before and after them.
///
/// `.c` has the front `.` and the bytes `c`. `src/gen/` has the bytes `src/gen` and the end `/`. `src/.gitignore:3` has the bytes `src/`,
/// the end `.gitignore` and the line 3.
///
/// ```
/// let name = Name { front: ".", bytes: b"c", end: "", line: None };
/// push_name(&mut text, name)?; // .c
/// ```
#[derive(Clone, Copy)]
pub struct Name<'a> {
    /// What is printed before the bytes.
    pub front: &'static str,
    /// The bytes, which are escaped where they are printed.
    pub bytes: &'a [u8],
    /// What is printed after the bytes.
    pub end: &'static str,
    /// A line number, which is printed after a colon at the end.
    pub line: Option<u32>,
}

/// Appends a name, with its bytes escaped as [`push_escaped`] does.
pub fn push_name(text: &mut Vec<u8>, name: Name<'_>) -> Result<(), AllocError>
    ensures { OnOk result (text.new.items ≡ text.old.items ++ named escape_bytes (name_model name.entry)) }
{
    text.extend_from_slice(name.front.as_bytes())?;
    push_escaped(text, name.bytes)?;
    text.extend_from_slice(name.end.as_bytes())?;
    match name.line {
        None => Ok(()),
        Some(line) => write!(text, ":{line}").map_err(|_| AllocError),
    }
}

/// Appends a name, with its bytes escaped as [`push_visible`] does.
pub fn push_visible_name(text: &mut String, name: Name<'_>) -> Result<(), AllocError>
    ensures { OnOk result (string_bytes text.new ≡ string_bytes text.old ++ named visible_bytes (name_model name.entry)) }
{
    text.push_str(name.front)?;
    push_visible(text, name.bytes)?;
    text.push_str(name.end)?;
    match name.line {
        None => Ok(()),
        Some(line) => write!(text, ":{line}"),
    }
}
