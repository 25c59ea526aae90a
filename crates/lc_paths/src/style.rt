//! The styles in which paths are printed: for a program, and for a terminal.

ghost use Rattle.std.specs.Prelude.{◌≡◌, ◌++◌, OnOk};
ghost use Rattle.lc_paths.specs.Styles.{styled};
ghost use Rattle.lc_text.specs.Visible.{visible_bytes};

use lc_text::{PathEnd, push_escaped, push_visible};
use std::alloc::AllocError;

/// The style in which the bytes of paths and of patterns are printed.
#[derive(Debug, Clone, Copy, PartialEq, Eq)]
pub enum PathStyle {
    /// For a pipe or a file: a program can read the bytes back ([`push_escaped`]).
    Escaped,
    /// For a terminal: nothing in the bytes moves the cursor or turns the direction of text ([`push_visible`]).
    Visible,
}

/// Which byte ends each path of an input, and the style in which paths are printed. Each line that is printed ends with a line feed.
#[derive(Debug, Clone, Copy, PartialEq, Eq)]
pub struct PathFormat {
    pub end: PathEnd,
    pub style: PathStyle,
}

fn push_visible_bytes(text: &mut Vec<u8>, bytes: &[u8]) -> Result<(), AllocError>
    ensures { OnOk result (text.new.items ≡ text.old.items ++ visible_bytes bytes.now) }
{
    let mut shown = String::new(*text.allocator());
    push_visible(&mut shown, bytes)?;
    text.extend_from_slice(shown.as_bytes())
}

/// Appends bytes, escaped as the style requires.
///
/// ```
/// push_styled(&mut text, PathStyle::Escaped, "a\u{202e}b\n".as_bytes())?; // only the line feed becomes the four bytes `\x0a`
/// push_styled(&mut text, PathStyle::Visible, "a\u{202e}b\n".as_bytes())?; // appends the text `a\xe2\x80\xaeb\x0a`
/// ```
pub fn push_styled(text: &mut Vec<u8>, style: PathStyle, bytes: &[u8]) -> Result<(), AllocError>
    ensures { OnOk result (text.new.items ≡ text.old.items ++ styled style bytes.now) }
{
    match style {
        PathStyle::Escaped => push_escaped(text, bytes),
        PathStyle::Visible => push_visible_bytes(text, bytes),
    }
}
