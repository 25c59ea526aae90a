//! Texts, names and paths, escaped for HTML.

ghost use Rattle.std.specs.Prelude.{◌≡◌, ◌++◌, OnOk, string_bytes};
ghost use Rattle.lc_picture.specs.Escaping.{escaped_byte, html, is_markup};
ghost use Rattle.lc_text.specs.Names.{name_model, named};
ghost use Rattle.lc_text.specs.Visible.{visible_bytes, visible_path};

use lc_text::{Name, push_visible_name, push_visible_path};
use std::alloc::AllocError;

/// The bytes that can begin or end a tag, a character reference or an attribute.
const MARKUP: &[u8] = b"&<>\"'";

fn is_markup(b: u8) -> bool
    ensures { result ≡ is_markup b }
{
    MARKUP.contains(&b)
}

/// Appends a text. Each byte that could be markup becomes a character reference.
pub(crate) fn push_html(text: &mut Vec<u8>, shown: &[u8]) -> Result<(), AllocError>
    ensures { OnOk result (text.new.items ≡ text.old.items ++ html shown.now) }
{
    for b in shown {
        if is_markup(*b) {
            text.extend_from_slice(&[b'&', b'#', b'0' + *b / 10, b'0' + *b % 10, b';'])?;
        } else {
            text.push(*b)?;
        }
    }
    Ok(())
}

/// Appends a name as a terminal shows it, escaped for HTML.
pub(crate) fn push_name(
    text: &mut Vec<u8>,
    name: Name<'_>,
    made: &mut String,
) -> Result<(), AllocError>
    ensures { OnOk result (text.new.items ≡ text.old.items ++ html (named visible_bytes (name_model name.entry))) }
{
    made.clear();
    push_visible_name(made, name)?;
    push_html(text, made.as_bytes())
}

/// Appends a path, or the last name of a path, as a terminal shows it, escaped for HTML. The empty path of the top becomes a dot.
pub(crate) fn push_path(
    text: &mut Vec<u8>,
    path: &[u8],
    made: &mut String,
) -> Result<(), AllocError>
    ensures { OnOk result (text.new.items ≡ text.old.items ++ html (visible_path path.now)) }
{
    made.clear();
    push_visible_path(made, path)?;
    push_html(text, made.as_bytes())
}
