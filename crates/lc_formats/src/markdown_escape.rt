//! Escaping texts in the cells of Markdown tables.

ghost use Rattle.std.specs.Prelude.{◌≡◌, ◌++◌, OnOk};
ghost use Rattle.lc_formats.specs.MarkdownCells.{begins_address, cell_byte, is_markup, markdown};

use std::alloc::AllocError;

/// The bytes that Markdown may take as markup in a cell.
const MARKUP: &[u8] = b"\\`*_[]<>&|~$";

fn is_markup(b: u8) -> bool
    ensures { result ≡ is_markup b }
{
    MARKUP.contains(&b)
}

/// Appends a byte of a cell's text, with a backslash before it if Markdown may take the byte as markup. A blank at an end of the text is
/// written as `&#32;`, since Markdown drops blanks at the ends of a cell.
fn push_cell_byte(text: &mut Vec<u8>, at_end: bool, b: u8) -> Result<(), AllocError>
    ensures { OnOk result (text.new.items ≡ text.old.items ++ cell_byte at_end b) }
{
    if is_markup(b) {
        text.extend_from_slice(&[b'\\', b])
    } else if at_end && b == b' ' {
        text.extend_from_slice(b"&#32;")
    } else {
        text.extend_from_slice(&[b])
    }
}

/// Returns whether a text begins with `www.`, `://` or `@`, of which GitHub may make a link together with the text around it.
fn begins_address(shown: &[u8]) -> bool
    ensures { result ≡ begins_address shown.now }
{
    shown.starts_with(b"www.") || shown.starts_with(b"://") || shown.starts_with(b"@")
}

/// Appends a text as the text of a cell: no byte of it is markup, no address in it becomes a link, and no blank at its ends is dropped.
///
/// GitHub looks for addresses with an `@` after it has resolved escapes and references, so only a tag keeps such addresses text.
pub(crate) fn push_markdown(text: &mut Vec<u8>, shown: &[u8]) -> Result<(), AllocError>
    ensures { OnOk result (text.new.items ≡ text.old.items ++ markdown shown.now) }
{
    let mut first = true;
    let mut rest = shown;
    'bytes: while let Some((b, others)) = rest.split_first() {
        push_cell_byte(text, first || others.is_empty(), *b)?;
        if begins_address(rest) {
            // A tag that shows nothing.
            text.extend_from_slice(b"<wbr>")?;
        }
        rest = others;
        first = false;
    }
    Ok(())
}
