//! The commands that the program suggests on standard error.

ghost use Rattle.std.specs.Prelude.{◌≡◌, ◌++◌, map, string_bytes, IfOk, OnOk};
ghost use Rattle.lc_program.specs.Commands.{count_of, count_of_file, file_count, is_typed, or_here};

use lc_text::{push_quoted, push_visible};
use std::alloc::{AllocError, Global};
use std::path::Path;

/// Returns whether a terminal shows a path as it is, and the path is not empty and does not begin with `-`.
pub(crate) fn is_typed(alloc: Global, path: &str) -> Result<bool, AllocError>
    ensures { IfOk result (λ typed. typed ≡ is_typed path.now) }
{
    if path.is_empty() || path.as_bytes().starts_with(b"-") {
        return Ok(false);
    }
    let mut shown = String::new(alloc);
    push_visible(&mut shown, path.as_bytes())?;
    Ok(shown.as_bytes() == path.as_bytes())
}

/// Appends the command that counts some paths of a directory by the rules of the whole directory.
pub(crate) fn push_count(
    text: &mut String,
    paths: &[&str],
    directory: &str,
) -> Result<(), AllocError>
    ensures { OnOk result (string_bytes text.new ≡ string_bytes text.old ++ count_of (map (λ path. path.now) paths.now) directory.now) }
{
    text.push_str("lc count ")?;
    for path in paths {
        text.push_str("--only ")?;
        push_quoted(text, path)?;
        text.push_str(" ")?;
    }
    push_quoted(text, directory)
}

/// Returns the path of a directory, or a dot if the path is empty, which is the directory that the program runs in.
fn or_here(directory: &str) -> &str
    ensures { result.now ≡ or_here directory.now }
{
    if directory.is_empty() { "." } else { directory }
}

/// Makes the text that suggests the command to count the file with this name in this directory. The text is empty if the command can't be
/// typed as it is shown.
fn count_of_file(alloc: Global, name: &str, directory: &str) -> Result<String, AllocError>
    ensures { IfOk result (λ text. string_bytes text ≡ count_of_file name.now directory.now) }
{
    let mut text = String::new(alloc);
    if is_typed(alloc, name)? && is_typed(alloc, directory)? {
        text.push_str(": ")?;
        push_count(&mut text, &[name], directory)?;
        text.push_str(" counts one file")?;
    }
    Ok(text)
}

/// Makes the text that suggests the command to count the file at a path. The text follows the reason why the path can't be read as a
/// directory, and is empty if the command can't be typed as it is shown.
pub(crate) fn file_count(alloc: Global, path: &str) -> Result<String, AllocError>
    ensures { IfOk result (λ text. string_bytes text ≡ file_count path.now) }
{
    let path = Path::new(path);
    match (path.file_name(), path.parent()) {
        (Some(name), Some(directory)) => count_of_file(alloc, name, or_here(directory.as_str())),
        _ => Ok(String::new(alloc)),
    }
}
