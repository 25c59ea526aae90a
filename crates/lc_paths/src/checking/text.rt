//! The output of a check: a line for each path.

ghost use Rattle.std.specs.Prelude.{◌≡◌, ◌++◌, OnOk, IfOk};
ghost use Rattle.lc_paths.specs.Checks.CheckText.{file_verdict, checked_line, text_by};
ghost use Rattle.lc_paths.specs.Styles.{styled};

use crate::checking::checker::Checker;
use crate::paths::Paths;
use crate::style::{PathFormat, PathStyle, push_styled};
use lc_rules::IgnoreFile;
use lc_text::split_slash;
use std::alloc::{AllocError, Global};

/// Appends the output line for a path. `line` is the path as it was read, perhaps with a slash at its end.
fn push_checked<'a>(
    checker: &mut Checker<'a>,
    style: PathStyle,
    line: &'a [u8],
    text: &mut Vec<u8>,
) -> Result<(), AllocError>
    ensures text { OnOk result (text.new.items
        ≡ text.old.items ++ checked_line (styled style) (file_verdict checker.old.rules.now) line.now) }
    ensures rules { checker.new.rules.now ≡ checker.old.rules.now }
{
    let (path, is_dir) = split_slash(line);
    text.extend_from_slice(checker.find(path, is_dir).word().as_bytes())?;
    text.extend_from_slice(b"\t")?;
    push_styled(text, style, line)?;
    text.extend_from_slice(b"\n")
}

/// Returns the output of a check of paths: a line for each, with a word such as `ignored`.
///
/// A line of the text is a word, a tab and the path, in the style of `format`. One slash at a path's end means a directory. The word is the
/// first of these that holds:
///
/// - `bad`: no entry of a tree can have this path, or it has over 4,096 bytes;
/// - `below`: some directory above the path is ignored, so that nothing can include it again (gitignore(5), PATTERN FORMAT);
/// - `ignored` or `included`: the last rule that matches the path ignores it, or includes it again;
/// - `none`: no rule matches the path.
pub fn check_text(
    alloc: Global,
    rules: &IgnoreFile,
    format: PathFormat,
    paths: &[u8],
) -> Result<Vec<u8>, AllocError>
    ensures { IfOk result (λ text. text.items ≡ text_by (styled format.style) rules.now format.end paths.now) }
{
    let mut checker = Checker::new(rules);
    let mut text = Vec::new(alloc);
    let mut rest = Paths::Input(format.end, paths);
    'lines: while let Some((line, others)) = rest.split_first() {
        push_checked(&mut checker, format.style, line, &mut text)?;
        rest = others;
    }
    Ok(text)
}
