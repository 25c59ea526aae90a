//! Writing the output line of a check or of an explanation for a path.

ghost use Rattle.std.specs.Prelude.{◌≡◌, ◌++◌, OnOk, option_map};
ghost use Rattle.lc_paths.specs.AnswerLines.{place_text, pattern_text, answer_line};
ghost use Rattle.lc_text.specs.Names.{line_end, name_model};
ghost use Rattle.lc_paths.specs.Styles.{styled};

use crate::style::{PathStyle, push_styled};
use lc_text::Name;
use std::alloc::AllocError;
use std::io::Write;

fn push_line_number(text: &mut Vec<u8>, line: Option<u32>) -> Result<(), AllocError>
    ensures { OnOk result (text.new.items ≡ text.old.items ++ line_end line) }
{
    match line {
        None => Ok(()),
        Some(line) => write!(text, ":{line}").map_err(|_| AllocError),
    }
}

/// Appends the place of a rule, such as `src/.gitignore:3`, or the word for another reason. If there is neither, appends a dash.
fn push_place(
    text: &mut Vec<u8>,
    style: PathStyle,
    place: Option<Name<'_>>,
) -> Result<(), AllocError>
    ensures { OnOk result (text.new.items ≡ text.old.items ++ place_text (styled style) (option_map name_model place.entry)) }
{
    let Some(name) = place else {
        return text.extend_from_slice(b"-");
    };
    text.extend_from_slice(name.front.as_bytes())?;
    push_styled(text, style, name.bytes)?;
    text.extend_from_slice(name.end.as_bytes())?;
    push_line_number(text, name.line)
}

/// Appends a pattern, or a dash if there is none.
fn push_pattern(
    text: &mut Vec<u8>,
    style: PathStyle,
    pattern: Option<&[u8]>,
) -> Result<(), AllocError>
    ensures { OnOk result (text.new.items ≡ text.old.items ++ pattern_text (styled style) (option_map (λ p. p.now) pattern.entry)) }
{
    match pattern {
        None => text.extend_from_slice(b"-"),
        Some(pattern) => push_styled(text, style, pattern),
    }
}

/// Appends the output line for a path: a word, the place of the rule that is the cause or another reason, the rule's pattern, and the path.
pub(crate) fn push_answer(
    text: &mut Vec<u8>,
    style: PathStyle,
    word: &str,
    place: Option<Name<'_>>,
    pattern: Option<&[u8]>,
    path: &[u8],
) -> Result<(), AllocError>
    ensures { OnOk result (text.new.items ≡ text.old.items
        ++ answer_line (styled style) word.now (option_map name_model place.entry) (option_map (λ p. p.now) pattern.entry) path.now) }
{
    text.extend_from_slice(word.as_bytes())?;
    text.extend_from_slice(b"\t")?;
    push_place(text, style, place)?;
    text.extend_from_slice(b"\t")?;
    push_pattern(text, style, pattern)?;
    text.extend_from_slice(b"\t")?;
    push_styled(text, style, path)?;
    text.extend_from_slice(b"\n")
}
