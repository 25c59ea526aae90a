//! The lines on standard error about a directory that could not be read, and the reason.

ghost use Rattle.std.specs.Prelude.{◌≡◌, string_bytes, IfOk};
ghost use Rattle.lc_program.specs.Reasons.{count_instead, reason_given, uncounted_line, unexplained_line, why_line};

use crate::commands::file_count;
use crate::unread_reason::UnreadReason;
use lc_text::push_visible;
use std::alloc::{AllocError, Global};

fn reason_given(why: Option<UnreadReason>) -> &'static str
    ensures { result.now ≡ reason_given why }
{
    match why {
        None => "",
        Some(why) => why.text(),
    }
}

/// Makes the text that suggests a command for a file that was named as a directory. The text follows the reason, and is empty if the reason
/// is not `IsFile`.
fn count_instead(alloc: Global, path: &str, why: Option<UnreadReason>) -> Result<String, AllocError>
    ensures { IfOk result (λ text. string_bytes text ≡ count_instead path.now why) }
{
    match why {
        Some(UnreadReason::IsFile) => file_count(alloc, path),
        _ => Ok(String::new(alloc)),
    }
}

/// Makes the line that says that a counted directory could not be read, and why if there is a reason.
pub(crate) fn uncounted_line(
    alloc: Global,
    directory: &str,
    why: Option<UnreadReason>,
) -> Result<String, AllocError>
    ensures { IfOk result (λ text. string_bytes text ≡ uncounted_line directory.now why) }
{
    let instead = count_instead(alloc, directory, why)?;
    let mut text = String::from_str(alloc, "lc: cannot read ")?;
    push_visible(&mut text, directory.as_bytes())?;
    text.push_str(reason_given(why))?;
    text.push_str(&instead)?;
    text.push_str("\n")?;
    Ok(text)
}

/// Makes the line that says that the directory of an explanation, or a report, could not be read, and why if there is a reason.
pub(crate) fn unexplained_line(
    alloc: Global,
    directory: &str,
    why: Option<UnreadReason>,
) -> Result<String, AllocError>
    ensures { IfOk result (λ text. string_bytes text ≡ unexplained_line directory.now why) }
{
    let mut text = String::from_str(alloc, "lc: cannot read ")?;
    push_visible(&mut text, directory.as_bytes())?;
    text.push_str(reason_given(why))?;
    text.push_str("\n")?;
    Ok(text)
}

/// Makes the line that says why the directory of an explanation could not be read. The line is empty if the system gives no reason.
pub(crate) fn why_line(
    alloc: Global,
    directory: &str,
    why: Option<UnreadReason>,
) -> Result<String, AllocError>
    ensures { IfOk result (λ text. string_bytes text ≡ why_line directory.now why) }
{
    match why {
        Some(_) => unexplained_line(alloc, directory, why),
        None => Ok(String::new(alloc)),
    }
}
