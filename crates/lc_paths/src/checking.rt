//! Checks of paths by the rules of one file. The input is read to its end before anything is written.
//!
//! - `joined`: splitting one input into rules and paths
//! - `text`: the output of a check, a line for each path
//! - `explained`: the output of a check that also shows which rule ignores or includes each path
//! - `checker`: matching one path after another with the rules
//! - `finding`: what the rules decide about a path

ghost use Rattle.lc_paths.specs.Checks.Answers.{AnswersCheck, AnswersExplainedCheck, no_rules};
ghost use Rattle.lc_paths.specs.Checks.CheckText.{text_by};
ghost use Rattle.lc_paths.specs.Checks.ExplainedText.{explained_text_of};
ghost use Rattle.lc_paths.specs.Checks.Joined.{rules_part, joined_text};
ghost use Rattle.lc_paths.specs.Styles.{styled};

mod checker;
mod explained;
mod finding;
mod joined;
mod text;

use crate::check_fault::CheckFault;
use crate::input::read_input;
use crate::paths::Paths;
use crate::style::PathFormat;
use explained::{RuleLines, print_explained};
use joined::split_joined;
use lc_io::{Sink, Source, print};
use lc_level::RuleText;
use lc_rules::IgnoreFile;
use std::alloc::Global;
pub use text::check_text;

/// Reads paths to the end of the input, and writes a line for each, with a word such as `ignored` ([`check_text`]).
///
/// After any error but `Write` nothing was written.
pub fn check<S: Source, O: Sink>(
    alloc: Global,
    rules: &IgnoreFile,
    format: PathFormat,
    input: &mut S,
    out: &mut O,
) -> Result<(), CheckFault>
    ensures { AnswersCheck S.may_give O.may_take no_rules (text_by (styled format.style) rules.now format.end) input.old out.old result
        input.new out.new }
{
    let paths = read_input(alloc, input)?;
    let text = check_text(alloc, rules, format, &paths)?;
    print(out, &text)?;
    Ok(())
}

/// Reads paths to the end of the input, and writes a line for each, with a word such as `ignored` and the rule that the word follows from.
/// `name` is the name of the rules' file.
///
/// A line of the text has four fields, separated by tabs: the word, as in [`check_text`]; the place of the rule, `NAME:LINE`, with lines
/// counted from 1; the text of that line, with its `!` and without its trailing spaces; and the path. For `below` the rule is that of the
/// highest ignored directory above the path. For `none` and `bad` there is no rule, and the second and third fields are dashes. Name, text
/// and path are printed in the style of `format`.
///
/// The text is written in blocks while it is made ([`Block`](lc_io::Block)). After an error of the input, nothing was written. After any
/// other error, a prefix of the text was written.
pub fn check_explained<S: Source, O: Sink>(
    alloc: Global,
    name: &[u8],
    rules: &RuleText,
    format: PathFormat,
    input: &mut S,
    out: &mut O,
) -> Result<(), CheckFault>
    ensures { AnswersExplainedCheck S.may_give O.may_take (explained_text_of (styled format.style) name.now rules.now format.end) input.old
        out.old result input.new out.new }
{
    let paths = read_input(alloc, input)?;
    let lines = RuleLines::new(alloc, name, rules, format.style)?;
    let paths = Paths::Input(format.end, &paths);
    print_explained(alloc, &lines, paths, out)?;
    Ok(())
}

/// Reads rules, a line `--` and paths from one input, and writes a line for each path, with a word such as `ignored` ([`check_text`]).
///
/// Without a line `--`, all of the input is rules, and there are no paths. After any error but `Write` nothing was written.
pub fn check_joined<S: Source, O: Sink>(
    alloc: Global,
    format: PathFormat,
    input: &mut S,
    out: &mut O,
) -> Result<(), CheckFault>
    ensures { AnswersCheck S.may_give O.may_take rules_part (joined_text (styled format.style) format.end) input.old out.old result
        input.new out.new }
{
    let bytes = read_input(alloc, input)?;
    let (rules, paths) = split_joined(&bytes);
    let rules = IgnoreFile::read(alloc, rules)?;
    let text = check_text(alloc, &rules, format, paths)?;
    print(out, &text)?;
    Ok(())
}
