//! Answers `lc check`, and `lc` without arguments: checks paths by the rules of a file or of the input.

ghost use Rattle.std.specs.Prelude.{◌≡◌, false};
ghost use Rattle.lc_program.specs.Requests.{AnswersFile, AnswersJoined};
ghost use Rattle.lc_program.specs.Styles.{end_for, format_with};

use crate::answer::Answer;
use crate::cause::Cause;
use crate::rules_file::rule_text_of_file;
use crate::system::System;
use lc_arguments::CheckRequest;
use lc_io::{Sink, Source};
use lc_paths::{PathFormat, PathStyle, check, check_explained, check_joined};
use lc_text::PathEnd;
use std::alloc::Global;

/// Returns the byte that ends each path of the input, as `--null` says.
pub(crate) fn path_end(null: bool) -> PathEnd
    ensures { result ≡ end_for null }
{
    if null {
        PathEnd::Nul
    } else {
        PathEnd::LineFeed
    }
}

/// Checks the paths of the input by the rules of the file that a command line names. The rules are read first.
pub(crate) fn check_file<Y: System, S: Source, O: Sink>(
    alloc: Global,
    system: &Y,
    asked: &CheckRequest<'_>,
    style: PathStyle,
    input: &mut S,
    out: &mut O,
) -> Result<Answer, Cause>
    ensures { AnswersFile S.may_give O.may_take (Y.holds system.now) (format_with asked.now.null style) asked.now.file.now
        asked.now.explain input.old out.old result input.new out.new }
{
    let format = PathFormat {
        end: path_end(asked.null),
        style,
    };
    let text = rule_text_of_file(alloc, system, asked.file)?;
    if asked.explain {
        check_explained(alloc, asked.file.as_bytes(), &text, format, input, out)?;
        return Ok(Answer::clean(alloc));
    }
    check(alloc, text.rules(), format, input, out)?;
    Ok(Answer::clean(alloc))
}

/// Checks paths by rules, and reads both from the input.
pub(crate) fn check_input<S: Source, O: Sink>(
    alloc: Global,
    style: PathStyle,
    input: &mut S,
    out: &mut O,
) -> Result<Answer, Cause>
    ensures { AnswersJoined S.may_give O.may_take (format_with false style) input.old out.old result input.new out.new }
{
    let format = PathFormat {
        end: PathEnd::LineFeed,
        style,
    };
    check_joined(alloc, format, input, out)?;
    Ok(Answer::clean(alloc))
}
