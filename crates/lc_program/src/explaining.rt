//! Answers `lc explain`: shows which rule decides each path.

ghost use Rattle.std.specs.Prelude.{◌≡◌, IfOk};
ghost use Rattle.lc_paths.specs.declared.outcome.Outcome.TheVariants.{Clean, SomeFaults};
ghost use Rattle.lc_program.specs.Requests.{AnswersDirectory, AnswersExplanation, AnswersPaths, explained};
ghost use Rattle.lc_program.specs.Systems.{may_of};

use crate::answer::Answer;
use crate::cause::Cause;
use crate::checking::path_end;
use crate::filters::read_filters;
use crate::system::System;
use crate::unlisted::{unexplained_line, why_line};
use crate::unmatched::unmatched_of;
use crate::unread_reason::UnreadReason;
use lc_arguments::ExplainRequest;
use lc_io::{Sink, Source};
use lc_level::Filters;
use lc_paths::{ExplainOptions, Outcome, PathStyle, explain, explain_words};
use lc_tree::{FileSystems, Tree};
use std::alloc::{AllocError, Global};

/// Shows which rule decides each path of the command line, or each path of the input if the command line has no paths.
fn explain_paths<T: Tree, S: Source, O: Sink>(
    alloc: Global,
    tree: &T,
    options: &ExplainOptions<'_>,
    asked: &ExplainRequest<'_>,
    input: &mut S,
    out: &mut O,
) -> Result<Outcome, Cause>
    ensures { AnswersPaths (T.lists tree.now) (T.gives tree.now) S.may_give O.may_take options.now asked.now.null asked.now.paths.items
        input.old out.old result input.new out.new }
{
    if asked.paths.is_empty() {
        let end = path_end(asked.null);
        let outcome = explain(alloc, tree, options, end, input, out)?;
        return Ok(outcome);
    }
    let outcome = explain_words(alloc, tree, options, &asked.paths, out)?;
    Ok(outcome)
}

/// Returns why a directory can't be listed, if the system gives a reason. Refuses a directory that is none by the system's answer, such as
/// a path of the explanation in its place.
fn directory_reason<Y: System>(
    alloc: Global,
    system: &Y,
    directory: &str,
) -> Result<Option<UnreadReason>, Cause>
    ensures { AnswersDirectory (Y.unlists system.now) directory.now result }
{
    match system.why_unlisted(alloc, directory)? {
        Some(reason) if reason.is_no_directory() => {
            let line = unexplained_line(alloc, directory, Some(reason))?;
            Err(Cause::InDirectory(line))
        }
        why => Ok(why),
    }
}

/// Returns what is known of an explanation if it has no errors, and if it has some.
fn answers_of(
    alloc: Global,
    asked: &ExplainRequest<'_>,
    why: Option<UnreadReason>,
) -> Result<(Answer, Answer), AllocError>
    ensures { IfOk result (λ answers. (answers.0 ≡ explained asked.now why Clean) × (answers.1 ≡ explained asked.now why SomeFaults)) }
{
    let unmatched = unmatched_of(alloc, &asked.filters)?;
    let line = why_line(alloc, asked.directory, why)?;
    let faulty = Answer {
        has_faults: true,
        fails: false,
        told: [line.as_str(), unmatched.as_str()].concat(alloc)?,
    };
    let clean = Answer {
        has_faults: false,
        fails: false,
        told: unmatched,
    };
    Ok((clean, faulty))
}

/// Makes the options of an explanation.
fn options_of<'o>(filters: &'o Filters<'_>, style: PathStyle) -> ExplainOptions<'o>
    ensures filters { result.filters.now ≡ filters.entry.now }
    ensures style { result.style ≡ style }
{
    ExplainOptions { filters, style }
}

/// Shows which rule decides each path, by the rules of a directory and of the command line.
pub(crate) fn explain_asked<Y: System, S: Source, O: Sink>(
    alloc: Global,
    system: &Y,
    asked: &ExplainRequest<'_>,
    style: PathStyle,
    input: &mut S,
    out: &mut O,
) -> Result<Answer, Cause>
    ensures { AnswersExplanation (may_of Y.Tree.Tree Y.System system.now)
        S.may_give O.may_take style asked.now input.old out.old result input.new out.new }
{
    let why = directory_reason(alloc, system, asked.directory)?;
    let (clean, faulty) = answers_of(alloc, asked, why)?;
    let filters = read_filters(alloc, system, &asked.filters, &[], None)?;
    let tree = system.tree(alloc, asked.directory, FileSystems::All)?;
    let options = options_of(&filters, style);
    match explain_paths(alloc, &tree, &options, asked, input, out)? {
        Outcome::Clean => Ok(clean),
        Outcome::SomeFaults => Ok(faulty),
    }
}
