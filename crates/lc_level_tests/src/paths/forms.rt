//! The calls that write a line for each path, with rules, paths and the text that is expected for them.

use lc_io::{BLOCK_SIZE, Sink, Source};
use lc_level::{Filters, read_rule_text};
use lc_paths::{
    CheckFault, ExplainOptions, Outcome, PathFormat, PathStyle, check, check_explained,
    check_joined, explain, explain_words,
};
use lc_rules::IgnoreFile;
use lc_tests::readers::Bytewise;
use lc_tests::writers::{Narrow, WhenFull};
use lc_text::PathEnd;
use lc_tree::{MemTree, Node, Tree};
use std::alloc::{AllocError, Global};
use std::process::Abort;

/// A call that writes a line for each path.
#[derive(Clone, Copy)]
pub(super) enum Form {
    /// The call `check`: the rules are read before, and the input has only paths.
    Check,
    /// The call `check_joined`: the input has the rules, and after them the paths.
    Joined,
    /// The call `check_explained`: the rules are read before, and are printed with the paths of the input.
    CheckExplained,
    /// The call `explain`: the rules are those of a tree, and are printed with the paths of the input.
    Explain,
    /// The call `explain_words`: the rules are those of a tree, and are printed with paths that are arguments.
    ExplainWords,
}

/// A call, the rules of a file `.gitignore`, paths as an input and as arguments, and the expected text.
#[derive(Clone, Copy)]
pub(super) struct Case<'a> {
    pub form: Form,
    pub rules: &'a [u8],
    pub input: &'a [u8],
    pub words: &'a [&'static str],
    pub text: &'a [u8],
}

/// The result of a call, unless an allocation fails.
pub(super) type Answer = Result<Outcome, CheckFault>;

const BY_LINES: PathFormat = PathFormat {
    end: PathEnd::LineFeed,
    style: PathStyle::Escaped,
};

/// Makes options with these filters, and with paths in the style for a pipe.
fn for_a_pipe<'o>(filters: &'o Filters<'_>) -> ExplainOptions<'o> {
    ExplainOptions {
        filters,
        style: PathStyle::Escaped,
    }
}

/// Explains paths by the rules of the tree alone.
pub(super) fn explained<T: Tree, S: Source, O: Sink>(
    alloc: Global,
    tree: &T,
    input: &mut S,
    out: &mut O,
) -> Answer {
    let filters = Filters::none(alloc);
    let options = for_a_pipe(&filters);
    explain(alloc, tree, &options, PathEnd::LineFeed, input, out)
}

fn explained_words<O: Sink>(alloc: Global, tree: &MemTree, words: &[&str], out: &mut O) -> Answer {
    let filters = Filters::none(alloc);
    let options = for_a_pipe(&filters);
    match explain_words(alloc, tree, &options, words, out) {
        Ok(outcome) => Ok(outcome),
        Err(fault) => Err(CheckFault::from(fault)),
    }
}

/// Returns a tree whose top has only an ignore file with these rules.
fn top_with(alloc: Global, rules: &[u8]) -> Result<Node, AllocError> {
    let file = Node::File(rules.to_vec(alloc)?);
    Ok(Node::Dir(vec![in alloc; (b".gitignore".to_vec(alloc)?, file)]?))
}

/// Makes a check. A check that succeeds has the outcome `Clean`.
fn checked<S: Source, O: Sink>(
    alloc: Global,
    form: Form,
    mut rules: &[u8],
    input: &mut S,
    out: &mut O,
) -> Result<(), CheckFault> {
    match form {
        Form::Check => {
            let rules = IgnoreFile::read(alloc, rules)?;
            check(alloc, &rules, BY_LINES, input, out)
        }
        Form::CheckExplained => {
            let Ok(rules) = read_rule_text(alloc, &mut rules) else {
                return Err(CheckFault::Memory);
            };
            check_explained(alloc, b".gitignore", &rules, BY_LINES, input, out)
        }
        _ => check_joined(alloc, BY_LINES, input, out),
    }
}

/// Makes the call of a case with this input.
pub(super) fn called<S: Source, O: Sink>(
    alloc: Global,
    case: &Case<'_>,
    input: &mut S,
    out: &mut O,
) -> Answer {
    if !matches!(case.form, Form::Explain | Form::ExplainWords) {
        checked(alloc, case.form, case.rules, input, out)?;
        return Ok(Outcome::Clean);
    }
    let node = top_with(alloc, case.rules)?;
    let tree = MemTree::new(&node);
    if matches!(case.form, Form::Explain) {
        explained(alloc, &tree, input, out)
    } else {
        explained_words(alloc, &tree, case.words, out)
    }
}

/// Returns the result of a call whose text is shorter than a block, unless an allocation failed. Then nothing was written.
pub(super) fn unrefused(
    rt: &impl Abort,
    answer: Answer,
    out: &Narrow,
) -> Result<Answer, AllocError> {
    if answer == Err(CheckFault::Memory) {
        assert!(rt; out.taken.is_empty());
        return Err(AllocError);
    }
    Ok(answer)
}

/// Returns whether the call of a case stops as expected at a writer with room for `room` bytes: it writes that many bytes of the text, and
/// succeeds exactly if these are all. If an allocation fails, only full blocks were written.
pub(super) fn stops_there<R: AllocGlobal + Abort>(
    rt: &R,
    case: &Case<'_>,
    (step, when_full): (usize, WhenFull),
    room: usize,
) -> Result<bool, AllocError> {
    let mut out = Narrow::new(rt.alloc(), step, room, when_full)?;
    let answer = called(rt.alloc(), case, &mut Bytewise(case.input), &mut out);
    if answer == Err(CheckFault::Memory) {
        let is_short = case.text.len() < BLOCK_SIZE;
        assert!(rt; case.text.starts_with(&out.taken));
        assert!(rt; out.taken.is_empty() || !is_short);
        return Err(AllocError);
    }
    let wanted = if room == case.text.len() {
        Ok(Outcome::Clean)
    } else {
        Err(CheckFault::Write)
    };
    Ok(answer == wanted && case.text.get(..room) == Some(out.taken.as_slice()))
}
