//! Explanations of paths: which rule of a tree ignores or includes a path, as `git check-ignore -v -n` shows it.
//!
//! - `explain_options`: the options of an explanation
//! - `top_text`: the text of the rules of `--exclude` and `--exclude-from`
//! - `open_dir`: a directory that was opened to explain a path below it
//! - `dir_stack`: the opened directories from the top directory of the tree down to one directory
//! - `stack_cache`: a cache of such lists of opened directories, so that a directory is not opened again for a later path
//! - `finding`: the explanation of a path, before it is printed
//! - `explainer`: explaining one path, from the top of the tree down
//! - `output`: the text of an explanation
//! - `printing`: explaining many paths, and writing the text in blocks

ghost use Rattle.std.specs.Prelude.{map};
ghost use Rattle.lc_paths.specs.Explanations.Answers.{MaySay, AnswersLines, AnswersExplain};

mod dir_stack;
mod explain_options;
mod explainer;
mod finding;
mod open_dir;
mod output;
mod printing;
mod stack_cache;
mod top_text;

use crate::check_fault::CheckFault;
use crate::input::read_input;
use crate::outcome::Outcome;
use crate::paths::Paths;
pub use explain_options::ExplainOptions;
use explainer::Explainer;
use lc_io::{PrintFault, Sink, Source};
use lc_text::PathEnd;
use lc_tree::Tree;
use printing::print_paths;
pub use stack_cache::MAX_KEPT;
use std::alloc::Global;

/// Reads paths to the end of the input, at most [`MAX_INPUT`](crate::MAX_INPUT) bytes, and writes which rule of a tree ignores or
/// includes each path.
///
/// A line of the output has four fields, separated by tabs: a word, the source of the rule, its pattern, and the path as it was read. Paths
/// and patterns are printed in the style of the options. `./` at the beginning of a path is ignored. `.` alone is the tree's top directory,
/// which no rule ignores or includes: its word is `none`. A path that ends with one slash counts as a directory, unless its entry is
/// neither a file nor a directory. Any other path has the kind of its entry, or counts as a file if the tree has no such entry. The word is
/// the first of these that holds, from the top directory down to the path:
///
/// - `bad`: no entry of a tree can have this path, or it has over 4,096 bytes;
/// - `fault`: a directory above the path could not be listed, or a rule file could not be read. The next fields are the word of the error,
///   a dash and the path that could not be read;
/// - `below`: a rule ignores a directory above the path; the line names the rule of the highest such directory;
/// - `ignored`: the last rule that matches the path ignores it;
/// - `left`: a walk skips the path, or a directory above it, for a reason other than a rule. The second field is this reason: `git` for the
///   name `.git`, whatever the rules are; `attribute:ATTR` or `attribute:ATTR=VALUE` if the attribute ATTR is set, or has this value;
///   `include` for a file that no pattern of `--include` includes; `other` for what is neither a file nor a directory; `filesystem` for a
///   directory on another file system;
/// - `included`, `none`: the last rule that matches the path includes it again, or no rule matches.
///
/// The source of a rule is its file and the number of its line, such as `src/.gitignore:3`, or `--exclude:N` for the Nth pattern of the
/// command line. The pattern is the text of that line.
///
/// The text is written in blocks while it is made ([`Block`](lc_io::Block)). If the input can't be read, nothing was written. After any
/// other error a prefix of the text was written, perhaps all of it.
///
/// Each directory is listed once, and its rules are read once, in any order of the paths, if the opened directories use at most about
/// [`MAX_KEPT`](crate::MAX_KEPT) bytes. If the opened directories use more, a directory may be listed and its rules may be read again,
/// unless the paths come in the order in which a walk visits them.
///
/// ```
/// let tree = SysTree::new(&rt, rt.alloc(), ".", FileSystems::All)?;
/// let filters = Filters::none(alloc);
/// let options = ExplainOptions { filters: &filters, style: PathStyle::Escaped };
/// let mut input = b"a.log\nsrc/\n".as_slice();
/// let outcome = explain(rt.alloc(), &tree, &options, PathEnd::LineFeed, &mut input, &mut out)?;
/// ```
pub fn explain<T: Tree, S: Source, O: Sink>(
    alloc: Global,
    tree: &T,
    options: &ExplainOptions,
    end: PathEnd,
    input: &mut S,
    out: &mut O,
) -> Result<Outcome, CheckFault>
    ensures { AnswersExplain O.may_take options.now.style (MaySay (T.lists tree.now) (T.gives tree.now) options.now) end S.may_give
        input.old out.old result input.new out.new }
{
    let paths = read_input(alloc, input)?;
    let explainer = Explainer::new(alloc, tree, options)?;
    let outcome = print_paths(alloc, &explainer, Paths::Input(end, &paths), out)?;
    Ok(outcome)
}

/// Like [`explain`], but for the paths in `words` instead of the paths of an input.
///
/// The text is written in blocks. If the function returns an error, a prefix of the text was written.
pub fn explain_words<T: Tree, O: Sink>(
    alloc: Global,
    tree: &T,
    options: &ExplainOptions,
    words: &[&str],
    out: &mut O,
) -> Result<Outcome, PrintFault>
    ensures { AnswersLines O.may_take options.now.style (MaySay (T.lists tree.now) (T.gives tree.now) options.now)
        (map (λ word. word.now) words.now) out.old result out.new }
{
    let explainer = Explainer::new(alloc, tree, options)?;
    print_paths(alloc, &explainer, Paths::Words(words), out)
}
