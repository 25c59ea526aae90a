//! Explaining many paths, and writing the text in blocks while it is made.

ghost use Rattle.lc_paths.specs.Paths.{paths_in};
ghost use Rattle.lc_paths.specs.Explanations.Answers.{AnswersLines};
ghost use Rattle.lc_paths.specs.Explanations.Explained.{IsExplained};
ghost use Rattle.lc_paths.specs.Explanations.OpenDirs.{MayEnter};

use crate::explaining::explainer::Explainer;
use crate::explaining::output::ExplainOutput;
use crate::explaining::stack_cache::StackCache;
use crate::outcome::Outcome;
use crate::paths::Paths;
use lc_io::{PrintFault, Sink};
use lc_tree::Tree;
use std::alloc::Global;

/// Writes the explanation of each path as a line.
pub(crate) fn print_paths<T: Tree, O: Sink>(
    alloc: Global,
    explainer: &Explainer<'_, T>,
    paths: Paths<'_, '_>,
    out: &mut O,
) -> Result<Outcome, PrintFault>
    ensures { AnswersLines O.may_take explainer.now.style
        (IsExplained (MayEnter (T.lists explainer.now.reader.tree.now) (T.gives explainer.now.reader.tree.now))
        explainer.now.reader.filters.now) (paths_in paths.entry) out.old result out.new }
{
    let mut kept = StackCache::new(alloc)?;
    let mut output = ExplainOutput::new(alloc);
    let mut rest = paths;
    'lines: while let Some((line, others)) = rest.split_first() {
        output.tell(explainer, &mut kept, line)?;
        output.block.print_if_full(out)?;
        rest = others;
    }
    let ExplainOutput { block, outcome } = output;
    block.print_rest(out)?;
    Ok(outcome)
}
