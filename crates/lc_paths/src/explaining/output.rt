//! The text of an explanation.

ghost use Rattle.std.specs.Prelude.{◌≡◌, ◌++◌, if◌then◌else◌, [], OnOk};
ghost use Rattle.lc_level.specs.Reasons.{reason_model};
ghost use Rattle.lc_level.specs.ReasonWords.{reason_word, attribute_of};
ghost use Rattle.lc_text.specs.Names.{name_model};
ghost use Rattle.lc_text.specs.PathLines.{or_dot};
ghost use Rattle.lc_text.specs.RulePlaces.{line_text};
ghost use Rattle.lc_paths.specs.Explanations.Answers.{ExplainsLine};
ghost use Rattle.lc_paths.specs.Explanations.Explained.{IsExplained};
ghost use Rattle.lc_paths.specs.Explanations.ExplainText.{word_name, reason_name, fault_line, rule_line, explained_line, is_fault};
ghost use Rattle.lc_paths.specs.Explanations.Findings.{fault_line_of, explanation_on};
ghost use Rattle.lc_paths.specs.Explanations.OpenDirs.{MayEnter};
ghost use Rattle.lc_paths.specs.Explanations.DirStacks.{AreStacks};

use crate::answer_line::push_answer;
use crate::explaining::explainer::Explainer;
use crate::explaining::finding::{DirectoryFault, Finding, Found, RulePlace};
use crate::explaining::stack_cache::StackCache;
use crate::outcome::Outcome;
use crate::style::PathStyle;
use lc_io::Block;
use lc_level::{Filters, Reason};
use lc_rules::{Lines, text_of_line};
use lc_text::{Name, source_directory, source_name, split_slash, undotted};
use lc_tree::Tree;
use std::alloc::{AllocError, Global};

/// Returns the line of a rule file with this number, as it is read: without a CR and the unquoted spaces at its end.
fn line_text(bytes: &[u8], number: u32) -> &[u8]
    ensures { result.now ≡ line_text bytes.now number }
{
    let mut lines = Lines::of(bytes);
    let mut before = number.saturating_sub(1);
    'lines: while let Some((line, others)) = lines.split_first() {
        if before == 0 {
            return text_of_line(line);
        }
        before -= 1;
        lines = others;
    }
    &[]
}

/// Appends the output line for a path whose word follows from a rule. `pattern` is the text of the rule's line, and `line` is the path as
/// it was read.
fn push_ruled(
    text: &mut Vec<u8>,
    style: PathStyle,
    word: &str,
    rule: RulePlace,
    pattern: &[u8],
    line: &[u8],
) -> Result<(), AllocError>
    ensures { OnOk result (text.new.items ≡ text.old.items ++ rule_line style word.now line.now
        (record { source = rule.source; line = rule.line; text = pattern.now })) }
{
    let (path, _) = split_slash(undotted(line));
    let place = Name {
        front: "",
        bytes: source_directory(path, rule.source),
        end: source_name(rule.source),
        line: Some(rule.line),
    };
    push_answer(text, style, word, Some(place), Some(pattern), line)
}

/// Returns a name that is printed as this word, where the place of a rule would be printed.
fn word_name(word: &'static str) -> Name<'static>
    ensures { name_model result ≡ word_name word.now }
{
    Name {
        front: word,
        bytes: &[],
        end: "",
        line: None,
    }
}

/// Returns what is printed for a reason to skip an entry that is no rule.
fn reason_name(reason: &Reason) -> Name<'_>
    ensures { name_model result ≡ reason_name (reason_word (reason_model reason.now)) (attribute_of (reason_model reason.now)) }
{
    match reason.attribute() {
        Some(word) => Name {
            front: "attribute:",
            bytes: word,
            end: "",
            line: None,
        },
        None => word_name(reason.word()),
    }
}

/// Returns the path, or a dot for the empty path of the top directory.
fn or_dot(path: &[u8]) -> &[u8]
    ensures { result.now ≡ or_dot path.now }
{
    if path.is_empty() { b"." } else { path }
}

/// Appends the output line for a path below a directory that could not be opened.
fn push_fault(
    text: &mut Vec<u8>,
    style: PathStyle,
    fault: &DirectoryFault,
) -> Result<(), AllocError>
    ensures { OnOk result (text.new.items ≡ text.old.items ++ fault_line style (fault_line_of fault.now)) }
{
    let path = fault.site.path(*text.allocator(), fault.directory)?;
    let place = word_name(fault.word.as_str());
    push_answer(text, style, "fault", Some(place), None, or_dot(&path))
}

/// The output of an explanation: the text that is not written yet, and whether a directory had an error.
#[derive(Drop)]
pub(crate) struct ExplainOutput {
    pub(crate) block: Block,
    pub(crate) outcome: Outcome,
}

impl ExplainOutput {
    pub(crate) fn new(alloc: Global) -> ExplainOutput
        ensures text { result.block.text.items ≡ [] }
        ensures outcome { result.outcome ≡ Outcome.Clean }
    {
        ExplainOutput {
            block: Block::new(alloc),
            outcome: Outcome::Clean,
        }
    }

    /// Appends the output line for a path's finding. `line` is the path as it was read.
    fn push(
        &mut self,
        filters: &Filters<'_>,
        style: PathStyle,
        kept: &StackCache,
        line: &[u8],
        found: &Found,
    ) -> Result<(), AllocError>
        ensures text { OnOk result (self.new.block.text.items
            ≡ self.old.block.text.items ++ explained_line style line.now (explanation_on filters.now kept.now found.now)) }
        ensures outcome { self.new.outcome
            ≡ (if is_fault (explanation_on filters.now kept.now found.now) then Outcome.SomeFaults else self.old.outcome) }
    {
        let text = &mut self.block.text;
        match &found.finding {
            Finding::Bad => push_answer(text, style, "bad", None, None, line),
            Finding::Fault(fault) => {
                self.outcome = Outcome::SomeFaults;
                push_fault(text, style, fault)
            }
            Finding::Ruled(decision, rule) => {
                let pattern = line_text(kept.text(filters, found.to, rule.source), rule.line);
                push_ruled(text, style, decision.word(), *rule, pattern, line)
            }
            Finding::NoRule => push_answer(text, style, "none", None, None, line),
            Finding::Skipped(reason) => {
                let place = reason_name(reason);
                push_answer(text, style, "left", Some(place), None, line)
            }
        }
    }

    /// Explains one more path, which is `line` as it was read, and appends its output line.
    pub(crate) fn tell<T: Tree>(
        &mut self,
        explainer: &Explainer<'_, T>,
        kept: &mut StackCache,
        line: &[u8],
    ) -> Result<(), AllocError>
        requires { AreStacks (MayEnter (T.lists explainer.now.reader.tree.now) (T.gives explainer.now.reader.tree.now))
            explainer.now.reader.filters.now kept.old }
        ensures stacks { OnOk result (AreStacks (MayEnter (T.lists explainer.now.reader.tree.now) (T.gives explainer.now.reader.tree.now))
            explainer.now.reader.filters.now kept.new) }
        ensures told { OnOk result (ExplainsLine explainer.now.style
            (IsExplained (MayEnter (T.lists explainer.now.reader.tree.now) (T.gives explainer.now.reader.tree.now))
            explainer.now.reader.filters.now) line.now self.old.block.text.items
            self.new.block.text.items self.old.outcome self.new.outcome) }
    {
        let named = undotted(line);
        let (path, as_dir) = split_slash(named);
        let found = explainer.find(kept, path, as_dir)?;
        self.push(explainer.filters, explainer.style, kept, line, &found)?;
        Ok(())
    }
}
