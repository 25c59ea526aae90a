//! The output of a check that shows which rule ignores or includes each path. The output is written in blocks while it is made.

ghost use Rattle.std.specs.Prelude.{◌≡◌, ◌++◌, IfSome, OnOk, IfOk, map, option_map, flat_map};
ghost use Rattle.lc_rules.specs.IgnoreLaws.{IsOnLine};
ghost use Rattle.lc_rules.specs.IgnoreRules.{rules_of, text_of_line};
ghost use Rattle.lc_rules.specs.RuleLines.{lines_of};
ghost use Rattle.lc_text.specs.RulePlaces.{line_text};
ghost use Rattle.lc_paths.specs.Checks.ExplainedText.{rule_line, explained_line};
ghost use Rattle.lc_paths.specs.Paths.{paths_in};
ghost use Rattle.lc_io.specs.Pieces.{AnswersInPieces};
ghost use Rattle.lc_paths.specs.Styles.{styled};

use crate::answer_line::push_answer;
use crate::checking::checker::Checker;
use crate::paths::Paths;
use crate::style::PathStyle;
use lc_io::{Block, PrintFault, Sink};
use lc_level::RuleText;
use lc_rules::{Lines, Rule, text_of_line};
use lc_text::{Name, split_slash};
use std::alloc::{AllocError, Global};

/// A file of rules as it is printed: its name, the text that each of its lines is read as, and the style of the output.
#[derive(Drop)]
pub(crate) struct RuleLines<'a> {
    name: &'a [u8],
    rules: &'a RuleText,
    style: PathStyle,
    texts: Vec<&'a [u8]>,
    ghost read: { map (λ t. t.now) texts.items ≡ map text_of_line (lines_of rules.now) },
}

impl<'a> RuleLines<'a> {
    pub(crate) fn new(
        alloc: Global,
        name: &'a [u8],
        rules: &'a RuleText,
        style: PathStyle,
    ) -> Result<RuleLines<'a>, AllocError>
        ensures { IfOk result (λ lines. (lines.name.now ≡ name.now) × (lines.rules.now ≡ rules.now) × (lines.style ≡ style)) }
    {
        let mut texts = Vec::new(alloc);
        let mut rest = Lines::of(rules.bytes());
        'lines: while let Some((line, others)) = rest.split_first() {
            texts.push(text_of_line(line))?;
            rest = others;
        }
        Ok(RuleLines {
            name,
            rules,
            style,
            texts,
        })
    }

    /// Returns the text that a rule's line is read as, without the trailing spaces.
    fn text(&self, rule: &Rule) -> &'a [u8]
        requires { IsOnLine (lines_of self.now.rules.now) rule.now }
        ensures { result.now ≡ line_text self.now.rules.now rule.now.line }
    {
        self.texts[rule.line() as usize - 1]
    }

    /// Appends the output line for a path: the word, the place and the text of the rule that the word follows from, and the path.
    fn push_line(
        &self,
        word: &str,
        rule: Option<&Rule>,
        path: &[u8],
        text: &mut Vec<u8>,
    ) -> Result<(), AllocError>
        requires { IfSome rule (λ r. IsOnLine (lines_of self.now.rules.now) r.now) }
        ensures { OnOk result (text.new.items ≡ text.old.items
            ++ rule_line (styled self.now.style) self.now.name.now self.now.rules.now word.now (option_map (λ r. r.now) rule.entry)
            path.now) }
    {
        let Some(rule) = rule else {
            return push_answer(text, self.style, word, None, None, path);
        };
        let place = Name {
            front: "",
            bytes: self.name,
            end: "",
            line: Some(rule.line()),
        };
        push_answer(
            text,
            self.style,
            word,
            Some(place),
            Some(self.text(rule)),
            path,
        )
    }
}

/// Appends the output line for a path. `line` is the path as it was read, perhaps with a slash at its end.
fn push_explained<'a>(
    lines: &RuleLines,
    checker: &mut Checker<'a>,
    line: &'a [u8],
    text: &mut Vec<u8>,
) -> Result<(), AllocError>
    requires { checker.old.rules.now ≡ rules_of lines.now.rules.now }
    ensures text { OnOk result (text.new.items
        ≡ text.old.items ++ explained_line (styled lines.now.style) lines.now.name.now lines.now.rules.now line.now) }
    ensures rules { checker.new.rules.now ≡ checker.old.rules.now }
{
    let (path, is_dir) = split_slash(line);
    let finding = checker.find(path, is_dir);
    lines.push_line(finding.word(), finding.rule(), line, text)
}

/// Writes a line for each path, with its word and the rule that the word follows from.
pub(crate) fn print_explained<O: Sink>(
    alloc: Global,
    lines: &RuleLines,
    paths: Paths<'_, '_>,
    out: &mut O,
) -> Result<(), PrintFault>
    ensures { AnswersInPieces O.may_take out.old
        (flat_map (explained_line (styled lines.now.style) lines.now.name.now lines.now.rules.now) (paths_in paths.entry)) result out.new }
{
    let mut checker = Checker::new(lines.rules.rules());
    let mut block = Block::new(alloc);
    let mut rest = paths;
    'lines: while let Some((line, others)) = rest.split_first() {
        push_explained(lines, &mut checker, line, &mut block.text)?;
        block.print_if_full(out)?;
        rest = others;
    }
    block.print_rest(out)
}
