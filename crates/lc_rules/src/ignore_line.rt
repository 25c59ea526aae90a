//! Reading a line of an ignore file as a rule.

ghost use Rattle.std.specs.Prelude.{◌≡◌, not, IfOk, IfSome, option_map};
ghost use Rattle.lc_rules.specs.IgnoreRules.{without_return, without_spaces, text_of_line, rule_of_line};
ghost use Rattle.lc_rules.specs.Verdicts.{verdict_by};

use crate::verdicts::Verdict;
use lc_glob::Pattern;
use std::alloc::{AllocError, Global};
use std::marker::Model;
use std::snapshot::Snapshot;

/// A rule of an ignore file, without its pattern. The `IgnoreFile` stores the patterns of its rules.
#[derive(Drop)]
pub struct Rule {
    line: u32,
    is_negated: bool,
    /// The pattern as contracts see it, which takes no memory. The code reads the pattern from the `IgnoreFile`.
    pattern: Snapshot<Pattern>,
}

const _: () = prove!(size_of::<Rule>() == 8);

impl Model for Rule {
    ghost use Rattle.lc_rules.specs.IgnoreRules.{RuleModel};

    ghost Value = { RuleModel };

    ghost view = { λ r. record { line = r.line; is_negated = r.is_negated; pattern = r.pattern.value } };
}

impl Rule {
    /// Returns the number of the rule's line in the file, counted from 1. Empty lines and comments count too.
    pub fn line(&self) -> u32
        ensures { result ≡ self.now.line }
    {
        self.line
    }

    /// Returns the verdict of this rule on a path that its pattern matches.
    pub fn verdict(&self) -> Verdict
        ensures { result ≡ verdict_by self.now }
    {
        if self.is_negated {
            Verdict::Included
        } else {
            Verdict::Ignored
        }
    }

    /// Returns whether the rule ignores the paths that its pattern matches.
    pub(crate) fn ignores(&self) -> bool
        ensures { result ≡ not self.now.is_negated }
    {
        !self.is_negated
    }
}

fn without_return<'a>(line: &'a [u8]) -> &'a [u8]
    ensures { result.now ≡ without_return line.now }
{
    let Some((last, rest)) = line.split_last() else {
        return line;
    };
    if *last == b'\r' { rest } else { line }
}

/// Returns a line without the spaces at its end that no backslash quotes.
fn without_spaces<'a>(line: &'a [u8]) -> &'a [u8]
    ensures { result.now ≡ without_spaces line.now }
{
    let mut kept = 0;
    let mut read = 0;
    'units: while read < line.len() {
        if line[read] == b'\\' && read + 1 < line.len() {
            read += 2;
            kept = read;
        } else {
            let is_space = line[read] == b' ';
            read += 1;
            if !is_space {
                kept = read;
            }
        }
    }
    &line[..kept]
}

/// Returns the part of a line of an ignore file that is read as a rule. First one carriage return at the end of the line is dropped, then
/// all spaces at the end that no backslash quotes.
///
/// ```
/// assert!(rt; text_of_line(b"!*.log  \r") == b"!*.log".as_slice());
/// ```
pub fn text_of_line<'a>(line: &'a [u8]) -> &'a [u8]
    ensures { result.now ≡ text_of_line line.now }
{
    without_spaces(without_return(line))
}

/// Reads the line with this number of an ignore file as a rule and its pattern. An empty line and a comment have no rule.
pub(crate) fn read_rule(
    alloc: Global,
    number: u32,
    line: &[u8],
) -> Result<Option<(Rule, Pattern)>, AllocError>
    ensures rule { IfOk result (λ r. option_map (λ p. p.0) r ≡ rule_of_line (number, line.now)) }
    ensures pattern { IfOk result (λ r. IfSome r (λ p. p.1 ≡ p.0.pattern)) }
{
    let text = text_of_line(line);
    let Some((first, rest)) = text.split_first() else {
        return Ok(None);
    };
    let (is_negated, pattern) = match first {
        b'#' => return Ok(None),
        b'!' => (true, rest),
        _ => (false, text),
    };
    let pattern = Pattern::read(alloc, pattern)?;
    let rule = Rule {
        line: number,
        is_negated,
        pattern: Snapshot::of(&pattern),
    };
    Ok(Some((rule, pattern)))
}
