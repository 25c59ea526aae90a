//! Cases of ignore files. A rule is named by the number of its line.

use crate::paths::push_part;
use lc_glob::cut_at_first;
use lc_rules::{
    Chain, DirectoriesAbove, IgnoreFile, Lines, Rule, RuleFault, RuleSource, Verdict, can_match,
    text_of_line,
};
use lc_tests::cases::{Pushed, text_of, yes_no};
use lc_text::split_slash;
use std::alloc::{AllocError, Global};
use std::sync::Arc;

pub(crate) fn push_answer(
    text: &mut String,
    alloc: Global,
    kind: &str,
    columns: &[&[u8]],
) -> Result<bool, AllocError> {
    match (kind, columns) {
        ("ignore", [rules, path, kind]) => {
            let is_dir = text_of(kind) == "dir";
            push_ignored(text, alloc, rules, path, is_dir)?
        }
        ("decides", [rules, path]) => push_deciding(text, alloc, rules, path)?,
        ("decide-above", [rules, path]) => push_above(text, alloc, rules, text_of(path))?,
        ("ignore-file", [rules]) => push_file(text, alloc, rules)?,
        ("lines", [rules]) => push_lines(text, rules)?,
        ("can-match", lines) => push_matchable(text, alloc, lines)?,
        ("chain", [paths, files @ ..]) => push_chain(text, alloc, text_of(paths), files)?,
        _ => return Ok(false),
    }
    Ok(true)
}

fn read(alloc: Global, rules: &[u8]) -> Result<IgnoreFile, AllocError> {
    IgnoreFile::read(alloc, rules).map_err(|_| AllocError)
}

fn word_of(verdict: Verdict) -> &'static str {
    match verdict {
        Verdict::Ignored => "ignored",
        Verdict::Included => "included",
        Verdict::NoRule => "none",
    }
}

fn push_ignored(
    text: &mut String,
    alloc: Global,
    rules: &[u8],
    path: &[u8],
    is_dir: bool,
) -> Pushed {
    let file = read(alloc, rules)?;
    text.push_str(word_of(file.verdict(path, is_dir)))
}

/// Appends the line of a rule, or a hyphen if there is no rule, and a space.
fn push_line(text: &mut String, rule: Option<&Rule>) -> Pushed {
    match rule {
        Some(rule) => write!(text, "{} ", rule.line()),
        None => text.push_str("- "),
    }
}

/// Appends the line and the verdict of the last rule that matches a path, which ends with a slash if it is a directory.
fn push_deciding(text: &mut String, alloc: Global, rules: &[u8], path: &[u8]) -> Pushed {
    let file = read(alloc, rules)?;
    let (path, is_dir) = split_slash(path);
    let rule = file.last_match(path, is_dir);
    push_line(text, rule)?;
    match rule {
        Some(rule) => text.push_str(word_of(rule.verdict())),
        None => Ok(()),
    }
}

/// Appends the lines of the rules that decide for the directories above a path, and for the path as a file.
fn push_above(text: &mut String, alloc: Global, rules: &[u8], path: &str) -> Pushed {
    let file = read(alloc, rules)?;
    let above = DirectoriesAbove::of(&file, path.as_bytes(), false);
    for (index, (len, _)) in path.match_indices('/').enumerate() {
        push_line(text, above.last_match(index, len))?;
    }
    push_line(text, above.last_match_of_path())
}

fn push_file(text: &mut String, alloc: Global, rules: &[u8]) -> Pushed {
    match IgnoreFile::read(alloc, rules) {
        Ok(file) => {
            let nested = if file.has_nested_wildcards() {
                ", nested"
            } else {
                ""
            };
            write!(text, "{}{nested}", file.len())
        }
        Err(RuleFault::TooLong) => text.push_str("too long"),
        Err(RuleFault::Memory) => Err(AllocError),
    }
}

/// Appends the text of each line of a file.
fn push_lines(text: &mut String, rules: &[u8]) -> Pushed {
    let mut left = Lines::of(rules);
    for _ in 0..=rules.len() {
        let Some((line, others)) = left.split_first() else {
            return Ok(());
        };
        push_part(text, text_of_line(line))?;
        left = others;
    }
    Ok(())
}

/// Appends for each line whether it can match a path.
fn push_matchable(text: &mut String, alloc: Global, lines: &[&[u8]]) -> Pushed {
    for line in lines {
        let can = can_match(alloc, line)?;
        write!(text, "{} ", yes_no(can))?;
    }
    Ok(())
}

/// Adds a file to a chain, a place with rules after it: the exclude file, the file of `.git/info`, the command line, or the depth of a
/// directory. A place alone has no file.
fn with_file(chain: Chain, alloc: Global, file: &[u8]) -> Result<Chain, AllocError> {
    let (place, rules) = cut_at_first(b' ', file);
    let file = match rules {
        Some(rules) => Some(Arc::new(alloc, read(alloc, rules)?)?),
        None => None,
    };
    match text_of(place) {
        "exclude" => Ok(chain.with_exclude(file)),
        "info" => Ok(chain.with_info(file)),
        "command" => Ok(chain.with_command_line(file)),
        depth => chain.below(alloc, depth.parse::<u32>().unwrap_or(0), file),
    }
}

/// Appends the place and the line of a rule, or a hyphen if there is no rule.
fn push_rule(text: &mut String, found: Option<(RuleSource, &Rule)>) -> Pushed {
    let Some((source, rule)) = found else {
        return text.push_str(" -; ");
    };
    let line = rule.line();
    match source {
        RuleSource::ExcludeFrom => write!(text, " exclude:{line}; "),
        RuleSource::InfoExclude(depth) => write!(text, " {depth}/info:{line}; "),
        RuleSource::Gitignore(depth) => write!(text, " {depth}:{line}; "),
        RuleSource::CommandLine => write!(text, " command:{line}; "),
    }
}

/// Appends the verdict of a chain on each path, and the rule that decides. The path of a directory ends with a slash.
fn push_chain(text: &mut String, alloc: Global, paths: &str, files: &[&[u8]]) -> Pushed {
    let mut chain = Chain::top();
    for file in files {
        chain = with_file(chain, alloc, file)?;
    }
    for path in paths.split_ascii_whitespace() {
        let (path, is_dir) = split_slash(path.as_bytes());
        text.push_str(word_of(chain.verdict(path, is_dir)))?;
        push_rule(text, chain.last_match(path, is_dir))?;
    }
    Ok(())
}
