//! Chains of ignore files: the files that apply in a directory, in the order of precedence.

ghost use Rattle.std.specs.Prelude.{◌≡◌, ℕ, option_map, IfOk};
ghost use Rattle.lc_rules.specs.Chains.{lent};
ghost use Rattle.lc_rules.specs.IgnoreChains.{joined, no_ignore_files, rules_if, rules_in};
ghost use Rattle.lc_rules.specs.IgnoreChains.{with_command_line, with_exclude, with_info, with_no_ignore, with_own};
ghost use Rattle.lc_rules.specs.Verdicts.{last_match, depth_at, verdict_of};
ghost use Rattle.lc_rules.specs.declared.rule_source.RuleSource.{RuleSource as RuleSourceModel};
ghost use Rattle.lc_rules.specs.declared.rule_source.RuleSource.TheVariants.{Gitignore};

use crate::chain_files::{ChainFiles, FilesLeft, share};
use crate::ignore_file::IgnoreFile;
use crate::ignore_line::Rule;
use crate::paths::PathBelow;
use crate::rule_source::RuleSource;
use crate::verdicts::Verdict;
use std::alloc::{AllocError, Global};
use std::marker::Model;
use std::sync::Arc;

/// The rules for a directory's entries, from the lowest precedence to the highest: the file of `--exclude-from`, the file
/// `.git/info/exclude`, the ignore files of the tree from the top down, each with the depth of its directory, and the patterns of the
/// command line.
#[derive(Drop)]
pub struct Chain {
    exclude: Option<Arc<IgnoreFile, Global>>,
    info: Option<Arc<IgnoreFile, Global>>,
    tree: ChainFiles<IgnoreFile>,
    command_line: Option<Arc<IgnoreFile, Global>>,
    no_ignore: bool,
}

impl Model for Chain {
    ghost use Rattle.lc_rules.specs.Chains.{lent};
    ghost use Rattle.lc_rules.specs.IgnoreChains.{ChainModel};

    ghost Value = { ChainModel };

    ghost view = { λ c. record {
      exclude = lent c.exclude;
      info = lent c.info;
      tree = c.tree;
      command_line = lent c.command_line;
      no_ignore = c.no_ignore;
    } };
}

impl Chain {
    /// Returns the chain that has no file yet.
    pub fn top() -> Chain
        ensures { result ≡ no_ignore_files }
    {
        Chain {
            exclude: None,
            info: None,
            tree: ChainFiles::new(),
            command_line: None,
            no_ignore: false,
        }
    }

    /// Returns the chain with the file of `--exclude-from`, or the unchanged chain if `file` is `None`.
    pub fn with_exclude(self, file: Option<Arc<IgnoreFile, Global>>) -> Chain
        ensures { result ≡ with_exclude self file }
    {
        let Some(file) = file else {
            return self;
        };
        Chain {
            exclude: Some(file),
            ..self
        }
    }

    /// Returns the chain with the patterns of the command line, or the unchanged chain if `file` is `None`. The patterns override the rules
    /// of every file, also of files that are added later.
    pub fn with_command_line(self, file: Option<Arc<IgnoreFile, Global>>) -> Chain
        ensures { result ≡ with_command_line self file }
    {
        let Some(file) = file else {
            return self;
        };
        Chain {
            command_line: Some(file),
            ..self
        }
    }

    /// Returns the chain with the flag `no_ignore` set to this value. If the flag is true, a walk does not read the ignore files of the
    /// tree.
    pub fn with_no_ignore(self, no_ignore: bool) -> Chain
        ensures { result ≡ with_no_ignore self no_ignore }
    {
        Chain { no_ignore, ..self }
    }

    /// Returns whether no ignore file of the tree is read.
    pub fn no_ignore(&self) -> bool
        ensures { result ≡ self.now.no_ignore }
    {
        self.no_ignore
    }

    /// Returns the chain with the rules of `.git/info/exclude`, or the unchanged chain if `file` is `None`.
    pub fn with_info(self, file: Option<Arc<IgnoreFile, Global>>) -> Chain
        ensures { result ≡ with_info self file }
    {
        let Some(file) = file else {
            return self;
        };
        Chain {
            info: Some(file),
            ..self
        }
    }

    /// Returns the chain with one more ignore file of the tree, or a copy if `file` is `None`. `depth` is the number of segments in the
    /// path of the file's directory.
    pub fn below(
        &self,
        alloc: Global,
        depth: u32,
        file: Option<Arc<IgnoreFile, Global>>,
    ) -> Result<Chain, AllocError>
        ensures { IfOk result (λ chain. chain ≡ with_own self.now depth file) }
    {
        let exclude = share(&self.exclude)?;
        let info = share(&self.info)?;
        let command_line = share(&self.command_line)?;
        let tree = self.tree.with(alloc, depth, file)?;
        Ok(Chain {
            exclude,
            info,
            tree,
            command_line,
            no_ignore: self.no_ignore,
        })
    }

    /// Returns the verdict of the last rule that matches a path. The rules of a file at depth `d` are matched with the path without its
    /// first `d` segments.
    pub fn verdict(&self, path: &[u8], is_dir: bool) -> Verdict
        ensures { result ≡ verdict_of (rules_in self.now) path.now is_dir }
    {
        match self.last_match(path, is_dir) {
            Some((_, rule)) => rule.verdict(),
            None => Verdict::NoRule,
        }
    }

    /// Returns the last rule that matches a path, and where the rule is from: a file, or the command line.
    pub fn last_match(&self, path: &[u8], is_dir: bool) -> Option<(RuleSource, &Rule)>
        ensures { option_map (λ r. (r.0, r.1.now)) result ≡ last_match (rules_in self.now) path.now is_dir }
    {
        if let Some(rule) = last_match_in_file(&self.command_line, path, is_dir) {
            return Some((RuleSource::CommandLine, rule));
        }
        let by_tree = last_match_in_files(self.tree.left(), PathBelow::new(path), is_dir);
        if let Some((depth, rule)) = by_tree {
            return Some((RuleSource::Gitignore(depth), rule));
        }
        if let Some(rule) = last_match_in_file(&self.info, path, is_dir) {
            return Some((RuleSource::InfoExclude(0), rule));
        }
        let rule = last_match_in_file(&self.exclude, path, is_dir)?;
        Some((RuleSource::ExcludeFrom, rule))
    }
}

/// Returns the last rule of a file that matches a path, if there is a file. The file's rules hold for the whole tree.
fn last_match_in_file<'a>(
    file: &'a Option<Arc<IgnoreFile, Global>>,
    path: &[u8],
    is_dir: bool,
) -> Option<&'a Rule>
    ensures { (source : RuleSourceModel) → depth_at source ≡ 0
        → option_map (λ r. (source, r.now)) result ≡ last_match (rules_if source (lent file.now)) path.now is_dir }
{
    match file {
        Some(file) => file.last_match(path, is_dir),
        None => None,
    }
}

/// Returns the last rule of the tree's files that matches a path, with the depth of its file. Files nearer to the path are tried first.
fn last_match_in_files<'a>(
    files: FilesLeft<'a, IgnoreFile>,
    path: PathBelow,
    is_dir: bool,
) -> Option<(u32, &'a Rule)>
    ensures { option_map (λ r. (Gitignore r.0, r.1.now)) result ≡ last_match (joined files.entry) path.entry.path.now is_dir }
{
    let (depth, file, nearer) = files.split_first()?;
    let inner = path.at(depth);
    if let Some(found) = last_match_in_files(nearer, inner, is_dir) {
        return Some(found);
    }
    let rule = file.last_match(inner.rest, is_dir)?;
    Some((depth, rule))
}
