//! The filters of a walk: what decides, besides the tree's own rule files, which entries are skipped and which attributes files have.
ghost use Rattle.std.specs.Prelude.{◌≡◌, IfOk, option_map, map};
ghost use Rattle.lc_level.specs.Filters.{include_rules, is_state, no_filters, patterns_for};
ghost use Rattle.lc_level.specs.Level.{attribute_reason, by_attribute, is_met};
ghost use Rattle.lc_level.specs.RuleReads.{shared};
ghost use Rattle.lc_level.specs.TopJob.{top_job};
ghost use Rattle.lc_rules.specs.IgnoreRules.{rules_of};
ghost use Rattle.lc_rules.specs.Models.{state_model};

use crate::job::Job;
use crate::narrowing::included::patterns_for;
use crate::narrowing::only_paths::OnlyPaths;
use crate::rule_files::rule_text::RuleText;
use lc_glob::cut_at_first;
use lc_rules::{AttrChain, AttrFile, Chain, IgnoreFile, State};
use std::alloc::{AllocError, Global};
use std::marker::Model;
use std::sync::Arc;

/// What decides, besides a tree's own rule files, which entries are skipped, and which attributes the counted files have. One value is made
/// for a tree, and each `LevelReader` of the tree borrows this value.
///
/// ```
/// let as_it_is = Filters::none(alloc);
/// let only = OnlyPaths::new(alloc, &[b"src"])?;
/// let sources = Filters { only, ..Filters::none(alloc) }; // of the tree `src` and what is below it
/// let patterns = read_rule_text(alloc, &mut b"*.rs\n".as_slice())?;
/// let rust = Filters { include: Some(patterns), ..Filters::none(alloc) }; // of the files those that `*.rs` matches
/// let teams = Arc::new(alloc, AttrFile::read(alloc, b"*.rs team=core\n", true)?)?;
/// let by_team = Filters { attributes_from: Some(teams), asked: vec![in alloc; b"team".to_vec(alloc)?]?, ..Filters::none(alloc) };
/// ```
#[derive(Drop)]
pub struct Filters<'p> {
    /// The ignore file for the whole tree, which every `.gitignore` overrides, like Git's `core.excludesFile` (gitignore(5)).
    pub exclude_from: Option<RuleText>,
    /// The attribute file for the whole tree, which every `.gitattributes` overrides, like Git's `core.attributesFile` (gitattributes(5)).
    /// It may define macros.
    pub attributes_from: Option<Arc<AttrFile, Global>>,
    /// The patterns of the command line, one on each line. They override the rules of all files (gitignore(5)).
    pub exclude: Option<RuleText>,
    /// The patterns of files to count, one on each line. No pattern is negated. If this field is `Some`, a file is skipped unless a pattern
    /// matches the file, or a directory above the file and below the top of the tree. Directories are visited, whether or not a pattern
    /// matches them.
    pub include: Option<RuleText>,
    /// Whether no ignore file of the tree is read: no `.gitignore`, and no `.git/info/exclude`.
    pub no_ignore: bool,
    /// The attributes for which files and directories are skipped, each as a word `ATTR` or `ATTR=VALUE` (gitattributes(5)). With `ATTR`,
    /// such as `linguist-vendored`, the attribute must be Set. With `ATTR=VALUE`, such as `linguist-generated=true`, it must have exactly
    /// this value. `export-ignore` is the attribute by which `git archive` skips entries.
    pub without: Vec<Vec<u8>>,
    /// The paths that are counted: they select the entries at these paths, everything under these entries, and the directories above them.
    /// If there is no list of paths, everything is selected.
    pub only: OnlyPaths<'p>,
    /// The names of attributes. Each counted file has the states of these attributes, in this order.
    pub asked: Vec<Vec<u8>>,
}

impl<'p> Model for Filters<'p> {
    ghost use Rattle.std.specs.Prelude.{map};
    ghost use Rattle.lc_level.specs.Filters.{FiltersModel};
    ghost use Rattle.lc_level.specs.RuleReads.{shared};

    ghost Value = { FiltersModel };

    ghost view = { λ f. record {
      exclude_from = f.exclude_from;
      attributes_from = shared f.attributes_from;
      exclude = f.exclude;
      include = f.include;
      no_ignore = f.no_ignore;
      without = map (λ word. word.items) f.without.items;
      only = f.only;
      asked = map (λ name. name.items) f.asked.items;
    } };
}

/// Returns whether an attribute's state is the required one: this value, or Set if no value is required.
fn is_state(wanted: Option<&[u8]>, state: State<'_>) -> bool
    ensures { result ≡ is_state (option_map (λ v. v.now) wanted.entry) (state_model state.entry) }
{
    match state {
        State::Set => wanted.is_none(),
        State::Unset => false,
        State::Value(found) => match wanted {
            Some(wanted) => found == wanted,
            None => false,
        },
        State::Unspecified => false,
    }
}

/// Returns whether the attribute of a word, `ATTR` or `ATTR=VALUE`, has the required state at a path. Memory is allocated only for the
/// attribute's macros.
fn is_met(
    alloc: Global,
    job: &Job,
    path: &[u8],
    is_dir: bool,
    word: &[u8],
) -> Result<bool, AllocError>
    ensures { IfOk result (λ met. met ≡ is_met job.now path.now is_dir word.now) }
{
    let (attribute, wanted) = cut_at_first(b'=', word);
    let state = job.attributes().state(alloc, path, is_dir, attribute)?;
    Ok(is_state(wanted, state))
}

/// Returns the rules of a text, if there is one, shared with the text rather than copied.
fn shared_rules(text: &Option<RuleText>) -> Result<Option<Arc<IgnoreFile, Global>>, AllocError>
    ensures { IfOk result (λ rules. shared rules ≡ option_map rules_of text.now) }
{
    match text {
        None => Ok(None),
        Some(text) => Ok(Some(text.shared_rules()?)),
    }
}

impl<'p> Filters<'p> {
    /// Makes the filters that skip only what a tree's own rules ignore, and that ask for no attribute.
    pub fn none(alloc: Global) -> Filters<'p>
        ensures { result ≡ no_filters }
    {
        Filters {
            exclude_from: None,
            attributes_from: None,
            exclude: None,
            include: None,
            no_ignore: false,
            without: Vec::new(alloc),
            only: OnlyPaths::none(alloc),
            asked: Vec::new(alloc),
        }
    }

    /// Returns the chain of ignore files of a tree's top. The chain has only the rules that these filters set for the whole tree.
    pub(crate) fn top_chain(&self) -> Result<Chain, AllocError>
        ensures { IfOk result (λ chain. chain ≡ (top_job self.now).ignore) }
    {
        let given = Chain::top().with_exclude(shared_rules(&self.exclude_from)?);
        let asked = given.with_command_line(shared_rules(&self.exclude)?);
        Ok(asked.with_no_ignore(self.no_ignore))
    }

    /// Returns the chain of attribute files of a tree's top. The chain has only the file that these filters set for the whole tree.
    pub(crate) fn top_attributes(&self) -> Result<AttrChain, AllocError>
        ensures { IfOk result (λ chain. chain ≡ (top_job self.now).attributes) }
    {
        match &self.attributes_from {
            None => Ok(AttrChain::top_with(None)),
            Some(file) => Ok(AttrChain::top_with(Some(Arc::try_clone(file)?))),
        }
    }

    /// Returns the patterns for the files of a directory: a file that matches none of them is skipped. Returns `None` if no file has to
    /// match a pattern.
    pub(crate) fn include_in(&self, directory: &[u8]) -> Option<&IgnoreFile>
        ensures { option_map (λ p. p.now) result ≡ patterns_for (include_rules self.now) directory.now }
    {
        let text = self.include.as_ref()?;
        patterns_for(text.rules(), directory)
    }

    /// Returns the first word of `without` whose attribute has the required state at a path, so that the path is skipped. Memory is
    /// allocated only for the macros of attributes.
    pub(crate) fn first_met(
        &self,
        alloc: Global,
        job: &Job,
        path: &[u8],
        is_dir: bool,
    ) -> Result<Option<&[u8]>, AllocError>
        ensures { IfOk result (λ word. option_map (λ w. by_attribute w.now) word
            ≡ attribute_reason self.entry.now job.now path.now is_dir) }
    {
        let mut rest = self.without.as_slice();
        'words: while let Some((word, others)) = rest.split_first() {
            if is_met(alloc, job, path, is_dir, word)? {
                return Ok(Some(word));
            }
            rest = others;
        }
        Ok(None)
    }
}
