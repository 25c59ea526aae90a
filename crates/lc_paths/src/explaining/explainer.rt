//! Explaining one path, from the top of the tree down.

ghost use Rattle.std.specs.Prelude.{◌≡◌, ◌<◌, ◌-◌, ℕ, List, [], true, false, length, take, IfOk, OnOk};
ghost use Rattle.lc_glob.specs.Path.{path_in, segments_of};
ghost use Rattle.lc_level.specs.Level.{reason_for};
ghost use Rattle.lc_level.specs.TopJob.{top_job};
ghost use Rattle.lc_rules.specs.IgnoreChains.{rules_in};
ghost use Rattle.lc_rules.specs.Verdicts.{last_match};
ghost use Rattle.lc_rules.specs.declared.rule_source.RuleSource.{RuleSource};
ghost use Rattle.lc_text.specs.PathLines.{is_bad_path};
ghost use Rattle.lc_tree.specs.Kinds.{is_dir};
ghost use Rattle.lc_paths.specs.Explanations.Explained.{CitedRule, cited, kind_asked, is_directory, said_by, said_beside, said_of_none};
ghost use Rattle.lc_paths.specs.Explanations.Explained.{IsExplained};
ghost use Rattle.lc_paths.specs.Explanations.Findings.{explanation_of, explanation_on};
ghost use Rattle.lc_paths.specs.Explanations.OpenDirs.{OpenDirModel, stack_at, stack_to, MayEnter};
ghost use Rattle.lc_paths.specs.Explanations.DirStacks.{IsRestBelow, StandsBelow, Goes, Steps, AreStacks};

use crate::explaining::explain_options::ExplainOptions;
use crate::explaining::finding::{Decision, DirectoryFault, Finding, Found, RulePlace};
use crate::explaining::open_dir::OpenDir;
use crate::explaining::stack_cache::{Near, StackCache};
use crate::style::PathStyle;
use lc_glob::cut_at_first;
use lc_level::{Filters, Job, LevelReader, OpenFault, ReaderOptions};
use lc_text::{is_bad_path, is_top};
use lc_tree::{Kind, Tree};
use std::alloc::{AllocError, Global};

/// Returns the kind by which rules are matched with a path: the kind of its entry, but a directory if `as_dir` and the entry is a file.
/// Without an entry, `as_dir` alone decides between directory and file.
fn kind_asked(as_dir: bool, there: Option<Kind>) -> Kind
    ensures { result ≡ kind_asked as_dir there }
{
    match there {
        Some(Kind::Other(what)) => Kind::Other(what),
        Some(Kind::Dir) => Kind::Dir,
        Some(Kind::File) | None => { if as_dir { Kind::Dir } else { Kind::File } }
    }
}

fn is_directory(there: Option<Kind>) -> bool
    ensures { result ≡ is_directory there }
{
    match there {
        None => false,
        Some(kind) => kind.is_dir(),
    }
}

/// Returns the finding for a path that no entry of a tree has: the top directory's `.`, or a bad path.
fn without_entry<'p>(path: &[u8]) -> Finding<'p>
    ensures { (cite : RuleSource → ℕ → CitedRule) → explanation_of cite result ≡ said_of_none path.now }
{
    if is_top(path) {
        Finding::NoRule
    } else {
        Finding::Bad
    }
}

/// Returns a path up to the slash before its end `others`.
fn place_before<'p>(path: &'p [u8], others: &[u8]) -> &'p [u8]
    requires { length others.now < length path.now }
    ensures { result.now ≡ take (length path.now - length others.now - 1) path.now }
{
    &path[..path.len() - others.len() - 1]
}

/// The result of one step from the top of a tree down to a path.
#[derive(Drop)]
enum Step<'p> {
    /// The path is explained.
    Found(Finding<'p>),
    /// The next step is in a child directory. The fields are the job (what is needed to visit this directory), the directory's path, and
    /// the rest of the explained path after the directory's path.
    Into(Job, &'p [u8], &'p [u8]),
}

/// A reader of a tree's directories, and the options by which the tree's paths are explained.
#[derive(Drop)]
pub(crate) struct Explainer<'t, T> {
    alloc: Global,
    pub(crate) reader: LevelReader<'t, T>,
    pub(crate) filters: &'t Filters<'t>,
    pub(crate) top: Job,
    pub(crate) style: PathStyle,
    ghost keeps: { reader.options.texts ≡ true },
    ghost same: { reader.filters.now ≡ filters.now },
    ghost starts: { top ≡ top_job reader.filters.now },
}

impl<'t, T: Tree> Explainer<'t, T> {
    pub(crate) fn new(
        alloc: Global,
        tree: &'t T,
        options: &'t ExplainOptions<'t>,
    ) -> Result<Explainer<'t, T>, AllocError>
        ensures tree { IfOk result (λ e. e.reader.tree.now ≡ tree.entry.now) }
        ensures filters { IfOk result (λ e. e.reader.filters.now ≡ options.entry.now.filters.now) }
        ensures style { IfOk result (λ e. e.style ≡ options.entry.now.style) }
    {
        let reading = ReaderOptions {
            left_out: false,
            texts: true,
            named: None,
        };
        Ok(Explainer {
            alloc,
            reader: LevelReader::new(alloc, tree, options.filters, reading),
            filters: options.filters,
            top: Job::top(alloc, options.filters)?,
            style: options.style,
        })
    }

    /// Opens the directory of a job, which is in the last directory of the stack `above`, or is the top. Caches the stack that ends with
    /// it, and returns that stack's number, or why the directory can't be opened.
    fn enter<'p>(
        &self,
        kept: &mut StackCache,
        above: Option<usize>,
        job: &Job,
        directory: &'p [u8],
    ) -> Result<Result<usize, DirectoryFault<'p>>, AllocError>
        requires { directory.now ≡ job.now.path }
        ensures { Goes (MayEnter (T.lists self.now.reader.tree.now) (T.gives self.now.reader.tree.now)) job.now
            (stack_to kept.old above) kept.old kept.new result }
    {
        match self.reader.enter(job, &mut kept.scratch) {
            Ok(entered) => {
                let stack = kept.below(above, OpenDir::new(entered))?;
                let at = kept.keep(stack)?;
                Ok(Ok(at))
            }
            Err(OpenFault::Faulted(site, word)) => {
                let fault = DirectoryFault {
                    directory,
                    site,
                    word,
                };
                Ok(Err(fault))
            }
            Err(OpenFault::Memory | OpenFault::TooDeep) => Err(AllocError),
        }
    }

    /// Explains a path by its last name, which is a name in the directory of the job.
    fn last<'p>(
        &self,
        job: &Job,
        path: &'p [u8],
        name: &[u8],
        kind: Kind,
    ) -> Result<Finding<'p>, AllocError>
        requires { path.now ≡ path_in job.now.path name.now }
        ensures { IfOk result (λ f. (cite : RuleSource → ℕ → CitedRule) → explanation_of cite f
            ≡ said_by cite (reason_for self.now.reader.filters.now job.now name.now kind)
            (last_match (rules_in job.now.ignore) (path_in job.now.path name.now) (is_dir kind))) }
    {
        if let Some(reason) = self.reader.reason(job, name, path, kind)? {
            return Ok(Finding::skipped(reason, Decision::Ignored));
        }
        match job.last_match(path, kind.is_dir()) {
            Some((source, rule)) => {
                let line = rule.line();
                Ok(Finding::Ruled(Decision::Included, RulePlace { source, line }))
            }
            None => Ok(Finding::NoRule),
        }
    }

    /// Explains a path that goes through a name that does not exist or is no directory, by the rules of the directories above. The job is
    /// for the place of that name, and `rest` is the part of the path below it.
    fn beside<'p>(
        &self,
        job: Job,
        path: &'p [u8],
        rest: &[u8],
        as_dir: bool,
    ) -> Result<Finding<'p>, AllocError>
        requires stands { path.now ≡ path_in job.path rest.now }
        requires good { is_bad_path path.now ≡ false }
        ensures { IfOk result (λ finding. (stack : List OpenDirModel) → explanation_of (cited self.now.reader.filters.now stack) finding
            ≡ said_beside self.now.reader.filters.now stack job (segments_of rest.now) as_dir) }
    {
        let mut job = job;
        let mut rest = rest;
        'names: loop {
            let (name, others) = cut_at_first(b'/', rest);
            let Some(others) = others else {
                return self.last(&job, path, name, kind_asked(as_dir, None));
            };
            let at = place_before(path, others);
            if let Some(reason) = self.reader.reason(&job, name, at, Kind::Dir)? {
                return Ok(Finding::skipped(reason, Decision::Below));
            }
            job = job.at(self.alloc, at)?;
            rest = others;
        }
    }

    /// Takes one step to the explanation of a path, by the first name of `rest`, which is the part of the path below the directory `here`.
    /// Returns the explanation, or the child directory for the next step.
    fn step<'p>(
        &self,
        here: &OpenDir,
        path: &'p [u8],
        rest: &'p [u8],
        as_dir: bool,
    ) -> Result<Step<'p>, AllocError>
        requires stands { IsRestBelow here.now path.now rest.now }
        requires good { is_bad_path path.now ≡ false }
        ensures { IfOk result (λ step. Steps (MayEnter (T.lists self.now.reader.tree.now) (T.gives self.now.reader.tree.now))
            self.now.reader.filters.now here.now rest.now as_dir step) }
    {
        let (name, others) = cut_at_first(b'/', rest);
        let there = here.kind(name);
        let Some(others) = others else {
            let finding = self.last(&here.job, path, name, kind_asked(as_dir, there))?;
            return Ok(Step::Found(finding));
        };
        let place = place_before(path, others);
        if let Some(reason) = self
            .reader
            .reason(&here.job, name, place, kind_asked(true, there))?
        {
            return Ok(Step::Found(Finding::skipped(reason, Decision::Below)));
        }
        let job = here.job.at(self.alloc, place)?;
        if is_directory(there) {
            return Ok(Step::Into(job, place, others));
        }
        let finding = self.beside(job, path, others, as_dir)?;
        Ok(Step::Found(finding))
    }

    /// Explains a path by descending from the last directory of a cached stack, which is above the path.
    fn descend<'p>(
        &self,
        kept: &mut StackCache,
        near: Near<'p>,
        path: &'p [u8],
        as_dir: bool,
    ) -> Result<Found<'p>, AllocError>
        requires stacks { AreStacks
            (MayEnter (T.lists self.now.reader.tree.now) (T.gives self.now.reader.tree.now)) self.now.reader.filters.now kept.old }
        requires stands { StandsBelow (stack_at kept.old near.at) path.now near.rest.now }
        requires good { is_bad_path path.now ≡ false }
        ensures stacks { OnOk result (AreStacks (MayEnter (T.lists self.now.reader.tree.now) (T.gives self.now.reader.tree.now))
            self.now.reader.filters.now kept.new) }
        ensures found { IfOk result (λ f. IsExplained (MayEnter (T.lists self.now.reader.tree.now) (T.gives self.now.reader.tree.now))
            self.now.reader.filters.now path.now as_dir
            (explanation_on self.now.reader.filters.now kept.new f)) }
    {
        let Near { mut at, mut rest } = near;
        'names: loop {
            let Some(here) = kept.last(at) else {
                unreachable!()
            };
            match self.step(here, path, rest, as_dir)? {
                Step::Found(finding) => return Ok(Found::on(at, finding)),
                Step::Into(job, place, others) => {
                    match self.enter(kept, Some(at), &job, place)? {
                        Ok(child) => at = child,
                        Err(fault) => return Ok(Found::on(at, Finding::Fault(fault))),
                    }
                    rest = others;
                }
            }
        }
    }

    /// Explains a path. The directories that are opened for it are cached.
    pub(crate) fn find<'p>(
        &self,
        kept: &mut StackCache,
        path: &'p [u8],
        as_dir: bool,
    ) -> Result<Found<'p>, AllocError>
        requires { AreStacks (MayEnter (T.lists self.now.reader.tree.now) (T.gives self.now.reader.tree.now))
            self.now.reader.filters.now kept.old }
        ensures stacks { OnOk result (AreStacks (MayEnter (T.lists self.now.reader.tree.now) (T.gives self.now.reader.tree.now))
            self.now.reader.filters.now kept.new) }
        ensures found { IfOk result (λ f. IsExplained (MayEnter (T.lists self.now.reader.tree.now) (T.gives self.now.reader.tree.now))
            self.now.reader.filters.now path.now as_dir
            (explanation_on self.now.reader.filters.now kept.new f)) }
    {
        if is_bad_path(path) {
            return Ok(Found::on_none(without_entry(path)));
        }
        if let Some(near) = kept.nearest(path) {
            let found = self.descend(kept, near, path, as_dir)?;
            return Ok(found);
        }
        match self.enter(kept, None, &self.top, &[])? {
            Ok(at) => {
                let near = Near { at, rest: path };
                let found = self.descend(kept, near, path, as_dir)?;
                Ok(found)
            }
            Err(fault) => Ok(Found::on_none(Finding::Fault(fault))),
        }
    }
}
