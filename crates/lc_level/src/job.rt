//! The directories that a walk visits.
ghost use Rattle.std.specs.Prelude.{◌≡◌, ◌≤◌, length, option_map, IfOk};
ghost use Rattle.std.specs.Arc.{arc_value};
ghost use Rattle.lc_glob.specs.Path.{depth_of, max_path};
ghost use Rattle.lc_level.specs.Level.{job_at};
ghost use Rattle.lc_level.specs.TopJob.{top_job};
ghost use Rattle.lc_rules.specs.IgnoreChains.{rules_in};
ghost use Rattle.lc_rules.specs.Verdicts.{last_match};

use crate::filters::Filters;
use lc_glob::path::depth_of;
use lc_rules::{AttrChain, Chain, Rule, RuleSource};
use std::alloc::{AllocError, Global};
use std::marker::Model;
use std::sync::Arc;

/// A directory to be visited: its path, and two chains of rule files, the ignore files and the attribute files above the directory.
/// Directories with the same rule files above them share their chains. After a directory's own rule files are read, a new `Job` for the
/// directory has chains that include these files. A `Job` is one pointer, so moving it costs nothing.
///
/// ```
/// let top = Job::top(alloc, &Filters::none(alloc))?; // its path is empty, and its chains have no rule
/// ```
#[derive(Drop)]
pub struct Job {
    parts: Box<Parts, Global>,
}

#[derive(Drop)]
struct Parts {
    path: Box<Vec<u8>, Global>,
    ignore: Arc<Chain, Global>,
    attributes: Arc<AttrChain, Global>,
}

impl Model for Parts {
    ghost use Rattle.std.specs.Prelude.{◌≤◌, length};
    ghost use Rattle.std.specs.Arc.{arc_value};
    ghost use Rattle.lc_glob.specs.Path.{max_path};
    ghost use Rattle.lc_level.specs.Job.{JobModel};

    ghost Value = { JobModel };

    ghost invariant = { λ p. length p.path.value.items ≤ max_path };

    ghost view = { λ p. record { path = p.path.value.items; ignore = arc_value p.ignore; attributes = arc_value p.attributes } };
}

impl Model for Job {
    ghost use Rattle.std.specs.Box.{box_value};
    ghost use Rattle.lc_level.specs.Job.{JobModel};

    ghost Value = { JobModel };

    ghost view = { λ j. box_value j.parts };
}

impl Job {
    /// Makes the job of the top of a tree. The job has only the rules that the filters set for the whole tree.
    pub fn top(alloc: Global, filters: &Filters<'_>) -> Result<Job, AllocError>
        ensures { IfOk result (λ j. j ≡ top_job filters.now) }
    {
        let ignore = filters.top_chain()?;
        let path = Vec::new(alloc);
        let attributes = Arc::new(alloc, filters.top_attributes()?)?;
        Job::new(alloc, path, Arc::new(alloc, ignore)?, attributes)
    }

    /// Makes a job from a path and both chains.
    pub(crate) fn new(
        alloc: Global,
        path: Vec<u8>,
        ignore: Arc<Chain, Global>,
        attributes: Arc<AttrChain, Global>,
    ) -> Result<Job, AllocError>
        requires { length path.items ≤ max_path }
        ensures { IfOk result (λ j. j ≡ record { path = path.items; ignore = arc_value ignore; attributes = arc_value attributes }) }
    {
        let Ok(path) = Box::new(alloc, path) else {
            return Err(AllocError);
        };
        let parts = Parts {
            path,
            ignore,
            attributes,
        };
        match Box::new(alloc, parts) {
            Ok(parts) => Ok(Job { parts }),
            Err(_) => Err(AllocError),
        }
    }

    /// Returns the job's chain of ignore files.
    pub(crate) fn ignore(&self) -> &Arc<Chain, Global>
        ensures { arc_value result.now ≡ self.now.ignore }
    {
        &self.parts.ignore
    }

    /// Returns whether no ignore file of the tree is read.
    pub(crate) fn no_ignore(&self) -> bool
        ensures { result ≡ self.now.ignore.no_ignore }
    {
        self.parts.ignore.no_ignore()
    }

    /// Returns the job's chain of attribute files.
    pub(crate) fn attributes(&self) -> &Arc<AttrChain, Global>
        ensures { arc_value result.now ≡ self.now.attributes }
    {
        &self.parts.attributes
    }

    /// Returns the job of this directory with other chains.
    pub(crate) fn with_chains(
        &self,
        alloc: Global,
        ignore: Arc<Chain, Global>,
        attributes: Arc<AttrChain, Global>,
    ) -> Result<Job, AllocError>
        ensures { IfOk result (λ j. j ≡ record { path = self.now.path; ignore = arc_value ignore; attributes = arc_value attributes }) }
    {
        let path = self.parts.path.to_vec(alloc)?;
        Job::new(alloc, path, ignore, attributes)
    }

    /// Returns the number of segments of the directory's path.
    pub(crate) fn depth(&self) -> u32
        ensures { result ≡ depth_of self.now.path }
    {
        depth_of(self.parts.path.as_slice()) as u32
    }

    /// Makes the job of the directory at `path`, with the chains of `self`.
    pub fn at(&self, alloc: Global, path: &[u8]) -> Result<Job, AllocError>
        requires { length path.now ≤ max_path }
        ensures { IfOk result (λ j. j ≡ job_at self.now path.now) }
    {
        let path = path.to_vec(alloc)?;
        let ignore = Arc::try_clone(&self.parts.ignore)?;
        Job::new(alloc, path, ignore, Arc::try_clone(&self.parts.attributes)?)
    }

    /// Returns the last of the job's ignore rules that matches a path, and the source of this rule.
    pub fn last_match(&self, path: &[u8], is_dir: bool) -> Option<(RuleSource, &Rule)>
        ensures { option_map (λ r. (r.0, r.1.now)) result ≡ last_match (rules_in self.now.ignore) path.now is_dir }
    {
        self.parts.ignore.last_match(path, is_dir)
    }

    /// Returns the path of the directory: at most 4,096 bytes.
    pub fn path(&self) -> &[u8]
        ensures { result.now ≡ self.now.path }
    {
        &self.parts.path
    }

    /// Returns the path of the directory without a copy, and drops the chains. The path is in a box, so the result is one pointer, as a job
    /// is.
    pub fn into_path(self) -> Box<Vec<u8>, Global>
        ensures { result.value.items ≡ self.path }
    {
        let Parts {
            path,
            ignore: _,
            attributes: _,
        } = Box::into_inner(self.parts);
        path
    }
}
