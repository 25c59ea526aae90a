//! The directories above a path that were opened, from the top directory of the tree down.

ghost use Rattle.std.specs.Prelude.{◌≡◌, ◌∷◌, [], ◌++◌, ◌-◌, ◌≤◌, length, map, slice_get, IfOk, IfSome};
ghost use Rattle.std.specs.Arc.{arc_value};
ghost use Rattle.std.specs.Option.{option_copied};
ghost use Rattle.lc_level.specs.RuleReads.{text_items};
ghost use Rattle.lc_paths.specs.Explanations.OpenDirs.{text_or_none, text_in};
ghost use Rattle.lc_paths.specs.Explanations.DirStacks.{StandsBelow, IsFirstOf};

use crate::explaining::open_dir::OpenDir;
use crate::explaining::top_text::top_text;
use lc_level::Filters;
use lc_rules::RuleSource;
use std::alloc::{AllocError, Global};
use std::marker::Model;
use std::sync::Arc;

/// Returns the bytes of a text, or no bytes if there is no text.
fn text_or_none(text: &Option<Vec<u8>>) -> &[u8]
    ensures { result.now ≡ text_or_none (text_items text.now) }
{
    match text {
        Some(bytes) => bytes,
        None => &[],
    }
}

/// Clones the `Arc` of each directory.
fn shared(
    alloc: Global,
    directories: &[Arc<OpenDir, Global>],
) -> Result<Vec<Arc<OpenDir, Global>>, AllocError>
    ensures { IfOk result (λ same. map arc_value same.items ≡ map arc_value directories.now) }
{
    let mut same = Vec::new(alloc);
    for directory in directories {
        same.push(Arc::try_clone(directory)?)?;
    }
    Ok(same)
}

/// The opened directories from the top directory of the tree down to one directory. Stacks share the directories that both have.
#[derive(Drop)]
pub(crate) struct DirStack {
    directories: Vec<Arc<OpenDir, Global>>,
}

impl Model for DirStack {
    ghost use Rattle.std.specs.Prelude.{List, map};
    ghost use Rattle.std.specs.Arc.{arc_value};
    ghost use Rattle.lc_paths.specs.Explanations.OpenDirs.{OpenDirModel};

    ghost Value = { List OpenDirModel };

    ghost view = { λ w. map arc_value w.directories.items };
}

impl DirStack {
    /// Makes the stack of the top directory.
    pub(crate) fn top(alloc: Global, top: OpenDir) -> Result<DirStack, AllocError>
        ensures { IfOk result (λ stack. stack ≡ top ∷ []) }
    {
        let mut directories = Vec::new(alloc);
        directories.push(Arc::new(alloc, top)?)?;
        Ok(DirStack { directories })
    }

    /// Makes the stack of a directory that is in the last directory of this stack.
    pub(crate) fn with(&self, alloc: Global, directory: OpenDir) -> Result<DirStack, AllocError>
        ensures { IfOk result (λ stack. stack ≡ self.now ++ directory ∷ []) }
    {
        let mut directories = shared(alloc, &self.directories)?;
        directories.push(Arc::new(alloc, directory)?)?;
        Ok(DirStack { directories })
    }

    /// Makes the stack of the first `count` directories.
    pub(crate) fn first(&self, alloc: Global, count: usize) -> Result<DirStack, AllocError>
        requires { count ≤ length self.now }
        ensures { IfOk result (λ stack. IsFirstOf stack self.now) }
    {
        let directories = shared(alloc, &self.directories[..count])?;
        Ok(DirStack { directories })
    }

    /// Returns the number of directories.
    pub(crate) fn len(&self) -> usize
        ensures { result ≡ length self.now }
    {
        self.directories.len()
    }

    /// Returns the lowest directory.
    pub(crate) fn last(&self) -> Option<&OpenDir>
        ensures { option_copied result ≡ slice_get self.now (length self.now - 1) }
    {
        match self.directories.last() {
            Some(last) => Some(last),
            None => None,
        }
    }

    /// Returns the rest of a path below the lowest directory, if the path is below it.
    pub(crate) fn rest_of<'p>(&self, path: &'p [u8]) -> Option<&'p [u8]>
        ensures { IfSome result (λ rest. StandsBelow self.now path.now rest.now) }
    {
        let Some(last) = self.last() else {
            return None;
        };
        last.rest_of(path)
    }

    /// Returns the text of the rules of this source, or no bytes if there are no such rules.
    pub(crate) fn text<'w>(&'w self, filters: &'w Filters<'_>, source: RuleSource) -> &'w [u8]
        ensures { result.now ≡ text_in filters.entry.now self.now source }
    {
        match source {
            RuleSource::InfoExclude(depth) => match self.directories.get(depth as usize) {
                Some(directory) => text_or_none(&directory.info),
                None => &[],
            },
            RuleSource::Gitignore(depth) => match self.directories.get(depth as usize) {
                Some(directory) => text_or_none(&directory.own),
                None => &[],
            },
            RuleSource::ExcludeFrom | RuleSource::CommandLine => top_text(filters, source),
        }
    }
}
