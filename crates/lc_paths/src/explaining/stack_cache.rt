//! A cache of directory stacks, so that a directory is not opened again for a later path.

ghost use Rattle.std.specs.Prelude.{◌≡◌, ◌∷◌, ◌++◌, [], ◌-◌, Some, length, slice_get, IfOk, OnOk, IfSome};
ghost use Rattle.std.specs.Option.{option_copied};
ghost use Rattle.lc_paths.specs.Explanations.OpenDirs.{stack_at, stack_to, text_in};
ghost use Rattle.lc_paths.specs.Explanations.DirStacks.{StandsBelow, AreFirstOf, Keeps};

use crate::explaining::dir_stack::DirStack;
use crate::explaining::open_dir::OpenDir;
use crate::explaining::top_text::top_text;
use lc_level::{Filters, Scratch};
use lc_rules::RuleSource;
use memchr::memrchr;
use std::alloc::{AllocError, Global};
use std::collections::BTreeMap;
use std::marker::Model;

/// The memory that opened directories may use before some of them are dropped: about 96 MiB.
///
/// The directories above the path that is being explained are kept however large they are. If all opened directories together use more than
/// `MAX_KEPT` bytes, opening one more directory drops all directories that are not above this path. The next drop comes only after another
/// `MAX_KEPT` bytes.
pub const MAX_KEPT: usize = 96 * 1024 * 1024;

/// A cached stack whose last directory is above a path, and the rest of the path below that directory.
#[derive(Clone, Copy, Debug)]
pub(crate) struct Near<'p> {
    pub(crate) at: usize,
    pub(crate) rest: &'p [u8],
}

/// The stacks of the directories that were opened. A stack has the directories from the top directory of the tree down to an opened
/// directory. The number of a stack is its index in `stacks`.
#[derive(Drop)]
pub(crate) struct StackCache {
    alloc: Global,
    stacks: Vec<DirStack>,
    // The number of the stack whose last directory has this path. It is only a hint: whoever follows it checks the stack.
    places: BTreeMap<Vec<u8>, usize>,
    // About how many bytes the last directories of all stacks take, and how many they may take before some are dropped.
    held: usize,
    limit: usize,
    pub(crate) scratch: Scratch,
}

impl Model for StackCache {
    ghost use Rattle.std.specs.Prelude.{List};
    ghost use Rattle.lc_paths.specs.Explanations.OpenDirs.{OpenDirModel};

    ghost Value = { List (List OpenDirModel) };

    ghost view = { λ k. k.stacks.items };
}

impl StackCache {
    /// Makes an empty cache.
    pub(crate) fn new(alloc: Global) -> Result<StackCache, AllocError>
        ensures { IfOk result (λ kept. kept ≡ []) }
    {
        Ok(StackCache {
            alloc,
            stacks: Vec::new(alloc),
            places: BTreeMap::new(alloc),
            held: 0,
            limit: MAX_KEPT,
            scratch: Scratch::new(alloc)?,
        })
    }

    /// Finds the stack of a directory, if it is cached and the directory is above the path.
    fn stack_of<'p>(&self, directory: &[u8], path: &'p [u8]) -> Option<Near<'p>>
        ensures { IfSome result (λ near. StandsBelow (stack_at self.now near.at) path.now near.rest.now) }
    {
        let Some(at) = self.places.get(directory) else {
            return None;
        };
        let at = *at;
        let Some(stack) = self.stacks.get(at) else {
            return None;
        };
        match stack.rest_of(path) {
            Some(rest) => Some(Near { at, rest }),
            None => None,
        }
    }

    /// Finds the cached stack of the nearest directory above a path.
    pub(crate) fn nearest<'p>(&self, path: &'p [u8]) -> Option<Near<'p>>
        ensures { IfSome result (λ near. StandsBelow (stack_at self.now near.at) path.now near.rest.now) }
    {
        let mut above = path;
        'names: while let Some(slash) = memrchr(b'/', above) {
            above = &above[..slash];
            if let Some(near) = self.stack_of(above, path) {
                return Some(near);
            }
        }
        self.stack_of(&[], path)
    }

    /// Returns the last directory of the stack with this number.
    pub(crate) fn last(&self, at: usize) -> Option<&OpenDir>
        ensures { option_copied result ≡ slice_get (stack_at self.now at) (length (stack_at self.now at) - 1) }
    {
        match self.stacks.get(at) {
            Some(stack) => stack.last(),
            None => None,
        }
    }

    /// Returns the text of the rules of this source, as seen by the stack with the number `to`, or no bytes if there are no such rules.
    pub(crate) fn text<'w>(
        &'w self,
        filters: &'w Filters<'_>,
        to: Option<usize>,
        source: RuleSource,
    ) -> &'w [u8]
        ensures { result.now ≡ text_in filters.entry.now (stack_to self.now to) source }
    {
        let Some(at) = to else {
            return top_text(filters, source);
        };
        match self.stacks.get(at) {
            Some(stack) => stack.text(filters, source),
            None => top_text(filters, source),
        }
    }

    /// Makes the stack of a directory that was opened in the last directory of the stack `above`, or, without `above`, the stack of the top
    /// directory.
    pub(crate) fn below(
        &self,
        above: Option<usize>,
        directory: OpenDir,
    ) -> Result<DirStack, AllocError>
        ensures { IfOk result (λ stack. stack ≡ stack_to self.now above ++ directory ∷ []) }
    {
        let Some(at) = above else {
            return DirStack::top(self.alloc, directory);
        };
        match self.stacks.get(at) {
            Some(stack) => stack.with(self.alloc, directory),
            None => DirStack::top(self.alloc, directory),
        }
    }

    /// Appends a stack and returns its number.
    fn push(&mut self, stack: DirStack) -> Result<usize, AllocError>
        ensures stacks { OnOk result (self.new ≡ self.old ++ stack ∷ []) }
        ensures at { IfOk result (λ at. at ≡ length self.old) }
    {
        let at = self.stacks.len();
        if let Some(last) = stack.last() {
            self.held = self.held.saturating_add(last.size());
            let place = last.job.path().to_vec(self.alloc)?;
            self.places.insert(place, at)?;
        }
        self.stacks.push(stack)?;
        Ok(at)
    }

    /// Drops all stacks except those of the directories above the last one of `stack`. The limit becomes the size of the stacks that stay,
    /// plus `MAX_KEPT`.
    fn drop_beside(&mut self, stack: &DirStack) -> Result<(), AllocError>
        ensures { OnOk result (AreFirstOf self.new stack.now) }
    {
        self.stacks.clear();
        self.places.clear();
        self.held = 0;
        for count in 1..stack.len() {
            let first = stack.first(self.alloc, count)?;
            self.push(first)?;
        }
        self.limit = self.held.saturating_add(MAX_KEPT);
        Ok(())
    }

    /// Caches a stack and returns its number. If the cached directories take more than the limit, first drops all stacks except those of
    /// the directories above.
    ///
    /// Stacks are dropped again only after another `MAX_KEPT` bytes, so dropping stacks costs less than opening their directories.
    pub(crate) fn keep(&mut self, stack: DirStack) -> Result<usize, AllocError>
        ensures { IfOk result (λ at. Keeps self.old stack self.new at) }
    {
        if self.held > self.limit {
            self.drop_beside(&stack)?;
        }
        let at = self.push(stack)?;
        Ok(at)
    }
}
