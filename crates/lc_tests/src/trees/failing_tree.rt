//! A tree in which one call fails.

use super::failing_call::FailingCall;
use super::failing_file::FailingFile;
use lc_tree::{Listing, ReadFault, Tree};
use std::alloc::Global;

/// A tree that passes calls on to another tree, except for one call, which fails. Listings, openings of files and reads are counted
/// together.
///
/// A listing or an opening that fails returns `ReadFault::Failed`.
///
/// ```
/// let call = FailingCall::new(2); // the third
/// let tree = FailingTree { tree: &tree, call: &call };
/// ```
#[derive(Drop)]
pub struct FailingTree<'a, T> {
    /// The tree to which calls are passed on.
    pub tree: &'a T,
    /// The count of calls, with the number of the call that fails.
    pub call: &'a FailingCall,
}

impl<'a, T: Tree> Tree for FailingTree<'a, T> {
    type File = FailingFile<'a, T::File>;

    ghost use Rattle.lc_tests.specs.FailingTrees.{ListsOrFails, GivesOrFails};
    ghost use Rattle.lc_tests.specs.FailingContents.{fails_to_list, held_or_fails};
    ghost use Rattle.lc_tree.specs.Nameless.{nothing_named};

    ghost lists = { λ t path. ListsOrFails (T.lists t.tree.now path) };

    ghost gives = { λ t path. GivesOrFails (T.gives t.tree.now path) };

    fn list(&self, alloc: Global, path: &[u8]) -> Result<Listing, ReadFault> {
        if self.call.fails() {
            return Err(ReadFault::Failed);
        }
        self.tree.list(alloc, path)
    }

    fn open_file(&self, alloc: Global, path: &[u8]) -> Result<FailingFile<'a, T::File>, ReadFault> {
        if self.call.fails() {
            return Err(ReadFault::Failed);
        }
        match self.tree.open_file(alloc, path) {
            Ok(file) => Ok(FailingFile {
                file,
                call: self.call,
            }),
            Err(fault) => Err(fault),
        }
    }

    ghost lists_named = { λ t path. nothing_named (ListsOrFails (T.lists t.tree.now path)) };

    ghost some_listing = { λ t path. fails_to_list (T.lists t.tree.now path) };

    ghost some_content = { λ t path. held_or_fails (T.gives t.tree.now path) (T.some_content t.tree.now path) };
}
